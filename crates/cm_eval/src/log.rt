//! What a run logs: decisions, touched cells, and which of them were written.

ghost use Rattle.std.specs.Prelude.{◌≡◌, [], IfOk};

use cm_model::{List, NoMemory};
use cm_value::{Value, copy_value};
use std::alloc::Global;

/// The name of a cell: a state, and a key where the state is a map.
#[derive(Drop)]
pub struct CellName {
    /// The number of the state.
    pub state: u16,
    /// The key.
    pub key: Option<Value>,
}

/// What was decided and touched so far.
#[derive(Drop)]
pub struct Log {
    /// The decisions in order.
    pub steps: List<u8>,
    /// The distinct cells in the order of first touch.
    pub cells: List<CellName>,
    /// For each of the cells, whether an assignment has written it.
    pub written: List<bool>,
}

impl Log {
    /// A log of no decisions and no cells.
    pub fn new(alloc: Global) -> Log
        ensures steps { result.steps ≡ [] }
        ensures cells { result.cells ≡ [] }
        ensures written { result.written ≡ [] }
    {
        Log {
            steps: List::new(alloc),
            cells: List::new(alloc),
            written: List::new(alloc),
        }
    }
}

/// An equal name of a cell.
pub fn copy_cell(alloc: Global, cell: &CellName) -> Result<CellName, NoMemory>
    ensures equal { IfOk result (λ copy. copy ≡ cell.now) }
{
    let key = match &cell.key {
        Some(key) => Some(copy_value(alloc, key)?),
        None => None,
    };
    Ok(CellName {
        state: cell.state,
        key,
    })
}
