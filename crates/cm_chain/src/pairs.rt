//! What the last comparison compares.

ghost use Rattle.std.specs.Prelude.{◌≡◌, ◌++◌, ◌∷◌, [], IfOk, OnOk};
ghost use Rattle.cm_beside.specs.Beside.{compared as compared_of, finals, sides};

use cm_cells::{Cells, Order};
use cm_exec::Sides;
use cm_model::{List, NoMemory};
use cm_term::Term;
use std::alloc::Global;

/// The replies of a, those of b, and the final terms of the written cells, those of the order ab on the left.
pub fn compared(
    alloc: Global,
    a: Term,
    b: Term,
    b_first: Term,
    a_last: Term,
    cells: &Cells,
) -> Result<List<Sides>, NoMemory>
    ensures { IfOk result (λ pairs. pairs ≡ compared_of a b b_first a_last cells.now) }
{
    let mut pairs = List::new(alloc);
    pairs.push(Sides {
        left: a,
        right: a_last,
    })?;
    pairs.push(Sides {
        left: b,
        right: b_first,
    })?;
    push_finals(&mut pairs, cells)?;
    Ok(pairs)
}

// The final terms of the cells that were written, in the order of first touch.
fn push_finals(pairs: &mut List<Sides>, cells: &Cells) -> Result<(), NoMemory>
    ensures { OnOk result (pairs.new ≡ pairs.old ++ finals cells.now.written cells.now.ab cells.now.ba) }
{
    let count = cells.len();
    'cells: for cell in 0..count {
        if cells.written(cell) {
            let left = cells.value(Order::Ab, cell).share()?;
            let right = cells.value(Order::Ba, cell).share()?;
            pairs.push(Sides { left, right })?;
        }
    }
    Ok(())
}
