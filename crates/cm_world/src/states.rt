//! Whether two states are equal.

ghost use Rattle.std.specs.Prelude.{◌≡◌, ◌↔◌, IsTrue, length, slice_get};
ghost use Rattle.cm_world.specs.World.{is_cell, fits_key};
ghost use Rattle.cm_world.specs.Commuting.{SameState};
ghost use Rattle.cm_world.specs.inner.Ran.{Agree, AllAgree};

use cm_eval::{CellName, State};
use cm_model::{Model, Ty};
use cm_value::{Value, member, same};

/// Whether two states with the same defaults are equal: they are where they agree at the exceptions of both.
pub fn same_states(model: &Model, left: &State, right: &State) -> bool
    requires defaults { left.now.defaults ≡ right.now.defaults }
    requires declared { length left.now.defaults ≡ length model.now.states }
    ensures same { IsTrue result ↔ SameState model.now left.now right.now }
{
    agree_at(model, left, left, right) && agree_at(model, right, left, right)
}

// Whether two states agree at the exceptions of a state.
fn agree_at(model: &Model, at: &State, left: &State, right: &State) -> bool
    requires defaults { left.now.defaults ≡ right.now.defaults }
    requires declared { length left.now.defaults ≡ length model.now.states }
    ensures agree { IsTrue result ↔ AllAgree model.now left.now right.now at.now.exceptions }
{
    'exceptions: for i in 0..at.len() {
        if !agree(model, &at.at(i).cell, left, right) {
            return false;
        }
    }
    true
}

// Whether two states agree at a cell. They do where it is no cell of the model.
fn agree(model: &Model, cell: &CellName, left: &State, right: &State) -> bool
    requires defaults { left.now.defaults ≡ right.now.defaults }
    requires declared { length left.now.defaults ≡ length model.now.states }
    ensures agree { IsTrue result ↔ Agree model.now left.now right.now cell.now }
{
    if !is_cell(model, cell) {
        return true;
    }
    let key = cell.key.as_ref();
    same(left.get(cell.state, key), right.get(cell.state, key))
}

/// Whether a cell is one of the model.
pub fn is_cell(model: &Model, cell: &CellName) -> bool
    ensures cell { result ≡ is_cell model.now cell.now }
{
    match model.states().as_slice().get(usize::from(cell.state)) {
        Some(declared) => fits_key(model, &declared.key, &cell.key),
        None => false,
    }
}

// Whether a key is one of the key type.
fn fits_key(model: &Model, ty: &Option<Ty>, key: &Option<Value>) -> bool
    ensures fits { result ≡ fits_key model.now ty.now key.now }
{
    match (ty, key) {
        (None, None) => true,
        (None, Some(_)) => false,
        (Some(_), None) => false,
        (Some(ty), Some(key)) => member(model, ty, key),
    }
}
