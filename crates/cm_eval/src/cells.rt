//! Cells: touched, read, written, and asked for their invariant when they are new.

ghost use Rattle.std.specs.Prelude.{◌≡◌, ◌<◌, ℕ, Bool, IfOk, List, Option, length, slice_set, true};
ghost use Rattle.cm_model.specs.Tables.{Tables};
ghost use Rattle.cm_model.specs.declared.ty.IntDecl.{IntDecl};
ghost use Rattle.cm_model.specs.declared.body.Expr.{Expr};
ghost use Rattle.cm_eval.specs.Script.{Reads};
ghost use Rattle.cm_eval.specs.Compiled.{IsCodeOf, invariant_code_of};
ghost use Rattle.cm_eval.specs.inner.Going.{Gives, Touches, Adds, Asks, Searches, ComparesCells, Puts};

use crate::code::Code;
use crate::compare::compare;
use crate::drive::run_invariant;
use crate::log::{CellName, Log, copy_cell};
use crate::state::State;
use cm_code::Instr;
use cm_model::{List, NoMemory};
use cm_value::{Value, copy_value};
use std::alloc::Global;

/// Where a cell stands among those that were touched.
#[derive(Clone, Copy)]
pub enum Found {
    /// At this place.
    At(usize),
    /// It is new.
    Nowhere,
    /// Its key and another one are of no one type.
    Blocked,
}

/// Reads a cell: touches it and gives its value.
pub fn read(
    alloc: Global,
    code: &Code,
    cell: CellName,
    state: &State,
    log: &mut Log,
) -> Result<Option<Value>, NoMemory>
    ensures gives { IfOk result (λ r. (t : Tables) → IsCodeOf t code.now
        → Gives t (Reads cell) r state.now log.old log.new) }
{
    let Some(invariant) = code.invariants.get(usize::from(cell.state)) else {
        return Ok(None);
    };
    let Some(value) = state.value(cell.state, cell.key.as_ref()) else {
        return Ok(None);
    };
    match touch(alloc, invariant, cell, value, log)? {
        Some(_) => {
            let value = copy_value(alloc, value)?;
            Ok(Some(value))
        }
        None => Ok(None),
    }
}

/// Writes a cell: touches it, marks it as written and gives it the value. Says whether the run goes on.
pub fn write(
    alloc: Global,
    code: &Code,
    cell: CellName,
    value: Value,
    state: &mut State,
    log: &mut Log,
) -> Result<bool, NoMemory>
    ensures puts { IfOk result (λ b. (t : Tables) → IsCodeOf t code.now
        → Puts t cell value b state.old log.old state.new log.new) }
{
    let Some(invariant) = code.invariants.get(usize::from(cell.state)) else {
        return Ok(false);
    };
    let Some(before) = state.value(cell.state, cell.key.as_ref()) else {
        return Ok(false);
    };
    let name = copy_cell(alloc, &cell)?;
    match touch(alloc, invariant, name, before, log)? {
        Some(at) => {
            mark(&mut log.written, at);
            state.set(cell.state, cell.key, value)?;
            Ok(true)
        }
        None => Ok(false),
    }
}

// Marks a touched cell as written.
fn mark(written: &mut List<bool>, at: usize)
    ensures marked { written.new ≡ slice_set written.old at true }
{
    if at < written.len() {
        written.set(at, true);
    }
}

// Touches a cell with this value. Gives its place among the touched, or `None` where the run is blocked.
fn touch(
    alloc: Global,
    invariant: &Option<List<Instr>>,
    cell: CellName,
    value: &Value,
    log: &mut Log,
) -> Result<Option<usize>, NoMemory>
    ensures touches { IfOk result (λ r. (ints : List IntDecl) (e : Option Expr) → invariant.now
        ≡ invariant_code_of ints e → Touches ints e value.now cell r log.old log.new) }
{
    match find_cell(log.cells.as_slice(), &cell, &mut log.steps)? {
        Found::At(at) => Ok(Some(at)),
        Found::Nowhere => {
            let r = add(alloc, invariant, cell, value, log)?;
            Ok(r)
        }
        Found::Blocked => Ok(None),
    }
}

// A cell among those that were touched, in the order of first touch.
fn find_cell(cells: &[CellName], cell: &CellName, steps: &mut List<u8>) -> Result<Found, NoMemory>
    ensures searches { IfOk result (λ f. Searches cells.now 0 cell.now f steps.old steps.new) }
{
    for (i, other) in cells.iter().enumerate() {
        match compare_cells(cell, other, steps)? {
            Some(true) => return Ok(Found::At(i)),
            Some(false) => {}
            None => return Ok(Found::Blocked),
        }
    }
    Ok(Found::Nowhere)
}

// Two cells; keys of one map are compared by their type.
fn compare_cells(
    cell: &CellName,
    other: &CellName,
    steps: &mut List<u8>,
) -> Result<Option<bool>, NoMemory>
    ensures compares { IfOk result (λ r. ComparesCells cell.now other.now r steps.old steps.new) }
{
    if cell.state != other.state {
        return Ok(Some(false));
    }
    match (&cell.key, &other.key) {
        (None, None) => Ok(Some(true)),
        (None, Some(_)) => Ok(Some(false)),
        (Some(_), None) => Ok(Some(false)),
        (Some(left), Some(right)) => {
            let r = compare(left, right, steps)?;
            Ok(r)
        }
    }
}

// A new cell comes last among the touched, and its invariant is asked.
fn add(
    alloc: Global,
    invariant: &Option<List<Instr>>,
    cell: CellName,
    value: &Value,
    log: &mut Log,
) -> Result<Option<usize>, NoMemory>
    ensures adds { IfOk result (λ r. (ints : List IntDecl) (e : Option Expr) → invariant.now
        ≡ invariant_code_of ints e → Adds ints e value.now cell r log.old log.new) }
{
    let at = log.cells.len();
    log.cells.push(cell)?;
    log.written.push(false)?;
    if ask(alloc, invariant, value, log)? {
        return Ok(Some(at));
    }
    Ok(None)
}

/// Whether a cell's invariant is true of its value, by the invariant's code.
pub fn ask(
    alloc: Global,
    invariant: &Option<List<Instr>>,
    value: &Value,
    log: &mut Log,
) -> Result<bool, NoMemory>
    ensures asks { IfOk result (λ b. (ints : List IntDecl) (e : Option Expr) → invariant.now
        ≡ invariant_code_of ints e → Asks ints e value.now b log.old log.new) }
{
    let Some(code) = invariant else {
        return Ok(true);
    };
    let holds = run_invariant(alloc, code.as_slice(), value, &mut log.steps)?;
    Ok(holds)
}
