//! The path of a world.

ghost use Rattle.std.specs.Prelude.{◌≡◌, ◌<◌, ◌++◌, IfOk, OnOk, length, List, ℕ, slice_get, Some, None};
ghost use Rattle.cm_eval.specs.State.{look_up};
ghost use Rattle.cm_eval.specs.Ended.{touched_of};
ghost use Rattle.cm_eval.specs.Comparison.{variant};
ghost use Rattle.cm_eval.specs.Compiled.{IsCodeOf};
ghost use Rattle.cm_world.specs.World.{IsWorldOf};
ghost use Rattle.cm_world.specs.Path.{path_of_world, last_comparison, cells_inspected, cell_inspected, variants_logged};
ghost use Rattle.cm_world.specs.inner.Ran.{Inspection, Inspects, InspectsAll, AreDeclared};

use crate::World;
use crate::order::{BothOrders, Outcomes, run_both};
use cm_eval::{CellName, Code, Log, State, log_both};
use cm_model::{List, Model, NoMemory, Pair, limits};
use cm_value::Value;
use std::alloc::Global;

/// The path of a world: the decisions of ab, then those of ba, then those of the last comparison. A blocked
/// run ends it. Whoever asks it of many worlds makes the code once and calls `path_by`.
///
/// # Errors
/// `NoMemory` where memory runs out.
pub fn path_of(
    alloc: Global,
    model: &Model,
    pair: Pair,
    world: &World,
) -> Result<List<u8>, NoMemory>
    requires world { IsWorldOf model.now pair world.now }
    ensures exact { IfOk result (λ path. path ≡ path_of_world model.now pair world.now) }
{
    let code = Code::of(alloc, model)?;
    let path = path_by(alloc, model, &code, pair, world)?;
    Ok(path)
}

/// The same by the code of the model, which is made once for many worlds.
///
/// # Errors
/// `NoMemory` where memory runs out.
pub fn path_by(
    alloc: Global,
    model: &Model,
    code: &Code,
    pair: Pair,
    world: &World,
) -> Result<List<u8>, NoMemory>
    requires code { IsCodeOf model.now code.now }
    requires world { IsWorldOf model.now pair world.now }
    ensures exact { IfOk result (λ path. path ≡ path_of_world model.now pair world.now) }
{
    let _ = model.states();
    let mut log = Log::new(alloc);
    match run_both(alloc, code, pair, world, &mut log)? {
        BothOrders::Replied(outcomes) => {
            inspect_last(&outcomes, &mut log)?;
            Ok(log.steps)
        }
        BothOrders::Blocked => Ok(log.steps),
    }
}

// The last comparison: the replies of a, those of b, and the written cells.
fn inspect_last(outcomes: &Outcomes, log: &mut Log) -> Result<(), NoMemory>
    requires left { AreDeclared (length outcomes.now.after_ab.defaults) log.old.cells }
    requires right { AreDeclared (length outcomes.now.after_ba.defaults) log.old.cells }
    ensures steps { OnOk result (log.new.steps ≡ log.old.steps ++ last_comparison outcomes.now (touched_of log.old)) }
{
    if !inspect(&outcomes.a_in_ab, &outcomes.a_in_ba, &mut log.steps)? {
        return Ok(());
    }
    if !inspect(&outcomes.b_in_ab, &outcomes.b_in_ba, &mut log.steps)? {
        return Ok(());
    }
    inspect_cells(
        &outcomes.after_ab,
        &outcomes.after_ba,
        log.cells.as_slice(),
        log.written.as_slice(),
        &mut log.steps,
    )
}

// The final values of the cells that were written.
fn inspect_cells(
    left: &State,
    right: &State,
    cells: &[CellName],
    written: &[bool],
    steps: &mut List<u8>,
) -> Result<(), NoMemory>
    requires left { AreDeclared (length left.now.defaults) cells.now }
    requires right { AreDeclared (length right.now.defaults) cells.now }
    ensures steps { OnOk result (steps.new ≡ steps.old ++ cells_inspected left.now right.now cells.now written.now) }
{
    'cells: for i in 0..cells.len() {
        if i >= written.len() {
            return Ok(());
        }
        if written[i] {
            if !inspect_cell(left, right, &cells[i], steps)? {
                return Ok(());
            }
        }
    }
    Ok(())
}

// The two values of a cell. Says whether the comparison goes on.
fn inspect_cell(
    left: &State,
    right: &State,
    cell: &CellName,
    steps: &mut List<u8>,
) -> Result<bool, NoMemory>
    requires left { cell.now.state < length left.now.defaults }
    requires right { cell.now.state < length right.now.defaults }
    ensures inspects { IfOk result (λ on. Inspection (cell_inspected (look_up left.now cell.now)
        (look_up right.now cell.now)) on steps.old steps.new) }
{
    let key = cell.key.as_ref();
    let r = inspect(left.get(cell.state, key), right.get(cell.state, key), steps)?;
    Ok(r)
}

// Two values, the left one being of ab. Says whether the comparison goes on. Values that are of no one type
// log nothing.
#[cycle(inspect)]
fn inspect(left: &Value, right: &Value, steps: &mut List<u8>) -> Result<bool, NoMemory>
    ensures inspects { IfOk result (λ on. Inspects left.now right.now on steps.old steps.new) }
{
    match (left, right) {
        (Value::Tag(m), Value::Tag(n)) => {
            let r = inspect_variants(*m, *n, steps)?;
            Ok(r)
        }
        (Value::Rec(ms), Value::Rec(ns)) => {
            let r = inspect_fields(ms.as_slice(), ns.as_slice(), steps)?;
            Ok(r)
        }
        (Value::None, Value::None) => {
            let same = log_both(0, 0, steps)?;
            Ok(same)
        }
        (Value::None, Value::Some(_)) => {
            let same = log_both(0, 1, steps)?;
            Ok(same)
        }
        (Value::Some(_), Value::None) => {
            let same = log_both(1, 0, steps)?;
            Ok(same)
        }
        (Value::Some(m), Value::Some(n)) => {
            log_both(1, 1, steps)?;
            let r = inspect(m.get(), n.get(), steps)?;
            Ok(r)
        }
        _ => Ok(true),
    }
}

// Field by field.
#[cycle(inspect)]
fn inspect_fields(left: &[Value], right: &[Value], steps: &mut List<u8>) -> Result<bool, NoMemory>
    ensures inspects { IfOk result (λ on. InspectsAll left.now right.now on steps.old steps.new) }
{
    for i in 0..left.len() {
        if i >= right.len() {
            return Ok(true);
        }
        if !inspect(&left[i], &right[i], steps)? {
            return Ok(false);
        }
    }
    Ok(true)
}

// The variants of one enum. Numbers past the limit on variants are none.
fn inspect_variants(left: u16, right: u16, steps: &mut List<u8>) -> Result<bool, NoMemory>
    ensures inspects { IfOk result (λ on. Inspection (variants_logged (variant left)
        (variant right)) on steps.old steps.new) }
{
    if left >= limits::VARIANTS || right >= limits::VARIANTS {
        return Ok(true);
    }
    let same = log_both(left as u8, right as u8, steps)?;
    Ok(same)
}
