//! Runs on values: the machine goes from event to event, and each is done as it comes.

ghost use Rattle.std.specs.Prelude.{◌≡◌, ◌≤◌, ℕ, IfOk, OnOk, List, []};
ghost use Rattle.cm_model.specs.Tables.{Tables};
ghost use Rattle.cm_model.specs.declared.ty.IntDecl.{IntDecl};
ghost use Rattle.cm_model.specs.declared.body.Expr.{Expr};
ghost use Rattle.cm_model.specs.declared.body.Stmt.{Stmt};
ghost use Rattle.cm_value.specs.declared.value.Value.{Value};
ghost use Rattle.cm_code.specs.declared.instr.Instr.{Instr};
ghost use Rattle.cm_code.specs.declared.event.Event.TheVariants as event;
ghost use Rattle.cm_code.specs.Compiling.{body_code, invariant_code};
ghost use Rattle.cm_code.specs.Machine.{with_body, script, told, event_of};
ghost use Rattle.cm_code.specs.Steps.{steps_left};
ghost use Rattle.cm_eval.specs.declared.operand.Operand.{Operand};
ghost use Rattle.cm_eval.specs.Evaluation.{Doing, body_of, meanings};
ghost use Rattle.cm_eval.specs.Values.{values};
ghost use Rattle.cm_eval.specs.Compiled.{IsCodeOf};
ghost use Rattle.cm_eval.specs.Script.{Replies};
ghost use Rattle.cm_eval.specs.State.{Store, Touched};
ghost use Rattle.cm_eval.specs.Run.{Ended, logged, run};
ghost use Rattle.cm_eval.specs.Ended.{touched_of, stopped};
ghost use Rattle.cm_eval.specs.inner.Going.{Turns, TurnsIn, InvariantRan, GoesDown, turned_by, goes_on, ended_by};

use crate::cells::{read, write};
use crate::code::Code;
use crate::decide::{compare_operands, convert, inspect, open_option, order_operands};
use crate::log::{CellName, Log};
use crate::operand::Operand;
use crate::state::{Except, State};
use cm_code::{Event, Instr, Machine, Ranked, Then, go, hand, open, rank, start, tell};
use cm_model::{List, NoMemory};
use cm_value::{Vals, Value, copy_value};
use std::alloc::Global;

/// What came of a turn.
#[derive(Drop)]
pub enum Turned {
    /// The run goes on.
    On,
    /// It ended with a reply.
    Ended(Value),
    /// It is blocked.
    Blocked,
}

// Goes on where a bool was waited for, or is blocked.
fn tell_on(
    alloc: Global,
    m: &mut Machine<Value, Operand>,
    wanted: Then,
    b: bool,
) -> Result<Turned, NoMemory>
    ensures means { IfOk result (λ r. (codes : List (List Instr)) (log : List ℕ) →
        Turns (told Value Operand Doing values codes m.old wanted b) r
        (script Value Operand Doing values codes m.new) log log) }
    ensures left { OnOk result ((codes : List (List Instr)) → steps_left codes m.new ≤ steps_left codes m.old) }
{
    if tell(alloc, m, wanted, b)? {
        Ok(Turned::On)
    } else {
        Ok(Turned::Blocked)
    }
}

// An inspection.
fn inspect_on(
    alloc: Global,
    m: &mut Machine<Value, Operand>,
    o: Operand,
    wanted: Then,
    steps: &mut List<u8>,
) -> Result<Turned, NoMemory>
    ensures means { IfOk result (λ r. (codes : List (List Instr)) →
        Turns (event_of Value Operand Doing values codes (event.Inspects o wanted) m.old) r
        (script Value Operand Doing values codes m.new) steps.old steps.new) }
    ensures left { OnOk result ((codes : List (List Instr)) → steps_left codes m.new ≤ steps_left codes m.old) }
{
    match inspect(&o, steps)? {
        Some(b) => {
            let r = tell_on(alloc, m, wanted, b)?;
            Ok(r)
        }
        None => Ok(Turned::Blocked),
    }
}

// A comparison.
fn compare_on(
    alloc: Global,
    m: &mut Machine<Value, Operand>,
    both: (Operand, Operand),
    wanted: Then,
    steps: &mut List<u8>,
) -> Result<Turned, NoMemory>
    ensures means { IfOk result (λ r. (codes : List (List Instr)) →
        Turns (event_of Value Operand Doing values codes (event.Compares both.0 both.1 wanted) m.old) r
        (script Value Operand Doing values codes m.new) steps.old steps.new) }
    ensures left { OnOk result ((codes : List (List Instr)) → steps_left codes m.new ≤ steps_left codes m.old) }
{
    match compare_operands(&both.0, &both.1, steps)? {
        Some(b) => {
            let r = tell_on(alloc, m, wanted, b)?;
            Ok(r)
        }
        None => Ok(Turned::Blocked),
    }
}

// The order of two numbers.
fn order_on(
    alloc: Global,
    m: &mut Machine<Value, Operand>,
    both: (Operand, Operand),
    ranked: Ranked,
    steps: &mut List<u8>,
) -> Result<Turned, NoMemory>
    ensures means { IfOk result (λ r. (codes : List (List Instr)) →
        Turns (event_of Value Operand Doing values codes (event.Orders both.0 both.1 ranked) m.old) r
        (script Value Operand Doing values codes m.new) steps.old steps.new) }
    ensures left { OnOk result ((codes : List (List Instr)) → steps_left codes m.new ≤ steps_left codes m.old) }
{
    match order_operands(&both.0, &both.1, steps)? {
        Some(d) => {
            rank(alloc, m, ranked, d)?;
            Ok(Turned::On)
        }
        None => Ok(Turned::Blocked),
    }
}

// A number as one from `lo` to `hi`.
fn convert_on(
    m: &mut Machine<Value, Operand>,
    lo: i64,
    hi: i64,
    of: Operand,
    steps: &mut List<u8>,
) -> Result<Turned, NoMemory>
    ensures means { IfOk result (λ r. (codes : List (List Instr)) →
        Turns (event_of Value Operand Doing values codes (event.Into lo hi of) m.old) r
        (script Value Operand Doing values codes m.new) steps.old steps.new) }
    ensures left { OnOk result ((codes : List (List Instr)) → steps_left codes m.new ≤ steps_left codes m.old) }
{
    match convert(lo, hi, &of, steps)? {
        Some(v) => {
            hand(m, v)?;
            Ok(Turned::On)
        }
        None => Ok(Turned::Blocked),
    }
}

// The inspection of an option.
fn open_on(
    m: &mut Machine<Value, Operand>,
    of: Value,
    over: u32,
    steps: &mut List<u8>,
) -> Result<Turned, NoMemory>
    ensures means { IfOk result (λ r. (codes : List (List Instr)) →
        Turns (event_of Value Operand Doing values codes (event.Opens of over) m.old) r
        (script Value Operand Doing values codes m.new) steps.old steps.new) }
    ensures left { OnOk result ((codes : List (List Instr)) → steps_left codes m.new ≤ steps_left codes m.old) }
{
    match open_option(of, steps)? {
        Some(payload) => {
            open(m, over, payload)?;
            Ok(Turned::On)
        }
        None => Ok(Turned::Blocked),
    }
}

// Goes on to the next event of an invariant and does it. An invariant touches no cell.
fn turn_invariant(
    alloc: Global,
    code: &[Instr],
    m: &mut Machine<Value, Operand>,
    steps: &mut List<u8>,
) -> Result<Turned, NoMemory>
    ensures means { IfOk result (λ r. (ints : List IntDecl) (s : Store) (t : Touched) →
        logged steps.old (run ints [] s t (script Value Operand Doing values (with_body [] code.now) m.old))
        ≡ turned_by r s t steps.new (logged steps.new (run ints [] s t (script Value Operand Doing values
        (with_body [] code.now) m.new)))) }
    ensures left { IfOk result (λ r. GoesDown (steps_left (with_body [] code.now) m.old) (steps_left
        (with_body [] code.now) m.new) r) }
{
    match go(alloc, &[], code, m)? {
        Event::Inspects(o, wanted) => {
            let r = inspect_on(alloc, m, o, wanted, steps)?;
            Ok(r)
        }
        Event::Compares(x, y, wanted) => {
            let r = compare_on(alloc, m, (x, y), wanted, steps)?;
            Ok(r)
        }
        Event::Orders(x, y, ranked) => {
            let r = order_on(alloc, m, (x, y), ranked, steps)?;
            Ok(r)
        }
        Event::Into { lo, hi, of } => {
            let r = convert_on(m, lo, hi, of, steps)?;
            Ok(r)
        }
        Event::Opens(v, over) => {
            let r = open_on(m, v, over, steps)?;
            Ok(r)
        }
        Event::Reads(_, _) => Ok(Turned::Blocked),
        Event::Writes(_, _, _) => Ok(Turned::Blocked),
        Event::Replies(v) => Ok(Turned::Ended(v)),
        Event::Blocks => Ok(Turned::Blocked),
    }
}

/// Runs a cell's invariant on the cell's value, by its code, and says whether it is true.
pub fn run_invariant(
    alloc: Global,
    code: &[Instr],
    value: &Value,
    steps: &mut List<u8>,
) -> Result<bool, NoMemory>
    ensures ran { IfOk result (λ b. (ints : List IntDecl) (e : Expr) → code.now ≡ invariant_code ints e
        → InvariantRan ints e value.now b steps.old steps.new) }
{
    let mut locals = List::new(alloc);
    locals.push(copy_value(alloc, value)?)?;
    let mut m = start(alloc, 0, locals);
    'turns: loop {
        match turn_invariant(alloc, code, &mut m, steps)? {
            Turned::On => {}
            Turned::Ended(_) => return Ok(true),
            Turned::Blocked => return Ok(false),
        }
    }
}

// A read.
fn read_on(
    alloc: Global,
    code: &Code,
    m: &mut Machine<Value, Operand>,
    cell: CellName,
    state: &State,
    log: &mut Log,
) -> Result<Turned, NoMemory>
    ensures means { IfOk result (λ r. (t : Tables) (codes : List (List Instr)) → IsCodeOf t code.now →
        TurnsIn t (event_of Value Operand Doing values codes (event.Reads cell.state cell.key) m.old) r
        (script Value Operand Doing values codes m.new) state.now log.old state.now log.new) }
    ensures left { OnOk result ((codes : List (List Instr)) → steps_left codes m.new ≤ steps_left codes m.old) }
{
    match read(alloc, code, cell, state, log)? {
        Some(v) => {
            hand(m, v)?;
            Ok(Turned::On)
        }
        None => Ok(Turned::Blocked),
    }
}

// A write.
fn write_on(
    alloc: Global,
    code: &Code,
    m: &Machine<Value, Operand>,
    written: Except,
    state: &mut State,
    log: &mut Log,
) -> Result<Turned, NoMemory>
    ensures means { IfOk result (λ r. (t : Tables) (codes : List (List Instr)) → IsCodeOf t code.now →
        TurnsIn t
        (event_of Value Operand Doing values codes (event.Writes written.cell.state written.cell.key written.value)
        m.now) r
        (script Value Operand Doing values codes m.now) state.old log.old state.new log.new) }
{
    if write(alloc, code, written.cell, written.value, state, log)? {
        Ok(Turned::On)
    } else {
        Ok(Turned::Blocked)
    }
}

// Goes on to the next event of a run and does it.
fn turn(
    alloc: Global,
    code: &Code,
    body: &[Instr],
    m: &mut Machine<Value, Operand>,
    state: &mut State,
    log: &mut Log,
) -> Result<Turned, NoMemory>
    ensures means { IfOk result (λ r. (t : Tables) → IsCodeOf t code.now →
        TurnsIn t (script Value Operand Doing values (with_body code.now.funs body.now) m.old) r
        (script Value Operand Doing values (with_body code.now.funs body.now) m.new)
        state.old log.old state.new log.new) }
    ensures left { IfOk result (λ r. GoesDown (steps_left (with_body code.now.funs body.now) m.old) (steps_left
        (with_body code.now.funs body.now) m.new) r) }
{
    match go(alloc, code.funs.as_slice(), body, m)? {
        Event::Inspects(o, wanted) => {
            let r = inspect_on(alloc, m, o, wanted, &mut log.steps)?;
            Ok(r)
        }
        Event::Compares(x, y, wanted) => {
            let r = compare_on(alloc, m, (x, y), wanted, &mut log.steps)?;
            Ok(r)
        }
        Event::Orders(x, y, ranked) => {
            let r = order_on(alloc, m, (x, y), ranked, &mut log.steps)?;
            Ok(r)
        }
        Event::Into { lo, hi, of } => {
            let r = convert_on(m, lo, hi, of, &mut log.steps)?;
            Ok(r)
        }
        Event::Opens(v, over) => {
            let r = open_on(m, v, over, &mut log.steps)?;
            Ok(r)
        }
        Event::Reads(state_at, key) => {
            let cell = CellName {
                state: state_at,
                key,
            };
            let r = read_on(alloc, code, m, cell, state, log)?;
            Ok(r)
        }
        Event::Writes(state_at, key, value) => {
            let cell = CellName {
                state: state_at,
                key,
            };
            let r = write_on(alloc, code, m, Except { cell, value }, state, log)?;
            Ok(r)
        }
        Event::Replies(v) => Ok(Turned::Ended(v)),
        Event::Blocks => Ok(Turned::Blocked),
    }
}

/// Runs a body by its code on its arguments and a state. Gives the reply, or `None` where the run is blocked.
pub fn run_body(
    alloc: Global,
    code: &Code,
    body: &[Instr],
    args: Vals,
    state: &mut State,
    log: &mut Log,
) -> Result<Option<Value>, NoMemory>
    ensures ran { IfOk result (λ r. (t : Tables) (stmts : List Stmt) → IsCodeOf t code.now → body.now
        ≡ body_code t.ints stmts →
        goes_on t state.old log.old (body_of t.ints (meanings t.ints t.funs) stmts args Replies)
        ≡ ended_by r (λ v. Ended v state.new (touched_of log.new) log.new.steps) (stopped log.new)) }
{
    let mut m = start(alloc, code.funs.len(), args);
    'turns: loop {
        match turn(alloc, code, body, &mut m, state, log)? {
            Turned::On => {}
            Turned::Ended(v) => return Ok(Some(v)),
            Turned::Blocked => return Ok(None),
        }
    }
}
