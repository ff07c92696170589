//! A call on its arguments, and an invariant asked alone.

ghost use Rattle.std.specs.Prelude.{◌≡◌, ◌↔◌, IfOk, IsTrue};
ghost use Rattle.cm_model.specs.Tables.{Tables};
ghost use Rattle.cm_eval.specs.Run.{evaluation_of};
ghost use Rattle.cm_eval.specs.Invariant.{MeetsInvariant};
ghost use Rattle.cm_eval.specs.Ended.{touched_of, end_of};
ghost use Rattle.cm_eval.specs.Compiled.{IsCodeOf};

use crate::cells::ask;
use crate::code::{Code, compile_if};
use crate::drive::run_body;
use crate::log::Log;
use crate::outcome::{Args, Outcome};
use crate::state::State;
use cm_model::{Model, NoMemory};
use cm_value::{Value, copy_values};
use std::alloc::Global;

/// Runs a call on its arguments and a state, and goes on with the log. A run is blocked where an `assume` is
/// false, where a number is outside its type, or where a cell that is new to the log has a false invariant;
/// the state is then given up. Whoever runs many calls makes the code once and calls `run_call_by`.
///
/// # Errors
/// `NoMemory` where memory runs out; state and log are then given up.
pub fn run_call(
    alloc: Global,
    model: &Model,
    call: u16,
    args: &Args,
    state: &mut State,
    log: &mut Log,
) -> Result<Outcome, NoMemory>
    ensures run { IfOk result (λ o. evaluation_of model.now call args.now.vals state.old
        (touched_of log.old) log.old.steps ≡ end_of o state.new log.new) }
{
    let code = Code::of(alloc, model)?;
    let outcome = run_call_by(alloc, &code, call, args, state, log)?;
    Ok(outcome)
}

/// The same by the code of the model, which is made once for many runs.
///
/// # Errors
/// `NoMemory` where memory runs out; state and log are then given up.
pub fn run_call_by(
    alloc: Global,
    code: &Code,
    call: u16,
    args: &Args,
    state: &mut State,
    log: &mut Log,
) -> Result<Outcome, NoMemory>
    ensures run { IfOk result (λ o. (t : Tables) → IsCodeOf t code.now
        → evaluation_of t call args.now.vals state.old (touched_of log.old) log.old.steps
        ≡ end_of o state.new log.new) }
{
    let Some(body) = code.calls.get(usize::from(call)) else {
        return Ok(Outcome::Blocked);
    };
    let args = copy_values(alloc, args.vals.as_slice())?;
    match run_body(alloc, code, body.as_slice(), args, state, log)? {
        Some(v) => Ok(Outcome::Reply(v)),
        None => Ok(Outcome::Blocked),
    }
}

/// Whether the state has no invariant, or its invariant is true of the value.
///
/// # Errors
/// `NoMemory` where memory runs out.
pub fn meets_invariant(
    alloc: Global,
    model: &Model,
    state: u16,
    v: &Value,
) -> Result<bool, NoMemory>
    ensures meets { IfOk result (λ meets. IsTrue meets ↔ MeetsInvariant model.now state v.now) }
{
    let Some(declared) = model.states().get(usize::from(state)) else {
        return Ok(true);
    };
    let mut log = Log::new(alloc);
    let code = compile_if(alloc, model.ints().as_slice(), &declared.inv)?;
    let r = ask(alloc, &code, v, &mut log)?;
    Ok(r)
}
