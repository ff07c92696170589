//! A model with functions.

ghost use Rattle.std.specs.Prelude.{◌≡◌, IfOk, [], ◌∷◌};
ghost use Rattle.cm_samples.specs.Functions.{routines_tables, mark_fun, need_fun, tell_call, must_call, both_call};
ghost use Rattle.cm_samples.specs.Functions.{either_call};

use crate::parts::{
    and, apply, four, on_and_out, one, only_bool, or, read, routine, set, truth, two,
};
use cm_model::{Call, List, Model, NoMemory, Stmt, Ty};
use std::alloc::Global;

/// `state on: bool; state out: bool;`
/// `fn mark() -> bool { out = true; return on; }`
/// `fn need() -> bool { assume on; return true; }`
/// `call tell() -> bool { return mark(); }`
/// `call must() -> bool { out = true; return need(); }`
/// `call both() -> bool { return on and out; }`
/// `call either() -> bool { return on or out; }`
pub fn routines(alloc: Global) -> Result<Model, NoMemory>
    ensures tables { IfOk result (λ model. model ≡ routines_tables) }
{
    let enums = only_bool(alloc)?;
    let states = on_and_out(alloc)?;
    let funs = routine_funs(alloc)?;
    let calls = routine_calls(alloc)?;
    let sorts = List::new(alloc);
    let ints = List::new(alloc);
    let records = List::new(alloc);
    let model = Model::new(sorts, ints, enums, records, states, funs, calls);
    Ok(model)
}

fn routine_funs(alloc: Global) -> Result<List<Call>, NoMemory>
    ensures exact { IfOk result (λ funs. funs ≡ mark_fun ∷ need_fun ∷ []) }
{
    let mark = mark_fun(alloc)?;
    let need = need_fun(alloc)?;
    let funs = two(alloc, mark, need)?;
    Ok(funs)
}

fn mark_fun(alloc: Global) -> Result<Call, NoMemory>
    ensures exact { IfOk result (λ fun. fun ≡ mark_fun) }
{
    let body = two(alloc, set(1, truth()), Stmt::Return(read(0)))?;
    let fun = routine(alloc, "mark", List::new(alloc), 0, Ty::Enum(0), body)?;
    Ok(fun)
}

fn need_fun(alloc: Global) -> Result<Call, NoMemory>
    ensures exact { IfOk result (λ fun. fun ≡ need_fun) }
{
    let body = two(alloc, Stmt::Assume(read(0)), Stmt::Return(truth()))?;
    let fun = routine(alloc, "need", List::new(alloc), 0, Ty::Enum(0), body)?;
    Ok(fun)
}

fn routine_calls(alloc: Global) -> Result<List<Call>, NoMemory>
    ensures exact { IfOk result (λ calls. calls ≡ tell_call ∷ must_call ∷ both_call ∷ either_call ∷ []) }
{
    let tell = tell_call(alloc)?;
    let must = must_call(alloc)?;
    let both = both_call(alloc)?;
    let either = either_call(alloc)?;
    let calls = four(alloc, tell, must, both, either)?;
    Ok(calls)
}

fn tell_call(alloc: Global) -> Result<Call, NoMemory>
    ensures exact { IfOk result (λ call. call ≡ tell_call) }
{
    let body = one(alloc, Stmt::Return(apply(alloc, 0)))?;
    let call = routine(alloc, "tell", List::new(alloc), 0, Ty::Enum(0), body)?;
    Ok(call)
}

fn must_call(alloc: Global) -> Result<Call, NoMemory>
    ensures exact { IfOk result (λ call. call ≡ must_call) }
{
    let body = two(alloc, set(1, truth()), Stmt::Return(apply(alloc, 1)))?;
    let call = routine(alloc, "must", List::new(alloc), 0, Ty::Enum(0), body)?;
    Ok(call)
}

fn both_call(alloc: Global) -> Result<Call, NoMemory>
    ensures exact { IfOk result (λ call. call ≡ both_call) }
{
    let both = and(alloc, read(0), read(1))?;
    let body = one(alloc, Stmt::Return(both))?;
    let call = routine(alloc, "both", List::new(alloc), 0, Ty::Enum(0), body)?;
    Ok(call)
}

fn either_call(alloc: Global) -> Result<Call, NoMemory>
    ensures exact { IfOk result (λ call. call ≡ either_call) }
{
    let either = or(alloc, read(0), read(1))?;
    let body = one(alloc, Stmt::Return(either))?;
    let call = routine(alloc, "either", List::new(alloc), 0, Ty::Enum(0), body)?;
    Ok(call)
}
