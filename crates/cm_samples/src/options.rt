//! A model with an option.

ghost use Rattle.std.specs.Prelude.{◌≡◌, IfOk, [], ◌∷◌};
ghost use Rattle.cm_samples.specs.Parts as parts;
ghost use Rattle.cm_samples.specs.Options.{payloads_tables, optional, two_options, payload_or, payload_call};

use crate::parts::{cell, one, only_bool, only_part, read, routine, same_call, sort, two};
use cm_model::{Boxed, Call, Expr, List, Model, NoMemory, StateDecl, Stmt, Ty};
use std::alloc::Global;

/// `sort E; state x: option(E); state y: option(E);`
/// `call same() -> bool { return x == y; }`
/// `call payload(d: E) -> E { case x { none { return d; } some v { return v; } } }`
pub fn payloads(alloc: Global) -> Result<Model, NoMemory>
    ensures tables { IfOk result (λ model. model ≡ payloads_tables) }
{
    let sorts = sort(alloc, "E")?;
    let enums = only_bool(alloc)?;
    let states = two_options(alloc)?;
    let calls = option_calls(alloc)?;
    let ints = List::new(alloc);
    let records = List::new(alloc);
    let funs = List::new(alloc);
    let model = Model::new(sorts, ints, enums, records, states, funs, calls);
    Ok(model)
}

fn two_options(alloc: Global) -> Result<List<StateDecl>, NoMemory>
    ensures exact { IfOk result (λ states. states ≡ two_options) }
{
    let left = optional(alloc)?;
    let right = optional(alloc)?;
    let x = cell(alloc, "x", left, None)?;
    let y = cell(alloc, "y", right, None)?;
    let states = two(alloc, x, y)?;
    Ok(states)
}

// `option(E)`
fn optional(alloc: Global) -> Result<Ty, NoMemory>
    ensures exact { IfOk result (λ t. t ≡ optional) }
{
    let inner = Boxed::new(alloc, Ty::Sort(0))?;
    Ok(Ty::Option(inner))
}

fn option_calls(alloc: Global) -> Result<List<Call>, NoMemory>
    ensures exact { IfOk result (λ calls. calls ≡ parts.same_call ∷ payload_call ∷ []) }
{
    let same = same_call(alloc)?;
    let payload = payload_call(alloc)?;
    let calls = two(alloc, same, payload)?;
    Ok(calls)
}

fn payload_call(alloc: Global) -> Result<Call, NoMemory>
    ensures exact { IfOk result (λ call. call ≡ payload_call) }
{
    let step = payload_or(alloc)?;
    let body = one(alloc, step)?;
    let params = only_part(alloc, "d", Ty::Sort(0))?;
    let call = routine(alloc, "payload", params, 1, Ty::Sort(0), body)?;
    Ok(call)
}

// `case x { none { return d; } some v { return v; } }`: the parameter is local 0, the payload the next.
fn payload_or(alloc: Global) -> Result<Stmt, NoMemory>
    ensures exact { IfOk result (λ s. s ≡ payload_or) }
{
    let none = one(alloc, Stmt::Return(Expr::Local(0)))?;
    let some = one(alloc, Stmt::Return(Expr::Local(1)))?;
    Ok(Stmt::Case {
        of: read(0),
        none,
        some,
    })
}
