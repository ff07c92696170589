//! A model of two flags.

ghost use Rattle.std.specs.Prelude.{◌≡◌, IfOk, [], ◌∷◌, Some, codes};
ghost use Rattle.cm_samples.specs.Flags.{open_tables, fire_tables, unset_tables, open_call, set_call, fire_call};
ghost use Rattle.cm_samples.specs.Flags.{mark_call, assume_unused, fire_if_on, is_unset};
ghost use Rattle.cm_model.specs.declared.ty.Ty.TheVariants as ty;
ghost use Rattle.cm_samples.specs.Parts as parts;

use crate::parts::{
    not, on_and_out, one, only_bool, only_map, only_part, read, read_at, routine, set, set_at,
    sort, three, truth, two,
};
use cm_model::{Call, Expr, List, Model, NoMemory, StateDecl, Stmt, Ty};
use std::alloc::Global;

/// `sort Fd; state used: map Fd -> bool;`
/// `call open(; internal d: Fd) -> Fd { assume not used[d]; used[d] = true; return d; }`
pub fn open(alloc: Global) -> Result<Model, NoMemory>
    ensures tables { IfOk result (λ model. model ≡ open_tables) }
{
    let sorts = sort(alloc, "Fd")?;
    let enums = only_bool(alloc)?;
    let states = only_map(alloc, "used", Ty::Sort(0), Ty::Enum(0), None)?;
    let calls = open_calls(alloc)?;
    let ints = List::new(alloc);
    let records = List::new(alloc);
    let funs = List::new(alloc);
    let model = Model::new(sorts, ints, enums, records, states, funs, calls);
    Ok(model)
}

/// `state on: bool; state out: bool; call set() -> bool { on = true; return true; }`
/// `call fire() -> bool { if on { out = true; } return true; }`
pub fn fire(alloc: Global) -> Result<Model, NoMemory>
    ensures tables { IfOk result (λ model. model ≡ fire_tables) }
{
    let enums = only_bool(alloc)?;
    let states = on_and_out(alloc)?;
    let calls = fire_calls(alloc)?;
    let sorts = List::new(alloc);
    let ints = List::new(alloc);
    let records = List::new(alloc);
    let funs = List::new(alloc);
    let model = Model::new(sorts, ints, enums, records, states, funs, calls);
    Ok(model)
}

/// `sort K; state m: map K -> bool where not it;`
/// `call put(k: K) -> bool { m[k] = true; return true; }`
pub fn unset(alloc: Global) -> Result<Model, NoMemory>
    ensures tables { IfOk result (λ model. model ≡ unset_tables) }
{
    let sorts = sort(alloc, "K")?;
    let enums = only_bool(alloc)?;
    let states = unset_states(alloc)?;
    let calls = mark_calls(alloc)?;
    let ints = List::new(alloc);
    let records = List::new(alloc);
    let funs = List::new(alloc);
    let model = Model::new(sorts, ints, enums, records, states, funs, calls);
    Ok(model)
}

fn open_calls(alloc: Global) -> Result<List<Call>, NoMemory>
    ensures exact { IfOk result (λ calls. calls ≡ open_call ∷ []) }
{
    let unused = assume_unused(alloc)?;
    let write = set_at(0, Expr::Local(0), truth());
    let body = three(alloc, unused, write, Stmt::Return(Expr::Local(0)))?;
    let params = only_part(alloc, "d", Ty::Sort(0))?;
    let call = routine(alloc, "open", params, 0, Ty::Sort(0), body)?;
    let calls = one(alloc, call)?;
    Ok(calls)
}

// `assume not used[d];`
fn assume_unused(alloc: Global) -> Result<Stmt, NoMemory>
    ensures exact { IfOk result (λ s. s ≡ assume_unused) }
{
    let used = read_at(alloc, 0, Expr::Local(0))?;
    let unused = not(alloc, used)?;
    Ok(Stmt::Assume(unused))
}

fn fire_calls(alloc: Global) -> Result<List<Call>, NoMemory>
    ensures exact { IfOk result (λ calls. calls ≡ set_call ∷ fire_call ∷ []) }
{
    let set_it = set_call(alloc)?;
    let fire_it = fire_call(alloc)?;
    let calls = two(alloc, set_it, fire_it)?;
    Ok(calls)
}

fn set_call(alloc: Global) -> Result<Call, NoMemory>
    ensures exact { IfOk result (λ call. call ≡ set_call) }
{
    let body = two(alloc, set(0, truth()), Stmt::Return(truth()))?;
    let call = routine(alloc, "set", List::new(alloc), 0, Ty::Enum(0), body)?;
    Ok(call)
}

fn fire_call(alloc: Global) -> Result<Call, NoMemory>
    ensures exact { IfOk result (λ call. call ≡ fire_call) }
{
    let step = fire_if_on(alloc)?;
    let body = two(alloc, step, Stmt::Return(truth()))?;
    let call = routine(alloc, "fire", List::new(alloc), 0, Ty::Enum(0), body)?;
    Ok(call)
}

// `if on { out = true; }`
fn fire_if_on(alloc: Global) -> Result<Stmt, NoMemory>
    ensures exact { IfOk result (λ s. s ≡ fire_if_on) }
{
    let yes = one(alloc, set(1, truth()))?;
    let other = List::new(alloc);
    Ok(Stmt::If {
        cond: read(0),
        yes,
        other,
    })
}

fn unset_states(alloc: Global) -> Result<List<StateDecl>, NoMemory>
    ensures exact { IfOk result (λ states. states ≡ parts.map_from (codes "m") (ty.Sort 0) parts.bool (Some is_unset)
        ∷ []) }
{
    let limit = not(alloc, Expr::Local(0))?;
    let states = only_map(alloc, "m", Ty::Sort(0), Ty::Enum(0), Some(limit))?;
    Ok(states)
}

fn mark_calls(alloc: Global) -> Result<List<Call>, NoMemory>
    ensures exact { IfOk result (λ calls. calls ≡ mark_call ∷ []) }
{
    let write = set_at(0, Expr::Local(0), truth());
    let body = two(alloc, write, Stmt::Return(truth()))?;
    let params = only_part(alloc, "k", Ty::Sort(0))?;
    let call = routine(alloc, "put", params, 1, Ty::Enum(0), body)?;
    let calls = one(alloc, call)?;
    Ok(calls)
}
