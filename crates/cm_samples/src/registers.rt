//! Models of a register and of a map.

ghost use Rattle.std.specs.Prelude.{◌≡◌, IfOk, [], ◌∷◌, None, codes};
ghost use Rattle.cm_model.specs.declared.ty.Ty.TheVariants as ty;
ghost use Rattle.cm_samples.specs.Parts as parts;
ghost use Rattle.cm_samples.specs.Registers.{reg_tables, map_tables, opt_tables, get_call, put_call, store_call};
ghost use Rattle.cm_samples.specs.Registers.{fill_call};

use crate::parts::{
    one, only_bool, only_cell, only_map, only_part, part, read, routine, set, set_at, some, sort,
    truth, two,
};
use cm_model::{Boxed, Call, Expr, List, Model, Name, NoMemory, StateDecl, Stmt, Ty};
use std::alloc::Global;

/// `sort V; state x: V; call get() -> V { return x; }`
/// `call put(v: V) -> bool { x = v; return true; }`
pub fn reg(alloc: Global) -> Result<Model, NoMemory>
    ensures tables { IfOk result (λ model. model ≡ reg_tables) }
{
    let sorts = sort(alloc, "V")?;
    let enums = only_bool(alloc)?;
    let states = only_cell(alloc, "x", Ty::Sort(0), None)?;
    let calls = reg_calls(alloc)?;
    let ints = List::new(alloc);
    let records = List::new(alloc);
    let funs = List::new(alloc);
    let model = Model::new(sorts, ints, enums, records, states, funs, calls);
    Ok(model)
}

/// `sort K; sort V; state m: map K -> V;`
/// `call put(k: K, v: V) -> bool { m[k] = v; return true; }`
pub fn map(alloc: Global) -> Result<Model, NoMemory>
    ensures tables { IfOk result (λ model. model ≡ map_tables) }
{
    let sorts = keys_and_values(alloc)?;
    let enums = only_bool(alloc)?;
    let states = only_map(alloc, "m", Ty::Sort(0), Ty::Sort(1), None)?;
    let calls = store_calls(alloc)?;
    let ints = List::new(alloc);
    let records = List::new(alloc);
    let funs = List::new(alloc);
    let model = Model::new(sorts, ints, enums, records, states, funs, calls);
    Ok(model)
}

/// `sort V; state x: option(V); call set(v: V) -> bool { x = some(v); return true; }`
pub fn opt(alloc: Global) -> Result<Model, NoMemory>
    ensures tables { IfOk result (λ model. model ≡ opt_tables) }
{
    let sorts = sort(alloc, "V")?;
    let enums = only_bool(alloc)?;
    let states = opt_states(alloc)?;
    let calls = fill_calls(alloc)?;
    let ints = List::new(alloc);
    let records = List::new(alloc);
    let funs = List::new(alloc);
    let model = Model::new(sorts, ints, enums, records, states, funs, calls);
    Ok(model)
}

fn reg_calls(alloc: Global) -> Result<List<Call>, NoMemory>
    ensures exact { IfOk result (λ calls. calls ≡ get_call ∷ put_call ∷ []) }
{
    let get = get_call(alloc)?;
    let put = put_call(alloc)?;
    let calls = two(alloc, get, put)?;
    Ok(calls)
}

fn get_call(alloc: Global) -> Result<Call, NoMemory>
    ensures exact { IfOk result (λ call. call ≡ get_call) }
{
    let body = one(alloc, Stmt::Return(read(0)))?;
    let call = routine(alloc, "get", List::new(alloc), 0, Ty::Sort(0), body)?;
    Ok(call)
}

fn put_call(alloc: Global) -> Result<Call, NoMemory>
    ensures exact { IfOk result (λ call. call ≡ put_call) }
{
    let body = two(alloc, set(0, Expr::Local(0)), Stmt::Return(truth()))?;
    let params = only_part(alloc, "v", Ty::Sort(0))?;
    let call = routine(alloc, "put", params, 1, Ty::Enum(0), body)?;
    Ok(call)
}

fn keys_and_values(alloc: Global) -> Result<List<Name>, NoMemory>
    ensures exact { IfOk result (λ sorts. sorts ≡ codes "K" ∷ codes "V" ∷ []) }
{
    let keys = Name::from_str(alloc, "K")?;
    let values = Name::from_str(alloc, "V")?;
    let sorts = two(alloc, keys, values)?;
    Ok(sorts)
}

fn store_calls(alloc: Global) -> Result<List<Call>, NoMemory>
    ensures exact { IfOk result (λ calls. calls ≡ store_call ∷ []) }
{
    let write = set_at(0, Expr::Local(0), Expr::Local(1));
    let body = two(alloc, write, Stmt::Return(truth()))?;
    let key = part(alloc, "k", Ty::Sort(0))?;
    let value = part(alloc, "v", Ty::Sort(1))?;
    let params = two(alloc, key, value)?;
    let call = routine(alloc, "put", params, 2, Ty::Enum(0), body)?;
    let calls = one(alloc, call)?;
    Ok(calls)
}

fn opt_states(alloc: Global) -> Result<List<StateDecl>, NoMemory>
    ensures exact { IfOk result (λ states. states ≡ parts.cell (codes "x") (ty.Option (ty.Sort 0)) None ∷ []) }
{
    let payload = Boxed::new(alloc, Ty::Sort(0))?;
    let states = only_cell(alloc, "x", Ty::Option(payload), None)?;
    Ok(states)
}

fn fill_calls(alloc: Global) -> Result<List<Call>, NoMemory>
    ensures exact { IfOk result (λ calls. calls ≡ fill_call ∷ []) }
{
    let value = some(alloc, Expr::Local(0))?;
    let body = two(alloc, set(0, value), Stmt::Return(truth()))?;
    let params = only_part(alloc, "v", Ty::Sort(0))?;
    let call = routine(alloc, "set", params, 1, Ty::Enum(0), body)?;
    let calls = one(alloc, call)?;
    Ok(calls)
}
