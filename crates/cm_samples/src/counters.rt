//! Models of counters.

ghost use Rattle.std.specs.Prelude.{◌≡◌, IfOk, [], ◌∷◌, Some, codes};
ghost use Rattle.cm_model.specs.declared.ty.Ty.TheVariants as ty;
ghost use Rattle.cm_samples.specs.Parts as parts;
ghost use Rattle.cm_samples.specs.Counters.{inc_tables, next_tables, bounded_tables, max_tables, inc_call, next_call};
ghost use Rattle.cm_samples.specs.Counters.{raise_call, count_on, raise_it, at_most_two};

use crate::parts::{
    compare, int, into, one, only_bool, only_cell, only_part, read, routine, set, shift, three,
    truth, two,
};
use cm_model::{Call, Expr, List, Model, NoMemory, Op, StateDecl, Stmt, Ty};
use std::alloc::Global;

/// `int C 0..3; state n: C; call inc() -> bool { n = C(n + 1); return true; }`
pub fn inc(alloc: Global) -> Result<Model, NoMemory>
    ensures tables { IfOk result (λ model. model ≡ inc_tables) }
{
    let ints = int(alloc, "C", 0, 3)?;
    let enums = only_bool(alloc)?;
    let states = only_cell(alloc, "n", Ty::Int(0), None)?;
    let calls = inc_calls(alloc)?;
    let sorts = List::new(alloc);
    let records = List::new(alloc);
    let funs = List::new(alloc);
    let model = Model::new(sorts, ints, enums, records, states, funs, calls);
    Ok(model)
}

/// `int C 0..3; state n: C; call next() -> C { let o = n; n = C(n + 1); return o; }`
pub fn next(alloc: Global) -> Result<Model, NoMemory>
    ensures tables { IfOk result (λ model. model ≡ next_tables) }
{
    let ints = int(alloc, "C", 0, 3)?;
    let enums = only_bool(alloc)?;
    let states = only_cell(alloc, "n", Ty::Int(0), None)?;
    let calls = next_calls(alloc)?;
    let sorts = List::new(alloc);
    let records = List::new(alloc);
    let funs = List::new(alloc);
    let model = Model::new(sorts, ints, enums, records, states, funs, calls);
    Ok(model)
}

/// `int C 0..3; state n: C where it <= 2; call inc() -> bool { n = C(n + 1); return true; }`
pub fn bounded(alloc: Global) -> Result<Model, NoMemory>
    ensures tables { IfOk result (λ model. model ≡ bounded_tables) }
{
    let ints = int(alloc, "C", 0, 3)?;
    let enums = only_bool(alloc)?;
    let states = bounded_states(alloc)?;
    let calls = inc_calls(alloc)?;
    let sorts = List::new(alloc);
    let records = List::new(alloc);
    let funs = List::new(alloc);
    let model = Model::new(sorts, ints, enums, records, states, funs, calls);
    Ok(model)
}

/// `int P 0..9; state hi: P; call raise(v: P) -> bool { if hi < v { hi = v; } return true; }`
pub fn max(alloc: Global) -> Result<Model, NoMemory>
    ensures tables { IfOk result (λ model. model ≡ max_tables) }
{
    let ints = int(alloc, "P", 0, 9)?;
    let enums = only_bool(alloc)?;
    let states = only_cell(alloc, "hi", Ty::Int(0), None)?;
    let calls = raise_calls(alloc)?;
    let sorts = List::new(alloc);
    let records = List::new(alloc);
    let funs = List::new(alloc);
    let model = Model::new(sorts, ints, enums, records, states, funs, calls);
    Ok(model)
}

fn bounded_states(alloc: Global) -> Result<List<StateDecl>, NoMemory>
    ensures exact { IfOk result (λ states. states ≡ parts.cell (codes "n") (ty.Int 0) (Some at_most_two) ∷ []) }
{
    let limit = at_most_two(alloc)?;
    let states = only_cell(alloc, "n", Ty::Int(0), Some(limit))?;
    Ok(states)
}

fn inc_calls(alloc: Global) -> Result<List<Call>, NoMemory>
    ensures exact { IfOk result (λ calls. calls ≡ inc_call ∷ []) }
{
    let step = count_on(alloc)?;
    let body = two(alloc, step, Stmt::Return(truth()))?;
    let call = routine(alloc, "inc", List::new(alloc), 0, Ty::Enum(0), body)?;
    let calls = one(alloc, call)?;
    Ok(calls)
}

fn next_calls(alloc: Global) -> Result<List<Call>, NoMemory>
    ensures exact { IfOk result (λ calls. calls ≡ next_call ∷ []) }
{
    let step = count_on(alloc)?;
    let body = three(
        alloc,
        Stmt::Let(read(0)),
        step,
        Stmt::Return(Expr::Local(0)),
    )?;
    let call = routine(alloc, "next", List::new(alloc), 0, Ty::Int(0), body)?;
    let calls = one(alloc, call)?;
    Ok(calls)
}

fn raise_calls(alloc: Global) -> Result<List<Call>, NoMemory>
    ensures exact { IfOk result (λ calls. calls ≡ raise_call ∷ []) }
{
    let step = raise_it(alloc)?;
    let body = two(alloc, step, Stmt::Return(truth()))?;
    let params = only_part(alloc, "v", Ty::Int(0))?;
    let call = routine(alloc, "raise", params, 1, Ty::Enum(0), body)?;
    let calls = one(alloc, call)?;
    Ok(calls)
}

// `n = C(n + 1);`
fn count_on(alloc: Global) -> Result<Stmt, NoMemory>
    ensures exact { IfOk result (λ s. s ≡ count_on) }
{
    let sum = shift(alloc, read(0), 1)?;
    let number = into(alloc, 0, sum)?;
    Ok(set(0, number))
}

// `if hi < v { hi = v; }`
fn raise_it(alloc: Global) -> Result<Stmt, NoMemory>
    ensures exact { IfOk result (λ s. s ≡ raise_it) }
{
    let cond = compare(alloc, Op::Lt, read(0), Expr::Local(0))?;
    let yes = one(alloc, set(0, Expr::Local(0)))?;
    let other = List::new(alloc);
    Ok(Stmt::If { cond, yes, other })
}

// `it <= 2`
fn at_most_two(alloc: Global) -> Result<Expr, NoMemory>
    ensures exact { IfOk result (λ e. e ≡ at_most_two) }
{
    let limit = compare(alloc, Op::Le, Expr::Local(0), Expr::Num(2))?;
    Ok(limit)
}
