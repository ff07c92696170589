//! A model with a record.

ghost use Rattle.std.specs.Prelude.{◌≡◌, IfOk, [], ◌∷◌};
ghost use Rattle.cm_samples.specs.Parts as parts;
ghost use Rattle.cm_samples.specs.Points.{records_tables, point, points_and_elements, right_and_left, fill_it};
ghost use Rattle.cm_samples.specs.Points.{fill_call, first_call};

use crate::parts::{
    cell, field, four, one, only_bool, part, read, routine, same_call, set, sort, three, two, with,
};
use cm_model::{Call, List, Model, Name, NoMemory, RecDecl, SetField, StateDecl, Stmt, Ty};
use std::alloc::Global;

/// `sort E; record P { x: E, y: E } state p: P; state q: P; state l: E; state r: E;`
/// `call same() -> bool { return p == q; }`
/// `call fill() -> P { p = p with { y: r, x: l }; return p; }`
/// `call first() -> E { return p.x; }`
pub fn records(alloc: Global) -> Result<Model, NoMemory>
    ensures tables { IfOk result (λ model. model ≡ records_tables) }
{
    let sorts = sort(alloc, "E")?;
    let enums = only_bool(alloc)?;
    let records = only_point(alloc)?;
    let states = points_and_elements(alloc)?;
    let calls = record_calls(alloc)?;
    let ints = List::new(alloc);
    let funs = List::new(alloc);
    let model = Model::new(sorts, ints, enums, records, states, funs, calls);
    Ok(model)
}

fn only_point(alloc: Global) -> Result<List<RecDecl>, NoMemory>
    ensures exact { IfOk result (λ records. records ≡ point ∷ []) }
{
    let name = Name::from_str(alloc, "P")?;
    let x = part(alloc, "x", Ty::Sort(0))?;
    let y = part(alloc, "y", Ty::Sort(0))?;
    let fields = two(alloc, x, y)?;
    let records = one(alloc, RecDecl { name, fields })?;
    Ok(records)
}

fn points_and_elements(alloc: Global) -> Result<List<StateDecl>, NoMemory>
    ensures exact { IfOk result (λ states. states ≡ points_and_elements) }
{
    let p = cell(alloc, "p", Ty::Rec(0), None)?;
    let q = cell(alloc, "q", Ty::Rec(0), None)?;
    let l = cell(alloc, "l", Ty::Sort(0), None)?;
    let r = cell(alloc, "r", Ty::Sort(0), None)?;
    let states = four(alloc, p, q, l, r)?;
    Ok(states)
}

fn record_calls(alloc: Global) -> Result<List<Call>, NoMemory>
    ensures exact { IfOk result (λ calls. calls ≡ parts.same_call ∷ fill_call ∷ first_call ∷ []) }
{
    let same = same_call(alloc)?;
    let fill = fill_call(alloc)?;
    let first = first_call(alloc)?;
    let calls = three(alloc, same, fill, first)?;
    Ok(calls)
}

fn fill_call(alloc: Global) -> Result<Call, NoMemory>
    ensures exact { IfOk result (λ call. call ≡ fill_call) }
{
    let step = fill_it(alloc)?;
    let body = two(alloc, step, Stmt::Return(read(0)))?;
    let call = routine(alloc, "fill", List::new(alloc), 0, Ty::Rec(0), body)?;
    Ok(call)
}

// `p = p with { y: r, x: l };`
fn fill_it(alloc: Global) -> Result<Stmt, NoMemory>
    ensures exact { IfOk result (λ s. s ≡ fill_it) }
{
    let sets = right_and_left(alloc)?;
    let filled = with(alloc, read(0), sets)?;
    Ok(set(0, filled))
}

// `{ y: r, x: l }`: not in the order of the fields, so that a set that goes by its place is seen.
fn right_and_left(alloc: Global) -> Result<List<SetField>, NoMemory>
    ensures exact { IfOk result (λ sets. sets ≡ right_and_left) }
{
    let right = SetField {
        field: 1,
        value: read(3),
    };
    let left = SetField {
        field: 0,
        value: read(2),
    };
    let sets = two(alloc, right, left)?;
    Ok(sets)
}

fn first_call(alloc: Global) -> Result<Call, NoMemory>
    ensures exact { IfOk result (λ call. call ≡ first_call) }
{
    let x = field(alloc, read(0), 0)?;
    let body = one(alloc, Stmt::Return(x))?;
    let call = routine(alloc, "first", List::new(alloc), 0, Ty::Sort(0), body)?;
    Ok(call)
}
