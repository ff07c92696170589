//! What the models are made of.

ghost use Rattle.std.specs.Prelude.{◌≡◌, IfOk, [], ◌∷◌, Some, None};
ghost use Rattle.cm_model.specs.declared.ty.Ty.TheVariants as ty;
ghost use Rattle.cm_model.specs.declared.body.Expr.TheVariants as expr;
ghost use Rattle.cm_model.specs.declared.body.Stmt.TheVariants as stmt;
ghost use Rattle.cm_samples.specs.Parts as parts;

use cm_model::{
    Boxed, Call, EnumDecl, Expr, IntDecl, List, Name, NoMemory, Op, Part, SetField, StateDecl,
    Stmt, Ty,
};
use std::alloc::Global;

/// A list of one item.
pub(crate) fn one<T: Drop>(alloc: Global, item: T) -> Result<List<T>, NoMemory>
    ensures exact { IfOk result (λ items. items ≡ item ∷ []) }
{
    let mut items = List::new(alloc);
    items.push(item)?;
    Ok(items)
}

/// A list of two items.
pub(crate) fn two<T: Drop>(alloc: Global, first: T, second: T) -> Result<List<T>, NoMemory>
    ensures exact { IfOk result (λ items. items ≡ first ∷ second ∷ []) }
{
    let mut items = List::new(alloc);
    items.push(first)?;
    items.push(second)?;
    Ok(items)
}

/// A list of three items.
pub(crate) fn three<T: Drop>(
    alloc: Global,
    first: T,
    second: T,
    third: T,
) -> Result<List<T>, NoMemory>
    ensures exact { IfOk result (λ items. items ≡ first ∷ second ∷ third ∷ []) }
{
    let mut items = List::new(alloc);
    items.push(first)?;
    items.push(second)?;
    items.push(third)?;
    Ok(items)
}

/// A list of four items.
pub(crate) fn four<T: Drop>(
    alloc: Global,
    first: T,
    second: T,
    third: T,
    fourth: T,
) -> Result<List<T>, NoMemory>
    ensures exact { IfOk result (λ items. items ≡ first ∷ second ∷ third ∷ fourth ∷ []) }
{
    let mut items = List::new(alloc);
    items.push(first)?;
    items.push(second)?;
    items.push(third)?;
    items.push(fourth)?;
    Ok(items)
}

/// A list of one sort.
pub(crate) fn sort(alloc: Global, name: &str) -> Result<List<Name>, NoMemory>
    ensures exact { IfOk result (λ sorts. sorts ≡ name.now ∷ []) }
{
    let name = Name::from_str(alloc, name)?;
    let sorts = one(alloc, name)?;
    Ok(sorts)
}

/// The enums of a model that declares none.
pub(crate) fn only_bool(alloc: Global) -> Result<List<EnumDecl>, NoMemory>
    ensures exact { IfOk result (λ enums. enums ≡ parts.bool_enum ∷ []) }
{
    let name = Name::from_str(alloc, "bool")?;
    let no = Name::from_str(alloc, "false")?;
    let yes = Name::from_str(alloc, "true")?;
    let variants = two(alloc, no, yes)?;
    let enums = one(alloc, EnumDecl { name, variants })?;
    Ok(enums)
}

/// A list of one integer type.
pub(crate) fn int(alloc: Global, name: &str, lo: i64, hi: i64) -> Result<List<IntDecl>, NoMemory>
    ensures exact { IfOk result (λ ints. ints ≡ record { name = name.now; lo = lo; hi = hi } ∷ []) }
{
    let name = Name::from_str(alloc, name)?;
    let ints = one(alloc, IntDecl { name, lo, hi })?;
    Ok(ints)
}

/// A named part.
pub(crate) fn part(alloc: Global, name: &str, ty: Ty) -> Result<Part, NoMemory>
    ensures exact { IfOk result (λ part. part ≡ parts.part name.now ty) }
{
    let name = Name::from_str(alloc, name)?;
    Ok(Part { name, ty })
}

/// A list of one named part.
pub(crate) fn only_part(alloc: Global, name: &str, ty: Ty) -> Result<List<Part>, NoMemory>
    ensures exact { IfOk result (λ those. those ≡ parts.part name.now ty ∷ []) }
{
    let part = part(alloc, name, ty)?;
    let parts = one(alloc, part)?;
    Ok(parts)
}

/// A state that is one cell.
pub(crate) fn cell(
    alloc: Global,
    name: &str,
    value: Ty,
    inv: Option<Expr>,
) -> Result<StateDecl, NoMemory>
    ensures exact { IfOk result (λ state. state ≡ parts.cell name.now value inv) }
{
    let name = Name::from_str(alloc, name)?;
    Ok(StateDecl {
        name,
        key: None,
        value,
        inv,
    })
}

/// A list of one state, which is one cell.
pub(crate) fn only_cell(
    alloc: Global,
    name: &str,
    value: Ty,
    inv: Option<Expr>,
) -> Result<List<StateDecl>, NoMemory>
    ensures exact { IfOk result (λ states. states ≡ parts.cell name.now value inv ∷ []) }
{
    let state = cell(alloc, name, value, inv)?;
    let states = one(alloc, state)?;
    Ok(states)
}

/// `state on: bool; state out: bool;`
pub(crate) fn on_and_out(alloc: Global) -> Result<List<StateDecl>, NoMemory>
    ensures exact { IfOk result (λ states. states ≡ parts.on_and_out) }
{
    let on = cell(alloc, "on", Ty::Enum(0), None)?;
    let out = cell(alloc, "out", Ty::Enum(0), None)?;
    let states = two(alloc, on, out)?;
    Ok(states)
}

/// A list of one state, which is a map.
pub(crate) fn only_map(
    alloc: Global,
    name: &str,
    key: Ty,
    value: Ty,
    inv: Option<Expr>,
) -> Result<List<StateDecl>, NoMemory>
    ensures exact { IfOk result (λ states. states ≡ parts.map_from name.now key value inv ∷ []) }
{
    let name = Name::from_str(alloc, name)?;
    let state = StateDecl {
        name,
        key: Some(key),
        value,
        inv,
    };
    let states = one(alloc, state)?;
    Ok(states)
}

/// A function or call.
pub(crate) fn routine(
    alloc: Global,
    name: &str,
    params: List<Part>,
    outer: u16,
    reply: Ty,
    body: List<Stmt>,
) -> Result<Call, NoMemory>
    ensures exact { IfOk result (λ call. call ≡ parts.routine name.now params outer reply body) }
{
    let name = Name::from_str(alloc, name)?;
    Ok(Call {
        name,
        params,
        outer,
        reply,
        body,
    })
}

/// Whether states 0 and 1 are equal, in a call `same() -> bool`.
pub(crate) fn same_call(alloc: Global) -> Result<Call, NoMemory>
    ensures exact { IfOk result (λ call. call ≡ parts.same_call) }
{
    let same = compare(alloc, Op::Eq, read(0), read(1))?;
    let body = one(alloc, Stmt::Return(same))?;
    let call = routine(alloc, "same", List::new(alloc), 0, Ty::Enum(0), body)?;
    Ok(call)
}

/// `true`.
pub(crate) fn truth() -> Expr
    ensures exact { result ≡ parts.truth }
{
    Expr::Tag { ty: 0, index: 1 }
}

/// A state that is one cell.
pub(crate) fn read(state: u16) -> Expr
    ensures exact { result ≡ expr.Cell state None }
{
    Expr::Cell { state, key: None }
}

/// A map at a key.
pub(crate) fn read_at(alloc: Global, state: u16, key: Expr) -> Result<Expr, NoMemory>
    ensures exact { IfOk result (λ e. e ≡ expr.Cell state (Some key)) }
{
    let key = Boxed::new(alloc, key)?;
    Ok(Expr::Cell {
        state,
        key: Some(key),
    })
}

/// An operand plus a number.
pub(crate) fn shift(alloc: Global, of: Expr, by: i64) -> Result<Expr, NoMemory>
    ensures exact { IfOk result (λ e. e ≡ expr.Shift of by) }
{
    let of = Boxed::new(alloc, of)?;
    Ok(Expr::Shift { of, by })
}

/// An operand as a number of an integer type.
pub(crate) fn into(alloc: Global, int: u16, of: Expr) -> Result<Expr, NoMemory>
    ensures exact { IfOk result (λ e. e ≡ expr.Into int of) }
{
    let of = Boxed::new(alloc, of)?;
    Ok(Expr::Into { int, of })
}

/// The contrary of an operand.
pub(crate) fn not(alloc: Global, of: Expr) -> Result<Expr, NoMemory>
    ensures exact { IfOk result (λ e. e ≡ expr.Not of) }
{
    let of = Boxed::new(alloc, of)?;
    Ok(Expr::Not(of))
}

/// An option with a payload.
pub(crate) fn some(alloc: Global, of: Expr) -> Result<Expr, NoMemory>
    ensures exact { IfOk result (λ e. e ≡ expr.SomeOf of) }
{
    let of = Boxed::new(alloc, of)?;
    Ok(Expr::SomeOf(of))
}

/// A comparison.
pub(crate) fn compare(alloc: Global, op: Op, left: Expr, right: Expr) -> Result<Expr, NoMemory>
    ensures exact { IfOk result (λ e. e ≡ expr.Compare op left right) }
{
    let left = Boxed::new(alloc, left)?;
    let right = Boxed::new(alloc, right)?;
    Ok(Expr::Compare { op, left, right })
}

/// Both of two operands are true.
pub(crate) fn and(alloc: Global, left: Expr, right: Expr) -> Result<Expr, NoMemory>
    ensures exact { IfOk result (λ e. e ≡ expr.All (left ∷ right ∷ [])) }
{
    let operands = two(alloc, left, right)?;
    Ok(Expr::All(operands))
}

/// One of two operands is true.
pub(crate) fn or(alloc: Global, left: Expr, right: Expr) -> Result<Expr, NoMemory>
    ensures exact { IfOk result (λ e. e ≡ expr.Any (left ∷ right ∷ [])) }
{
    let operands = two(alloc, left, right)?;
    Ok(Expr::Any(operands))
}

/// A function on no arguments.
pub(crate) fn apply(alloc: Global, fun: u16) -> Expr
    ensures exact { result ≡ expr.Apply fun [] }
{
    let args = List::new(alloc);
    Expr::Apply { fun, args }
}

/// A field of a record.
pub(crate) fn field(alloc: Global, of: Expr, number: u16) -> Result<Expr, NoMemory>
    ensures exact { IfOk result (λ e. e ≡ expr.Fields of (number ∷ [])) }
{
    let of = Boxed::new(alloc, of)?;
    let path = one(alloc, number)?;
    Ok(Expr::Fields { of, path })
}

/// A record with some fields replaced.
pub(crate) fn with(alloc: Global, of: Expr, sets: List<SetField>) -> Result<Expr, NoMemory>
    ensures exact { IfOk result (λ e. e ≡ expr.With of sets) }
{
    let of = Boxed::new(alloc, of)?;
    Ok(Expr::With { of, sets })
}

/// A write of a state that is one cell.
pub(crate) fn set(state: u16, value: Expr) -> Stmt
    ensures exact { result ≡ stmt.Set state None value }
{
    Stmt::Set {
        state,
        key: None,
        value,
    }
}

/// A write of a map at a key.
pub(crate) fn set_at(state: u16, key: Expr, value: Expr) -> Stmt
    ensures exact { result ≡ stmt.Set state (Some key) value }
{
    Stmt::Set {
        state,
        key: Some(key),
        value,
    }
}
