//! Weights of expressions and bodies, counted up to the greatest of 64 bits.

ghost use Rattle.std.specs.Prelude.{◌≡◌, ◌+◌, ℕ, [], leb, map, sum};
ghost use Rattle.cm_model.specs.Limits.{invariant_weight_limit};
ghost use Rattle.cm_model.specs.Weights.{expr_weight, stmt_weight};
ghost use Rattle.cm_typing.specs.Counts as Counts;
ghost use Rattle.cm_typing.specs.Counts.{counted, set_weight};

use cm_model::limits::INVARIANT_WEIGHT;
use cm_model::{Expr, SetField, Stmt};

#[tactic(auto, using(crate::proofs::Counting::counted_sum))]
fn plus(a: u64, b: u64) -> u64
    ensures { (x y : ℕ) → a ≡ counted x → b ≡ counted y → result ≡ counted (x + y) }
{
    a.saturating_add(b)
}

// The weight of a function.
fn weight_at(funs: &[u32], fun: u16) -> u64
    ensures { result ≡ counted (Counts.weight_at funs.now fun) }
{
    match funs.get(usize::from(fun)) {
        Some(weight) => u64::from(*weight),
        None => 0,
    }
}

/// The weight of an expression, where the functions have these.
#[cycle(weigh)]
pub(crate) fn weigh(funs: &[u32], e: &Expr) -> u64
    ensures { result ≡ counted (expr_weight funs.now e.now) }
{
    match e {
        Expr::Num(_) => 1,
        Expr::Tag { ty: _, index: _ } => 1,
        Expr::Local(_) => 1,
        Expr::Cell {
            state: _,
            key: Some(key),
        } => weigh_one(funs, key.get()),
        Expr::Cell {
            state: _,
            key: None,
        } => 1,
        Expr::Fields { of, path: _ } => weigh_one(funs, of.get()),
        Expr::With { of, sets } => weigh_with(funs, sets.as_slice(), of.get()),
        Expr::Make { rec: _, parts } => weigh_node(funs, parts.as_slice()),
        Expr::NoneOf(_) => 1,
        Expr::SomeOf(of) => weigh_one(funs, of.get()),
        Expr::Shift { of, by: _ } => weigh_one(funs, of.get()),
        Expr::Into { int: _, of } => weigh_one(funs, of.get()),
        Expr::Compare { op: _, left, right } => weigh_two(funs, left.get(), right.get()),
        Expr::All(operands) => weigh_node(funs, operands.as_slice()),
        Expr::Any(operands) => weigh_node(funs, operands.as_slice()),
        Expr::Not(of) => weigh_one(funs, of.get()),
        Expr::Apply { fun, args } => weigh_apply(funs, *fun, args.as_slice()),
    }
}

#[cycle(weigh)]
fn weigh_one(funs: &[u32], of: &Expr) -> u64
    ensures { result ≡ counted (1 + expr_weight funs.now of.now) }
{
    plus(1, weigh(funs, of))
}

#[cycle(weigh)]
fn weigh_two(funs: &[u32], left: &Expr, right: &Expr) -> u64
    ensures { result ≡ counted (1 + expr_weight funs.now left.now + expr_weight funs.now right.now) }
{
    plus(weigh_one(funs, left), weigh(funs, right))
}

#[cycle(weigh)]
#[tactic(auto, using(crate::proofs::Counting::counted_part, crate::proofs::Counting::counted_twice, crate::proofs::Counting::counted_end))]
fn weigh_all(funs: &[u32], es: &[Expr]) -> u64
    ensures { result ≡ counted (sum (map (expr_weight funs.now) es.now)) }
{
    let mut total: u64 = 0;
    for e in es {
        total = total.saturating_add(weigh(funs, e));
    }
    total
}

#[cycle(weigh)]
fn weigh_node(funs: &[u32], es: &[Expr]) -> u64
    ensures { result ≡ counted (1 + sum (map (expr_weight funs.now) es.now)) }
{
    plus(1, weigh_all(funs, es))
}

#[cycle(weigh)]
fn weigh_apply(funs: &[u32], fun: u16, args: &[Expr]) -> u64
    ensures { result ≡ counted (1 + sum (map (expr_weight funs.now) args.now) + Counts.weight_at funs.now fun) }
{
    plus(weigh_node(funs, args), weight_at(funs, fun))
}

#[cycle(weigh)]
fn weigh_set(funs: &[u32], set: &SetField) -> u64
    ensures { result ≡ counted (set_weight funs.now set.now) }
{
    weigh(funs, &set.value)
}

#[cycle(weigh)]
#[tactic(auto, using(crate::proofs::Counting::counted_part, crate::proofs::Counting::counted_twice, crate::proofs::Counting::counted_end))]
fn weigh_sets(funs: &[u32], sets: &[SetField]) -> u64
    ensures { result ≡ counted (sum (map (set_weight funs.now) sets.now)) }
{
    let mut total: u64 = 0;
    for set in sets {
        total = total.saturating_add(weigh_set(funs, set));
    }
    total
}

#[cycle(weigh)]
fn weigh_with(funs: &[u32], sets: &[SetField], of: &Expr) -> u64
    ensures { result ≡ counted (1 + expr_weight funs.now of.now + sum (map (set_weight funs.now) sets.now)) }
{
    plus(weigh_one(funs, of), weigh_sets(funs, sets))
}

/// Whether an invariant is light enough.
#[tactic(auto, using(crate::proofs::Counting::counted_at_most))]
pub(crate) fn is_light(e: &Expr) -> bool
    ensures { result ≡ leb (expr_weight [] e.now) invariant_weight_limit }
{
    weigh(&[], e) <= u64::from(INVARIANT_WEIGHT)
}

/// The weight of statements together.
#[cycle(weigh_body)]
#[tactic(auto, using(crate::proofs::Counting::counted_part, crate::proofs::Counting::counted_twice, crate::proofs::Counting::counted_end))]
pub(crate) fn weigh_body(funs: &[u32], body: &[Stmt]) -> u64
    ensures { result ≡ counted (sum (map (stmt_weight funs.now) body.now)) }
{
    let mut total: u64 = 0;
    for stmt in body {
        total = total.saturating_add(weigh_stmt(funs, stmt));
    }
    total
}

#[cycle(weigh_body)]
fn weigh_stmt(funs: &[u32], stmt: &Stmt) -> u64
    ensures { result ≡ counted (stmt_weight funs.now stmt.now) }
{
    match stmt {
        Stmt::Let(e) => weigh_one(funs, e),
        Stmt::Set {
            state: _,
            key: Some(key),
            value,
        } => weigh_two(funs, key, value),
        Stmt::Set {
            state: _,
            key: None,
            value,
        } => weigh_one(funs, value),
        Stmt::If { cond, yes, other } => plus(
            plus(weigh_one(funs, cond), weigh_body(funs, yes.as_slice())),
            weigh_body(funs, other.as_slice()),
        ),
        Stmt::Case { of, none, some } => plus(
            plus(weigh_one(funs, of), weigh_body(funs, none.as_slice())),
            weigh_body(funs, some.as_slice()),
        ),
        Stmt::Assume(e) => weigh_one(funs, e),
        Stmt::Return(e) => weigh_one(funs, e),
    }
}
