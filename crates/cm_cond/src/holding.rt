//! Whether a case or a condition holds of a world.

ghost use Rattle.std.specs.Prelude.{◌≡◌, ◌↔◌, map, length, IsTrue, IfOk};
ghost use Rattle.std.specs.List.{list_all, list_any};
ghost use Rattle.cm_world.specs.World.{IsWorldOf};
ghost use Rattle.cm_cond.specs.Values.{roots_on};
ghost use Rattle.cm_cond.specs.Holding.{both, it_is, is_from, same_number, other_number, stands_so, literal_holds, CaseHolds, ConditionHolds};
ghost use Rattle.cm_cond.specs.inner.Values.{AreInitial};

use crate::key::{Known, cell_value};
use crate::symbol::{element_of, number_of, presence_of, raised, variant_of};
use crate::{Case, CellTerm, Condition, Literal, Ord3};
use cm_model::{List, Model, NoMemory, Pair};
use cm_value::Value;
use cm_world::World;
use std::alloc::Global;

/// Whether a case holds of a world of the pair: the key of each of its cells has a value, and each literal is true.
///
/// # Errors
/// `NoMemory` where memory runs out.
pub fn holds(
    alloc: Global,
    model: &Model,
    pair: Pair,
    case: &Case,
    world: &World,
) -> Result<bool, NoMemory>
    requires world { IsWorldOf model.now pair world.now }
    ensures exact { IfOk result (λ holds. IsTrue holds ↔ CaseHolds model.now case.now world.now) }
{
    match initial_values(alloc, model, case.cells.as_slice(), world)? {
        Some(values) => Ok(all_hold(world, values.as_slice(), case.literals.as_slice())),
        None => Ok(false),
    }
}

/// Whether one of a condition's cases holds of a world of the pair.
///
/// # Errors
/// `NoMemory` where memory runs out.
pub fn condition_holds(
    alloc: Global,
    model: &Model,
    pair: Pair,
    condition: &Condition,
    world: &World,
) -> Result<bool, NoMemory>
    requires world { IsWorldOf model.now pair world.now }
    ensures exact { IfOk result (λ holds. IsTrue holds ↔ ConditionHolds model.now condition.now world.now) }
{
    'cases: for case in condition.cases.as_slice() {
        if holds(alloc, model, pair, case, world)? {
            return Ok(true);
        }
    }
    Ok(false)
}

// The initial values of cells, or none where a key has no value.
fn initial_values(
    alloc: Global,
    model: &Model,
    cells: &[CellTerm],
    world: &World,
) -> Result<Option<List<Option<Value>>>, NoMemory>
    requires { length world.now.init.defaults ≡ length model.now.states }
    ensures { IfOk result (AreInitial model.now world.now cells.now) }
{
    let mut values = List::new(alloc);
    'cells: for cell in cells {
        let known = Known {
            alloc,
            model,
            world,
            cells: values.as_slice(),
        };
        match cell_value(&known, cell)? {
            Some(value) => values.push(Some(value))?,
            None => return Ok(None),
        }
    }
    Ok(Some(values))
}

fn all_hold(world: &World, cells: &[Option<Value>], literals: &[Literal]) -> bool
    ensures { result ≡ list_all (literal_holds (roots_on world.now cells.now)) literals.now }
{
    'literals: for literal in literals {
        if !literal_holds(world, cells, literal) {
            return false;
        }
    }
    true
}

// Whether a literal's symbols have values, and what it says of them is so.
fn literal_holds(world: &World, cells: &[Option<Value>], literal: &Literal) -> bool
    ensures { result ≡ literal_holds (roots_on world.now cells.now) literal.now }
{
    match literal {
        Literal::Same { x, y } => same(element_of(world, cells, x), element_of(world, cells, y)),
        Literal::Differ { x, y } => differ(
            element_of(world, cells, x),
            element_of(world, cells, y),
        ),
        Literal::Order { x, plus, op, y } => {
            stand_so(
                *op,
                raised(world, cells, x, *plus),
                number_of(world, cells, y),
            )
        }
        Literal::Against { x, op, n } => stand_so(
            *op,
            number_of(world, cells, x),
            Some(i128::from(*n)),
        ),
        Literal::Within { x, plus, lo, hi } => is_within(raised(world, cells, x, *plus), *lo, *hi),
        Literal::Tag { x, index } => variant_of(world, cells, x) == Some(*index),
        Literal::IsNone(x) => presence_of(world, cells, x) == Some(false),
        Literal::IsSome(x) => presence_of(world, cells, x) == Some(true),
    }
}

fn same(left: Option<u64>, right: Option<u64>) -> bool
    ensures { result ≡ both same_number left right }
{
    match (left, right) {
        (Some(m), Some(n)) => m == n,
        _ => false,
    }
}

fn differ(left: Option<u64>, right: Option<u64>) -> bool
    ensures { result ≡ both other_number left right }
{
    match (left, right) {
        (Some(m), Some(n)) => m != n,
        _ => false,
    }
}

fn stand_so(op: Ord3, left: Option<i128>, right: Option<i128>) -> bool
    ensures { result ≡ both (stands_so op) left right }
{
    match (left, right) {
        (Some(m), Some(n)) => stands_so(op, m, n),
        _ => false,
    }
}

fn stands_so(op: Ord3, left: i128, right: i128) -> bool
    ensures { result ≡ stands_so op left right }
{
    match op {
        Ord3::Less => left < right,
        Ord3::Equal => left == right,
        Ord3::Greater => left > right,
    }
}

fn is_within(n: Option<i128>, lo: i64, hi: i64) -> bool
    ensures { result ≡ it_is (is_from lo hi) n }
{
    match n {
        Some(n) => i128::from(lo) <= n && n <= i128::from(hi),
        None => false,
    }
}
