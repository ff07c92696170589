//! Worked examples, and a search over all values of a small range.

ghost use Rattle.std.specs.Prelude.{◌≡◌, ◌<◌, length};

use super::*;
use cm_model::IntVar;
use std::alloc::{AllocError, Global};
use std::process::Abort;
use std::test::Fail;

const ZERO: IntVar = IntVar(0);

fn mask(lt: bool, eq: bool, gt: bool) -> OrderMask {
    OrderMask { lt, eq, gt }
}

#[test]
fn within_the_bounds_of_a_type(rt: HostRuntime) -> Result<(), Fail> {
    let mut bounds = Bounds::new(rt.alloc())?;
    let x = bounds.fresh(0, 3)?;
    assert_eq!(rt; bounds.may(x, 1, ZERO), mask(false, false, true));
    assert_eq!(rt; bounds.may(x, -2, ZERO), mask(true, true, true));
    let fits = bounds.may(x, -3, ZERO);
    assert!(rt; fits.lt);
    bounds.add_lt(x, -3, ZERO);
    let twice = bounds.may(x, -2, ZERO);
    assert!(rt; twice.lt);
    bounds.add_lt(x, -2, ZERO);
    assert_eq!(rt; bounds.may(x, -2, ZERO), mask(true, false, false));
    assert_eq!(rt; bounds.least(x), 0);
    Ok(())
}

#[test]
fn two_of_three_bits_are_equal(rt: HostRuntime) -> Result<(), Fail> {
    let mut bounds = Bounds::new(rt.alloc())?;
    let x = bounds.fresh(0, 1)?;
    let y = bounds.fresh(0, 1)?;
    let z = bounds.fresh(0, 1)?;
    let first = bounds.may(x, 0, y);
    assert!(rt; first.lt);
    bounds.add_lt(x, 0, y);
    let second = bounds.may(z, 0, x);
    assert_eq!(rt; second, mask(false, true, true));
    assert!(rt; second.gt);
    let copy = bounds.try_copy(rt.alloc())?;
    bounds.add_gt(z, 0, x);
    assert_eq!(rt; bounds.may(z, 0, y), mask(false, true, false));
    assert_eq!(rt; bounds.least(z), 1);
    assert_eq!(rt; copy.may(z, 0, y), mask(true, true, false));
    assert_eq!(rt; copy.least(z), 0);
    Ok(())
}

#[test]
fn one_more_than_another(rt: HostRuntime) -> Result<(), Fail> {
    let mut bounds = Bounds::new(rt.alloc())?;
    let x = bounds.fresh(-5, 5)?;
    let y = bounds.fresh(0, 3)?;
    let order = bounds.may(x, 1, y);
    assert!(rt; order.eq);
    bounds.add_eq(x, 1, y);
    assert_eq!(rt; bounds.least(x), -1);
    assert_eq!(rt; bounds.may(x, 0, ZERO), mask(true, true, true));
    assert_eq!(rt; bounds.may(x, -2, ZERO), mask(true, true, false));
    Ok(())
}

#[test]
fn at_most_another(rt: HostRuntime) -> Result<(), Fail> {
    let mut bounds = Bounds::new(rt.alloc())?;
    bounds.has_valuation();
    let x = bounds.fresh(0, 3)?;
    let y = bounds.fresh(0, 3)?;
    let order = bounds.may(x, 2, y);
    assert!(rt; order.eq);
    bounds.add_le(x, 2, y);
    assert_eq!(rt; bounds.may(x, 2, y), mask(true, true, false));
    assert_eq!(rt; bounds.may(x, 1, ZERO), mask(false, false, true));
    assert_eq!(rt; bounds.may(x, -1, ZERO), mask(true, true, false));
    assert_eq!(rt; bounds.least(y), 2);
    Ok(())
}

type Values = [i8; 4];

fn value(values: &Values, x: usize) -> i8 {
    values.get(x).copied().unwrap_or(0)
}

fn sum(values: &Values, x: usize, c: i8) -> i16 {
    i16::from(value(values, x)) + i16::from(c)
}

/// What a search over all values finds.
fn found(left: &[Values], x: usize, c: i8, y: usize) -> OrderMask {
    let mut mask = mask(false, false, false);
    for values in left {
        let sum = sum(values, x, c);
        let other = i16::from(value(values, y));
        mask.lt |= sum < other;
        mask.eq |= sum == other;
        mask.gt |= sum > other;
    }
    mask
}

fn least(left: &[Values], x: usize) -> i64 {
    let mut least = i8::MAX;
    for values in left {
        least = least.min(value(values, x));
    }
    i64::from(least)
}

fn all_values(alloc: Global) -> Result<Vec<Values>, AllocError> {
    let mut all = Vec::new(alloc);
    for a in -2i8..3 {
        for b in 0i8..4 {
            for c in -1i8..2 {
                all.push([0, a, b, c])?;
            }
        }
    }
    Ok(all)
}

/// One question, and one of its possible outcomes added.
fn step(rt: &impl Abort, bounds: &mut Bounds, left: &mut Vec<Values>, seed: u32)
    requires { length bounds.old ≡ 4 }
    ensures { length bounds.new ≡ 4 }
{
    let x = (seed >> 8) as usize % 4;
    let y = (seed >> 12) as usize % 4;
    let c = ((seed >> 16) % 9) as i8 - 4;
    let from = IntVar(x as u64);
    let to = IntVar(y as u64);
    let mask = bounds.may(from, i64::from(c), to);
    assert_eq!(rt; mask, found(left.as_slice(), x, c, y));
    let choice = (seed >> 20) % 4;
    if choice == 0 && mask.lt {
        bounds.add_lt(from, i64::from(c), to);
        left.retain(|v| sum(v, x, c) < sum(v, y, 0));
    } else if choice == 1 && mask.eq {
        bounds.add_eq(from, i64::from(c), to);
        left.retain(|v| sum(v, x, c) == sum(v, y, 0));
    } else if choice == 2 && mask.gt {
        bounds.add_gt(from, i64::from(c), to);
        left.retain(|v| sum(v, x, c) > sum(v, y, 0));
    } else if choice == 3 && mask.eq {
        bounds.add_le(from, i64::from(c), to);
        left.retain(|v| sum(v, x, c) <= sum(v, y, 0));
    }
    assert_eq!(rt; bounds.least(to), least(left.as_slice(), y));
}

fn walk(rt: &impl Abort, alloc: Global, seed: u32) -> Result<u32, Fail> {
    let mut seed = seed;
    let mut left = all_values(alloc)?;
    let mut bounds = Bounds::new(alloc)?;
    bounds.fresh(-2, 2)?;
    bounds.fresh(0, 3)?;
    bounds.fresh(-1, 1)?;
    'steps: for _ in 0..12 {
        seed = seed.wrapping_mul(1_664_525).wrapping_add(1_013_904_223);
        step(rt, &mut bounds, &mut left, seed);
    }
    Ok(seed)
}

#[test]
fn random_additions_as_a_search_finds_them(rt: HostRuntime) -> Result<(), Fail> {
    let mut seed = 1;
    for _ in 0..200 {
        seed = walk(&rt, rt.alloc(), seed)?;
    }
    Ok(())
}

const MANY: u64 = 320;

/// Puts each variable below the next one.
fn ascend(rt: &impl Abort, bounds: &mut Bounds)
    requires { length bounds.old ≡ 321 }
    ensures { length bounds.new ≡ 321 }
{
    'variables: for x in 1..MANY {
        let order = bounds.may(IntVar(x), 0, IntVar(x + 1));
        assert!(rt; order.lt);
        bounds.add_lt(IntVar(x), 0, IntVar(x + 1));
    }
}

#[test]
fn three_hundred_and_twenty_integers_in_a_row(rt: HostRuntime) -> Result<(), Fail> {
    let mut bounds = Bounds::new(rt.alloc())?;
    'fresh: for _ in 0..MANY {
        bounds.fresh(1, 1000)?;
    }
    ascend(&rt, &mut bounds);
    assert_eq!(rt; bounds.least(IntVar(1)), 1);
    assert_eq!(rt; bounds.least(IntVar(MANY)), 320);
    assert_eq!(rt; bounds.may(IntVar(1), 681, ZERO), mask(false, false, true));
    assert_eq!(rt; bounds.may(IntVar(1), -681, ZERO), mask(true, true, false));
    Ok(())
}
