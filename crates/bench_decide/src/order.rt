//! Times the bounds of integers.

ghost use Rattle.std.specs.Prelude.{◌≡◌, ◌<◌, ◌≤◌, ◌+◌, ◌^◌, IfOk, length};

use crate::Work;
use cm_model::{IntVar, NoMemory};
use cm_order::{Bounds, OrderMask};
use std::alloc::Global;

/// The sum of what `count` rounds of the work answer, on `variables` variables.
pub fn run(alloc: Global, work: Work, variables: u64, count: u64) -> Result<u64, NoMemory>
    requires two { 2 ≤ variables }
    requires few { variables < 2 ^ 31 }
{
    let mut bounds = fill(alloc, variables)?;
    let mut sum = 0u64;
    'rounds: for round in 0..count {
        let answer = match work {
            Work::Additions => add(&mut bounds, variables, round),
            Work::Queries => ask(&bounds, variables, round),
            Work::Copies => bounds
                .try_copy(alloc)?
                .least(IntVar(variables))
                .unsigned_abs(),
        };
        sum = sum.wrapping_mul(31).wrapping_add(answer);
    }
    Ok(sum)
}

fn fill(alloc: Global, variables: u64) -> Result<Bounds, NoMemory>
    ensures { IfOk result (λ b. length b ≡ variables + 1) }
{
    let mut bounds = Bounds::new(alloc)?;
    'fresh: for _ in 0..variables {
        bounds.fresh(-1_000_000, 1_000_000)?;
    }
    Ok(bounds)
}

/// Another variable than 0 in each round, and one that differs from it.
fn pair(variables: u64, round: u64) -> (IntVar, IntVar)
    requires two { 2 ≤ variables }
    requires few { variables < 2 ^ 31 }
    ensures first { result.0.0 ≤ variables }
    ensures second { result.1.0 ≤ variables }
{
    let first = round % variables;
    let apart = 1 + round / variables % (variables - 1);
    (IntVar(1 + first), IntVar(1 + (first + apart) % variables))
}

/// Lowers one difference below each one before, so that each addition goes over the matrix.
fn add(bounds: &mut Bounds, variables: u64, round: u64) -> u64
    requires two { 2 ≤ variables }
    requires few { variables < 2 ^ 31 }
    requires count { length bounds.old ≡ variables + 1 }
    ensures { length bounds.new ≡ variables + 1 }
{
    let (x, y) = pair(variables, round);
    let c = (round % 1_000_000) as i64 - 2_000_000;
    let order = bounds.may(x, c, y);
    if order.lt {
        bounds.add_lt(x, c, y);
    }
    number(order)
}

fn ask(bounds: &Bounds, variables: u64, round: u64) -> u64
    requires two { 2 ≤ variables }
    requires few { variables < 2 ^ 31 }
    requires count { length bounds.now ≡ variables + 1 }
{
    let (x, y) = pair(variables, round);
    let c = (round % 4_000_001) as i64 - 2_000_000;
    number(bounds.may(x, c, y))
}

fn number(order: OrderMask) -> u64 {
    u64::from(order.lt) + 2 * u64::from(order.eq) + 4 * u64::from(order.gt)
}
