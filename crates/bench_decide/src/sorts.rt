//! Times the classes of elements.

ghost use Rattle.std.specs.Prelude.{◌≡◌, ◌<◌, ◌≤◌, ◌+◌, ◌^◌, IfOk, OnOk, IsTrue, length};
ghost use Rattle.bench_decide.specs.OneSort.{IsOneSort};

use crate::Work;
use cm_model::{NoMemory, SortVar};
use cm_sorts::Classes;
use std::alloc::Global;

/// The sum of what `count` rounds of the work answer, on `variables` variables.
pub fn run(alloc: Global, work: Work, variables: u64, count: u64) -> Result<u64, NoMemory>
    requires two { 2 ≤ variables }
    requires few { variables < 2 ^ 31 }
{
    let whole = fill(alloc, variables)?;
    let mut classes = whole.try_copy(alloc)?;
    classes.reserve()?;
    let restarts = matches!(work, Work::Additions);
    let mut sum = 0u64;
    'rounds: for round in 0..count {
        if restarts && round % variables == 0 {
            classes = whole.try_copy(alloc)?;
            classes.reserve()?;
        }
        let answer = match work {
            Work::Additions => add(&mut classes, variables, round),
            Work::Queries => ask(&classes, variables, round),
            Work::Copies => classes.try_copy(alloc)?.pick(SortVar(variables - 1)).0,
        };
        sum = sum.wrapping_mul(31).wrapping_add(answer);
    }
    Ok(sum)
}

fn fill(alloc: Global, variables: u64) -> Result<Classes, NoMemory>
    ensures { IfOk result (λ c. IsOneSort variables c.sorts) }
{
    let mut classes = Classes::new(alloc);
    'fresh: for _ in 0..variables {
        classes.fresh(0)?;
    }
    Ok(classes)
}

fn pair(variables: u64, round: u64) -> (SortVar, SortVar)
    requires two { 2 ≤ variables }
    requires few { variables < 2 ^ 31 }
    ensures first { result.0.0 < variables }
    ensures second { result.1.0 < variables }
{
    let first = round % variables;
    let apart = 1 + round / variables % (variables - 1);
    (SortVar(first), SortVar((first + apart) % variables))
}

/// A difference or an equality by turns, where it is possible.
fn add(classes: &mut Classes, variables: u64, round: u64) -> u64
    requires two { 2 ≤ variables }
    requires few { variables < 2 ^ 31 }
    requires one_sort { IsOneSort variables classes.old.sorts }
    requires spare { IsTrue classes.old.spare }
    ensures one_sort { IsOneSort variables classes.new.sorts }
    ensures spare { IsTrue classes.new.spare }
{
    let (x, y) = pair(variables, round);
    if round % 2 == 0 {
        if classes.may_differ(x, y) {
            classes.differ(x, y);
        }
    } else if classes.may_equal(x, y) {
        classes.equal(x, y);
    }
    classes.pick(y).0
}

fn ask(classes: &Classes, variables: u64, round: u64) -> u64
    requires two { 2 ≤ variables }
    requires few { variables < 2 ^ 31 }
    requires one_sort { IsOneSort variables classes.now.sorts }
{
    let (x, y) = pair(variables, round);
    u64::from(classes.may_equal(x, y)) + 2 * u64::from(classes.may_differ(x, y))
}
