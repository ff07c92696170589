//! Comparisons of integers.

ghost use Rattle.std.specs.Prelude.{◌≡◌, ◌<◌, ◌↔◌, ◌≤ℤ◌, ℕ, ℤ, pos, negsuc, ◌+ℤ◌, ◌-ℤ◌, ◌⊎◌, IsTrue, length};
ghost use Rattle.cm_order.specs.Differences.{Satisfies, IsSatisfiable, Allows, Keeps};
ghost use Rattle.cm_term.specs.Atoms.{var_of, offset_of};
ghost use Rattle.cm_term.specs.Questions.{order_outcome, range_outcome};
ghost use Rattle.cm_ctx.specs.Masks.{Has};
ghost use Rattle.cm_ctx.specs.Contexts.{IsNum, IsSmall};

use crate::mask::{self, Mask};
use cm_model::IntVar;
use cm_order::Bounds;
use cm_term::Num;

fn variable(number: Num) -> IntVar
    ensures { result.0 ≡ var_of number }
{
    match number {
        Num::Const(_) => IntVar(0),
        Num::Plus(x, _) => x,
    }
}

fn offset(number: Num) -> i64
    ensures { result ≡ offset_of number }
{
    match number {
        Num::Const(n) => n,
        Num::Plus(_, n) => n,
    }
}

/// How much more the offset of one number is than that of another.
fn gap(left: Num, right: Num) -> i64
    requires left { IsSmall (offset_of left) }
    requires right { IsSmall (offset_of right) }
    ensures value { result ≡ (offset_of left -ℤ offset_of right) }
    ensures low { negsuc 999999999 ≤ℤ result }
    ensures high { result ≤ℤ pos 1000000000 }
{
    offset(left) - offset(right)
}

fn either(first: bool, second: bool) -> bool
    ensures { IsTrue result ↔ (IsTrue first ⊎ IsTrue second) }
{
    first || second
}

fn both(first: bool, second: bool) -> bool
    ensures { IsTrue result ↔ (IsTrue first × IsTrue second) }
{
    first && second
}

/// How far a number or an offset of a question is from 0 at most.
const QUESTION_LIMIT: i64 = 500_000_000;

fn is_small(n: i64) -> bool
    ensures { IsTrue result ↔ IsSmall n }
{
    both(-QUESTION_LIMIT <= n, n <= QUESTION_LIMIT)
}

fn is_number(count: u64, number: Num) -> bool
    ensures { IsTrue result ↔ IsNum count number }
{
    both(variable(number).0 < count, is_small(offset(number)))
}

/// Whether both can be asked for where there are so many variables.
pub fn are_numbers(count: u64, left: Num, right: Num) -> bool
    ensures { IsTrue result ↔ (IsNum count left × IsNum count right) }
{
    both(is_number(count, left), is_number(count, right))
}

/// Whether the number and the ends can be asked for.
pub fn is_range(count: u64, of: Num, lo: i64, hi: i64) -> bool
    ensures { IsTrue result ↔ (IsNum count of × IsSmall lo × IsSmall hi × (lo ≤ℤ hi)) }
{
    both(is_number(count, of), are_ends(lo, hi))
}

fn are_ends(lo: i64, hi: i64) -> bool
    ensures { IsTrue result ↔ (IsSmall lo × IsSmall hi × (lo ≤ℤ hi)) }
{
    both(is_small(lo), both(is_small(hi), lo <= hi))
}

/// The outcomes of the comparison of two numbers.
pub fn order_outcomes(bounds: &Bounds, left: Num, right: Num) -> Mask
    requires left { IsNum (length bounds.now) left }
    requires right { IsNum (length bounds.now) right }
    ensures { (i : ℕ) → Has result.0 i ↔ Allows bounds.now (λ n. order_outcome n left right ≡ i) }
{
    let x = variable(left);
    let y = variable(right);
    let mask = bounds.may(x, gap(left, right), y);
    mask::mask_of(mask.lt, mask.eq, mask.gt)
}

/// Which sides of two ends a number may have.
pub fn range_outcomes(bounds: &Bounds, of: Num, lo: i64, hi: i64) -> Mask
    requires of { IsNum (length bounds.now) of }
    requires some { 0 < length bounds.now }
    requires lo { IsSmall lo }
    requires hi { IsSmall hi }
    requires order { lo ≤ℤ hi }
    ensures { (i : ℕ) → Has result.0 i ↔ Allows bounds.now (λ n. range_outcome n of lo hi ≡ i) }
{
    let x = variable(of);
    let low = bounds.may(x, gap(of, Num::Const(lo)), IntVar(0));
    let high = bounds.may(x, gap(of, Num::Const(hi)), IntVar(0));
    let within = both(either(low.eq, low.gt), either(high.lt, high.eq));
    mask::mask_of(low.lt, within, high.gt)
}

/// Keeps the valuations under which the comparison has the outcome.
pub fn add_order(bounds: &mut Bounds, left: Num, right: Num, outcome: u8)
    requires left { IsNum (length bounds.old) left }
    requires right { IsNum (length bounds.old) right }
    requires may { Allows bounds.old (λ n. order_outcome n left right ≡ outcome) }
    ensures kept { Keeps bounds.old bounds.new (λ n. order_outcome n left right ≡ outcome) }
    ensures count { length bounds.new ≡ length bounds.old }
    ensures satisfiable { IsSatisfiable bounds.new }
{
    let x = variable(left);
    let c = gap(left, right);
    let y = variable(right);
    if outcome == 0 {
        bounds.add_lt(x, c, y);
    } else if outcome == 1 {
        bounds.add_eq(x, c, y);
    } else {
        bounds.add_gt(x, c, y);
    }
}

/// Keeps the valuations under which the number has this side of the ends.
pub fn add_range(bounds: &mut Bounds, of: Num, lo: i64, hi: i64, outcome: u8)
    requires of { IsNum (length bounds.old) of }
    requires some { 0 < length bounds.old }
    requires lo { IsSmall lo }
    requires hi { IsSmall hi }
    requires order { lo ≤ℤ hi }
    requires may { Allows bounds.old (λ n. range_outcome n of lo hi ≡ outcome) }
    ensures kept { Keeps bounds.old bounds.new (λ n. range_outcome n of lo hi ≡ outcome) }
    ensures count { length bounds.new ≡ length bounds.old }
    ensures satisfiable { IsSatisfiable bounds.new }
{
    let x = variable(of);
    let low = gap(of, Num::Const(lo));
    let high = gap(of, Num::Const(hi));
    let rest = gap(Num::Const(lo), of);
    if outcome == 0 {
        bounds.add_lt(x, low, IntVar(0));
    } else if outcome == 1 {
        add_within(bounds, x, high, rest);
    } else {
        bounds.add_gt(x, high, IntVar(0));
    }
}

/// Keeps the valuations with `x + above` at most 0 and `below` at most `x`.
fn add_within(bounds: &mut Bounds, x: IntVar, above: i64, below: i64)
    requires x { x.0 < length bounds.old }
    requires some { 0 < length bounds.old }
    requires above_low { negsuc 999999999 ≤ℤ above }
    requires above_high { above ≤ℤ pos 1000000000 }
    requires below_low { negsuc 999999999 ≤ℤ below }
    requires below_high { below ≤ℤ pos 1000000000 }
    requires may { Allows bounds.old (λ n. ((n x.0 +ℤ above) ≤ℤ pos 0) × (below ≤ℤ n x.0)) }
    ensures kept { Keeps bounds.old bounds.new (λ n. ((n x.0 +ℤ above) ≤ℤ pos 0) × (below ≤ℤ n x.0)) }
    ensures count { length bounds.new ≡ length bounds.old }
    ensures satisfiable { IsSatisfiable bounds.new }
{
    bounds.add_le(x, above, IntVar(0));
    bounds.add_le(IntVar(0), below, x);
}
