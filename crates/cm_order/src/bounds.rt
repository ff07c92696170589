//! Bounds on the differences of integers.

ghost use Rattle.std.specs.Prelude.{◌≡◌, ◌<◌, ◌+◌, ◌↔◌, ℕ, ℤ, pos, negsuc, ◌+ℤ◌, ◌-ℤ◌, ◌≤ℤ◌, ◌<ℤ◌, IsTrue, IfOk, OnOk};
ghost use Rattle.std.specs.Prelude.{length};
ghost use Rattle.cm_order.specs.Differences.{difference, Satisfies, IsSatisfiable, Allows, Keeps, IsLeast};
ghost use Rattle.cm_order.specs.inner.Shells.{IsClosed};

use crate::shells;
use cm_model::{IntVar, NoMemory};
use std::alloc::Global;
use std::marker::Model;

/// Which orders of two integers are possible.
#[derive(Clone, Copy, Debug, PartialEq, Eq)]
pub struct OrderMask {
    pub lt: bool,
    pub eq: bool,
    pub gt: bool,
}

/// Integer variables and the most by which each can exceed each other one.
///
/// Variable 0 is the number 0, so that its differences are the bounds of each variable. The
/// differences are kept closed: none can be lowered without losing a valuation.
#[derive(Drop)]
pub struct Bounds {
    entries: Vec<i32>,
    count: usize,
}

impl Model for Bounds {
    ghost use Rattle.cm_order.specs.Differences.{Differences};
    ghost use Rattle.cm_order.specs.inner.Shells.{rows_of, IsProper};

    ghost Value = { Differences };

    ghost view = { λ b. rows_of b.count b.entries.items };

    ghost invariant = { λ b. IsProper b.count b.entries.items };
}

impl Bounds {
    /// The constant 0 alone. The bounds keep the allocator.
    pub fn new(alloc: Global) -> Result<Bounds, NoMemory>
        ensures count { IfOk result (λ b. length b ≡ 1) }
        ensures kept { IfOk result (λ b. (v : ℕ → ℤ) → Satisfies b v ↔ (v 0 ≡ pos 0)) }
        ensures satisfiable { IfOk result IsSatisfiable }
    {
        Ok(Bounds {
            entries: Vec::from_slice(alloc, [0; 4].as_slice())?,
            count: 1,
        })
    }

    /// A new variable from `lo` to `hi`. Its number is the number of variables before it.
    pub fn fresh(&mut self, lo: i64, hi: i64) -> Result<IntVar, NoMemory>
        requires low { negsuc 999999 ≤ℤ lo }
        requires order { lo ≤ℤ hi }
        requires high { hi ≤ℤ pos 1000000 }
        ensures number { IfOk result (λ x. x.0 ≡ length self.old) }
        ensures count { OnOk result (length self.new ≡ length self.old + 1) }
        ensures kept { OnOk result (Keeps self.old self.new (λ v. (lo ≤ℤ v (length self.old))
            × (v (length self.old) ≤ℤ hi))) }
        ensures satisfiable { OnOk result (IsSatisfiable self.new) }
    {
        let number = self.count;
        if number >= 0x7fff_fffe {
            return Err(NoMemory);
        }
        shells::append_zeros(&mut self.entries, 2 * number + 3)?;
        shells::fill_shell(&mut self.entries, number, lo as i32, hi as i32);
        self.count = number + 1;
        Ok(IntVar(number as u64))
    }

    /// Tells a proof that some valuation satisfies the bounds, and that the constant 0 is there.
    pub fn has_valuation(&self)
        ensures satisfiable { IsSatisfiable self.now }
        ensures some { 0 < length self.now }
    {
        let _ = self.entries.len();
    }

    /// Which of `x + c < y`, `x + c = y` and `x + c > y` some valuation has.
    pub fn may(&self, x: IntVar, c: i64, y: IntVar) -> OrderMask
        requires x { x.0 < length self.now }
        requires y { y.0 < length self.now }
        ensures lt { IsTrue result.lt ↔ Allows self.now (λ v. (v x.0 +ℤ c) <ℤ v y.0) }
        ensures eq { IsTrue result.eq ↔ Allows self.now (λ v. (v x.0 +ℤ c) ≡ v y.0) }
        ensures gt { IsTrue result.gt ↔ Allows self.now (λ v. v y.0 <ℤ (v x.0 +ℤ c)) }
    {
        let most = self.most(y, x);
        let least = -self.most(x, y);
        OrderMask {
            lt: c < most,
            eq: is_between(least, c, most),
            gt: least < c,
        }
    }

    /// The value of `x` in the least valuation.
    pub fn least(&self, x: IntVar) -> i64
        requires { x.0 < length self.now }
        ensures { (u : ℕ → ℤ) × IsLeast self.now u × (result ≡ u x.0) }
    {
        -self.most(IntVar(0), x)
    }

    /// An equal value.
    pub fn try_copy(&self, alloc: Global) -> Result<Bounds, NoMemory>
        ensures { IfOk result (λ copy. copy ≡ self.now) }
    {
        Ok(Bounds {
            entries: Vec::from_slice(alloc, self.entries.as_slice())?,
            count: self.count,
        })
    }

    /// Keeps the valuations with `x + c < y`.
    pub fn add_lt(&mut self, x: IntVar, c: i64, y: IntVar)
        requires x { x.0 < length self.old }
        requires y { y.0 < length self.old }
        requires low { negsuc 999999999 ≤ℤ c }
        requires high { c ≤ℤ pos 1000000000 }
        requires may { Allows self.old (λ v. (v x.0 +ℤ c) <ℤ v y.0) }
        ensures kept { Keeps self.old self.new (λ v. (v x.0 +ℤ c) <ℤ v y.0) }
        ensures count { length self.new ≡ length self.old }
        ensures satisfiable { IsSatisfiable self.new }
    {
        self.add_edge(x, -c - 1, y);
    }

    /// Keeps the valuations with `x + c` at most `y`.
    pub fn add_le(&mut self, x: IntVar, c: i64, y: IntVar)
        requires x { x.0 < length self.old }
        requires y { y.0 < length self.old }
        requires low { negsuc 999999999 ≤ℤ c }
        requires high { c ≤ℤ pos 1000000000 }
        requires may { Allows self.old (λ v. (v x.0 +ℤ c) ≤ℤ v y.0) }
        ensures kept { Keeps self.old self.new (λ v. (v x.0 +ℤ c) ≤ℤ v y.0) }
        ensures count { length self.new ≡ length self.old }
        ensures satisfiable { IsSatisfiable self.new }
    {
        self.add_edge(x, -c, y);
    }

    /// Keeps the valuations with `x + c = y`.
    pub fn add_eq(&mut self, x: IntVar, c: i64, y: IntVar)
        requires x { x.0 < length self.old }
        requires y { y.0 < length self.old }
        requires low { negsuc 999999999 ≤ℤ c }
        requires high { c ≤ℤ pos 1000000000 }
        requires may { Allows self.old (λ v. (v x.0 +ℤ c) ≡ v y.0) }
        ensures kept { Keeps self.old self.new (λ v. (v x.0 +ℤ c) ≡ v y.0) }
        ensures count { length self.new ≡ length self.old }
        ensures satisfiable { IsSatisfiable self.new }
    {
        self.add_le(x, c, y);
        self.add_edge(y, c, x);
    }

    /// Keeps the valuations with `x + c > y`.
    pub fn add_gt(&mut self, x: IntVar, c: i64, y: IntVar)
        requires x { x.0 < length self.old }
        requires y { y.0 < length self.old }
        requires low { negsuc 999999999 ≤ℤ c }
        requires high { c ≤ℤ pos 1000000000 }
        requires may { Allows self.old (λ v. v y.0 <ℤ (v x.0 +ℤ c)) }
        ensures kept { Keeps self.old self.new (λ v. v y.0 <ℤ (v x.0 +ℤ c)) }
        ensures count { length self.new ≡ length self.old }
        ensures satisfiable { IsSatisfiable self.new }
    {
        self.add_edge(y, c - 1, x);
    }

    /// The most by which `x` can exceed `y`.
    fn most(&self, x: IntVar, y: IntVar) -> i64
        requires x { x.0 < length self.now }
        requires y { y.0 < length self.now }
        ensures value { result ≡ difference self.now x.0 y.0 }
        ensures low { negsuc 1999999 ≤ℤ result }
        ensures high { result ≤ℤ pos 2000000 }
        ensures some { 0 < length self.now }
        ensures closed { IsClosed (length self.now) (difference self.now) }
    {
        i64::from(shells::entry(self.entries.as_slice(), x.0 as usize, y.0 as usize))
    }

    /// Keeps the valuations in which `x` exceeds `y` by at most `most`.
    fn add_edge(&mut self, x: IntVar, most: i64, y: IntVar)
        requires x { x.0 < length self.old }
        requires y { y.0 < length self.old }
        requires low { negsuc 1000000000 ≤ℤ most }
        requires high { most ≤ℤ pos 1000000001 }
        requires may { Allows self.old (λ v. (v x.0 -ℤ v y.0) ≤ℤ most) }
        ensures kept { Keeps self.old self.new (λ v. (v x.0 -ℤ v y.0) ≤ℤ most) }
        ensures count { length self.new ≡ length self.old }
        ensures satisfiable { IsSatisfiable self.new }
    {
        let from = x.0 as usize;
        let to = y.0 as usize;
        shells::add_edge(&mut self.entries, self.count, from, to, most as i32);
    }
}

fn is_between(least: i64, n: i64, most: i64) -> bool
    ensures { IsTrue result ↔ ((least ≤ℤ n) × (n ≤ℤ most)) }
{
    least <= n && n <= most
}
