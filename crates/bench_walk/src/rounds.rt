//! Walks over all pairs of a model.

ghost use Rattle.std.specs.Prelude.{◌≡◌, ◌<◌, length, IfOk};

use anyhow::{Result, bail};
use cm_ctx::Steps;
use cm_forks::Fault;
use cm_model::{Model, Pair};
use cm_walk::Walk;
use std::alloc::Global;
use std::marker::Brand;
use std::sync::ledger::{Blank, Ledger};

/// What was done in a round.
#[derive(Clone, Copy)]
pub struct Done {
    pub pairs: u64,
    /// How many of the pairs are over a limit; what else ends a walk, as memory, counts too.
    pub over: u64,
    pub paths: u64,
    /// How many decisions all paths have together.
    pub decisions: u64,
    pub additions: u64,
}

const NOTHING: Done = Done {
    pairs: 0,
    over: 0,
    paths: 0,
    decisions: 0,
    additions: 0,
};

// How many decisions the next path has.
fn next_length<L: Ledger>(walk: &mut Walk, steps: &mut Steps<L>) -> Result<Option<usize>, Fault> {
    match walk.next(steps) {
        Ok(Some(leaf)) => Ok(Some(leaf.path.len())),
        Ok(None) => Ok(None),
        Err(fault) => Err(fault),
    }
}

impl Done {
    fn add(&mut self, other: Done) {
        self.pairs = self.pairs.saturating_add(other.pairs);
        self.over = self.over.saturating_add(other.over);
        self.paths = self.paths.saturating_add(other.paths);
        self.decisions = self.decisions.saturating_add(other.decisions);
        self.additions = self.additions.saturating_add(other.additions);
    }

    // Counts one answer of a walk, and says whether it goes on.
    fn count(&mut self, next: Result<Option<usize>, Fault>) -> bool {
        match next {
            Ok(Some(decisions)) => {
                self.paths = self.paths.saturating_add(1);
                self.decisions = self.decisions.saturating_add(decisions as u64);
                true
            }
            Ok(None) => false,
            Err(_) => {
                self.over = self.over.saturating_add(1);
                false
            }
        }
    }
}

// One call more than the limit, so that a walk that is over says so.
fn walk_all<L: Ledger>(walk: &mut Walk, limit: u32, steps: &mut Steps<L>) -> Done {
    let mut done = NOTHING;
    done.pairs = 1;
    for _ in 0..limit {
        if !done.count(next_length(walk, steps)) {
            done.additions = walk.added();
            return done;
        }
    }
    done.count(next_length(walk, steps));
    done.additions = walk.added();
    done
}

fn walk_counted<L: Ledger>(
    alloc: Global,
    model: &Model,
    pair: Pair,
    limit: u32,
    blank: Blank,
) -> Result<Done>
    requires a { pair.a < length model.now.calls }
    requires b { pair.b < length model.now.calls }
    requires name { blank.name ≡ L.name }
    requires parts { blank.parts ≡ L.parts }
    requires some { 0 < blank.parts }
{
    let mut steps = Steps::<L>::new(blank);
    let mut walk = Walk::new(alloc, model, pair, limit)?;
    let done = walk_all(&mut walk, limit, &mut steps);
    Ok(done)
}

fn walk_pair(alloc: Global, model: &Model, pair: Pair, limit: u32) -> Result<Done>
    requires a { pair.a < length model.now.calls }
    requires b { pair.b < length model.now.calls }
{
    walk_counted::<Brand>(alloc, model, pair, limit, Blank::new(1))
}

// The pair of these two calls.
fn pair_at(a: usize, b: usize) -> Result<Pair>
    ensures a { IfOk result (λ pair. pair.a ≡ a) }
    ensures b { IfOk result (λ pair. pair.b ≡ b) }
{
    let Ok(a) = u16::try_from(a) else {
        bail!("too many calls");
    };
    let Ok(b) = u16::try_from(b) else {
        bail!("too many calls");
    };
    Ok(Pair { a, b })
}

// Each pair once, a before b or the same.
fn walk_pairs(alloc: Global, model: &Model, limit: u32) -> Result<Done> {
    let calls = model.calls().len();
    let mut done = NOTHING;
    for a in 0..calls {
        for b in a..calls {
            let pair = pair_at(a, b)?;
            done.add(walk_pair(alloc, model, pair, limit)?);
        }
    }
    Ok(done)
}

/// So many rounds, and what was done in the last one.
pub fn walk_rounds(alloc: Global, model: &Model, limit: u32, rounds: u32) -> Result<Done> {
    let mut done = NOTHING;
    for _ in 0..rounds {
        done = walk_pairs(alloc, model, limit)?;
    }
    Ok(done)
}
