//! One walk, as lines of text.

ghost use Rattle.std.specs.Prelude.{◌≡◌, ◌<◌, length, IfOk};

use anyhow::{Result, bail};
use cm_beside::Verdict;
use cm_ctx::Steps;
use cm_forks::Fault;
use cm_model::{Model, Over, Pair};
use cm_walk::{Leaf, Walk};
use std::marker::Brand;
use std::sync::ledger::{Blank, Ledger};

/// Whose paths are walked over, how many at most, and whether each leaf is shown.
#[derive(Clone, Copy)]
pub struct Row {
    pub pair: Pair,
    pub limit: u32,
    pub all: bool,
}

/// What ends a row.
#[derive(Clone, Copy, PartialEq, Eq)]
enum Last {
    End,
    Fault(Fault),
}

impl Last {
    fn word(self) -> &'static str {
        match self {
            Last::End => "end",
            Last::Fault(Fault::Over(Over::Paths)) => "over paths",
            Last::Fault(Fault::Over(Over::Long)) => "over long",
            Last::Fault(Fault::Over(Over::Cells)) => "over cells",
            Last::Fault(Fault::Memory) => "memory",
        }
    }
}

fn show_verdict(rt: &HostRuntime, verdict: &Verdict) -> Result<()> {
    match verdict {
        Verdict::Never => println!(rt; "never")?,
        Verdict::If(equalities) => println!(rt; "if {}", equalities.len())?,
    }
    Ok(())
}

fn show_leaf(rt: &HostRuntime, leaf: &Leaf) -> Result<()> {
    for decision in leaf.path.as_slice() {
        print!(rt; "{decision} ")?;
    }
    print!(rt; "open {} cells {} ", leaf.facts.len(), leaf.cells.len())?;
    show_verdict(rt, &leaf.verdict)
}

// One leaf, or what ends the walk.
fn show_next<L: Ledger>(
    rt: &HostRuntime,
    walk: &mut Walk,
    all: bool,
    steps: &mut Steps<L>,
) -> Result<Option<Last>> {
    match walk.next(steps) {
        Ok(Some(leaf)) => {
            if all {
                show_leaf(rt, &leaf)?;
            }
            Ok(None)
        }
        Ok(None) => Ok(Some(Last::End)),
        Err(fault) => Ok(Some(Last::Fault(fault))),
    }
}

// All leaves, and what ended the walk; the number of leaves comes with it.
fn show_leaves<L: Ledger>(
    rt: &HostRuntime,
    walk: &mut Walk,
    row: Row,
    steps: &mut Steps<L>,
) -> Result<(u32, Last)> {
    for given in 0..row.limit {
        if let Some(last) = show_next(rt, walk, row.all, steps)? {
            return Ok((given, last));
        }
    }
    let last = show_next(rt, walk, row.all, steps)?;
    Ok((row.limit, last.unwrap_or(Last::End)))
}

// Whether the next answer is this one.
fn comes_again<L: Ledger>(walk: &mut Walk, last: Last, steps: &mut Steps<L>) -> bool {
    match walk.next(steps) {
        Ok(Some(_)) => false,
        Ok(None) => last == Last::End,
        Err(fault) => last == Last::Fault(fault),
    }
}

/// What came of a walk: how many leaves it gave, how many additions it made, what ended it, and whether that comes again.
#[derive(Clone, Copy)]
struct Outcome {
    given: u32,
    added: u64,
    last: Last,
    again: bool,
}

// Goes to the end of a walk.
fn walk_on<L: Ledger>(
    rt: &HostRuntime,
    walk: &mut Walk,
    row: Row,
    steps: &mut Steps<L>,
) -> Result<Outcome> {
    let (given, last) = show_leaves(rt, walk, row, steps)?;
    Ok(Outcome {
        given,
        added: walk.added(),
        last,
        again: comes_again(walk, last, steps),
    })
}

fn walk_counted<L: Ledger>(
    rt: &HostRuntime,
    model: &Model,
    row: Row,
    blank: Blank,
) -> Result<Outcome>
    requires a { row.pair.a < length model.now.calls }
    requires b { row.pair.b < length model.now.calls }
    requires name { blank.name ≡ L.name }
    requires parts { blank.parts ≡ L.parts }
    requires some { 0 < blank.parts }
{
    let mut steps = Steps::<L>::new(blank);
    let mut walk = Walk::new(rt.alloc(), model, row.pair, row.limit)?;
    let of = walk_on(rt, &mut walk, row, &mut steps);
    of
}

// A walk with a counter of its own.
fn walk_row(rt: &HostRuntime, model: &Model, row: Row) -> Result<Outcome>
    requires a { row.pair.a < length model.now.calls }
    requires b { row.pair.b < length model.now.calls }
{
    walk_counted::<Brand>(rt, model, row, Blank::new(1))
}

/// Prints a row.
pub fn show_row(rt: &HostRuntime, model: &Model, row: Row) -> Result<()>
    requires a { row.pair.a < length model.now.calls }
    requires b { row.pair.b < length model.now.calls }
{
    let of = walk_row(rt, model, row)?;
    let again = if of.again {
        ""
    } else {
        ", then another answer"
    };
    println!(rt;
        "{} leaves, {} additions, {}{again}",
        of.given,
        of.added,
        of.last.word()
    )?;
    Ok(())
}

// What came of all pairs.
#[derive(Clone, Copy)]
struct Sum {
    pairs: u32,
    over: u32,
    leaves: u64,
}

impl Sum {
    fn count(&mut self, of: Outcome) {
        self.pairs = self.pairs.saturating_add(1);
        self.leaves = self.leaves.saturating_add(u64::from(of.given));
        if of.last != Last::End || !of.again {
            self.over = self.over.saturating_add(1);
        }
    }
}

// The pair of these two calls.
fn pair_at(a: usize, b: usize) -> Result<Pair>
    ensures a { IfOk result (λ pair. pair.a ≡ a) }
    ensures b { IfOk result (λ pair. pair.b ≡ b) }
{
    let Ok(a) = u16::try_from(a) else {
        bail!("too many calls");
    };
    let Ok(b) = u16::try_from(b) else {
        bail!("too many calls");
    };
    Ok(Pair { a, b })
}

/// Walks over each pair of a model, and prints how many there are, and how many pass a limit; where none does, how many
/// leaves they have.
pub fn show_every(rt: &HostRuntime, model: &Model, limit: u32) -> Result<()> {
    let calls = model.calls().len();
    let mut sum = Sum {
        pairs: 0,
        over: 0,
        leaves: 0,
    };
    for a in 0..calls {
        for b in a..calls {
            let pair = pair_at(a, b)?;
            let row = Row {
                pair,
                limit,
                all: false,
            };
            sum.count(walk_row(rt, model, row)?);
        }
    }
    if sum.over == 0 {
        println!(rt; "{} pairs, none over, {} leaves", sum.pairs, sum.leaves)?;
    } else {
        println!(rt; "{} pairs, {} over", sum.pairs, sum.over)?;
    }
    Ok(())
}
