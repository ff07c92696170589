//! Rounds on a context.

ghost use Rattle.std.specs.Prelude.{◌≡◌, ◌<◌, ◌≤◌, IsTrue};
ghost use Rattle.cm_ctx.specs.Contexts.{IsQuestion};

use crate::Work;
use cm_ctx::{Ctx, Mask, Steps};
use cm_model::{IntVar, NoMemory, SortVar};
use cm_term::{Num, Opt, OptVar, Question, Tag, TagVar};
use std::alloc::Global;
use std::marker::Brand;
use std::sync::ledger::{Blank, Ledger};

// How many additions are made to one copy, of each kind seven.
const PATH: u64 = 35;

/// What `count` rounds of the work come to: the outcomes of a question on the last copy, a sum of outcomes, or how
/// many additions were made, in paths of 35.
pub fn run(alloc: Global, ctx: &Ctx, work: Work, count: u64) -> Result<u64, NoMemory> {
    match work {
        Work::Copies => copies(alloc, ctx, count),
        Work::Outcomes => Ok(outcomes(ctx, count)),
        Work::Additions => additions::<Brand>(alloc, ctx, count / PATH, Blank::new(1)),
    }
}

// Each copy is one of the copy before, so that none can be left out.
fn copies(alloc: Global, ctx: &Ctx, count: u64) -> Result<u64, NoMemory> {
    let mut copy = ctx.try_copy(alloc)?;
    'copies: for _ in 0..count {
        copy = copy.try_copy(alloc)?;
    }
    Ok(ask(&copy, count))
}

fn outcomes(ctx: &Ctx, count: u64) -> u64 {
    let mut sum = 0u64;
    'rounds: for round in 0..count {
        sum = sum.wrapping_add(ask(ctx, round));
    }
    sum
}

fn additions<L: Ledger>(alloc: Global, ctx: &Ctx, paths: u64, blank: Blank) -> Result<u64, NoMemory>
    requires name { blank.name ≡ L.name }
    requires parts { blank.parts ≡ L.parts }
    requires some { 0 < blank.parts }
{
    let mut steps = Steps::<L>::new(blank);
    let mut added = 0u64;
    'paths: for path in 0..paths {
        added = added.wrapping_add(along(alloc, ctx, path, &mut steps)?);
    }
    Ok(added)
}

// How many additions a path of rounds made to a copy.
fn along<L: Ledger>(
    alloc: Global,
    ctx: &Ctx,
    path: u64,
    steps: &mut Steps<L>,
) -> Result<u64, NoMemory> {
    let mut copy = ctx.try_copy(alloc)?;
    copy.reserve()?;
    Ok(add_all(&mut copy, path, steps))
}

fn add_all<L: Ledger>(ctx: &mut Ctx, path: u64, steps: &mut Steps<L>) -> u64
    requires spare { IsTrue ctx.old.classes.spare }
{
    let mut added = 0u64;
    'rounds: for round in 0..PATH {
        let is_added = add(ctx, round, path, steps);
        added = added.wrapping_add(u64::from(is_added));
    }
    added
}

// Adds an outcome of the question of the round, and whether it could be asked.
fn add<L: Ledger>(ctx: &mut Ctx, round: u64, path: u64, steps: &mut Steps<L>) -> bool
    requires spare { IsTrue ctx.old.classes.spare }
    ensures spare { IsTrue ctx.new.classes.spare }
{
    let question = question(round);
    if ctx.is_question(&question) {
        tell(ctx, &question, round.wrapping_add(path), steps)
    } else {
        false
    }
}

// Adds an outcome that may come out, and whether there was one.
fn tell<L: Ledger>(ctx: &mut Ctx, question: &Question, turn: u64, steps: &mut Steps<L>) -> bool
    requires well { IsQuestion ctx.old question.now }
    requires spare { IsTrue ctx.old.classes.spare }
    ensures spare { IsTrue ctx.new.classes.spare }
{
    let mask = ctx.outcomes(question);
    let outcome = one_of(mask, turn);
    let may = mask.has(outcome);
    if may {
        ctx.add(question, outcome, steps);
    }
    may
}

// One of the first three outcomes, another one by turns.
fn one_of(mask: Mask, turn: u64) -> u8
    ensures few { result < 64 }
{
    let first = (turn % 3) as u8;
    let second = (first + 1) % 3;
    if mask.has(first) {
        first
    } else if mask.has(second) {
        second
    } else {
        (first + 2) % 3
    }
}

// The mask of the outcomes of the round's question.
fn ask(ctx: &Ctx, round: u64) -> u64 {
    let question = question(round);
    if ctx.is_question(&question) {
        ctx.outcomes(&question).0
    } else {
        0
    }
}

// A question of each kind by turns, on other variables each time.
fn question(round: u64) -> Question {
    let turn = round / 5;
    match round % 5 {
        0 => elements(turn),
        1 => numbers(turn),
        2 => Question::Range {
            of: Num::Plus(IntVar(1 + turn % 7), 1),
            lo: 0,
            hi: 100_000,
        },
        3 => Question::TagOf(Tag::Var(TagVar(turn % 5))),
        _ => Question::OptOf(Opt::Var(OptVar(turn % 7))),
    }
}

// Two of the first five elements, which are of one sort.
fn elements(turn: u64) -> Question {
    let (x, y) = pair(turn, 5);
    Question::Elems(SortVar(x), SortVar(y))
}

// Two of the seven numbers, one of them with an offset.
fn numbers(turn: u64) -> Question {
    let (x, y) = pair(turn, 7);
    Question::Nums(Num::Plus(IntVar(1 + x), 0), Num::Plus(IntVar(1 + y), 1))
}

// Two numbers below `count` that differ.
fn pair(turn: u64, count: u64) -> (u64, u64)
    requires two { 2 ≤ count }
    requires few { count < 8 }
    ensures first { result.0 < count }
    ensures second { result.1 < count }
{
    let first = turn % count;
    let apart = 1 + turn / count % (count - 1);
    (first, (first + apart) % count)
}
