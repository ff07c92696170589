//! The last comparison of written terms, with each outcome of what it asks.

ghost use Rattle.cm_exec.specs.Pairing.{IsAsking, Awaits};

use crate::chain::answered_comparison;
use crate::written;
use anyhow::{Result, bail};
use cm_ctx::Ctx;
use cm_exec::{Compare, Next, Sides};
use cm_model::List;
use cm_term::{Equal, Opt, Question, Tag};
use std::alloc::Global;

// How many questions are asked one behind another at most.
const LONGEST: u16 = 64;

fn sides_of(alloc: Global, words: &str) -> Result<Sides> {
    let Some((left, right)) = words.split_once(' ') else {
        bail!("no two terms: {words}");
    };
    Ok(Sides {
        left: written::term(alloc, left)?,
        right: written::term(alloc, right)?,
    })
}

fn pairs_of(alloc: Global, row: &str) -> Result<List<Sides>> {
    let mut pairs = List::new(alloc);
    for words in row.split('|') {
        pairs.push(sides_of(alloc, words)?)?;
    }
    Ok(pairs)
}

fn are_equalities(left: &[Equal], right: &[Equal]) -> bool {
    if left.len() != right.len() {
        return false;
    }
    for (x, y) in left.iter().zip(right.iter()) {
        if *x != *y {
            return false;
        }
    }
    true
}

fn is_next(left: &Next, right: &Next) -> bool {
    match (left, right) {
        (Next::Question(p), Next::Question(q)) => *p == *q,
        (Next::Unequal, Next::Unequal) => true,
        (Next::Needs(p), Next::Needs(q)) => are_equalities(p.as_slice(), q.as_slice()),
        _ => false,
    }
}

fn show_needed(rt: &HostRuntime, needed: &[Equal]) -> Result<()> {
    print!(rt; "needs")?;
    for equal in needed {
        print!(rt; " ")?;
        written::show_equal(rt, *equal)?;
    }
    Ok(())
}

fn show_next(rt: &HostRuntime, next: &Next) -> Result<()> {
    match next {
        Next::Question(question) => written::show_question(rt, question)?,
        Next::Unequal => print!(rt; "unequal")?,
        Next::Needs(needed) => show_needed(rt, needed.as_slice())?,
    }
    Ok(())
}

// Whether a question can come out so: what is known in itself has its own outcome, another one two.
fn may_come(question: &Question, outcome: u8) -> bool {
    match *question {
        Question::TagOf(Tag::Const { index, .. }) => index == u16::from(outcome),
        Question::OptOf(Opt::None) => outcome == 0,
        Question::OptOf(Opt::Some) => outcome == 1,
        _ => true,
    }
}

// A comparison says this again.
fn say_again(compare: &mut Compare, facts: &Ctx, next: &Next) -> Result<()> {
    let again = compare.ask(facts)?;
    if !is_next(next, &again) {
        bail!("a comparison says something else again");
    }
    Ok(())
}

// All that a comparison comes to.
#[cycle(settling)]
fn follow(rt: &HostRuntime, compare: &mut Compare, facts: &Ctx, left: u16) -> Result<()> {
    let next = compare.ask(facts)?;
    go_on(rt, compare, facts, &next, left)
}

// All that a comparison comes to behind this. It says the same again, at a question once its copies went on.
#[cycle(settling)]
fn go_on(rt: &HostRuntime, compare: &mut Compare, facts: &Ctx, next: &Next, left: u16) -> Result<()>
    requires awaits { Awaits next.now compare.old.progress }
{
    show_next(rt, next)?;
    if let Next::Question(question) = next {
        fork(rt, compare, facts, question, left)?;
    }
    say_again(compare, facts, next)
}

#[cycle(settling)]
fn fork(
    rt: &HostRuntime,
    compare: &Compare,
    facts: &Ctx,
    question: &Question,
    left: u16,
) -> Result<()>
    requires asked { IsAsking compare.now.progress }
{
    'outcomes: for outcome in 0..2u8 {
        if may_come(question, outcome) {
            print!(rt; " ({outcome} ")?;
            branch(rt, compare, facts, outcome, left)?;
            print!(rt; ")")?;
        }
    }
    Ok(())
}

// A copy is answered, and followed to its end.
#[cycle(settling)]
fn branch(rt: &HostRuntime, compare: &Compare, facts: &Ctx, outcome: u8, left: u16) -> Result<()>
    requires asked { IsAsking compare.now.progress }
{
    if left == 0 {
        bail!("a comparison that asks too much");
    }
    let mut copy = answered_comparison(compare, outcome)?;
    follow(rt, &mut copy, facts, left - 1)
}

fn follow_pairs(rt: &HostRuntime, pairs: List<Sides>) -> Result<()> {
    let facts = Ctx::new(rt.alloc())?;
    let mut compare = Compare::new(rt.alloc(), pairs);
    follow(rt, &mut compare, &facts, LONGEST)
}

/// Prints what the comparison of a row's pairs asks, with each outcome, and how it ends.
pub fn answer(rt: &HostRuntime, row: &str) -> Result<()> {
    let pairs = pairs_of(rt.alloc(), row)?;
    follow_pairs(rt, pairs)?;
    println!(rt; "")?;
    Ok(())
}
