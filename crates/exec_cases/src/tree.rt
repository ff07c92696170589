//! A call on terms with each outcome of what it asks.

ghost use Rattle.std.specs.Prelude.{IfOk, length};
ghost use Rattle.cm_exec.specs.Running.{IsRoomy, IsAskedWith, Awaits};

use crate::chain::{answered_copy, is_question};
use crate::terms::{argument, root_of};
use crate::written;
use anyhow::{Result, bail};
use cm_cells::{Cells, Order};
use cm_ctx::{Ctx, Mask};
use cm_exec::{Ask, Run};
use cm_model::{List, Model, NoMemory, Part};
use cm_term::{Question, Term};
use std::alloc::Global;

// How many questions are asked one behind another at most.
const LONGEST: u16 = 64;

// A call on terms, with the cells and the variables so far.
#[derive(Drop)]
struct Standing {
    run: Run,
    cells: Cells,
    facts: Ctx,
}

impl Standing {
    fn ask(&mut self, alloc: Global, model: &Model) -> Result<Ask, NoMemory>
        requires roomy { IsRoomy self.old.facts.pieces (length self.old.cells.places) }
        ensures roomy { IfOk result (λ a. IsRoomy self.new.facts.pieces (length self.new.cells.places)) }
        ensures awaits { IfOk result (λ a. Awaits a self.new.run self.new.cells) }
    {
        let ask = self
            .run
            .ask(alloc, model, &mut self.cells, &mut self.facts)?;
        Ok(ask)
    }

    // A copy with an outcome of what was asked.
    fn answered(&self, alloc: Global, outcome: u8) -> Result<Standing>
        requires roomy { IsRoomy self.now.facts.pieces (length self.now.cells.places) }
        requires asked { IsAskedWith self.now.run.phase self.now.run.decider self.now.cells }
        ensures roomy { IfOk result (λ s. IsRoomy s.facts.pieces (length s.cells.places)) }
    {
        let run = answered_copy(alloc, &self.run, outcome)?;
        let cells = self.cells.try_copy(alloc)?;
        let facts = self.facts.try_copy(alloc)?;
        Ok(Standing { run, cells, facts })
    }

    // The outcomes that a question has by the types of its variables.
    fn outcomes(&self, question: &Question) -> Result<Mask> {
        if !self.facts.is_question(question) {
            bail!("a question that can't be asked");
        }
        Ok(self.facts.outcomes(question))
    }
}

// Terms for the arguments of a call.
fn arguments(alloc: Global, model: &Model, facts: &mut Ctx, params: &[Part]) -> Result<List<Term>>
    requires roomy { IsRoomy facts.old.pieces 0 }
    ensures roomy { IfOk result (λ ts. IsRoomy facts.new.pieces 0) }
{
    let mut args = List::new(alloc);
    let mut number = 0u16;
    'params: for part in params {
        let t = argument(alloc, model, facts, root_of(true, number), &part.ty)?;
        args.push(t)?;
        number = number.saturating_add(1);
    }
    Ok(args)
}

// A call on unknown arguments that has not begun.
fn at_first(alloc: Global, model: &Model, call: u16, params: &[Part]) -> Result<Standing>
    ensures roomy { IfOk result (λ s. IsRoomy s.facts.pieces (length s.cells.places)) }
{
    let mut facts = Ctx::new(alloc)?;
    let args = arguments(alloc, model, &mut facts, params)?;
    let run = Run::new(alloc, model, call, &args, Order::Ab)?;
    let cells = Cells::new(alloc);
    Ok(Standing { run, cells, facts })
}

fn show_ask(rt: &HostRuntime, ask: &Ask) -> Result<()> {
    match ask {
        Ask::Question(question) => written::show_question(rt, question)?,
        Ask::Reply(t) => written::show_term(rt, t)?,
        Ask::Blocked => print!(rt; "blocked")?,
        Ask::Cells => print!(rt; "cells")?,
    }
    Ok(())
}

// A run asks this again.
fn ask_again(alloc: Global, model: &Model, at: &mut Standing, question: &Question) -> Result<()>
    requires roomy { IsRoomy at.old.facts.pieces (length at.old.cells.places) }
{
    let again = at.ask(alloc, model)?;
    if !is_question(&again, question) {
        bail!("a run asks something else once its copies are answered");
    }
    Ok(())
}

// All that a run comes to.
#[cycle(tree)]
fn follow(rt: &HostRuntime, model: &Model, at: &mut Standing, left: u16) -> Result<()>
    requires roomy { IsRoomy at.old.facts.pieces (length at.old.cells.places) }
{
    let ask = at.ask(rt.alloc(), model)?;
    go_on(rt, model, at, &ask, left)
}

// All that a run comes to behind this. It asks the same again once its copies went on.
#[cycle(tree)]
fn go_on(rt: &HostRuntime, model: &Model, at: &mut Standing, ask: &Ask, left: u16) -> Result<()>
    requires roomy { IsRoomy at.old.facts.pieces (length at.old.cells.places) }
    requires awaits { Awaits ask.now at.old.run at.old.cells }
{
    show_ask(rt, ask)?;
    match ask {
        Ask::Question(question) => {
            fork(rt, model, at, question, left)?;
            ask_again(rt.alloc(), model, at, question)
        }
        _ => Ok(()),
    }
}

#[cycle(tree)]
fn fork(
    rt: &HostRuntime,
    model: &Model,
    at: &Standing,
    question: &Question,
    left: u16,
) -> Result<()>
    requires roomy { IsRoomy at.now.facts.pieces (length at.now.cells.places) }
    requires asked { IsAskedWith at.now.run.phase at.now.run.decider at.now.cells }
{
    let outcomes = at.outcomes(question)?;
    'outcomes: for outcome in 0..64u8 {
        if outcomes.has(outcome) {
            print!(rt; " ({outcome} ")?;
            branch(rt, model, at, outcome, left)?;
            print!(rt; ")")?;
        }
    }
    Ok(())
}

// A copy is answered, and followed to its end.
#[cycle(tree)]
fn branch(rt: &HostRuntime, model: &Model, at: &Standing, outcome: u8, left: u16) -> Result<()>
    requires roomy { IsRoomy at.now.facts.pieces (length at.now.cells.places) }
    requires asked { IsAskedWith at.now.run.phase at.now.run.decider at.now.cells }
{
    if left == 0 {
        bail!("a run that asks too much");
    }
    let mut copy = at.answered(rt.alloc(), outcome)?;
    follow(rt, model, &mut copy, left - 1)
}

fn follow_call(rt: &HostRuntime, model: &Model, call: u16, params: &[Part]) -> Result<()> {
    let mut at = at_first(rt.alloc(), model, call, params)?;
    follow(rt, model, &mut at, LONGEST)
}

/// Prints what a call asks on unknown arguments and cells, with each outcome, and how it ends.
pub fn answer(rt: &HostRuntime, model: &Model, call: u16) -> Result<()> {
    let Some(called) = model.calls().get(usize::from(call)) else {
        bail!("no call {call}");
    };
    follow_call(rt, model, call, called.params.as_slice())?;
    println!(rt; "")?;
    Ok(())
}
