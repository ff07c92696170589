//! A pair's calls on terms, followed along the path of a world.

ghost use Rattle.std.specs.Prelude.{◌≡◌, ◌<◌, [], IfOk, length};
ghost use Rattle.cm_exec.specs.Running.{IsRoomy, IsAskedWith};
ghost use Rattle.cm_cells.specs.CellTable.{CellTable};
ghost use Rattle.cm_exec.specs.Pairing.{IsAsking};

use crate::terms::{Case, Terms, held, is_cell};
use anyhow::{Result, bail};
use cm_cells::Order;
use cm_eval::{Code, Outcome};
use cm_exec::{Ask, Compare, Next, Run, Sides};
use cm_model::List;
use cm_term::{Question, Shared, Term};
use std::alloc::Global;
use std::mem;

// A call of the chain.
#[derive(Drop)]
struct Calling<'a> {
    code: &'a Shared<Code>,
    call: u16,
    args: &'a List<Term>,
    order: Order,
    // Which of the four it is.
    place: usize,
}

// What the calls of the chain run by.
#[derive(Drop)]
struct Calls {
    code: Shared<Code>,
    a: List<Term>,
    b: List<Term>,
}

/// How far the path was followed.
#[derive(Drop)]
pub struct Progress {
    /// How many decisions were asked.
    pub at: usize,
    /// How many were asked at the end of each part.
    pub parts: List<usize>,
}

/// How the chain ended.
#[derive(Clone, Copy)]
pub enum Verdict {
    Blocked,
    Commutes,
    Differs,
}

// The outcome of a question in the world, which is the path's next decision.
fn next_outcome(terms: &Terms, case: &Case, question: &Question, at: &mut usize) -> Result<u8> {
    let outcome = terms.known.outcome(question)?;
    match case.values.path.get(*at) {
        Some(decision) if *decision == outcome => {
            *at = at.saturating_add(1);
            Ok(outcome)
        }
        Some(decision) => bail!("decision {at} is {decision}, and {outcome} on terms"),
        None => bail!("a question behind the path"),
    }
}

/// Whether a run asks this.
pub fn is_question(ask: &Ask, question: &Question) -> bool {
    match ask {
        Ask::Question(other) => *other == *question,
        _ => false,
    }
}

/// A copy of a run with the outcome of what was asked.
pub fn answered_copy(alloc: Global, run: &Run, outcome: u8) -> Result<Run>
    requires asked { (cells : CellTable) × IsAskedWith run.now.phase run.now.decider cells }
{
    let mut copy = run.try_copy(alloc)?;
    copy.answer(outcome);
    Ok(copy)
}

// The run asks the same again.
fn ask_again(
    alloc: Global,
    terms: &mut Terms,
    case: &Case,
    run: &mut Run,
    question: &Question,
) -> Result<()>
    requires roomy { IsRoomy terms.old.facts.pieces (length terms.old.cells.places) }
    ensures roomy { IfOk result (λ _. IsRoomy terms.new.facts.pieces (length terms.new.cells.places)) }
{
    let again = terms.ask(alloc, case, run)?;
    if !is_question(&again, question) {
        bail!("a run asks something else once its copy is answered");
    }
    Ok(())
}

// A copy is answered and goes on in the place of the run, which asks the same again.
fn decide(
    alloc: Global,
    terms: &mut Terms,
    case: &Case,
    run: &mut Run,
    question: &Question,
    outcome: u8,
) -> Result<()>
    requires roomy { IsRoomy terms.old.facts.pieces (length terms.old.cells.places) }
    requires asked { IsAskedWith run.old.phase run.old.decider terms.old.cells }
    ensures roomy { IfOk result (λ _. IsRoomy terms.new.facts.pieces (length terms.new.cells.places)) }
{
    let copy = answered_copy(alloc, run, outcome)?;
    let again = ask_again(alloc, terms, case, run, question);
    let _ = mem::replace(run, copy);
    again
}

// Follows a run to its end: its reply, or none where it is blocked.
fn follow(
    alloc: Global,
    terms: &mut Terms,
    case: &Case,
    run: &mut Run,
    at: &mut usize,
) -> Result<Option<Term>>
    requires roomy { IsRoomy terms.old.facts.pieces (length terms.old.cells.places) }
    ensures roomy { IfOk result (λ _. IsRoomy terms.new.facts.pieces (length terms.new.cells.places)) }
{
    'turns: for _ in 0..=case.values.path.len() {
        match terms.ask(alloc, case, run)? {
            Ask::Question(question) => {
                let outcome = next_outcome(terms, case, &question, at)?;
                decide(alloc, terms, case, run, &question, outcome)?;
            }
            Ask::Reply(t) => return Ok(Some(t)),
            Ask::Blocked => return Ok(None),
            Ask::Cells => bail!("more cells than a path may touch"),
        }
    }
    bail!("a run that doesn't end")
}

// A call ends on terms as it does on values.
fn check_end(terms: &Terms, end: &Outcome, reply: &Option<Term>) -> Result<()> {
    match (end, reply) {
        (Outcome::Reply(value), Some(t)) => {
            if !terms.known.fits(value, t, &terms.facts) {
                bail!("another reply");
            }
            Ok(())
        }
        (Outcome::Blocked, None) => Ok(()),
        (Outcome::Reply(_), None) => bail!("blocked on terms alone"),
        (Outcome::Blocked, Some(_)) => bail!("blocked on values alone"),
    }
}

// Follows a run to the end that it has on values.
fn follow_to_end(
    alloc: Global,
    terms: &mut Terms,
    case: &Case,
    run: &mut Run,
    end: &Outcome,
    progress: &mut Progress,
) -> Result<Option<Term>>
    requires roomy { IsRoomy terms.old.facts.pieces (length terms.old.cells.places) }
    ensures roomy { IfOk result (λ _. IsRoomy terms.new.facts.pieces (length terms.new.cells.places)) }
{
    let reply = follow(alloc, terms, case, run, &mut progress.at)?;
    check_end(terms, end, &reply)?;
    progress.parts.push(progress.at)?;
    Ok(reply)
}

fn call(
    alloc: Global,
    terms: &mut Terms,
    case: &Case,
    calling: &Calling,
    progress: &mut Progress,
) -> Result<Option<Term>>
    requires roomy { IsRoomy terms.old.facts.pieces (length terms.old.cells.places) }
    ensures roomy { IfOk result (λ _. IsRoomy terms.new.facts.pieces (length terms.new.cells.places)) }
{
    let end = case.values.end(calling.place)?;
    let mut run = Run::by(
        alloc,
        calling.code,
        calling.call,
        calling.args,
        calling.order,
    )?;
    follow_to_end(alloc, terms, case, &mut run, end, progress)
}

// One call and then another, if that one replied: their replies.
fn in_order(
    alloc: Global,
    terms: &mut Terms,
    case: &Case,
    first: &Calling,
    second: &Calling,
    progress: &mut Progress,
) -> Result<Option<(Term, Term)>>
    requires roomy { IsRoomy terms.old.facts.pieces (length terms.old.cells.places) }
    ensures roomy { IfOk result (λ _. IsRoomy terms.new.facts.pieces (length terms.new.cells.places)) }
{
    let Some(left) = call(alloc, terms, case, first, progress)? else {
        return Ok(None);
    };
    let Some(right) = call(alloc, terms, case, second, progress)? else {
        return Ok(None);
    };
    Ok(Some((left, right)))
}

// The cells on terms are those of the world, and as many are marked as written.
fn check_cells(terms: &Terms, case: &Case) -> Result<()> {
    let count = terms.cells.len();
    if usize::from(count) != case.values.log.cells.len() {
        bail!("{count} cells on terms");
    }
    'cells: for cell in 0..count {
        check_cell(terms, case, cell)?;
    }
    Ok(())
}

fn check_cell(terms: &Terms, case: &Case, cell: u8) -> Result<()>
    requires cell { cell < length terms.now.cells.places }
{
    let name = case.values.cell(usize::from(cell))?;
    if !is_cell(&terms.known, &terms.facts, &terms.cells, cell, name) {
        bail!("cell {cell} is another one");
    }
    let written = terms.cells.written(cell);
    if case.values.log.written.get(usize::from(cell)) != Some(&written) {
        bail!("cell {cell} is marked otherwise");
    }
    Ok(())
}

// Both orders leave in each cell what they leave on values.
fn check_finals(terms: &Terms, case: &Case) -> Result<()> {
    'cells: for cell in 0..terms.cells.len() {
        check_final(terms, case, cell)?;
    }
    Ok(())
}

fn check_final(terms: &Terms, case: &Case, cell: u8) -> Result<()>
    requires cell { cell < length terms.now.cells.places }
{
    let name = case.values.cell(usize::from(cell))?;
    let ab = held(&case.values.after_ab, name)?;
    let ba = held(&case.values.after_ba, name)?;
    let same_ab = terms
        .known
        .fits(ab, terms.cells.value(Order::Ab, cell), &terms.facts);
    let same_ba = terms
        .known
        .fits(ba, terms.cells.value(Order::Ba, cell), &terms.facts);
    if !(same_ab & same_ba) {
        bail!("cell {cell} holds another term at the end");
    }
    Ok(())
}

// Adds the final terms of the cells that were written.
fn add_written(terms: &Terms, pairs: &mut List<Sides>) -> Result<()> {
    'cells: for cell in 0..terms.cells.len() {
        add_if_written(terms, pairs, cell)?;
    }
    Ok(())
}

fn add_if_written(terms: &Terms, pairs: &mut List<Sides>, cell: u8) -> Result<()>
    requires cell { cell < length terms.now.cells.places }
{
    if terms.cells.written(cell) {
        let left = terms.cells.value(Order::Ab, cell).share()?;
        let right = terms.cells.value(Order::Ba, cell).share()?;
        pairs.push(Sides { left, right })?;
    }
    Ok(())
}

fn is_inspection(next: &Next, question: &Question) -> bool {
    match next {
        Next::Question(other) => *other == *question,
        _ => false,
    }
}

/// A copy of a comparison with the outcome of what was asked.
pub fn answered_comparison(compare: &Compare, outcome: u8) -> Result<Compare>
    requires asked { IsAsking compare.now.progress }
{
    let mut copy = compare.try_copy()?;
    copy.answer(outcome);
    Ok(copy)
}

// The comparison asks the same again.
fn inspect_again(terms: &Terms, compare: &mut Compare, question: &Question) -> Result<()> {
    let again = compare.ask(&terms.facts)?;
    if !is_inspection(&again, question) {
        bail!("a comparison asks something else once its copy is answered");
    }
    Ok(())
}

// A copy is answered and goes on in the place of the comparison, which asks the same again.
fn inspect(terms: &Terms, compare: &mut Compare, question: &Question, outcome: u8) -> Result<()>
    requires asked { IsAsking compare.old.progress }
{
    let copy = answered_comparison(compare, outcome)?;
    let again = inspect_again(terms, compare, question);
    let _ = mem::replace(compare, copy);
    again
}

// Follows the last comparison to its end: whether all is equal.
fn follow_comparison(
    terms: &Terms,
    case: &Case,
    compare: &mut Compare,
    at: &mut usize,
) -> Result<bool> {
    'turns: for _ in 0..=case.values.path.len() {
        match compare.ask(&terms.facts)? {
            Next::Question(question) => {
                let outcome = next_outcome(terms, case, &question, at)?;
                inspect(terms, compare, &question, outcome)?;
            }
            Next::Unequal => return Ok(false),
            Next::Needs(all) => return terms.known.are_equal(all.as_slice()),
        }
    }
    bail!("a comparison that doesn't end")
}

fn compare_pairs(
    alloc: Global,
    terms: &Terms,
    case: &Case,
    pairs: List<Sides>,
    at: &mut usize,
) -> Result<bool> {
    let mut compare = Compare::new(alloc, pairs);
    follow_comparison(terms, case, &mut compare, at)
}

// The replies of a, those of b, and the written cells.
fn pairs_of(alloc: Global, terms: &Terms, a: Sides, b: Sides) -> Result<List<Sides>> {
    let mut pairs = List::new(alloc);
    pairs.push(a)?;
    pairs.push(b)?;
    add_written(terms, &mut pairs)?;
    Ok(pairs)
}

// The last comparison ends as on values.
fn compare_all(
    alloc: Global,
    terms: &Terms,
    case: &Case,
    pairs: List<Sides>,
    progress: &mut Progress,
) -> Result<Verdict> {
    let commutes = compare_pairs(alloc, terms, case, pairs, &mut progress.at)?;
    progress.parts.push(progress.at)?;
    if commutes != case.values.commutes {
        bail!("the comparison ends otherwise on terms");
    }
    if commutes {
        Ok(Verdict::Commutes)
    } else {
        Ok(Verdict::Differs)
    }
}

// The two calls of the order ab, and those of the order ba.
fn in_ab(
    alloc: Global,
    terms: &mut Terms,
    case: &Case,
    calls: &Calls,
    progress: &mut Progress,
) -> Result<Option<(Term, Term)>>
    requires roomy { IsRoomy terms.old.facts.pieces (length terms.old.cells.places) }
    ensures roomy { IfOk result (λ _. IsRoomy terms.new.facts.pieces (length terms.new.cells.places)) }
{
    let first = Calling {
        code: &calls.code,
        call: case.pair.a,
        args: &calls.a,
        order: Order::Ab,
        place: 0,
    };
    let second = Calling {
        code: &calls.code,
        call: case.pair.b,
        args: &calls.b,
        order: Order::Ab,
        place: 1,
    };
    in_order(alloc, terms, case, &first, &second, progress)
}

fn in_ba(
    alloc: Global,
    terms: &mut Terms,
    case: &Case,
    calls: &Calls,
    progress: &mut Progress,
) -> Result<Option<(Term, Term)>>
    requires roomy { IsRoomy terms.old.facts.pieces (length terms.old.cells.places) }
    ensures roomy { IfOk result (λ _. IsRoomy terms.new.facts.pieces (length terms.new.cells.places)) }
{
    terms.cells.reset(Order::Ba);
    let first = Calling {
        code: &calls.code,
        call: case.pair.b,
        args: &calls.b,
        order: Order::Ba,
        place: 2,
    };
    let second = Calling {
        code: &calls.code,
        call: case.pair.a,
        args: &calls.a,
        order: Order::Ba,
        place: 3,
    };
    in_order(alloc, terms, case, &first, &second, progress)
}

// Both orders and then the last comparison.
fn follow_both(
    alloc: Global,
    terms: &mut Terms,
    case: &Case,
    calls: &Calls,
    progress: &mut Progress,
) -> Result<Verdict>
    requires roomy { IsRoomy terms.old.facts.pieces (length terms.old.cells.places) }
{
    let Some((a_in_ab, b_in_ab)) = in_ab(alloc, terms, case, calls, progress)? else {
        return Ok(Verdict::Blocked);
    };
    let Some((b_in_ba, a_in_ba)) = in_ba(alloc, terms, case, calls, progress)? else {
        return Ok(Verdict::Blocked);
    };
    let a = Sides {
        left: a_in_ab,
        right: a_in_ba,
    };
    let b = Sides {
        left: b_in_ab,
        right: b_in_ba,
    };
    let pairs = pairs_of(alloc, terms, a, b)?;
    compare_all(alloc, terms, case, pairs, progress)
}

// Makes the code and the terms of the arguments, and then follows the calls.
fn follow_calls(
    alloc: Global,
    terms: &mut Terms,
    case: &Case,
    progress: &mut Progress,
) -> Result<Verdict>
    requires pieces { terms.old.facts.pieces ≡ [] }
    requires places { terms.old.cells.places ≡ [] }
{
    let code = Code::of(alloc, case.model)?;
    let calls = Calls {
        code: Shared::new(alloc, code)?,
        a: terms.arguments(alloc, case, true)?,
        b: terms.arguments(alloc, case, false)?,
    };
    follow_both(alloc, terms, case, &calls, progress)
}

// The calls, and then all that they left.
fn follow_terms(
    alloc: Global,
    terms: &mut Terms,
    case: &Case,
    progress: &mut Progress,
) -> Result<Verdict>
    requires pieces { terms.old.facts.pieces ≡ [] }
    requires places { terms.old.cells.places ≡ [] }
{
    let verdict = follow_calls(alloc, terms, case, progress)?;
    check_cells(terms, case)?;
    if !is_blocked(verdict) {
        check_finals(terms, case)?;
    }
    if progress.at != case.values.path.len() {
        bail!("{} of the path's decisions are asked", progress.at);
    }
    Ok(verdict)
}

fn is_blocked(verdict: Verdict) -> bool {
    match verdict {
        Verdict::Blocked => true,
        Verdict::Commutes => false,
        Verdict::Differs => false,
    }
}

/// Follows the chain of a pair along the path of a world. What is otherwise than on values is told as a fault.
pub fn follow_chain(alloc: Global, case: &Case, progress: &mut Progress) -> Result<Verdict> {
    let mut terms = Terms::new(alloc)?;
    follow_terms(alloc, &mut terms, case, progress)
}
