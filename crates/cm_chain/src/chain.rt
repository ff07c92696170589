//! Chains: both orders of a pair of calls, and the last comparison.

ghost use Rattle.std.specs.Prelude.{◌≡◌, ◌<◌, List, length, IfOk, OnOk};
ghost use Rattle.cm_model.specs.Tables.{Tables};
ghost use Rattle.cm_eval.specs.Compiled.{IsCodeOf};
ghost use Rattle.cm_term.specs.declared.question.Question.{Question};
ghost use Rattle.cm_term.specs.declared.term.Term.{Term};
ghost use Rattle.cm_cells.specs.CellTable.{no_cells, CellTable};
ghost use Rattle.cm_ctx.specs.Contexts.{payloads_of};
ghost use Rattle.cm_exec.specs.Comparing.{Extends};
ghost use Rattle.cm_exec.specs.Run.{IsGrown, KeepsAll, tale_of};
ghost use Rattle.cm_exec.specs.Running.{IsRoomy};
ghost use Rattle.cm_beside.specs.Beside.{pair_tale, followed_by};
ghost use Rattle.cm_chain.specs.Chains.{behind, left, told, HasCode, IsCoded, IsAskedAt, Comes, ComesIf, Moved};
ghost use Rattle.cm_chain.specs.Chains.{runs_left, stages_left, HasMet, HasSettled, FallsIf};

use crate::pairs::compared;
use cm_beside::Verdict;
use cm_cells::{Cells, Order};
use cm_ctx::Facts;
use cm_eval::Code;
use cm_exec::{Compare, Next, Run};
use cm_model::{List, Model, NoMemory, Pair};
use cm_term::{Question, Shared, Term};
use std::alloc::Global;
use std::mem;

/// The calls of a pair, and what their runs begin with.
#[derive(Drop)]
pub struct Calls {
    /// The model's code.
    pub code: Shared<Code>,
    /// The calls' numbers.
    pub pair: Pair,
    /// The arguments of the first one.
    pub a: List<Term>,
    /// The arguments of the second one.
    pub b: List<Term>,
}

/// What the runs replied that have ended: a and then b, and in the other order b and then a.
#[derive(Drop)]
pub enum Replies {
    /// The first one goes on.
    None,
    /// a replied.
    One(Term),
    /// Both did, in the order ab.
    Two(Term, Term),
    /// Both did, and b in the order ba.
    Three(Term, Term, Term),
}

/// What goes on.
#[derive(Drop)]
pub enum Stage {
    /// A run of a call.
    Runs(Run),
    /// The last comparison.
    Compares(Compare),
    /// Nothing: it is known when the pair commutes.
    Ended(Verdict),
}

/// Both orders of a pair and the last comparison, in their midst. It holds no borrow of the model.
#[derive(Drop)]
pub struct Chain {
    /// The calls.
    pub calls: Shared<Calls>,
    /// The replies so far.
    pub replies: Replies,
    /// What goes on.
    pub stage: Stage,
}

/// What a chain comes to.
#[derive(Drop)]
pub enum Ask {
    /// This is asked next.
    Question(Question),
    /// It has ended.
    Ended,
    /// A cell more than a path may touch would be touched.
    Cells,
}

impl Chain {
    /// A chain that has not begun.
    ///
    /// # Errors
    /// `NoMemory` where memory runs out.
    pub fn new(alloc: Global, calls: Calls) -> Result<Chain, NoMemory>
        ensures begins { IfOk result (λ x. (t : Tables) → IsCodeOf t calls.code → (ps : List Term) →
            left t ps x no_cells ≡ pair_tale t calls.pair calls.a calls.b ps) }
        ensures calls { IfOk result (λ x. x.calls ≡ calls) }
        ensures coded { IfOk result (λ x. (t : Tables) → IsCodeOf t calls.code → IsCoded t x) }
    {
        let run = Run::by(alloc, &calls.code, calls.pair.a, &calls.a, Order::Ab)?;
        let calls = Shared::new(alloc, calls)?;
        Ok(Chain {
            calls,
            replies: Replies::None,
            stage: Stage::Runs(run),
        })
    }

    // Another thing goes on.
    fn set(&mut self, stage: Stage)
        ensures { self.new ≡ record self.old { stage = stage } }
    {
        let _ = mem::replace(&mut self.stage, stage);
    }

    // A run of b goes on, behind these replies.
    fn run_b(&mut self, alloc: Global, order: Order, replies: Replies) -> Result<(), NoMemory>
        ensures run { OnOk result ((t : Tables) → IsCodeOf t self.old.calls.code → (ps : List Term) (cs : CellTable) →
            left t ps self.new cs ≡ followed_by (tale_of t self.old.calls.pair.b self.old.calls.b order ps cs)
            (behind t self.old.calls ps replies)) }
        ensures code { OnOk result ((t : Tables) → IsCodeOf t self.old.calls.code → HasCode t self.new.stage) }
        ensures calls { self.new.calls ≡ self.old.calls }
        ensures fewer { OnOk result (stages_left self.new.replies self.new.stage ≡ runs_left replies) }
    {
        let calls = self.calls.get();
        let run = Run::by(alloc, &calls.code, calls.pair.b, &calls.b, order)?;
        self.replies = replies;
        self.set(Stage::Runs(run));
        Ok(())
    }

    // A run of a goes on, behind these replies.
    fn run_a(&mut self, alloc: Global, order: Order, replies: Replies) -> Result<(), NoMemory>
        ensures run { OnOk result ((t : Tables) → IsCodeOf t self.old.calls.code → (ps : List Term) (cs : CellTable) →
            left t ps self.new cs ≡ followed_by (tale_of t self.old.calls.pair.a self.old.calls.a order ps cs)
            (behind t self.old.calls ps replies)) }
        ensures code { OnOk result ((t : Tables) → IsCodeOf t self.old.calls.code → HasCode t self.new.stage) }
        ensures calls { self.new.calls ≡ self.old.calls }
        ensures fewer { OnOk result (stages_left self.new.replies self.new.stage ≡ runs_left replies) }
    {
        let calls = self.calls.get();
        let run = Run::by(alloc, &calls.code, calls.pair.a, &calls.a, order)?;
        self.replies = replies;
        self.set(Stage::Runs(run));
        Ok(())
    }

    // Goes on behind the run that has replied.
    fn reply(&mut self, alloc: Global, cells: &mut Cells, value: Term) -> Result<(), NoMemory>
        ensures same { OnOk result ((t : Tables) → IsCodeOf t self.old.calls.code → (ps : List Term) →
            behind t self.old.calls ps self.old.replies value cells.old ≡ left t ps self.new cells.new) }
        ensures code { OnOk result ((t : Tables) → IsCodeOf t self.old.calls.code → HasCode t self.new.stage) }
        ensures calls { self.new.calls ≡ self.old.calls }
        ensures places { cells.new.places ≡ cells.old.places }
        ensures fewer { OnOk result (stages_left self.new.replies self.new.stage < runs_left self.old.replies) }
    {
        match mem::replace(&mut self.replies, Replies::None) {
            Replies::None => self.run_b(alloc, Order::Ab, Replies::One(value)),
            Replies::One(a) => {
                cells.reset(Order::Ba);
                self.run_b(alloc, Order::Ba, Replies::Two(a, value))
            }
            Replies::Two(a, b) => self.run_a(alloc, Order::Ba, Replies::Three(a, b, value)),
            Replies::Three(a, b, b_first) => {
                let pairs = compared(alloc, a, b, b_first, value, cells)?;
                self.set(Stage::Compares(Compare::new(alloc, pairs)));
                Ok(())
            }
        }
    }

    // Goes on with what the run has come to.
    fn meet(
        &mut self,
        alloc: Global,
        cells: &mut Cells,
        met: cm_exec::Ask,
    ) -> Result<Option<Ask>, NoMemory>
        ensures same { IfOk result (λ a. (t : Tables) → IsCoded t self.old → HasMet t met self.old.stage cells.old
            → (ps : List Term) → left t ps self.old cells.old ≡ left t ps self.new cells.new) }
        ensures comes { IfOk result (λ a. (t : Tables) → IsCoded t self.old → HasMet t met self.old.stage cells.old
            → ComesIf t a self.new cells.new) }
        ensures coded { IfOk result (λ a. (t : Tables) → IsCoded t self.old → IsCoded t self.new) }
        ensures calls { self.new.calls ≡ self.old.calls }
        ensures places { cells.new.places ≡ cells.old.places }
        ensures fewer { IfOk result (λ a. (t : Tables) → HasMet t met self.old.stage cells.old
            → FallsIf a self.old self.new) }
    {
        match met {
            cm_exec::Ask::Question(question) => Ok(Some(Ask::Question(question))),
            cm_exec::Ask::Reply(value) => {
                self.reply(alloc, cells, value)?;
                Ok(None)
            }
            cm_exec::Ask::Blocked => {
                self.set(Stage::Ended(Verdict::Never));
                Ok(None)
            }
            cm_exec::Ask::Cells => Ok(Some(Ask::Cells)),
        }
    }

    // Goes on with what the last comparison has come to.
    fn settle(&mut self, met: Next) -> Option<Ask>
        ensures same { (t : Tables) → HasSettled met self.old.stage
            → (ps : List Term) (cs : CellTable) → left t ps self.old cs ≡ left t ps self.new cs }
        ensures comes { (t : Tables) → HasSettled met self.old.stage → (cs : CellTable) → ComesIf t result self.new cs }
        ensures coded { (t : Tables) → IsCoded t self.old → IsCoded t self.new }
        ensures calls { self.new.calls ≡ self.old.calls }
        ensures fewer { HasSettled met self.old.stage → FallsIf result self.old self.new }
    {
        match met {
            Next::Question(question) => Some(Ask::Question(question)),
            Next::Unequal => {
                self.set(Stage::Ended(Verdict::Never));
                None
            }
            Next::Needs(equalities) => {
                self.set(Stage::Ended(Verdict::If(equalities)));
                None
            }
        }
    }

    // One turn: a run or the last comparison goes on.
    fn turn<F: Facts>(
        &mut self,
        alloc: Global,
        model: &Model,
        cells: &mut Cells,
        facts: &mut F,
    ) -> Result<Option<Ask>, NoMemory>
        requires coded { IsCoded model.now self.old }
        requires new { IsRoomy (F.pieces facts.old) (length cells.old.places) }
        ensures moved { IfOk result (λ a. Moved model.now self.old cells.old (F.counts facts.old) self.new cells.new
            (F.counts facts.new) (F.pieces facts.new)) }
        ensures comes { IfOk result (λ a. ComesIf model.now a self.new cells.new) }
        ensures coded { IfOk result (λ a. IsCoded model.now self.new) }
        ensures grown { IfOk result (λ a. IsGrown model.now cells.old.places (F.counts facts.old)
            (F.pieces facts.old) cells.new.places (F.counts facts.new) (F.pieces facts.new)) }
        ensures satisfied { IfOk result (λ a. KeepsAll (F.pieces facts.old) (F.satisfied facts.old)
            (F.pieces facts.new) (F.satisfied facts.new)) }
        ensures pieces { IfOk result (λ a. Extends (payloads_of (F.pieces facts.old))
            (payloads_of (F.pieces facts.new))) }
        ensures new { IfOk result (λ a. IsRoomy (F.pieces facts.new) (length cells.new.places)) }
        ensures calls { IfOk result (λ a. self.new.calls ≡ self.old.calls) }
        ensures fewer { IfOk result (λ a. FallsIf a self.old self.new) }
    {
        match &mut self.stage {
            Stage::Runs(run) => {
                let met = run.ask(alloc, model, cells, facts)?;
                let asked = self.meet(alloc, cells, met)?;
                Ok(asked)
            }
            Stage::Compares(comparison) => {
                let met = comparison.ask(facts)?;
                Ok(self.settle(met))
            }
            Stage::Ended(_) => Ok(Some(Ask::Ended)),
        }
    }

    /// Goes on to what is asked next, or to the end; after the end it says the same again. A new cell gets its initial
    /// term from the facts.
    ///
    /// # Errors
    /// `NoMemory` where memory runs out; the chain can't go on then.
    pub fn ask<F: Facts>(
        &mut self,
        alloc: Global,
        model: &Model,
        cells: &mut Cells,
        facts: &mut F,
    ) -> Result<Ask, NoMemory>
        requires coded { IsCoded model.now self.old }
        requires new { IsRoomy (F.pieces facts.old) (length cells.old.places) }
        ensures moved { IfOk result (λ a. Moved model.now self.old cells.old (F.counts facts.old) self.new cells.new
            (F.counts facts.new) (F.pieces facts.new)) }
        ensures comes { IfOk result (λ a. Comes model.now a self.new cells.new) }
        ensures coded { IfOk result (λ a. IsCoded model.now self.new) }
        ensures grown { IfOk result (λ a. IsGrown model.now cells.old.places (F.counts facts.old)
            (F.pieces facts.old) cells.new.places (F.counts facts.new) (F.pieces facts.new)) }
        ensures satisfied { IfOk result (λ a. KeepsAll (F.pieces facts.old) (F.satisfied facts.old)
            (F.pieces facts.new) (F.satisfied facts.new)) }
        ensures pieces { IfOk result (λ a. Extends (payloads_of (F.pieces facts.old))
            (payloads_of (F.pieces facts.new))) }
        ensures new { IfOk result (λ a. IsRoomy (F.pieces facts.new) (length cells.new.places)) }
        ensures calls { IfOk result (λ a. self.new.calls ≡ self.old.calls) }
    {
        'turns: loop {
            if let Some(a) = self.turn(alloc, model, cells, facts)? {
                return Ok(a);
            }
        }
    }

    /// Takes the outcome of the question that was asked. It takes no memory.
    pub fn answer(&mut self, outcome: u8)
        requires asked { (t : Tables) × (q : Question) × (cs : CellTable) × IsAskedAt t q self.old.stage cs }
        ensures answered { (t : Tables) (q : Question) (cs : CellTable) → IsCoded t self.old
            → IsAskedAt t q self.old.stage cs
            → (ps : List Term) → left t ps self.new cs ≡ told (left t ps self.old cs) outcome }
        ensures coded { (t : Tables) → IsCoded t self.old → IsCoded t self.new }
        ensures calls { self.new.calls ≡ self.old.calls }
    {
        match &mut self.stage {
            Stage::Runs(run) => run.answer(outcome),
            Stage::Compares(comparison) => comparison.answer(outcome),
            Stage::Ended(_) => {}
        }
    }
}
