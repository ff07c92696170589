//! Prefixes of paths: what is kept after some decisions.

ghost use Rattle.std.specs.Prelude.{◌≡◌, ◌≢◌, ◌+◌, ◌++◌, ◌∷◌, [], ℕ, List, IfOk, OnOk, OnErr};
ghost use Rattle.cm_model.specs.Tables.{Tables};
ghost use Rattle.cm_model.specs.declared.pair.Pair.{Pair};
ghost use Rattle.cm_term.specs.declared.question.Question.{Question};
ghost use Rattle.cm_term.specs.declared.term.Term.{Term};
ghost use Rattle.cm_world.specs.Over.{IsPath, TooManyCells};
ghost use Rattle.cm_forks.specs.Paths.{Begins, Covers, Ends};
ghost use Rattle.cm_forks.specs.declared.node.Ask.TheVariants as ask;
ghost use Rattle.cm_chain.specs.Chains.{left, told, IsCoded, IsAskedAt};
ghost use Rattle.cm_walk.specs.Prefixes.{IsPrefix, IsOpen, IsWhole};
ghost use Rattle.cm_walk.specs.Sets.{TouchesFew};

use cm_beside::nodes_are_right;
use cm_cells::Cells;
use cm_chain::Chain;
use cm_ctx::{Ctx, Mask, Steps};
use cm_forks::Ask;
use cm_model::{List, Model, NoMemory, Pair};
use cm_term::{Fact, Question};
use std::alloc::Global;
use std::sync::ledger::Ledger;

/// What is kept after some decisions of a pair.
#[derive(Drop)]
pub struct Prefix {
    /// The decisions, in order.
    pub decisions: List<u8>,
    /// Those that had another possible outcome.
    pub facts: List<Fact>,
    /// What is known of the variables.
    pub known: Ctx,
    /// The touched cells.
    pub cells: Cells,
    /// What goes on.
    pub chain: Chain,
    /// The question that is open, if one is.
    pub open: Option<Question>,
}

impl Prefix {
    /// Goes on to the next question, or to the end.
    ///
    /// # Errors
    /// `NoMemory` where memory runs out.
    pub fn ask(&mut self, alloc: Global, model: &Model, pair: Pair) -> Result<Ask, NoMemory>
        requires prefix { IsPrefix model.now pair self.old }
        ensures decisions { self.new.decisions ≡ self.old.decisions }
        ensures open { IfOk result (λ a. a ≡ ask.Question → (q : Question) × IsOpen model.now pair self.new q) }
        ensures goes_on { IfOk result (λ a. a ≡ ask.Question → IsPath model.now pair self.old.decisions → ⊥) }
        ensures whole { IfOk result (λ a. a ≡ ask.End → IsWhole model.now pair self.new) }
        ensures ends { IfOk result (λ a. a ≡ ask.End → Ends (IsPath model.now pair) self.old.decisions) }
        ensures few { IfOk result (λ a. a ≡ ask.End → TouchesFew model.now pair self.old.decisions) }
        ensures many { IfOk result (λ a. a ≡ ask.Cells → TooManyCells model.now pair) }
    {
        nodes_are_right(model, pair);
        let asked = self
            .chain
            .ask(alloc, model, &mut self.cells, &mut self.known)?;
        self.known.has_valuation();
        let _ = self.cells.len();
        match asked {
            cm_chain::Ask::Question(question) => {
                self.open = Some(question);
                Ok(Ask::Question)
            }
            cm_chain::Ask::Ended => Ok(Ask::End),
            cm_chain::Ask::Cells => Ok(Ask::Cells),
        }
    }

    /// The possible outcomes of the open question.
    pub fn outcomes(&self, model: &Model, pair: Pair) -> Mask
        requires open { (q : Question) × IsOpen model.now pair self.now q }
        ensures covers { Covers (IsPath model.now pair) self.now.decisions result.0 }
    {
        nodes_are_right(model, pair);
        let Some(question) = &self.open else {
            unreachable!()
        };
        self.known.outcomes(question)
    }

    // The outcome of the question that was asked is there.
    fn tell(&mut self, outcome: u8) -> Result<(), NoMemory>
        requires asked { (t : Tables) × (q : Question) × IsAskedAt t q self.old.chain.stage self.old.cells }
        ensures decisions { OnOk result (self.new.decisions ≡ self.old.decisions ++ outcome ∷ []) }
        ensures told { OnOk result ((t : Tables) (q : Question) → IsCoded t self.old.chain
            → IsAskedAt t q self.old.chain.stage self.old.cells → (ps : List Term)
            → left t ps self.new.chain self.new.cells ≡ told (left t ps self.old.chain self.old.cells) outcome) }
        ensures coded { OnOk result ((t : Tables) → IsCoded t self.old.chain → IsCoded t self.new.chain) }
        ensures facts { self.new.facts ≡ self.old.facts }
        ensures known { self.new.known ≡ self.old.known }
        ensures cells { self.new.cells ≡ self.old.cells }
    {
        self.decisions.push(outcome)?;
        self.chain.answer(outcome);
        self.open = None;
        Ok(())
    }

    /// Takes the one outcome that is possible. This adds nothing.
    ///
    /// # Errors
    /// `NoMemory` where memory runs out.
    pub fn follow(&mut self, model: &Model, pair: Pair, outcome: u8) -> Result<(), NoMemory>
        requires open { (q : Question) × IsOpen model.now pair self.old q }
        requires alone { (x : ℕ) → Begins (IsPath model.now pair) (self.old.decisions ++ x ∷ []) → x ≡ outcome }
        ensures decisions { OnOk result (self.new.decisions ≡ self.old.decisions ++ outcome ∷ []) }
        ensures prefix { OnOk result (IsPrefix model.now pair self.new) }
    {
        nodes_are_right(model, pair);
        self.tell(outcome)?;
        Ok(())
    }

    /// Takes one outcome of several, and counts it as one addition.
    ///
    /// # Errors
    /// `NoMemory` where memory runs out; then nothing is counted.
    pub fn add<L: Ledger>(
        &mut self,
        model: &Model,
        pair: Pair,
        outcome: u8,
        steps: &mut Steps<L>,
    ) -> Result<(), NoMemory>
        requires open { (q : Question) × IsOpen model.now pair self.old q }
        requires begins { Begins (IsPath model.now pair) (self.old.decisions ++ outcome ∷ []) }
        requires several { (d : ℕ) × (d ≢ outcome)
            × Begins (IsPath model.now pair) (self.old.decisions ++ d ∷ []) }
        ensures decisions { OnOk result (self.new.decisions ≡ self.old.decisions ++ outcome ∷ []) }
        ensures prefix { OnOk result (IsPrefix model.now pair self.new) }
        ensures added { OnOk result (steps.new ≡ steps.old + 1) }
        ensures not_added { OnErr result (steps.new ≡ steps.old) }
    {
        nodes_are_right(model, pair);
        let Some(question) = self.open else {
            unreachable!()
        };
        self.known.reserve()?;
        self.facts.push(Fact { question, outcome })?;
        self.tell(outcome)?;
        self.known.add(&question, outcome, steps);
        Ok(())
    }

    /// A prefix of which the same is so, and which shares all terms.
    ///
    /// # Errors
    /// `NoMemory` where memory runs out.
    pub fn try_copy(&self, alloc: Global) -> Result<Prefix, NoMemory>
        ensures decisions { IfOk result (λ copy. copy.decisions ≡ self.now.decisions) }
        ensures open { IfOk result (λ copy. (t : Tables) (p : Pair) (q : Question) → IsOpen t p self.now q
            → IsOpen t p copy q) }
    {
        let decisions = List::from_slice(alloc, self.decisions.as_slice())?;
        let facts = List::from_slice(alloc, self.facts.as_slice())?;
        let known = self.known.try_copy(alloc)?;
        let cells = self.cells.try_copy(alloc)?;
        let chain = self.chain.try_copy(alloc)?;
        Ok(Prefix {
            decisions,
            facts,
            known,
            cells,
            chain,
            open: self.open,
        })
    }
}
