//! The enumeration's node: a prefix of a pair's paths.

ghost use Rattle.std.specs.Prelude.{◌≡◌};
ghost use Rattle.cm_walk.specs.Leaves.{IsLeafOf};
ghost use Rattle.cm_walk.specs.Prefixes.{IsWhole};

use crate::leaf::Leaf;
use crate::prefix::Prefix;
use cm_beside::nodes_are_right;
use cm_ctx::{Mask, Steps};
use cm_forks::{Ask, Node};
use cm_model::{Model, NoMemory, Pair};
use std::alloc::Global;
use std::sync::ledger::Ledger;

/// Whose paths are walked over.
#[derive(Clone, Copy)]
pub struct Subject<'m> {
    pub model: &'m Model,
    pub pair: Pair,
}

/// A prefix of a pair's paths, with what goes on from it.
#[derive(Drop)]
pub struct Walker<'m> {
    pub alloc: Global,
    pub subject: Subject<'m>,
    pub prefix: Prefix,
}

impl<'m> Walker<'m> {
    /// The leaf at its end.
    pub(crate) fn leaf(self) -> Leaf
        requires whole { IsWhole self.subject.model.now self.subject.pair self.prefix }
        ensures path { result.path ≡ self.entry.prefix.decisions }
        ensures leaf { IsLeafOf self.entry.subject.model.now self.entry.subject.pair result }
    {
        let Walker {
            alloc: _,
            subject,
            prefix,
        } = self;
        Leaf::of(subject.model, subject.pair, prefix)
    }
}

impl<'m> Node for Walker<'m> {
    ghost use Rattle.cm_term.specs.declared.question.Question.{Question};
    ghost use Rattle.cm_world.specs.Over.{IsPath, TooManyCells};
    ghost use Rattle.cm_walk.specs.Prefixes.{IsPrefix, IsOpen, IsWhole};
    ghost use Rattle.cm_walk.specs.Sets.{TouchesFew};

    type Subject = Subject<'m>;

    ghost has_path = { λ s. IsPath s.model.now s.pair };

    ghost over_cells = { λ s. TooManyCells s.model.now s.pair };

    ghost shown = { λ s. TouchesFew s.model.now s.pair };

    ghost about = { λ w. w.subject };

    ghost prefix = { λ w. w.prefix.decisions };

    ghost fresh = { λ w. IsPrefix w.subject.model.now w.subject.pair w.prefix };

    ghost waits = { λ w. (q : Question) × IsOpen w.subject.model.now w.subject.pair w.prefix q };

    ghost whole = { λ w. IsWhole w.subject.model.now w.subject.pair w.prefix };

    fn subject(&self) -> Subject<'m> {
        self.subject
    }

    fn ask(&mut self) -> Result<Ask, NoMemory> {
        let of = self.subject;
        let asked = self.prefix.ask(self.alloc, of.model, of.pair);
        asked
    }

    fn outcomes(&self) -> Mask {
        self.prefix.outcomes(self.subject.model, self.subject.pair)
    }

    fn follow(&mut self, outcome: u8) -> Result<(), NoMemory> {
        let of = self.subject;
        let followed = self.prefix.follow(of.model, of.pair, outcome);
        followed
    }

    fn add<L: Ledger>(&mut self, outcome: u8, steps: &mut Steps<L>) -> Result<(), NoMemory> {
        let of = self.subject;
        let added = self.prefix.add(of.model, of.pair, outcome, steps);
        added
    }

    fn depth(&self) -> usize {
        self.prefix.decisions.len()
    }

    fn path(&self) -> &[u8] {
        self.prefix.decisions.as_slice()
    }

    fn try_copy(&self) -> Result<Walker<'m>, NoMemory> {
        let prefix = self.prefix.try_copy(self.alloc)?;
        Ok(Walker {
            alloc: self.alloc,
            subject: self.subject,
            prefix,
        })
    }
}
