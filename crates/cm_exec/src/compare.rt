//! The last comparison of a pair of calls: its inspections, and the equalities that it needs.

ghost use Rattle.std.specs.Prelude.{◌≡◌, ◌<◌, ◌≤◌, ◌+◌, ◌-◌, List, [], ◌∷◌, IfOk, OnOk, IfSome, MatchOption, length};
ghost use Rattle.std.specs.Prelude.{drop};
ghost use Rattle.cm_term.specs.declared.term.Term.{Term};
ghost use Rattle.cm_ctx.specs.Contexts.{payloads_of};
ghost use Rattle.cm_exec.specs.Settling.{settling_of, settling_after};
ghost use Rattle.cm_exec.specs.Comparing.{Extends, IsNoMeeting};
ghost use Rattle.cm_exec.specs.Pairing.{settling, Comes, ComesIf, IsAsking, Awaits, AwaitsIf, IsWithin, LeftIf};
ghost use Rattle.cm_exec.specs.Pairing.{left_in};
ghost use Rattle.cm_exec.specs.declared.compare.Progress.TheVariants as progress;

use crate::comparison::{Comparison, Met, Sides};
use cm_ctx::Facts;
use cm_model::{List, NoMemory};
use cm_term::{Equal, Question};
use std::alloc::Global;
use std::mem;

/// What the last comparison comes to.
#[derive(Drop)]
pub enum Next {
    /// A variant or an option is inspected next.
    Question(Question),
    /// Two are unequal, or of no one type.
    Unequal,
    /// All pairs are equal exactly where these are.
    Needs(List<Equal>),
}

/// How far it is.
#[derive(Drop)]
pub enum Progress {
    /// Before the next pair.
    Between,
    /// In the pair before the next one.
    Within(Comparison),
    /// Two were unequal.
    Unequal,
}

/// The comparison of pairs of terms, in order. Two elements or two numbers that meet are not asked: they are needed
/// to be equal. It ends at the first two variants or options that differ.
#[derive(Drop)]
pub struct Compare {
    /// Where its lists are made.
    pub alloc: Global,
    /// The pairs of terms.
    pub pairs: List<Sides>,
    /// The number of the next pair.
    pub at: usize,
    /// The equalities that are needed so far.
    pub needed: List<Equal>,
    /// How far it is.
    pub progress: Progress,
}

impl Compare {
    /// A comparison that has not begun. It takes no memory.
    pub fn new(alloc: Global, pairs: List<Sides>) -> Compare
        ensures asks { (ps : List Term) → settling ps result ≡ settling_of ps pairs }
    {
        Compare {
            alloc,
            pairs,
            at: 0,
            needed: List::new(alloc),
            progress: Progress::Between,
        }
    }

    // The comparison is so far.
    fn set(&mut self, progress: Progress)
        ensures { self.new ≡ record self.old { progress = progress } }
    {
        let _ = mem::replace(&mut self.progress, progress);
    }

    // Begins with the next pair, if there is one, and else says what is needed.
    fn begin(&mut self) -> Result<Option<Next>, NoMemory>
        requires between { self.old.progress ≡ progress.Between }
        ensures turned { IfOk result (λ n. (ps : List Term) → settling ps self.old ≡ settling ps self.new) }
        ensures comes { IfOk result (λ n. (ps : List Term) → ComesIf n (settling ps self.new)) }
        ensures awaits { IfOk result (λ n. AwaitsIf n self.new.progress) }
        ensures left { IfOk result (λ n. LeftIf n (left_in self.old) (left_in self.new)) }
    {
        match self.pairs.get(self.at) {
            Some(sides) => {
                let sides = sides.share()?;
                let comparison = Comparison::new(self.alloc, sides);
                self.at = next_number(self.at)?;
                self.set(Progress::Within(comparison));
                Ok(None)
            }
            None => {
                let needed = copied(self.alloc, self.needed.as_slice())?;
                Ok(Some(Next::Needs(needed)))
            }
        }
    }

    // Goes on with the pair that it is in.
    fn settle(&mut self, met: Met) -> Option<Next>
        requires no_meeting { IsNoMeeting met }
        requires within { IsWithin met self.old.progress }
        ensures turned { (ps : List Term) → settling ps self.old ≡ settling ps self.new }
        ensures comes { (ps : List Term) → ComesIf result (settling ps self.new) }
        ensures awaits { AwaitsIf result self.new.progress }
        ensures left { LeftIf result (left_in self.old) (left_in self.new) }
    {
        match met {
            Met::Inspects(question) => Some(Next::Question(question)),
            Met::Says(true) => {
                self.set(Progress::Between);
                None
            }
            Met::Says(false) => {
                self.set(Progress::Unequal);
                Some(Next::Unequal)
            }
            Met::Stops => {
                self.set(Progress::Unequal);
                Some(Next::Unequal)
            }
            Met::Meets(_) => unreachable!(),
        }
    }

    // One turn: a pair is begun, or gone on with.
    fn turn<F: Facts>(&mut self, facts: &F) -> Result<Option<Next>, NoMemory>
        ensures turned { IfOk result (λ n. (ps : List Term) → Extends (payloads_of (F.pieces facts.now)) ps →
            settling ps self.old ≡ settling ps self.new) }
        ensures comes { IfOk result (λ n. (ps : List Term) → ComesIf n (settling ps self.new)) }
        ensures awaits { IfOk result (λ n. AwaitsIf n self.new.progress) }
        ensures left { IfOk result (λ n. LeftIf n (left_in self.old) (left_in self.new)) }
    {
        match &mut self.progress {
            Progress::Between => {
                let next = self.begin()?;
                Ok(next)
            }
            Progress::Within(comparison) => {
                let met = comparison.next_inspection(facts, &mut self.needed)?;
                Ok(self.settle(met))
            }
            Progress::Unequal => Ok(Some(Next::Unequal)),
        }
    }

    /// Goes on to the next inspection or the end; after an end it says the same again.
    ///
    /// # Errors
    /// `NoMemory` where memory runs out; the comparison can't go on then.
    pub fn ask<F: Facts>(&mut self, facts: &F) -> Result<Next, NoMemory>
        ensures same { IfOk result (λ _. (ps : List Term) → Extends (payloads_of (F.pieces facts.now)) ps →
            settling ps self.old ≡ settling ps self.new) }
        ensures comes { IfOk result (λ n. (ps : List Term) → Comes n (settling ps self.new)) }
        ensures awaits { IfOk result (λ n. Awaits n self.new.progress) }
    {
        'pairs: loop {
            if let Some(next) = self.turn(facts)? {
                return Ok(next);
            }
        }
    }

    /// An equal comparison, which shares all terms.
    ///
    /// # Errors
    /// `NoMemory` where memory runs out.
    pub fn try_copy(&self) -> Result<Compare, NoMemory>
        ensures equal { IfOk result (λ copy. copy ≡ self.now) }
    {
        let pairs = copied_pairs(self.alloc, self.pairs.as_slice())?;
        let needed = copied(self.alloc, self.needed.as_slice())?;
        let progress = copied_progress(self.alloc, &self.progress)?;
        Ok(Compare {
            alloc: self.alloc,
            pairs,
            at: self.at,
            needed,
            progress,
        })
    }

    /// Takes the outcome of the question that was asked. It takes no memory.
    #[tactic(auto, using(crate::proofs::Pairs::needed_after))]
    pub fn answer(&mut self, outcome: u8)
        requires asked { IsAsking self.old.progress }
        ensures answered { (ps : List Term) → settling ps self.new ≡ settling_after (settling ps self.old) outcome }
    {
        match &mut self.progress {
            Progress::Within(comparison) => comparison.answer(outcome),
            Progress::Between => {}
            Progress::Unequal => {}
        }
    }
}

fn next_number(at: usize) -> Result<usize, NoMemory>
    ensures { IfOk result (λ n. n ≡ at + 1) }
{
    match at.checked_add(1) {
        Some(n) => Ok(n),
        None => Err(NoMemory),
    }
}

// A copy of the equalities.
fn copied(alloc: Global, needed: &[Equal]) -> Result<List<Equal>, NoMemory>
    ensures { IfOk result (λ copy. copy ≡ needed.now) }
{
    let copy = Vec::from_slice(alloc, needed)?;
    Ok(List::from_vec(copy))
}

fn copied_pairs(alloc: Global, pairs: &[Sides]) -> Result<List<Sides>, NoMemory>
    ensures { IfOk result (λ copy. copy ≡ pairs.now) }
{
    let mut copy = Vec::with_capacity(alloc, pairs.len())?;
    for sides in pairs {
        copy.push(sides.share()?)?;
    }
    Ok(List::from_vec(copy))
}

fn copied_progress(alloc: Global, progress: &Progress) -> Result<Progress, NoMemory>
    ensures { IfOk result (λ copy. copy ≡ progress.now) }
{
    match progress {
        Progress::Between => Ok(Progress::Between),
        Progress::Within(comparison) => {
            let comparison = comparison.try_copy(alloc)?;
            Ok(Progress::Within(comparison))
        }
        Progress::Unequal => Ok(Progress::Unequal),
    }
}
