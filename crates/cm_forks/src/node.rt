//! What the enumeration asks of a place between decisions.

ghost use Rattle.std.specs.Prelude.{◌≡◌, ◌≢◌, ◌+◌, ◌∷◌, ◌++◌, [], ℕ, List, length, IfOk, OnOk, OnErr};
ghost use Rattle.cm_forks.specs.Paths.{Begins, Covers, Ends};

use cm_ctx::{Mask, Steps};
use cm_model::NoMemory;
use std::sync::ledger::Ledger;

/// What comes next at a node.
#[derive(Clone, Copy, Debug, PartialEq, Eq)]
pub enum Ask {
    /// A question that has outcomes.
    Question,
    /// The path ends.
    End,
    /// A cell too many would be touched.
    Cells,
}

/// A place after some decisions: the paths that begin with them go on from it.
pub trait Node: Drop {
    /// What the paths are those of, as a model and a pair of its calls.
    type Subject: Copy;

    /// The paths of a subject.
    ghost has_path: { Self.Subject → List ℕ → Type 0 };

    /// What is so of a subject that touches too many cells.
    ghost over_cells: { Self.Subject → Type 0 };

    /// What is shown of each path at its end, as that its worlds touch few cells.
    ghost shown: { Self.Subject → List ℕ → Type 0 };

    /// The node's subject.
    ghost about: { Self → Self.Subject };

    /// The decisions so far.
    ghost prefix: { Self → List ℕ };

    /// What is so of a node that may be asked.
    ghost fresh: { Self → Type 0 };

    /// What is so while a question is open.
    ghost waits: { Self → Type 0 };

    /// What is so of a leaf.
    ghost whole: { Self → Type 0 };

    /// What the node is about.
    fn subject(&self) -> Self::Subject
        ensures about { result ≡ about self.now };

    /// Goes on to the next question, or to the end.
    ///
    /// # Errors
    /// `NoMemory` where memory runs out.
    fn ask(&mut self) -> Result<Ask, NoMemory>
        requires fresh { fresh self.old }
        ensures about { about self.new ≡ about self.old }
        ensures prefix { prefix self.new ≡ prefix self.old }
        ensures end { IfOk result (λ a. a ≡ Ask.End → Ends (has_path (about self.old)) (prefix self.old)) }
        ensures shown { IfOk result (λ a. a ≡ Ask.End → shown (about self.old) (prefix self.old)) }
        ensures goes_on { IfOk result (λ a. a ≡ Ask.Question → has_path (about self.old) (prefix self.old) → ⊥) }
        ensures waits { IfOk result (λ a. a ≡ Ask.Question → waits self.new) }
        ensures whole { IfOk result (λ a. a ≡ Ask.End → whole self.new) }
        ensures over_cells { IfOk result (λ a. a ≡ Ask.Cells → over_cells (about self.old)) };

    /// The outcomes of the open question, each of which begins a path.
    fn outcomes(&self) -> Mask
        requires waits { waits self.now }
        ensures covers { Covers (has_path (about self.now)) (prefix self.now) result.0 };

    /// Takes the one outcome that is possible. This adds nothing.
    ///
    /// # Errors
    /// `NoMemory` where memory runs out.
    fn follow(&mut self, outcome: u8) -> Result<(), NoMemory>
        requires waits { waits self.old }
        requires begins { Begins (has_path (about self.old)) (prefix self.old ++ outcome ∷ []) }
        requires alone { (x : ℕ) → Begins (has_path (about self.old)) (prefix self.old ++ x ∷ []) → x ≡ outcome }
        ensures about { about self.new ≡ about self.old }
        ensures prefix { OnOk result (prefix self.new ≡ prefix self.old ++ outcome ∷ []) }
        ensures fresh { OnOk result (fresh self.new) };

    /// Takes one outcome of several, and counts it as one addition.
    ///
    /// # Errors
    /// `NoMemory` where memory runs out; then nothing is counted.
    fn add<L: Ledger>(&mut self, outcome: u8, steps: &mut Steps<L>) -> Result<(), NoMemory>
        requires waits { waits self.old }
        requires begins { Begins (has_path (about self.old)) (prefix self.old ++ outcome ∷ []) }
        requires several { (d : ℕ) × (d ≢ outcome)
            × Begins (has_path (about self.old)) (prefix self.old ++ d ∷ []) }
        ensures about { about self.new ≡ about self.old }
        ensures prefix { OnOk result (prefix self.new ≡ prefix self.old ++ outcome ∷ []) }
        ensures fresh { OnOk result (fresh self.new) }
        ensures added { OnOk result (steps.new ≡ steps.old + 1) }
        ensures not_added { OnErr result (steps.new ≡ steps.old) };

    /// How many decisions were made.
    fn depth(&self) -> usize
        ensures depth { result ≡ length (prefix self.now) };

    /// The decisions so far.
    fn path(&self) -> &[u8]
        ensures path { result.now ≡ prefix self.now };

    /// A node at the same place, with the same question open.
    ///
    /// # Errors
    /// `NoMemory` where memory runs out.
    fn try_copy(&self) -> Result<Self, NoMemory>
        requires waits { waits self.now }
        ensures about { IfOk result (λ copy. about copy ≡ about self.now) }
        ensures prefix { IfOk result (λ copy. prefix copy ≡ prefix self.now) }
        ensures waits { IfOk result (λ copy. waits copy) };
}
