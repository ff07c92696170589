//! The enumeration of all paths.

ghost use Rattle.std.specs.Prelude.{◌≡◌, ◌≤◌, ◌<◌, ◌+◌, [], ℕ, List, length, IfOk, OnOk, OnErr, IfErr};
ghost use Rattle.std.specs.Prelude.{IfSome, IfNone, Ok, Err, Some, None};
ghost use Rattle.cm_forks.specs.Paths.{IsNext, IsPast, Begins};
ghost use Rattle.cm_forks.specs.Counts.{AtLeast, IsOpen};
ghost use Rattle.cm_forks.specs.Faults.{IsRight, TooMany, TooLong};

use crate::advance::advance;
use crate::fault::Fault;
use crate::fork::Pending;
use crate::limits::Limits;
use crate::node::Node;
use cm_ctx::Steps;
use std::alloc::Global;
use std::marker::Model;
use std::sync::ledger::Ledger;

/// The paths of a subject from the least on. It holds a node for each open fork, and the path given last.
#[derive(Drop)]
pub struct Paths<N: Node> {
    subject: N::Subject,
    hand: Option<N>,
    stack: Vec<Pending<N>>,
    last: Option<Vec<u8>>,
    given: u32,
    added: u64,
    limits: Limits,
    fault: Option<Fault>,
}

impl<N: Node> Model for Paths<N> {
    ghost use Rattle.std.specs.Prelude.{◌≡◌, option_map, IfSome};
    ghost use Rattle.cm_forks.specs.Progress.{Progress};
    ghost use Rattle.cm_forks.specs.inner.Sound.{Fine, Holds};
    ghost use Rattle.cm_forks.specs.inner.View.{forks, AllWait, path_in};

    ghost Value = { Progress N.Subject };

    ghost view = { λ w. record {
      subject = w.subject;
      last = path_in w.last;
      given = w.given;
      added = w.added;
      limits = w.limits;
      fault = w.fault;
    } };

    ghost invariant = { λ w. Holds (N.has_path w.subject) (Fine (N.shown w.subject) w.limits.decisions)
        (N.over_cells w.subject) (option_map N.prefix w.hand)
        (forks N.prefix w.stack.items)
        (AllWait N.waits N.about w.subject w.stack.items
        × IfSome w.hand (λ node. N.about node ≡ w.subject)
        × IfSome w.hand (λ node. N.fresh node))
        (path_in w.last) w.given w.added w.limits w.fault };
}

impl<N: Node> Paths<N> {
    /// The paths that go on from a root at which nothing was decided; some path is there.
    pub fn new(alloc: Global, root: N, limits: Limits) -> Paths<N>
        requires root { N.prefix root ≡ [] }
        requires some { Begins (N.has_path (N.about root)) [] }
        requires fresh { N.fresh root }
        ensures subject { result.subject ≡ N.about root }
        ensures last { result.last ≡ None }
        ensures given { result.given ≡ 0 }
        ensures added { result.added ≡ 0 }
        ensures limits { result.limits ≡ limits }
        ensures fault { result.fault ≡ None }
    {
        Paths {
            subject: root.subject(),
            hand: Some(root),
            stack: Vec::new(alloc),
            last: None,
            given: 0,
            added: 0,
            limits,
            fault: None,
        }
    }

    /// How many additions were made.
    pub fn added(&self) -> u64
        ensures added { result ≡ self.now.added }
    {
        self.added
    }

    /// The leaf of the least path above the last one, or None after the last path.
    ///
    /// # Errors
    /// `Over` where the paths pass a limit, `Memory` where memory runs out; the fault comes again at each call.
    pub fn next<L: Ledger>(
        &mut self,
        alloc: Global,
        steps: &mut Steps<L>,
    ) -> Result<Option<N>, Fault>
        // each leaf's path is the least above the last one given, which it then is
        ensures next { IfOk result (λ next. IfSome next (λ leaf. IsNext (N.has_path self.old.subject) self.old.last
            (N.prefix leaf))) }
        ensures about { IfOk result (λ next. IfSome next (λ leaf. N.about leaf ≡ self.old.subject)) }
        ensures whole { IfOk result (λ next. IfSome next (λ leaf. N.whole leaf)) }
        ensures last { IfOk result (λ next. IfSome next (λ leaf. self.new.last ≡ Some (N.prefix leaf))) }
        ensures given { IfOk result (λ next. IfSome next (λ leaf. self.new.given ≡ self.old.given + 1)) }
        ensures short { IfOk result (λ next. IfSome next (λ leaf. length (N.prefix leaf)
            ≤ self.old.limits.decisions)) }
        ensures few { IfOk result (λ next. IfSome next (λ leaf. self.old.given < self.old.limits.paths)) }
        // None comes where no path is above it, and nothing changes
        ensures over { IfOk result (λ next. IfNone next (IsPast (N.has_path self.old.subject) self.old.last)) }
        // and then each path was given, and none passes a limit
        ensures not_many { IfOk result (λ next. IfNone next (TooMany (N.has_path self.old.subject)
            self.old.limits.paths → ⊥)) }
        ensures not_long { IfOk result (λ next. IfNone next (TooLong (N.has_path self.old.subject)
            self.old.limits.decisions → ⊥)) }
        ensures shown { IfOk result (λ next. IfNone next ((path : List ℕ) → N.has_path self.old.subject path
            → N.shown self.old.subject path)) }
        ensures stays { IfOk result (λ next. IfNone next (self.new ≡ self.old)) }
        // a fault is right, is kept and comes again
        ensures right { IfErr result (IsRight (N.has_path self.old.subject) (N.over_cells self.old.subject)
            self.old.limits) }
        ensures kept { IfErr result (λ fault. self.new.fault ≡ Some fault) }
        ensures again { IfSome self.old.fault (λ fault. result ≡ Err fault) }
        ensures failed { IfSome self.old.fault (λ fault. self.new ≡ self.old) }
        ensures sound { OnOk result (self.new.fault ≡ None) }
        ensures err_last { OnErr result (self.new.last ≡ self.old.last) }
        ensures err_given { OnErr result (self.new.given ≡ self.old.given) }
        ensures subject { self.new.subject ≡ self.old.subject }
        ensures limits { self.new.limits ≡ self.old.limits }
        // the counter rises by the additions, which are no more than the open prefixes
        ensures steps { steps.new + self.old.added ≡ steps.old + self.new.added }
        ensures are_open { AtLeast (IsOpen (N.has_path self.old.subject)) self.new.added }
    {
        if let Some(fault) = self.fault {
            return Err(fault);
        }
        let subject = self.subject;
        let limits = self.limits;
        match advance(
            alloc,
            subject,
            &mut self.hand,
            &mut self.stack,
            &mut self.last,
            &mut self.given,
            limits,
            &mut self.added,
            steps,
        ) {
            Ok(next) => Ok(next),
            Err(fault) => {
                self.fault = Some(fault);
                Err(fault)
            }
        }
    }
}
