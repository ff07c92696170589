//! The walk: the leaves of a pair's paths, from the least path on.

ghost use Rattle.std.specs.Prelude.{◌≡◌, ◌≤◌, ◌<◌, ◌+◌, [], ℕ, List, length, IfOk, OnOk, OnErr, IfErr};
ghost use Rattle.std.specs.Prelude.{IfSome, IfNone, Err, Some, None};
ghost use Rattle.cm_model.specs.Limits.{decision_limit};
ghost use Rattle.cm_model.specs.declared.pair.Over.{Over};
ghost use Rattle.cm_world.specs.Over.{IsPath, IsOver, IsOverBy};
ghost use Rattle.cm_world.specs.OpenPrefix.{IsOpenPrefix};
ghost use Rattle.cm_forks.specs.Paths.{IsNext, IsPast};
ghost use Rattle.cm_forks.specs.Counts.{AtLeast};
ghost use Rattle.cm_forks.specs.declared.fault.Fault.TheVariants as fault;
ghost use Rattle.cm_walk.specs.Leaves.{IsLeafOf};

use crate::leaf::Leaf;
use crate::prefix::Prefix;
use crate::walker::{Subject, Walker};
use cm_beside::nodes_are_right;
use cm_ctx::Steps;
use cm_forks::{Fault, Limits, Paths};
use cm_model::{Model, NoMemory, Pair, limits};
use std::alloc::Global;
use std::sync::ledger::Ledger;

/// The leaves of a pair's paths. It keeps a prefix for each open fork, the path that it gave last, how many leaves it
/// gave, how many additions it made, and its fault.
#[derive(Drop)]
pub struct Walk<'m> {
    alloc: Global,
    paths: Paths<Walker<'m>>,
}

impl<'m> std::marker::Model for Walk<'m> {
    ghost use Rattle.std.specs.Prelude.{◌≡◌};
    ghost use Rattle.cm_model.specs.Limits.{decision_limit};
    ghost use Rattle.cm_walk.specs.Walking.{Walking, walking_code};

    ghost Value = { Walking };

    ghost coded = { walking_code };

    ghost view = { λ w. record {
      model = w.paths.subject.model.now;
      pair_of = w.paths.subject.pair;
      limit = w.paths.limits.paths;
      last = w.paths.last;
      given = w.paths.given;
      added = w.paths.added;
      stopped = w.paths.fault;
    } };

    ghost invariant = { λ w. w.paths.limits.decisions ≡ decision_limit };
}

impl<'m> Walk<'m> {
    /// A walk that has given nothing. It gives no more leaves than the limit.
    ///
    /// # Errors
    /// `NoMemory` where memory runs out.
    pub fn new(
        alloc: Global,
        model: &'m Model,
        pair: Pair,
        limit: u32,
    ) -> Result<Walk<'m>, NoMemory>
        requires a { pair.a < length model.now.calls }
        requires b { pair.b < length model.now.calls }
        ensures model { IfOk result (λ walk. walk.model ≡ model.entry.now) }
        ensures pair { IfOk result (λ walk. walk.pair_of ≡ pair) }
        ensures limit { IfOk result (λ walk. walk.limit ≡ limit) }
        ensures last { IfOk result (λ walk. walk.last ≡ None) }
        ensures given { IfOk result (λ walk. walk.given ≡ 0) }
        ensures added { IfOk result (λ walk. walk.added ≡ 0) }
        ensures fault { IfOk result (λ walk. walk.stopped ≡ None) }
    {
        nodes_are_right(model, pair);
        let prefix = Prefix::new(alloc, model, pair)?;
        let root = Walker {
            alloc,
            subject: Subject { model, pair },
            prefix,
        };
        let limits = Limits {
            paths: limit,
            decisions: limits::DECISIONS as u16,
        };
        Ok(Walk {
            alloc,
            paths: Paths::new(alloc, root, limits),
        })
    }

    /// How many additions were made.
    pub fn added(&self) -> u64
        ensures added { result ≡ self.now.added }
    {
        self.paths.added()
    }

    /// The leaf of the least path above the last one that was given, or None after the last path.
    ///
    /// # Errors
    /// `Over` where the pair passes a limit, `Memory` where memory runs out; the fault comes again at each call.
    pub fn next<L: Ledger>(&mut self, steps: &mut Steps<L>) -> Result<Option<Leaf>, Fault>
        // each leaf is right, and its path is the least above the last one given, which it then is
        ensures next { IfOk result (λ next. IfSome next (λ leaf.
            IsNext (IsPath self.old.model self.old.pair_of) self.old.last leaf.path)) }
        ensures leaf { IfOk result (λ next. IfSome next (λ leaf.
            IsLeafOf self.old.model self.old.pair_of leaf)) }
        ensures last { IfOk result (λ next. IfSome next (λ leaf. self.new.last ≡ Some leaf.path)) }
        ensures given { IfOk result (λ next. IfSome next (λ leaf. self.new.given ≡ self.old.given + 1)) }
        ensures short { IfOk result (λ next. IfSome next (λ leaf. length leaf.path ≤ decision_limit)) }
        ensures few { IfOk result (λ next. IfSome next (λ leaf. self.old.given < self.old.limit)) }
        // None comes where no path is above it, and then the pair passes no limit
        ensures end { IfOk result (λ next. IfNone next
            (IsPast (IsPath self.old.model self.old.pair_of) self.old.last)) }
        ensures not_over { IfOk result (λ next. IfNone next
            (IsOver self.old.model self.old.pair_of self.old.limit → ⊥)) }
        ensures stays { IfOk result (λ next. IfNone next (self.new ≡ self.old)) }
        // Over names a limit that the pair passes; a fault is kept and comes again
        ensures over { IfErr result (λ why. (x : Over) → why ≡ fault.Over x
            → IsOverBy self.old.model self.old.pair_of self.old.limit x) }
        ensures kept { IfErr result (λ why. self.new.stopped ≡ Some why) }
        ensures again { IfSome self.old.stopped (λ why. result ≡ Err why) }
        ensures failed { IfSome self.old.stopped (λ why. self.new ≡ self.old) }
        ensures sound { OnOk result (self.new.stopped ≡ None) }
        ensures err_last { OnErr result (self.new.last ≡ self.old.last) }
        ensures err_given { OnErr result (self.new.given ≡ self.old.given) }
        ensures model { self.new.model ≡ self.old.model }
        ensures pair { self.new.pair_of ≡ self.old.pair_of }
        ensures limit { self.new.limit ≡ self.old.limit }
        // the counter rises by the additions, which are no more than the open prefixes
        ensures steps { steps.new + self.old.added ≡ steps.old + self.new.added }
        ensures are_open { AtLeast (IsOpenPrefix self.old.model self.old.pair_of) self.new.added }
    {
        match self.paths.next(self.alloc, steps) {
            Err(why) => Err(why),
            Ok(None) => Ok(None),
            Ok(Some(walker)) => Ok(Some(walker.leaf())),
        }
    }
}
