//! The next path, and what is kept of it.

ghost use Rattle.std.specs.Prelude.{◌≡◌, ◌≤◌, ◌<◌, ◌+◌, ◌∷◌, ◌++◌, [], ℕ, List, length, IfOk, OnOk, OnErr, IfErr};
ghost use Rattle.std.specs.Prelude.{IfSome, IfNone, Some, None, option_map};
ghost use Rattle.cm_forks.specs.Paths.{IsNext, IsPast};
ghost use Rattle.cm_forks.specs.Counts.{AtLeast, IsOpen};
ghost use Rattle.cm_forks.specs.Faults.{IsRight, TooMany, TooLong};
ghost use Rattle.cm_forks.specs.inner.View.{forks, AllWait, path_in};
ghost use Rattle.cm_forks.specs.inner.Sound.{Fine, Sane};

use crate::descent::next_leaf;
use crate::fault::Fault;
use crate::fork::Pending;
use crate::limits::Limits;
use crate::node::Node;
use cm_ctx::Steps;
use std::alloc::Global;
use std::sync::ledger::Ledger;

/// The leaf of the least path above the last one.
pub fn advance<N: Node, L: Ledger>(
    alloc: Global,
    subject: N::Subject,
    hand: &mut Option<N>,
    stack: &mut Vec<Pending<N>>,
    last: &mut Option<Vec<u8>>,
    given: &mut u32,
    limits: Limits,
    added: &mut u64,
    steps: &mut Steps<L>,
) -> Result<Option<N>, Fault>
    requires sane { Sane (N.has_path subject) (Fine (N.shown subject) limits.decisions)
        (option_map N.prefix hand.old) (forks N.prefix stack.old.items)
        (path_in last.old) given.old added.old limits.paths }
    requires about { IfSome hand.old (λ node. N.about node ≡ subject) }
    requires fresh { IfSome hand.old (λ node. N.fresh node) }
    requires all_wait { AllWait N.waits N.about subject stack.old.items }
    ensures about { IfOk result (λ next. IfSome next (λ leaf. N.about leaf ≡ subject)) }
    ensures next { IfOk result (λ next. IfSome next (λ leaf. IsNext (N.has_path subject) (path_in last.old)
        (N.prefix leaf))) }
    ensures whole { IfOk result (λ next. IfSome next (λ leaf. N.whole leaf)) }
    ensures short { IfOk result (λ next. IfSome next (λ leaf. length (N.prefix leaf) ≤ limits.decisions)) }
    ensures last { IfOk result (λ next. IfSome next (λ leaf. path_in last.new ≡ Some (N.prefix leaf))) }
    ensures given { IfOk result (λ next. IfSome next (λ leaf. given.new ≡ given.old + 1)) }
    ensures few { IfOk result (λ next. IfSome next (λ leaf. given.old < limits.paths)) }
    ensures over { IfOk result (λ next. IfNone next (IsPast (N.has_path subject) (path_in last.old))) }
    ensures not_many { IfOk result (λ next. IfNone next (TooMany (N.has_path subject) limits.paths → ⊥)) }
    ensures not_long { IfOk result (λ next. IfNone next (TooLong (N.has_path subject) limits.decisions → ⊥)) }
    ensures shown { IfOk result (λ next. IfNone next ((path : List ℕ) → N.has_path subject path
        → N.shown subject path)) }
    ensures same_last { IfOk result (λ next. IfNone next (path_in last.new ≡ path_in last.old)) }
    ensures same_given { IfOk result (λ next. IfNone next (given.new ≡ given.old)) }
    ensures same_added { IfOk result (λ next. IfNone next (added.new ≡ added.old)) }
    ensures err_last { OnErr result (path_in last.new ≡ path_in last.old) }
    ensures err_given { OnErr result (given.new ≡ given.old) }
    ensures sane { OnOk result (Sane (N.has_path subject) (Fine (N.shown subject) limits.decisions)
        (option_map N.prefix hand.new) (forks N.prefix stack.new.items)
        (path_in last.new) given.new added.new limits.paths) }
    ensures no_hand { hand.new ≡ None }
    ensures all_wait { OnOk result (AllWait N.waits N.about subject stack.new.items) }
    ensures are_open { AtLeast (IsOpen (N.has_path subject)) added.new }
    ensures right { IfErr result (IsRight (N.has_path subject) (N.over_cells subject) limits) }
    ensures steps { steps.new + added.old ≡ steps.old + added.new }
{
    let full = *given >= limits.paths;
    let taken = hand.take();
    match next_leaf(subject, taken, stack, full, limits.decisions, added, steps) {
        Err(fault) => Err(fault),
        Ok(None) => Ok(None),
        Ok(Some(leaf)) => {
            remember(alloc, &leaf, last)?;
            *given += 1;
            Ok(Some(leaf))
        }
    }
}

/// Keeps the node's path.
pub fn remember<N: Node>(alloc: Global, leaf: &N, last: &mut Option<Vec<u8>>) -> Result<(), Fault>
    ensures ok { OnOk result (path_in last.new ≡ Some (N.prefix leaf.now)) }
    ensures err { OnErr result (path_in last.new ≡ path_in last.old) }
    ensures memory { IfErr result (λ fault. fault ≡ Fault.Memory) }
{
    let path = leaf.path().to_vec(alloc)?;
    *last = Some(path);
    Ok(())
}
