//! From a node on to the next leaf.

ghost use Rattle.std.specs.Prelude.{◌≡◌, ◌≤◌, ◌<◌, ◌+◌, ◌^◌, ◌∷◌, ◌++◌, [], ℕ, List, length, IfOk, OnOk, OnErr};
ghost use Rattle.std.specs.Prelude.{IfErr, IfSome, IfNone, Some, None, true, false, option_map};
ghost use Rattle.cm_forks.specs.Paths.{Ends};
ghost use Rattle.cm_forks.specs.Counts.{AtLeast, IsOpen};
ghost use Rattle.cm_forks.specs.Faults.{IsRightBelow, IsRightIf, TooLong};
ghost use Rattle.cm_forks.specs.inner.Stack.{Ready, Same, Remains};
ghost use Rattle.cm_forks.specs.inner.View.{fork, forks, AllWait};
ghost use Rattle.cm_forks.specs.inner.Sound.{Fine};

use crate::fault::Fault;
use crate::fork::{Pending, branch, decide, pop_fork};
use crate::node::{Ask, Node};
use cm_ctx::Steps;
use cm_model::Over;
use std::sync::ledger::Ledger;

/// Asks, and answers a question. False where the path is whole.
pub fn turn<N: Node, L: Ledger>(
    node: &mut N,
    stack: &mut Vec<Pending<N>>,
    longest: u16,
    added: &mut u64,
    steps: &mut Steps<L>,
) -> Result<bool, Fault>
    requires fresh { N.fresh node.old }
    requires all_wait { AllWait N.waits N.about (N.about node.old) stack.old.items }
    requires ready { Ready (N.has_path (N.about node.old)) (Some (N.prefix node.old)) (forks N.prefix stack.old.items)
        added.old }
    requires room { added.old + 1 < 2 ^ 64 }
    ensures about { OnOk result (N.about node.new ≡ N.about node.old) }
    ensures ready { OnOk result (Ready (N.has_path (N.about node.old)) (Some (N.prefix node.new))
        (forks N.prefix stack.new.items) added.new) }
    ensures same { OnOk result (Same (N.has_path (N.about node.old))
        (Remains (Some (N.prefix node.old)) (forks N.prefix stack.old.items))
        (Remains (Some (N.prefix node.new)) (forks N.prefix stack.new.items))) }
    ensures ends { IfOk result (λ more. more ≡ false → Ends (N.has_path (N.about node.old)) (N.prefix node.new)) }
    ensures fresh { IfOk result (λ more. more ≡ true → N.fresh node.new) }
    ensures whole { IfOk result (λ more. more ≡ false → N.whole node.new) }
    ensures deeper { IfOk result (λ more. more ≡ true → length (N.prefix node.new) ≡ length (N.prefix node.old) + 1) }
    ensures short { OnOk result (length (N.prefix node.old) ≤ longest) }
    ensures fine { IfOk result (λ more. more ≡ false
        → Fine (N.shown (N.about node.old)) longest (N.prefix node.new)) }
    ensures all_wait { OnOk result (AllWait N.waits N.about (N.about node.old) stack.new.items) }
    ensures added { IfOk result (λ more. more ≡ true → added.new ≤ added.old + 1) }
    ensures ended { IfOk result (λ more. more ≡ false → added.new ≡ added.old) }
    ensures not_added { OnErr result (added.new ≡ added.old) }
    ensures right { IfErr result (IsRightBelow (N.has_path (N.about node.old)) (N.over_cells (N.about node.old))
        longest) }
    ensures steps { steps.new + added.old ≡ steps.old + added.new }
{
    if node.depth() > usize::from(longest) {
        return Err(Fault::Over(Over::Long));
    }
    match node.ask()? {
        Ask::End => Ok(false),
        Ask::Cells => Err(Fault::Over(Over::Cells)),
        Ask::Question => {
            decide(node, stack, added, steps)?;
            Ok(true)
        }
    }
}

/// Goes on to the end of the least path that begins with the node's.
pub fn descend<N: Node, L: Ledger>(
    node: N,
    stack: &mut Vec<Pending<N>>,
    longest: u16,
    added: &mut u64,
    steps: &mut Steps<L>,
) -> Result<N, Fault>
    requires fresh { N.fresh node }
    requires all_wait { AllWait N.waits N.about (N.about node) stack.old.items }
    requires ready { Ready (N.has_path (N.about node)) (Some (N.prefix node)) (forks N.prefix stack.old.items)
        added.old }
    requires room { added.old + 65537 < 2 ^ 64 }
    ensures about { IfOk result (λ leaf. N.about leaf ≡ N.about node) }
    ensures ready { IfOk result (λ leaf. Ready (N.has_path (N.about node)) (Some (N.prefix leaf))
        (forks N.prefix stack.new.items) added.new) }
    ensures same { IfOk result (λ leaf. Same (N.has_path (N.about node))
        (Remains (Some (N.prefix node)) (forks N.prefix stack.old.items))
        (Remains (Some (N.prefix leaf)) (forks N.prefix stack.new.items))) }
    ensures ends { IfOk result (λ leaf. Ends (N.has_path (N.about node)) (N.prefix leaf)) }
    ensures fine { IfOk result (λ leaf. Fine (N.shown (N.about node)) longest (N.prefix leaf)) }
    ensures whole { IfOk result (λ leaf. N.whole leaf) }
    ensures all_wait { OnOk result (AllWait N.waits N.about (N.about node) stack.new.items) }
    ensures added { OnOk result (added.new ≤ added.old + 65536) }
    ensures are_open { OnErr result (AtLeast (IsOpen (N.has_path (N.about node))) added.new) }
    ensures right { IfErr result (IsRightBelow (N.has_path (N.about node)) (N.over_cells (N.about node)) longest) }
    ensures steps { steps.new + added.old ≡ steps.old + added.new }
{
    let mut node = node;
    'turns: loop {
        let more = turn(&mut node, stack, longest, added, steps)?;
        if !more {
            return Ok(node);
        }
    }
}

/// Takes the next outcome of a fork, and goes on to the end.
pub fn resume<N: Node, L: Ledger>(
    pending: Pending<N>,
    stack: &mut Vec<Pending<N>>,
    longest: u16,
    added: &mut u64,
    steps: &mut Steps<L>,
) -> Result<N, Fault>
    requires all_wait { AllWait N.waits N.about (N.about pending.node) stack.old.items }
    requires waits { N.waits pending.node }
    requires from { pending.from < 64 }
    requires ready { Ready (N.has_path (N.about pending.node)) None
        (forks N.prefix stack.old.items ++ fork (N.prefix pending.node) pending.mask.0 pending.from ∷ []) added.old }
    requires room { added.old + 65538 < 2 ^ 64 }
    ensures about { IfOk result (λ leaf. N.about leaf ≡ N.about pending.node) }
    ensures ready { IfOk result (λ leaf. Ready (N.has_path (N.about pending.node)) (Some (N.prefix leaf))
        (forks N.prefix stack.new.items) added.new) }
    ensures same { IfOk result (λ leaf. Same (N.has_path (N.about pending.node))
        (Remains None
        (forks N.prefix stack.old.items ++ fork (N.prefix pending.node) pending.mask.0 pending.from ∷ []))
        (Remains (Some (N.prefix leaf)) (forks N.prefix stack.new.items))) }
    ensures ends { IfOk result (λ leaf. Ends (N.has_path (N.about pending.node)) (N.prefix leaf)) }
    ensures fine { IfOk result (λ leaf. Fine (N.shown (N.about pending.node)) longest (N.prefix leaf)) }
    ensures whole { IfOk result (λ leaf. N.whole leaf) }
    ensures all_wait { OnOk result (AllWait N.waits N.about (N.about pending.node) stack.new.items) }
    ensures added { OnOk result (added.new ≤ added.old + 65537) }
    ensures are_open { OnErr result (AtLeast (IsOpen (N.has_path (N.about pending.node))) added.new) }
    ensures right { IfErr result (IsRightBelow (N.has_path (N.about pending.node)) (N.over_cells (N.about pending.node))
        longest) }
    ensures steps { steps.new + added.old ≡ steps.old + added.new }
{
    let Pending { node, mask, from } = pending;
    let mut node = node;
    branch(&mut node, mask, from, stack, added, steps)?;
    descend(node, stack, longest, added, steps)
}

/// The next leaf of the subject, or None where nothing is left. Where it is `full`, a leaf is one too many.
pub fn next_leaf<N: Node, L: Ledger>(
    subject: N::Subject,
    hand: Option<N>,
    stack: &mut Vec<Pending<N>>,
    full: bool,
    longest: u16,
    added: &mut u64,
    steps: &mut Steps<L>,
) -> Result<Option<N>, Fault>
    requires about { IfSome hand (λ node. N.about node ≡ subject) }
    requires fresh { IfSome hand (λ node. N.fresh node) }
    requires all_wait { AllWait N.waits N.about subject stack.old.items }
    requires ready { Ready (N.has_path subject) (option_map N.prefix hand) (forks N.prefix stack.old.items) added.old }
    requires room { added.old + 65538 < 2 ^ 64 }
    ensures about { IfOk result (λ next. IfSome next (λ leaf. N.about leaf ≡ subject)) }
    ensures ready { IfOk result (λ next. IfSome next (λ leaf. Ready (N.has_path subject) (Some (N.prefix leaf))
        (forks N.prefix stack.new.items) added.new)) }
    ensures same { IfOk result (λ next. IfSome next (λ leaf. Same (N.has_path subject)
        (Remains (option_map N.prefix hand) (forks N.prefix stack.old.items))
        (Remains (Some (N.prefix leaf)) (forks N.prefix stack.new.items)))) }
    ensures ends { IfOk result (λ next. IfSome next (λ leaf. Ends (N.has_path subject) (N.prefix leaf))) }
    ensures fine { IfOk result (λ next. IfSome next (λ leaf. Fine (N.shown subject) longest (N.prefix leaf))) }
    ensures whole { IfOk result (λ next. IfSome next (λ leaf. N.whole leaf)) }
    ensures over { IfOk result (λ next. IfNone next (stack.old.items ≡ [])) }
    ensures no_hand { IfOk result (λ next. IfNone next (hand ≡ None)) }
    ensures stays { IfOk result (λ next. IfNone next (stack.new.items ≡ [])) }
    ensures stays_added { IfOk result (λ next. IfNone next (added.new ≡ added.old)) }
    ensures room_left { IfOk result (λ next. IfSome next (λ leaf. full ≡ false)) }
    ensures all_wait { OnOk result (AllWait N.waits N.about subject stack.new.items) }
    ensures added { OnOk result (added.new ≤ added.old + 65537) }
    ensures are_open { OnErr result (AtLeast (IsOpen (N.has_path subject)) added.new) }
    ensures right { IfErr result (IsRightIf
        ((full ≡ true) × (q : List ℕ) × N.has_path subject q
        × Remains (option_map N.prefix hand) (forks N.prefix stack.old.items) q)
        (TooLong (N.has_path subject) longest) (N.over_cells subject)) }
    ensures steps { steps.new + added.old ≡ steps.old + added.new }
{
    match hand {
        Some(node) => {
            if full {
                return Err(Fault::Over(Over::Paths));
            }
            let leaf = descend(node, stack, longest, added, steps)?;
            Ok(Some(leaf))
        }
        None => match pop_fork(subject, stack) {
            None => Ok(None),
            Some(top) => {
                if full {
                    return Err(Fault::Over(Over::Paths));
                }
                let leaf = resume(top, stack, longest, added, steps)?;
                Ok(Some(leaf))
            }
        },
    }
}
