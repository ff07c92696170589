//! One decision, and the outcomes that are left at a fork.

ghost use Rattle.std.specs.Prelude.{◌≡◌, ◌≢◌, ◌≤◌, ◌<◌, ◌+◌, ◌^◌, ◌∷◌, ◌++◌, [], ℕ, List, length};
ghost use Rattle.std.specs.Prelude.{OnOk, OnErr, IfSome, IfNone, Some};
ghost use Rattle.cm_forks.specs.Paths.{Begins};
ghost use Rattle.cm_forks.specs.inner.Stack.{Ready, Same, Remains, Kept};
ghost use Rattle.cm_forks.specs.inner.View.{fork, forks, AllWait};

use crate::node::Node;
use crate::outcome::least;
use cm_ctx::{Mask, Steps};
use cm_model::NoMemory;
use std::sync::ledger::Ledger;

/// A node that has outcomes left, from this one on.
#[derive(Drop)]
pub struct Pending<N> {
    pub node: N,
    pub mask: Mask,
    pub from: u8,
}

/// Leaves a copy of the node at the fork if another outcome is left.
pub fn keep_rest<N: Node>(
    node: &N,
    mask: Mask,
    from: u8,
    stack: &mut Vec<Pending<N>>,
) -> Result<(), NoMemory>
    requires from { from < 64 }
    requires waits { N.waits node.now }
    requires all_wait { AllWait N.waits N.about (N.about node.now) stack.old.items }
    ensures kept { OnOk result (Kept (fork (N.prefix node.now) mask.0 from)
        (forks N.prefix stack.old.items) (forks N.prefix stack.new.items)) }
    ensures all_wait { OnOk result (AllWait N.waits N.about (N.about node.now) stack.new.items) }
{
    match least(mask.0, from + 1) {
        None => Ok(()),
        Some(next) => {
            let copy = node.try_copy()?;
            stack.push(Pending {
                node: copy,
                mask,
                from: next,
            })?;
            Ok(())
        }
    }
}

/// Takes an outcome, and leaves the others at the fork.
pub fn branch<N: Node, L: Ledger>(
    node: &mut N,
    mask: Mask,
    from: u8,
    stack: &mut Vec<Pending<N>>,
    added: &mut u64,
    steps: &mut Steps<L>,
) -> Result<(), NoMemory>
    requires from { from < 64 }
    requires waits { N.waits node.old }
    requires all_wait { AllWait N.waits N.about (N.about node.old) stack.old.items }
    requires begins { Begins (N.has_path (N.about node.old)) (N.prefix node.old ++ from ∷ []) }
    requires several { (d : ℕ) × (d ≢ from) × Begins (N.has_path (N.about node.old)) (N.prefix node.old ++ d ∷ []) }
    requires room { added.old + 1 < 2 ^ 64 }
    ensures about { OnOk result (N.about node.new ≡ N.about node.old) }
    ensures kept { OnOk result (Kept (fork (N.prefix node.old) mask.0 from)
        (forks N.prefix stack.old.items) (forks N.prefix stack.new.items)) }
    ensures prefix { OnOk result (N.prefix node.new ≡ N.prefix node.old ++ from ∷ []) }
    ensures fresh { OnOk result (N.fresh node.new) }
    ensures all_wait { OnOk result (AllWait N.waits N.about (N.about node.old) stack.new.items) }
    ensures added { OnOk result (added.new ≡ added.old + 1) }
    ensures not_added { OnErr result (added.new ≡ added.old) }
    ensures steps { steps.new + added.old ≡ steps.old + added.new }
{
    keep_rest(node, mask, from, stack)?;
    node.add(from, steps)?;
    *added += 1;
    Ok(())
}

/// Takes the fork on the top, which is about the subject.
pub fn pop_fork<N: Node>(subject: N::Subject, stack: &mut Vec<Pending<N>>) -> Option<Pending<N>>
    requires all_wait { AllWait N.waits N.about subject stack.old.items }
    ensures about { IfSome result (λ top. N.about top.node ≡ subject) }
    ensures waits { IfSome result (λ top. N.waits top.node) }
    ensures from { IfSome result (λ top. top.from < 64) }
    ensures top { IfSome result (λ top. forks N.prefix stack.old.items
        ≡ forks N.prefix stack.new.items ++ fork (N.prefix top.node) top.mask.0 top.from ∷ []) }
    ensures none { IfNone result (stack.old.items ≡ []) }
    ensures stays { IfNone result (stack.new.items ≡ []) }
    ensures all_wait { AllWait N.waits N.about subject stack.new.items }
{
    match stack.pop() {
        None => None,
        Some(top) => Some(top),
    }
}

/// Answers the question that is open.
pub fn decide<N: Node, L: Ledger>(
    node: &mut N,
    stack: &mut Vec<Pending<N>>,
    added: &mut u64,
    steps: &mut Steps<L>,
) -> Result<(), NoMemory>
    requires waits { N.waits node.old }
    requires all_wait { AllWait N.waits N.about (N.about node.old) stack.old.items }
    requires goes_on { N.has_path (N.about node.old) (N.prefix node.old) → ⊥ }
    requires ready { Ready (N.has_path (N.about node.old)) (Some (N.prefix node.old)) (forks N.prefix stack.old.items)
        added.old }
    requires room { added.old + 1 < 2 ^ 64 }
    ensures about { OnOk result (N.about node.new ≡ N.about node.old) }
    ensures ready { OnOk result (Ready (N.has_path (N.about node.old)) (Some (N.prefix node.new))
        (forks N.prefix stack.new.items) added.new) }
    ensures same { OnOk result (Same (N.has_path (N.about node.old))
        (Remains (Some (N.prefix node.old)) (forks N.prefix stack.old.items))
        (Remains (Some (N.prefix node.new)) (forks N.prefix stack.new.items))) }
    ensures deeper { OnOk result (length (N.prefix node.new) ≡ length (N.prefix node.old) + 1) }
    ensures fresh { OnOk result (N.fresh node.new) }
    ensures all_wait { OnOk result (AllWait N.waits N.about (N.about node.old) stack.new.items) }
    ensures added { added.new ≤ added.old + 1 }
    ensures not_added { OnErr result (added.new ≡ added.old) }
    ensures steps { steps.new + added.old ≡ steps.old + added.new }
{
    let mask = node.outcomes();
    match least(mask.0, 0) {
        None => unreachable!(),
        Some(outcome) => match least(mask.0, outcome + 1) {
            None => node.follow(outcome),
            Some(_) => branch(node, mask, outcome, stack, added, steps),
        },
    }
}
