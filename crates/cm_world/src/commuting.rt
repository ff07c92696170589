//! Whether a world commutes.

ghost use Rattle.std.specs.Prelude.{◌≡◌, ◌↔◌, IfOk, IsTrue, length};
ghost use Rattle.cm_eval.specs.Compiled.{IsCodeOf};
ghost use Rattle.cm_world.specs.World.{IsWorldOf};
ghost use Rattle.cm_world.specs.Commuting.{Commutes, AreEqual};

use crate::World;
use crate::order::{BothOrders, Outcomes, run_both};
use crate::states::same_states;
use cm_eval::{Code, Log};
use cm_model::{Model, NoMemory, Pair};
use cm_value::same;
use std::alloc::Global;

/// Whether a world commutes: neither order is blocked, each call replies the same in both, and both leave
/// equal states. Whoever asks it of many worlds makes the code once and calls `commutes_by`.
///
/// # Errors
/// `NoMemory` where memory runs out.
pub fn commutes(alloc: Global, model: &Model, pair: Pair, world: &World) -> Result<bool, NoMemory>
    requires world { IsWorldOf model.now pair world.now }
    ensures exact { IfOk result (λ b. IsTrue b ↔ Commutes model.now pair world.now) }
{
    let code = Code::of(alloc, model)?;
    let b = commutes_by(alloc, model, &code, pair, world)?;
    Ok(b)
}

/// The same by the code of the model, which is made once for many worlds.
///
/// # Errors
/// `NoMemory` where memory runs out.
pub fn commutes_by(
    alloc: Global,
    model: &Model,
    code: &Code,
    pair: Pair,
    world: &World,
) -> Result<bool, NoMemory>
    requires code { IsCodeOf model.now code.now }
    requires world { IsWorldOf model.now pair world.now }
    ensures exact { IfOk result (λ b. IsTrue b ↔ Commutes model.now pair world.now) }
{
    let mut log = Log::new(alloc);
    match run_both(alloc, code, pair, world, &mut log)? {
        BothOrders::Replied(outcomes) => Ok(are_equal(model, &outcomes)),
        BothOrders::Blocked => Ok(false),
    }
}

// Whether both orders left the same.
fn are_equal(model: &Model, outcomes: &Outcomes) -> bool
    requires defaults { outcomes.now.after_ab.defaults ≡ outcomes.now.after_ba.defaults }
    requires declared { length outcomes.now.after_ab.defaults ≡ length model.now.states }
    ensures equal { IsTrue result ↔ AreEqual model.now outcomes.now }
{
    same(&outcomes.a_in_ab, &outcomes.a_in_ba)
        && same(&outcomes.b_in_ab, &outcomes.b_in_ba)
        && same_states(model, &outcomes.after_ab, &outcomes.after_ba)
}
