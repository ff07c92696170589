//! What two worlds do that one cannot tell apart by what the first one touches.

ghost use Rattle.std.specs.Prelude.{◌≡◌, IfOk, OnOk};
ghost use Rattle.cm_eval.specs.Compiled.{IsCodeOf};
ghost use Rattle.cm_world.specs.World.{IsWorldOf};
ghost use Rattle.cm_story.specs.Local.{LookSame, DoSame};
ghost use Rattle.cm_story.specs.Running.{IsRunOf, IsTold, IsTouched};

use cm_eval::Code;
use cm_model::{List, Model, NoMemory, Pair};
use cm_world::{World, commutes_by, path_by};
use std::alloc::Global;

/// What a world's two orders gave.
#[derive(Drop)]
pub struct Ran {
    /// The path of decisions.
    pub path: List<u8>,
    /// Whether the world commutes.
    pub commutes: bool,
}

/// Runs both orders of a world by the code of the model. They give what the story of the pair tells where each
/// cell that is new has its value in the world's state.
///
/// # Errors
/// `NoMemory` where memory runs out.
pub fn run_by(
    alloc: Global,
    model: &Model,
    code: &Code,
    pair: Pair,
    world: &World,
) -> Result<Ran, NoMemory>
    requires code { IsCodeOf model.now code.now }
    requires world { IsWorldOf model.now pair world.now }
    ensures exact { IfOk result (IsRunOf model.now pair world.now) }
    ensures told { IfOk result (IsTold model.now pair world.now) }
    ensures touches { OnOk result (IsTouched model.now pair world.now) }
{
    model.well_typed();
    let path = path_by(alloc, model, code, pair, world)?;
    let commutes = commutes_by(alloc, model, code, pair, world)?;
    Ok(Ran { path, commutes })
}

/// Runs both orders of two worlds of a pair. Where they have the same arguments, and the same values in the cells
/// that the first one touches, they give the same, whatever else the two states hold.
///
/// # Errors
/// `NoMemory` where memory runs out.
pub fn locality(
    alloc: Global,
    model: &Model,
    pair: Pair,
    world: &World,
    other: &World,
) -> Result<(Ran, Ran), NoMemory>
    requires world { IsWorldOf model.now pair world.now }
    requires other { IsWorldOf model.now pair other.now }
    ensures first { IfOk result (λ both. IsRunOf model.now pair world.now both.0) }
    ensures second { IfOk result (λ both. IsRunOf model.now pair other.now both.1) }
    ensures equal { IfOk result (λ both. LookSame model.now pair world.now other.now → both.0 ≡ both.1) }
    ensures alike { OnOk result (LookSame model.now pair world.now other.now
        → DoSame model.now pair world.now other.now) }
{
    model.well_typed();
    let code = Code::of(alloc, model)?;
    let first = run_by(alloc, model, &code, pair, world)?;
    let second = run_by(alloc, model, &code, pair, other)?;
    Ok((first, second))
}
