//! What two worlds do that differ in the names of their elements.

ghost use Rattle.std.specs.Prelude.{◌≡◌, IfOk, OnOk, map};
ghost use Rattle.cm_value.specs.declared.value.Swap.{Swap};
ghost use Rattle.cm_world.specs.World.{IsWorldOf};
ghost use Rattle.cm_story.specs.Running.{IsRunOf};
ghost use Rattle.cm_world.specs.Order.{touched_cells};
ghost use Rattle.cm_twin.specs.Names.{Names, exchange, exchanged, cell_named};
ghost use Rattle.cm_twin.specs.Twins.{IsTwin, IsRelabelled, DoAlike, world_relabelled};

use crate::worlds::relabel_world;
use cm_eval::Code;
use cm_model::{Model, NoMemory, Pair};
use cm_story::{Ran, run_by};
use cm_value::Swap;
use cm_world::World;
use std::alloc::Global;

/// Runs both orders of two worlds of a pair. Where the second is the first under other names, as far as the first one
/// touches its state, they give the same; so they do where two elements of a sort are exchanged everywhere.
///
/// # Errors
/// `NoMemory` where memory runs out.
pub fn renaming(
    alloc: Global,
    model: &Model,
    pair: Pair,
    world: &World,
    other: &World,
) -> Result<(Ran, Ran), NoMemory>
    requires world { IsWorldOf model.now pair world.now }
    requires other { IsWorldOf model.now pair other.now }
    ensures first { IfOk result (λ both. IsRunOf model.now pair world.now both.0) }
    ensures second { IfOk result (λ both. IsRunOf model.now pair other.now both.1) }
    ensures equal { IfOk result (λ both. (names : Names) → IsTwin model.now pair names world.now other.now
        → both.0 ≡ both.1) }
    ensures alike { OnOk result ((names : Names) → IsTwin model.now pair names world.now other.now
        → DoAlike model.now pair names world.now other.now) }
    ensures relabelled { IfOk result (λ both. (by : Swap) → IsRelabelled model.now pair by world.now other.now
        → both.0 ≡ both.1) }
{
    model.well_typed();
    let code = Code::of(alloc, model)?;
    let first = run_by(alloc, model, &code, pair, world)?;
    let second = run_by(alloc, model, &code, pair, other)?;
    Ok((first, second))
}

/// A world with two elements of a sort exchanged, and what it did beside the world that it was made of.
#[derive(Drop)]
pub struct Relabelled {
    /// The world with the two elements exchanged everywhere.
    pub world: World,
    /// What the world gave that was there.
    pub first: Ran,
    /// What the one with the elements exchanged gave.
    pub second: Ran,
}

/// Makes the world in which two elements of a sort are exchanged everywhere, and runs both orders of both worlds. They
/// give the same, and touch the same cells under the exchanged names.
///
/// # Errors
/// `NoMemory` where memory runs out.
pub fn relabelling(
    alloc: Global,
    model: &Model,
    pair: Pair,
    world: &World,
    swap: &Swap,
) -> Result<Relabelled, NoMemory>
    requires world { IsWorldOf model.now pair world.now }
    ensures relabelled { IfOk result (λ both. both.world ≡ world_relabelled model.now pair swap.now world.now) }
    ensures is_world { IfOk result (λ both. IsWorldOf model.now pair both.world) }
    ensures first { IfOk result (λ both. IsRunOf model.now pair world.now both.first) }
    ensures second { IfOk result (λ both. IsRunOf model.now pair both.world both.second) }
    ensures equal { IfOk result (λ both. both.first ≡ both.second) }
    ensures alike { IfOk result (λ both. DoAlike model.now pair (exchanged swap.now) world.now both.world) }
    ensures touches { IfOk result (λ both. touched_cells model.now pair both.world
        ≡ map (cell_named model.now (exchange swap.now)) (touched_cells model.now pair world.now)) }
{
    model.well_typed();
    let other = relabel_world(alloc, model, pair, world, swap)?;
    let (first, second) = renaming(alloc, model, pair, world, &other)?;
    Ok(Relabelled {
        world: other,
        first,
        second,
    })
}
