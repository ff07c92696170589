//! A world on values: what the evaluator says of it, and its path.

ghost use Rattle.std.specs.Prelude.{IsTrue};
ghost use Rattle.cm_world.specs.World.{IsWorldOf};

use anyhow::{Result, bail};
use cm_eval::{Args, CellName, Log, Outcome, State, run_call};
use cm_model::{List, Model, NoMemory, Pair};
use cm_world::{World, commutes, is_world_of, path_of};
use std::alloc::Global;

/// What a world comes to on values.
#[derive(Drop)]
pub struct OnValues {
    /// How the calls ended: a and b in ab, b and a in ba. After a blocked one there is no other.
    pub ends: List<Outcome>,
    /// The cells that were touched, and which were written.
    pub log: Log,
    /// What the orders left.
    pub after_ab: State,
    pub after_ba: State,
    /// The decisions of both orders and of the last comparison.
    pub path: List<u8>,
    /// Whether the world commutes.
    pub commutes: bool,
}

// Runs a call and keeps how it ended. Whether it replied.
fn run_one(
    alloc: Global,
    model: &Model,
    call: (u16, &Args),
    state: &mut State,
    log: &mut Log,
    ends: &mut List<Outcome>,
) -> Result<bool, NoMemory> {
    let end = run_call(alloc, model, call.0, call.1, state, log)?;
    let replied = has_replied(&end);
    ends.push(end)?;
    Ok(replied)
}

fn has_replied(end: &Outcome) -> bool {
    match end {
        Outcome::Reply(_) => true,
        Outcome::Blocked => false,
    }
}

// Runs one call and then another, if that one replied. Whether the other replied too.
fn run_order(
    alloc: Global,
    model: &Model,
    first: (u16, &Args),
    second: (u16, &Args),
    state: &mut State,
    log: &mut Log,
    ends: &mut List<Outcome>,
) -> Result<bool, NoMemory> {
    if !run_one(alloc, model, first, state, log, ends)? {
        return Ok(false);
    }
    run_one(alloc, model, second, state, log, ends)
}

// Runs both orders.
fn run_both(
    alloc: Global,
    model: &Model,
    pair: Pair,
    world: &World,
    values: &mut OnValues,
) -> Result<bool, NoMemory> {
    let a = (pair.a, &world.a);
    let b = (pair.b, &world.b);
    let state = &mut values.after_ab;
    if !run_order(alloc, model, a, b, state, &mut values.log, &mut values.ends)? {
        return Ok(false);
    }
    let state = &mut values.after_ba;
    run_order(alloc, model, b, a, state, &mut values.log, &mut values.ends)
}

// No call has run.
fn at_first(alloc: Global, model: &Model, pair: Pair, world: &World) -> Result<OnValues, NoMemory>
    requires world { IsWorldOf model.now pair world.now }
{
    let commutes = commutes(alloc, model, pair, world)?;
    let path = path_of(alloc, model, pair, world)?;
    let after_ab = world.init.try_copy(alloc)?;
    let after_ba = world.init.try_copy(alloc)?;
    Ok(OnValues {
        ends: List::new(alloc),
        log: Log::new(alloc),
        after_ab,
        after_ba,
        path,
        commutes,
    })
}

impl OnValues {
    /// The world is run in both orders, if it is one of the pair.
    pub fn of(alloc: Global, model: &Model, pair: Pair, world: &World) -> Result<OnValues> {
        if !is_world_of(model, pair, world) {
            bail!("no world of the pair");
        }
        let mut values = at_first(alloc, model, pair, world)?;
        run_both(alloc, model, pair, world, &mut values)?;
        Ok(values)
    }

    /// How a call ended, by its place in the chain.
    pub fn end(&self, place: usize) -> Result<&Outcome> {
        match self.ends.get(place) {
            Some(end) => Ok(end),
            None => bail!("a call more than the world has"),
        }
    }

    /// The name of a cell by its number.
    pub fn cell(&self, number: usize) -> Result<&CellName> {
        match self.log.cells.get(number) {
            Some(cell) => Ok(cell),
            None => bail!("a cell more than the world has"),
        }
    }
}
