//! Rows: what they set up, and what is done with it.

ghost use Rattle.std.specs.Prelude.{IfOk, IsTrue};
ghost use Rattle.cm_world.specs.World.{IsWorldOf};

use crate::given::{Given, HeldCell, element, held, read_given, value_of, values_of};
use crate::show::{
    show_decisions, show_exceptions, show_outcome, show_touched, show_value, show_values,
};
use anyhow::{Result, bail};
use cm_eval::{Args, Log, State, meets_invariant, run_call};
use cm_model::{Model, Pair};
use cm_story::{Ran, locality};
use cm_twin::{relabel_world, relabelling};
use cm_value::{Swap, Value};
use cm_world::{World, commutes, is_world_of, path_of};
use std::alloc::Global;

/// Does what a row's task says, on its model.
pub fn answer(rt: &HostRuntime, model: &Model, task: &str, rest: &str) -> Result<()> {
    match task {
        "run" => run(rt, model, rest),
        "world" => world(rt, model, rest),
        "locality" => two_worlds(rt, model, rest),
        "relabelling" => exchange(rt, model, rest),
        "met" => met(rt, model, rest),
        "states" => states(rt, model, rest),
        "count" => count(rt, model),
        _ => bail!("no task {task}"),
    }
}

fn put(alloc: Global, state: &mut State, cell: HeldCell) -> Result<()> {
    let value = value_of(alloc, cell.value)?;
    let key = match cell.key {
        Some(n) => Some(Value::Elem(n)),
        None => None,
    };
    state.set(cell.state, key, value)?;
    Ok(())
}

fn put_all(alloc: Global, state: &mut State, cells: &str) -> Result<()> {
    for word in cells.split_whitespace() {
        put(alloc, state, held(word)?)?;
    }
    Ok(())
}

// The least state but for these cells.
fn state_of(alloc: Global, model: &Model, cells: &str) -> Result<State> {
    let mut state = State::least(alloc, model)?;
    put_all(alloc, &mut state, cells)?;
    Ok(state)
}

// At most two values: no call of the samples takes more.
fn args_of(alloc: Global, words: &str) -> Result<Args> {
    let mut words = words.split_whitespace();
    match (words.next(), words.next()) {
        (Some(first), Some(second)) => args(alloc, &[read_given(first)?, read_given(second)?]),
        (Some(first), None) => args(alloc, &[read_given(first)?]),
        (None, _) => args(alloc, &[]),
    }
}

fn args(alloc: Global, given: &[Given]) -> Result<Args> {
    let vals = values_of(alloc, given)?;
    Ok(Args { vals })
}

fn run(rt: &HostRuntime, model: &Model, rest: &str) -> Result<()> {
    let mut parts = rest.split('/');
    let mut state = state_of(rt.alloc(), model, parts.next().unwrap_or(""))?;
    let mut log = Log::new(rt.alloc());
    for part in parts {
        run_one(rt, model, part.trim(), &mut state, &mut log)?;
    }
    show_touched(rt, &log)?;
    show_exceptions(rt, state.exceptions())
}

// Runs a call: its number, and the arguments.
fn run_one(
    rt: &HostRuntime,
    model: &Model,
    row: &str,
    state: &mut State,
    log: &mut Log,
) -> Result<()> {
    let (call, words) = row.split_once(' ').unwrap_or((row, ""));
    let call = call.parse::<u16>()?;
    let args = args_of(rt.alloc(), words)?;
    let outcome = run_call(rt.alloc(), model, call, &args, state, log)?;
    show_outcome(rt, &outcome)?;
    show_decisions(rt, log.steps.as_slice())
}

// What a row says of a world: the pair, the cells of its state, the arguments of both calls, and the rest.
#[derive(Clone, Copy)]
struct WorldRow<'a> {
    pair: Pair,
    cells: &'a str,
    a: &'a str,
    b: &'a str,
    rest: &'a str,
}

fn world_row(row: &str) -> Result<WorldRow<'_>> {
    let mut parts = row.split('/');
    let (a, cells) = parts
        .next()
        .unwrap_or("")
        .split_once(' ')
        .unwrap_or(("", ""));
    let (b, cells) = cells.split_once(' ').unwrap_or((cells, ""));
    let pair = Pair {
        a: a.parse::<u16>()?,
        b: b.parse::<u16>()?,
    };
    let a = parts.next().unwrap_or("");
    let b = parts.next().unwrap_or("");
    let rest = parts.next().unwrap_or("");
    Ok(WorldRow {
        pair,
        cells,
        a,
        b,
        rest,
    })
}

// The world of a row with these cells in its state.
fn world_with(rt: &HostRuntime, model: &Model, row: WorldRow<'_>, cells: &str) -> Result<World> {
    let init = state_of(rt.alloc(), model, cells)?;
    let a = args_of(rt.alloc(), row.a)?;
    let b = args_of(rt.alloc(), row.b)?;
    Ok(World { init, a, b })
}

fn world(rt: &HostRuntime, model: &Model, rest: &str) -> Result<()> {
    let row = world_row(rest)?;
    let world = world_with(rt, model, row, row.cells)?;
    show_world(rt, model, row.pair, &world)
}

// A world, and another one with the same arguments and other cells.
fn two_worlds(rt: &HostRuntime, model: &Model, rest: &str) -> Result<()> {
    let row = world_row(rest)?;
    let world = world_with(rt, model, row, row.cells)?;
    let other = world_with(rt, model, row, row.rest)?;
    show_two(rt, model, row.pair, &world, &other)
}

fn show_two(
    rt: &HostRuntime,
    model: &Model,
    pair: Pair,
    first: &World,
    second: &World,
) -> Result<()> {
    if !is_world_of(model, pair, first) || !is_world_of(model, pair, second) {
        bail!("two worlds of the pair");
    }
    let (first, second) = locality(rt.alloc(), model, pair, first, second)?;
    show_run(rt, &first)?;
    show_run(rt, &second)
}

// A sort and two of its elements.
fn swap_of(words: &str) -> Result<Swap> {
    let mut words = words.split_whitespace();
    let (Some(sort), Some(x), Some(y)) = (words.next(), words.next(), words.next()) else {
        bail!("a sort and two elements");
    };
    Ok(Swap {
        sort: sort.parse::<u16>()?,
        x: element(x)?,
        y: element(y)?,
    })
}

// A world, and the one in which two elements of a sort are exchanged.
fn exchange(rt: &HostRuntime, model: &Model, rest: &str) -> Result<()> {
    let row = world_row(rest)?;
    let swap = swap_of(row.rest)?;
    let world = world_with(rt, model, row, row.cells)?;
    show_exchange(rt, model, row.pair, &world, &swap)
}

fn show_exchange(
    rt: &HostRuntime,
    model: &Model,
    pair: Pair,
    first: &World,
    swap: &Swap,
) -> Result<()> {
    if !is_world_of(model, pair, first) {
        bail!("a world of the pair");
    }
    let both = relabelling(rt.alloc(), model, pair, first, swap)?;
    show_run(rt, &both.first)?;
    show_run(rt, &both.second)?;
    show_parts(rt, &both.world)?;
    show_back(rt, model, pair, &both.world, swap)
}

// The same two elements exchanged again, which gives the first world.
fn show_back(rt: &HostRuntime, model: &Model, pair: Pair, world: &World, swap: &Swap) -> Result<()>
    requires world { IsWorldOf model.now pair world.now }
{
    let back = relabel_world(rt.alloc(), model, pair, world, swap)?;
    show_parts(rt, &back)
}

// A world: the defaults and the exceptions of its state, and the arguments of both calls.
fn show_parts(rt: &HostRuntime, world: &World) -> Result<()> {
    print!(rt; " defaults")?;
    show_values(rt, world.init.defaults())?;
    show_exceptions(rt, world.init.exceptions())?;
    print!(rt; " a")?;
    show_values(rt, world.a.vals.as_slice())?;
    print!(rt; " b")?;
    show_values(rt, world.b.vals.as_slice())?;
    println!(rt; "")?;
    Ok(())
}

fn show_run(rt: &HostRuntime, run: &Ran) -> Result<()> {
    print!(rt; "{}", if run.commutes { "commutes" } else { "differs" })?;
    show_decisions(rt, run.path.as_slice())
}

fn show_world(rt: &HostRuntime, model: &Model, pair: Pair, world: &World) -> Result<()> {
    if !is_world_of(model, pair, world) {
        println!(rt; "no world of the pair")?;
        return Ok(());
    }
    show_path(rt, model, pair, world)
}

fn show_path(rt: &HostRuntime, model: &Model, pair: Pair, world: &World) -> Result<()>
    requires world { IsWorldOf model.now pair world.now }
{
    let answer = commutes(rt.alloc(), model, pair, world)?;
    let path = path_of(rt.alloc(), model, pair, world)?;
    print!(rt; "{}", if answer { "commutes" } else { "differs" })?;
    show_decisions(rt, path.as_slice())
}

// Whether a value meets the invariant of a state.
fn met(rt: &HostRuntime, model: &Model, rest: &str) -> Result<()> {
    let (state, value) = rest.split_once(' ').unwrap_or((rest, ""));
    let state = state.parse::<u16>()?;
    let value = value_of(rt.alloc(), read_given(value)?)?;
    let answer = meets_invariant(rt.alloc(), model, state, &value)?;
    println!(rt; "{}", if answer { "met" } else { "not met" })?;
    Ok(())
}

// A state, a copy of it, and then more cells in the state alone; what the first map then holds at some keys.
fn states(rt: &HostRuntime, model: &Model, rest: &str) -> Result<()> {
    let mut parts = rest.split('/');
    let mut state = state_of(rt.alloc(), model, parts.next().unwrap_or(""))?;
    let copy = state.try_copy(rt.alloc())?;
    put_all(rt.alloc(), &mut state, parts.next().unwrap_or(""))?;
    show_exceptions(rt, state.exceptions())?;
    show_exceptions(rt, copy.exceptions())?;
    show_keys(rt, &state, parts.next().unwrap_or(""))
}

fn show_keys(rt: &HostRuntime, state: &State, words: &str) -> Result<()> {
    for word in words.split_whitespace() {
        show_key(rt, state, word)?;
    }
    Ok(())
}

fn show_key(rt: &HostRuntime, state: &State, word: &str) -> Result<()> {
    if state.defaults().len() == 0 {
        bail!("no state");
    }
    let key = Value::Elem(element(word)?);
    show_value(rt, state.get(0, Some(&key)))?;
    println!(rt; "")?;
    Ok(())
}

// How many decisions the first call makes, on no arguments.
fn count(rt: &HostRuntime, model: &Model) -> Result<()> {
    let mut state = State::least(rt.alloc(), model)?;
    let mut log = Log::new(rt.alloc());
    let args = args(rt.alloc(), &[])?;
    let outcome = run_call(rt.alloc(), model, 0, &args, &mut state, &mut log)?;
    show_outcome(rt, &outcome)?;
    println!(rt; " after {} decisions", log.steps.len())?;
    Ok(())
}
