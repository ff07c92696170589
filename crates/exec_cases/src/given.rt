//! Values, cells and worlds as rows write them.

use anyhow::{Result, bail};
use cm_eval::{Args, State};
use cm_model::{Boxed, List, Model};
use cm_value::{Vals, Value};
use cm_world::World;
use std::alloc::Global;

// A value that has no parts: an integer, `#N` or `.N`.
fn plain(word: &str) -> Result<Value> {
    if let Some(number) = word.strip_prefix('#') {
        return Ok(Value::Elem(number.parse::<u64>()?));
    }
    if let Some(number) = word.strip_prefix('.') {
        return Ok(Value::Tag(number.parse::<u16>()?));
    }
    Ok(Value::Int(word.parse::<i64>()?))
}

fn some(alloc: Global, payload: &str) -> Result<Value> {
    let payload = plain(payload)?;
    Ok(Value::Some(Boxed::new(alloc, payload)?))
}

// A record of plain parts.
fn of_parts(alloc: Global, word: &str) -> Result<Value> {
    let mut parts: Vals = List::new(alloc);
    for part in word.split(',') {
        parts.push(plain(part)?)?;
    }
    Ok(Value::Rec(parts))
}

// The value that a word stands for.
fn value(alloc: Global, word: &str) -> Result<Value> {
    if word == "none" {
        return Ok(Value::None);
    }
    if let Some(payload) = word.strip_prefix("some") {
        return some(alloc, payload);
    }
    match word.split_once(',') {
        Some(_) => of_parts(alloc, word),
        None => plain(word),
    }
}

fn args_of(alloc: Global, words: &str) -> Result<Args> {
    let mut vals: Vals = List::new(alloc);
    for word in words.split_whitespace() {
        vals.push(value(alloc, word)?)?;
    }
    Ok(Args { vals })
}

// The cell that a word stands for gets its value.
fn put(alloc: Global, state: &mut State, word: &str) -> Result<()> {
    let Some((cell, held)) = word.split_once('=') else {
        bail!("no cell: {word}");
    };
    let held = value(alloc, held)?;
    match cell.split_once('[') {
        Some((number, key)) => {
            let key = value(alloc, key.trim_end_matches(']'))?;
            state.set(number.parse::<u16>()?, Some(key), held)?;
        }
        None => state.set(cell.parse::<u16>()?, None, held)?,
    }
    Ok(())
}

// The least state but for these cells.
fn state_of(alloc: Global, model: &Model, cells: &str) -> Result<State> {
    let mut state = State::least(alloc, model)?;
    for word in cells.split_whitespace() {
        put(alloc, &mut state, word)?;
    }
    Ok(state)
}

/// The world of a row's cells and arguments of both calls.
pub fn world_of(alloc: Global, model: &Model, row: &str) -> Result<World> {
    let (cells, args) = row.split_once('|').unwrap_or((row, ""));
    let (a, b) = args.split_once('|').unwrap_or((args, ""));
    let a = args_of(alloc, a)?;
    let b = args_of(alloc, b)?;
    let init = state_of(alloc, model, cells)?;
    Ok(World { init, a, b })
}
