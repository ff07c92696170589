//! Worlds as rows write them.

use anyhow::{Result, bail};
use cm_eval::{Args, State};
use cm_model::{Boxed, List, Model, Pair};
use cm_value::{Vals, Value};
use cm_world::World;
use std::alloc::Global;

fn plain_value(word: &str) -> Result<Value> {
    if let Some(n) = word.strip_prefix('#') {
        return Ok(Value::Elem(n.parse::<u64>()?));
    }
    if let Some(index) = word.strip_prefix('.') {
        return Ok(Value::Tag(index.parse::<u16>()?));
    }
    if word == "none" {
        return Ok(Value::None);
    }
    Ok(Value::Int(word.parse::<i64>()?))
}

fn record(alloc: Global, word: &str) -> Result<Value> {
    let mut parts = List::new(alloc);
    for part in word.split(',') {
        parts.push(plain_value(part)?)?;
    }
    Ok(Value::Rec(parts))
}

fn part_value(alloc: Global, word: &str) -> Result<Value> {
    if word.contains(',') {
        return record(alloc, word);
    }
    plain_value(word)
}

fn value(alloc: Global, word: &str) -> Result<Value> {
    match word.strip_prefix("some") {
        Some(payload) => {
            let payload = part_value(alloc, payload)?;
            let payload = Boxed::new(alloc, payload)?;
            Ok(Value::Some(payload))
        }
        None => part_value(alloc, word),
    }
}

fn values(alloc: Global, text: &str) -> Result<Vals> {
    let mut values = List::new(alloc);
    for word in text.split_whitespace() {
        values.push(value(alloc, word)?)?;
    }
    Ok(values)
}

fn put(alloc: Global, state: &mut State, word: &str) -> Result<()> {
    let Some((cell, held)) = word.split_once('=') else {
        bail!("no cell: {word}");
    };
    let held = value(alloc, held)?;
    let (number, key) = cell.split_once('[').unwrap_or((cell, ""));
    let number = number.parse::<u16>()?;
    let key = match key.strip_suffix(']') {
        Some(key) => Some(value(alloc, key)?),
        None => None,
    };
    state.set(number, key, held)?;
    Ok(())
}

fn state_of(alloc: Global, model: &Model, cells: &str) -> Result<State> {
    let mut state = State::least(alloc, model)?;
    for word in cells.split_whitespace() {
        put(alloc, &mut state, word)?;
    }
    Ok(state)
}

fn pair_of(text: &str) -> Result<Pair> {
    let Some((a, b)) = text.trim().split_once(' ') else {
        bail!("no pair: {text}");
    };
    Ok(Pair {
        a: a.parse::<u16>()?,
        b: b.parse::<u16>()?,
    })
}

/// A pair, and a world with these cells and arguments.
pub fn read(alloc: Global, model: &Model, row: &str) -> Result<(Pair, World)> {
    let mut parts = row.split('/');
    let pair = pair_of(parts.next().unwrap_or(""))?;
    let init = state_of(alloc, model, parts.next().unwrap_or(""))?;
    let a = Args {
        vals: values(alloc, parts.next().unwrap_or(""))?,
    };
    let b = Args {
        vals: values(alloc, parts.next().unwrap_or(""))?,
    };
    Ok((pair, World { init, a, b }))
}
