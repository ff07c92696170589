//! Values and cells as rows write them. A contract knows that their numbers are small.

ghost use Rattle.std.specs.Prelude.{◌≡◌, [], ◌∷◌, IfOk, IsTrue};

use anyhow::{Result, bail};
use cm_model::{Boxed, List, NoMemory};
use cm_value::{Vals, Value};
use std::alloc::Global;

/// A value as a row gives it.
#[derive(Clone, Copy)]
pub enum Given {
    /// The element of a sort with this number.
    Elem(u64),
    /// A number of an integer type.
    Number(u8),
    /// A variant of bool, the second one where this is true.
    Flag(bool),
    /// The none of an option.
    None,
    /// An element as the payload of an option.
    SomeElem(u64),
    /// A record of two elements.
    Elems(u64, u64),
}

/// A cell with its value.
#[derive(Clone, Copy)]
pub struct HeldCell {
    /// The number of the state.
    pub state: u16,
    /// The element that is the key, where the state is a map.
    pub key: Option<u64>,
    /// The value.
    pub value: Given,
}

/// The number of the element that a word stands for.
pub fn element(word: &str) -> Result<u64> {
    match word.strip_prefix('#') {
        Some(number) => Ok(number.parse::<u64>()?),
        None => bail!("no element: {word}"),
    }
}

/// The value that a word stands for.
pub fn read_given(word: &str) -> Result<Given> {
    if word == "none" {
        return Ok(Given::None);
    }
    if let Some((left, right)) = word.split_once(',') {
        return Ok(Given::Elems(element(left)?, element(right)?));
    }
    if let Some(payload) = word.strip_prefix("some") {
        return Ok(Given::SomeElem(element(payload)?));
    }
    if word == ".0" || word == ".1" {
        return Ok(Given::Flag(word == ".1"));
    }
    if word.starts_with('#') {
        return Ok(Given::Elem(element(word)?));
    }
    Ok(Given::Number(word.parse::<u8>()?))
}

/// The cell that a word stands for.
pub fn held(word: &str) -> Result<HeldCell> {
    let Some((cell, value)) = word.split_once('=') else {
        bail!("no cell: {word}");
    };
    let value = read_given(value)?;
    match cell.split_once('[') {
        Some((state, key)) => Ok(HeldCell {
            state: state.parse::<u16>()?,
            key: Some(element(key.trim_end_matches(']'))?),
            value,
        }),
        None => Ok(HeldCell {
            state: cell.parse::<u16>()?,
            key: None,
            value,
        }),
    }
}

/// The value itself.
pub fn value_of(alloc: Global, given: Given) -> Result<Value, NoMemory> {
    match given {
        Given::Elem(n) => Ok(elem(n)),
        Given::Number(n) => Ok(number(n)),
        Given::Flag(b) => Ok(flag(b)),
        Given::None => Ok(none()),
        Given::SomeElem(n) => some(alloc, elem(n)),
        Given::Elems(m, n) => of_two(alloc, elem(m), elem(n)),
    }
}

/// The values, in order.
pub fn values_of(alloc: Global, given: &[Given]) -> Result<Vals, NoMemory> {
    match given {
        [] => Ok(nothing(alloc)),
        [v] => only(alloc, *v),
        [v, w, ..] => both(alloc, *v, *w),
    }
}

fn nothing(alloc: Global) -> Vals {
    List::new(alloc)
}

fn one(alloc: Global, v: Value) -> Result<Vals, NoMemory>
    ensures exact { IfOk result (λ values. values ≡ v ∷ []) }
{
    let mut values = List::new(alloc);
    values.push(v)?;
    Ok(values)
}

fn two(alloc: Global, v: Value, w: Value) -> Result<Vals, NoMemory>
    ensures exact { IfOk result (λ values. values ≡ v ∷ w ∷ []) }
{
    let mut values = List::new(alloc);
    values.push(v)?;
    values.push(w)?;
    Ok(values)
}

fn only(alloc: Global, v: Given) -> Result<Vals, NoMemory> {
    let v = value_of(alloc, v)?;
    let values = one(alloc, v)?;
    Ok(values)
}

fn both(alloc: Global, v: Given, w: Given) -> Result<Vals, NoMemory> {
    let v = value_of(alloc, v)?;
    let w = value_of(alloc, w)?;
    let values = two(alloc, v, w)?;
    Ok(values)
}

fn elem(n: u64) -> Value {
    Value::Elem(n)
}

fn number(n: u8) -> Value {
    Value::Int(i64::from(n))
}

fn flag(b: bool) -> Value {
    if b { Value::Tag(1) } else { Value::Tag(0) }
}

fn none() -> Value {
    Value::None
}

fn some(alloc: Global, v: Value) -> Result<Value, NoMemory> {
    let payload = Boxed::new(alloc, v)?;
    Ok(Value::Some(payload))
}

fn of_two(alloc: Global, v: Value, w: Value) -> Result<Value, NoMemory> {
    let parts = two(alloc, v, w)?;
    Ok(Value::Rec(parts))
}
