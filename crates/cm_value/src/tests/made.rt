//! Values as the tests write them.

use crate::Value;
use cm_model::{Boxed, List, NoMemory, Ty};
use std::alloc::Global;

/// The records of the example by their numbers.
pub const POINT: u16 = 0;

pub const NODE: u16 = 1;

/// The type of an option of a type.
pub fn option(alloc: Global, payload: Ty) -> Result<Ty, NoMemory> {
    let payload = Boxed::new(alloc, payload)?;
    Ok(Ty::Option(payload))
}

pub fn some(alloc: Global, v: Value) -> Result<Value, NoMemory> {
    let payload = Boxed::new(alloc, v)?;
    Ok(Value::Some(payload))
}

/// A point at an element, with a size.
pub fn point(alloc: Global, at: u64, size: i64) -> Result<Value, NoMemory> {
    let mut parts = List::new(alloc);
    parts.push(Value::Elem(at))?;
    parts.push(Value::Int(size))?;
    Ok(Value::Rec(parts))
}

/// A node at a point, with a next element and a shade; its owner is the element 1.
pub fn node(alloc: Global, at: u64, size: i64, next: u64, shade: u16) -> Result<Value, NoMemory> {
    let mut parts = List::new(alloc);
    parts.push(point(alloc, at, size)?)?;
    parts.push(some(alloc, Value::Elem(next))?)?;
    parts.push(Value::Tag(shade))?;
    parts.push(Value::Elem(1))?;
    Ok(Value::Rec(parts))
}

/// A record with one element.
pub fn single(alloc: Global, n: u64) -> Result<Value, NoMemory> {
    let mut parts = List::new(alloc);
    parts.push(Value::Elem(n))?;
    Ok(Value::Rec(parts))
}

/// A node whose place is #0 of size 2, without a next one, of the first shade, owned by #0.
pub fn least_node(alloc: Global) -> Result<Value, NoMemory> {
    let mut parts = List::new(alloc);
    parts.push(point(alloc, 0, 2)?)?;
    parts.push(Value::None)?;
    parts.push(Value::Tag(0))?;
    parts.push(Value::Elem(0))?;
    Ok(Value::Rec(parts))
}
