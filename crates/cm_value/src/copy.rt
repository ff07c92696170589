//! Copies of values.

ghost use Rattle.std.specs.Prelude.{◌≡◌, IfOk};

use crate::{Vals, Value};
use cm_model::{Boxed, List, NoMemory};
use std::alloc::Global;

/// An equal value.
///
/// # Errors
/// `NoMemory` where memory runs out.
#[cycle(copy)]
pub fn copy_value(alloc: Global, v: &Value) -> Result<Value, NoMemory>
    ensures equal { IfOk result (λ copy. copy ≡ v.now) }
{
    match v {
        Value::Elem(n) => Ok(Value::Elem(*n)),
        Value::Int(n) => Ok(Value::Int(*n)),
        Value::Tag(n) => Ok(Value::Tag(*n)),
        Value::Rec(parts) => {
            let copies = copy_values(alloc, parts.as_slice())?;
            Ok(Value::Rec(copies))
        }
        Value::None => Ok(Value::None),
        Value::Some(payload) => {
            let copy = copy_value(alloc, payload.get())?;
            let copy = Boxed::new(alloc, copy)?;
            Ok(Value::Some(copy))
        }
    }
}

/// Equal values.
///
/// # Errors
/// `NoMemory` where memory runs out.
#[cycle(copy)]
pub fn copy_values(alloc: Global, values: &[Value]) -> Result<Vals, NoMemory>
    ensures equal { IfOk result (λ copies. copies ≡ values.now) }
{
    let mut copies = List::new(alloc);
    for value in values {
        copies.push(copy_value(alloc, value)?)?;
    }
    Ok(copies)
}
