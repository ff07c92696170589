//! What comes out of an expression, as the machine computes with it.

ghost use Rattle.std.specs.Prelude.{◌≡◌, ◌<◌, IfOk, IfSome, Some, slice_get};
ghost use Rattle.cm_model.specs.Limits.{variant_limit};
ghost use Rattle.cm_eval.specs.Evaluation.{Doing, number_of, choice_of};
ghost use Rattle.cm_eval.specs.Evaluation as evaluation;
ghost use Rattle.cm_eval.specs.Values.{values};

use cm_model::{Boxed, List, NoMemory, limits};
use cm_value::{Vals, Value, copy_value};
use std::alloc::Global;

/// What an expression gives: a numeral or a sum is a number, every other expression a value of a type.
#[derive(Drop)]
pub enum Operand {
    /// A number that belongs to no integer type.
    Number(i64),
    /// A value.
    Plain(Value),
}

/// The number of an operand, if it has one.
pub fn number(o: &Operand) -> Option<i64>
    ensures number { result ≡ number_of o.now }
{
    match o {
        Operand::Number(n) => Some(*n),
        Operand::Plain(Value::Int(n)) => Some(*n),
        Operand::Plain(_) => None,
    }
}

/// The variant that an operand is, by its number.
pub fn choice(o: &Operand) -> Option<u16>
    ensures choice { result ≡ choice_of o.now }
    ensures few { IfSome result (λ n. n < variant_limit) }
{
    match o {
        Operand::Plain(Value::Tag(n)) => {
            if *n < limits::VARIANTS {
                return Some(*n);
            }
            None
        }
        Operand::Plain(_) => None,
        Operand::Number(_) => None,
    }
}

// A record of these values with another one in one field.
fn set_part(parts: Vals, i: u16, w: Value) -> Option<Value>
    ensures field { result ≡ evaluation.fields_with (Some parts) i w }
{
    let mut parts = parts;
    let at = usize::from(i);
    if at < parts.len() {
        parts.set(at, w);
        return Some(Value::Rec(parts));
    }
    None
}

// One of these values.
fn part(alloc: Global, parts: &[Value], i: u16) -> Result<Option<Value>, NoMemory>
    ensures part { IfOk result (λ r. r ≡ slice_get parts.now i) }
{
    match parts.get(usize::from(i)) {
        Some(v) => {
            let v = copy_value(alloc, v)?;
            Ok(Some(v))
        }
        None => Ok(None),
    }
}

impl cm_code::Operand for Operand {
    type Value = Value;

    ghost Doing = { Doing };

    ghost rules = { values };

    fn tag(_alloc: Global, _ty: u16, index: u16) -> Result<Value, NoMemory> {
        Ok(Value::Tag(index))
    }

    fn flag(_alloc: Global, b: bool) -> Result<Value, NoMemory> {
        Ok(Value::Tag(u16::from(b)))
    }

    fn make(_alloc: Global, parts: List<Value>) -> Result<Value, NoMemory>
        ensures { IfOk result (λ v. v ≡ values.make parts) }
    {
        Ok(Value::Rec(parts))
    }

    fn nothing(_alloc: Global) -> Result<Value, NoMemory> {
        Ok(Value::None)
    }

    fn some(alloc: Global, payload: Value) -> Result<Value, NoMemory> {
        let payload = Boxed::new(alloc, payload)?;
        Ok(Value::Some(payload))
    }

    fn field(alloc: Global, of: Value, i: u16) -> Result<Option<Value>, NoMemory> {
        match of {
            Value::Rec(parts) => part(alloc, parts.as_slice(), i),
            _ => Ok(None),
        }
    }

    fn with_field(
        _alloc: Global,
        of: Value,
        i: u16,
        value: Value,
    ) -> Result<Option<Value>, NoMemory> {
        match of {
            Value::Rec(parts) => Ok(set_part(parts, i, value)),
            _ => Ok(None),
        }
    }

    fn copy(alloc: Global, value: &Value) -> Result<Value, NoMemory> {
        copy_value(alloc, value)
    }

    fn plain(value: Value) -> Operand {
        Operand::Plain(value)
    }

    fn number(n: i64) -> Operand {
        Operand::Number(n)
    }

    fn value(self) -> Option<Value> {
        match self {
            Operand::Plain(value) => Some(value),
            Operand::Number(_) => None,
        }
    }

    fn shift(self, by: i64) -> Result<Option<Operand>, NoMemory> {
        match number(&self) {
            Some(n) => match n.checked_add(by) {
                Some(sum) => Ok(Some(Operand::Number(sum))),
                None => Err(NoMemory),
            },
            None => Ok(None),
        }
    }
}
