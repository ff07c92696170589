//! The decisions of a run, each logged as it is made.

ghost use Rattle.std.specs.Prelude.{◌≡◌, ◌==◌, ℤ, IfOk};
ghost use Rattle.cm_eval.specs.Script.{Blocks, Decides};
ghost use Rattle.cm_eval.specs.Comparison.{comparison, option_of};
ghost use Rattle.cm_eval.specs.Evaluation.{Doing, inspects, orders, compares, opens};
ghost use Rattle.cm_eval.specs.Values.{into, placed};
ghost use Rattle.cm_eval.specs.inner.Going.{Decided};

use crate::compare::{compare, order};
use crate::operand::{Operand, choice, number};
use cm_model::{List, NoMemory};
use cm_value::Value;

/// The inspection of a bool.
pub fn inspect(o: &Operand, steps: &mut List<u8>) -> Result<Option<bool>, NoMemory>
    ensures decided { IfOk result (λ r. Decided (inspects o.now) r steps.old steps.new) }
{
    match choice(o) {
        Some(n) => {
            steps.push(n as u8)?;
            Ok(Some(n == 1))
        }
        None => Ok(None),
    }
}

/// The order of two numbers: 0 less, 1 equal, 2 greater.
pub fn order_operands(
    left: &Operand,
    right: &Operand,
    steps: &mut List<u8>,
) -> Result<Option<u8>, NoMemory>
    ensures decided { IfOk result (λ r. Decided (orders left.now right.now) r steps.old steps.new) }
{
    match number(left) {
        Some(m) => match number(right) {
            Some(n) => {
                let outcome = order(m, n);
                steps.push(outcome)?;
                Ok(Some(outcome))
            }
            None => Ok(None),
        },
        None => Ok(None),
    }
}

// Whether two numbers are equal.
fn are_equal(
    left: &Operand,
    right: &Operand,
    steps: &mut List<u8>,
) -> Result<Option<bool>, NoMemory>
    ensures decided { IfOk result (λ r. Decided (λ k. orders left.now right.now (λ d. k
        (d == 1))) r steps.old steps.new) }
{
    match order_operands(left, right, steps)? {
        Some(d) => Ok(Some(d == 1)),
        None => Ok(None),
    }
}

// Two values by their type.
fn compare_values(
    left: &Value,
    right: &Value,
    steps: &mut List<u8>,
) -> Result<Option<bool>, NoMemory>
    ensures decided { IfOk result (λ r. Decided (comparison Doing Blocks Decides left.now right.now)
        r steps.old steps.new) }
{
    let r = compare(left, right, steps)?;
    Ok(r)
}

/// Two values by their type, or two numbers.
pub fn compare_operands(
    left: &Operand,
    right: &Operand,
    steps: &mut List<u8>,
) -> Result<Option<bool>, NoMemory>
    ensures decided { IfOk result (λ r. Decided (compares left.now right.now) r steps.old steps.new) }
{
    match (left, right) {
        (Operand::Plain(v), Operand::Plain(w)) => {
            let r = compare_values(v, w, steps)?;
            Ok(r)
        }
        (Operand::Plain(_), Operand::Number(_)) => {
            let r = are_equal(left, right, steps)?;
            Ok(r)
        }
        (Operand::Number(_), _) => {
            let r = are_equal(left, right, steps)?;
            Ok(r)
        }
    }
}

// 0 below, 1 between, 2 above.
fn place(lo: i64, hi: i64, n: i64) -> u8
    ensures place { result ≡ placed lo hi n }
{
    if n < lo {
        0
    } else if hi < n {
        2
    } else {
        1
    }
}

/// A number as a value from `lo` to `hi`, where it is one.
pub fn convert(
    lo: i64,
    hi: i64,
    of: &Operand,
    steps: &mut List<u8>,
) -> Result<Option<Value>, NoMemory>
    ensures decided { IfOk result (λ r. Decided (into lo hi of.now) r steps.old steps.new) }
{
    match number(of) {
        Some(n) => {
            let outcome = place(lo, hi, n);
            steps.push(outcome)?;
            if outcome == 1 {
                return Ok(Some(Value::Int(n)));
            }
            Ok(None)
        }
        None => Ok(None),
    }
}

/// The inspection of an option, with its payload where it has one.
pub fn open_option(of: Value, steps: &mut List<u8>) -> Result<Option<Option<Value>>, NoMemory>
    ensures decided { IfOk result (λ r. Decided (opens (option_of of)) r steps.old steps.new) }
{
    match of {
        Value::None => {
            steps.push(0)?;
            Ok(Some(None))
        }
        Value::Some(payload) => {
            steps.push(1)?;
            Ok(Some(Some(payload.into_inner())))
        }
        _ => Ok(None),
    }
}
