//! Two values compared by their type, decision by decision.

ghost use Rattle.std.specs.Prelude.{◌≡◌, ◌==◌, ◌++◌, ◌∷◌, [], IfOk, OnOk, map, List, ℕ, Bool};
ghost use Rattle.cm_value.specs.declared.value.Value.{Value};
ghost use Rattle.cm_eval.specs.Comparison.{distinguished, ordered, fields_compared, comparison};
ghost use Rattle.cm_eval.specs.State.{Touched};
ghost use Rattle.cm_eval.specs.Run.{Trace, Blocked, Logs, Stopped, logged};
ghost use Rattle.cm_eval.specs.inner.Going.{Compares, ComparesAll, ComparesTags, ended_by};

use cm_model::{List, NoMemory, limits};
use cm_value::Value;

/// Compares two values by their type and logs each decision. `None` where they are of no one type.
#[cycle(compare)]
pub fn compare(left: &Value, right: &Value, steps: &mut List<u8>) -> Result<Option<bool>, NoMemory>
    ensures compares { IfOk result (λ r. Compares left.now right.now r steps.old steps.new) }
{
    match (left, right) {
        (Value::Elem(m), Value::Elem(n)) => {
            steps.push(if m == n { 0 } else { 1 })?;
            Ok(Some(m == n))
        }
        (Value::Int(m), Value::Int(n)) => {
            let outcome = order(*m, *n);
            steps.push(outcome)?;
            Ok(Some(outcome == 1))
        }
        (Value::Tag(m), Value::Tag(n)) => {
            let r = compare_tags(*m, *n, steps)?;
            Ok(r)
        }
        (Value::Rec(ms), Value::Rec(ns)) => {
            let r = compare_all(ms.as_slice(), ns.as_slice(), steps)?;
            Ok(r)
        }
        (Value::None, Value::None) => {
            let same = log_both(0, 0, steps)?;
            Ok(Some(same))
        }
        (Value::None, Value::Some(_)) => {
            let same = log_both(0, 1, steps)?;
            Ok(Some(same))
        }
        (Value::Some(_), Value::None) => {
            let same = log_both(1, 0, steps)?;
            Ok(Some(same))
        }
        (Value::Some(m), Value::Some(n)) => {
            log_both(1, 1, steps)?;
            let r = compare(m.get(), n.get(), steps)?;
            Ok(r)
        }
        _ => Ok(None),
    }
}

// Field by field, until one differs.
#[cycle(compare)]
fn compare_all(
    left: &[Value],
    right: &[Value],
    steps: &mut List<u8>,
) -> Result<Option<bool>, NoMemory>
    ensures compares { IfOk result (λ r. ComparesAll left.now right.now r steps.old steps.new) }
{
    for i in 0..left.len() {
        if i >= right.len() {
            return Ok(None);
        }
        match compare(&left[i], &right[i], steps)? {
            Some(true) => {}
            Some(false) => return Ok(Some(false)),
            None => return Ok(None),
        }
    }
    if left.len() < right.len() {
        return Ok(None);
    }
    Ok(Some(true))
}

// The variants of one enum, left and then right.
fn compare_tags(left: u16, right: u16, steps: &mut List<u8>) -> Result<Option<bool>, NoMemory>
    ensures compares { IfOk result (λ r. ComparesTags left right r steps.old steps.new) }
{
    if left >= limits::VARIANTS || right >= limits::VARIANTS {
        return Ok(None);
    }
    let same = log_both(left as u8, right as u8, steps)?;
    Ok(Some(same))
}

/// Logs the inspection of two variants or options, the left one and then the right one, by their numbers. Says
/// whether they are equal.
///
/// # Errors
/// `NoMemory` where memory runs out.
pub fn log_both(left: u8, right: u8, steps: &mut List<u8>) -> Result<bool, NoMemory>
    ensures equal { IfOk result (λ same. same ≡ (left == right)) }
    ensures logged { OnOk result (steps.new ≡ (steps.old ++ left ∷ []) ++ right ∷ []) }
{
    steps.push(left)?;
    steps.push(right)?;
    Ok(left == right)
}

/// 0 less, 1 equal, 2 greater.
pub fn order(left: i64, right: i64) -> u8
    ensures order { result ≡ ordered left right }
{
    if left < right {
        0
    } else if right < left {
        2
    } else {
        1
    }
}
