//! Operands, the topmost last.

ghost use Rattle.std.specs.Prelude.{◌≡◌, ◌∷◌, [], ◌-◌, length, take, reverse, IfOk, OnOk, MatchOption};
ghost use Rattle.cm_code.specs.Machine.{TakesValue, TakesTwo, TakesMany, TakesKey};

use crate::operand::Operand;
use crate::tail::reversed;
use cm_model::{List, NoMemory};
use std::alloc::Global;

// A new topmost operand.
pub(crate) fn push<V: Drop>(ops: &mut List<V>, x: V) -> Result<(), NoMemory>
    ensures { OnOk result (reverse ops.new ≡ x ∷ reverse ops.old) }
{
    ops.push(x)?;
    Ok(())
}

// The topmost operand.
pub(crate) fn pop<V: Drop>(ops: &mut List<V>) -> Option<V>
    ensures { MatchOption result ((reverse ops.old ≡ []) × (reverse ops.new ≡ []))
        (λ x. reverse ops.old ≡ x ∷ reverse ops.new) }
{
    ops.pop()
}

// The topmost operand, if it is a value.
pub(crate) fn pop_value<T: Operand + Drop>(ops: &mut List<T>) -> Option<T::Value>
    ensures { TakesValue T.Value T T.Doing T.rules ops.old result ops.new }
{
    match pop(ops) {
        Some(o) => o.value(),
        None => None,
    }
}

// The two topmost operands, the lower one first.
pub(crate) fn pop_two<T: Operand + Drop>(ops: &mut List<T>) -> Option<(T, T)>
    ensures { TakesTwo T.Value T T.Doing T.rules ops.old result ops.new }
{
    match pop(ops) {
        Some(y) => match pop(ops) {
            Some(x) => Some((x, y)),
            None => None,
        },
        None => None,
    }
}

// A key, where there is one.
pub(crate) fn pop_key<T: Operand + Drop>(ops: &mut List<T>, keyed: bool) -> Option<Option<T::Value>>
    ensures { TakesKey T.Value T T.Doing T.rules keyed ops.old result ops.new }
{
    if keyed {
        match pop_value(ops) {
            Some(v) => Some(Some(v)),
            None => None,
        }
    } else {
        Some(None)
    }
}

// The n topmost operands in the order in which they came, if they are values.
pub(crate) fn pop_many<T: Operand + Drop>(
    alloc: Global,
    ops: &mut List<T>,
    n: usize,
) -> Result<Option<List<T::Value>>, NoMemory>
    ensures { IfOk result (λ r. TakesMany T.Value T T.Doing T.rules n ops.old r ops.new) }
{
    let mut back = List::new(alloc);
    let mut left = n;
    'takes: while left > 0 {
        left -= 1;
        match pop_value(ops) {
            Some(v) => back.push(v)?,
            None => return Ok(None),
        }
    }
    let args = reversed(alloc, back)?;
    Ok(Some(args))
}

// Gives back the last n items.
pub(crate) fn leave<T: Drop>(items: &mut List<T>, n: usize)
    ensures { items.new ≡ take (length items.old - n) items.old }
{
    let mut left = n;
    'drops: while left > 0 {
        left -= 1;
        let _last = items.pop();
    }
}
