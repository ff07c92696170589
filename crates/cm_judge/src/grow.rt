//! A larger table.

ghost use Rattle.std.specs.Prelude.{◌*◌, ◌≤◌, IfOk, IfSome};
ghost use Rattle.cm_judge.specs.inner.Table.{EachIsFound, SameRecords};

use crate::slots::{Place, Record, WINDOW, place_for};
use cm_model::NoMemory;
use std::alloc::Global;

// The fewest slots that a line may have its first in.
const LEAST: usize = 128;

// How many slots a table has that is twice as large as one of so many.
fn doubled(slots: usize) -> usize {
    let firsts = slots.saturating_sub(WINDOW - 1);
    firsts
        .saturating_mul(2)
        .max(LEAST)
        .saturating_add(WINDOW - 1)
}

/// How many lines a table of so many slots has before it grows: three quarters of the slots.
pub(crate) fn limit_of(slots: usize) -> usize
    ensures { 4 * result ≤ 3 * slots }
{
    slots.saturating_sub(WINDOW - 1) / 4 * 3
}

/// A table of twice the size with the same records, or `None` where one of them has no place in it.
pub(crate) fn grown(alloc: Global, slots: &[Record]) -> Result<Option<Vec<Record>>, NoMemory>
    ensures { IfOk result (λ table. IfSome table (λ new. SameRecords slots.now new.items × EachIsFound new.items)) }
{
    let mut new = vec![in alloc; Record::free(); doubled(slots.len())]?;
    for slot in slots {
        if slot.has_line() {
            match place_for(new.as_slice(), slot.line) {
                Place::Free(k) => new[k] = *slot,
                Place::Held(_) | Place::Nowhere => return Ok(None),
            }
        }
    }
    Ok(Some(new))
}
