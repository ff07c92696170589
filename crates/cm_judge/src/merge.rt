//! Records of one line put together, and the lines in conflict.

ghost use Rattle.std.specs.Prelude.{◌≡◌, ◌++◌, ◌∷◌, [], List, ℕ, IfOk};
ghost use Rattle.cm_judge.specs.declared.slots.Record.{Record};
ghost use Rattle.cm_mtrace.specs.declared.item.Entry.{Entry};
ghost use Rattle.std.specs.List.Sorted.{IsNonDecreasingBy};
ghost use Rattle.cm_judge.specs.Conflicts.{AreConflictLines};
ghost use Rattle.cm_judge.specs.Judge.{StandsFor};
ghost use Rattle.cm_judge.specs.inner.Table.{AreFound, HasOneEach, KeepWhat, ListsLines};

use crate::slots::Record;
use cm_model::NoMemory;
use std::alloc::Global;

// The records in the order of their lines, those of one line put together.
fn joined(alloc: Global, sorted: &[Record]) -> Result<Vec<Record>, NoMemory>
    requires { IsNonDecreasingBy (λ (r : Record). r.line) sorted.now }
    ensures keep { IfOk result (λ joined. KeepWhat sorted.now joined.items) }
    ensures one_each { IfOk result (λ joined. HasOneEach joined.items) }
{
    let mut all = Vec::new(alloc);
    let Some((first, others)) = sorted.split_first() else {
        return Ok(all);
    };
    let mut last = *first;
    for record in others {
        if record.line == last.line {
            last.summary = last.summary.union(&record.summary);
        } else {
            all.push(last)?;
            last = *record;
        }
    }
    all.push(last)?;
    Ok(all)
}

/// The records, those of one line put together.
pub(crate) fn merged(alloc: Global, mut records: Vec<Record>) -> Result<Vec<Record>, NoMemory>
    ensures keep { IfOk result (λ merged. KeepWhat records.items merged.items) }
    ensures one_each { IfOk result (λ merged. HasOneEach merged.items) }
{
    records.sort_unstable_by_key(|record| record.line);
    joined(alloc, records.as_slice())
}

// The lines found, in order, each once.
fn ordered(mut found: Vec<u64>) -> Vec<u64>
    ensures { (records : List Record) (entries : List Entry) → AreFound records records found.items
        → StandsFor records entries
        → AreConflictLines entries result.items }
{
    found.sort_unstable();
    found.dedup();
    found
}

/// The lines in conflict, ascending, each once.
pub(crate) fn conflict_lines(alloc: Global, records: &[Record]) -> Result<Vec<u64>, NoMemory>
    requires { HasOneEach records.now }
    ensures { IfOk result (λ lines. (entries : List Entry) → StandsFor records.now entries
        → AreConflictLines entries lines.items) }
{
    let mut lines = Vec::new(alloc);
    for record in records {
        if record.is_conflict() {
            lines.push(record.line)?;
        }
    }
    Ok(ordered(lines))
}

/// The same, where the records that have a line are listed.
pub(crate) fn conflict_listed(
    alloc: Global,
    records: &[Record],
    used: &[usize],
) -> Result<Vec<u64>, NoMemory>
    requires one_each { HasOneEach records.now }
    requires listed { ListsLines records.now used.now }
    ensures { IfOk result (λ lines. (entries : List Entry) → StandsFor records.now entries
        → AreConflictLines entries lines.items) }
{
    let mut lines = Vec::new(alloc);
    for k in used {
        let record = &records[*k];
        if record.is_conflict() {
            lines.push(record.line)?;
        }
    }
    Ok(ordered(lines))
}
