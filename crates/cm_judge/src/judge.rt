//! The judge of a section.

ghost use Rattle.std.specs.Prelude.{◌≡◌, ◌≢◌, ◌↔◌, [], ◌∷◌, ◌++◌, List, ℕ, ◌+◌, ◌*◌, ◌%◌, ◌<◌, ◌≤◌, All, IsTrue, false};
ghost use Rattle.std.specs.Prelude.{IfOk, OnOk, OnErr, vec_len, vec_capacity};
ghost use Rattle.cm_mtrace.specs.Lines.{IsInRange};
ghost use Rattle.cm_mtrace.specs.declared.item.Entry.{Entry};
ghost use Rattle.cm_mtrace.specs.declared.item.Who.TheVariants.{Other};
ghost use Rattle.cm_judge.specs.Conflicts.{AreConflictLines};
ghost use Rattle.cm_judge.specs.Judge.{StandsFor};
ghost use Rattle.cm_judge.specs.inner.Table.{AreLinesOf, KeepWhat};
ghost use Rattle.cm_judge.specs.declared.slots.Record.{Record};

use crate::line::{Lines, lines_of};
use crate::merge::{conflict_lines, merged};
use crate::slots::Record;
use crate::table::Table;
use cm_model::{List, NoMemory};
use cm_mtrace::{Entry, Item, Who};
use std::alloc::Global;
use std::marker::Model;

// How many records spill before those of one line are put together.
const SPILL: usize = 1024;

// Adds an access to what is kept of each of its lines.
fn note_lines(table: &mut Table, spill: &mut Vec<Record>, lines: Lines, e: &Entry)
    requires judged { e.now.who ≢ Other }
    requires lines { AreLinesOf e.now lines }
    requires range { IsInRange e.now }
    requires room { vec_len spill.old + lines.count ≤ vec_capacity spill.old }
    ensures { (entries : List Entry) → StandsFor (table.old ++ spill.old.items) entries
        → StandsFor (table.new ++ spill.new.items) (entries ++ e.now ∷ []) }
{
    for k in 0..lines.count {
        let line = lines.first + 64 * u64::from(k);
        table.note_or_spill(spill, line, e);
    }
}

// Adds an access of one line to what is kept of it, where the table has room for that line. This is what
// most accesses are.
#[inline(always)]
fn note_one(table: &mut Table, lines: Lines, e: &Entry) -> bool
    requires judged { e.now.who ≢ Other }
    requires lines { AreLinesOf e.now lines }
    ensures noted { IsTrue result → (spill : List Record) (entries : List Entry)
        → StandsFor (table.old ++ spill) entries → StandsFor (table.new ++ spill) (entries ++ e.now ∷ []) }
    ensures none { result ≡ false → table.new ≡ table.old }
{
    if lines.count != 1 {
        return false;
    }
    table.note(lines.first, e)
}

// Puts the records of one line together where many have spilled.
fn trim(alloc: Global, spill: &mut Vec<Record>, limit: &mut usize)
    ensures { KeepWhat spill.old.items spill.new.items }
{
    if spill.len() < *limit {
        return;
    }
    if let Ok(records) = Vec::from_slice(alloc, spill.as_slice()) {
        if let Ok(fewer) = merged(alloc, records) {
            *spill = fewer;
        }
    }
    *limit = spill.len().saturating_mul(2).saturating_add(SPILL);
}

// The lines in conflict. Records are put together only where some have spilled.
fn conflicts(alloc: Global, table: &Table, spill: &[Record]) -> Result<Vec<u64>, NoMemory>
    ensures { IfOk result (λ lines. (entries : List Entry) → StandsFor (table.now ++ spill.now) entries
        → AreConflictLines entries lines.items) }
{
    if spill.is_empty() {
        return table.conflicts(alloc);
    }
    let mut records = table.records(alloc)?;
    records.extend_from_slice(spill)?;
    let records = merged(alloc, records)?;
    conflict_lines(alloc, records.as_slice())
}

/// Collects the accesses of a section.
#[derive(Debug, Drop)]
pub struct Judge {
    alloc: Global,
    // The lines that have a slot.
    table: Table,
    // Accesses to lines that found no slot.
    spill: Vec<Record>,
    spill_limit: usize,
}

/// How many lines have a slot, how many slots there are, and how many records spilled.
#[cfg(test)]
#[derive(Clone, Copy)]
pub(crate) struct Sizes {
    pub(crate) held: usize,
    pub(crate) slots: usize,
    pub(crate) spilled: usize,
}

impl Model for Judge {
    ghost use Rattle.std.specs.Prelude.{List, ◌++◌};
    ghost use Rattle.cm_judge.specs.declared.slots.Record.{Record};

    ghost Value = { List Record };

    ghost view = { λ j. j.table ++ j.spill.items };
}

impl Judge {
    /// A judge of no entries.
    pub fn new(alloc: Global) -> Judge
        ensures { StandsFor result [] }
    {
        Judge {
            alloc,
            table: Table::new(alloc),
            spill: Vec::new(alloc),
            spill_limit: SPILL,
        }
    }

    /// What its memory goes with.
    #[cfg(test)]
    pub(crate) fn sizes(&self) -> Sizes {
        let (held, slots) = self.table.sizes();
        Sizes {
            held,
            slots,
            spilled: self.spill.len(),
        }
    }

    /// Makes room for the lines of items that are added next. The judge stands for what it stood for; with room made,
    /// entries of a large section are added faster.
    pub fn make_room(&mut self, items: &[Item])
        ensures stands { (entries : List Entry) → StandsFor self.old entries → StandsFor self.new entries }
    {
        self.table.make_room_ahead(self.alloc, items);
    }

    /// Adds an entry of the section.
    pub fn add(&mut self, e: &Entry) -> Result<(), NoMemory>
        requires { IsInRange e.now }
        ensures ok { OnOk result
            ((entries : List Entry) → StandsFor self.old entries → StandsFor self.new (entries ++ e.now ∷ [])) }
        ensures err { OnErr result (self.new ≡ self.old) }
    {
        if e.who == Who::Other {
            return Ok(());
        }
        let lines = lines_of(e);
        if note_one(&mut self.table, lines, e) {
            return Ok(());
        }
        self.add_lines(lines, e)
    }

    #[inline(never)]
    fn add_lines(&mut self, lines: Lines, e: &Entry) -> Result<(), NoMemory>
        requires judged { e.now.who ≢ Other }
        requires lines { AreLinesOf e.now lines }
        requires range { IsInRange e.now }
        ensures ok { OnOk result
            ((entries : List Entry) → StandsFor self.old entries → StandsFor self.new (entries ++ e.now ∷ [])) }
        ensures err { OnErr result (self.new ≡ self.old) }
    {
        self.spill.reserve(usize::from(lines.count))?;
        self.table.make_room(self.alloc, lines)?;
        note_lines(&mut self.table, &mut self.spill, lines, e);
        trim(self.alloc, &mut self.spill, &mut self.spill_limit);
        Ok(())
    }

    /// The conflict lines of the entries, ascending, each once. The judge is then one of no entries.
    pub fn take_conflicts(&mut self) -> Result<List<u64>, NoMemory>
        ensures lines { IfOk result
            (λ lines. (entries : List Entry) → StandsFor self.old entries → AreConflictLines entries lines) }
        ensures emptied { OnOk result (StandsFor self.new []) }
        ensures err { OnErr result (self.new ≡ self.old) }
    {
        let lines = conflicts(self.alloc, &self.table, self.spill.as_slice())?;
        self.table.clear(self.alloc);
        self.spill.clear();
        Ok(List::from_vec(lines))
    }
}
