//! A hash table of the lines of a section.

ghost use Rattle.std.specs.Prelude.{◌≡◌, ◌≢◌, ◌+◌, ◌≤◌, ◌<◌, ◌%◌, [], ◌∷◌, ◌++◌, List, All, IsTrue, true, false, IfOk};
ghost use Rattle.std.specs.Prelude.{OnOk, OnErr, slice_set, vec_len, vec_capacity};
ghost use Rattle.cm_mtrace.specs.Lines.{Covers};
ghost use Rattle.cm_mtrace.specs.declared.item.Entry.{Entry};
ghost use Rattle.cm_mtrace.specs.declared.item.Who.TheVariants.{Other};
ghost use Rattle.cm_judge.specs.Conflicts.{AreConflictLines};
ghost use Rattle.cm_judge.specs.Judge.{StandsFor};
ghost use Rattle.cm_judge.specs.declared.slots.Record.{Record};
ghost use Rattle.cm_judge.specs.inner.Table.{ListsLines, Notes, SameRecords};

use crate::grow::{grown, limit_of};
use crate::line::Lines;
use crate::merge::{conflict_lines, conflict_listed};
use crate::slots::{Place, Record, is_in_first, place_for};
use cm_model::NoMemory;
use cm_mtrace::{Entry, Item};
use std::alloc::Global;
use std::marker::Model;

/// A hash table of lines. Contracts see its slots.
#[derive(Debug, Drop)]
pub(crate) struct Table {
    slots: Vec<Record>,
    // The slots that have a line, where they are few.
    used: Vec<usize>,
    is_listed: bool,
    // How many slots have a line, and how many may before the table grows.
    held: usize,
    limit: usize,
}

impl Model for Table {
    ghost use Rattle.std.specs.Prelude.{List};
    ghost use Rattle.cm_judge.specs.declared.slots.Record.{Record};
    ghost use Rattle.cm_judge.specs.inner.Table.{IsTable};

    ghost Value = { List Record };

    ghost view = { λ t. t.slots.items };

    ghost invariant = { λ t. IsTable t.slots.items t.used.items t.is_listed };
}

// How many slots are listed. Where more have a line, all slots are gone over.
const FEW: usize = 512;

// Lists one slot more, if few are listed. Tells whether those that have a line are still listed.
#[inline(always)]
fn list_slot(used: &mut Vec<usize>, is_listed: bool, k: usize) -> bool
    ensures { result ≡ true → (is_listed ≡ true) × (used.new.items ≡ used.old.items ++ k ∷ []) }
{
    if used.len() >= FEW {
        return false;
    }
    match used.push(k) {
        Ok(()) => is_listed,
        Err(_) => false,
    }
}

fn free_listed(slots: &mut [Record], used: &[usize])
    requires { ListsLines slots.old used.now }
    ensures { All (λ (r : Record). r.line % 64 ≢ 0) slots.new }
{
    for k in used {
        slots[*k] = Record::free();
    }
}

fn free_all(slots: &mut [Record])
    ensures { All (λ (r : Record). r.line % 64 ≢ 0) slots.new }
{
    for slot in slots.iter_mut() {
        *slot = Record::free();
    }
}

// A table of fewer slots stays in the processor's caches, so nothing is gained by looking ahead.
const NEAR: usize = 4096;

// How many of the items may bring a line that has no slot yet: the line does not have its first slot. The slots
// are asked for one right after another, so that memory answers for many at once. In a small table none is.
fn new_lines(slots: &[Record], items: &[Item]) -> usize {
    if slots.len() < NEAR {
        return 0;
    }
    let mut new: usize = 0;
    for item in items {
        if let Item::Entry(e) = item {
            new += usize::from(!is_in_first(slots, e.addr - e.addr % 64));
        }
    }
    new
}

// Whether one of the lines has no place.
fn some_has_none(slots: &[Record], lines: Lines) -> bool {
    for k in 0..lines.count {
        let line = lines.first.saturating_add(64 * u64::from(k));
        if let Place::Nowhere = place_for(slots, line) {
            return true;
        }
    }
    false
}

impl Table {
    ghost use Rattle.cm_judge.specs.inner.Table.{IsFreeFor, IsOfFirst, IsPlaceFor};

    /// A table of no slots.
    pub(crate) fn new(alloc: Global) -> Table
        ensures { result ≡ [] }
    {
        Table {
            slots: Vec::new(alloc),
            used: Vec::new(alloc),
            is_listed: true,
            held: 0,
            limit: 0,
        }
    }

    #[inline(always)]
    fn place(&self, line: u64) -> Place
        ensures { IsPlaceFor self.now line result }
    {
        place_for(self.slots.as_slice(), line)
    }

    // Puts the first access to a line in a free slot.
    #[inline(always)]
    fn fill(&mut self, k: usize, line: u64, e: &Entry)
        requires judged { e.now.who ≢ Other }
        requires free { IsFreeFor self.old line k }
        ensures filled { (r : Record) × (self.new ≡ slice_set self.old k r) × IsOfFirst r line e.now }
    {
        self.slots[k].begin(line, e);
        self.held = self.held.saturating_add(1);
        self.is_listed = list_slot(&mut self.used, self.is_listed, k);
    }

    // Adds an access to what is kept of the line, where the line has a slot, or may get a free one while the
    // table has at most so many lines.
    #[inline(always)]
    fn note_within(&mut self, line: u64, e: &Entry, most: usize) -> bool
        requires judged { e.now.who ≢ Other }
        requires covered { Covers e.now line }
        ensures noted { IsTrue result → (rest : List Record) → Notes (self.old ++ rest) (self.new ++ rest) line e.now }
        ensures none { result ≡ false → self.new ≡ self.old }
    {
        match self.place(line) {
            Place::Held(k) => {
                self.slots[k].summary.add(e);
                true
            }
            Place::Free(k) => {
                if self.held >= most {
                    return false;
                }
                self.fill(k, line, e);
                true
            }
            Place::Nowhere => false,
        }
    }

    /// Adds an access to what is kept of the line, where the table has room for the line.
    #[inline(always)]
    pub(crate) fn note(&mut self, line: u64, e: &Entry) -> bool
        requires judged { e.now.who ≢ Other }
        requires covered { Covers e.now line }
        ensures noted { IsTrue result → (rest : List Record) → Notes (self.old ++ rest) (self.new ++ rest) line e.now }
        ensures none { result ≡ false → self.new ≡ self.old }
    {
        let most = self.limit;
        self.note_within(line, e, most)
    }

    /// Adds an access to what is kept of the line. Where the line finds no place, its record spills.
    pub(crate) fn note_or_spill(&mut self, spill: &mut Vec<Record>, line: u64, e: &Entry)
        requires judged { e.now.who ≢ Other }
        requires covered { Covers e.now line }
        requires room { vec_len spill.old < vec_capacity spill.old }
        ensures noted { Notes (self.old ++ spill.old.items) (self.new ++ spill.new.items) line e.now }
        ensures capacity { vec_capacity spill.old ≤ vec_capacity spill.new }
        ensures one_more { vec_len spill.new ≤ vec_len spill.old + 1 }
    {
        if self.note_within(line, e, usize::MAX) {
            return;
        }
        match spill.push(Record::of_first(line, e)) {
            Ok(()) => {}
            Err(_) => unreachable!(),
        }
    }

    // Whether the table should grow for some lines: it would have more than it should, or one of them finds
    // no place though the table is not nearly empty.
    fn is_short(&self, lines: Lines) -> bool {
        if self.held.saturating_add(usize::from(lines.count)) > self.limit {
            return true;
        }
        self.held > self.limit / 4 && some_has_none(self.slots.as_slice(), lines)
    }

    // Lets the table grow, or become fuller where growing finds no place for a record.
    #[inline(never)]
    fn grow(&mut self, alloc: Global) -> Result<(), NoMemory>
        ensures same { SameRecords self.old self.new }
        ensures err { OnErr result (self.new ≡ self.old) }
    {
        match grown(alloc, self.slots.as_slice())? {
            Some(larger) => {
                self.slots = larger;
                self.limit = limit_of(self.slots.len());
                self.is_listed = false;
            }
            None => self.limit = self.held.saturating_mul(8),
        }
        Ok(())
    }

    /// Lets the table grow where it is short of room for some lines.
    pub(crate) fn make_room(&mut self, alloc: Global, lines: Lines) -> Result<(), NoMemory>
        ensures same { SameRecords self.old self.new }
        ensures err { OnErr result (self.new ≡ self.old) }
    {
        if !self.is_short(lines) {
            return Ok(());
        }
        self.grow(alloc)
    }

    /// Lets the table grow where it may be short of room for the lines of some items. Without memory for it the
    /// table stays as it is.
    pub(crate) fn make_room_ahead(&mut self, alloc: Global, items: &[Item])
        ensures { SameRecords self.old self.new }
    {
        let more = new_lines(self.slots.as_slice(), items);
        if self.held.saturating_add(more) > self.limit {
            let _ = self.grow(alloc);
        }
    }

    /// How many slots have a line, and how many slots there are.
    #[cfg(test)]
    pub(crate) fn sizes(&self) -> (usize, usize) {
        (self.held, self.slots.len())
    }

    /// The lines in conflict, ascending, each once.
    pub(crate) fn conflicts(&self, alloc: Global) -> Result<Vec<u64>, NoMemory>
        ensures { IfOk result (λ lines. (entries : List Entry) → StandsFor self.now entries
            → AreConflictLines entries lines.items) }
    {
        if self.is_listed {
            return conflict_listed(alloc, self.slots.as_slice(), self.used.as_slice());
        }
        conflict_lines(alloc, self.slots.as_slice())
    }

    /// The records of the slots that have a line.
    pub(crate) fn records(&self, alloc: Global) -> Result<Vec<Record>, NoMemory>
        ensures { IfOk result (λ records. SameRecords self.now records.items) }
    {
        lined(alloc, self.slots.as_slice())
    }

    /// Empties the table, and gives it back where it is much larger than what it held.
    pub(crate) fn clear(&mut self, alloc: Global)
        ensures { All (λ (r : Record). r.line % 64 ≢ 0) self.new }
    {
        if self.slots.len() / 16 > self.held.saturating_add(64) {
            self.slots = Vec::new(alloc);
            self.limit = 0;
        } else if self.is_listed {
            free_listed(self.slots.as_mut_slice(), self.used.as_slice());
        } else {
            free_all(self.slots.as_mut_slice());
        }
        self.used.clear();
        self.is_listed = true;
        self.held = 0;
    }
}

fn lined(alloc: Global, slots: &[Record]) -> Result<Vec<Record>, NoMemory>
    ensures { IfOk result (λ records. SameRecords slots.now records.items) }
{
    let mut records = Vec::new(alloc);
    for slot in slots {
        if slot.has_line() {
            records.push(*slot)?;
        }
    }
    Ok(records)
}
