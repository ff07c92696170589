//! The slots of a table of lines.

ghost use Rattle.std.specs.Prelude.{◌≡◌, ◌≢◌, ◌⊎◌, ◌+◌, ◌≤◌, ◌%◌, ◌↔◌, List, IsTrue, false, length, slice_index_or};
ghost use Rattle.cm_mtrace.specs.declared.item.Entry.{Entry};
ghost use Rattle.cm_mtrace.specs.declared.item.Kind.{Kind};
ghost use Rattle.cm_mtrace.specs.declared.item.Who.{Who};
ghost use Rattle.cm_mtrace.specs.declared.item.Who.TheVariants.{Other};
ghost use Rattle.cm_judge.specs.Conflicts.{IsConflictLine};
ghost use Rattle.cm_judge.specs.Summary.{IsSummaryOf};
ghost use Rattle.cm_judge.specs.inner.Table.{first_slot, IsOfFirst, IsPlaceFor};

use crate::summary::LineSummary;
use cm_mtrace::Entry;

/// A line, and what is kept of the accesses to it.
#[derive(Clone, Copy, Debug, PartialEq, Eq)]
pub struct Record {
    pub(crate) line: u64,
    pub(crate) summary: LineSummary,
}

impl Record {
    /// A record of no line: lines are multiples of 64.
    pub(crate) fn free() -> Record
        ensures { result.line % 64 ≢ 0 }
    {
        Record {
            line: u64::MAX,
            summary: LineSummary::blank(),
        }
    }

    pub(crate) fn has_line(&self) -> bool
        ensures { IsTrue result ↔ (self.now.line % 64 ≡ 0) }
    {
        self.line % 64 == 0
    }

    /// Makes it the record of the first access to a line. It is made where it stands: a copy would be read before all
    /// of its parts are written, and wait for them.
    #[inline(always)]
    pub(crate) fn begin(&mut self, line: u64, e: &Entry)
        requires { e.now.who ≢ Other }
        ensures first { IsOfFirst self.new line e.now }
    {
        self.line = line;
        self.summary = LineSummary::blank();
        self.summary.add(e);
    }

    /// A record of the first access to a line.
    pub(crate) fn of_first(line: u64, e: &Entry) -> Record
        requires { e.now.who ≢ Other }
        ensures first { IsOfFirst result line e.now }
    {
        let mut record = Record::free();
        record.begin(line, e);
        record
    }

    /// The record is one of a line, and its accesses conflict there.
    pub(crate) fn is_conflict(&self) -> bool
        ensures yes { IsTrue result
            → (self.now.line % 64 ≡ 0)
            × ((entries : List Entry) → IsSummaryOf self.now.summary entries self.now.line
            → IsConflictLine entries self.now.line) }
        ensures no { result ≡ false → (entries : List Entry) → self.now.line % 64 ≡ 0
            → IsSummaryOf self.now.summary entries self.now.line → ¬ IsConflictLine entries self.now.line }
    {
        self.has_line() & self.summary.is_conflict()
    }
}

/// Where a line has its record, or may get it.
#[derive(Clone, Copy, Debug)]
pub(crate) enum Place {
    Held(usize),
    Free(usize),
    Nowhere,
}

// How many slots may have a line: the one that its address gives, and those behind it.
pub(crate) const WINDOW: usize = 256;

// The slots in which a line may be first are fewer than this.
const MOST: u64 = 0xffff_ffff;

#[tactic(auto, unfolding(crate::specs::inner::Table::first_slot))]
fn first_slot_of(line: u64, slots: usize) -> usize
    requires { WINDOW ≤ slots }
    ensures value { result ≡ first_slot line slots }
    ensures within { result + WINDOW ≤ slots }
{
    let hash = (line / 64).wrapping_mul(0x9e37_79b9_7f4a_7c15) >> 32;
    let firsts = (slots - WINDOW) as u64;
    ((hash * firsts.min(MOST)) >> 32) as usize
}

/// Whether the line has the first slot that it may have.
#[inline(always)]
pub(crate) fn is_in_first(slots: &[Record], line: u64) -> bool
    requires { WINDOW ≤ length slots.now }
    ensures { (d : Record) → IsTrue result
        ↔ ((slice_index_or slots.now (first_slot line (length slots.now)) d).line ≡ line) }
{
    slots[first_slot_of(line, slots.len())].line == line
}

/// The slot that has the line, or is free for it.
#[inline(always)]
pub(crate) fn place_for(slots: &[Record], line: u64) -> Place
    ensures { IsPlaceFor slots.now line result }
{
    if slots.len() < WINDOW {
        return Place::Nowhere;
    }
    let first = first_slot_of(line, slots.len());
    for k in first..first + WINDOW {
        let slot = &slots[k];
        if slot.line == line {
            return Place::Held(k);
        }
        if !slot.has_line() {
            return Place::Free(k);
        }
    }
    Place::Nowhere
}
