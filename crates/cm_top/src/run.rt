//! A trace, read and judged from a stream.

ghost use Rattle.std.specs.Prelude.{◌≡◌, ◌+◌, ◌-◌, ◌^◌, ◌<◌, ◌≤◌, ◌++◌, [], ℕ, List, All, length, IfErr, IfOk, OnOk};
ghost use Rattle.cm_mtrace.specs.Trace.{IsItem, Section, items_of};
ghost use Rattle.cm_mtrace.specs.declared.Item.{Item};
ghost use Rattle.cm_top.specs.inner.Sections.{Have};

use crate::sections::{Judged, Sections};
use cm_model::NoMemory;
use cm_mtrace::{Item, Reader, TraceFault};
use std::alloc::Global;

/// Reads and judges a trace that comes in pieces. After a bad line it only takes the pieces.
#[derive(Debug, Drop)]
pub struct Run {
    pub reader: Reader,
    pub sections: Sections,
    pub items: Vec<Item>,
}

// For how many items room is made at once.
const BATCH: usize = 32;

// Adds some items in order, once room is made for them.
fn add_batch(sections: &mut Sections, items: &[Item]) -> Result<(), NoMemory>
    requires { All IsItem items.now }
    ensures { OnOk result ((before rest : List Item) (all : List Section) → Have sections.old before
        → items_of all ≡ before ++ items.now ++ rest → Have sections.new (before ++ items.now)) }
{
    sections.make_room(items);
    for item in items {
        sections.add(item)?;
    }
    Ok(())
}

// Adds the items in order. A function of its own, so that the loops that most time goes to have the registers.
#[inline(never)]
fn add_all(sections: &mut Sections, items: &[Item]) -> Result<(), NoMemory>
    requires { All IsItem items.now }
    ensures { OnOk result ((before : List Item) (all : List Section) → Have sections.old before
        → items_of all ≡ before ++ items.now → Have sections.new (before ++ items.now)) }
{
    for batch in items.chunks(BATCH) {
        add_batch(sections, batch)?;
    }
    Ok(())
}

impl Run {
    ghost use Rattle.cm_mtrace.specs.Reader.{StandsFor};
    ghost use Rattle.cm_top.specs.inner.Run.{HasRead, IsJudgedAs, NamesBad, count_of};

    pub fn new(alloc: Global) -> Run
        ensures start { HasRead result [] }
        ensures none { count_of result ≡ 0 }
    {
        Run {
            reader: Reader::new(alloc),
            sections: Sections::new(alloc),
            items: Vec::new(alloc),
        }
    }

    /// Takes the next piece of the stream.
    pub fn feed(&mut self, piece: &[u8]) -> Result<(), NoMemory>
        requires { count_of self.old + length piece.now < 2 ^ 64 - 1 }
        ensures reads { OnOk result ((text : List ℕ) → HasRead self.old text → HasRead self.new (text ++ piece.now)) }
        ensures counted { OnOk result (count_of self.new ≤ count_of self.old + length piece.now) }
    {
        self.items.clear();
        match self.reader.feed(piece, &mut self.items) {
            Ok(()) => add_all(&mut self.sections, &self.items),
            Err(TraceFault::BadLine { .. }) => Ok(()),
            Err(TraceFault::Memory) => Err(NoMemory),
        }
    }

    /// Ends the stream: gives its judged sections, or the first bad line.
    pub fn finish(mut self) -> Result<Vec<Judged>, TraceFault>
        ensures judged { IfOk result (λ judged. (text : List ℕ) → HasRead self text → IsJudgedAs text judged.items) }
        ensures bad { IfErr result (λ f. (text : List ℕ) → HasRead self text → NamesBad text f) }
    {
        if let Err(fault) = self.reader.finish() {
            return Err(fault);
        }
        let Run { sections, .. } = self;
        match sections.finish() {
            Ok(judged) => Ok(judged),
            Err(_) => Err(TraceFault::Memory),
        }
    }
}
