//! A trace from a stream.

ghost use Rattle.std.specs.Prelude.{◌≡◌, ℕ, List, ◌++◌, ◌+◌, ◌-◌, ◌^◌, ◌<◌, ◌≤◌, All, length, take, IfErr, IfOk};
ghost use Rattle.std.specs.Prelude.{IfSome, OnOk};
ghost use Rattle.cm_mtrace.specs.declared.item.Item.{Item};
ghost use Rattle.cm_mtrace.specs.Trace.{GiveItems, IsBadLine, IsItem, IsTrace, Section, items_of, whole_lines};

use crate::piece::read_piece;
use crate::{Item, TraceFault};
use std::alloc::Global;
use std::marker::Model;

/// Reads a trace from a stream that comes in pieces.
#[derive(Debug, Drop)]
pub struct Reader {
    alloc: Global,
    lines: u64,
    left: Vec<u8>,
    fault: Option<TraceFault>,
}

impl Model for Reader {
    ghost use Rattle.cm_mtrace.specs.Reader.{Progress};
    ghost use Rattle.cm_mtrace.specs.inner.Reading.{IsKept};

    ghost Value = { Progress };

    ghost view = { λ r. record { lines = r.lines; left = r.left.items; fault = r.fault } };

    ghost use Rattle.std.specs.Prelude.{◌<◌, ◌-◌, ◌^◌};

    ghost invariant = { λ r. (r.lines < 2 ^ 64 - 1) × IsKept r.left.items };
}

impl Reader {
    ghost use Rattle.std.specs.Prelude.{[]};
    ghost use Rattle.cm_mtrace.specs.Reader.{EndsBad, GaveEarlier, NamesFirst, NamesSeen, StandsFor};

    /// A reader that stands for the empty stream.
    pub fn new(alloc: Global) -> Reader
        ensures { StandsFor result [] }
    {
        Reader {
            alloc,
            lines: 0,
            left: Vec::new(alloc),
            fault: None,
        }
    }

    /// Reads the next piece of the stream, and adds the items of the lines that are whole now. After a fault each call
    /// answers the same fault, and adds nothing.
    pub fn feed(&mut self, piece: &[u8], to: &mut Vec<Item>) -> Result<(), TraceFault>
        // The stream has fewer than 2^64 - 1 bytes.
        requires room { self.old.lines + length self.old.left + length piece.now < 2 ^ 64 - 1 }
        ensures counted { self.new.lines + length self.new.left ≤ self.old.lines + length self.old.left + length
            piece.now }

        // It stands for the longer stream, and gave its items.
        ensures stands { OnOk result ((text : List ℕ) → StandsFor self.old text
            → StandsFor self.new (text ++ piece.now)) }
        ensures given { OnOk result ((given : List Item) × (to.new.items ≡ to.old.items ++ given) × All IsItem given
            × ((text : List ℕ) (items : List Item) → StandsFor self.old text → GiveItems (whole_lines text) items
            → GiveItems (whole_lines (text ++ piece.now)) (items ++ given))) }

        // A line is bad, whatever follows, and it is seen to be; the items before it were given.
        ensures first { IfErr result (λ f. (text : List ℕ) → StandsFor self.old text
            → NamesFirst (text ++ piece.now) f) }
        ensures seen { IfErr result (λ f. (text : List ℕ) → StandsFor self.old text → NamesSeen (text ++ piece.now) f) }
        ensures earlier { IfErr result (GaveEarlier self.old piece.now to.old.items to.new.items) }

        ensures fault { IfErr result (λ f. self.new.fault ≡ Some f) }
        ensures again { IfSome self.old.fault (λ f. (result ≡ Err f) × (to.new.items ≡ to.old.items)) }
    {
        if let Some(fault) = self.fault {
            return Err(fault);
        }
        match read_piece(self.alloc, self.lines, &mut self.left, piece, to) {
            Ok(lines) => {
                self.lines = lines;
                Ok(())
            }
            Err(fault) => self.fail(fault),
        }
    }

    // Keeps a fault, which each call answers from now on.
    fn fail(&mut self, fault: TraceFault) -> Result<(), TraceFault>
        ensures kept { self.new ≡ record self.old { fault = Some fault } }
        ensures result { result ≡ Err fault }
    {
        self.fault = Some(fault);
        Err(fault)
    }

    /// Ends the stream: what it stands for is a trace of the items that were given, or has a bad line. A fault that
    /// came before comes again.
    pub fn finish(&mut self) -> Result<(), TraceFault>
        ensures trace { OnOk result ((text : List ℕ) (items : List Item) → StandsFor self.old text
            → GiveItems (whole_lines text) items
            → (sections : List Section) × IsTrace sections text × (items ≡ items_of sections)) }
        ensures none_bad { OnOk result ((text : List ℕ) → StandsFor self.old text → (line : ℕ)
            → ¬ IsBadLine text line) }
        ensures bad { IfErr result (λ f. (text : List ℕ) → StandsFor self.old text → EndsBad text f) }
        ensures fault { IfErr result (λ f. self.new.fault ≡ Some f) }
        ensures again { IfSome self.old.fault (λ f. result ≡ Err f) }
    {
        if let Some(fault) = self.fault {
            return Err(fault);
        }
        let line = self.lines + 1;
        if !self.left.is_empty() {
            return self.fail(TraceFault::BadLine { line });
        }
        if self.lines == 0 {
            return self.fail(TraceFault::BadLine { line });
        }
        Ok(())
    }
}
