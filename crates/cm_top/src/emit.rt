//! Pieces put to a sink.

ghost use Rattle.std.specs.Prelude.{◌≡◌, ◌∷◌, ◌++◌, ◌≤◌, [], IsErrOf, map};
ghost use Rattle.cm_io.specs.Causes.{Rose};
ghost use Rattle.cm_io.specs.Sink.{PutTakes};
ghost use Rattle.cm_top.specs.Output.{closing, header};
ghost use Rattle.cm_top.specs.inner.Pieces.{PutsAll, piece_of, pieces_of};

use crate::output::push_section;
use crate::sections::Judged;
use cm_io::Sink;
use std::alloc::Global;

/// Why the output was cut short.
#[derive(Clone, Copy, Debug, PartialEq, Eq)]
pub enum Cut {
    WriteFault,
    Memory,
}

/// Puts a piece.
pub fn put_piece<O: Sink>(out: &mut O, piece: &[u8]) -> Result<(), Cut>
    ensures taken { PutTakes (O.written out.old) (O.written out.new) result piece.now }
    ensures later { O.faults out.old ≤ O.faults out.new }
    ensures cause { IsErrOf result Cut.WriteFault → Rose (O.faults out.old) (O.faults out.new) }
{
    match out.put(piece) {
        Ok(()) => Ok(()),
        Err(_) => Err(Cut::WriteFault),
    }
}

// Puts the piece of a section, which is made in the buffer.
fn put_section<O: Sink>(out: &mut O, judged: &Judged, piece: &mut Vec<u8>) -> Result<(), Cut>
    ensures taken { PutTakes (O.written out.old) (O.written out.new) result (piece_of judged.now) }
    ensures later { O.faults out.old ≤ O.faults out.new }
    ensures cause { IsErrOf result Cut.WriteFault → Rose (O.faults out.old) (O.faults out.new) }
{
    piece.clear();
    if push_section(judged.name.as_bytes(), judged.lines.as_slice(), piece).is_err() {
        return Err(Cut::Memory);
    }
    put_piece(out, piece)
}

// Puts the pieces of the sections, in order.
fn put_sections<O: Sink>(alloc: Global, out: &mut O, judged: &[Judged]) -> Result<(), Cut>
    ensures taken { PutsAll (O.written out.old) (O.written out.new) result (map piece_of judged.now) }
    ensures later { O.faults out.old ≤ O.faults out.new }
    ensures cause { IsErrOf result Cut.WriteFault → Rose (O.faults out.old) (O.faults out.new) }
{
    let mut piece = Vec::new(alloc);
    for section in judged {
        if let Err(cut) = put_section(out, section, &mut piece) {
            return Err(cut);
        }
    }
    Ok(())
}

/// Puts the whole output: the header, a piece a section, and the closing line.
pub fn put_all<O: Sink>(alloc: Global, out: &mut O, judged: &[Judged]) -> Result<(), Cut>
    ensures taken { PutsAll (O.written out.old) (O.written out.new) result (pieces_of judged.now) }
    ensures later { O.faults out.old ≤ O.faults out.new }
    ensures cause { IsErrOf result Cut.WriteFault → Rose (O.faults out.old) (O.faults out.new) }
{
    if let Err(cut) = put_piece(out, b"commuter judge 1\n") {
        return Err(cut);
    }
    if let Err(cut) = put_sections(alloc, out, judged) {
        return Err(cut);
    }
    put_piece(out, b"done\n")
}
