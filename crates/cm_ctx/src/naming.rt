//! The symbols of variables.

ghost use Rattle.std.specs.Prelude.{◌≡◌, ◌<◌, Some, length, slice_get};
ghost use Rattle.cm_ctx.specs.Naming.{syms_in, syms_of};

use crate::piece::Piece;
use cm_term::{Shared, Sym};

/// A kind of variables.
#[derive(Clone, Copy)]
pub enum Kind {
    /// Those of sorts.
    Element,
    /// Those of integer types.
    Number,
    /// Those of enums.
    Tag,
    /// Those of options.
    Option,
}

/// How many variables of a kind a piece has.
fn count(piece: &Piece, kind: Kind) -> usize
    ensures { result ≡ length (syms_in kind piece.now) }
{
    match kind {
        Kind::Element => piece.variables.elements.len(),
        Kind::Number => piece.variables.numbers.len(),
        Kind::Tag => piece.variables.tags.len(),
        Kind::Option => piece.variables.options.len(),
    }
}

/// The symbol of a piece's variable, by its place in the piece.
fn sym_at(piece: &Piece, kind: Kind, place: usize) -> &Sym
    requires { place < length (syms_in kind piece.now) }
    ensures { slice_get (syms_in kind piece.now) place ≡ Some result.now }
{
    match kind {
        Kind::Element => &piece.variables.elements.as_slice()[place].sym,
        Kind::Number => &piece.variables.numbers.as_slice()[place].sym,
        Kind::Tag => &piece.variables.tags.as_slice()[place].sym,
        Kind::Option => &piece.variables.options.as_slice()[place].sym,
    }
}

/// The symbol of a variable, by its number among those of its kind.
pub fn sym_of(pieces: &[Shared<Piece>], kind: Kind, number: usize) -> &Sym
    requires { number < length (syms_of kind pieces.now) }
    ensures { slice_get (syms_of kind pieces.now) number ≡ Some result.now }
{
    let mut left = number;
    'pieces: for piece in pieces {
        let size = count(piece.get(), kind);
        if left < size {
            return sym_at(piece.get(), kind, left);
        }
        left -= size;
    }
    unreachable!()
}
