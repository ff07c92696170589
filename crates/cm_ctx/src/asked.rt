//! What was made for the symbols that were asked for.

ghost use Rattle.std.specs.Prelude.{◌≡◌, ◌↔◌, ◌<◌, ◌≤◌, ◌-◌, ◌+◌, ◌*◌, ◌==◌, ◌++◌, ◌∷◌, [], ℕ, Some, IsTrue, IfOk};
ghost use Rattle.std.specs.Prelude.{if◌then◌else◌, length, replicate, slice_get, slice_index_or};
ghost use Rattle.std.specs.Option.{option_copied};
ghost use Rattle.cm_ctx.specs.declared.piece.Piece.{Piece};
ghost use Rattle.cm_ctx.specs.Contexts.{payloads_in, payloads_of};
ghost use Rattle.cm_ctx.specs.Naming.{syms_of};
ghost use Rattle.cm_ctx.specs.Asking.{IsAmong, IsNew, number_of, with_number};

use crate::naming::{self, Kind};
use crate::piece::Piece;
use cm_model::NoMemory;
use cm_term::{Root, Shared, Sym, Term};
use std::alloc::Global;
use std::marker::Model;

/// What was made for the symbols that were asked for, in the order of asking. It never changes, so that copies of
/// a context share it.
#[derive(Drop)]
pub struct Asked {
    pieces: Vec<Shared<Piece>>,
    /// Of each option, which piece it is part of.
    options: Vec<u16>,
    /// Of each root by its number, one more than the number of its piece; 0 where it wasn't asked for.
    roots: Vec<u16>,
}

impl Model for Asked {
    ghost use Rattle.std.specs.Prelude.{List};
    ghost use Rattle.std.specs.Coded.{coded_list};
    ghost use Rattle.cm_ctx.specs.declared.piece.Piece.{Piece};
    ghost use Rattle.cm_ctx.specs.contracts.piece.Piece as piece;
    ghost use Rattle.cm_ctx.specs.Asking.{IsIndexed};

    ghost Value = { List Piece };

    ghost coded = { coded_list piece.the_row.coded };

    ghost view = { λ a. a.pieces.items };

    ghost invariant = { λ a. IsIndexed a.pieces.items a.options.items a.roots.items };
}

impl Asked {
    /// No symbol was asked for.
    pub fn new(alloc: Global) -> Asked
        ensures { result ≡ [] }
    {
        Asked {
            pieces: Vec::new(alloc),
            options: Vec::new(alloc),
            roots: Vec::new(alloc),
        }
    }

    /// The same with one piece more.
    pub fn with(&self, alloc: Global, piece: Piece) -> Result<Asked, NoMemory>
        requires new { IsNew self.now piece.root }
        requires row { piece.from.options ≡ length (payloads_of self.now) }
        ensures { IfOk result (λ asked. asked ≡ self.now ++ piece ∷ []) }
    {
        let before = self.pieces.as_slice();
        let number = before.len();
        let Ok(next) = u16::try_from(number + 1) else {
            return Err(NoMemory);
        };
        let roots = with_root(alloc, self.roots.as_slice(), root_number(piece.root), next)?;
        let count = piece.variables.options.len();
        let options = with_options(alloc, self.options.as_slice(), count, next - 1)?;
        let pieces = with_piece(alloc, before, piece)?;
        Ok(Asked {
            pieces,
            options,
            roots,
        })
    }

    /// The term of an option's payload.
    pub fn payload(&self, o: u64) -> &Term
        requires { o < length (payloads_of self.now) }
        ensures { slice_get (payloads_of self.now) o ≡ Some result.now }
    {
        let options = self.options.as_slice();
        let pieces = self.pieces.as_slice();
        let number = number_at(options, o as usize);
        let piece = piece_at(pieces, number);
        payload_in(piece, o)
    }

    /// The same, if there is an option with this number.
    pub fn payload_if(&self, o: u64) -> Option<&Term>
        ensures { option_copied result ≡ slice_get (payloads_of self.now) o }
    {
        if o < self.options.len() as u64 {
            return Some(self.payload(o));
        }
        None
    }

    /// The symbol of a variable, by its number among those of its kind.
    pub fn sym_of(&self, kind: Kind, number: u64) -> &Sym
        requires { number < length (syms_of kind self.now) }
        ensures { slice_get (syms_of kind self.now) number ≡ Some result.now }
    {
        naming::sym_of(self.pieces.as_slice(), kind, number as usize)
    }

    /// Whether something was made for a root.
    pub fn has(&self, root: Root) -> bool
        ensures { IsTrue result ↔ ((p : Piece) × IsAmong self.now p × (p.root ≡ root)) }
    {
        let roots = self.roots.as_slice();
        let pieces = self.pieces.as_slice();
        let number = piece_number(roots, root);
        is_of(pieces, number, root)
    }

    /// What was made for a root.
    pub fn piece_of(&self, root: Root) -> &Piece
        requires { (p : Piece) × IsAmong self.now p × (p.root ≡ root) }
        ensures { (p : Piece) → IsAmong self.now p → p.root ≡ root → result.now ≡ p }
    {
        let roots = self.roots.as_slice();
        let pieces = self.pieces.as_slice();
        let number = piece_number(roots, root);
        piece_at(pieces, number)
    }
}

/// The number at this place, or 0 where there is none.
fn number_at(numbers: &[u16], place: usize) -> usize
    ensures { result ≡ slice_index_or numbers.now place 0 }
{
    match numbers.get(place) {
        Some(number) => usize::from(*number),
        None => 0,
    }
}

/// The number of a root's piece.
fn piece_number(roots: &[u16], root: Root) -> usize
    ensures { result ≡ slice_index_or roots.now (number_of root) 0 - 1 }
{
    number_at(roots, root_number(root)).saturating_sub(1)
}

fn piece_at(pieces: &[Shared<Piece>], number: usize) -> &Piece
    requires { number < length pieces.now }
    ensures { slice_get pieces.now number ≡ Some result.now }
{
    pieces[number].get()
}

/// Whether there is a piece with this number, and it is of this root.
fn is_of(pieces: &[Shared<Piece>], number: usize, root: Root) -> bool
    ensures { IsTrue result ↔ ((p : Piece) × (slice_get pieces.now number ≡ Some p) × (p.root ≡ root)) }
{
    if number >= pieces.len() {
        return false;
    }
    is_same(piece_at(pieces, number).root, root)
}

fn is_same(root: Root, other: Root) -> bool
    ensures { IsTrue result ↔ (root ≡ other) }
{
    root == other
}

fn payload_in(piece: &Piece, o: u64) -> &Term
    requires from { piece.now.from.options ≤ o }
    requires within { o - piece.now.from.options < length piece.now.variables.options }
    ensures { slice_get (payloads_in piece.now.variables.options) (o - piece.now.from.options) ≡ Some result.now }
{
    &piece.variables.options.as_slice()[(o - piece.from.options) as usize].payload
}

/// A number for each root.
fn root_number(root: Root) -> usize
    ensures { result ≡ number_of root }
{
    match root {
        Root::A(i) => 3 * usize::from(i),
        Root::B(i) => 3 * usize::from(i) + 1,
        Root::Cell(i) => 3 * usize::from(i) + 2,
    }
}

/// The table with this number at this place.
fn with_root(alloc: Global, roots: &[u16], place: usize, number: u16) -> Result<Vec<u16>, NoMemory>
    ensures { IfOk result (λ grown. (n : ℕ) → slice_index_or grown.items n 0 ≡ with_number roots.now place number n) }
{
    let mut grown = Vec::from_slice(alloc, roots)?;
    'zeros: while grown.len() <= place {
        grown.push(0)?;
    }
    grown[place] = number;
    Ok(grown)
}

/// The list with `count` times this number behind it.
fn with_options(
    alloc: Global,
    options: &[u16],
    count: usize,
    number: u16,
) -> Result<Vec<u16>, NoMemory>
    ensures { IfOk result (λ grown. grown.items ≡ options.now ++ replicate count number) }
{
    let mut grown = Vec::from_slice(alloc, options)?;
    'more: for added in 0..count {
        let _ = added;
        grown.push(number)?;
    }
    Ok(grown)
}

/// The pieces, shared, and one more.
fn with_piece(
    alloc: Global,
    pieces: &[Shared<Piece>],
    piece: Piece,
) -> Result<Vec<Shared<Piece>>, NoMemory>
    ensures { IfOk result (λ grown. grown.items ≡ pieces.now ++ piece ∷ []) }
{
    let mut grown = share_all(alloc, pieces)?;
    grown.push(Shared::new(alloc, piece)?)?;
    Ok(grown)
}

fn share_all(alloc: Global, pieces: &[Shared<Piece>]) -> Result<Vec<Shared<Piece>>, NoMemory>
    ensures { IfOk result (λ shared. shared.items ≡ pieces.now) }
{
    let mut shared = Vec::with_capacity(alloc, pieces.len() + 1)?;
    'pieces: for piece in pieces {
        shared.push(piece.share()?)?;
    }
    Ok(shared)
}
