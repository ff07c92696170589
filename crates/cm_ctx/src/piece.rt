//! What is made for a symbol.

use cm_model::List;
use cm_term::{Root, Sym, Term};

/// How many variables there are of each kind.
#[derive(Clone, Copy, PartialEq, Eq)]
pub struct Counts {
    /// Of sorts.
    pub elements: u64,
    /// Of integer types, with the constant 0.
    pub numbers: u64,
    /// Of enums.
    pub tags: u64,
    /// Of options.
    pub options: u64,
}

/// A variable that stands for an element.
#[derive(Drop)]
pub struct ElementPart {
    /// The number of its sort.
    pub sort: u16,
    /// Which part of a value it is.
    pub sym: Sym,
}

/// A variable that stands for an integer.
#[derive(Drop)]
pub struct NumberPart {
    /// The least number that it may be.
    pub lo: i64,
    /// The greatest one.
    pub hi: i64,
    /// Which part of a value it is.
    pub sym: Sym,
}

/// A variable that stands for a variant of an enum.
#[derive(Drop)]
pub struct TagPart {
    /// How many variants there are.
    pub variants: usize,
    /// Which part of a value it is.
    pub sym: Sym,
}

/// A variable that stands for whether an option is there.
#[derive(Drop)]
pub struct OptionPart {
    /// The term of its payload, whether it is there or not.
    pub payload: Term,
    /// Which part of a value the option is.
    pub sym: Sym,
}

/// Variables of each kind, by their numbers.
#[derive(Drop)]
pub struct Variables {
    pub elements: List<ElementPart>,
    pub numbers: List<NumberPart>,
    pub tags: List<TagPart>,
    pub options: List<OptionPart>,
}

/// What was made for one symbol.
#[derive(Drop)]
pub struct Piece {
    /// The symbol; it has no steps.
    pub root: Root,
    /// Its term.
    pub term: Term,
    /// How many variables there were before it.
    pub from: Counts,
    /// Its variables, those in payloads included.
    pub variables: Variables,
}
