//! Variables and constants of which terms and questions are made.

use cm_model::IntVar;

/// A variable that stands for a variant of an enum, by its number.
#[derive(Clone, Copy, PartialEq, Eq)]
pub struct TagVar(pub u64);

/// A variable that stands for whether an option is there, by its number.
#[derive(Clone, Copy, PartialEq, Eq)]
pub struct OptVar(pub u64);

/// An integer.
#[derive(Clone, Copy, PartialEq, Eq)]
pub enum Num {
    /// This number.
    Const(i64),
    /// A variable's value and this much more, its offset.
    Plus(IntVar, i64),
}

/// A variant of an enum.
#[derive(Clone, Copy, PartialEq, Eq)]
pub enum Tag {
    /// The variant `index` of the enum with the number `ty`.
    Const { ty: u16, index: u16 },
    /// A variable's variant.
    Var(TagVar),
}

/// Whether an option is there.
#[derive(Clone, Copy, PartialEq, Eq)]
pub enum Opt {
    /// It is none.
    None,
    /// It is some value.
    Some,
    /// It is there where the variable says so.
    Var(OptVar),
}
