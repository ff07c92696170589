//! Literals: what a case says of symbols.

use cm_term::Sym;

/// How one number stands to another.
#[derive(Clone, Copy, Debug, PartialEq, Eq)]
pub enum Ord3 {
    Less,
    Equal,
    Greater,
}

/// What is said of one symbol, or of two of which `x` is the earlier one.
#[derive(Drop)]
pub enum Literal {
    /// Two elements of a sort are one.
    Same { x: Sym, y: Sym },
    /// Two elements of a sort are two.
    Differ { x: Sym, y: Sym },
    /// A number that is so much more than the one of `x` stands so to the one of `y`.
    Order { x: Sym, plus: i64, op: Ord3, y: Sym },
    /// A number stands so to a fixed one.
    Against { x: Sym, op: Ord3, n: i64 },
    /// A number that is so much more is from `lo` to `hi`, both included.
    Within { x: Sym, plus: i64, lo: i64, hi: i64 },
    /// A value of an enum is the variant with this number.
    Tag { x: Sym, index: u16 },
    /// An option is none.
    IsNone(Sym),
    /// An option is some.
    IsSome(Sym),
}
