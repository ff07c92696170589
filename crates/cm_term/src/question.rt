//! What a run asks of unknown values.

use crate::{Num, Opt, Tag};
use cm_model::SortVar;

/// What a run asks. Its outcome is the number of a decision.
#[derive(Clone, Copy, PartialEq, Eq)]
pub enum Question {
    /// Two elements of a sort: 0 equal, 1 different.
    Elems(SortVar, SortVar),
    /// Two integers: 0 less, 1 equal, 2 greater.
    Nums(Num, Num),
    /// Where an integer stands to the range from `lo` to `hi`: 0 below, 1 in it, 2 above.
    Range { of: Num, lo: i64, hi: i64 },
    /// The variant of an enum, by its number.
    TagOf(Tag),
    /// Whether an option is there: 0 none, 1 some.
    OptOf(Opt),
}

/// An equality that a comparison needs.
#[derive(Clone, Copy, PartialEq, Eq)]
pub enum Equal {
    /// Two elements of a sort are equal.
    Elems(SortVar, SortVar),
    /// Two integers are equal.
    Nums(Num, Num),
}

/// A question with its outcome.
#[derive(Clone, Copy, PartialEq, Eq)]
pub struct Fact {
    /// What was asked.
    pub question: Question,
    /// What came out.
    pub outcome: u8,
}
