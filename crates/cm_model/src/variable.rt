//! Variables of the decision procedure.

/// A variable that stands for an element of a sort, by its number.
#[derive(Clone, Copy, Debug, PartialEq, Eq)]
pub struct SortVar(pub u64);

/// A variable that stands for an integer, by its number.
#[derive(Clone, Copy, Debug, PartialEq, Eq)]
pub struct IntVar(pub u64);
