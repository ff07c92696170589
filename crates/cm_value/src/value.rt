//! Values.

use cm_model::{Boxed, List};

/// A value of a type of a model.
#[derive(Drop)]
pub enum Value {
    /// The element of a sort with this number.
    Elem(u64),
    /// A number of an integer type.
    Int(i64),
    /// A variant of an enum by its number, the first being 0.
    Tag(u16),
    /// The values of a record's fields in order.
    Rec(Vals),
    /// The none of an option.
    None,
    /// An option with a payload.
    Some(Boxed<Value>),
}

/// A list of values, such as arguments.
pub type Vals = List<Value>;

/// An exchange of the elements `x` and `y` of one sort.
#[derive(Clone, Copy, Debug, PartialEq, Eq)]
pub struct Swap {
    /// The number of the sort.
    pub sort: u16,
    /// One element.
    pub x: u64,
    /// The other element.
    pub y: u64,
}
