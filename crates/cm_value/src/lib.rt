//! Values of a model's types: their comparison, membership, least values, copies, and the exchange of two
//! elements of a sort.
//!
//! Each call that follows a value or a type goes as deep as the type nests. A type in use, those of all
//! expressions of a model among them, has a width of at most `limits::WIDTH`, and each level of nesting adds one
//! to the width: so no call is more than 32 levels deep on values of a model.
#![tactic(auto)]

mod compare;
mod copy;
mod least_value;
mod membership;
mod relabelling;
mod value;

pub use compare::same;
pub use copy::{copy_value, copy_values};
pub use least_value::least;
pub use membership::member;
pub use relabelling::relabel;
pub use value::{Swap, Vals, Value};

#[cfg(test)]
mod tests;
