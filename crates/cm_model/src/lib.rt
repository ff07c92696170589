//! Base types of the analyser: want of memory, names and lists.
#![tactic(auto)]

mod body;
pub mod limits;
mod memory;
mod model;
mod name;
mod pair;
mod place;
mod ty;
mod variable;

pub use body::{Call, Expr, Op, SetField, StateDecl, Stmt};
pub use memory::NoMemory;
pub use model::Model;
pub use name::Name;
pub use pair::{Over, Pair};
pub use place::Place;
use sqlite_items::Items;
pub use ty::{EnumDecl, IntDecl, Part, RecDecl, Ty};
pub use variable::{IntVar, SortVar};

/// A sequence that contracts see as the list of its items.
pub type List<T> = Items<T>;

/// An owned value on the heap, for types that lead back to themselves.
pub type Boxed<T> = sqlite_items::Boxed<T>;

#[cfg(test)]
mod tests;
