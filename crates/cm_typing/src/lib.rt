//! The walk of the type checker: the tree of a text becomes tables, or the first type rule that fails is named.
//!
//! A part of a tree is told by one walk in the order of the text to be what it becomes, with its type; the first rule
//! that fails ends the walk. The definitions in `specs` are the same walk, but go on to the end and list each failure.
#![tactic(auto)]

mod decl;
mod expr;
mod fault;
mod flat;
mod names;
mod post;
mod prim;
mod routine;
pub mod rules;
mod scope;
mod stmt;
mod told;
mod types;
mod value;
mod walk;
mod weights;

pub use fault::{TypeFault, rule};
pub use flat::{Base, Flat, Kind};
pub use names::{Entry, Names};
pub use scope::{Draft, Scope};
pub use told::{
    Body, Done, FieldPath, FoundCell, FoundField, FoundMap, Params, Routine, Sets, Steps, Typed,
};
pub use walk::check_tables;
