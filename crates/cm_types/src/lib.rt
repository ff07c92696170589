//! The type checker: the tree of a text becomes a model, or the first type rule that fails is named.
//!
//! The walk of `cm_typing` leaves tables. Where no rule fails in a tree that was read, they are well typed and so a
//! model, of which the rule on least values is then asked.
#![tactic(auto)]

mod model;

pub use cm_typing::TypeFault;
pub use model::check;
