//! The walk over the paths of a pair: each path once, in order, with what is known where it ends.
#![tactic(auto)]

mod arguments;
mod begin;
mod leaf;
mod prefix;
mod walk;
mod walker;

pub use leaf::Leaf;
pub use prefix::Prefix;
pub use walk::Walk;
pub use walker::{Subject, Walker};
