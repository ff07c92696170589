//! What the facts and the cells of a path are called in a report.
#![tactic(auto)]

mod key;
mod naming;
mod order;
mod symbol;

pub use key::cell;
pub use naming::literal;
pub use order::is_before;
