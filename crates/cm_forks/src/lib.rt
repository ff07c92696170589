//! The paths of decisions, each once and in order, by forks; what a question is stands elsewhere.
#![tactic(auto)]

mod advance;
mod descent;
mod fault;
mod fork;
mod limits;
mod node;
mod outcome;
mod paths;

pub use fault::Fault;
pub use limits::Limits;
pub use node::{Ask, Node};
pub use paths::Paths;
