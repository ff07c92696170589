//! What a pair of calls does on terms beside what it does on their values.
#![tactic(auto)]

mod laws;
mod verdict;

pub use laws::nodes_are_right;
pub use verdict::Verdict;
