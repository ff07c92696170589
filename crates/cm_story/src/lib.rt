//! The story of a pair of calls on values, and what a world's two orders do beside it.
#![tactic(auto)]

mod laws;

pub use laws::{Ran, locality, run_by};
