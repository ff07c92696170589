//! Worlds whose elements have other names do alike.
#![tactic(auto)]

mod laws;
mod worlds;

pub use laws::{Relabelled, relabelling, renaming};
pub use worlds::relabel_world;
