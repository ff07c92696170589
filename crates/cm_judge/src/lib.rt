//! Finds the cache lines on which the two calls of a test conflict.
#![tactic(auto)]

mod grow;
mod judge;
mod line;
mod merge;
mod slots;
mod summary;
mod table;

pub use judge::Judge;
pub use line::{Lines, lines_of};

#[cfg(test)]
mod tests;
