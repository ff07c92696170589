//! The words of the command line, as the task that they give.
#![tactic(auto)]

mod form;
mod judge;
mod matches;
mod name;
mod number;
mod pair;
mod posix;
mod task;
mod words;

pub use task::{Task, WordsFault};
pub use words::read_words;

#[cfg(test)]
mod tests;
