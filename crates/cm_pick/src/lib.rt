//! Which of the equalities that a path needs are printed.
#![tactic(auto)]

mod picking;
mod standing;

pub use picking::pick;

#[cfg(test)]
mod tests;
