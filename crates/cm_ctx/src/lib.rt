//! What is known of the unknown values of a run: a context of facts on the variables of terms.
#![tactic(auto)]

mod asked;
mod choice;
mod context;
mod elements;
mod facts;
mod grown;
mod making;
mod mask;
mod naming;
mod numbers;
mod piece;
mod steps;

pub use choice::{Choice, Known};
pub use context::{Ctx, terms_are_named, terms_have_values};
pub use facts::Facts;
pub use mask::Mask;
pub use piece::{Counts, ElementPart, NumberPart, OptionPart, Piece, TagPart, Variables};
pub use steps::Steps;

#[cfg(test)]
mod tests;
