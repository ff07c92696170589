//! Calls run on terms: what a run and the last comparison ask, question by question.
#![tactic(auto)]

mod compare;
mod comparison;
mod copies;
mod decider;
mod forks;
mod operand;
mod run;

pub use compare::{Compare, Next, Progress};
pub use comparison::{Comparison, Met, Sides};
pub use run::{Ask, Run};
