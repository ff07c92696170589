//! Both orders of a pair of calls on terms and the last comparison, as one run that stops at each question.
#![tactic(auto)]

mod chain;
mod copies;
mod pairs;

pub use chain::{Ask, Calls, Chain, Replies, Stage};
