//! Elements of sorts: which variables are equal, and which differ.
#![tactic(auto)]

mod classes;
mod pairs;
mod words;

pub use classes::Classes;

#[cfg(test)]
mod tests;
