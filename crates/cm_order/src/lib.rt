//! Integers: the bounds of their differences, and which orders they allow.
#![tactic(auto)]

mod bounds;
mod shells;

pub use bounds::{Bounds, OrderMask};

#[cfg(test)]
mod tests;
