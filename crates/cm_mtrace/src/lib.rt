//! Reads memory traces.
#![tactic(auto)]

mod fault;
mod item;
mod line;
mod piece;
mod reader;
mod step;

pub use fault::TraceFault;
pub use item::{Entry, Item, Kind, Who};
pub use reader::Reader;

#[cfg(test)]
mod tests;
