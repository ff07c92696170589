//! A shelf of files to read and a sink of bytes to write, and small ones in memory.
#![tactic(auto)]

mod failed;
mod mem_shelf;
mod mem_sink;
mod shelf;
mod sink;

pub use failed::Failed;
pub use mem_shelf::{MemFile, MemShelf, names_differ};
pub use mem_sink::{MemSink, PutFail};
pub use shelf::Shelf;
pub use sink::Sink;

#[cfg(test)]
mod tests;
