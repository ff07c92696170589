//! Small models for tests, each one whole. Their texts stand at the functions that build them.
#![tactic(auto)]

mod counters;
mod depth;
mod flags;
mod functions;
mod kinds;
mod options;
mod parts;
mod points;
mod registers;

pub use counters::{bounded, inc, max, next};
pub use depth::deepest;
pub use flags::{fire, open, unset};
pub use functions::routines;
pub use kinds::all_kinds;
pub use options::payloads;
pub use points::records;
pub use registers::{map, opt, reg};
