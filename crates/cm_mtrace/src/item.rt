//! What stands in a trace.

use cm_model::Name;

/// The call that an access belongs to: one of the two that are judged, or neither.
#[derive(Clone, Copy, Debug, PartialEq, Eq)]
pub enum Who {
    A,
    B,
    Other,
}

/// What an access does to the bytes that it covers.
#[derive(Clone, Copy, Debug, PartialEq, Eq)]
pub enum Kind {
    Read,
    Write,
}

/// One memory access.
#[derive(Clone, Copy, Debug, PartialEq, Eq)]
pub struct Entry {
    /// The core that made it, 0 to 1023 in a trace.
    pub core: u16,
    pub who: Who,
    pub kind: Kind,
    /// The address of its first byte.
    pub addr: u64,
    /// How many bytes it covers, 1 to 4096 in a trace.
    pub size: u16,
}

/// What a line behind the first gives: the beginning of a section, or an entry of it.
#[derive(Debug, Drop)]
pub enum Item {
    Test(Name),
    Entry(Entry),
}
