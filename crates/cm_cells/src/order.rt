//! The two orders of a pair of calls.

/// An order of the two calls of a pair.
#[derive(Clone, Copy, PartialEq, Eq)]
pub enum Order {
    /// First a, then b.
    Ab,
    /// First b, then a.
    Ba,
}
