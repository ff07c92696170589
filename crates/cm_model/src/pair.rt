//! Pairs of calls, and the limits that a pair may pass.

/// Two calls by their numbers, `a` at most `b`.
#[derive(Clone, Copy, Debug, PartialEq, Eq)]
pub struct Pair {
    pub a: u16,
    pub b: u16,
}

/// Which limit a pair passes.
#[derive(Clone, Copy, Debug, PartialEq, Eq)]
pub enum Over {
    /// It has more paths than were asked for.
    Paths,
    /// A path has more than 1,024 decisions.
    Long,
    /// A path touches more than 48 cells.
    Cells,
}
