//! How much is enumerated.

/// The limits of an enumeration.
#[derive(Clone, Copy, Debug, PartialEq, Eq)]
pub struct Limits {
    /// How many paths are given at most.
    pub paths: u32,
    /// How many decisions a path has at most.
    pub decisions: u16,
}
