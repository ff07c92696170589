//! Why a run stopped before its end.

/// Why a run stopped before its end.
#[derive(Clone, Copy, Debug, PartialEq, Eq)]
pub enum Stop {
    ReadFault,
    TooLong,
    /// The first bad line, counted from 1.
    Refused { line: u64 },
    WriteFault,
    Memory,
}
