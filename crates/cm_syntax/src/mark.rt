//! Marks and words of the grammar.

/// A token that may have to come next, whatever stands before it.
#[derive(Clone, Copy, PartialEq, Eq)]
pub enum Mark {
    Semicolon,
    Colon,
    DotDot,
    OpenRound,
    CloseRound,
    CloseSquare,
    OpenCurly,
    CloseCurly,
    Assign,
    Arrow,
    Nothing,
    Something,
    Internal,
}
