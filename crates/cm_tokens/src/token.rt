//! Tokens.

use cm_model::{Name, Place};

/// A token of a model's text.
#[derive(Drop)]
pub enum Token {
    /// A name of at most 40 bytes that is no reserved word.
    Name(Name),
    /// A numeral of 1 to 7 digits without a needless leading zero.
    Number(u32),
    And,
    Assume,
    Bool,
    Call,
    Case,
    Else,
    Enum,
    False,
    Fn,
    If,
    Int,
    Internal,
    It,
    Let,
    Map,
    /// The word `none`.
    Nothing,
    Not,
    Option,
    Or,
    Record,
    Return,
    /// The word `some`.
    Something,
    Sort,
    State,
    True,
    Where,
    With,
    Semicolon,
    Colon,
    Comma,
    Dot,
    DotDot,
    OpenRound,
    CloseRound,
    OpenSquare,
    CloseSquare,
    OpenCurly,
    CloseCurly,
    /// The mark `=`.
    Assign,
    /// The mark `==`.
    Equal,
    NotEqual,
    Less,
    AtMost,
    Greater,
    AtLeast,
    Plus,
    Minus,
    Arrow,
    /// A token that the grammar allows nowhere: a longer name, a longer run of digits, a needless
    /// leading zero, or a byte that begins no token.
    Foreign,
    /// The end of the text.
    End,
}

/// A token and the place of its first byte.
#[derive(Drop)]
pub struct Placed {
    pub token: Token,
    pub at: Place,
}
