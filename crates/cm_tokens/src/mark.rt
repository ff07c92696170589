//! Marks.

ghost use Rattle.std.specs.Prelude.{◌≡◌, if◌then◌else◌, nat_eq, [], ◌∷◌};
ghost use Rattle.std.specs.List.{starts_with};
ghost use Rattle.cm_tokens.specs.First.{mark_of};

use crate::token::Token;

// Two bytes where the second is this one, else one byte.
#[inline(always)]
fn two_or_one(behind: &[u8], second: u8, two: Token, one: Token) -> (Token, usize)
    ensures { result ≡ (if starts_with nat_eq behind.now (second ∷ []) then (two, 2) else (one, 1)) }
{
    match behind {
        [byte, ..] if *byte == second => (two, 2),
        _ => (one, 1),
    }
}

/// The mark at the front of a text, by its first byte and what stands behind it, and the mark's length. A byte
/// that begins no mark is no token.
#[inline(always)]
#[tactic(auto, unfolding(crate::specs::First::mark_of, crate::specs::Spellings::marks))]
pub fn mark(first: u8, behind: &[u8]) -> (Token, usize)
    ensures { result ≡ mark_of (first ∷ behind.now) }
{
    match first {
        b';' => (Token::Semicolon, 1),
        b':' => (Token::Colon, 1),
        b',' => (Token::Comma, 1),
        b'.' => two_or_one(behind, b'.', Token::DotDot, Token::Dot),
        b'(' => (Token::OpenRound, 1),
        b')' => (Token::CloseRound, 1),
        b'[' => (Token::OpenSquare, 1),
        b']' => (Token::CloseSquare, 1),
        b'{' => (Token::OpenCurly, 1),
        b'}' => (Token::CloseCurly, 1),
        b'=' => two_or_one(behind, b'=', Token::Equal, Token::Assign),
        b'!' => two_or_one(behind, b'=', Token::NotEqual, Token::Foreign),
        b'<' => two_or_one(behind, b'=', Token::AtMost, Token::Less),
        b'>' => two_or_one(behind, b'=', Token::AtLeast, Token::Greater),
        b'+' => (Token::Plus, 1),
        b'-' => two_or_one(behind, b'>', Token::Arrow, Token::Minus),
        _ => (Token::Foreign, 1),
    }
}
