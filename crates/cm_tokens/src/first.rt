//! The token at the front of a text.

ghost use Rattle.std.specs.Prelude.{◌≡◌, IfOk};
ghost use Rattle.cm_tokens.specs.First.{first_token};

use crate::mark::mark;
use crate::number::number;
use crate::token::Token;
use crate::word::word;
use cm_model::NoMemory;
use std::alloc::Global;

/// The token at the front of a text, and how many bytes it takes.
#[inline(always)]
#[tactic(auto, unfolding(crate::specs::First::first_token))]
pub fn first_token(alloc: Global, text: &[u8]) -> Result<(Token, usize), NoMemory>
    ensures { IfOk result (λ first. first ≡ first_token text.now) }
{
    let [first, behind @ ..] = text else {
        return Ok((Token::End, 0));
    };
    if first.is_ascii_alphabetic() {
        return word(alloc, text);
    }
    if first.is_ascii_digit() {
        return Ok(number(text));
    }
    Ok(mark(*first, behind))
}
