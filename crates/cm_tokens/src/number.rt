//! Numerals.

ghost use Rattle.std.specs.Prelude.{◌≡◌, ◌≤◌, length};
ghost use Rattle.std.specs.Char.{is_ascii_digit};
ghost use Rattle.std.specs.List.{AllPass};
ghost use Rattle.std.specs.Str.Parse.{digits_value};
ghost use Rattle.cm_tokens.specs.First.{number_of, run_of};

use crate::bytes::digits_len;
use crate::token::Token;

// A numeral has at most so many digits.
const MOST_DIGITS: usize = 7;

fn value(digits: &[u8]) -> u32
    requires digits { AllPass is_ascii_digit digits.now }
    requires short { length digits.now ≤ 7 }
    ensures { result ≡ digits_value 10 digits.now }
{
    let mut n = 0;
    for digit in digits {
        n = n * 10 + u32::from(*digit - b'0');
    }
    n
}

// The token of a whole run of digits.
#[tactic(auto, unfolding(crate::specs::First::number_of))]
fn number_token(digits: &[u8]) -> Token
    requires { AllPass is_ascii_digit digits.now }
    ensures { result ≡ number_of digits.now }
{
    if digits.len() > MOST_DIGITS {
        return Token::Foreign;
    }
    match digits {
        [b'0', _, ..] => Token::Foreign,
        _ => Token::Number(value(digits)),
    }
}

/// The run of digits at the front as a token, and its length.
#[inline(always)]
pub fn number(text: &[u8]) -> (Token, usize)
    ensures { result ≡ run_of is_ascii_digit number_of text.now }
{
    let len = digits_len(text);
    (number_token(&text[..len]), len)
}
