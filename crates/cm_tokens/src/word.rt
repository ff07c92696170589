//! Reserved words and names.

ghost use Rattle.std.specs.Prelude.{◌≡◌, List, ℕ, [], ◌∷◌, unwrap_or, IfOk};
ghost use Rattle.std.specs.List.{AllPass};
ghost use Rattle.cm_tokens.specs.Bytes.{is_name_byte};
ghost use Rattle.cm_tokens.specs.First.{run_of, spelled_or, word_of};
ghost use Rattle.cm_tokens.specs.Spellings.{reserved_words};
ghost use Rattle.cm_tokens.specs.declared.token.Token.{Token};

use crate::bytes::name_len;
use crate::token::Token;
use cm_model::{Name, NoMemory, limits};
use std::alloc::Global;

#[inline(always)]
fn exactly(run: &[u8], word: &[u8], token: Token) -> Option<Token>
    ensures { (other : Token) → unwrap_or result other ≡ spelled_or other ((word.now, token) ∷ []) run.now }
{
    if run == word {
        return Some(token);
    }
    None
}

#[inline(always)]
fn either(
    run: &[u8],
    first: &[u8],
    first_token: Token,
    second: &[u8],
    second_token: Token,
) -> Option<Token>
    ensures { (other : Token) → unwrap_or result other ≡ spelled_or other ((first.now, first_token) ∷ (
      second.now,
      second_token,
    ) ∷ []) run.now }
{
    if run == first {
        return Some(first_token);
    }
    exactly(run, second, second_token)
}

#[inline(always)]
fn behind_i(run: &[u8]) -> Option<Token>
    ensures { (other : Token) → unwrap_or result other ≡ spelled_or other reserved_words (105 ∷ run.now) }
{
    match either(run, b"f", Token::If, b"nt", Token::Int) {
        Some(token) => Some(token),
        None => either(run, b"nternal", Token::Internal, b"t", Token::It),
    }
}

#[inline(always)]
fn behind_s(run: &[u8]) -> Option<Token>
    ensures { (other : Token) → unwrap_or result other ≡ spelled_or other reserved_words (115 ∷ run.now) }
{
    match either(run, b"ome", Token::Something, b"ort", Token::Sort) {
        Some(token) => Some(token),
        None => exactly(run, b"tate", Token::State),
    }
}

// The word's token, by its first byte and what stands behind it; none for a name.
#[inline(always)]
#[tactic(auto, unfolding(crate::specs::Spellings::reserved_words))]
fn reserved(first: u8, behind: &[u8]) -> Option<Token>
    ensures { (other : Token) → unwrap_or result other ≡ spelled_or other reserved_words (first ∷ behind.now) }
{
    match first {
        b'a' => either(behind, b"nd", Token::And, b"ssume", Token::Assume),
        b'b' => exactly(behind, b"ool", Token::Bool),
        b'c' => either(behind, b"all", Token::Call, b"ase", Token::Case),
        b'e' => either(behind, b"lse", Token::Else, b"num", Token::Enum),
        b'f' => either(behind, b"alse", Token::False, b"n", Token::Fn),
        b'i' => behind_i(behind),
        b'l' => exactly(behind, b"et", Token::Let),
        b'm' => exactly(behind, b"ap", Token::Map),
        b'n' => either(behind, b"one", Token::Nothing, b"ot", Token::Not),
        b'o' => either(behind, b"ption", Token::Option, b"r", Token::Or),
        b'r' => either(behind, b"ecord", Token::Record, b"eturn", Token::Return),
        b's' => behind_s(behind),
        b't' => exactly(behind, b"rue", Token::True),
        b'w' => either(behind, b"here", Token::Where, b"ith", Token::With),
        _ => None,
    }
}

fn reserved_word(run: &[u8]) -> Option<Token>
    ensures { (other : Token) → unwrap_or result other ≡ spelled_or other reserved_words run.now }
{
    match run {
        [first, behind @ ..] => reserved(*first, behind),
        [] => None,
    }
}

fn name(alloc: Global, run: &[u8]) -> Result<Name, NoMemory>
    requires { AllPass is_name_byte run.now }
    ensures { IfOk result (λ name. name ≡ run.now) }
{
    let Ok(text) = str::from_utf8(run) else {
        unreachable!();
    };
    Name::from_str(alloc, text)
}

// The token of a whole run that begins with a letter.
#[tactic(auto, unfolding(crate::specs::First::word_of))]
fn word_token(alloc: Global, run: &[u8]) -> Result<Token, NoMemory>
    requires { AllPass is_name_byte run.now }
    ensures { IfOk result (λ token. token ≡ word_of run.now) }
{
    if let Some(token) = reserved_word(run) {
        return Ok(token);
    }
    if run.len() > limits::NAME {
        return Ok(Token::Foreign);
    }
    let name = name(alloc, run)?;
    Ok(Token::Name(name))
}

/// The run of letters, digits and `_` at the front as a token, and its length.
#[inline(always)]
pub fn word(alloc: Global, text: &[u8]) -> Result<(Token, usize), NoMemory>
    ensures { IfOk result (λ first. first ≡ run_of is_name_byte word_of text.now) }
{
    let len = name_len(text);
    let token = word_token(alloc, &text[..len])?;
    Ok((token, len))
}
