//! Numbers among the words.

ghost use Rattle.std.specs.Prelude.{ℕ, MatchOption, option_map};
ghost use Rattle.cm_words.specs.Values.{IsNumberIn, IsNumberOr};

use cm_text::read_u64;

/// The number that the text writes, if it is in the range.
pub fn number_in(text: &str, least: u32, most: u32) -> Option<u32>
    ensures { MatchOption result
        ((n : ℕ) → ¬ IsNumberIn least most text.now n)
        (λ n. IsNumberIn least most text.now n) }
{
    let Ok(n) = read_u64(text.as_bytes(), most as u64) else {
        return None;
    };
    if n < least as u64 {
        return None;
    }
    Some(n as u32)
}

/// The number of an option that has this text: `absent` where it is not given, and none where its text writes no number
/// in the range.
pub fn number_or(text: Option<&str>, absent: u32, least: u32, most: u32) -> Option<u32>
    ensures { MatchOption result
        ((n : ℕ) → ¬ IsNumberOr absent least most (option_map (λ t. t.now) text.entry) n)
        (λ n. IsNumberOr absent least most (option_map (λ t. t.now) text.entry) n) }
{
    match text {
        Some(text) => number_in(text, least, most),
        None => Some(absent),
    }
}
