//! A number at the front of a text.

ghost use Rattle.std.specs.Prelude.{◌≡◌, ◌≢◌, ℕ, ◌+◌, ◌*◌, List, ◌++◌, ◌≤◌, ◌<◌, ◌^◌, ◌%◌, decimal, length};
ghost use Rattle.std.specs.Prelude.{slice_index, take, MatchBool, MatchOption};
ghost use Rattle.std.specs.Str.Parse.{digits_value};
ghost use Rattle.cm_text.specs.Numeral.{BeginsWithDigit, hexadecimal, numeral};
ghost use Rattle.cm_text.specs.Run.{IsRun, WritesMore};

use crate::digit::digit;

// The number with one digit more, if it is at most `most`.
#[inline(always)]
fn with_digit(n: u64, d: u64, base: u64, most: u64) -> Option<u64>
    requires some { 0 < base }
    requires fits { n ≤ most }
    ensures { MatchOption result (most < n * base + d) (λ m. (m ≡ n * base + d) × (m ≤ most)) }
{
    if n > most / base {
        return None;
    }
    let shifted = n * base;
    if d > most - shifted {
        return None;
    }
    Some(shifted + d)
}

// The number that the digits at the front write, if it is at most `most`, and how many they are.
#[inline(always)]
fn digits_at(text: &[u8], base: u64, most: u64) -> Option<(u64, usize)>
    requires low { 2 ≤ base }
    requires high { base ≤ 16 }
    ensures { MatchOption result ((count : ℕ) × WritesMore base most text.now count)
        (λ r. IsRun base text.now r.1 r.0 × (r.0 ≤ most)) }
{
    let mut n: u64 = 0;
    for (i, byte) in text.iter().enumerate() {
        let Some(d) = digit(*byte, base) else {
            return Some((n, i));
        };
        let Some(more) = with_digit(n, d, base, most) else {
            return None;
        };
        n = more;
    }
    Some((n, text.len()))
}

// Whether no needless zero leads so many digits.
#[inline(always)]
fn is_plain(text: &[u8], count: usize) -> bool
    requires { count ≤ length text.now }
    ensures { MatchBool result (1 < count → slice_index text.now 0 ≢ 48) ((1 < count) × (slice_index text.now 0 ≡ 48)) }
{
    count <= 1 || text[0] != b'0'
}

// The number whose numeral stands at the front, if it is at most `most`, and what stands behind it.
#[inline(always)]
fn number_at(text: &[u8], base: u64, most: u64) -> Option<(u64, &[u8])>
    requires low { 2 ≤ base }
    requires high { base ≤ 16 }
    ensures { MatchOption result
        ((n : ℕ) (rest : List ℕ) → n ≤ most → ¬ BeginsWithDigit base rest → text.now ≢ numeral base n ++ rest)
        (λ r. (text.now ≡ numeral base r.0 ++ r.1.now) × (r.0 ≤ most) × ¬ BeginsWithDigit base r.1.now) }
{
    let Some((n, count)) = digits_at(text, base, most) else {
        return None;
    };
    if count == 0 {
        return None;
    }
    if !is_plain(text, count) {
        return None;
    }
    Some((n, &text[count..]))
}

// The number that the digits at the front write, modulo 2^64, and how many they are.
#[inline(always)]
fn run_at(text: &[u8], base: u64) -> (u64, usize)
    requires low { 2 ≤ base }
    requires high { base ≤ 16 }
    ensures run { IsRun base text.now result.1 (digits_value base (take result.1 text.now)) }
    ensures value { result.0 ≡ digits_value base (take result.1 text.now) % 2 ^ 64 }
{
    let mut n: u64 = 0;
    for (i, byte) in text.iter().enumerate() {
        let Some(d) = digit(*byte, base) else {
            return (n, i);
        };
        n = n.wrapping_mul(base).wrapping_add(d);
    }
    (n, text.len())
}

// The number whose numeral of at most `longest` digits stands at the front, if it is at most `most`, and
// what stands behind it. Nothing is tested before the last digit.
#[inline(always)]
fn short_number_at(text: &[u8], base: u64, longest: usize, most: u64) -> Option<(u64, &[u8])>
    requires low { 2 ≤ base }
    requires high { base ≤ 16 }
    requires some { 1 ≤ longest }
    requires few { longest ≤ 64 }
    requires holds { most < base ^ longest }
    requires fits { base ^ longest ≤ 2 ^ 64 }
    ensures { MatchOption result
        ((n : ℕ) (rest : List ℕ) → n ≤ most → ¬ BeginsWithDigit base rest → text.now ≢ numeral base n ++ rest)
        (λ r. (text.now ≡ numeral base r.0 ++ r.1.now) × (r.0 ≤ most) × ¬ BeginsWithDigit base r.1.now) }
{
    let (n, count) = run_at(text, base);
    if count == 0 {
        return None;
    }
    if count > longest {
        return None;
    }
    if !is_plain(text, count) {
        return None;
    }
    if n > most {
        return None;
    }
    Some((n, &text[count..]))
}

/// The number whose decimal numeral stands at the front of the text, if it is at most `most`, and what
/// stands behind the numeral. `None` where no such numeral stands there with no digit behind it.
#[inline(always)]
pub fn decimal_at(text: &[u8], most: u64) -> Option<(u64, &[u8])>
    ensures { MatchOption result
        ((n : ℕ) (rest : List ℕ) → n ≤ most → ¬ BeginsWithDigit 10 rest → text.now ≢ decimal n ++ rest)
        (λ r. (text.now ≡ decimal r.0 ++ r.1.now) × (r.0 ≤ most) × ¬ BeginsWithDigit 10 r.1.now) }
{
    number_at(text, 10, most)
}

/// The same for numbers of at most four digits.
#[inline(always)]
pub fn short_decimal_at(text: &[u8], most: u64) -> Option<(u64, &[u8])>
    requires { most < 10000 }
    ensures { MatchOption result
        ((n : ℕ) (rest : List ℕ) → n ≤ most → ¬ BeginsWithDigit 10 rest → text.now ≢ decimal n ++ rest)
        (λ r. (text.now ≡ decimal r.0 ++ r.1.now) × (r.0 ≤ most) × ¬ BeginsWithDigit 10 r.1.now) }
{
    short_number_at(text, 10, 4, most)
}

/// The same in hexadecimal, with digits in lower case, for any number below 2^64.
#[inline(always)]
pub fn hexadecimal_at(text: &[u8]) -> Option<(u64, &[u8])>
    ensures { MatchOption result
        ((n : ℕ) (rest : List ℕ) → n < 2 ^ 64 → ¬ BeginsWithDigit 16 rest → text.now ≢ hexadecimal n ++ rest)
        (λ r. (text.now ≡ hexadecimal r.0 ++ r.1.now) × (r.0 < 2 ^ 64) × ¬ BeginsWithDigit 16 r.1.now) }
{
    short_number_at(text, 16, 16, u64::MAX)
}
