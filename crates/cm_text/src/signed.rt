//! A text that is the numeral of a number with a sign.

ghost use Rattle.std.specs.Prelude.{◌≡◌, ◌≢◌, ℤ, pos, ◌≤ℤ◌, ℕ, suc, ◌∷◌, ◌++◌, ◌<◌, ◌^◌, decimal, FitsSigned, IfOk};
ghost use Rattle.std.specs.Prelude.{MatchBool, OnOk, OnErr};
ghost use Rattle.std.specs.Fmt.{signed_decimal};
ghost use Rattle.std.specs.Int.{w64};

use crate::numeral::{NotNumber, read_u64};
use cm_model::NoMemory;
use itoa::Buffer;

// A number from nought on.
fn read_natural(text: &[u8]) -> Result<i64, NotNumber>
    ensures number { IfOk result (λ n. text.now ≡ signed_decimal n) }
    ensures not_number { OnErr result ((n : ℕ) → n < 2 ^ 63 → text.now ≢ decimal n) }
{
    let Ok(n) = read_u64(text, i64::MAX as u64) else {
        return Err(NotNumber);
    };
    Ok(n as i64)
}

// A number below nought, by what stands behind its `-`.
fn read_below_nought(digits: &[u8]) -> Result<i64, NotNumber>
    ensures number { IfOk result (λ n. 45 ∷ digits.now ≡ signed_decimal n) }
    ensures not_number { OnErr result ((n : ℕ) → n < 2 ^ 63 → digits.now ≢ decimal (suc n)) }
{
    let Ok(n) = read_u64(digits, 1 << 63) else {
        return Err(NotNumber);
    };
    if n == 0 {
        return Err(NotNumber);
    }
    Ok(-1 - (n - 1) as i64)
}

fn read_signed(text: &[u8]) -> Result<i64, NotNumber>
    ensures number { IfOk result (λ n. text.now ≡ signed_decimal n) }
    ensures not_number { OnErr result ((n : ℤ) → FitsSigned w64 n → text.now ≢ signed_decimal n) }
{
    match text {
        [b'-', digits @ ..] => read_below_nought(digits),
        _ => read_natural(text),
    }
}

fn is_within(n: i64, low: i64, high: i64) -> bool
    ensures { MatchBool result ((low ≤ℤ n) × (n ≤ℤ high)) (¬ ((low ≤ℤ n) × (n ≤ℤ high))) }
{
    low <= n && n <= high
}

/// Reads decimal digits without a needless leading zero, with a `-` before them for a number below nought,
/// from `low` to `high`.
pub fn read_i64(text: &[u8], low: i64, high: i64) -> Result<i64, NotNumber>
    ensures number { IfOk result (λ n. text.now ≡ signed_decimal n) }
    ensures range { IfOk result (λ n. (low ≤ℤ n) × (n ≤ℤ high)) }
    ensures not_number { OnErr result ((n : ℤ) → low ≤ℤ n → n ≤ℤ high → text.now ≢ signed_decimal n) }
{
    let Ok(n) = read_signed(text) else {
        return Err(NotNumber);
    };
    if is_within(n, low, high) {
        return Ok(n);
    }
    Err(NotNumber)
}

/// Appends the decimal numeral, with a `-` before a number below nought. Nothing is appended where memory
/// runs out.
pub fn push_i64(n: i64, to: &mut Vec<u8>) -> Result<(), NoMemory>
    ensures ok { OnOk result (to.new.items ≡ to.old.items ++ signed_decimal n) }
    ensures err { OnErr result (to.new.items ≡ to.old.items) }
{
    let mut buffer = Buffer::new();
    to.extend_from_slice(buffer.format(n).as_bytes())?;
    Ok(())
}
