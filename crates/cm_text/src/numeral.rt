//! A text that is a numeral whole.

ghost use Rattle.std.specs.Prelude.{◌≡◌, ◌≢◌, ℕ, ◌++◌, ◌≤◌, ◌<◌, ◌^◌, decimal, IfOk, IfErr, OnOk, OnErr};
ghost use Rattle.cm_text.specs.Numeral.{hexadecimal};

use crate::number::{decimal_at, hexadecimal_at};
use cm_model::NoMemory;

/// The text is no numeral of the asked kind, or its number is out of range.
#[derive(Clone, Copy, Debug, PartialEq, Eq)]
pub struct NotNumber;

/// Reads decimal digits without a needless leading zero, at most `most`.
pub fn read_u64(text: &[u8], most: u64) -> Result<u64, NotNumber>
    ensures number { IfOk result (λ n. (text.now ≡ decimal n) × (n ≤ most)) }
    ensures not_number { OnErr result ((n : ℕ) → n ≤ most → text.now ≢ decimal n) }
{
    match decimal_at(text, most) {
        Some((n, rest)) => {
            if rest.is_empty() {
                return Ok(n);
            }
            Err(NotNumber)
        }
        None => Err(NotNumber),
    }
}

/// Reads hexadecimal digits in lower case without a needless leading zero, of a number below 2^64.
pub fn read_hex(text: &[u8]) -> Result<u64, NotNumber>
    ensures number { IfOk result (λ n. text.now ≡ hexadecimal n) }
    ensures not_number { OnErr result ((n : ℕ) → n < 2 ^ 64 → text.now ≢ hexadecimal n) }
{
    match hexadecimal_at(text) {
        Some((n, rest)) => {
            if rest.is_empty() {
                return Ok(n);
            }
            Err(NotNumber)
        }
        None => Err(NotNumber),
    }
}

/// Appends the hexadecimal numeral. Nothing is appended where memory runs out.
pub fn push_hex(n: u64, to: &mut Vec<u8>) -> Result<(), NoMemory>
    ensures ok { OnOk result (to.new.items ≡ to.old.items ++ hexadecimal n) }
    ensures err { OnErr result (to.new.items ≡ to.old.items) }
{
    let text = format!(in *to.allocator(); "{n:x}")?;
    to.extend_from_slice(text.as_bytes())?;
    Ok(())
}
