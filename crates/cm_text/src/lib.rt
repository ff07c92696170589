//! Numerals in texts, read and written, and a cursor that knows its place.
#![tactic(auto)]

mod cursor;
mod digit;
mod number;
mod numeral;
mod signed;

pub use cursor::Cursor;
pub use number::{decimal_at, hexadecimal_at, short_decimal_at};
pub use numeral::{NotNumber, push_hex, read_hex, read_u64};
pub use signed::{push_i64, read_i64};

#[cfg(test)]
mod tests;
