//! A cursor in a text, with its place.

ghost use Rattle.std.specs.Prelude.{◌≡◌, ◌+◌, ◌-◌, ◌^◌, ◌<◌, ◌≤◌, drop, length, slice_get, MatchOption};
ghost use Rattle.std.specs.List.{prefix_len};
ghost use Rattle.cm_text.specs.Place.{is_in_line, place_in};

use cm_model::Place;
use std::marker::Model;

/// Reads a text byte by byte. Contracts see the text and how many of its bytes are behind.
#[derive(Drop)]
pub struct Cursor<'a> {
    bytes: &'a [u8],
    at: usize,
    line: u32,
    // How many bytes stand before the line.
    before: usize,
}

impl<'a> Model for Cursor<'a> {
    ghost use Rattle.cm_text.specs.Standing.{IsKept, Standing, standing_code};

    ghost Value = { Standing };

    ghost coded = { standing_code };

    ghost view = { λ c. record { text = c.bytes.now; at = c.at } };

    ghost invariant = { λ c. IsKept c.bytes.now c.at c.line c.before };
}

impl<'a> Cursor<'a> {
    /// Stands before the first byte.
    pub fn new(bytes: &'a [u8]) -> Cursor<'a>
        requires { length bytes.now < 2 ^ 32 - 1 }
        ensures { result ≡ record { text = bytes.entry.now; at = 0 } }
    {
        Cursor {
            bytes,
            at: 0,
            line: 1,
            before: 0,
        }
    }

    /// The next byte; none at the end.
    #[inline(always)]
    pub fn peek(&self) -> Option<u8>
        ensures { result ≡ slice_get self.now.text self.now.at }
    {
        self.bytes.get(self.at).copied()
    }

    /// Takes the next byte; none at the end, where the cursor stays.
    #[inline(always)]
    pub fn next(&mut self) -> Option<u8>
        ensures gives { result ≡ slice_get self.old.text self.old.at }
        ensures moves { MatchOption result (self.new ≡ self.old) (λ _. self.new ≡ record self.old {
          at =
              self.old.at + 1;
        }) }
    {
        let Some(byte) = self.peek() else {
            return None;
        };
        self.at += 1;
        if byte == b'\n' {
            self.line += 1;
            self.before = self.at;
        }
        Some(byte)
    }

    /// The place of the next byte, at the end one past the last byte.
    #[inline(always)]
    pub fn place(&self) -> Place
        ensures { result ≡ place_in self.now.text self.now.at }
    {
        Place {
            line: self.line,
            col: (self.at - self.before + 1) as u32,
        }
    }

    /// The bytes from the next one on.
    #[inline(always)]
    pub fn rest(&self) -> &'a [u8]
        ensures { result.now ≡ drop self.now.at self.now.text }
    {
        &self.bytes[self.at..]
    }

    /// Takes so many bytes of the line at once.
    #[inline(always)]
    pub fn skip(&mut self, count: usize)
        requires { count ≤ prefix_len is_in_line (drop self.old.at self.old.text) }
        ensures { self.new ≡ record self.old { at = self.old.at + count } }
    {
        self.at += count;
    }
}
