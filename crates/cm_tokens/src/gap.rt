//! What stands between tokens.

ghost use Rattle.std.specs.Prelude.{◌≡◌, ◌+◌, ◌<◌, ◌≤◌, drop, length, MatchBool};
ghost use Rattle.cm_tokens.specs.Gap.{begins_comment, gap_of};

use crate::bytes::{is_space, line_len};
use cm_text::Cursor;

#[inline(always)]
fn begins_comment(text: &[u8]) -> bool
    ensures { result ≡ begins_comment text.now }
{
    matches!(text, [b'/', b'/', ..])
}

// Takes a space or a comment, if one stands there.
#[inline(always)]
fn skip_one(cursor: &mut Cursor<'_>) -> bool
    ensures text { cursor.new.text ≡ cursor.old.text }
    ensures gap { cursor.new.at + gap_of (drop cursor.new.at cursor.new.text) ≡ cursor.old.at + gap_of
        (drop cursor.old.at cursor.old.text) }
    ensures moves { MatchBool result (cursor.old.at < cursor.new.at) ((cursor.new ≡ cursor.old)
        × (gap_of (drop cursor.old.at cursor.old.text) ≡ 0)) }
{
    let Some(byte) = cursor.peek() else {
        return false;
    };
    if is_space(byte) {
        let _ = cursor.next();
        return true;
    }
    let rest = cursor.rest();
    if begins_comment(rest) {
        cursor.skip(line_len(rest));
        return true;
    }
    false
}

/// Takes the spaces and comments before the next token.
#[inline(always)]
pub fn skip_gap(cursor: &mut Cursor<'_>)
    ensures moves { cursor.new ≡ record cursor.old { at = cursor.old.at + gap_of (drop cursor.old.at cursor.old.text) } }
    ensures stops { gap_of (drop cursor.new.at cursor.new.text) ≡ 0 }
{
    'gap: while skip_one(cursor) {}
}
