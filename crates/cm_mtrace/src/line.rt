//! One line of a trace.

ghost use Rattle.std.specs.Prelude.{◌≡◌, ◌≢◌, ◌↔◌, IsTrue, List, ℕ, ◌<◌, ◌≤◌, ◌+◌, ◌^◌, ◌++◌, [], ◌∷◌, ◌==◌, length};
ghost use Rattle.std.specs.Prelude.{codes, IfSome, MatchOption};
ghost use Rattle.cm_mtrace.specs.declared.item.Entry.{Entry};
ghost use Rattle.cm_mtrace.specs.declared.item.Item.TheVariants as items;
ghost use Rattle.cm_mtrace.specs.declared.item.Kind.{Kind};
ghost use Rattle.cm_mtrace.specs.declared.item.Who.{Who};
ghost use Rattle.cm_mtrace.specs.inner.Reading.{IsLine, with_marks, with_size};
ghost use Rattle.cm_mtrace.specs.Trace.{IsEntry, IsNameByte, IsSectionName, kind_text, line_of, mark_text};

use crate::{Entry, Kind, Who};
use cm_text::{hexadecimal_at, short_decimal_at};
use memchr::memchr;

/// The line at the front of a text, and what stands behind its newline.
pub fn cut(text: &[u8]) -> Option<(&[u8], &[u8])>
    ensures { MatchOption result (IsLine text.now) (λ r. IsLine r.0.now × (text.now ≡ r.0.now ++ codes "\n" ++ r.1.now)) }
{
    let i = memchr(b'\n', text)?;
    Some((&text[..i], &text[i + 1..]))
}

// Marks and kinds can't be foreseen: these compile to no branch.
#[inline(always)]
fn is_mark(mark: u8) -> bool
    ensures { IsTrue result ↔ ((w : Who) × (mark ∷ [] ≡ mark_text w)) }
{
    (mark == b'a') | (mark == b'b') | (mark == b'-')
}

#[inline(always)]
fn who(mark: u8) -> Who
    requires { (w : Who) × (mark ∷ [] ≡ mark_text w) }
    ensures { mark ∷ [] ≡ mark_text result }
{
    if mark == b'a' {
        Who::A
    } else if mark == b'b' {
        Who::B
    } else {
        Who::Other
    }
}

#[inline(always)]
fn is_kind(letter: u8) -> bool
    ensures { IsTrue result ↔ ((k : Kind) × (letter ∷ [] ≡ kind_text k)) }
{
    (letter == b'r') | (letter == b'w')
}

#[inline(always)]
fn kind(letter: u8) -> Kind
    requires { (k : Kind) × (letter ∷ [] ≡ kind_text k) }
    ensures { letter ∷ [] ≡ kind_text result }
{
    if letter == b'w' {
        Kind::Write
    } else {
        Kind::Read
    }
}

// The mark and the kind that stand at the front of a text, each behind a space, and what stands behind them.
#[inline(always)]
fn marks_at(text: &[u8]) -> Option<(Who, Kind, &[u8])>
    ensures { MatchOption result ((w : Who) (k : Kind) (rest : List ℕ) → text.now ≢ with_marks w k rest)
        (λ r. text.now ≡ with_marks r.0 r.1 r.2.now) }
{
    let [before, mark, between, letter, after, rest @ ..] = text else {
        return None;
    };
    let spaced = (*before == b' ') & (*between == b' ') & (*after == b' ');
    if !(spaced & is_mark(*mark) & is_kind(*letter)) {
        return None;
    }
    Some((who(*mark), kind(*letter), rest))
}

// What stands behind a byte at the front of a text.
#[inline(always)]
fn behind(text: &[u8], byte: u8) -> Option<&[u8]>
    ensures { MatchOption result ((rest : List ℕ) → text.now ≢ byte ∷ rest) (λ rest. text.now ≡ byte ∷ rest.now) }
{
    match text {
        [first, rest @ ..] if *first == byte => Some(rest),
        _ => None,
    }
}

// The size that ends a line, behind a space, and what stands behind the newline.
#[inline(always)]
fn size_at(text: &[u8]) -> Option<(u64, &[u8])>
    ensures { MatchOption result ((size : ℕ) (rest : List ℕ) → size ≤ 4096 → text.now ≢ with_size size rest)
        (λ r. (r.0 ≤ 4096) × (text.now ≡ with_size r.0 r.1.now)) }
{
    let Some(digits) = behind(text, b' ') else {
        return None;
    };
    let Some((size, rest)) = short_decimal_at(digits, 4096) else {
        return None;
    };
    let Some(rest) = behind(rest, b'\n') else {
        return None;
    };
    Some((size, rest))
}

// Whether so many bytes from an address on are some, and their last has an address.
#[inline(always)]
fn is_in_range(addr: u64, size: u64) -> bool
    ensures { IsTrue result ↔ ((1 ≤ size) × (addr + size ≤ 2 ^ 64)) }
{
    size > 0 && addr <= u64::MAX - (size - 1)
}

/// The entry whose line stands at the front of a text, and what stands behind the line's newline.
#[inline(always)]
pub fn entry_at(text: &[u8]) -> Option<(Entry, &[u8])>
    ensures { MatchOption result ((e : Entry) (rest : List ℕ) → IsEntry e
        → text.now ≢ line_of (items.Entry e) ++ codes "\n" ++ rest)
        (λ r. IsEntry r.0 × (text.now ≡ line_of (items.Entry r.0) ++ codes "\n" ++ r.1.now)) }
{
    let Some((core, rest)) = short_decimal_at(text, 1023) else {
        return None;
    };
    let Some((who, kind, rest)) = marks_at(rest) else {
        return None;
    };
    let Some((addr, rest)) = hexadecimal_at(rest) else {
        return None;
    };
    let Some((size, rest)) = size_at(rest) else {
        return None;
    };
    if !is_in_range(addr, size) {
        return None;
    }
    let entry = Entry {
        core: core as u16,
        who,
        kind,
        addr,
        size: size as u16,
    };
    Some((entry, rest))
}

/// The name on a section's line.
pub fn section_name(line: &[u8]) -> Option<&str>
    ensures { MatchOption result ((name : List ℕ) → IsSectionName name → line.now ≢ line_of (items.Test name))
        (λ name. IsSectionName name.now × (line.now ≡ line_of (items.Test name.now))) }
{
    let name = line.strip_prefix(b"test ")?;
    if !is_section_name(name) {
        return None;
    }
    match str::from_utf8(name) {
        Ok(text) => Some(text),
        Err(_) => None,
    }
}

fn is_section_name(name: &[u8]) -> bool
    ensures { IsTrue result ↔ IsSectionName name.now }
{
    !name.is_empty() && name.len() <= 64 && name.iter().all(|b| is_name_byte(*b))
}

fn is_name_byte(b: u8) -> bool
    ensures { IsTrue result ↔ IsNameByte b }
{
    b.is_ascii_alphanumeric() || matches!(b, b'_' | b'.' | b'-')
}
