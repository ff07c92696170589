//! The lines of a text, one after another.

ghost use Rattle.std.specs.Prelude.{◌≡◌, ◌-◌, ◌+◌, ◌^◌, ◌<◌, ◌≤◌, ℕ, List, length, IfErr, IfOk};
ghost use Rattle.cm_mtrace.specs.inner.Reading.{Ends, Reads, Refuses, SectionRefuses, SectionSteps, Steps, Stops};
ghost use Rattle.cm_mtrace.specs.declared.item.Item.{Item};

use crate::line::{cut, entry_at, section_name};
use crate::{Item, TraceFault};
use cm_model::{Name, NoMemory};
use std::alloc::Global;

/// What stands behind the line at the front of a text, where a whole one stands there and fits.
type Step<'a> = Result<Option<&'a [u8]>, TraceFault>;

// Steps over the first line of a trace.
fn first_step(text: &[u8]) -> Step<'_>
    ensures steps { IfOk result (λ after. (items : List Item) → Steps 0 text.now items items after) }
    ensures refuses { IfErr result (λ f. (items : List Item) → Refuses 0 text.now items items f) }
{
    let Some((line, after)) = cut(text) else {
        return Ok(None);
    };
    if line == b"trace 1".as_slice() {
        Ok(Some(after))
    } else {
        Err(TraceFault::BadLine { line: 1 })
    }
}

// Steps over the first line of a section.
fn section_step<'a>(alloc: Global, before: u64, text: &'a [u8], to: &mut Vec<Item>) -> Step<'a>
    requires { before < 2 ^ 64 - 1 }
    ensures steps { IfOk result (SectionSteps text.now to.old.items to.new.items) }
    ensures refuses { IfErr result (SectionRefuses before text.now to.old.items to.new.items) }
{
    let Some((line, after)) = cut(text) else {
        return Ok(None);
    };
    let Some(name) = section_name(line) else {
        return Err(TraceFault::BadLine { line: before + 1 });
    };
    to.push(Item::Test(Name::from_str(alloc, name)?))?;
    Ok(Some(after))
}

// Steps over an entry, or the first line of a section.
fn item_step<'a>(alloc: Global, before: u64, text: &'a [u8], to: &mut Vec<Item>) -> Step<'a>
    requires two { 2 ≤ before }
    requires room { before < 2 ^ 64 - 1 }
    ensures steps { IfOk result (Steps before text.now to.old.items to.new.items) }
    ensures refuses { IfErr result (Refuses before text.now to.old.items to.new.items) }
{
    let Some((entry, after)) = entry_at(text) else {
        return section_step(alloc, before, text, to);
    };
    to.push(Item::Entry(entry))?;
    Ok(Some(after))
}

/// Steps over a line behind so many others, and adds its item.
#[inline(always)]
pub fn next_step<'a>(alloc: Global, before: u64, text: &'a [u8], to: &mut Vec<Item>) -> Step<'a>
    requires { before < 2 ^ 64 - 1 }
    ensures steps { IfOk result (Steps before text.now to.old.items to.new.items) }
    ensures refuses { IfErr result (Refuses before text.now to.old.items to.new.items) }
{
    match before {
        0 => first_step(text),
        1 => section_step(alloc, before, text, to),
        _ => item_step(alloc, before, text, to),
    }
}

// Reads entries as long as they stand at the front. Most lines are entries, so these have a loop of their own.
#[inline(always)]
fn read_entries<'a>(
    before: u64,
    text: &'a [u8],
    to: &mut Vec<Item>,
) -> Result<(u64, &'a [u8]), NoMemory>
    requires { before + length text.now < 2 ^ 64 - 1 }
    ensures reads { IfOk result (λ r. (first : ℕ) (all : List ℕ) (whole : List (List ℕ)) (old : List Item)
        → Reads first all whole text.now old to.old.items before
        → (more : List (List ℕ)) × Reads first all more r.1.now old to.new.items r.0) }
    ensures counted { IfOk result (λ r. r.0 + length r.1.now ≤ before + length text.now) }
    ensures shorter { IfOk result (λ r. length r.1.now ≤ length text.now) }
{
    if before < 2 {
        return Ok((before, text));
    }
    let mut rest = text;
    let mut lines = before;
    'entries: loop {
        let Some((entry, after)) = entry_at(rest) else {
            return Ok((lines, rest));
        };
        to.push(Item::Entry(entry))?;
        lines += 1;
        rest = after;
    }
}

/// Reads the whole lines of a text behind so many others, and adds their items: how many lines now begin a trace, and
/// the open line behind them.
pub fn read_lines<'a>(
    alloc: Global,
    before: u64,
    text: &'a [u8],
    to: &mut Vec<Item>,
) -> Result<(u64, &'a [u8]), TraceFault>
    requires { before + length text.now < 2 ^ 64 - 1 }
    ensures ends { IfOk result (λ end. Ends before text.now to.old.items to.new.items end.0 end.1.now) }
    ensures stops { IfErr result (Stops before text.now to.old.items to.new.items) }
    ensures counted { IfOk result (λ end. end.0 + length end.1.now ≤ before + length text.now) }
{
    let mut rest = text;
    let mut lines = before;
    'lines: loop {
        let (known, behind) = read_entries(lines, rest, to)?;
        match next_step(alloc, known, behind, to)? {
            Some(after) => {
                lines = known + 1;
                rest = after;
            }
            None => return Ok((known, behind)),
        }
    }
}
