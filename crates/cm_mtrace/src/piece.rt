//! A piece of a stream, behind an open line.

ghost use Rattle.std.specs.Prelude.{◌≡◌, ◌++◌, ◌+◌, ◌-◌, ◌^◌, ◌<◌, ◌≤◌, [], ◌∷◌, codes, length, IfErr, IfOk};
ghost use Rattle.std.specs.Prelude.{MatchResult, OnErr, OnOk};
ghost use Rattle.cm_mtrace.specs.inner.Reading.{IsKept, IsLine, IsTooLong, Reaches, Reads, Refuses, Stops};

use crate::line::cut;
use crate::step::{next_step, read_lines};
use crate::{Item, TraceFault};
use cm_model::NoMemory;
use std::alloc::Global;

/// The most bytes of a line before its newline.
const LONGEST: usize = 80;

// Adds to the open line behind so many others, unless it becomes longer than a line is.
fn keep(before: u64, left: &mut Vec<u8>, more: &[u8]) -> Result<(), TraceFault>
    requires kept { IsKept left.old.items }
    requires line { IsLine more.now }
    requires room { before < 2 ^ 64 - 1 }
    ensures added { OnOk result ((left.new.items ≡ left.old.items ++ more.now)
        × (length (left.old.items ++ more.now) ≤ 80)) }
    ensures long { IfErr result (IsTooLong before (left.old.items ++ more.now)) }
    ensures err { OnErr result (left.new.items ≡ left.old.items) }
    ensures kept { IsKept left.new.items }
{
    if more.len() > LONGEST - left.len() {
        return Err(TraceFault::BadLine { line: before + 1 });
    }
    left.extend_from_slice(more)?;
    Ok(())
}

// Reads a text behind so many whole lines, and keeps its open line: how many lines now begin a trace.
fn read_on(
    alloc: Global,
    before: u64,
    left: &mut Vec<u8>,
    text: &[u8],
    to: &mut Vec<Item>,
) -> Result<u64, TraceFault>
    requires empty { left.old.items ≡ [] }
    requires room { before + length text.now < 2 ^ 64 - 1 }
    ensures reaches { IfOk result (λ lines. Reaches before text.now to.old.items to.new.items lines left.new.items) }
    ensures stops { IfErr result (Stops before text.now to.old.items to.new.items) }
    ensures counted { MatchResult result (λ lines. lines + length left.new.items ≤ before + length text.now)
        (λ _. left.new.items ≡ []) }
    ensures kept { IsKept left.new.items }
{
    let (lines, rest) = read_lines(alloc, before, text, to)?;
    keep(lines, left, rest)?;
    Ok(lines)
}

// The open line, ended by the front of a piece.
fn ended(alloc: Global, left: &[u8], front: &[u8]) -> Result<Vec<u8>, NoMemory>
    ensures { IfOk result (λ line. line.items ≡ left.now ++ front.now ++ codes "\n") }
{
    let mut line = Vec::from_slice(alloc, left)?;
    line.extend_from_slice(front)?;
    line.push(b'\n')?;
    Ok(line)
}

// Steps over the open line, ended by the front of a piece.
fn ended_step(
    alloc: Global,
    before: u64,
    left: &[u8],
    front: &[u8],
    to: &mut Vec<Item>,
) -> Result<(), TraceFault>
    requires left { IsKept left.now }
    requires front { IsLine front.now }
    requires room { before < 2 ^ 64 - 1 }
    ensures reads { OnOk result (Reads before (left.now ++ front.now ++ codes "\n") ((left.now ++ front.now) ∷ []) []
        to.old.items to.new.items (before + 1)) }
    ensures refuses { IfErr result (Refuses before (left.now ++ front.now ++ codes "\n") to.old.items to.new.items) }
{
    let bad = TraceFault::BadLine { line: before + 1 };
    if front.len() > LONGEST - left.len() {
        return Err(bad);
    }
    let line = ended(alloc, left, front)?;
    match next_step(alloc, before, &line, to)? {
        Some(_) => Ok(()),
        None => Err(bad),
    }
}

/// Reads a piece behind so many whole lines and an open one, adds the items of the lines that are whole now, and keeps
/// the open line: how many lines now begin a trace.
pub fn read_piece(
    alloc: Global,
    before: u64,
    left: &mut Vec<u8>,
    piece: &[u8],
    to: &mut Vec<Item>,
) -> Result<u64, TraceFault>
    requires kept { IsKept left.old.items }
    requires room { before + length left.old.items + length piece.now < 2 ^ 64 - 1 }
    ensures reaches { IfOk result (λ lines. Reaches before (left.old.items ++ piece.now) to.old.items to.new.items
        lines left.new.items) }
    ensures stops { IfErr result (Stops before (left.old.items ++ piece.now) to.old.items to.new.items) }
    ensures counted { MatchResult result (λ lines. lines + length left.new.items ≤ before + length left.old.items
        + length piece.now)
        (λ _. length left.new.items ≤ length left.old.items) }
    ensures kept { IsKept left.new.items }
{
    if left.is_empty() {
        return read_on(alloc, before, left, piece, to);
    }
    let Some((front, after)) = cut(piece) else {
        keep(before, left, piece)?;
        return Ok(before);
    };
    ended_step(alloc, before, left, front, to)?;
    left.clear();
    read_on(alloc, before + 1, left, after, to)
}
