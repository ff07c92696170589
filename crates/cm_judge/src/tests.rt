//! Worked examples, and a plain judge beside the one that is proved.

ghost use Rattle.std.specs.Prelude.{IsTrue};
ghost use Rattle.cm_mtrace.specs.Lines.{IsInRange};

use super::*;
use cm_model::{List, NoMemory};
use cm_mtrace::{Entry, Kind, Who};
use std::alloc::Global;
use std::process::Abort;
use std::test::Fail;

const LAST: u64 = 0xffff_ffff_ffff_ffff;

fn entry(core: u16, who: Who, kind: Kind, addr: u64, size: u16) -> Entry {
    Entry {
        core,
        who,
        kind,
        addr,
        size,
    }
}

fn is_in_range(e: &Entry) -> bool
    ensures { IsTrue result → IsInRange e.now }
{
    e.size >= 1 && e.addr <= LAST - (u64::from(e.size) - 1)
}

// Adds the entries to the judge, and takes its conflict lines.
fn judged(rt: &impl Abort, judge: &mut Judge, entries: &[Entry]) -> Result<List<u64>, NoMemory> {
    for e in entries {
        assert!(rt; is_in_range(e));
        judge.add(e)?;
    }
    judge.take_conflicts()
}

#[test]
fn lines_hold_the_bytes(rt: HostRuntime) {
    for (addr, size, first, count) in [
        (0, 8, 0, 1),
        (0x38, 16, 0, 2),
        (0x40, 64, 0x40, 1),
        (0x7f, 2, 0x40, 2),
        (0x1001, 4096, 0x1000, 65),
        (LAST, 1, LAST - 63, 1),
    ] {
        let e = entry(0, Who::A, Kind::Read, addr, size);
        assert!(rt; is_in_range(&e));
        let lines = lines_of(&e);
        assert_eq!(rt; lines, Lines { first, count }, "at {addr}");
    }
}

#[test]
fn conflict_lines_of_small_sections(rt: HostRuntime) -> Result<(), Fail> {
    let reads = [
        entry(0, Who::A, Kind::Read, 0, 8),
        entry(1, Who::B, Kind::Read, 0, 8),
    ];
    let second_line = [
        entry(0, Who::A, Kind::Write, 0x38, 16),
        entry(1, Who::B, Kind::Read, 0x40, 8),
    ];
    let one_core = [
        entry(2, Who::A, Kind::Write, 0, 1),
        entry(2, Who::B, Kind::Write, 0, 1),
        entry(0, Who::Other, Kind::Write, 0, 8),
    ];
    let last_line = [
        entry(0, Who::A, Kind::Write, LAST, 1),
        entry(1, Who::B, Kind::Read, LAST - 63, 1),
    ];
    let two_readers = [
        entry(0, Who::A, Kind::Read, 0, 1),
        entry(1, Who::A, Kind::Read, 0, 1),
        entry(1, Who::B, Kind::Write, 0, 1),
    ];
    let descending = [
        entry(0, Who::A, Kind::Write, 0x80, 64),
        entry(0, Who::A, Kind::Write, 0, 64),
        entry(3, Who::B, Kind::Write, 0, 256),
        entry(3, Who::B, Kind::Read, 0, 256),
    ];
    let mut judge = Judge::new(rt.alloc());
    for (entries, lines) in [
        (reads.as_slice(), [].as_slice()),
        (second_line.as_slice(), [0x40].as_slice()),
        (one_core.as_slice(), [].as_slice()),
        (last_line.as_slice(), [LAST - 63].as_slice()),
        (two_readers.as_slice(), [0].as_slice()),
        (descending.as_slice(), [0, 0x80].as_slice()),
    ] {
        let found = judged(&rt, &mut judge, entries)?;
        assert_eq!(rt; found.as_slice(), lines);
    }
    Ok(())
}

fn covers(e: &Entry, line: u64) -> bool {
    e.addr - e.addr % 64 <= line && line.saturating_sub(e.addr) < u64::from(e.size)
}

fn meet(x: &Entry, y: &Entry) -> bool {
    x.who == Who::A
        && y.who == Who::B
        && x.core != y.core
        && (x.kind == Kind::Write || y.kind == Kind::Write)
}

// What a conflict line is, said plainly: two of the entries that cover it meet.
fn is_conflict(entries: &[Entry], line: u64) -> bool {
    entries.iter().any(|x| covers(x, line) && entries.iter().any(|y| covers(y, line) && meet(x, y)))
}

fn plain_lines(rt: &impl Abort, alloc: Global, entries: &[Entry]) -> Result<Vec<u64>, NoMemory> {
    let mut found = Vec::new(alloc);
    for e in entries {
        assert!(rt; is_in_range(e));
        let lines = lines_of(e);
        for k in 0..lines.count {
            let line = lines.first.saturating_add(64 * u64::from(k));
            if is_conflict(entries, line) {
                found.push(line)?;
            }
        }
    }
    found.sort_unstable();
    found.dedup();
    Ok(found)
}

fn next(seed: u64) -> u64 {
    seed.wrapping_mul(6364136223846793005)
        .wrapping_add(1442695040888963407)
}

// An access of some mark and kind by one of three cores.
fn access(seed: u64, addr: u64, size: u16) -> Entry {
    let who = match (seed >> 40) % 5 {
        0 | 1 => Who::A,
        2 | 3 => Who::B,
        _ => Who::Other,
    };
    let kind = if (seed >> 50) % 3 == 0 {
        Kind::Write
    } else {
        Kind::Read
    };
    entry(((seed >> 32) % 3) as u16, who, kind, addr, size)
}

#[test]
fn judges_as_the_plain_program(rt: HostRuntime) -> Result<(), Fail> {
    let mut judge = Judge::new(rt.alloc());
    let mut seed = 1;
    for lines in [40, 400, 3] {
        let mut entries = Vec::new(rt.alloc());
        for _ in 0..400 {
            seed = next(seed);
            let addr = (seed >> 20) % (64 * lines);
            entries.push(access(seed, addr, 1 + ((seed >> 54) % 150) as u16))?;
        }
        let plain = plain_lines(&rt, rt.alloc(), entries.as_slice())?;
        assert!(rt; !plain.is_empty());
        let found = judged(&rt, &mut judge, entries.as_slice())?;
        assert_eq!(rt; found.as_slice(), plain.as_slice(), "of {lines} lines");
    }
    Ok(())
}

// Many lines with the same first slot, more than it and those behind it can take.
fn chosen_lines(alloc: Global) -> Result<Vec<u64>, NoMemory> {
    // Times the table's multiplier it is 1, so a small number times it has a hash of 0.
    let inverse = 0xf1de_83e1_9937_733d;
    let mut lines = Vec::new(alloc);
    for hash in 0..24000u64 {
        let line = hash.wrapping_mul(inverse);
        if line < 1 << 58 {
            lines.push(64 * line)?;
        }
    }
    Ok(lines)
}

#[test]
fn judges_chosen_lines(rt: HostRuntime) -> Result<(), Fail> {
    let lines = chosen_lines(rt.alloc())?;
    assert!(rt; lines.len() > 320);
    let mut entries = Vec::new(rt.alloc());
    let mut seed = 1;
    for _ in 0..4 {
        for line in &lines {
            seed = next(seed);
            entries.push(access(seed, *line, 64))?;
        }
    }
    let plain = plain_lines(&rt, rt.alloc(), entries.as_slice())?;
    assert!(rt; plain.len() > 32);
    let mut judge = Judge::new(rt.alloc());
    let found = judged(&rt, &mut judge, entries.as_slice())?;
    assert_eq!(rt; found.as_slice(), plain.as_slice());
    assert_eq!(rt; judged(&rt, &mut judge, &[])?.len(), 0);
    Ok(())
}

// Adds a write of a line.
fn add_write(rt: &impl Abort, judge: &mut Judge, line: u64) -> Result<(), NoMemory> {
    let e = entry(0, Who::A, Kind::Write, line, 1);
    assert!(rt; is_in_range(&e));
    judge.add(&e)
}

// Adds writes of the first so many lines. The table is never more than three quarters full, and nothing spills.
fn add_first(rt: &impl Abort, judge: &mut Judge, count: u64) -> Result<(), NoMemory> {
    for k in 0..count {
        add_write(rt, judge, k.wrapping_mul(64))?;
        let sizes = judge.sizes();
        assert!(rt; sizes.held.saturating_mul(4) <= sizes.slots.saturating_mul(3));
        assert_eq!(rt; sizes.spilled, 0);
    }
    Ok(())
}

#[test]
fn a_table_goes_with_its_lines(rt: HostRuntime) -> Result<(), Fail> {
    let mut judge = Judge::new(rt.alloc());
    add_first(&rt, &mut judge, 3000)?;
    assert_eq!(rt; judge.sizes().held, 3000);
    assert!(rt; judge.sizes().slots < 3000 * 8 / 3);
    judge.take_conflicts()?;
    assert!(rt; judge.sizes().slots > 3000);
    add_first(&rt, &mut judge, 1)?;
    judge.take_conflicts()?;
    assert_eq!(rt; judge.sizes().slots, 0);
    add_first(&rt, &mut judge, 100)?;
    assert_eq!(rt; judge.sizes().held, 100);
    Ok(())
}

#[test]
fn spilled_records_go_with_their_lines(rt: HostRuntime) -> Result<(), Fail> {
    let lines = chosen_lines(rt.alloc())?;
    let most = lines.len().saturating_mul(2).saturating_add(1024);
    let mut judge = Judge::new(rt.alloc());
    let mut greatest = 0;
    for _ in 0..40 {
        for line in &lines {
            add_write(&rt, &mut judge, *line)?;
            greatest = judge.sizes().spilled.max(greatest);
        }
    }
    assert!(rt; 1000 < greatest);
    assert!(rt; greatest <= most);
    Ok(())
}
