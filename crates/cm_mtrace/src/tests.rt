//! Worked traces, and every cut of a small one.

use super::*;
use std::alloc::Global;
use std::test::Fail;

const TWO_SECTIONS: &[u8] =
    b"trace 1\ntest p\n0 a w 38 16\n1 b r 40 8\ntest q.2\n1023 - w ffffffffffffffff 1\n";

// The line that is told to be bad, or 0 for a trace, and how many items came, of a text in two pieces.
fn read(alloc: Global, text: &[u8], cut: usize) -> Result<(u64, usize), Fail> {
    let (first, second) = text.split_at(cut.min(text.len()));
    let mut reader = Reader::new(alloc);
    let mut items = Vec::new(alloc);
    let mut found = reader.feed(first, &mut items);
    if found.is_ok() {
        found = reader.feed(second, &mut items);
    }
    if found.is_ok() {
        found = reader.finish();
    }
    match found {
        Ok(()) => Ok((0, items.len())),
        Err(TraceFault::BadLine { line }) => Ok((line, items.len())),
        Err(TraceFault::Memory) => Err(cm_model::NoMemory)?,
    }
}

#[test]
fn a_trace_is_read_however_it_is_cut(rt: HostRuntime) -> Result<(), Fail> {
    for cut in 0..=TWO_SECTIONS.len() {
        assert_eq!(rt;
            read(rt.alloc(), TWO_SECTIONS, cut)?,
            (0, 5),
            "cut at {cut}"
        );
    }
    Ok(())
}

#[test]
fn the_items_are_those_of_the_lines(rt: HostRuntime) -> Result<(), Fail> {
    let mut reader = Reader::new(rt.alloc());
    let mut items = Vec::new(rt.alloc());
    reader.feed(TWO_SECTIONS, &mut items)?;
    reader.finish()?;
    let mut entries = Vec::new(rt.alloc());
    let mut names = Vec::new(rt.alloc());
    for item in &items {
        match item {
            Item::Test(name) => names.push(name.as_str())?,
            Item::Entry(entry) => entries.push(*entry)?,
        }
    }
    assert_eq!(rt; names.as_slice(), ["p", "q.2"].as_slice());
    let entry = |core, who, kind, addr, size| Entry {
        core,
        who,
        kind,
        addr,
        size,
    };
    assert_eq!(rt;
        entries.as_slice(),
        [
            entry(0, Who::A, Kind::Write, 0x38, 16),
            entry(1, Who::B, Kind::Read, 0x40, 8),
            entry(1023, Who::Other, Kind::Write, u64::MAX, 1),
        ]
        .as_slice()
    );
    Ok(())
}

#[test]
fn the_first_bad_line_is_named(rt: HostRuntime) -> Result<(), Fail> {
    for (text, line) in [
        (b"".as_slice(), 1),
        (b"trace 1\n".as_slice(), 0),
        (b"trace 1".as_slice(), 1),
        (b"trace 2\n".as_slice(), 1),
        (b"trace 1 \n".as_slice(), 1),
        (b"\ntrace 1\n".as_slice(), 1),
        (b"trace 1\n\n".as_slice(), 2),
        (b"trace 1\n0 a w 0 1\n".as_slice(), 2),
        (b"trace 1\ntest \n".as_slice(), 2),
        (b"trace 1\ntest a b\n".as_slice(), 2),
        (b"trace 1\ntest t/u\n".as_slice(), 2),
        (b"trace 1\ntest t\n0 a r 0 8\n1 b r 0 8\n".as_slice(), 0),
        (b"trace 1\ntest t\n0 a r 0 8".as_slice(), 3),
        (b"trace 1\ntest t\ntrace 1\n".as_slice(), 3),
        (b"trace 1\ntest t\n00 a r 0 8\n".as_slice(), 3),
        (b"trace 1\ntest t\n1024 a r 0 8\n".as_slice(), 3),
        (b"trace 1\ntest t\n0 c r 0 8\n".as_slice(), 3),
        (b"trace 1\ntest t\n0 a x 0 8\n".as_slice(), 3),
        (b"trace 1\ntest t\n0 a r F 8\n".as_slice(), 3),
        (b"trace 1\ntest t\n0 a r 0 0\n".as_slice(), 3),
        (b"trace 1\ntest t\n0 a r 0 4097\n".as_slice(), 3),
        (b"trace 1\ntest t\n0 a r 0 4096\n".as_slice(), 0),
        (b"trace 1\ntest t\n0 a r 0 8 \n".as_slice(), 3),
        (b"trace 1\ntest t\n0  a r 0 8\n".as_slice(), 3),
        (b"trace 1\ntest t\n0 a r 0 8\r\n".as_slice(), 3),
        (b"trace 1\ntest t\n0 a w ffffffffffffffff 2\n".as_slice(), 3),
        (b"trace 1\ntest t\n0 a w ffffffffffffffff 1\n".as_slice(), 0),
        (
            b"trace 1\ntest t\n0 a w 10000000000000000 1\n".as_slice(),
            3,
        ),
    ] {
        for cut in [0, 3, 8, 20, text.len()] {
            assert_eq!(rt; read(rt.alloc(), text, cut)?.0, line, "cut at {cut}");
        }
    }
    Ok(())
}

#[test]
fn a_long_line_is_bad_before_it_ends(rt: HostRuntime) -> Result<(), Fail> {
    let mut text = Vec::from_slice(rt.alloc(), b"trace 1\n")?;
    for _ in 0..81u8 {
        text.push(b'x')?;
    }
    let mut reader = Reader::new(rt.alloc());
    let mut items = Vec::new(rt.alloc());
    let bad = Err(TraceFault::BadLine { line: 2 });
    assert_eq!(rt; reader.feed(&text, &mut items), bad);
    assert_eq!(rt; reader.finish(), bad);
    let mut reader = Reader::new(rt.alloc());
    text.truncate(88);
    assert_eq!(rt; reader.feed(&text, &mut items), Ok(()));
    assert_eq!(rt; reader.finish(), bad);
    assert_eq!(rt; items.len(), 0);
    Ok(())
}
