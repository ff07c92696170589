//! What the shelf and the sink in memory answer.

ghost use Rattle.std.specs.Prelude.{◌≢◌, IfOk};
ghost use Rattle.std.specs.List.{AllPairs};

use super::*;
use cm_model::{List, Name, NoMemory};
use std::alloc::Global;
use std::test::Fail;

fn file(alloc: Global, name: &str, bytes: &[u8]) -> Result<MemFile, NoMemory> {
    Ok(MemFile {
        name: Name::from_str(alloc, name)?,
        bytes: List::from_slice(alloc, bytes)?,
    })
}

// A shelf's files, of which there is one.
fn letters(alloc: Global) -> Result<List<MemFile>, NoMemory>
    ensures { IfOk result (λ files. AllPairs (λ a b. a.name ≢ b.name) files) }
{
    let mut files = List::new(alloc);
    files.push(file(alloc, "letters", b"abcdefghijklmnopqrst")?)?;
    Ok(files)
}

#[test]
fn a_fetch_gives_what_there_is_and_fits(rt: HostRuntime) -> Result<(), Fail> {
    let rows: [(usize, u64, usize, &[u8]); 11] = [
        (1, 0, 16, b"a"),
        (1, 19, 16, b"t"),
        (7, 0, 16, b"abcdefg"),
        (7, 17, 16, b"rst"),
        (7, 20, 16, b""),
        (7, 21, 16, b""),
        (7, u64::MAX, 16, b""),
        (1000, 0, 16, b"abcdefghijklmnop"),
        (1000, 16, 16, b"qrst"),
        (1000, 3, 2, b"de"),
        (1000, 3, 0, b""),
    ];
    for (most, from, room, want) in rows {
        assert!(rt; most >= 1);
        let none = List::new(rt.alloc());
        let mut shelf = MemShelf::new(letters(rt.alloc())?, most, none);
        let mut buf = [0; 16];
        assert!(rt; room <= 16);
        let count = shelf.fetch("letters", from, &mut buf[..room])?;
        assert!(rt; count <= room);
        assert_eq!(rt; &buf[..count], want, "most {most} from {from} room {room}");
    }
    Ok(())
}

#[test]
fn named_fetches_and_missing_names_fail(rt: HostRuntime) -> Result<(), Fail> {
    let fails = List::from_slice(rt.alloc(), &[2, 5])?;
    let mut files = letters(rt.alloc())?;
    files.push(file(rt.alloc(), "empty", b"")?)?;
    assert!(rt; names_differ(files.as_slice()));
    let mut shelf = MemShelf::new(files, 7, fails);
    let rows = [
        ("letters", Ok(7)),
        ("letters", Err(Failed)),
        ("letters", Ok(7)),
        ("letter", Err(Failed)),
        ("letter", Err(Failed)),
        ("", Err(Failed)),
        ("empty", Ok(0)),
        ("letters", Ok(7)),
    ];
    let mut buf = [0; 16];
    for (name, want) in rows {
        assert_eq!(rt; shelf.fetch(name, 0, &mut buf), want);
    }
    Ok(())
}

#[test]
fn equal_names_are_found(rt: HostRuntime) -> Result<(), Fail> {
    let mut files = letters(rt.alloc())?;
    files.push(file(rt.alloc(), "letter", b"")?)?;
    assert!(rt; names_differ(files.as_slice()));
    files.push(file(rt.alloc(), "letters", b"")?)?;
    assert!(rt; !names_differ(files.as_slice()));
    Ok(())
}

fn sink(alloc: Global, room: usize, fails: &[(u64, usize)]) -> Result<MemSink, NoMemory> {
    let mut list = List::new(alloc);
    for (call, takes) in fails {
        list.push(PutFail {
            call: *call,
            takes: *takes,
        })?;
    }
    MemSink::new(alloc, room, list)
}

// How many of the pieces the sink took whole.
fn puts(sink: &mut MemSink, pieces: &[&[u8]]) -> u64 {
    let mut whole = 0;
    for piece in pieces {
        if sink.put(piece).is_ok() {
            whole = u64::saturating_add(whole, 1);
        }
    }
    whole
}

// Room, entries, pieces, how many of them were taken whole, and all that was taken.
type Row<'a> = (usize, &'a [(u64, usize)], &'a [&'a [u8]], u64, &'a [u8]);

#[test]
fn a_put_takes_what_fits_and_what_its_entry_says(rt: HostRuntime) -> Result<(), Fail> {
    let rows: [Row<'_>; 8] = [
        (6, &[], &[b"abc", b"def", b"", b"g"], 3, b"abcdef"),
        (4, &[], &[b"abc", b"def", b""], 2, b"abcd"),
        (9, &[(2, 0)], &[b"abc", b"def", b"ghi"], 2, b"abcghi"),
        (9, &[(1, 2)], &[b"abc", b"def"], 1, b"abdef"),
        (9, &[(1, 50)], &[b"abc", b"def"], 1, b"abcdef"),
        (
            9,
            &[(3, 0), (2, 1), (2, 3)],
            &[b"abc", b"", b"def", b"ghi"],
            2,
            b"abcd",
        ),
        (4, &[(2, 2)], &[b"abc", b"def"], 1, b"abcd"),
        (0, &[(1, 0)], &[b"", b"a", b""], 2, b""),
    ];
    for (room, fails, pieces, whole, all) in rows {
        let mut sink = sink(rt.alloc(), room, fails)?;
        assert_eq!(rt; puts(&mut sink, pieces), whole);
        assert_eq!(rt; sink.bytes(), all);
    }
    Ok(())
}
