//! Real files, a pipe, a full disk.

use super::*;
use std::test::Fail;
use std::{env, fs, process};

// A new folder of this process.
fn folder(rt: &HostRuntime, name: &str) -> Result<String, Fail> {
    let base = env::temp_dir(rt)?;
    let number = process::id(rt.process());
    let path = format!(in rt.alloc(); "{}/commuter-{name}-{number}", base.as_str())?;
    fs::create_dir_all(rt, path.as_str())?;
    Ok(path)
}

#[test]
fn files_are_read_at_any_place(rt: HostRuntime) -> Result<(), Fail> {
    let folder = folder(&rt, "shelf")?;
    let digits = format!(in rt.alloc(); "{folder}/digits")?;
    let letters = format!(in rt.alloc(); "{folder}/letters")?;
    fs::write(&rt, digits.as_str(), "0123456789")?;
    fs::write(&rt, letters.as_str(), "xyz")?;
    let rows: [(&str, u64, Result<&[u8], Failed>); 12] = [
        (digits.as_str(), 0, Ok(b"0123")),
        (digits.as_str(), 4, Ok(b"4567")),
        (digits.as_str(), 8, Ok(b"89")),
        (digits.as_str(), 10, Ok(b"")),
        (digits.as_str(), 2, Ok(b"2345")),
        (letters.as_str(), 1, Ok(b"yz")),
        (digits.as_str(), 9, Ok(b"9")),
        (digits.as_str(), 99, Ok(b"")),
        ("no such file", 0, Err(Failed)),
        (folder.as_str(), 0, Err(Failed)),
        (digits.as_str(), u64::MAX, Err(Failed)),
        (digits.as_str(), 1, Ok(b"1234")),
    ];
    let mut shelf = FileShelf::new(&rt);
    for (name, from, want) in rows {
        let mut buf = [0; 4];
        match shelf.fetch(name, from, &mut buf) {
            Ok(count) => assert!(rt; want == Ok(&buf[..count]), "{name} from {from}"),
            Err(failed) => assert!(rt; want == Err(failed), "{name} from {from}"),
        }
    }
    fs::remove_dir_all(&rt, folder.as_str())?;
    Ok(())
}

#[test]
fn pieces_are_written_whole(rt: HostRuntime) -> Result<(), Fail> {
    let (mut reader, writer) = io::pipe(&rt)?;
    let mut sink = StdSink::new(writer);
    for piece in [b"abc".as_slice(), b"", b"defg"] {
        assert_eq!(rt; sink.put(piece), Ok(()));
    }
    drop(sink);
    let mut text = Vec::new(rt.alloc());
    reader.read_to_end(&mut text)?;
    assert_eq!(rt; text.as_slice(), b"abcdefg".as_slice());

    let folder = folder(&rt, "sink")?;
    let path = format!(in rt.alloc(); "{folder}/out")?;
    let mut file = StdSink::new(File::create(&rt, path.as_str())?);
    assert_eq!(rt; file.put(b"whole"), Ok(()));
    assert_eq!(rt; fs::read_to_string(&rt, path.as_str())?.as_str(), "whole");
    let mut unwritable = StdSink::new(File::open(&rt, path.as_str())?);
    assert_eq!(rt; unwritable.put(b""), Ok(()));
    assert_eq!(rt; unwritable.put(b"more"), Err(Failed));
    fs::remove_dir_all(&rt, folder.as_str())?;
    Ok(())
}
