//! Runs command lines in memory, and prints what they answer.
//!
//! A line of standard input is a row: the most bytes that a fetch gives, the bytes of the file `t`, and the words, with
//! a tab before each but the first of these. In a file `|` stands for a newline. For each row a line goes out: the
//! status, and what the two sinks took, where `|` stands for a newline again.
#![tactic(auto)]

ghost use Rattle.std.specs.Prelude.{◌≢◌, IfOk};
ghost use Rattle.std.specs.List.{AllPairs};

use anyhow::{Result, bail};
use cm_io::{MemFile, MemShelf, MemSink};
use cm_model::{List, Name, NoMemory};
use cm_top::commuter;
use std::alloc::Global;

// What a sink has room for.
const ROOM: usize = 8192;

// The bytes with one of them in another's place.
fn with_byte(alloc: Global, bytes: &[u8], from: u8, to: u8) -> Result<Vec<u8>, NoMemory> {
    let mut all = Vec::new(alloc);
    for byte in bytes {
        all.push(if *byte == from { to } else { *byte })?;
    }
    Ok(all)
}

fn files(alloc: Global, bytes: &[u8]) -> Result<List<MemFile>, NoMemory>
    ensures { IfOk result (λ files. AllPairs (λ a b. a.name ≢ b.name) files) }
{
    let mut files = List::new(alloc);
    files.push(MemFile {
        name: Name::from_str(alloc, "t")?,
        bytes: List::from_slice(alloc, bytes)?,
    })?;
    Ok(files)
}

// What a sink took, as one line of text.
fn line_of(alloc: Global, sink: &MemSink) -> Result<String> {
    let bytes = with_byte(alloc, sink.bytes(), b'\n', b'|')?;
    Ok(String::from_utf8(bytes)?)
}

fn answer(alloc: Global, row: &str) -> Result<String> {
    let mut fields = row.split('\t');
    let (Some(most), Some(bytes)) = (fields.next(), fields.next()) else {
        bail!("MOST FILE WORD..");
    };
    let mut words = Vec::new(alloc);
    for word in fields {
        words.push(String::from_str(alloc, word)?)?;
    }
    let most = most.parse::<usize>()?;
    let bytes = with_byte(alloc, bytes.as_bytes(), b'|', b'\n')?;
    let mut shelf = MemShelf::new(files(alloc, &bytes)?, most.max(1), List::new(alloc));
    let mut out = MemSink::new(alloc, ROOM, List::new(alloc))?;
    let mut err = MemSink::new(alloc, ROOM, List::new(alloc))?;
    let status = commuter(alloc, &words, &mut shelf, &mut out, &mut err).number();
    let (out, err) = (line_of(alloc, &out)?, line_of(alloc, &err)?);
    Ok(format!(in alloc; "{status}\t{out}\t{err}")?)
}

fn main(rt: HostRuntime) -> Result<()> {
    for row in rt.lines(rt.alloc()) {
        let line = answer(rt.alloc(), row?.as_str())?;
        println!(rt; "{line}")?;
    }
    Ok(())
}
