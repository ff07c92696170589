//! What the program is run on in the tests: a shelf of one file, and two sinks.

ghost use Rattle.std.specs.Prelude.{◌≢◌, IfOk};
ghost use Rattle.std.specs.List.{AllPairs};

use crate::commuter;
use cm_io::{MemFile, MemShelf, MemSink, PutFail};
use cm_model::{List, Name, NoMemory};
use std::alloc::Global;
use std::test::Fail;

// How the outside of a run is, and the calls of it that fail.
#[derive(Clone, Copy)]
pub struct Outside<'a> {
    pub most: usize,
    pub fetches: &'a [u64],
    pub puts: &'a [PutFail],
    pub tells: &'a [PutFail],
}

// The outside that fails nowhere and gives at most so many bytes a fetch.
pub fn fair<'a>(most: usize) -> Outside<'a> {
    Outside {
        most,
        fetches: &[],
        puts: &[],
        tells: &[],
    }
}

// The status, and what `out` and `err` hold after a run.
#[derive(Clone, Copy)]
pub struct Answer<'a> {
    pub status: u8,
    pub out: &'a [u8],
    pub err: &'a [u8],
}

fn files(alloc: Global, bytes: &[u8]) -> Result<List<MemFile>, NoMemory>
    ensures { IfOk result (λ files. AllPairs (λ a b. a.name ≢ b.name) files) }
{
    let mut files = List::new(alloc);
    files.push(MemFile {
        name: Name::from_str(alloc, "t")?,
        bytes: List::from_slice(alloc, bytes)?,
    })?;
    Ok(files)
}

pub fn strings(alloc: Global, words: &[&str]) -> Result<Vec<String>, NoMemory> {
    let mut strings = Vec::new(alloc);
    for word in words {
        strings.push(String::from_str(alloc, word)?)?;
    }
    Ok(strings)
}

pub fn sink(alloc: Global, fails: &[PutFail]) -> Result<MemSink, NoMemory> {
    MemSink::new(alloc, 8192, List::from_slice(alloc, fails)?)
}

fn shelf(alloc: Global, bytes: &[u8], outside: Outside) -> Result<MemShelf, NoMemory> {
    let fetches = List::from_slice(alloc, outside.fetches)?;
    Ok(MemShelf::new(files(alloc, bytes)?, outside.most.max(1), fetches))
}

// Whether the program answers so on the words, where the file `t` has the bytes.
pub fn answers(
    alloc: Global,
    words: &[&str],
    bytes: &[u8],
    outside: Outside,
    want: Answer,
) -> Result<bool, Fail> {
    let words = strings(alloc, words)?;
    let mut shelf = shelf(alloc, bytes, outside)?;
    let mut out = sink(alloc, outside.puts)?;
    let mut err = sink(alloc, outside.tells)?;
    let status = commuter(alloc, words.as_slice(), &mut shelf, &mut out, &mut err).number();
    Ok(status == want.status && out.bytes() == want.out && err.bytes() == want.err)
}
