//! A shelf in memory.

ghost use Rattle.std.specs.Prelude.{◌≡◌, ◌≢◌, ◌↔◌, ◌==◌, ◌+◌, ◌-◌, ◌^◌, ◌<◌, ◌≤◌, ℕ, List, [], Some, length, drop, min};
ghost use Rattle.std.specs.Prelude.{IsTrue, IsSome, IsOk, IfOk, OnErr};
ghost use Rattle.std.specs.List.{AllPairs, Any};
ghost use Rattle.std.specs.Option.{option_map};
ghost use Rattle.std.specs.Result.{result_ok};
ghost use Rattle.cm_io.specs.Causes.{Rose};
ghost use Rattle.cm_io.specs.Shelf.{Fetches, GivesFrom, NoneFalls, SameFiles};
ghost use Rattle.cm_io.specs.MemShelf.{IsQuiet, after_fetch, bytes_of, faults_of, given_of, is_named};

use crate::{Failed, Shelf};
use cm_model::{List, Name};
use std::marker::Model;

/// A file in memory.
#[derive(Debug, Drop)]
pub struct MemFile {
    pub name: Name,
    pub bytes: List<u8>,
}

/// A shelf of files in memory, which tells what it holds and fails at the calls that it was told.
#[derive(Debug, Drop)]
pub struct MemShelf {
    files: List<MemFile>,
    most: usize,
    fails: List<u64>,
    calls: u64,
    missing: u64,
}

impl Model for MemShelf {
    ghost use Rattle.std.specs.Prelude.{◌≤◌};
    ghost use Rattle.cm_io.specs.MemShelf.{ShelfState};

    ghost Value = { ShelfState };

    ghost view = { λ s. record { files = s.files; most = s.most; fails = s.fails; calls = s.calls; missing = s.missing } };

    ghost invariant = { λ s. 1 ≤ s.most };
}

/// Whether no two of the files have the same name, which a shelf asks for.
pub fn names_differ(files: &[MemFile]) -> bool
    ensures { IsTrue result ↔ AllPairs (λ a b. a.name ≢ b.name) files.now }
{
    for (at, file) in files.iter().enumerate() {
        if has_name(&files[..at], file.name.as_str()) {
            return false;
        }
    }
    true
}

fn has_name(files: &[MemFile], name: &str) -> bool
    ensures { IsTrue result ↔ Any (λ file. file.name ≡ name.now) files.now }
{
    files.iter().any(|file| file.name.as_str() == name)
}

impl MemShelf {
    /// A shelf that gives at most `most` bytes a fetch, and whose calls of the numbers in `fails`,
    /// from 1, fail.
    pub fn new(files: List<MemFile>, most: usize, fails: List<u64>) -> MemShelf
        requires some { 1 ≤ most }
        requires names { AllPairs (λ a b. a.name ≢ b.name) files }
        ensures { result ≡ record { files = files; most = most; fails = fails; calls = 0; missing = 0 } }
    {
        MemShelf {
            files,
            most,
            fails,
            calls: 0,
            missing: 0,
        }
    }
}

fn find<'a>(files: &'a [MemFile], name: &str) -> Option<&'a [u8]>
    ensures { option_map (λ bytes. bytes.now) result ≡ bytes_of files.now name.now }
{
    files
        .iter()
        .find(|file| file.name.as_str() == name)
        .map(|file| file.bytes.as_slice())
}

// Whether the next call after so many is named. Past the last number no call is.
fn is_next_named(fails: &[u64], calls: u64) -> bool
    ensures named { result ≡ is_named fails.now (calls + 1) }
    ensures within { IsTrue result → calls < 2 ^ 64 - 1 }
{
    for call in fails {
        if call.checked_sub(1) == Some(calls) {
            return true;
        }
    }
    false
}

// Copies what fits of a file from a place on, at most `most` bytes.
fn give(file: &[u8], from: u64, most: usize, buf: &mut [u8]) -> usize
    requires { 1 ≤ most }
    ensures count { result ≡ min (min (length (drop from file.now)) most) (length buf.old) }
    ensures gives { GivesFrom file.now from result buf.new }
    ensures bound { result ≤ length buf.new }
{
    let from = from as usize;
    if from >= file.len() {
        return 0;
    }
    let rest = &file[from..];
    let count = rest.len().min(most).min(buf.len());
    buf[..count].copy_from_slice(&rest[..count]);
    count
}

impl Shelf for MemShelf {
    ghost held = { λ s name. Some (bytes_of s.files name) };

    ghost faults = { faults_of };

    fn fetch(&mut self, name: &str, from: u64, buf: &mut [u8]) -> Result<usize, Failed>
        ensures bound { IfOk result (λ n. n ≤ length buf.new) }
        ensures bytes { Fetches (Some (bytes_of self.old.files name.now)) from result buf.new }
        ensures same { SameFiles (λ file. Some (bytes_of self.old.files file))
            (λ file. Some (bytes_of self.new.files file)) }
        ensures later { NoneFalls (faults_of self.old) (faults_of self.new) }
        ensures cause { OnErr result (Rose (faults_of self.old name.now) (faults_of self.new name.now)) }

        // exactly what it answers, and what it is afterwards
        ensures answer { result_ok result ≡ given_of self.old name.now from (length buf.old) }
        ensures after { self.new ≡ after_fetch self.old name.now }

        // with no failing calls, a name that it holds
        ensures finds { self.old.fails ≡ [] → IsSome (bytes_of self.old.files name.now) → IsOk result }
        ensures quiet { self.old.fails ≡ [] → IsQuiet self.new }
    {
        let fails = is_next_named(self.fails.as_slice(), self.calls);
        self.calls = self.calls.saturating_add(1);
        match find(self.files.as_slice(), name) {
            None => {
                self.missing = self.missing.saturating_add(1);
                Err(Failed)
            }
            Some(_) if fails => Err(Failed),
            Some(file) => Ok(give(file, from, self.most, buf)),
        }
    }
}
