//! The machine's files and streams.

ghost use Rattle.std.specs.Prelude.{◌≡◌, ◌↔◌, ◌≤◌, ◌+◌, ◌-◌, ◌^◌, ℕ, List, [], min, string_bytes, IsTrue, IfSome};
ghost use Rattle.std.specs.Prelude.{IsSomeAnd, IfOk, IsOk, OnErr, None, is_ok, length, if◌then◌else◌};
ghost use Rattle.std.specs.declared.option.Option.{Option};
ghost use Rattle.cm_io.specs.Causes.{Rose, one_more};
ghost use Rattle.cm_io.specs.Shelf.{Fetches, NoneFalls, SameFiles};
ghost use Rattle.cm_io.specs.Sink.{PutTakes};

use cm_io::{Failed, Shelf, Sink};
use std::fs::File;
use std::io::{self, Read, Seek, SeekFrom, Write};

/// The machine's files by their paths. It tells nothing of them.
#[derive(Drop)]
pub struct FileShelf<'a> {
    rt: &'a HostRuntime,
    last: Option<Opened>,
    /// The count of every name: how many fetches failed.
    pub faults: u64,
}

impl<'a> FileShelf<'a> {
    pub fn new(rt: &'a HostRuntime) -> FileShelf<'a>
        ensures { result.faults ≡ 0 }
    {
        FileShelf {
            rt,
            last: None,
            faults: 0,
        }
    }

    // A file whose last fetch succeeded stays open for the next.
    fn read(&mut self, name: &str, from: u64, buf: &mut [u8]) -> io::Result<usize>
        ensures bound { IfOk result (λ n. n ≤ length buf.new) }
        ensures faults { self.new.faults ≡ self.old.faults }
    {
        let mut opened = match self.last.take() {
            Some(opened) if opened.is_of(name) => opened,
            _ => Opened::new(self.rt, name)?,
        };
        let count = opened.read(from, buf)?;
        self.last = Some(opened);
        Ok(count)
    }
}

// A file that was opened, and the place in it. Without memory for its name it is opened again each time.
#[derive(Drop)]
struct Opened {
    name: Option<String>,
    file: File,
    at: u64,
}

impl Opened {
    fn new(rt: &HostRuntime, name: &str) -> io::Result<Opened>
        ensures name { IfOk result (λ opened. IfSome opened.name (λ known. string_bytes known ≡ name.now)) }
        ensures start { IfOk result (λ opened. opened.at ≡ 0) }
    {
        Ok(Opened {
            file: File::open(rt, name)?,
            name: String::from_str(rt.alloc(), name).ok(),
            at: 0,
        })
    }

    fn is_of(&self, name: &str) -> bool
        ensures { IsTrue result ↔ IsSomeAnd self.now.name (λ known. string_bytes known ≡ name.now) }
    {
        match &self.name {
            Some(known) => known.as_str() == name,
            None => false,
        }
    }

    // Seeks only where it isn't at the place already, so a pipe can be read to its end.
    fn read(&mut self, from: u64, buf: &mut [u8]) -> io::Result<usize>
        ensures bound { IfOk result (λ n. n ≤ length buf.new) }
        ensures place { IfOk result (λ n. self.new.at ≡ min (from + n) (2 ^ 64 - 1)) }
        ensures name { self.new.name ≡ self.old.name }
    {
        if self.at != from {
            self.file.seek(SeekFrom::Start(from))?;
        }
        let count = self.file.read(buf)?;
        self.at = from.saturating_add(count as u64);
        Ok(count)
    }
}

impl Shelf for FileShelf<'_> {
    ghost held = { λ s name. None };

    ghost faults = { λ s name. s.faults };

    fn fetch(&mut self, name: &str, from: u64, buf: &mut [u8]) -> Result<usize, Failed>
        ensures bound { IfOk result (λ n. n ≤ length buf.new) }
        ensures bytes { Fetches None from result buf.new }
        ensures same { SameFiles (λ (file : List ℕ). None) (λ (file : List ℕ). None) }
        ensures later { NoneFalls (λ (file : List ℕ). self.old.faults) (λ (file : List ℕ). self.new.faults) }
        ensures cause { OnErr result (Rose self.old.faults self.new.faults) }
        ensures counts { self.new.faults ≡ (if is_ok result then self.old.faults else one_more self.old.faults) }
    {
        match self.read(name, from, buf) {
            Ok(count) => Ok(count),
            Err(_) => {
                self.faults = self.faults.saturating_add(1);
                Err(Failed)
            }
        }
    }
}

/// A stream. It tells what its writer tells, and the machine's streams tell nothing.
#[derive(Drop)]
pub struct StdSink<W: Write> {
    pub inner: W,
    /// How many puts failed.
    pub faults: u64,
}

impl<W: Write> StdSink<W> {
    pub fn new(inner: W) -> StdSink<W>
        ensures { result ≡ record { inner = inner; faults = 0 } }
    {
        StdSink { inner, faults: 0 }
    }
}

impl<W: Write> Sink for StdSink<W> {
    ghost written = { λ s. W.contents s.inner };

    ghost faults = { λ s. s.faults };

    fn put(&mut self, bytes: &[u8]) -> Result<(), Failed>
        ensures taken { PutTakes (W.contents self.old.inner) (W.contents self.new.inner) result bytes.now }
        ensures later { self.old.faults ≤ self.new.faults }
        ensures cause { OnErr result (Rose self.old.faults self.new.faults) }
        ensures empty { bytes.now ≡ [] → IsOk result }
        ensures empty_written { bytes.now ≡ [] → W.contents self.new.inner ≡ W.contents self.old.inner }
        ensures empty_faults { bytes.now ≡ [] → self.new.faults ≡ self.old.faults }
        ensures counts { self.new.faults ≡ (if is_ok result then self.old.faults else one_more self.old.faults) }
    {
        let mut done = 0;
        'writes: while done < bytes.len() {
            match self.inner.write(&bytes[done..]) {
                Ok(count) if count > 0 => done += count,
                _ => {
                    self.faults = self.faults.saturating_add(1);
                    return Err(Failed);
                }
            }
        }
        Ok(())
    }
}

#[cfg(test)]
mod tests;
