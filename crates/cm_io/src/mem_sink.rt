//! A sink in memory.

ghost use Rattle.std.specs.Prelude.{◌≡◌, ◌==◌, ◌+◌, ◌≤◌, ℕ, List, [], Some, length, min, IfOk, IsOk, OnErr, is_ok};
ghost use Rattle.std.specs.List.{find};
ghost use Rattle.std.specs.Option.{option_map_or};
ghost use Rattle.cm_io.specs.Causes.{Rose};
ghost use Rattle.cm_io.specs.Sink.{PutTakes};
ghost use Rattle.cm_io.specs.MemSink.{after_put, left_of, succeeds_at};

use crate::{Failed, Sink};
use cm_model::{List, NoMemory};
use std::alloc::Global;
use std::marker::Model;

/// A put that fails: its number, from 1 over the pieces that aren't empty, and how many bytes it takes.
#[derive(Clone, Copy, Debug)]
pub struct PutFail {
    pub call: u64,
    pub takes: usize,
}

/// A sink in memory, with room for so many bytes, which tells what it took and fails at the puts
/// that it was told.
#[derive(Debug, Drop)]
pub struct MemSink {
    bytes: Vec<u8>,
    room: usize,
    fails: List<PutFail>,
    calls: u64,
    failed: u64,
}

impl Model for MemSink {
    ghost use Rattle.std.specs.Prelude.{◌≤◌, vec_len, vec_capacity};
    ghost use Rattle.cm_io.specs.MemSink.{SinkState};

    ghost Value = { SinkState };

    ghost view = { λ s. record { bytes = s.bytes.items; room = s.room; fails = s.fails; calls = s.calls; failed = s.failed } };

    ghost invariant = { λ s. (vec_len s.bytes ≤ s.room) × (s.room ≤ vec_capacity s.bytes) };
}

impl MemSink {
    /// A sink that takes its room when made, so that a put takes no memory. The puts of the numbers
    /// in `fails` fail; of several entries for one put the first counts.
    pub fn new(alloc: Global, room: usize, fails: List<PutFail>) -> Result<MemSink, NoMemory>
        ensures { IfOk result (λ sink. sink ≡ record { bytes = []; room = room; fails = fails; calls = 0; failed = 0 }) }
    {
        Ok(MemSink {
            bytes: Vec::with_capacity(alloc, room)?,
            room,
            fails,
            calls: 0,
            failed: 0,
        })
    }

    /// All bytes that it took.
    pub fn bytes(&self) -> &[u8]
        ensures { result.now ≡ self.now.bytes }
    {
        self.bytes.as_slice()
    }
}

// The first entry for the next put after so many. Past the last number there is none.
fn next_entry(fails: &[PutFail], calls: u64) -> Option<PutFail>
    ensures { result ≡ find (λ fail. fail.call == calls + 1) fails.now }
{
    for fail in fails {
        if fail.call.checked_sub(1) == Some(calls) {
            return Some(*fail);
        }
    }
    None
}

// How many bytes of a piece of this size are taken where so much room is left.
fn taken(entry: Option<PutFail>, size: usize, left: usize) -> usize
    ensures { result ≡ min (option_map_or (λ fail. min fail.takes size) entry size) left }
{
    match entry {
        Some(fail) => fail.takes.min(size).min(left),
        None => size.min(left),
    }
}

impl Sink for MemSink {
    ghost written = { λ s. Some s.bytes };

    ghost faults = { λ s. s.failed };

    fn put(&mut self, bytes: &[u8]) -> Result<(), Failed>
        ensures taken { PutTakes (Some self.old.bytes) (Some self.new.bytes) result bytes.now }
        ensures later { self.old.failed ≤ self.new.failed }
        ensures cause { OnErr result (Rose self.old.failed self.new.failed) }

        // an empty piece
        ensures empty { bytes.now ≡ [] → IsOk result }
        ensures empty_written { bytes.now ≡ [] → Some self.new.bytes ≡ Some self.old.bytes }
        ensures empty_faults { bytes.now ≡ [] → self.new.failed ≡ self.old.failed }

        // exactly what it answers, and what it is afterwards
        ensures answer { is_ok result ≡ succeeds_at self.old bytes.now }
        ensures after { self.new ≡ after_put self.old bytes.now }

        // with no failing puts, a piece that fits
        ensures fits { self.old.fails ≡ [] → length bytes.now ≤ left_of self.old → IsOk result }
        ensures quiet { self.old.fails ≡ [] → length bytes.now ≤ left_of self.old → self.new.failed ≡ self.old.failed }
    {
        if bytes.is_empty() {
            return Ok(());
        }
        let entry = next_entry(self.fails.as_slice(), self.calls);
        self.calls = self.calls.saturating_add(1);
        let left = self.room - self.bytes.len();
        let whole = entry.is_none() && bytes.len() <= left;
        let count = taken(entry, bytes.len(), left);
        if self.bytes.extend_from_slice(&bytes[..count]).is_err() {
            unreachable!()
        }
        if whole {
            return Ok(());
        }
        self.failed = self.failed.saturating_add(1);
        Err(Failed)
    }
}
