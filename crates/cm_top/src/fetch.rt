//! A trace, fetched piece by piece from a shelf.

ghost use Rattle.std.specs.Prelude.{◌≡◌, [], ◌+◌, ◌<◌, ◌≤◌, ◌++◌, ◌^◌, ℕ, List, length, IfOk, IfErr, IsErrOf, OnOk};
ghost use Rattle.cm_io.specs.Causes.{Rose};
ghost use Rattle.cm_io.specs.Shelf.{NoneFalls, SameFiles};
ghost use Rattle.cm_top.specs.Fetch.{HoldsBytes, HoldsFront, IsFetchStop, IsReadStop, OfFile};
ghost use Rattle.cm_top.specs.inner.Run.{HasRead, count_of};

use crate::run::Run;
use crate::stop::Stop;
use cm_io::Shelf;
use std::alloc::Global;

/// The most bytes of a trace: 1 GiB.
pub const LIMIT: u64 = 1_073_741_824;

// How many bytes are fetched at once.
const CHUNK: usize = 32_768;

fn buffer(alloc: Global) -> Result<Vec<u8>, Stop>
    ensures ok { IfOk result (λ buf. length buf.items ≡ CHUNK) }
    ensures err { IfErr result (λ stop. stop ≡ Stop.Memory) }
{
    match vec![in alloc; 0u8; CHUNK] {
        Ok(buf) => Ok(buf),
        Err(_) => Err(Stop::Memory),
    }
}

// Fetches at most so many bytes from a place on, and feeds them to the run. 0 is the end.
fn take_piece<S: Shelf>(
    shelf: &mut S,
    name: &str,
    from: u64,
    most: usize,
    buf: &mut [u8],
    run: &mut Run,
) -> Result<usize, Stop>
    requires some { 0 < most }
    requires room { most ≤ length buf.old }
    requires small { from + most < 2 ^ 63 }
    requires counted { count_of run.old ≤ from }
    ensures reads { IfOk result (λ n. (text : List ℕ) → length text ≡ from
        → HoldsFront (S.held shelf.old name.now) text → HasRead run.old text
        → (more : List ℕ) × (length more ≡ n)
        × HoldsFront (S.held shelf.old name.now) (text ++ more) × HasRead run.new (text ++ more)) }
    ensures end { IfOk result (λ n. n ≡ 0 → (text : List ℕ) → length text ≡ from
        → HoldsFront (S.held shelf.old name.now) text → HoldsBytes (S.held shelf.old name.now) text) }
    ensures bound { IfOk result (λ n. n ≤ most) }
    ensures counted { IfOk result (λ n. count_of run.new ≤ from + n) }
    ensures failed { IsErrOf result Stop.ReadFault → Rose (S.faults shelf.old name.now) (S.faults shelf.new name.now) }
    ensures stops { IfErr result IsFetchStop }
    ensures same { SameFiles (S.held shelf.old) (S.held shelf.new) }
    ensures later { NoneFalls (S.faults shelf.old) (S.faults shelf.new) }
{
    let room = &mut buf[..most];
    match shelf.fetch(name, from, room) {
        Ok(n) => match run.feed(&room[..n]) {
            Ok(()) => Ok(n),
            Err(_) => Err(Stop::Memory),
        },
        Err(_) => Err(Stop::ReadFault),
    }
}

// The most bytes of the next fetch: as many as have room, and at most one more than the limit in all.
fn next_size(from: u64, room: usize) -> usize
    requires { from ≤ LIMIT }
    ensures within { result ≤ room }
    ensures limit { from + result ≤ LIMIT + 1 }
    ensures some { 0 < room → 0 < result }
{
    let most = LIMIT + 1 - from;
    room.min(most as usize)
}

/// Fetches a file to its end, or until it has one byte more than the limit, and feeds a run.
pub fn fetch_run<S: Shelf>(alloc: Global, shelf: &mut S, name: &str) -> Result<Run, Stop>
    ensures read { IfOk result (λ run. (text : List ℕ) × (length text ≤ LIMIT)
        × HoldsBytes (S.held shelf.old name.now) text × HasRead run text) }
    ensures failed { IsErrOf result Stop.ReadFault → Rose (S.faults shelf.old name.now) (S.faults shelf.new name.now) }
    ensures too_long { IsErrOf result Stop.TooLong → OfFile (S.held shelf.old name.now) (λ file. LIMIT < length file) }
    ensures stops { IfErr result IsReadStop }
    ensures same { SameFiles (S.held shelf.old) (S.held shelf.new) }
    ensures later { NoneFalls (S.faults shelf.old) (S.faults shelf.new) }
{
    let mut run = Run::new(alloc);
    let mut buf = buffer(alloc)?;
    let mut from: u64 = 0;
    'pieces: loop {
        let most = next_size(from, buf.len());
        let n = take_piece(shelf, name, from, most, &mut buf, &mut run)?;
        if n == 0 {
            return Ok(run);
        }
        from += n as u64;
        if from > LIMIT {
            return Err(Stop::TooLong);
        }
    }
}
