//! Traces that no test holds as bytes: a shelf makes them as they are fetched.

ghost use Rattle.std.specs.Prelude.{◌≤◌, length, None, IfOk, OnErr};
ghost use Rattle.cm_io.specs.Causes.{Rose};
ghost use Rattle.cm_io.specs.Shelf.{Fetches, NoneFalls, SameFiles};

use super::outside::{sink, strings};
use crate::commuter;
use cm_io::{Failed, Shelf};
use std::alloc::Global;
use std::test::Fail;

const HEAD: &[u8] = b"trace 1\ntest t\n";

const LINE: &[u8] = b"0 a r 0 8\n";

// A section of one entry, so many times, that tells nothing of itself.
#[derive(Drop)]
struct Repeats {
    lines: u64,
}

impl Shelf for Repeats {
    ghost held = { λ s name. None };

    ghost faults = { λ s name. 0 };

    // Gives the head, and then whole lines.
    fn fetch(&mut self, _name: &str, from: u64, buf: &mut [u8]) -> Result<usize, Failed>
        ensures bound { IfOk result (λ n. n ≤ length buf.new) }
        ensures bytes { Fetches None from result buf.new }
        ensures same { SameFiles (λ name. None) (λ name. None) }
        ensures later { NoneFalls (λ name. 0) (λ name. 0) }
        ensures cause { OnErr result (Rose 0 0) }
    {
        if from == 0 {
            let count = HEAD.len().min(buf.len());
            buf[..count].copy_from_slice(&HEAD[..count]);
            return Ok(count);
        }
        let lines = (buf.len() / LINE.len()).min(self.lines as usize);
        let count = lines.saturating_mul(LINE.len()).min(buf.len());
        for line in buf[..count].chunks_exact_mut(LINE.len()) {
            line.copy_from_slice(LINE);
        }
        self.lines = self.lines.saturating_sub(lines as u64);
        Ok(count)
    }
}

// Whether the judgement of so many lines is done, with this output.
fn is_judged(alloc: Global, lines: u64, want: &[u8]) -> Result<bool, Fail> {
    let words = strings(alloc, &["judge", "t"])?;
    let mut shelf = Repeats { lines };
    let mut out = sink(alloc, &[])?;
    let mut err = sink(alloc, &[])?;
    let status = commuter(alloc, words.as_slice(), &mut shelf, &mut out, &mut err);
    Ok(status.number() == 0 && out.bytes() == want)
}

#[test]
fn seven_million_entries_are_judged(rt: HostRuntime) -> Result<(), Fail> {
    assert!(rt; is_judged(rt.alloc(), 7_000_000, b"commuter judge 1\ntest t\ndone\n")?);
    Ok(())
}
