//! The line on an outcome.

ghost use Rattle.std.specs.Prelude.{◌≡◌, ◌++◌, ◌≤◌, ℕ, OnErr};
ghost use Rattle.cm_io.specs.Causes.{Rose};
ghost use Rattle.cm_io.specs.Sink.{PutTakes};
ghost use Rattle.cm_top.specs.Endings.{Tells, bad_line_text, told_text};

use crate::outcome::Outcome;
use cm_io::{Failed, Sink};
use itoa::Buffer;

// Puts two pieces.
fn put_both<O: Sink>(out: &mut O, first: &[u8], second: &[u8]) -> Result<(), Failed>
    ensures taken { PutTakes (O.written out.old) (O.written out.new) result (first.now ++ second.now) }
    ensures later { O.faults out.old ≤ O.faults out.new }
    ensures cause { OnErr result (Rose (O.faults out.old) (O.faults out.new)) }
{
    match out.put(first) {
        Ok(()) => match out.put(second) {
            Ok(()) => Ok(()),
            Err(failed) => Err(failed),
        },
        Err(failed) => Err(failed),
    }
}

// Puts three pieces.
fn put_three<O: Sink>(out: &mut O, first: &[u8], second: &[u8], third: &[u8]) -> Result<(), Failed>
    ensures taken { PutTakes (O.written out.old) (O.written out.new) result (first.now ++ second.now ++ third.now) }
    ensures later { O.faults out.old ≤ O.faults out.new }
    ensures cause { OnErr result (Rose (O.faults out.old) (O.faults out.new)) }
{
    match put_both(out, first, second) {
        Ok(()) => match out.put(third) {
            Ok(()) => Ok(()),
            Err(failed) => Err(failed),
        },
        Err(failed) => Err(failed),
    }
}

// Puts the line on a bad line of a trace.
fn put_bad_line<E: Sink>(err: &mut E, file: &str, line: u64) -> Result<(), Failed>
    ensures taken { PutTakes (E.written err.old) (E.written err.new) result (bad_line_text file.now line) }
    ensures cause { OnErr result (Rose (E.faults err.old) (E.faults err.new)) }
{
    let mut buffer = Buffer::new();
    match put_three(err, b"commuter: ", file.as_bytes(), b":") {
        Ok(()) => put_both(err, buffer.format(line).as_bytes(), b": bad trace line\n"),
        Err(failed) => Err(failed),
    }
}

fn put_line<E: Sink>(err: &mut E, outcome: &Outcome<'_>) -> Result<(), Failed>
    ensures taken { PutTakes (E.written err.old) (E.written err.new) result (told_text outcome.now) }
    ensures cause { OnErr result (Rose (E.faults err.old) (E.faults err.new)) }
{
    match outcome {
        Outcome::Usage => err.put(b"commuter: bad command line\n"),
        Outcome::ReadFault { file } => put_three(
            err,
            b"commuter: cannot read ",
            file.as_bytes(),
            b"\n",
        ),
        Outcome::TooLong { file } => put_three(
            err,
            b"commuter: ",
            file.as_bytes(),
            b" is too long\n",
        ),
        Outcome::BadTraceLine { file, line } => put_bad_line(err, file, *line),
        Outcome::WriteFault => err.put(b"commuter: cannot write\n"),
        Outcome::Memory => err.put(b"commuter: out of memory\n"),
        Outcome::Done | Outcome::Conflicts => Ok(()),
    }
}

/// Puts the line on an outcome. A fault leaves a part of it.
pub fn tell<E: Sink>(err: &mut E, outcome: &Outcome<'_>)
    ensures { Tells (E.written err.old) (E.written err.new) (E.faults err.old) (E.faults err.new)
        (told_text outcome.now) }
{
    let _ = put_line(err, outcome);
}
