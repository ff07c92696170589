//! The command `judge FILE`.

ghost use Rattle.std.specs.Prelude.{◌≡◌, ◌≢◌, ◌<◌, ◌⊎◌, ℕ, length, map, IfErr, IfOk, IsErrOf};
ghost use Rattle.cm_io.specs.Causes.{Rose};
ghost use Rattle.cm_words.specs.declared.task.Task.TheVariants as task;
ghost use Rattle.cm_top.specs.Judging.{IsJudged, IsJudgedInPart, IsRefusedAt, IsWithin};
ghost use Rattle.cm_top.specs.Endings.{IsEnding};
ghost use Rattle.cm_top.specs.Fetch.{OfFile};
ghost use Rattle.cm_top.specs.Output.{IsEnd, judge_status};
ghost use Rattle.cm_top.specs.inner.Run.{IsJudgedAs};

use crate::Status;
use crate::emit::{Cut, put_all};
use crate::fetch::{LIMIT, fetch_run};
use crate::outcome::Outcome;
use crate::sections::Judged;
use crate::stop::Stop;
use cm_io::{Shelf, Sink};
use cm_mtrace::TraceFault;
use std::alloc::Global;

// Conflicts where a section has a conflict line, and else done.
fn status_for(judged: &[Judged]) -> Status
    ensures value { result ≡ judge_status (map (λ j. j.lines) judged.now) }
    ensures ends { IsEnd result }
{
    for section in judged {
        if !section.lines.is_empty() {
            return Status::Conflicts;
        }
    }
    Status::Done
}

// The judged sections of a file that is a trace.
fn judged_file<S: Shelf>(alloc: Global, shelf: &mut S, file: &str) -> Result<Vec<Judged>, Stop>
    ensures judged { IfOk result (λ judged.
        OfFile (S.held shelf.old file.now) (λ bytes. IsWithin bytes × IsJudgedAs bytes judged.items)) }
    ensures read_fault { IsErrOf result Stop.ReadFault
        → Rose (S.faults shelf.old file.now) (S.faults shelf.new file.now) }
    ensures too_long { IsErrOf result Stop.TooLong
        → OfFile (S.held shelf.old file.now) (λ bytes. LIMIT < length bytes) }
    ensures refused { (line : ℕ) → IsErrOf result (Stop.Refused line)
        → OfFile (S.held shelf.old file.now) (IsRefusedAt line) }
    ensures no_write { IfErr result (λ stop. stop ≢ Stop.WriteFault) }
{
    let run = match fetch_run(alloc, shelf, file) {
        Ok(run) => run,
        Err(stop) => return Err(stop),
    };
    match run.finish() {
        Ok(judged) => Ok(judged),
        Err(TraceFault::BadLine { line }) => Err(Stop::Refused { line }),
        Err(TraceFault::Memory) => Err(Stop::Memory),
    }
}

// Judges a file, and puts the output once all of the file was accepted.
fn judge_file<S: Shelf, O: Sink>(
    alloc: Global,
    file: &str,
    shelf: &mut S,
    out: &mut O,
) -> Result<Status, Stop>
    ensures judged { IfOk result (λ status.
        OfFile (S.held shelf.old file.now) (IsJudged (O.written out.old) (O.written out.new) status)) }
    ensures ends { IfOk result IsEnd }
    ensures read_fault { IsErrOf result Stop.ReadFault
        → Rose (S.faults shelf.old file.now) (S.faults shelf.new file.now) }
    ensures too_long { IsErrOf result Stop.TooLong
        → OfFile (S.held shelf.old file.now) (λ bytes. LIMIT < length bytes) }
    ensures refused { (line : ℕ) → IsErrOf result (Stop.Refused line)
        → OfFile (S.held shelf.old file.now) (IsRefusedAt line) }
    ensures write_fault { IsErrOf result Stop.WriteFault → Rose (O.faults out.old) (O.faults out.new) }
    ensures cut_short { IsErrOf result Stop.WriteFault
        → OfFile (S.held shelf.old file.now) (IsJudgedInPart (O.written out.old) (O.written out.new)) }
    ensures memory { IsErrOf result Stop.Memory → (O.written out.new ≡ O.written out.old)
        ⊎ OfFile (S.held shelf.old file.now) (IsJudgedInPart (O.written out.old) (O.written out.new)) }
    ensures quiet { IfErr result (λ stop. stop ≢ Stop.WriteFault → stop ≢ Stop.Memory
        → O.written out.new ≡ O.written out.old) }
{
    let judged = match judged_file(alloc, shelf, file) {
        Ok(judged) => judged,
        Err(stop) => return Err(stop),
    };
    match put_all(alloc, out, &judged) {
        Ok(()) => Ok(status_for(&judged)),
        Err(Cut::WriteFault) => Err(Stop::WriteFault),
        Err(Cut::Memory) => Err(Stop::Memory),
    }
}

/// Runs `judge FILE`.
pub fn run<'a, S: Shelf, O: Sink>(
    alloc: Global,
    file: &'a str,
    shelf: &mut S,
    out: &mut O,
) -> Outcome<'a>
    ensures { IsEnding (task.Judge file.entry.now) (record {
      held = S.held shelf.old;
      before = S.faults shelf.old;
      now = S.faults shelf.new;
      old = O.written out.old;
      new = O.written out.new;
      put_before = O.faults out.old;
      put_now = O.faults out.new;
    }) result }
{
    match judge_file(alloc, file, shelf, out) {
        Ok(Status::Conflicts) => Outcome::Conflicts,
        Ok(_) => Outcome::Done,
        Err(Stop::ReadFault) => Outcome::ReadFault { file },
        Err(Stop::TooLong) => Outcome::TooLong { file },
        Err(Stop::Refused { line }) => Outcome::BadTraceLine { file, line },
        Err(Stop::WriteFault) => Outcome::WriteFault,
        Err(Stop::Memory) => Outcome::Memory,
    }
}
