//! The top call.

ghost use Rattle.std.specs.Prelude.{◌≡◌, ◌≢◌, ◌⊎◌, ℕ, List, map, string_bytes};
ghost use Rattle.cm_io.specs.Causes.{Rose};
ghost use Rattle.cm_words.specs.Tasks.{HasNoTask, IsTaskOf};
ghost use Rattle.cm_words.specs.declared.task.Task.{Task};
ghost use Rattle.cm_top.specs.Endings.{IsAnswered, IsCutShort, IsEnding, IsEndingOn, IsQuiet, IsTooLong};
ghost use Rattle.cm_top.specs.Endings.{Tells, status_of, told_text};
ghost use Rattle.cm_top.specs.Files.{AreHeld, AreWithin, OfFiles, SomeInput};
ghost use Rattle.cm_top.specs.Output.{IsEnd};
ghost use Rattle.cm_top.specs.Tasks.{Accepts, inputs_of};
ghost use Rattle.cm_top.specs.declared.outcome.Outcome.{Outcome};

use crate::outcome::Outcome;
use crate::tell::tell;
use crate::{Status, judge, posix};
use cm_io::{Shelf, Sink};
use cm_words::{Task, WordsFault, read_words};
use std::alloc::Global;

// Runs a task: a line a command.
fn run<'a, S: Shelf, O: Sink>(
    alloc: Global,
    task: &'a Task,
    shelf: &mut S,
    out: &mut O,
) -> Outcome<'a>
    ensures { IsEnding task.now (record {
      held = S.held shelf.old;
      before = S.faults shelf.old;
      now = S.faults shelf.new;
      old = O.written out.old;
      new = O.written out.new;
      put_before = O.faults out.old;
      put_now = O.faults out.new;
    }) result }
{
    match task {
        Task::Judge { file } => judge::run(alloc, file.as_str(), shelf, out),
        Task::Posix => posix::run(out),
    }
}

// Tells an outcome, and gives its status.
fn end<E: Sink>(err: &mut E, outcome: &Outcome<'_>) -> Status
    ensures status { result ≡ status_of outcome.now }
    ensures told { Tells (E.written err.old) (E.written err.new) (E.faults err.old) (E.faults err.new)
        (told_text outcome.now) }
{
    tell(err, outcome);
    outcome.status()
}

// Runs the task of the words, and tells how that ended.
fn answer<S: Shelf, O: Sink, E: Sink>(
    alloc: Global,
    words: &[String],
    shelf: &mut S,
    out: &mut O,
    err: &mut E,
) -> Status
    ensures { (outcome : Outcome) × (result ≡ status_of outcome)
        × Tells (E.written err.old) (E.written err.new) (E.faults err.old) (E.faults err.new) (told_text outcome)
        × IsEndingOn (map string_bytes words.now) (record {
          held = S.held shelf.old;
          before = S.faults shelf.old;
          now = S.faults shelf.new;
          old = O.written out.old;
          new = O.written out.new;
          put_before = O.faults out.old;
          put_now = O.faults out.new;
        }) outcome }
{
    match read_words(alloc, words) {
        Ok(task) => {
            let outcome = run(alloc, &task, shelf, out);
            end(err, &outcome)
        }
        Err(WordsFault::Usage) => end(err, &Outcome::Usage),
        Err(WordsFault::Memory) => end(err, &Outcome::Memory),
    }
}

/// Runs the program on the words of its command line, without the program's name. It reads files from `shelf`, puts the
/// output to `out`, and the line on a status that is no answer to `err`.
pub fn commuter<S: Shelf, O: Sink, E: Sink>(
    alloc: Global,
    words: &[String],
    shelf: &mut S,
    out: &mut O,
    err: &mut E,
) -> Status
    // At Done and Conflicts the files are within their limits, and the output is what is wanted of the task, whole.
    ensures answered { (task : Task) → IsTaskOf (map string_bytes words.now) task → IsEnd result
        → OfFiles (S.held shelf.old) (inputs_of task) (IsAnswered task (O.written out.old) (O.written out.new) result) }

    // Usage comes exactly where the words have no task, and Over never.
    ensures usage { result ≡ Status.Usage → HasNoTask (map string_bytes words.now) }
    ensures no_command { HasNoTask (map string_bytes words.now) → (result ≡ Status.Usage) ⊎ (result ≡ Status.Memory) }
    ensures over { result ≢ Status.Over }

    // ReadFault comes only where the count of a file of the task rose.
    ensures read_fault { (task : Task) → IsTaskOf (map string_bytes words.now) task → result ≡ Status.ReadFault
        → SomeInput (λ i. Rose (S.faults shelf.old i.name) (S.faults shelf.new i.name)) (inputs_of task) }

    // TooLong comes exactly where a file is longer than its limit.
    ensures too_long { (task : Task) → IsTaskOf (map string_bytes words.now) task → result ≡ Status.TooLong
        → SomeInput (IsTooLong (S.held shelf.old)) (inputs_of task) }
    ensures long { (task : Task) (files : List (List ℕ)) → IsTaskOf (map string_bytes words.now) task
        → AreHeld (S.held shelf.old) (inputs_of task) files → ¬ AreWithin (inputs_of task) files
        → ¬ SomeInput (λ i. Rose (S.faults shelf.old i.name) (S.faults shelf.new i.name)) (inputs_of task)
        → (result ≡ Status.TooLong) ⊎ (result ≡ Status.Memory) }

    // Refused comes exactly where the files, within their limits, are not what the task reads.
    ensures refused { (task : Task) → IsTaskOf (map string_bytes words.now) task → result ≡ Status.Refused
        → OfFiles (S.held shelf.old) (inputs_of task)
        (λ files. AreWithin (inputs_of task) files × ¬ Accepts task files) }
    ensures not_accepted { (task : Task) (files : List (List ℕ)) → IsTaskOf (map string_bytes words.now) task
        → AreHeld (S.held shelf.old) (inputs_of task) files → AreWithin (inputs_of task) files → ¬ Accepts task files
        → ¬ SomeInput (λ i. Rose (S.faults shelf.old i.name) (S.faults shelf.new i.name)) (inputs_of task)
        → (result ≡ Status.Refused) ⊎ (result ≡ Status.Memory) }

    // WriteFault comes only where the count of `out` rose, after the files were accepted; then and at Memory `out` took
    // a prefix of the first of the wanted pieces, if any.
    ensures write_fault { result ≡ Status.WriteFault → Rose (O.faults out.old) (O.faults out.new) }
    ensures cut_short { (task : Task) → IsTaskOf (map string_bytes words.now) task → result ≡ Status.WriteFault
        → OfFiles (S.held shelf.old) (inputs_of task) (IsCutShort task (O.written out.old) (O.written out.new)) }
    ensures memory { (task : Task) → IsTaskOf (map string_bytes words.now) task → result ≡ Status.Memory
        → (O.written out.new ≡ O.written out.old)
        ⊎ OfFiles (S.held shelf.old) (inputs_of task) (IsCutShort task (O.written out.old) (O.written out.new)) }
    ensures quiet { IsQuiet result → O.written out.new ≡ O.written out.old }

    // Where nothing fails, files that the task reads are answered, or memory runs out.
    ensures complete { (task : Task) (files : List (List ℕ)) → IsTaskOf (map string_bytes words.now) task
        → AreHeld (S.held shelf.old) (inputs_of task) files → AreWithin (inputs_of task) files → Accepts task files
        → ¬ SomeInput (λ i. Rose (S.faults shelf.old i.name) (S.faults shelf.new i.name)) (inputs_of task)
        → ¬ Rose (O.faults out.old) (O.faults out.new) → IsEnd result ⊎ (result ≡ Status.Memory) }

    // `err` takes the line on the outcome, which names the file that is at fault and its first bad line.
    ensures told { (task : Task) → IsTaskOf (map string_bytes words.now) task
        → (outcome : Outcome) × (result ≡ status_of outcome)
        × Tells (E.written err.old) (E.written err.new) (E.faults err.old) (E.faults err.new) (told_text outcome)
        × IsEnding task (record {
          held = S.held shelf.old;
          before = S.faults shelf.old;
          now = S.faults shelf.new;
          old = O.written out.old;
          new = O.written out.new;
          put_before = O.faults out.old;
          put_now = O.faults out.new;
        }) outcome }
    ensures told_usage { result ≡ Status.Usage
        → Tells (E.written err.old) (E.written err.new) (E.faults err.old) (E.faults err.new)
        (told_text Outcome.Usage) }
{
    answer(alloc, words, shelf, out, err)
}
