//! The command `posix`.

ghost use Rattle.std.specs.Prelude.{List, ℕ};
ghost use Rattle.std.specs.declared.option.Option.{Option};
ghost use Rattle.cm_top.specs.Endings.{IsEnding};
ghost use Rattle.cm_words.specs.declared.task.Task.TheVariants as task;

use crate::emit::{Cut, put_piece};
use crate::outcome::Outcome;
use cm_io::Sink;
use cm_posix::posix_text;

/// Runs `posix`, which reads no file.
pub fn run<'a, O: Sink>(out: &mut O) -> Outcome<'a>
    ensures { (held : List ℕ → Option (Option (List ℕ))) (before now : List ℕ → ℕ) → IsEnding task.Posix (record {
      held = held;
      before = before;
      now = now;
      old = O.written out.old;
      new = O.written out.new;
      put_before = O.faults out.old;
      put_now = O.faults out.new;
    }) result }
{
    match put_piece(out, posix_text()) {
        Ok(()) => Outcome::Done,
        Err(Cut::WriteFault) => Outcome::WriteFault,
        Err(Cut::Memory) => Outcome::Memory,
    }
}
