//! The words behind `posix`.

ghost use Rattle.std.specs.Prelude.{◌≡◌, ◌∷◌, codes, map, string_bytes, IfOk, IsErrOf};
ghost use Rattle.clap.specs.Words.{app_of};
ghost use Rattle.cm_words.specs.Tasks.{IsTaskOf, posix_form};
ghost use Rattle.cm_words.specs.declared.task.Task.{Task};

use crate::form::bare;
use crate::matches::take;
use crate::{Task, WordsFault};
use clap::Command;
use std::alloc::Global;

fn command<'a>(alloc: Global) -> Command<'a>
    ensures { app_of result ≡ posix_form }
{
    bare(alloc, "posix")
}

pub fn read(alloc: Global, words: &[String]) -> Result<Task, WordsFault>
    ensures task { IfOk result (IsTaskOf (codes "posix" ∷ map string_bytes words.now)) }
    ensures usage { IsErrOf result WordsFault.Usage
        → (task : Task) → ¬ IsTaskOf (codes "posix" ∷ map string_bytes words.now) task }
{
    take(command(alloc), words)?;
    Ok(Task::Posix)
}
