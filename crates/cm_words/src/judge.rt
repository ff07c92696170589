//! The words behind `judge`.

ghost use Rattle.std.specs.Prelude.{◌≡◌, ◌∷◌, codes, map, string_bytes, IfOk, IsErrOf};
ghost use Rattle.clap.specs.Words.{app_of};
ghost use Rattle.cm_words.specs.Tasks.{IsTaskOf, judge_form};
ghost use Rattle.cm_words.specs.declared.task.Task.{Task};

use crate::form::{bare, positional, with};
use crate::matches::{name_of, take};
use crate::{Task, WordsFault};
use clap::Command;
use std::alloc::{AllocError, Global};

fn command<'a>(alloc: Global) -> Result<Command<'a>, AllocError>
    ensures { IfOk result (λ c. app_of c ≡ judge_form) }
{
    with(bare(alloc, "judge"), positional(alloc, "FILE"))
}

pub fn read(alloc: Global, words: &[String]) -> Result<Task, WordsFault>
    ensures task { IfOk result (IsTaskOf (codes "judge" ∷ map string_bytes words.now)) }
    ensures usage { IsErrOf result WordsFault.Usage
        → (task : Task) → ¬ IsTaskOf (codes "judge" ∷ map string_bytes words.now) task }
{
    let Ok(command) = command(alloc) else {
        return Err(WordsFault::Memory);
    };
    let matches = match take(command, words) {
        Ok(matches) => matches,
        Err(fault) => return Err(fault),
    };
    let file = match name_of(alloc, &matches, "FILE") {
        Ok(file) => file,
        Err(fault) => return Err(fault),
    };
    Ok(Task::Judge { file })
}
