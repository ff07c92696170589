//! The words of the command line.

ghost use Rattle.std.specs.Prelude.{◌≡◌, map, string_bytes, IfOk, IsErrOf};
ghost use Rattle.cm_words.specs.Tasks.{IsTaskOf};
ghost use Rattle.cm_words.specs.declared.task.Task.{Task};

use crate::{Task, WordsFault, judge, posix};
use std::alloc::Global;

/// The task of the words behind the program's name. Usage comes exactly where they have none.
pub fn read_words(alloc: Global, words: &[String]) -> Result<Task, WordsFault>
    // The task is the words' task, and they have no other.
    ensures task { IfOk result (IsTaskOf (map string_bytes words.now)) }
    ensures alone { (task : Task) → IsTaskOf (map string_bytes words.now) task → IfOk result (λ r. r ≡ task) }
    ensures usage { IsErrOf result WordsFault.Usage → (task : Task) → ¬ IsTaskOf (map string_bytes words.now) task }
{
    let [command, words @ ..] = words else {
        return Err(WordsFault::Usage);
    };
    match command.as_str() {
        "judge" => judge::read(alloc, words),
        "posix" => posix::read(alloc, words),
        _ => Err(WordsFault::Usage),
    }
}
