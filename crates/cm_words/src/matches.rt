//! What a form makes of words.

ghost use Rattle.std.specs.Prelude.{◌≡◌, true, map, string_bytes, option_map, None, Some, IfOk, IsErrOf};
ghost use Rattle.clap.specs.Words.{app_of, first_of, found_of, is_simple, is_simple_and_free, matches_of, rows_of};
ghost use Rattle.cm_words.specs.Forms.{IsTaken, is_true};

use crate::WordsFault;
use clap::error::ErrorKind;
use clap::{ArgMatches, Command};
use cm_model::Name;
use std::alloc::Global;

/// The matches of the words, where the command's form takes them.
pub fn take<'a>(command: Command<'a>, words: &'a [String]) -> Result<ArgMatches<'a>, WordsFault>
    requires simple { is_simple (app_of command) ≡ true }
    requires free { is_simple_and_free (app_of command) ≡ true }
    ensures taken { IfOk result (λ m. IsTaken (app_of command.entry) (map string_bytes words.entry.now)) }
    ensures matches { IfOk result (λ m.
        rows_of (found_of m) ≡ matches_of (app_of command.entry) (map string_bytes words.entry.now)) }
    ensures usage { IsErrOf result WordsFault.Usage
        → ¬ IsTaken (app_of command.entry) (map string_bytes words.entry.now) }
{
    match command.try_get_matches_from(words) {
        Ok(matches) => Ok(matches),
        Err(error) => match error.kind() {
            ErrorKind::OutOfMemory => Err(WordsFault::Memory),
            _ => Err(WordsFault::Usage),
        },
    }
}

/// The text that the words give to an argument.
pub fn text_of<'a>(matches: &ArgMatches<'a>, id: &str) -> Option<&'a str>
    ensures { option_map (λ t. t.now) result ≡ first_of id.now (rows_of (found_of matches.now)) }
{
    matches.get_str(id)
}

/// The name that the words give to an argument.
pub fn name_of(alloc: Global, matches: &ArgMatches<'_>, id: &str) -> Result<Name, WordsFault>
    ensures name { IfOk result (λ name. first_of id.now (rows_of (found_of matches.now)) ≡ Some name) }
    ensures usage { IsErrOf result WordsFault.Usage → first_of id.now (rows_of (found_of matches.now)) ≡ None }
{
    let Some(text) = text_of(matches, id) else {
        return Err(WordsFault::Usage);
    };
    match Name::from_str(alloc, text) {
        Ok(name) => Ok(name),
        Err(_) => Err(WordsFault::Memory),
    }
}

/// Whether the words give a flag.
pub fn is_set(matches: &ArgMatches<'_>, id: &str) -> bool
    ensures { result ≡ is_true (first_of id.now (rows_of (found_of matches.now))) }
{
    match text_of(matches, id) {
        Some(text) => text == "true",
        None => false,
    }
}
