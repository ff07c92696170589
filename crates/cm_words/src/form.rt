//! The forms of the commands, built for clap.

ghost use Rattle.std.specs.Prelude.{◌≡◌, false, IfOk};
ghost use Rattle.clap.specs.Words.{app_of, new_app, rule_of, with_rule};
ghost use Rattle.cm_words.specs.Forms as Forms;

use clap::{Arg, ArgAction, Command};
use std::alloc::{AllocError, Global};

/// A word that must stand by itself.
pub fn positional<'a>(alloc: Global, id: &'a str) -> Arg<'a>
    ensures rule { rule_of result ≡ Forms.positional id.entry.now }
    ensures local { result.global ≡ false }
{
    Arg::new(alloc, id).required(true)
}

/// An option that takes one text.
pub fn option<'a>(alloc: Global, id: &'a str) -> Arg<'a>
    ensures rule { rule_of result ≡ Forms.option id.entry.now }
    ensures local { result.global ≡ false }
{
    Arg::new(alloc, id).long(id)
}

/// An option without a text.
pub fn flag<'a>(alloc: Global, id: &'a str) -> Arg<'a>
    ensures rule { rule_of result ≡ Forms.flag id.entry.now }
    ensures local { result.global ≡ false }
{
    Arg::new(alloc, id).long(id).action(ArgAction::SetTrue)
}

/// A command without arguments, of which clap reads the words behind the name.
pub fn bare<'a>(alloc: Global, name: &'a str) -> Command<'a>
    ensures { app_of result ≡ Forms.bare (new_app name.entry.now) }
{
    Command::new(alloc, name)
        .no_binary_name(true)
        .disable_help_flag(true)
}

/// The command with one argument more.
pub fn with<'a>(command: Command<'a>, arg: Arg<'a>) -> Result<Command<'a>, AllocError>
    requires { arg.global ≡ false }
    ensures { IfOk result (λ c. app_of c ≡ with_rule (app_of command.entry) (rule_of arg.entry)) }
{
    command.arg(arg)
}
