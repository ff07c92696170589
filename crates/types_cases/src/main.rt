//! Checks models' texts, and prints what is answered.
//!
//! A line of standard input is a text, in which `|` stands for a newline. For each a line goes out: `ok` and how many
//! sorts, integer types, enums, records, states, functions and calls there are, or the fault with its place.
#![tactic(auto)]

ghost use Rattle.std.specs.Prelude.{◌≡◌, ◌<◌, ◌-◌, ◌^◌, length};
ghost use Rattle.cm_types.specs.Source.{IsRead};

use anyhow::{Result, bail};
use cm_model::{Model, NoMemory};
use cm_syntax::{Tree, read_tree};
use cm_types::check;
use std::alloc::Global;

// How long a text is at most.
const LONGEST: usize = 1_048_576;

// The text with a newline for each bar.
fn with_newlines(alloc: Global, text: &[u8]) -> Result<Vec<u8>, NoMemory> {
    let mut all = Vec::new(alloc);
    for byte in text {
        all.push(if *byte == b'|' { b'\n' } else { *byte })?;
    }
    Ok(all)
}

fn counts(alloc: Global, model: &Model) -> Result<String> {
    let (sorts, ints, enums, records) = (
        model.sorts().len(),
        model.ints().len(),
        model.enums().len(),
        model.records().len(),
    );
    let (states, funs, calls) = (
        model.states().len(),
        model.funs().len(),
        model.calls().len(),
    );
    Ok(format!(in alloc; "ok {sorts} {ints} {enums} {records} {states} {funs} {calls}")?)
}

fn checked(alloc: Global, tree: &Tree) -> Result<String>
    requires read { IsRead tree.now }
{
    match check(alloc, tree) {
        Ok(model) => counts(alloc, &model),
        Err(fault) => Ok(format!(in alloc; "{fault}")?),
    }
}

fn answer(alloc: Global, text: &[u8]) -> Result<String> {
    if text.len() > LONGEST {
        bail!("a text has at most a mebibyte");
    }
    match read_tree(alloc, text) {
        Ok(tree) => checked(alloc, &tree),
        Err(fault) => Ok(format!(in alloc; "{fault}")?),
    }
}

fn main(rt: HostRuntime) -> Result<()> {
    for row in rt.lines(rt.alloc()) {
        let text = with_newlines(rt.alloc(), row?.as_bytes())?;
        let line = answer(rt.alloc(), text.as_slice())?;
        println!(rt; "{line}")?;
    }
    Ok(())
}
