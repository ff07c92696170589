//! Prints the reports of pairs.
//!
//! A line of standard input is a row, `MODEL|PAIRS|LIMIT`: `posix` or the text of a model, whose pairs, and how many
//! paths a pair may have. PAIRS are the numbers of two calls, `A B`, or `report` for all pairs; the report of these
//! pairs goes out as text. With `every` all pairs are added up, and one line says how many there are and how many are
//! over a limit; where none is, how many paths and cases they have.
#![tactic(auto)]

mod rows;

ghost use Rattle.std.specs.Prelude.{◌<◌, ◌^◌, length};
ghost use Rattle.cm_types.specs.Source.{IsRead};

use crate::rows::{show_every, show_pair, show_report};
use anyhow::{Result, bail};
use cm_model::{Model, Pair};
use cm_posix::posix_text;
use cm_syntax::{Tree, read_tree};
use cm_types::check;
use std::alloc::Global;

// How long a text is at most.
const LONGEST: usize = 1_048_576;

fn checked(alloc: Global, tree: &Tree) -> Result<Model>
    requires read { IsRead tree.now }
{
    match check(alloc, tree) {
        Ok(model) => Ok(model),
        Err(fault) => bail!("{fault}"),
    }
}

fn read_model(alloc: Global, text: &[u8]) -> Result<Model> {
    if text.len() > LONGEST {
        bail!("a text has at most a mebibyte");
    }
    match read_tree(alloc, text) {
        Ok(tree) => checked(alloc, &tree),
        Err(fault) => bail!("{fault}"),
    }
}

fn model_of(alloc: Global, word: &str) -> Result<Model> {
    if word == "posix" {
        return read_model(alloc, posix_text());
    }
    read_model(alloc, word.as_bytes())
}

fn pair_of(words: &str) -> Result<Pair> {
    let Some((a, b)) = words.split_once(' ') else {
        bail!("no pair: {words}");
    };
    Ok(Pair {
        a: a.parse::<u16>()?,
        b: b.parse::<u16>()?,
    })
}

fn answer_pair(rt: &HostRuntime, model: &Model, pair: Pair, limit: u32) -> Result<()> {
    let calls = model.calls().len();
    if usize::from(pair.a) >= calls || usize::from(pair.b) >= calls {
        bail!("no such call: {} {}", pair.a, pair.b);
    }
    show_pair(rt, model, pair, limit)
}

fn answer_on(rt: &HostRuntime, model: &Model, words: &str) -> Result<()> {
    let Some((pairs, limit)) = words.split_once('|') else {
        bail!("PAIRS|LIMIT");
    };
    let limit = limit.parse::<u32>()?;
    match pairs {
        "report" => show_report(rt, model, limit),
        "every" => show_every(rt, model, limit),
        _ => answer_pair(rt, model, pair_of(pairs)?, limit),
    }
}

fn answer(rt: &HostRuntime, line: &str) -> Result<()> {
    let Some((text, words)) = line.split_once('|') else {
        bail!("no model: {line}");
    };
    let model = model_of(rt.alloc(), text)?;
    answer_on(rt, &model, words)
}

fn main(rt: HostRuntime) -> Result<()> {
    for line in rt.lines(rt.alloc()) {
        answer(&rt, line?.as_str())?;
    }
    Ok(())
}
