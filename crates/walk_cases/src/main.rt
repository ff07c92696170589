//! Walks over the paths of pairs, and prints what comes of each call.
//!
//! A line of standard input is a row, `MODEL|A B|LIMIT|SHOW`: `posix` or the text of a model, the numbers of two calls,
//! how many leaves there are at most, and `all` or `count`. With `all` each leaf goes out on a line: its decisions, how
//! many of them were open, how many cells it has, and its verdict, `never` or the number of equalities. A line ends the
//! row: how many leaves were given, how many additions were made, and `end`, or the limit that is passed. The last
//! answer must come again. With `MODEL|every|LIMIT` each pair is walked over, and one line sums it up.
#![tactic(auto)]

mod rows;

ghost use Rattle.std.specs.Prelude.{◌<◌, ◌^◌, length};
ghost use Rattle.cm_types.specs.Source.{IsRead};

use crate::rows::{Row, show_every, show_row};
use anyhow::{Result, bail};
use cm_model::{Model, Pair};
use cm_posix::posix_text;
use cm_syntax::{Tree, read_tree};
use cm_types::check;
use std::alloc::Global;

// How long a text is at most.
const LONGEST: usize = 1_048_576;

fn checked(alloc: Global, tree: &Tree) -> Result<Model>
    requires read { IsRead tree.now }
{
    match check(alloc, tree) {
        Ok(model) => Ok(model),
        Err(fault) => bail!("{fault}"),
    }
}

fn read_model(alloc: Global, text: &[u8]) -> Result<Model> {
    if text.len() > LONGEST {
        bail!("a text has at most a mebibyte");
    }
    match read_tree(alloc, text) {
        Ok(tree) => checked(alloc, &tree),
        Err(fault) => bail!("{fault}"),
    }
}

fn model_of(alloc: Global, word: &str) -> Result<Model> {
    if word == "posix" {
        return read_model(alloc, posix_text());
    }
    read_model(alloc, word.as_bytes())
}

fn pair_of(words: &str) -> Result<Pair> {
    let Some((a, b)) = words.split_once(' ') else {
        bail!("no pair: {words}");
    };
    Ok(Pair {
        a: a.parse::<u16>()?,
        b: b.parse::<u16>()?,
    })
}

fn row_of(words: &str) -> Result<Row> {
    let mut fields = words.split('|');
    let (Some(pair), Some(limit), Some(show)) = (fields.next(), fields.next(), fields.next()) else {
        bail!("A B|LIMIT|SHOW");
    };
    Ok(Row {
        pair: pair_of(pair)?,
        limit: limit.parse::<u32>()?,
        all: show == "all",
    })
}

fn answer_on(rt: &HostRuntime, model: &Model, words: &str) -> Result<()> {
    if let Some(limit) = words.strip_prefix("every|") {
        return show_every(rt, model, limit.parse::<u32>()?);
    }
    let row = row_of(words)?;
    let calls = model.calls().len();
    if usize::from(row.pair.a) >= calls || usize::from(row.pair.b) >= calls {
        bail!("no such call: {words}");
    }
    show_row(rt, model, row)
}

fn answer(rt: &HostRuntime, line: &str) -> Result<()> {
    let Some((text, words)) = line.split_once('|') else {
        bail!("no model: {line}");
    };
    let model = model_of(rt.alloc(), text)?;
    answer_on(rt, &model, words)
}

fn main(rt: HostRuntime) -> Result<()> {
    for line in rt.lines(rt.alloc()) {
        answer(&rt, line?.as_str())?;
    }
    Ok(())
}
