//! Follows calls on terms, and comparisons of terms. A line of standard input is a row.
//!
//! `MODEL|A B|CELL..|VALUE..|VALUE..` is a pair: a sample model by its name, `posix` or the text of a model, the
//! numbers of two calls, cells of the initial state, and the arguments of each call. A cell is `STATE=VALUE` or
//! `STATE[KEY]=VALUE`; a value is an integer, `#N` for an element, `.N` for a variant, `none`, `some` before the
//! payload, or the parts of a record with commas between.
//!
//! The calls run on terms over a new context: a in ab, b in ab, b in ba, a in ba, and then the last comparison. What
//! a question stands for in the world is worked out from its variables. It must be the path's next decision, and is
//! what is answered: to a copy, which goes on, while the origin must ask the same again. Where all is as on values, a
//! line goes out with `same`, how the world ends, the decisions of each part with `/` behind it, and the touched
//! cells, `!` behind those written; else one that says what is otherwise.
//!
//! `call|MODEL|CALL` is one call on unknown arguments and cells, and `compare|LEFT RIGHT|..` a comparison of pairs of
//! terms, as `written.rt` has them. The line that goes out has what is asked, and for each outcome, in brackets, what
//! comes behind it, to the end: a reply, `blocked`, `cells` where one more than a path may touch would be touched;
//! `unequal`, or `needs` and the equalities.
#![tactic(auto)]

mod chain;
mod given;
mod known;
mod settling;
mod show;
mod terms;
mod tree;
mod values;
mod written;

ghost use Rattle.std.specs.Prelude.{◌<◌, ◌-◌, ◌^◌, length};
ghost use Rattle.cm_types.specs.Source.{IsRead};

use crate::chain::{Progress, follow_chain};
use crate::terms::Case;
use crate::values::OnValues;
use anyhow::{Result, bail};
use cm_model::{List, Model, NoMemory, Pair};
use cm_posix::posix_text;
use cm_syntax::{Tree, read_tree};
use cm_types::check;
use cm_world::World;
use std::alloc::Global;

// How long a text is at most.
const LONGEST: usize = 1_048_576;

// The sample model with this name.
fn sample(alloc: Global, name: &str) -> Result<Option<Model>, NoMemory> {
    let model = match name {
        "bounded" => cm_samples::bounded(alloc)?,
        "fire" => cm_samples::fire(alloc)?,
        "inc" => cm_samples::inc(alloc)?,
        "map" => cm_samples::map(alloc)?,
        "max" => cm_samples::max(alloc)?,
        "next" => cm_samples::next(alloc)?,
        "open" => cm_samples::open(alloc)?,
        "opt" => cm_samples::opt(alloc)?,
        "payloads" => cm_samples::payloads(alloc)?,
        "records" => cm_samples::records(alloc)?,
        "reg" => cm_samples::reg(alloc)?,
        "routines" => cm_samples::routines(alloc)?,
        "unset" => cm_samples::unset(alloc)?,
        _ => return Ok(None),
    };
    Ok(Some(model))
}

fn checked(alloc: Global, tree: &Tree) -> Result<Model>
    requires read { IsRead tree.now }
{
    match check(alloc, tree) {
        Ok(model) => Ok(model),
        Err(fault) => bail!("{fault}"),
    }
}

// The model that a text has.
fn read_model(alloc: Global, text: &[u8]) -> Result<Model> {
    if text.len() > LONGEST {
        bail!("a text has at most a mebibyte");
    }
    match read_tree(alloc, text) {
        Ok(tree) => checked(alloc, &tree),
        Err(fault) => bail!("{fault}"),
    }
}

fn model_of(alloc: Global, word: &str) -> Result<Model> {
    if word == "posix" {
        return read_model(alloc, posix_text());
    }
    match sample(alloc, word)? {
        Some(model) => Ok(model),
        None => read_model(alloc, word.as_bytes()),
    }
}

fn pair_of(words: &str) -> Result<Pair> {
    let Some((a, b)) = words.split_once(' ') else {
        bail!("no pair: {words}");
    };
    Ok(Pair {
        a: a.parse::<u16>()?,
        b: b.parse::<u16>()?,
    })
}

fn answer_case(rt: &HostRuntime, case: &Case, progress: &mut Progress) -> Result<()> {
    match follow_chain(rt.alloc(), case, progress) {
        Ok(verdict) => show::show(rt, verdict, progress, case.values),
        Err(fault) => {
            println!(rt; "{fault}")?;
            Ok(())
        }
    }
}

fn answer_world(rt: &HostRuntime, model: &Model, pair: Pair, world: &World) -> Result<()> {
    let values = OnValues::of(rt.alloc(), model, pair, world)?;
    let case = Case {
        model,
        pair,
        world,
        values: &values,
    };
    let mut progress = Progress {
        at: 0,
        parts: List::new(rt.alloc()),
    };
    answer_case(rt, &case, &mut progress)
}

fn answer_on(rt: &HostRuntime, model: &Model, pair: Pair, given: &str) -> Result<()> {
    let world = given::world_of(rt.alloc(), model, given)?;
    answer_world(rt, model, pair, &world)
}

fn answer_pair(rt: &HostRuntime, model: &str, row: &str) -> Result<()> {
    let (pair, given) = row.split_once('|').unwrap_or((row, ""));
    let pair = pair_of(pair)?;
    let model = model_of(rt.alloc(), model)?;
    answer_on(rt, &model, pair, given)
}

fn answer_call(rt: &HostRuntime, row: &str) -> Result<()> {
    let Some((model, call)) = row.split_once('|') else {
        bail!("no call: {row}");
    };
    let call = call.parse::<u16>()?;
    let model = model_of(rt.alloc(), model)?;
    tree::answer(rt, &model, call)
}

fn answer(rt: &HostRuntime, row: &str) -> Result<()> {
    let Some((word, rest)) = row.split_once('|') else {
        bail!("no row: {row}");
    };
    if word == "call" {
        answer_call(rt, rest)
    } else if word == "compare" {
        settling::answer(rt, rest)
    } else {
        answer_pair(rt, word, rest)
    }
}

fn main(rt: HostRuntime) -> Result<()> {
    for row in rt.lines(rt.alloc()) {
        answer(&rt, row?.as_str())?;
    }
    Ok(())
}
