//! Runs calls and worlds of the sample models, and prints what comes of them.
//!
//! A line of standard input is a row of words. `run MODEL CELL.. / CALL VALUE.. / CALL VALUE..` runs calls one after
//! another on one state and one log: a line goes out for each with its outcome and all decisions so far, and one with
//! the touched cells (`!` behind one that was written) and the exceptions at the end. `world MODEL A B CELL.. / VALUE..
//! / VALUE..` gives the path of a world of the pair of calls A and B, and whether it commutes. `locality MODEL A B
//! CELL.. / VALUE.. / VALUE.. / CELL..` gives both of that world, and of the one with the same arguments and the last
//! cells. `relabelling MODEL A B CELL.. / VALUE.. / VALUE.. / SORT X Y` gives both of that world and of the one in
//! which the elements X and Y of the sort are exchanged, then that world, and the one with both exchanged again. `met
//! MODEL STATE VALUE` gives whether a value meets a state's invariant. `count MODEL` runs the first call, and counts
//! its decisions. `states MODEL CELL.. / CELL.. / ELEMENT..` copies a state, sets more cells in it, and tells both, and
//! what its first map holds. `text TEXT|TASK ..` does a task on the model that a text has. A cell is `STATE=VALUE` or
//! `STATE[ELEMENT]=VALUE`; a value is an integer, `#N` an element, `.0` or `.1` a variant of bool, `some#N`, `none`, or
//! `#M,#N` for a record of two elements.
#![tactic(auto)]

mod given;
mod rows;
mod show;

ghost use Rattle.std.specs.Prelude.{◌<◌, ◌-◌, ◌^◌, length};
ghost use Rattle.cm_types.specs.Source.{IsRead};

use anyhow::{Result, bail};
use cm_model::{Model, NoMemory};
use cm_syntax::{Tree, read_tree};
use cm_types::check;
use std::alloc::Global;

// How long a text is at most.
const LONGEST: usize = 1_048_576;

// The sample model with this name.
fn model_of(alloc: Global, name: &str) -> Result<Option<Model>, NoMemory> {
    let model = match name {
        "bounded" => cm_samples::bounded(alloc)?,
        "inc" => cm_samples::inc(alloc)?,
        "max" => cm_samples::max(alloc)?,
        "next" => cm_samples::next(alloc)?,
        "deepest" => cm_samples::deepest(alloc)?,
        "fire" => cm_samples::fire(alloc)?,
        "open" => cm_samples::open(alloc)?,
        "unset" => cm_samples::unset(alloc)?,
        "routines" => cm_samples::routines(alloc)?,
        "payloads" => cm_samples::payloads(alloc)?,
        "records" => cm_samples::records(alloc)?,
        "map" => cm_samples::map(alloc)?,
        "opt" => cm_samples::opt(alloc)?,
        "reg" => cm_samples::reg(alloc)?,
        _ => return Ok(None),
    };
    Ok(Some(model))
}

fn checked(alloc: Global, tree: &Tree) -> Result<Model>
    requires read { IsRead tree.now }
{
    match check(alloc, tree) {
        Ok(model) => Ok(model),
        Err(fault) => bail!("{fault}"),
    }
}

// The model that a text has.
fn read_model(alloc: Global, text: &[u8]) -> Result<Model> {
    if text.len() > LONGEST {
        bail!("a text has at most a mebibyte");
    }
    match read_tree(alloc, text) {
        Ok(tree) => checked(alloc, &tree),
        Err(fault) => bail!("{fault}"),
    }
}

fn answer_on_text(rt: &HostRuntime, row: &str) -> Result<()> {
    let Some((text, row)) = row.split_once('|') else {
        bail!("text TEXT|TASK ..");
    };
    let (task, rest) = row.split_once(' ').unwrap_or((row, ""));
    let model = read_model(rt.alloc(), text.as_bytes())?;
    rows::answer(rt, &model, task, rest)
}

fn answer_on_sample(rt: &HostRuntime, task: &str, rest: &str) -> Result<()> {
    let (name, rest) = rest.split_once(' ').unwrap_or((rest, ""));
    match model_of(rt.alloc(), name)? {
        Some(model) => rows::answer(rt, &model, task, rest),
        None => bail!("no model {name}"),
    }
}

fn answer(rt: &HostRuntime, row: &str) -> Result<()> {
    let Some((task, rest)) = row.split_once(' ') else {
        bail!("TASK MODEL ..");
    };
    match task {
        "text" => answer_on_text(rt, rest),
        _ => answer_on_sample(rt, task, rest),
    }
}

fn main(rt: HostRuntime) -> Result<()> {
    for row in rt.lines(rt.alloc()) {
        answer(&rt, row?.as_str())?;
    }
    Ok(())
}
