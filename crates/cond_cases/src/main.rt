//! Prints reports that rows make, and asks whether their cases hold of worlds.
//!
//! A line of standard input is `TEXT|TASK ..`, where TEXT is a model. `print ENTRY & ENTRY ..` prints the report of
//! these entries. An entry is `A B paths`, `A B long` or `A B cells` for a pair that is over a limit, or `A B N !
//! CASE ! CASE ..` with the number of paths; A and B are the numbers of two calls. A case is its cells and
//! literals, each behind a `;`. A cell is `cell STATE` or `cell STATE KEY`. A literal is `same X Y`, `differ X Y`,
//! `order X PLUS OP Y`, `against X OP N`, `within X PLUS LO HI`, `tag X INDEX`, `none X` or `some X`. A symbol is
//! `a0`, `b0` or `c0` with its steps behind dots, a field's number or `s` for a payload. A key is `e:SYMBOL` for an
//! element, `t:SYMBOL` for a variant, `v:INDEX`, a number, `SYMBOL~PLUS`, or several of these with commas between
//! for a record.
//!
//! `holds A B / CELL.. / VALUE.. / VALUE.. ! CASE ! CASE ..` says of the world with these cells and arguments which
//! of the cases hold of it, and whether the condition does. A cell is `STATE=VALUE` or `STATE[VALUE]=VALUE`; a
//! value is a number, `#N`, `.INDEX`, `none`, `someVALUE`, or several with commas between for a record.
#![tactic(auto)]

mod parts;
mod report;
mod world;

ghost use Rattle.std.specs.Prelude.{◌<◌, ◌-◌, ◌^◌, length};
ghost use Rattle.cm_types.specs.Source.{IsRead};
ghost use Rattle.cm_world.specs.World.{IsWorldOf};

use anyhow::{Result, bail};
use cm_cond::{Condition, condition_holds, holds};
use cm_cond_text::print_report;
use cm_model::{Model, Pair};
use cm_syntax::{Tree, read_tree};
use cm_types::check;
use cm_world::{World, is_world_of};
use std::alloc::Global;

// How long a text is at most.
const LONGEST: usize = 1_048_576;

fn checked(alloc: Global, tree: &Tree) -> Result<Model>
    requires read { IsRead tree.now }
{
    match check(alloc, tree) {
        Ok(model) => Ok(model),
        Err(fault) => bail!("{fault}"),
    }
}

// The model that a text has.
fn read_model(alloc: Global, text: &[u8]) -> Result<Model> {
    if text.len() > LONGEST {
        bail!("a text has at most a mebibyte");
    }
    match read_tree(alloc, text) {
        Ok(tree) => checked(alloc, &tree),
        Err(fault) => bail!("{fault}"),
    }
}

fn print(rt: &HostRuntime, model: &Model, rest: &str) -> Result<()> {
    let report = report::read(rt.alloc(), rest)?;
    let mut text = Vec::new(rt.alloc());
    print_report(model, &report, &mut text)?;
    show(rt, text.as_slice())
}

fn show(rt: &HostRuntime, text: &[u8]) -> Result<()> {
    match str::from_utf8(text) {
        Ok(text) => print!(rt; "{text}")?,
        Err(_) => bail!("no text"),
    }
    Ok(())
}

fn ask(rt: &HostRuntime, model: &Model, rest: &str) -> Result<()> {
    let (row, cases) = rest.split_once('!').unwrap_or((rest, ""));
    let condition = report::condition(rt.alloc(), cases)?;
    let (pair, world) = world::read(rt.alloc(), model, row)?;
    if !is_world_of(model, pair, &world) {
        println!(rt; "no world of the pair")?;
        return Ok(());
    }
    tell(rt, model, pair, &condition, &world)
}

fn tell(
    rt: &HostRuntime,
    model: &Model,
    pair: Pair,
    condition: &Condition,
    world: &World,
) -> Result<()>
    requires world { IsWorldOf model.now pair world.now }
{
    for case in condition.cases.as_slice() {
        let answer = holds(rt.alloc(), model, pair, case, world)?;
        print!(rt; "{} ", if answer { "yes" } else { "no" })?;
    }
    let answer = condition_holds(rt.alloc(), model, pair, condition, world)?;
    println!(rt; "/ {}", if answer { "yes" } else { "no" })?;
    Ok(())
}

fn answer(rt: &HostRuntime, row: &str) -> Result<()> {
    let Some((text, row)) = row.split_once('|') else {
        bail!("TEXT|TASK ..");
    };
    let (task, rest) = row.split_once(' ').unwrap_or((row, ""));
    let model = read_model(rt.alloc(), text.as_bytes())?;
    match task {
        "print" => print(rt, &model, rest),
        "holds" => ask(rt, &model, rest),
        _ => bail!("no task {task}"),
    }
}

fn main(rt: HostRuntime) -> Result<()> {
    for row in rt.lines(rt.alloc()) {
        answer(&rt, row?.as_str())?;
    }
    Ok(())
}
