//! Analyses all pairs of a model, so many rounds, and prints what was done in one.
//!
//! The words are the limit of paths and the number of rounds. The model's text comes on standard input, so that a round
//! of the same reports can be timed from outside as the difference of two runs.
#![tactic(auto)]

mod rounds;

ghost use Rattle.std.specs.Prelude.{◌<◌, ◌^◌, length};
ghost use Rattle.cm_types.specs.Source.{IsRead};

use crate::rounds::{Done, analyze_rounds};
use anyhow::{Result, bail};
use cm_model::Model;
use cm_syntax::{Tree, read_tree};
use cm_types::check;
use std::alloc::Global;
use std::env;

// How long a text is at most.
const LONGEST: usize = 1_048_576;

fn checked(alloc: Global, tree: &Tree) -> Result<Model>
    requires read { IsRead tree.now }
{
    match check(alloc, tree) {
        Ok(model) => Ok(model),
        Err(fault) => bail!("{fault}"),
    }
}

fn read_model(alloc: Global, text: &[u8]) -> Result<Model> {
    if text.len() > LONGEST {
        bail!("a text has at most a mebibyte");
    }
    match read_tree(alloc, text) {
        Ok(tree) => checked(alloc, &tree),
        Err(fault) => bail!("{fault}"),
    }
}

// All lines of standard input.
fn read_text(rt: &HostRuntime) -> Result<String> {
    let mut text = String::new(rt.alloc());
    for line in rt.lines(rt.alloc()) {
        text.push_str(line?.as_str())?;
        text.push_str("\n")?;
    }
    Ok(text)
}

fn analyze_model(rt: &HostRuntime, text: &str, limit: u32, rounds: u32) -> Result<Done> {
    let model = read_model(rt.alloc(), text.as_bytes())?;
    analyze_rounds(rt.alloc(), &model, limit, rounds)
}

fn answer(rt: &HostRuntime, words: &[String]) -> Result<Done> {
    let [_, limit, rounds] = words else {
        bail!("LIMIT ROUNDS");
    };
    let limit = limit.as_str().parse::<u32>()?;
    let rounds = rounds.as_str().parse::<u32>()?;
    let text = read_text(rt)?;
    analyze_model(rt, text.as_str(), limit, rounds)
}

fn main(rt: HostRuntime) -> Result<()> {
    let words = env::args(&rt)?.collect::<Vec<String>>(rt.alloc())?;
    let done = answer(&rt, words.as_slice())?;
    println!(&rt;
        "pairs {} over {} paths {} cases {} bytes {}",
        done.pairs, done.over, done.paths, done.cases, done.bytes
    )?;
    Ok(())
}
