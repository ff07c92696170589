//! Runs rounds of copies, questions or additions of a context, and prints what comes of them.
//!
//! The context knows of four arguments and eight cells of types as the POSIX model has them.
#![tactic(auto)]

mod asked;
mod rounds;

use anyhow::{Result, bail};
use cm_model::{Model, NoMemory};
use cm_samples::all_kinds;
use std::alloc::Global;
use std::env;

/// What each round does.
#[derive(Clone, Copy)]
pub enum Work {
    Copies,
    Outcomes,
    Additions,
}

fn work_of(word: &str) -> Option<Work> {
    if word == "copies" {
        Some(Work::Copies)
    } else if word == "outcomes" {
        Some(Work::Outcomes)
    } else if word == "additions" {
        Some(Work::Additions)
    } else {
        None
    }
}

fn on_model(alloc: Global, model: &Model, work: Work, count: u64) -> Result<u64, NoMemory> {
    let ctx = asked::context(alloc, model)?;
    rounds::run(alloc, &ctx, work, count)
}

fn answer(alloc: Global, words: &[String]) -> Result<u64> {
    let [_, work, count] = words else {
        bail!("WORK COUNT");
    };
    let count = count.as_str().parse::<u64>()?;
    let Some(work) = work_of(work.as_str()) else {
        bail!("copies, outcomes or additions");
    };
    let model = all_kinds(alloc)?;
    Ok(on_model(alloc, &model, work, count)?)
}

fn main(rt: HostRuntime) -> Result<()> {
    let words = env::args(&rt)?.collect::<Vec<String>>(rt.alloc())?;
    let number = answer(rt.alloc(), words.as_slice())?;
    println!(rt; "{number}")?;
    Ok(())
}
