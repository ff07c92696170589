//! Runs rounds of additions, queries or copies of the decision procedure, and prints a checksum.
#![tactic(auto)]

mod order;
mod sorts;

use anyhow::{Result, bail};
use std::alloc::Global;
use std::env;

/// What each round does.
#[derive(Clone, Copy)]
pub enum Work {
    Additions,
    Queries,
    Copies,
}

fn work_of(word: &str) -> Option<Work> {
    if word == "additions" {
        Some(Work::Additions)
    } else if word == "queries" {
        Some(Work::Queries)
    } else if word == "copies" {
        Some(Work::Copies)
    } else {
        None
    }
}

fn checksum(alloc: Global, words: &[String]) -> Result<u64> {
    let [_, part, work, variables, count] = words else {
        bail!("PART WORK VARIABLES COUNT");
    };
    let variables = variables.as_str().parse::<u64>()?;
    let count = count.as_str().parse::<u64>()?;
    let Some(work) = work_of(work.as_str()) else {
        bail!("no such work");
    };
    if variables < 2 || variables >= 10_000 {
        bail!("2 to 9999 variables");
    }
    if part.as_str() == "order" {
        return Ok(order::run(alloc, work, variables, count)?);
    }
    Ok(sorts::run(alloc, work, variables, count)?)
}

fn main(rt: HostRuntime) -> Result<()> {
    let words = env::args(&rt)?.collect::<Vec<String>>(rt.alloc())?;
    let sum = checksum(rt.alloc(), words.as_slice())?;
    println!(rt; "{sum}")?;
    Ok(())
}
