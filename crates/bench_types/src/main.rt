//! Makes a model's text of a shape and a size, and does no more, or reads its tree, or checks that too.
#![tactic(auto)]

ghost use Rattle.std.specs.Prelude.{◌≡◌, ◌<◌, ◌-◌, ◌^◌, length};

use anyhow::{Result, bail};
use cm_syntax::{Tree, read_tree};
use cm_typing::check_tables;
use std::alloc::Global;
use std::env;

// How long a text is at most.
const LONGEST: usize = 1_048_576;

// So many sorts.
fn sorts(alloc: Global, count: u64) -> Result<String> {
    let mut text = String::new(alloc);
    for i in 0..count {
        text.push_str(format!(in alloc; "sort s{i};\n")?.as_str())?;
    }
    Ok(text)
}

// One body with so many locals.
fn body(alloc: Global, count: u64) -> Result<String> {
    let mut text = String::from_str(alloc, "call f(b: bool) -> bool {\n")?;
    for i in 0..count {
        text.push_str(format!(in alloc; "let x{i} = b;\n")?.as_str())?;
    }
    text.push_str("return b; }\n")?;
    Ok(text)
}

fn text_of(alloc: Global, shape: &str, count: u64) -> Result<String> {
    if shape == "sorts" {
        sorts(alloc, count)
    } else if shape == "body" {
        body(alloc, count)
    } else {
        bail!("sorts or body");
    }
}

// How many sorts and calls there are.
fn checked(alloc: Global, tree: &Tree) -> Result<(usize, usize)> {
    match check_tables(alloc, tree) {
        Ok(tables) => Ok((tables.sorts.len(), tables.calls.len())),
        Err(fault) => bail!("{fault}"),
    }
}

fn run(alloc: Global, work: &str, text: &[u8]) -> Result<(usize, usize)> {
    if text.len() > LONGEST {
        bail!("a text has at most a mebibyte");
    }
    if work == "make" {
        return Ok((0, 0));
    }
    let tree = match read_tree(alloc, text) {
        Ok(tree) => tree,
        Err(fault) => bail!("{fault}"),
    };
    if work == "check" {
        checked(alloc, &tree)
    } else {
        Ok((0, tree.more.len()))
    }
}

fn main(rt: HostRuntime) -> Result<()> {
    let words = env::args(&rt)?.collect::<Vec<String>>(rt.alloc())?;
    let [_, work, shape, count] = words.as_slice() else {
        bail!("WORK SHAPE COUNT");
    };
    let count = count.as_str().parse::<u64>()?;
    let text = text_of(rt.alloc(), shape.as_str(), count)?;
    let (first, second) = run(rt.alloc(), work.as_str(), text.as_bytes())?;
    println!(rt; "{first} {second}")?;
    Ok(())
}
