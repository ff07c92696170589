//! Reads texts, and prints what is answered to each.
//!
//! A line of standard input is a text, or with tabs between them: a beginning, a number, a piece that stands so many
//! times behind it, and an end. `|` stands for a newline, and `~` for a byte that no text has. For each text its answer
//! goes out: the token at fault, or the tree's place and an outline of the tree.
#![tactic(auto)]

mod outline;

use anyhow::{Result, bail};
use cm_model::Place;
use cm_syntax::{SyntaxFault, read_tree};
use std::alloc::Global;

// The longest text that is made.
const LONGEST: usize = 2_000_000;

fn push_part(text: &mut Vec<u8>, part: &str) -> Result<()> {
    for byte in part.as_bytes() {
        text.push(match *byte {
            b'|' => b'\n',
            b'~' => 255,
            other => other,
        })?;
    }
    Ok(())
}

// The text that a row stands for.
fn text_of(alloc: Global, row: &str) -> Result<Vec<u8>> {
    let mut text = Vec::new(alloc);
    let mut parts = row.split('\t');
    push_part(&mut text, parts.next().unwrap_or(""))?;
    if let (Some(times), Some(piece), Some(end)) = (parts.next(), parts.next(), parts.next()) {
        for _ in 0..times.parse::<u64>()? {
            push_part(&mut text, piece)?;
        }
        push_part(&mut text, end)?;
    }
    Ok(text)
}

fn show_fault(rt: &HostRuntime, fault: SyntaxFault) -> Result<()> {
    match fault {
        SyntaxFault::Syntax(at) => println!(rt; "syntax {}:{}", at.line, at.col)?,
        SyntaxFault::Deep(at) => println!(rt; "deep {}:{}", at.line, at.col)?,
        SyntaxFault::Memory => println!(rt; "memory")?,
    }
    Ok(())
}

fn show(rt: &HostRuntime, text: &[u8]) -> Result<()> {
    if text.len() > LONGEST {
        bail!("a text of more than {LONGEST} bytes");
    }
    match read_tree(rt.alloc(), text) {
        Ok(tree) => outline::show_tree(rt, &tree),
        Err(fault) => show_fault(rt, fault),
    }
}

fn main(rt: HostRuntime) -> Result<()> {
    for row in rt.lines(rt.alloc()) {
        let text = text_of(rt.alloc(), row?.as_str())?;
        show(&rt, &text)?;
    }
    Ok(())
}
