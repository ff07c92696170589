//! What a row prints.

use crate::chain::{Progress, Verdict};
use crate::values::OnValues;
use anyhow::Result;
use cm_eval::{CellName, Log};
use cm_value::Value;

fn word(verdict: Verdict) -> &'static str {
    match verdict {
        Verdict::Blocked => "blocked",
        Verdict::Commutes => "commutes",
        Verdict::Differs => "differs",
    }
}

// The decisions of each part, those that were asked on terms and on values.
fn show_parts(rt: &HostRuntime, parts: &[usize], path: &[u8]) -> Result<()> {
    let mut from = 0usize;
    for end in parts {
        show_decisions(rt, path.get(from..*end).unwrap_or(&[]))?;
        print!(rt; " /")?;
        from = *end;
    }
    Ok(())
}

fn show_decisions(rt: &HostRuntime, decisions: &[u8]) -> Result<()> {
    for decision in decisions {
        print!(rt; " {decision}")?;
    }
    Ok(())
}

fn show_plain(rt: &HostRuntime, value: &Value) -> Result<()> {
    match value {
        Value::Elem(n) => print!(rt; "#{n}")?,
        Value::Int(n) => print!(rt; "{n}")?,
        Value::Tag(n) => print!(rt; ".{n}")?,
        _ => print!(rt; "?")?,
    }
    Ok(())
}

// A key has no parts, or its parts have none; another one is shown as `?`.
fn show_key(rt: &HostRuntime, key: &Value) -> Result<()> {
    let Value::Rec(parts) = key else {
        return show_plain(rt, key);
    };
    for (place, part) in parts.as_slice().iter().enumerate() {
        if place > 0 {
            print!(rt; ",")?;
        }
        show_plain(rt, part)?;
    }
    Ok(())
}

fn show_cell(rt: &HostRuntime, cell: &CellName) -> Result<()> {
    print!(rt; " {}", cell.state)?;
    if let Some(key) = &cell.key {
        print!(rt; "[")?;
        show_key(rt, key)?;
        print!(rt; "]")?;
    }
    Ok(())
}

// The touched cells, those that were written with a mark.
fn show_cells(rt: &HostRuntime, log: &Log) -> Result<()> {
    for (cell, written) in log
        .cells
        .as_slice()
        .iter()
        .zip(log.written.as_slice().iter())
    {
        show_cell(rt, cell)?;
        if *written {
            print!(rt; "!")?;
        }
    }
    Ok(())
}

/// How the chain ended, the decisions of its parts, and the touched cells.
pub fn show(
    rt: &HostRuntime,
    verdict: Verdict,
    progress: &Progress,
    values: &OnValues,
) -> Result<()> {
    print!(rt; "same, {}:", word(verdict))?;
    show_parts(rt, progress.parts.as_slice(), values.path.as_slice())?;
    show_cells(rt, &values.log)?;
    println!(rt; "")?;
    Ok(())
}
