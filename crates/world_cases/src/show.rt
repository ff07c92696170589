//! Values, cells and decisions as they are printed.

use anyhow::Result;
use cm_eval::{CellName, Except, Log, Outcome};
use cm_value::Value;

fn show_elem(rt: &HostRuntime, value: &Value) -> Result<()> {
    match value {
        Value::Elem(n) => print!(rt; "#{n}")?,
        _ => print!(rt; "?")?,
    }
    Ok(())
}

fn show_elems(rt: &HostRuntime, parts: &[Value]) -> Result<()> {
    for (place, part) in parts.iter().enumerate() {
        if place > 0 {
            print!(rt; ",")?;
        }
        show_elem(rt, part)?;
    }
    Ok(())
}

/// Parts and payloads are elements in all rows; another one is shown as `?`.
pub fn show_value(rt: &HostRuntime, value: &Value) -> Result<()> {
    match value {
        Value::Int(n) => print!(rt; "{n}")?,
        Value::Tag(n) => print!(rt; ".{n}")?,
        Value::None => print!(rt; "none")?,
        Value::Elem(n) => print!(rt; "#{n}")?,
        Value::Some(payload) => {
            print!(rt; "some")?;
            return show_elem(rt, payload.get());
        }
        Value::Rec(parts) => return show_elems(rt, parts.as_slice()),
    }
    Ok(())
}

/// Values, with a space before each.
pub fn show_values(rt: &HostRuntime, values: &[Value]) -> Result<()> {
    for value in values {
        print!(rt; " ")?;
        show_value(rt, value)?;
    }
    Ok(())
}

fn show_cell(rt: &HostRuntime, cell: &CellName) -> Result<()> {
    print!(rt; " {}", cell.state)?;
    if let Some(key) = &cell.key {
        print!(rt; "[")?;
        show_value(rt, key)?;
        print!(rt; "]")?;
    }
    Ok(())
}

/// How a call ended.
pub fn show_outcome(rt: &HostRuntime, outcome: &Outcome) -> Result<()> {
    match outcome {
        Outcome::Reply(value) => {
            print!(rt; "reply ")?;
            show_value(rt, value)
        }
        Outcome::Blocked => {
            print!(rt; "blocked")?;
            Ok(())
        }
    }
}

/// A line's end, with decisions before it.
pub fn show_decisions(rt: &HostRuntime, decisions: &[u8]) -> Result<()> {
    print!(rt; " :")?;
    for decision in decisions {
        print!(rt; " {decision}")?;
    }
    println!(rt; "")?;
    Ok(())
}

/// The touched cells, in the order in which they were first touched.
pub fn show_touched(rt: &HostRuntime, log: &Log) -> Result<()> {
    print!(rt; " touched")?;
    for (cell, written) in log
        .cells
        .as_slice()
        .iter()
        .zip(log.written.as_slice().iter())
    {
        show_cell(rt, cell)?;
        if *written {
            print!(rt; "!")?;
        }
    }
    Ok(())
}

/// A line's end, with a state's exceptions before it.
pub fn show_exceptions(rt: &HostRuntime, exceptions: &[Except]) -> Result<()> {
    print!(rt; " held")?;
    for exception in exceptions {
        show_cell(rt, &exception.cell)?;
        print!(rt; "=")?;
        show_value(rt, &exception.value)?;
    }
    println!(rt; "")?;
    Ok(())
}
