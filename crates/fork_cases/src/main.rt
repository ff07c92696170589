//! Enumerates the paths of small worlds, and prints what comes of each call.
//!
//! A line of standard input has the limit of paths, that of decisions, and whether the last question touches a cell too
//! many, 0 or 1. Seven calls answer on a line: a path by its decisions, `-` for none, or the fault; the number of
//! additions ends it.
#![tactic(auto)]

mod bits;
mod rows;

use crate::rows::{Row, show_row};
use anyhow::{Result, bail};

fn row_of(text: &str) -> Result<Row> {
    let mut words = text.split(' ');
    let (Some(paths), Some(decisions), Some(wide)) = (words.next(), words.next(), words.next())
    else {
        bail!("PATHS DECISIONS WIDE");
    };
    Ok(Row {
        paths: paths.parse::<u32>()?,
        decisions: decisions.parse::<u16>()?,
        wide: wide == "1",
    })
}

fn main(rt: HostRuntime) -> Result<()> {
    for line in rt.lines(rt.alloc()) {
        let row = row_of(line?.as_str())?;
        show_row(&rt, row)?;
    }
    Ok(())
}
