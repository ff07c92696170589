//! One enumeration, as a line of text.

ghost use Rattle.std.specs.Prelude.{◌≡◌, ◌<◌};

use crate::bits::{Bits, Place};
use anyhow::Result;
use cm_ctx::Steps;
use cm_forks::{Fault, Limits, Node, Paths};
use cm_model::Over;
use std::marker::Brand;
use std::sync::ledger::{Blank, Ledger};

/// The limits, and the subject.
#[derive(Clone, Copy)]
pub struct Row {
    pub paths: u32,
    pub decisions: u16,
    pub wide: bool,
}

fn word_of(fault: Fault) -> &'static str {
    match fault {
        Fault::Over(Over::Paths) => "paths",
        Fault::Over(Over::Long) => "long",
        Fault::Over(Over::Cells) => "cells",
        Fault::Memory => "memory",
    }
}

fn show_path(rt: &HostRuntime, path: &[u8]) -> Result<()> {
    for decision in path {
        print!(rt; "{decision}")?;
    }
    print!(rt; " ")?;
    Ok(())
}

fn show_next<L: Ledger>(
    rt: &HostRuntime,
    paths: &mut Paths<Bits>,
    steps: &mut Steps<L>,
) -> Result<()> {
    match paths.next(rt.alloc(), steps) {
        Ok(Some(leaf)) => show_path(rt, leaf.path()),
        Ok(None) => Ok(print!(rt; "- ")?),
        Err(fault) => Ok(print!(rt; "{} ", word_of(fault))?),
    }
}

/// Prints a row, with a counter of its own.
pub fn show_row(rt: &HostRuntime, row: Row) -> Result<()> {
    show_counted::<Brand>(rt, row, Blank::new(1))
}

// Prints seven answers, and the number of additions.
fn show_counted<L: Ledger>(rt: &HostRuntime, row: Row, blank: Blank) -> Result<()>
    requires name { blank.name ≡ L.name }
    requires parts { blank.parts ≡ L.parts }
    requires some { 0 < blank.parts }
{
    let mut steps = Steps::<L>::new(blank);
    let root = Bits {
        wide: row.wide,
        place: Place::Start,
    };
    let limits = Limits {
        paths: row.paths,
        decisions: row.decisions,
    };
    let mut paths = Paths::new(rt.alloc(), root, limits);
    for _ in 0..7 {
        show_next(rt, &mut paths, &mut steps)?;
    }
    println!(rt; "{}", paths.added())?;
    Ok(())
}
