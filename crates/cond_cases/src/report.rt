//! Reports as rows write them.

use crate::parts::{Item, cell, item_of, literal};
use anyhow::Result;
use cm_cond::{Case, CellTerm, Condition, Literal, PairEntry, PairReport, Report};
use cm_model::{List, Over, Pair};
use std::alloc::Global;

fn add(
    alloc: Global,
    cells: &mut List<CellTerm>,
    literals: &mut List<Literal>,
    item: Item<'_>,
) -> Result<()> {
    match item.kind {
        "" => Ok(()),
        "cell" => {
            cells.push(cell(alloc, item)?)?;
            Ok(())
        }
        _ => {
            literals.push(literal(alloc, item)?)?;
            Ok(())
        }
    }
}

fn case(alloc: Global, text: &str) -> Result<Case> {
    let mut cells = List::new(alloc);
    let mut literals = List::new(alloc);
    for part in text.split(';') {
        add(alloc, &mut cells, &mut literals, item_of(part))?;
    }
    Ok(Case { cells, literals })
}

/// A condition of these cases.
pub fn condition(alloc: Global, text: &str) -> Result<Condition> {
    let mut cases = List::new(alloc);
    if text.trim().is_empty() {
        return Ok(Condition { cases });
    }
    for part in text.split('!') {
        cases.push(case(alloc, part)?)?;
    }
    Ok(Condition { cases })
}

fn body(alloc: Global, word: &str, cases: &str) -> Result<PairReport> {
    match word {
        "paths" => Ok(PairReport::Over(Over::Paths)),
        "long" => Ok(PairReport::Over(Over::Long)),
        "cells" => Ok(PairReport::Over(Over::Cells)),
        _ => {
            let paths = word.parse::<u32>()?;
            let condition = condition(alloc, cases)?;
            Ok(PairReport::Cases { paths, condition })
        }
    }
}

fn entry(alloc: Global, text: &str) -> Result<PairEntry> {
    let (head, cases) = text.split_once('!').unwrap_or((text, ""));
    let head = item_of(head);
    let pair = Pair {
        a: head.kind.parse::<u16>()?,
        b: head.first.parse::<u16>()?,
    };
    let body = body(alloc, head.second, cases)?;
    Ok(PairEntry { pair, body })
}

/// The report of some entries.
pub fn read(alloc: Global, text: &str) -> Result<Report> {
    let mut pairs = List::new(alloc);
    if text.trim().is_empty() {
        return Ok(Report { pairs });
    }
    for part in text.split('&') {
        pairs.push(entry(alloc, part)?)?;
    }
    Ok(Report { pairs })
}
