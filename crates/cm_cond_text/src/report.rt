//! The text of reports.

ghost use Rattle.std.specs.Prelude.{◌≡◌, ◌++◌, flat_map, slice_get, OnOk};
ghost use Rattle.cm_cond_text.specs.Reports.{call_name, text_of_case, over_text, body_text};
ghost use Rattle.cm_cond_text.specs.Reports.{pair_line, text_of_entry, text_of_report};
ghost use Rattle.cm_cond_text.specs.inner.Lines.{cell_line, cell_lines_in, literal_lines_in};

use crate::cell::push_cell_in;
use crate::literal::push_literal_in;
use crate::number::push_number;
use crate::scope::Scope;
use cm_cond::{Case, CellTerm, Literal, PairEntry, PairReport, Report};
use cm_model::{Model, NoMemory, Over, Pair};

/// Appends the text of a report: its first line, the entries, and the closing line. What the model doesn't declare
/// has no name.
///
/// # Errors
/// `NoMemory` where memory runs out. A part of the text may be there then.
pub fn print_report(model: &Model, report: &Report, to: &mut Vec<u8>) -> Result<(), NoMemory>
    ensures text { OnOk result (to.new.items ≡ to.old.items ++ text_of_report model.now report.now) }
{
    to.extend_from_slice(b"commuter report 1\n")?;
    push_entries(model, report.pairs.as_slice(), to)?;
    to.extend_from_slice(b"done\n")?;
    Ok(())
}

fn push_entries(model: &Model, entries: &[PairEntry], to: &mut Vec<u8>) -> Result<(), NoMemory>
    ensures { OnOk result (to.new.items ≡ to.old.items ++ flat_map (text_of_entry model.now) entries.now) }
{
    'entries: for entry in entries {
        print_entry(model, entry, to)?;
    }
    Ok(())
}

/// Appends the text of one pair.
///
/// # Errors
/// `NoMemory` where memory runs out. A part of the text may be there then.
pub fn print_entry(model: &Model, entry: &PairEntry, to: &mut Vec<u8>) -> Result<(), NoMemory>
    ensures text { OnOk result (to.new.items ≡ to.old.items ++ text_of_entry model.now entry.now) }
{
    push_pair(model, entry.pair, to)?;
    push_body(model, entry.pair, &entry.body, to)
}

fn push_call_name(model: &Model, call: u16, to: &mut Vec<u8>) -> Result<(), NoMemory>
    ensures { OnOk result (to.new.items ≡ to.old.items ++ call_name (slice_get model.now.calls call)) }
{
    match model.calls().as_slice().get(usize::from(call)) {
        Some(declared) => {
            to.extend_from_slice(declared.name.as_bytes())?;
            Ok(())
        }
        None => Ok(()),
    }
}

fn push_pair(model: &Model, pair: Pair, to: &mut Vec<u8>) -> Result<(), NoMemory>
    ensures { OnOk result (to.new.items ≡ to.old.items ++ pair_line model.now pair) }
{
    to.extend_from_slice(b"pair ")?;
    push_call_name(model, pair.a, to)?;
    to.extend_from_slice(b" ")?;
    push_call_name(model, pair.b, to)?;
    to.extend_from_slice(b"\n")?;
    Ok(())
}

fn push_over(over: Over, to: &mut Vec<u8>) -> Result<(), NoMemory>
    ensures { OnOk result (to.new.items ≡ to.old.items ++ over_text over) }
{
    match over {
        Over::Paths => to.extend_from_slice(b"over paths\n")?,
        Over::Long => to.extend_from_slice(b"over long\n")?,
        Over::Cells => to.extend_from_slice(b"over cells\n")?,
    }
    Ok(())
}

fn push_body(model: &Model, pair: Pair, body: &PairReport, to: &mut Vec<u8>) -> Result<(), NoMemory>
    ensures { OnOk result (to.new.items ≡ to.old.items ++ body_text model.now pair body.now) }
{
    match body {
        PairReport::Over(over) => push_over(*over, to),
        PairReport::Cases { paths, condition } => {
            to.extend_from_slice(b"paths ")?;
            push_number(i128::from(*paths), to)?;
            to.extend_from_slice(b"\n")?;
            push_cases(model, pair, condition.cases.as_slice(), to)
        }
    }
}

fn push_cases(model: &Model, pair: Pair, cases: &[Case], to: &mut Vec<u8>) -> Result<(), NoMemory>
    ensures { OnOk result (to.new.items ≡ to.old.items ++ flat_map (text_of_case model.now pair) cases.now) }
{
    'cases: for case in cases {
        push_case(model, pair, case, to)?;
    }
    Ok(())
}

fn push_case(model: &Model, pair: Pair, case: &Case, to: &mut Vec<u8>) -> Result<(), NoMemory>
    ensures { OnOk result (to.new.items ≡ to.old.items ++ text_of_case model.now pair case.now) }
{
    let scope = Scope {
        model,
        pair,
        cells: case.cells.as_slice(),
    };
    to.extend_from_slice(b"case\n")?;
    push_cells(&scope, to)?;
    push_literals(&scope, case.literals.as_slice(), to)?;
    to.extend_from_slice(b"end\n")?;
    Ok(())
}

fn push_cell_line(
    scope: &Scope<'_>,
    place: usize,
    cell: &CellTerm,
    to: &mut Vec<u8>,
) -> Result<(), NoMemory>
    ensures { OnOk result (to.new.items ≡ to.old.items ++ cell_line scope.now place cell.now) }
{
    to.extend_from_slice(b"cell c")?;
    push_number(place as i128, to)?;
    to.extend_from_slice(b" = ")?;
    push_cell_in(scope, cell, to)?;
    to.extend_from_slice(b"\n")?;
    Ok(())
}

fn push_cells(scope: &Scope<'_>, to: &mut Vec<u8>) -> Result<(), NoMemory>
    ensures { OnOk result (to.new.items ≡ to.old.items ++ cell_lines_in scope.now 0 scope.now.cells.now) }
{
    'cells: for (i, cell) in scope.cells.iter().enumerate() {
        push_cell_line(scope, i, cell, to)?;
    }
    Ok(())
}

fn push_literals(scope: &Scope<'_>, literals: &[Literal], to: &mut Vec<u8>) -> Result<(), NoMemory>
    ensures { OnOk result (to.new.items ≡ to.old.items ++ literal_lines_in scope.now literals.now) }
{
    'literals: for literal in literals {
        push_literal_in(scope, literal, to)?;
        to.extend_from_slice(b"\n")?;
    }
    Ok(())
}
