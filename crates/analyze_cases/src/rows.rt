//! Reports of a model's pairs, as text and added up.

ghost use Rattle.std.specs.Prelude.{◌≡◌, ◌<◌, length, IfOk};
ghost use Rattle.cm_case.specs.Report.{IsRightReport};
ghost use Rattle.cm_cond_text.specs.Reports.{text_of_report};

use anyhow::{Result, bail};
use cm_analyze::analyze_pair;
use cm_cond::{PairEntry, PairReport, Report};
use cm_cond_text::print_report;
use cm_ctx::Steps;
use cm_model::{List, Model, NoMemory, Pair};
use std::alloc::Global;
use std::marker::Brand;
use std::sync::ledger::{Blank, Ledger};

fn report_counted<L: Ledger>(
    alloc: Global,
    model: &Model,
    pair: Pair,
    limit: u32,
    blank: Blank,
) -> Result<PairReport, NoMemory>
    requires a { pair.a < length model.now.calls }
    requires b { pair.b < length model.now.calls }
    requires name { blank.name ≡ L.name }
    requires parts { blank.parts ≡ L.parts }
    requires some { 0 < blank.parts }
    ensures right { IfOk result (λ report. IsRightReport model.now pair limit report) }
{
    let mut steps = Steps::<L>::new(blank);
    analyze_pair(alloc, model, pair, limit, &mut steps)
}

// The report of a pair, with a counter of its own.
fn report_of(alloc: Global, model: &Model, pair: Pair, limit: u32) -> Result<PairReport, NoMemory>
    requires a { pair.a < length model.now.calls }
    requires b { pair.b < length model.now.calls }
    ensures right { IfOk result (λ report. IsRightReport model.now pair limit report) }
{
    report_counted::<Brand>(alloc, model, pair, limit, Blank::new(1))
}

fn push_entry(
    alloc: Global,
    model: &Model,
    pair: Pair,
    limit: u32,
    to: &mut List<PairEntry>,
) -> Result<(), NoMemory>
    requires a { pair.a < length model.now.calls }
    requires b { pair.b < length model.now.calls }
{
    let body = report_of(alloc, model, pair, limit)?;
    to.push(PairEntry { pair, body })?;
    Ok(())
}

fn push_entries(
    alloc: Global,
    model: &Model,
    limit: u32,
    to: &mut List<PairEntry>,
) -> Result<(), NoMemory> {
    for k in 0..model.pair_count() {
        push_entry(alloc, model, model.pair_at(k), limit, to)?;
    }
    Ok(())
}

fn text_of(alloc: Global, model: &Model, report: &Report) -> Result<Vec<u8>, NoMemory>
    ensures text { IfOk result (λ text. text.items ≡ text_of_report model.now report.now) }
{
    let mut text = Vec::new(alloc);
    print_report(model, report, &mut text)?;
    Ok(text)
}

fn show(rt: &HostRuntime, model: &Model, report: &Report) -> Result<()> {
    let text = text_of(rt.alloc(), model, report)?;
    match str::from_utf8(text.as_slice()) {
        Ok(text) => print!(rt; "{text}")?,
        Err(_) => bail!("no text"),
    }
    Ok(())
}

/// Prints the report of one pair.
pub fn show_pair(rt: &HostRuntime, model: &Model, pair: Pair, limit: u32) -> Result<()>
    requires a { pair.a < length model.now.calls }
    requires b { pair.b < length model.now.calls }
{
    let mut pairs = List::new(rt.alloc());
    push_entry(rt.alloc(), model, pair, limit, &mut pairs)?;
    show(rt, model, &Report { pairs })
}

/// Prints the report of all pairs of a model.
pub fn show_report(rt: &HostRuntime, model: &Model, limit: u32) -> Result<()> {
    let mut pairs = List::new(rt.alloc());
    push_entries(rt.alloc(), model, limit, &mut pairs)?;
    show(rt, model, &Report { pairs })
}

// What the reports of all pairs come to.
#[derive(Clone, Copy)]
struct Sum {
    pairs: u32,
    over: u32,
    paths: u64,
    cases: u64,
}

impl Sum {
    fn count(&mut self, report: &PairReport) {
        self.pairs = self.pairs.saturating_add(1);
        match report {
            PairReport::Cases { paths, condition } => {
                self.paths = self.paths.saturating_add(u64::from(*paths));
                self.cases = self.cases.saturating_add(condition.cases.len() as u64);
            }
            PairReport::Over(_) => self.over = self.over.saturating_add(1),
        }
    }
}

fn sum_of(alloc: Global, model: &Model, limit: u32) -> Result<Sum, NoMemory> {
    let mut sum = Sum {
        pairs: 0,
        over: 0,
        paths: 0,
        cases: 0,
    };
    for k in 0..model.pair_count() {
        sum.count(&report_of(alloc, model, model.pair_at(k), limit)?);
    }
    Ok(sum)
}

/// Prints how many pairs a model has, and how many pass a limit; where none does, how many paths and cases they have.
pub fn show_every(rt: &HostRuntime, model: &Model, limit: u32) -> Result<()> {
    let sum = sum_of(rt.alloc(), model, limit)?;
    if sum.over == 0 {
        println!(rt;
            "{} pairs, none over, {} paths, {} cases",
            sum.pairs, sum.paths, sum.cases
        )?;
    } else {
        println!(rt; "{} pairs, {} over", sum.pairs, sum.over)?;
    }
    Ok(())
}
