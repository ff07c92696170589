//! Analyses all pairs of a model.

ghost use Rattle.std.specs.Prelude.{◌≡◌, ◌<◌, length, IfOk};
ghost use Rattle.cm_case.specs.Report.{IsRightReport};

use anyhow::Result;
use cm_analyze::analyze_pair;
use cm_cond::{PairEntry, PairReport};
use cm_cond_text::print_entry;
use cm_ctx::Steps;
use cm_model::{Model, NoMemory, Pair};
use std::alloc::Global;
use std::marker::Brand;
use std::sync::ledger::{Blank, Ledger};

/// What was done in a round.
#[derive(Clone, Copy)]
pub struct Done {
    pub pairs: u64,
    /// How many of the pairs are over a limit.
    pub over: u64,
    pub paths: u64,
    pub cases: u64,
    /// How long the text of all reports is.
    pub bytes: u64,
}

const NOTHING: Done = Done {
    pairs: 0,
    over: 0,
    paths: 0,
    cases: 0,
    bytes: 0,
};

impl Done {
    // Counts a pair's report.
    fn count(&mut self, report: &PairReport) {
        self.pairs = self.pairs.saturating_add(1);
        match report {
            PairReport::Cases { paths, condition } => {
                self.paths = self.paths.saturating_add(u64::from(*paths));
                self.cases = self.cases.saturating_add(condition.cases.len() as u64);
            }
            PairReport::Over(_) => self.over = self.over.saturating_add(1),
        }
    }
}

fn analyze_counted<L: Ledger>(
    alloc: Global,
    model: &Model,
    pair: Pair,
    limit: u32,
    blank: Blank,
) -> Result<PairReport, NoMemory>
    requires a { pair.a < length model.now.calls }
    requires b { pair.b < length model.now.calls }
    requires name { blank.name ≡ L.name }
    requires parts { blank.parts ≡ L.parts }
    requires some { 0 < blank.parts }
    ensures right { IfOk result (λ report. IsRightReport model.now pair limit report) }
{
    let mut steps = Steps::<L>::new(blank);
    analyze_pair(alloc, model, pair, limit, &mut steps)
}

fn analyze_one(alloc: Global, model: &Model, pair: Pair, limit: u32) -> Result<PairReport, NoMemory>
    requires a { pair.a < length model.now.calls }
    requires b { pair.b < length model.now.calls }
    ensures right { IfOk result (λ report. IsRightReport model.now pair limit report) }
{
    analyze_counted::<Brand>(alloc, model, pair, limit, Blank::new(1))
}

// The text of a pair's report goes to the end of what is there.
fn print_pair(
    alloc: Global,
    model: &Model,
    pair: Pair,
    limit: u32,
    done: &mut Done,
    text: &mut Vec<u8>,
) -> Result<(), NoMemory>
    requires a { pair.a < length model.now.calls }
    requires b { pair.b < length model.now.calls }
{
    let body = analyze_one(alloc, model, pair, limit)?;
    done.count(&body);
    print_entry(model, &PairEntry { pair, body }, text)
}

// Each pair once, into a buffer that is emptied first.
fn print_pairs(
    alloc: Global,
    model: &Model,
    limit: u32,
    text: &mut Vec<u8>,
) -> Result<Done, NoMemory> {
    let mut done = NOTHING;
    text.clear();
    for k in 0..model.pair_count() {
        print_pair(alloc, model, model.pair_at(k), limit, &mut done, text)?;
    }
    done.bytes = text.len() as u64;
    Ok(done)
}

/// So many rounds, and what was done in the last one.
pub fn analyze_rounds(alloc: Global, model: &Model, limit: u32, rounds: u32) -> Result<Done> {
    let mut done = NOTHING;
    let mut text = Vec::new(alloc);
    for _ in 0..rounds {
        done = print_pairs(alloc, model, limit, &mut text)?;
    }
    Ok(done)
}
