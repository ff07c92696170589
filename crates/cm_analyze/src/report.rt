//! The report of a pair.

ghost use Rattle.std.specs.Prelude.{◌≡◌, ◌<◌, ◌≤◌, ◌+◌, ℕ, None, length, IfOk, IsTrue};
ghost use Rattle.cm_cond.specs.declared.report.Condition.{Condition};
ghost use Rattle.cm_cond.specs.Form.{is_report, path_limit};
ghost use Rattle.cm_cond.specs.declared.report.PairReport.TheVariants as report;
ghost use Rattle.cm_forks.specs.Counts.{AtLeast};
ghost use Rattle.cm_world.specs.Over.{IsOverBy};
ghost use Rattle.cm_world.specs.OpenPrefix.{IsOpenPrefix};
ghost use Rattle.cm_model.specs.declared.pair.Over.{Over};
ghost use Rattle.cm_case.specs.Report.{IsRightReport};
ghost use Rattle.cm_analyze.specs.inner.SoFar.{AreSoFar};
ghost use Rattle.cm_analyze.specs.declared.report.Came.TheVariants as came;

use crate::case::case_of;
use cm_beside::nodes_are_right;
use cm_case::right_reports_are_spelled;
use cm_cond::{Case, Condition, PairReport};
use cm_ctx::Steps;
use cm_forks::Fault;
use cm_model::{List, Model, NoMemory, Over, Pair};
use cm_walk::{Subject, Walk};
use std::alloc::Global;
use std::sync::ledger::Ledger;

/// The report of a pair with no more paths than the limit: over exactly where the pair passes a limit, and else the
/// number of its paths and a case for each that a commuting world has.
///
/// # Errors
/// `NoMemory` where memory runs out.
pub fn analyze_pair<L: Ledger>(
    alloc: Global,
    model: &Model,
    pair: Pair,
    limit: u32,
    steps: &mut Steps<L>,
) -> Result<PairReport, NoMemory>
    requires a { pair.a < length model.now.calls }
    requires b { pair.b < length model.now.calls }
    ensures right { IfOk result (λ report. IsRightReport model.now pair limit report) }
    // it is spelled as reports are
    ensures well_formed { limit ≤ path_limit → IfOk result (λ report. IsTrue (is_report model.now pair report)) }
    // the counter rises by no more than the pair's open prefixes
    ensures steps { (n : ℕ) × (steps.new ≡ steps.old + n) × AtLeast (IsOpenPrefix model.now pair) n }
{
    nodes_are_right(model, pair);
    right_reports_are_spelled(model, pair);
    let mut walk = Walk::new(alloc, model, pair, limit)?;
    report_of(alloc, Subject { model, pair }, &mut walk, limit, steps)
}

/// What came of a step along a pair's paths.
#[derive(Clone, Copy)]
enum Came {
    /// A path more.
    Path,
    /// There are no more paths.
    End,
    /// The pair passes this limit.
    Over(Over),
}

// Goes over the paths that a new walk gives.
fn report_of<L: Ledger>(
    alloc: Global,
    subject: Subject,
    walk: &mut Walk,
    limit: u32,
    steps: &mut Steps<L>,
) -> Result<PairReport, NoMemory>
    requires a { subject.pair.a < length subject.model.now.calls }
    requires b { subject.pair.b < length subject.model.now.calls }
    requires model { walk.old.model ≡ subject.model.now }
    requires pair { walk.old.pair_of ≡ subject.pair }
    requires limit { walk.old.limit ≡ limit }
    requires last { walk.old.last ≡ None }
    requires given { walk.old.given ≡ 0 }
    ensures right { IfOk result (λ report. IsRightReport subject.entry.model.now subject.entry.pair limit report) }
    ensures few { IfOk result (λ it. (n : ℕ) (k : Condition) → it ≡ report.Cases n k → n ≤ limit) }
    ensures steps { steps.new + walk.old.added ≡ steps.old + walk.new.added }
    ensures are_open { AtLeast (IsOpenPrefix subject.entry.model.now subject.entry.pair) walk.old.added
        → AtLeast (IsOpenPrefix subject.entry.model.now subject.entry.pair) walk.new.added }
{
    let mut cases = List::new(alloc);
    for paths in 0..limit {
        match go_on(alloc, subject, walk, &mut cases, steps)? {
            Came::Path => {}
            Came::End => return Ok(cases_of(paths, cases)),
            Came::Over(limit) => return Ok(PairReport::Over(limit)),
        }
    }
    match go_on(alloc, subject, walk, &mut cases, steps)? {
        Came::Path => unreachable!(),
        Came::End => Ok(cases_of(limit, cases)),
        Came::Over(limit) => Ok(PairReport::Over(limit)),
    }
}

fn cases_of(paths: u32, cases: List<Case>) -> PairReport
    ensures cases { result ≡ report.Cases paths (record { cases = cases }) }
{
    PairReport::Cases {
        paths,
        condition: Condition { cases },
    }
}

// The next path, with its case if a commuting world has it.
fn go_on<L: Ledger>(
    alloc: Global,
    subject: Subject,
    walk: &mut Walk,
    cases: &mut List<Case>,
    steps: &mut Steps<L>,
) -> Result<Came, NoMemory>
    requires a { subject.pair.a < length subject.model.now.calls }
    requires b { subject.pair.b < length subject.model.now.calls }
    requires model { walk.old.model ≡ subject.model.now }
    requires pair { walk.old.pair_of ≡ subject.pair }
    ensures path { IfOk result (λ it. it ≡ came.Path → AreSoFar walk.old cases.old → AreSoFar walk.new cases.new) }
    ensures few { IfOk result (λ it. it ≡ came.Path → walk.old.given < walk.old.limit) }
    ensures given { IfOk result (λ it. it ≡ came.Path → walk.new.given ≡ walk.old.given + 1) }
    ensures end { IfOk result (λ it. it ≡ came.End → AreSoFar walk.old cases.old
        → IsRightReport subject.entry.model.now subject.entry.pair walk.old.limit
        (report.Cases walk.old.given (record { cases = cases.new }))) }
    ensures over { IfOk result (λ it. (x : Over) → it ≡ came.Over x
        → IsOverBy subject.entry.model.now subject.entry.pair walk.old.limit x) }
    ensures model { walk.new.model ≡ walk.old.model }
    ensures pair { walk.new.pair_of ≡ walk.old.pair_of }
    ensures limit { walk.new.limit ≡ walk.old.limit }
    ensures steps { steps.new + walk.old.added ≡ steps.old + walk.new.added }
    ensures are_open { AtLeast (IsOpenPrefix subject.entry.model.now subject.entry.pair) walk.new.added }
{
    match walk.next(steps) {
        Ok(Some(leaf)) => {
            if let Some(case) = case_of(alloc, subject.model, subject.pair, leaf)? {
                cases.push(case)?;
            }
            Ok(Came::Path)
        }
        Ok(None) => Ok(Came::End),
        Err(Fault::Over(limit)) => Ok(Came::Over(limit)),
        Err(Fault::Memory) => Err(NoMemory),
    }
}
