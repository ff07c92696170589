//! Reports of pairs of calls.

use crate::{CellTerm, Literal};
use cm_model::{List, Over, Pair};

/// The worlds of one path: the cells that are touched, and what is true of their initial values and the arguments.
#[derive(Drop)]
pub struct Case {
    /// In the order of first touch.
    pub cells: List<CellTerm>,
    pub literals: List<Literal>,
}

/// When a pair commutes: one of these cases holds.
#[derive(Drop)]
pub struct Condition {
    pub cases: List<Case>,
}

/// What is reported of a pair.
#[derive(Drop)]
pub enum PairReport {
    /// How many paths there are, and a case for each on which a world commutes.
    Cases { paths: u32, condition: Condition },
    /// A limit that the pair passes.
    Over(Over),
}

/// A pair with its report.
#[derive(Drop)]
pub struct PairEntry {
    pub pair: Pair,
    pub body: PairReport,
}

/// The reports of pairs, in the order of the pairs.
#[derive(Drop)]
pub struct Report {
    pub pairs: List<PairEntry>,
}
