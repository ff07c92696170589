//! The tests of pairs, as data.

use crate::World;
use cm_model::{List, Over, Pair};

/// The tests of a pair of calls.
#[derive(Drop)]
pub enum PairTests {
    /// One world for each signature of a commuting world, by path and then by shape.
    Worlds(List<World>),
    /// The pair passes this limit.
    Over(Over),
    /// The pair passes no limit, and has more tests than were asked for.
    TooMany,
}

/// A pair of calls with its tests.
#[derive(Drop)]
pub struct TestsEntry {
    /// The pair.
    pub pair: Pair,
    /// Its tests.
    pub body: PairTests,
}

/// Tests of pairs of calls.
#[derive(Drop)]
pub struct Tests {
    /// The pairs, in ascending order.
    pub pairs: List<TestsEntry>,
}
