//! Leaves: what is known where a path ends.

ghost use Rattle.std.specs.Prelude.{◌≡◌};
ghost use Rattle.cm_walk.specs.Leaves.{IsLeafOf};
ghost use Rattle.cm_walk.specs.Prefixes.{IsWhole};

use crate::prefix::Prefix;
use cm_beside::{Verdict, nodes_are_right};
use cm_cells::Cells;
use cm_chain::{Chain, Stage};
use cm_ctx::Ctx;
use cm_model::{List, Model, Pair};
use cm_term::Fact;

/// What is known where a path ends.
#[derive(Drop)]
pub struct Leaf {
    /// The decisions, in order.
    pub path: List<u8>,
    /// Those that had another possible outcome.
    pub facts: List<Fact>,
    /// What is known of the variables.
    pub ctx: Ctx,
    /// The touched cells.
    pub cells: Cells,
    /// When the pair commutes.
    pub verdict: Verdict,
}

impl Leaf {
    /// The leaf at the end of a path.
    pub(crate) fn of(model: &Model, pair: Pair, prefix: Prefix) -> Leaf
        requires whole { IsWhole model.now pair prefix }
        ensures path { result.path ≡ prefix.decisions }
        ensures leaf { IsLeafOf model.now pair result }
    {
        nodes_are_right(model, pair);
        let Prefix {
            decisions,
            facts,
            known,
            cells,
            chain,
            open: _,
        } = prefix;
        let Chain { stage, .. } = chain;
        let Stage::Ended(verdict) = stage else {
            unreachable!()
        };
        Leaf {
            path: decisions,
            facts,
            ctx: known,
            cells,
            verdict,
        }
    }
}
