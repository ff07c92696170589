//! Where a walk begins.

ghost use Rattle.std.specs.Prelude.{◌≡◌, ◌<◌, [], length, IfOk};
ghost use Rattle.cm_walk.specs.Prefixes.{IsPrefix};

use crate::arguments::{Side, arguments};
use crate::prefix::Prefix;
use cm_cells::Cells;
use cm_chain::{Calls, Chain};
use cm_ctx::Ctx;
use cm_eval::Code;
use cm_model::{List, Model, NoMemory, Pair};
use cm_term::Shared;
use std::alloc::Global;

impl Prefix {
    /// Nothing was decided.
    ///
    /// # Errors
    /// `NoMemory` where memory runs out.
    pub fn new(alloc: Global, model: &Model, pair: Pair) -> Result<Prefix, NoMemory>
        requires a { pair.a < length model.now.calls }
        requires b { pair.b < length model.now.calls }
        ensures prefix { IfOk result (λ x. IsPrefix model.now pair x) }
        ensures decisions { IfOk result (λ x. x.decisions ≡ []) }
    {
        let mut known = Ctx::new(alloc)?;
        known.has_valuation();
        let a = arguments(alloc, model, &mut known, Side::A, pair.a)?;
        let b = arguments(alloc, model, &mut known, Side::B, pair.b)?;
        let code = Code::of(alloc, model)?;
        let code = Shared::new(alloc, code)?;
        let chain = Chain::new(alloc, Calls { code, pair, a, b })?;
        Ok(Prefix {
            decisions: List::new(alloc),
            facts: List::new(alloc),
            known,
            cells: Cells::new(alloc),
            chain,
            open: None,
        })
    }
}
