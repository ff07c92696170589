//! The case of a path.

ghost use Rattle.std.specs.Prelude.{◌≡◌, ◌<◌, ◌++◌, List, map, Some, None, length, IfOk, IfSome, IfNone, OnOk};
ghost use Rattle.std.specs.List.{AllByRecursion};
ghost use Rattle.cm_term.specs.declared.question.Fact.{Fact};
ghost use Rattle.cm_walk.specs.Leaves.{IsLeafOf};
ghost use Rattle.cm_name.specs.Naming.{literal_of, cell_named, KeyHasSymbols};
ghost use Rattle.cm_cells.specs.CellTable.{Place};
ghost use Rattle.cm_case.specs.Named.{IsNamedAfter, IsSayable};
ghost use Rattle.cm_case.specs.Right.{CommutesOn, IsRightCase};

use cm_beside::Verdict;
use cm_case::cases_are_right;
use cm_cells::Cells;
use cm_cond::{Case, CellTerm, Literal};
use cm_ctx::Ctx;
use cm_model::{List, Model, NoMemory, Pair};
use cm_name::{cell, literal};
use cm_pick::pick;
use cm_term::Fact;
use cm_walk::Leaf;
use std::alloc::Global;

/// The case of a leaf's path, or None where no commuting world has the path.
///
/// # Errors
/// `NoMemory` where memory runs out.
pub fn case_of(
    alloc: Global,
    model: &Model,
    pair: Pair,
    leaf: Leaf,
) -> Result<Option<Case>, NoMemory>
    requires a { pair.a < length model.now.calls }
    requires b { pair.b < length model.now.calls }
    requires leaf { IsLeafOf model.now pair leaf }
    ensures right { IfOk result (λ case. IfSome case (λ c. IsRightCase model.now pair leaf.path c)) }
    ensures none { IfOk result (λ case. IfNone case (CommutesOn model.now pair leaf.path → ⊥)) }
{
    cases_are_right(model, pair);
    let Leaf {
        path: _,
        facts,
        mut ctx,
        cells,
        verdict,
    } = leaf;
    let Verdict::If(equalities) = verdict else {
        return Ok(None);
    };
    ctx.has_valuation();
    let _ = cells.len();
    let picked = pick(alloc, &mut ctx, equalities.as_slice())?;
    let known = Known {
        ctx: &ctx,
        cells: &cells,
        facts: facts.as_slice(),
    };
    known.case_with(alloc, picked)
}

/// What is known at the end of a path.
#[derive(Clone, Copy)]
struct Known<'l> {
    ctx: &'l Ctx,
    cells: &'l Cells,
    facts: &'l [Fact],
}

impl<'l> Known<'l> {
    /// The case with these equalities behind the facts, if there are any that can be.
    fn case_with(
        &self,
        alloc: Global,
        equalities: Option<List<Fact>>,
    ) -> Result<Option<Case>, NoMemory>
        requires keys { AllByRecursion (λ (q : Place). KeyHasSymbols self.now.ctx.now.pieces q.key) self.now.cells.now.places }
        requires named { IfSome equalities (λ more.
            AllByRecursion (IsSayable self.now.ctx.now.pieces) (self.now.facts.now ++ more)) }
        ensures some { IfOk result (λ case. IfSome case (λ c. (more : List Fact) × (equalities ≡ Some more)
            × IsNamedAfter self.now.ctx.now.pieces self.now.cells.now.places self.now.facts.now more c)) }
        ensures none { IfOk result (λ case. IfNone case (equalities ≡ None)) }
    {
        match equalities {
            Some(equalities) => {
                let cells = self.cell_terms(alloc)?;
                let literals = self.literals(alloc, equalities.as_slice())?;
                Ok(Some(Case { cells, literals }))
            }
            None => Ok(None),
        }
    }

    fn cell_terms(&self, alloc: Global) -> Result<List<CellTerm>, NoMemory>
        requires keys { AllByRecursion (λ (q : Place). KeyHasSymbols self.now.ctx.now.pieces q.key) self.now.cells.now.places }
        ensures cells { IfOk result (λ cs. cs ≡ map (cell_named self.now.ctx.now.pieces) self.now.cells.now.places) }
    {
        let mut cells = List::new(alloc);
        for i in 0..self.cells.len() {
            let cell = cell(
                alloc,
                self.ctx,
                self.cells.state_of(i),
                self.cells.key_of(i),
            )?;
            cells.push(cell)?;
        }
        Ok(cells)
    }

    fn literals(&self, alloc: Global, equalities: &[Fact]) -> Result<List<Literal>, NoMemory>
        requires named { AllByRecursion (IsSayable self.now.ctx.now.pieces) (self.now.facts.now ++ equalities.now) }
        ensures literals { IfOk result (λ ls.
            map Some ls ≡ map (literal_of self.now.ctx.now.pieces) (self.now.facts.now ++ equalities.now)) }
    {
        let mut literals = List::new(alloc);
        push_literals(self.ctx, self.facts, &mut literals)?;
        push_literals(self.ctx, equalities, &mut literals)?;
        Ok(literals)
    }
}

fn push_literals(ctx: &Ctx, facts: &[Fact], literals: &mut List<Literal>) -> Result<(), NoMemory>
    requires named { AllByRecursion (IsSayable ctx.now.pieces) facts.now }
    ensures pushed { OnOk result (map Some literals.new
        ≡ map Some literals.old ++ map (literal_of ctx.now.pieces) facts.now) }
{
    for fact in facts {
        let literal = literal(ctx, fact)?;
        literals.push(literal)?;
    }
    Ok(())
}
