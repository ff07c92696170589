//! What leaves of a walk come to.

ghost use Rattle.std.specs.Prelude.{◌≡◌, ◌≤◌, ◌++◌, ℕ, List, length, IsTrue};
ghost use Rattle.std.specs.List.{AllByRecursion};
ghost use Rattle.cm_model.specs.Limits.{cell_limit};
ghost use Rattle.cm_term.specs.declared.question.Equal.{Equal};
ghost use Rattle.cm_term.specs.declared.question.Fact.{Fact};
ghost use Rattle.cm_term.specs.Valuation.{Valuation};
ghost use Rattle.cm_term.specs.Questions.{AreEqual};
ghost use Rattle.cm_cells.specs.CellTable.{Place};
ghost use Rattle.cm_ctx.specs.Contexts.{IsSatisfiable, IsQuestion, Satisfies, sorts_of};
ghost use Rattle.cm_world.specs.declared.world.World.{World};
ghost use Rattle.cm_world.specs.World.{IsWorldOf};
ghost use Rattle.cm_cond.specs.declared.report.Case.{Case};
ghost use Rattle.cm_cond.specs.declared.report.Condition.{Condition};
ghost use Rattle.cm_cond.specs.declared.report.PairReport.{PairReport};
ghost use Rattle.cm_cond.specs.declared.report.PairReport.TheVariants as report;
ghost use Rattle.cm_cond.specs.Form.{is_report, path_limit};
ghost use Rattle.cm_beside.specs.declared.verdict.Verdict.TheVariants as verdict;
ghost use Rattle.cm_walk.specs.declared.leaf.Leaf.{Leaf};
ghost use Rattle.cm_walk.specs.Leaves.{IsLeafOf};
ghost use Rattle.cm_pick.specs.Picking.{ArePicked, fact_of};
ghost use Rattle.cm_name.specs.Naming.{KeyHasSymbols};
ghost use Rattle.cm_case.specs.Right.{CommutesOn, IsRightCase};
ghost use Rattle.cm_case.specs.Named.{IsNamedAfter, IsSayable};
ghost use Rattle.cm_case.specs.Report.{IsRightReport};

use cm_model::{Model, Pair};

/// Tells a proof that the case is right which is named after a leaf's cells, its facts and the equalities that are
/// picked; that all of them can be named; and which leaves have no commuting world.
pub fn cases_are_right(model: &Model, pair: Pair)
    ensures right { (x : Leaf) (es : List Equal) (more : List Fact) (c : Case) → IsLeafOf model.now pair x
        → length x.cells.places ≤ cell_limit → x.verdict ≡ verdict.If es → ArePicked x.ctx es more
        → IsNamedAfter x.ctx.pieces x.cells.places x.facts more c → IsRightCase model.now pair x.path c }
    ensures sayable { (x : Leaf) (es : List Equal) (more : List Fact) → IsLeafOf model.now pair x
        → x.verdict ≡ verdict.If es → ArePicked x.ctx es more
        → AllByRecursion (IsSayable x.ctx.pieces) (x.facts ++ more) }
    ensures keys { (x : Leaf) (es : List Equal) → IsLeafOf model.now pair x → x.verdict ≡ verdict.If es
        → IsSatisfiable x.ctx → AllByRecursion (λ (q : Place). KeyHasSymbols x.ctx.pieces q.key) x.cells.places }
    ensures askable { (x : Leaf) (es : List Equal) → IsLeafOf model.now pair x → x.verdict ≡ verdict.If es
        → IsSatisfiable x.ctx → x.ctx.classes.sorts ≡ sorts_of x.ctx.pieces
        → AllByRecursion (λ e. IsQuestion x.ctx (fact_of e).question) es }
    ensures never { (x : Leaf) → IsLeafOf model.now pair x → x.verdict ≡ verdict.Never
        → CommutesOn model.now pair x.path → ⊥ }
    ensures impossible { (x : Leaf) (es : List Equal) → IsLeafOf model.now pair x → x.verdict ≡ verdict.If es
        → ((v : Valuation) → Satisfies x.ctx v → AllByRecursion (AreEqual v) es → ⊥)
        → CommutesOn model.now pair x.path → ⊥ }
{
    model.well_typed();
    let _ = pair;
}

/// Tells a proof that a right report of a pair that has a world is spelled as reports are, where it has no more paths
/// than reports may have.
pub fn right_reports_are_spelled(model: &Model, pair: Pair)
    ensures spelled { (limit : ℕ) (r : PairReport) (u : World) → IsWorldOf model.now pair u
        → IsRightReport model.now pair limit r
        → ((n : ℕ) (k : Condition) → r ≡ report.Cases n k → n ≤ path_limit) → IsTrue (is_report model.now pair r) }
{
    let _ = model.sorts();
    let _ = pair;
}
