//! What the nodes of a pair of calls say of its worlds.

ghost use Rattle.std.specs.Prelude.{◌<◌, ℕ, List, length};
ghost use Rattle.cm_term.specs.declared.question.Question.{Question};
ghost use Rattle.cm_term.specs.declared.question.Fact.{Fact};
ghost use Rattle.cm_cells.specs.CellTable.{Place};
ghost use Rattle.cm_beside.specs.declared.verdict.Verdict.{Verdict};
ghost use Rattle.cm_term.specs.Valuation.{Valuation};
ghost use Rattle.cm_world.specs.declared.world.World.{World};
ghost use Rattle.cm_world.specs.World.{IsWorldOf};
ghost use Rattle.cm_world.specs.Order.{touched_cells};
ghost use Rattle.cm_beside.specs.Nodes.{pieces_of, IsNode, IsValuation, Satisfies, Asking, Ended};
ghost use Rattle.cm_beside.specs.Leaf.{IsRightLeaf, IsRightNode, TouchesMore};

use cm_model::{Model, Pair};

/// Tells a proof that each node of a pair's tale on terms is a right one: what a run on terms asks after some answers
/// says which worlds have these decisions, which cells they touch, and which of them commute; and each valuation that
/// satisfies what was answered is that of such a world. Where a further cell is touched after some answers, some world
/// touches more cells than these; and the pair has a world.
pub fn nodes_are_right(model: &Model, pair: Pair)
    requires a { pair.a < length model.now.calls }
    requires b { pair.b < length model.now.calls }
    ensures leaf { (answers : List ℕ) (facts : List Fact) (places : List Place) (w : Verdict)
        → IsNode model.now pair answers facts places (Ended w)
        → IsRightLeaf model.now pair answers facts places w }
    ensures node { (answers : List ℕ) (facts : List Fact) (places : List Place) (q : Question)
        → IsNode model.now pair answers facts places (Asking q)
        → IsRightNode model.now pair answers facts places q }
    ensures more { (answers : List ℕ) (facts : List Fact) (places : List Place)
        → TouchesMore model.now pair answers facts places
        → (v : Valuation) → IsValuation (pieces_of model.now pair places) v → Satisfies v facts
        → (u : World) × IsWorldOf model.now pair u × (length places < length (touched_cells model.now pair u)) }
    ensures some { (u : World) × IsWorldOf model.now pair u }
{
    model.well_typed();
    let _ = pair;
}
