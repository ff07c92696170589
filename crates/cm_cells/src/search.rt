//! A touch: the new cell is compared with those that were touched before it.

ghost use Rattle.std.specs.Prelude.{◌≡◌, ◌≤◌, ℕ, List, map, length, IsTrue};
ghost use Rattle.std.specs.Option.{option_copied};
ghost use Rattle.cm_model.specs.Limits.{cell_limit};
ghost use Rattle.cm_cells.specs.CellTable.{Place, place};
ghost use Rattle.cm_cells.specs.Touching.{next_of, touching};
ghost use Rattle.cm_cells.specs.Alike.{alike, all_keys_alike, cell_under, is_without_options, logs_under};
ghost use Rattle.cm_cells.specs.inner.Meeting.{Meets};
ghost use Rattle.cm_cells.specs.inner.Kept.{place_of};
ghost use Rattle.cm_model.specs.Tables.{Tables};
ghost use Rattle.cm_model.specs.WellTyped.{IsWellTyped};
ghost use Rattle.cm_model.specs.declared.ty.Ty.{Ty};
ghost use Rattle.cm_value.specs.Membership.{IsValueOf};
ghost use Rattle.cm_term.specs.declared.term.Term.{Term};
ghost use Rattle.cm_term.specs.Valuation.{Valuation};
ghost use Rattle.cm_term.specs.Terms.{value_of};
ghost use Rattle.cm_eval.specs.Run.{Trace, touch_of};
ghost use Rattle.cm_eval.specs.State as eval;

use crate::cell::Cell;
use crate::compare::{self, Met};
use cm_term::{Question, Term};

/// Where a touch stands.
#[derive(Clone, Copy, PartialEq, Eq)]
pub enum Touched {
    /// This is asked next.
    Ask(Question),
    /// It is the cell with this number.
    Cell(u8),
    /// It is none of the cells.
    New,
}

/// Where the touch of the cell of a state with a key stands after these answers.
pub fn next(cells: &[Cell], state: u16, key: Option<&Term>, answers: &[u8]) -> Touched
    requires few { length cells.now ≤ cell_limit }
    ensures next { result ≡ next_of (map place_of cells.now) (place state (option_copied key.entry)) answers.now }
{
    let mut rest = answers;
    for i in 0..cells.len() {
        match meet(state, key, &cells[i], rest) {
            Met::Asks(question) => return Touched::Ask(question),
            Met::Told(true, _) => return Touched::Cell(i as u8),
            Met::Told(false, more) => rest = more,
        }
    }
    Touched::New
}

// The new cell beside one that was touched before.
fn meet<'a>(state: u16, key: Option<&Term>, cell: &Cell, answers: &'a [u8]) -> Met<'a>
    ensures meets { Meets (place state (option_copied key.entry)) (place_of cell.now) answers.now result }
{
    if cell.state != state {
        return Met::Told(false, answers);
    }
    match (key, &cell.origin.get().key) {
        (None, None) => Met::Told(true, answers),
        (Some(left), Some(right)) => compare::compare(left, right, answers),
        (None, Some(_)) => Met::Told(false, answers),
        (Some(_), None) => Met::Told(false, answers),
    }
}

/// Under a valuation a touch of terms goes as the evaluator's touch of their values: it asks what that one decides,
/// in the same order, finds the same cell, or none. It wants keys that are alike, as those of one type are.
pub fn touch_as_values_do()
    ensures alike { (m : Tables) → IsWellTyped m → (v : Valuation) (ty : Ty) (t u : Term) →
        IsValueOf m ty (value_of v t) → IsValueOf m ty (value_of v u) → IsTrue (is_without_options (value_of v t)) →
        IsTrue (alike v t u) }
    ensures beside { (v : Valuation) (ps : List Place) (p : Place) → IsTrue (all_keys_alike v p ps) →
        (t : eval.Touched) (found : ℕ → Trace) (fresh : Trace) →
        touch_of (map (cell_under v) ps) 0 (cell_under v p) t found fresh
        ≡ touching Trace (logs_under v t) ps 0 p found fresh }
{}
