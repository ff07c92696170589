//! Comparisons of elements.

ghost use Rattle.std.specs.Prelude.{◌≡◌, ◌<◌, ◌↔◌, ℕ, IsTrue, length, slice_index};
ghost use Rattle.cm_sorts.specs.Partition.{Satisfies, IsSatisfiable, Allows, Keeps};
ghost use Rattle.cm_term.specs.Questions.{elements_outcome};
ghost use Rattle.cm_ctx.specs.Masks.{Has};

use crate::mask::{self, Mask};
use cm_model::SortVar;
use cm_sorts::Classes;

/// Whether the two are there and of one sort.
pub fn are_of_one_sort(classes: &Classes, x: SortVar, y: SortVar) -> bool
    ensures exact { IsTrue result ↔ ((x.0 < length classes.now.sorts) × (y.0 < length classes.now.sorts)
        × (slice_index classes.now.sorts x.0 ≡ slice_index classes.now.sorts y.0)) }
{
    let Some(first) = classes.sort(x) else {
        return false;
    };
    let Some(second) = classes.sort(y) else {
        return false;
    };
    first == second
}

/// The outcomes of the comparison of two elements.
pub fn outcomes(classes: &Classes, x: SortVar, y: SortVar) -> Mask
    requires x { x.0 < length classes.now.sorts }
    requires y { y.0 < length classes.now.sorts }
    requires one_sort { slice_index classes.now.sorts x.0 ≡ slice_index classes.now.sorts y.0 }
    ensures { (i : ℕ) → Has result.0 i ↔ Allows classes.now (λ e. elements_outcome e x.0 y.0 ≡ i) }
{
    mask::mask_of(classes.may_equal(x, y), classes.may_differ(x, y), false)
}

/// Keeps the valuations under which the comparison has the outcome.
pub fn add(classes: &mut Classes, x: SortVar, y: SortVar, outcome: u8)
    requires x { x.0 < length classes.old.sorts }
    requires y { y.0 < length classes.old.sorts }
    requires one_sort { slice_index classes.old.sorts x.0 ≡ slice_index classes.old.sorts y.0 }
    requires may { Allows classes.old (λ e. elements_outcome e x.0 y.0 ≡ outcome) }
    requires spare { IsTrue classes.old.spare }
    ensures kept { Keeps classes.old classes.new (λ e. elements_outcome e x.0 y.0 ≡ outcome) }
    ensures sorts { classes.new.sorts ≡ classes.old.sorts }
    ensures spare { classes.new.spare ≡ classes.old.spare }
    ensures satisfiable { IsSatisfiable classes.new }
{
    if outcome == 0 {
        classes.equal(x, y);
    } else {
        classes.differ(x, y);
    }
}
