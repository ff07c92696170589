//! The parts of a context with more variables.

ghost use Rattle.std.specs.Prelude.{◌≡◌, ◌<◌, ◌+◌, ◌++◌, ◌↔◌, ℕ, ℤ, IfOk, length, map};
ghost use Rattle.cm_sorts.specs.Partition as sorts;
ghost use Rattle.cm_order.specs.Differences as order;
ghost use Rattle.cm_ctx.specs.declared.piece.ElementPart.{ElementPart};
ghost use Rattle.cm_ctx.specs.Giving.{EachFrom};
ghost use Rattle.cm_ctx.specs.Choices.{choice_of};
ghost use Rattle.cm_ctx.specs.Grown.{AreRanges, AreEnums, LiesIn, tag_choices, option_choices};

use crate::choice::Choice;
use crate::piece::{ElementPart, NumberPart, OptionPart, TagPart};
use cm_model::NoMemory;
use cm_order::Bounds;
use cm_sorts::Classes;
use std::alloc::Global;

/// The classes with a variable more for each part.
pub fn with_elements(
    alloc: Global,
    classes: &Classes,
    parts: &[ElementPart],
) -> Result<Classes, NoMemory>
    ensures sorts { IfOk result (λ grown.
        grown.sorts ≡ classes.now.sorts ++ map (λ (d : ElementPart). d.sort) parts.now) }
    ensures kept { IfOk result (λ grown. (e : ℕ → ℕ) → sorts.Satisfies grown e ↔ sorts.Satisfies classes.now e) }
    ensures satisfiable { IfOk result sorts.IsSatisfiable }
{
    let mut grown = classes.try_copy(alloc)?;
    'parts: for part in parts {
        grown.fresh(part.sort)?;
    }
    grown.has_valuation();
    Ok(grown)
}

/// The bounds with a variable more for each part.
pub fn with_numbers(
    alloc: Global,
    bounds: &Bounds,
    parts: &[NumberPart],
) -> Result<Bounds, NoMemory>
    requires { AreRanges parts.now }
    ensures count { IfOk result (λ grown. length grown ≡ length bounds.now + length parts.now) }
    ensures kept { IfOk result (λ grown.
        order.Keeps bounds.now grown (λ n. EachFrom (LiesIn n) (length bounds.now) parts.now)) }
    ensures satisfiable { IfOk result order.IsSatisfiable }
{
    let mut grown = bounds.try_copy(alloc)?;
    'parts: for part in parts {
        grown.fresh(part.lo, part.hi)?;
    }
    grown.has_valuation();
    Ok(grown)
}

/// The tags with one more for each part.
pub fn with_tags(alloc: Global, tags: &[Choice], parts: &[TagPart]) -> Result<Vec<Choice>, NoMemory>
    requires { AreEnums parts.now }
    ensures { IfOk result (λ grown. grown.items ≡ tags.now ++ tag_choices parts.now) }
{
    let mut grown = Vec::from_slice(alloc, tags)?;
    'parts: for part in parts {
        grown.push(choice(part.variants))?;
    }
    Ok(grown)
}

/// The options with one more for each part.
pub fn with_options(
    alloc: Global,
    options: &[Choice],
    parts: &[OptionPart],
) -> Result<Vec<Choice>, NoMemory>
    ensures { IfOk result (λ grown. grown.items ≡ options.now ++ option_choices parts.now) }
{
    let mut grown = Vec::from_slice(alloc, options)?;
    'parts: for _ in parts {
        grown.push(choice(2))?;
    }
    Ok(grown)
}

/// A choice among so many outcomes, which is decided where there is one only.
fn choice(outcomes: usize) -> Choice
    requires { outcomes < 256 }
    ensures { result ≡ choice_of outcomes }
{
    Choice {
        outcomes: outcomes as u8,
        decided: if outcomes == 1 { Some(0) } else { None },
    }
}
