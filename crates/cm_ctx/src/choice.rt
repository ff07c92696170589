//! Parts with finitely many outcomes, some of which are decided.

ghost use Rattle.std.specs.Prelude.{◌≡◌, ◌<◌, ◌↔◌, ℕ, Some, IsTrue, length, slice_get};
ghost use Rattle.cm_term.specs.Atoms.{tag_under, opt_under};
ghost use Rattle.cm_ctx.specs.Masks.{Has};
ghost use Rattle.cm_ctx.specs.Choices.{AreChoices, Allows, Keeps};
ghost use Rattle.cm_ctx.specs.Contexts.{IsTag, IsOpt};
ghost use Rattle.cm_ctx.specs.Knowing.{known_of};

use crate::mask::{self, Mask};
use cm_term::{Opt, Tag};

/// A part with finitely many outcomes, and the one that is decided.
#[derive(Clone, Copy)]
pub struct Choice {
    /// How many outcomes it has.
    pub outcomes: u8,
    /// The outcome that is decided.
    pub decided: Option<u16>,
}

/// The outcomes of a choice.
pub fn outcomes(choices: &[Choice], x: u64) -> Mask
    requires x { x < length choices.now }
    requires proper { AreChoices choices.now }
    ensures { (i : ℕ) → Has result.0 i ↔ Allows choices.now (λ t. t x ≡ i) }
{
    let choice = choices[x as usize];
    match choice.decided {
        Some(outcome) => mask::only(u64::from(outcome)),
        None => mask::first(u64::from(choice.outcomes)),
    }
}

/// The choice with this number.
pub fn at(choices: &[Choice], x: u64) -> Choice
    requires { x < length choices.now }
    ensures { slice_get choices.now x ≡ Some result }
{
    choices[x as usize]
}

/// Keeps the valuations that give the choice this outcome.
pub fn decide(choices: &mut Vec<Choice>, x: u64, outcome: u8)
    requires x { x < length choices.old.items }
    requires proper { AreChoices choices.old.items }
    requires may { Allows choices.old.items (λ t. t x ≡ outcome) }
    ensures kept { Keeps choices.old.items choices.new.items (λ t. t x ≡ outcome) }
    ensures proper { AreChoices choices.new.items }
    ensures count { length choices.new.items ≡ length choices.old.items }
{
    let choice = at(choices.as_slice(), x);
    choices[x as usize] = Choice {
        outcomes: choice.outcomes,
        decided: Some(u16::from(outcome)),
    };
}

/// Whether the enum can be asked for where there are so many variables.
pub fn is_tag(count: u64, tag: Tag) -> bool
    ensures { IsTrue result ↔ IsTag count tag }
{
    match tag {
        Tag::Const { ty: _, index } => index < 64,
        Tag::Var(x) => x.0 < count,
    }
}

/// Whether the option can be asked for where there are so many variables.
pub fn is_opt(count: u64, opt: Opt) -> bool
    ensures { IsTrue result ↔ IsOpt count opt }
{
    match opt {
        Opt::None => true,
        Opt::Some => true,
        Opt::Var(o) => o.0 < count,
    }
}

/// The outcomes of the inspection of an enum.
pub fn tag_outcomes(choices: &[Choice], tag: Tag) -> Mask
    requires tag { IsTag (length choices.now) tag }
    requires proper { AreChoices choices.now }
    ensures { (i : ℕ) → Has result.0 i ↔ Allows choices.now (λ t. tag_under t tag ≡ i) }
{
    match tag {
        Tag::Const { ty: _, index } => mask::only(u64::from(index)),
        Tag::Var(x) => outcomes(choices, x.0),
    }
}

/// The outcomes of the inspection of an option.
pub fn opt_outcomes(choices: &[Choice], opt: Opt) -> Mask
    requires opt { IsOpt (length choices.now) opt }
    requires proper { AreChoices choices.now }
    ensures { (i : ℕ) → Has result.0 i ↔ Allows choices.now (λ t. opt_under t opt ≡ i) }
{
    match opt {
        Opt::None => mask::only(0),
        Opt::Some => mask::only(1),
        Opt::Var(o) => outcomes(choices, o.0),
    }
}

/// Keeps the valuations under which the inspection has the outcome.
pub fn decide_tag(choices: &mut Vec<Choice>, tag: Tag, outcome: u8)
    requires tag { IsTag (length choices.old.items) tag }
    requires proper { AreChoices choices.old.items }
    requires may { Allows choices.old.items (λ t. tag_under t tag ≡ outcome) }
    ensures kept { Keeps choices.old.items choices.new.items (λ t. tag_under t tag ≡ outcome) }
    ensures proper { AreChoices choices.new.items }
    ensures count { length choices.new.items ≡ length choices.old.items }
{
    match tag {
        Tag::Const { ty: _, index: _ } => {}
        Tag::Var(x) => decide(choices, x.0, outcome),
    }
}

/// Keeps the valuations under which the inspection has the outcome.
pub fn decide_opt(choices: &mut Vec<Choice>, opt: Opt, outcome: u8)
    requires opt { IsOpt (length choices.old.items) opt }
    requires proper { AreChoices choices.old.items }
    requires may { Allows choices.old.items (λ t. opt_under t opt ≡ outcome) }
    ensures kept { Keeps choices.old.items choices.new.items (λ t. opt_under t opt ≡ outcome) }
    ensures proper { AreChoices choices.new.items }
    ensures count { length choices.new.items ≡ length choices.old.items }
{
    match opt {
        Opt::None => {}
        Opt::Some => {}
        Opt::Var(o) => decide(choices, o.0, outcome),
    }
}

/// What is decided of an option.
#[derive(Clone, Copy, Debug, PartialEq, Eq)]
pub enum Known {
    /// Nothing is.
    Unknown,
    /// It is none.
    None,
    /// It is some value.
    Some,
}

/// What a decided outcome says of an option.
pub fn what_is_known(decided: Option<u16>) -> Known
    ensures { result ≡ known_of decided }
{
    match decided {
        None => Known::Unknown,
        Some(0) => Known::None,
        Some(_) => Known::Some,
    }
}
