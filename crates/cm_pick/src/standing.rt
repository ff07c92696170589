//! How an equality stands to what is known.

ghost use Rattle.std.specs.Prelude.{◌≡◌, ◌↔◌, IsTrue};
ghost use Rattle.cm_ctx.specs.Contexts.{IsQuestion};
ghost use Rattle.cm_pick.specs.Picking.{fact_of};
ghost use Rattle.cm_pick.specs.inner.Standings.{HasOther, IsStanding};

use cm_ctx::{Ctx, Mask};
use cm_term::{Equal, Fact, Question};

/// How an equality stands to what is known.
#[derive(Clone, Copy)]
pub enum Standing {
    /// No valuation has it.
    Impossible,
    /// Every valuation has it.
    Implied,
    /// A valuation has it, and another one has not.
    Undecided,
}

impl Standing {
    /// How the equality stands to what the context knows.
    pub fn of(ctx: &Ctx, equality: Equal) -> Standing
        requires asked { IsQuestion ctx.now (fact_of equality).question }
        ensures standing { IsStanding ctx.now equality result }
    {
        let fact = as_fact(equality);
        let outcomes = ctx.outcomes(&fact.question);
        if !outcomes.has(fact.outcome) {
            Standing::Impossible
        } else if has_other(outcomes, equality) {
            Standing::Undecided
        } else {
            Standing::Implied
        }
    }
}

/// The equality as a fact.
pub fn as_fact(equality: Equal) -> Fact
    ensures { result ≡ fact_of equality }
{
    match equality {
        Equal::Elems(x, y) => Fact {
            question: Question::Elems(x, y),
            outcome: 0,
        },
        Equal::Nums(left, right) => Fact {
            question: Question::Nums(left, right),
            outcome: 1,
        },
    }
}

/// Whether an outcome is there with which the equality fails.
fn has_other(outcomes: Mask, equality: Equal) -> bool
    ensures { IsTrue result ↔ HasOther outcomes.0 equality }
{
    match equality {
        Equal::Elems(_, _) => outcomes.has(1),
        Equal::Nums(_, _) => outcomes.has(0) || outcomes.has(2),
    }
}
