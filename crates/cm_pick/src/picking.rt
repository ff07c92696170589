//! Picks equalities.

ghost use Rattle.std.specs.Prelude.{◌≡◌, [], IfOk, IfNone, IfSome, IsTrue, length};
ghost use Rattle.std.specs.List.{AllByRecursion};
ghost use Rattle.cm_term.specs.Valuation.{Valuation};
ghost use Rattle.cm_term.specs.Questions.{AreEqual, IsTold};
ghost use Rattle.cm_ctx.specs.Contexts.{Allows, IsQuestion, Keeps, Satisfies};
ghost use Rattle.cm_pick.specs.Picking.{fact_of, AllTold, ArePicked, ArePickedInTurn};
ghost use Rattle.cm_pick.specs.inner.Standings.{HasVariablesOf, IsNext};

use crate::standing::{Standing, as_fact};
use cm_ctx::Ctx;
use cm_model::{List, NoMemory};
use cm_term::{Equal, Fact};
use std::alloc::Global;

/// Of the equalities those that do not follow from what is known and from the ones before, as facts, in order. The
/// context then knows them, too. None where no valuation has them all; the context may then know some of them.
///
/// # Errors
/// `NoMemory` where memory runs out.
pub fn pick(
    alloc: Global,
    ctx: &mut Ctx,
    equalities: &[Equal],
) -> Result<Option<List<Fact>>, NoMemory>
    requires asked { AllByRecursion (λ e. IsQuestion ctx.old (fact_of e).question) equalities.now }
    ensures picked { IfOk result (λ o. IfSome o (λ facts. ArePicked ctx.old equalities.now facts)) }
    ensures in_turn { IfOk result (λ o. IfSome o (λ facts. ArePickedInTurn ctx.old [] equalities.now facts)) }
    ensures known { IfOk result (λ o. IfSome o (λ facts. Keeps ctx.old ctx.new (λ v. AllTold v facts))) }
    ensures never { IfOk result (λ o. IfNone o ((v : Valuation) → Satisfies ctx.old v
        → AllByRecursion (AreEqual v) equalities.now → ⊥)) }
    ensures pieces { ctx.new.pieces ≡ ctx.old.pieces }
    ensures sorts { ctx.new.classes.sorts ≡ ctx.old.classes.sorts }
    ensures bounds { length ctx.new.bounds ≡ length ctx.old.bounds }
    ensures tags { length ctx.new.tags ≡ length ctx.old.tags }
    ensures options { length ctx.new.options ≡ length ctx.old.options }
{
    ctx.has_valuation();
    ctx.reserve()?;
    let mut picked = List::new(alloc);
    for equality in equalities {
        if !pick_next(ctx, *equality, &mut picked)? {
            return Ok(None);
        }
    }
    Ok(Some(picked))
}

/// Whether a valuation has the equality. It is picked and learnt if it does not follow.
fn pick_next(ctx: &mut Ctx, equality: Equal, picked: &mut List<Fact>) -> Result<bool, NoMemory>
    requires asked { IsQuestion ctx.old (fact_of equality).question }
    requires spare { IsTrue ctx.old.classes.spare }
    ensures next { IfOk result (λ possible. IsNext ctx.old ctx.new equality picked.old picked.new possible) }
    ensures variables { HasVariablesOf ctx.old ctx.new }
    ensures spare { ctx.new.classes.spare ≡ ctx.old.classes.spare }
{
    match Standing::of(ctx, equality) {
        Standing::Impossible => Ok(false),
        Standing::Implied => Ok(true),
        Standing::Undecided => {
            let fact = as_fact(equality);
            picked.push(fact)?;
            learn(ctx, &fact);
            Ok(true)
        }
    }
}

/// Keeps the valuations that have the fact.
fn learn(ctx: &mut Ctx, fact: &Fact)
    requires asked { IsQuestion ctx.old fact.now.question }
    requires may { Allows ctx.old (λ v. IsTold v fact.now) }
    requires spare { IsTrue ctx.old.classes.spare }
    ensures kept { Keeps ctx.old ctx.new (λ v. IsTold v fact.now) }
    ensures variables { HasVariablesOf ctx.old ctx.new }
    ensures spare { ctx.new.classes.spare ≡ ctx.old.classes.spare }
{
    ctx.learn(&fact.question, fact.outcome);
}
