//! Worked examples.

ghost use Rattle.std.specs.Prelude.{◌≡◌, ◌<◌, ◌+◌, [], OnOk, length};
ghost use Rattle.cm_model.specs.declared.ty.Ty.{Ty};
ghost use Rattle.cm_model.specs.declared.ty.Ty.TheVariants as form;
ghost use Rattle.cm_ctx.specs.Contexts.{Context, HasSpare, IsQuestion, IsSmall};

use super::*;
use cm_model::{Boxed, EnumDecl, IntDecl, IntVar, List, Model, Name, NoMemory, Ty};
use cm_term::{Num, Opt, OptVar, Question, Root, Sym, SymPath, Term};
use std::alloc::Global;
use std::marker::Brand;
use std::sync::ledger::{Blank, Ledger};
use std::test::Fail;

/// A model with an integer type from 0 to 3.
fn example(alloc: Global) -> Result<Model, NoMemory> {
    let mut ints = List::new(alloc);
    let name = Name::from_str(alloc, "n")?;
    ints.push(IntDecl { name, lo: 0, hi: 3 })?;
    let mut variants = List::new(alloc);
    variants.push(Name::from_str(alloc, "false")?)?;
    variants.push(Name::from_str(alloc, "true")?)?;
    let name = Name::from_str(alloc, "bool")?;
    let mut enums = List::new(alloc);
    enums.push(EnumDecl { name, variants })?;
    let model = Model::new(
        List::new(alloc),
        ints,
        enums,
        List::new(alloc),
        List::new(alloc),
        List::new(alloc),
        List::new(alloc),
    );
    Ok(model)
}

/// The first argument of a.
fn first(alloc: Global) -> Sym
    ensures { result.path ≡ [] }
{
    Sym {
        root: Root::A(0),
        path: SymPath::new(alloc),
    }
}

/// Asks for a number, which is variable 1.
fn ask_number(alloc: Global, ctx: &mut Ctx, model: &Model) -> Result<bool, NoMemory>
    requires { ctx.old.pieces ≡ [] }
    ensures { OnOk result (length ctx.new.bounds ≡ length ctx.old.bounds + 1) }
{
    let term = ctx.fresh_of(model, &first(alloc), &Ty::Int(0))?;
    Ok(matches!(term, Term::Num(Num::Plus(IntVar(1), 0))))
}

/// Asks for an option, whose variable is the first one.
fn ask_option(alloc: Global, ctx: &mut Ctx, model: &Model, kind: &Ty) -> Result<bool, NoMemory>
    requires none { ctx.old.pieces ≡ [] }
    requires option { (u : Ty) × (kind.now ≡ form.Option u) }
    ensures { OnOk result (0 < length ctx.new.options) }
{
    let term = ctx.fresh_of(model, &first(alloc), kind)?;
    Ok(matches!(term, Term::Either(OptVar(0))))
}

/// Where variable 1 and this much stand to the range from 0 to 3.
fn place(plus: i64) -> Question
    requires { IsSmall plus }
    ensures well { (c : Context) → 1 < length c.bounds → IsQuestion c result }
    ensures spare { (c : Context) → HasSpare c result }
{
    Question::Range {
        of: Num::Plus(IntVar(1), plus),
        lo: 0,
        hi: 3,
    }
}

/// The number of the mask of the outcomes.
fn ask_place(ctx: &Ctx, plus: i64) -> u64
    requires there { 1 < length ctx.now.bounds }
    requires small { IsSmall plus }
{
    let question = place(plus);
    ctx.outcomes(&question).0
}

/// Puts the number into the range, if it may lie there.
fn put_inside<L: Ledger>(ctx: &mut Ctx, plus: i64, steps: &mut Steps<L>)
    requires there { 1 < length ctx.old.bounds }
    requires small { IsSmall plus }
    ensures { length ctx.new.bounds ≡ length ctx.old.bounds }
{
    let question = place(plus);
    let mask = ctx.outcomes(&question);
    let may = mask.has(1);
    if may {
        ctx.add(&question, 1, steps);
    }
}

/// From 0 to 3, and with 1 and with 2 more too: then it is 0 or 1.
fn range_row<L: Ledger>(ctx: &mut Ctx, steps: &mut Steps<L>) -> bool
    requires there { 1 < length ctx.old.bounds }
{
    let before = ask_place(ctx, 1);
    put_inside(ctx, 1, steps);
    put_inside(ctx, 2, steps);
    before == 6 && ask_place(ctx, 1) == 2 && ctx.bounds().least(IntVar(1)) == 0
}

fn option_outcomes(ctx: &Ctx) -> u64
    requires { 0 < length ctx.now.options }
{
    ctx.outcomes(&Question::OptOf(Opt::Var(OptVar(0)))).0
}

fn decide_option<L: Ledger>(ctx: &mut Ctx, outcome: u8, steps: &mut Steps<L>)
    requires there { 0 < length ctx.old.options }
    requires few { outcome < 2 }
    ensures { length ctx.new.options ≡ length ctx.old.options }
{
    let question = Question::OptOf(Opt::Var(OptVar(0)));
    let mask = ctx.outcomes(&question);
    let may = mask.has(outcome);
    if may {
        ctx.add(&question, outcome, steps);
    }
}

/// Two copies of one context get different outcomes, and neither sees the other's.
fn fork_row<L: Ledger>(ctx: &mut Ctx, other: &mut Ctx, steps: &mut Steps<L>) -> bool
    requires one { 0 < length ctx.old.options }
    requires two { 0 < length other.old.options }
{
    let before = option_outcomes(ctx);
    let unknown = ctx.opt_of(OptVar(0)) == Known::Unknown;
    decide_option(ctx, 1, steps);
    decide_option(other, 0, steps);
    before == 3
        && unknown
        && option_outcomes(ctx) == 2
        && option_outcomes(other) == 1
        && ctx.opt_of(OptVar(0)) == Known::Some
        && other.opt_of(OptVar(0)) == Known::None
}

fn number_rows<L: Ledger>(alloc: Global, model: &Model, blank: Blank) -> Result<bool, NoMemory>
    requires name { blank.name ≡ L.name }
    requires parts { blank.parts ≡ L.parts }
    requires some { 0 < blank.parts }
{
    let mut steps = Steps::<L>::new(blank);
    let mut ctx = Ctx::new(alloc)?;
    let is_variable = ask_number(alloc, &mut ctx, model)?;
    ctx.reserve()?;
    Ok(is_variable && range_row(&mut ctx, &mut steps))
}

fn option_rows<L: Ledger>(
    alloc: Global,
    model: &Model,
    kind: &Ty,
    blank: Blank,
) -> Result<bool, NoMemory>
    requires option { (u : Ty) × (kind.now ≡ form.Option u) }
    requires name { blank.name ≡ L.name }
    requires parts { blank.parts ≡ L.parts }
    requires some { 0 < blank.parts }
{
    let mut steps = Steps::<L>::new(blank);
    let mut ctx = Ctx::new(alloc)?;
    let is_variable = ask_option(alloc, &mut ctx, model, kind)?;
    ctx.has_valuation();
    let mut other = ctx.try_copy(alloc)?;
    Ok(is_variable && fork_row(&mut ctx, &mut other, &mut steps))
}

fn all_rows(alloc: Global, model: &Model, kind: &Ty) -> Result<bool, NoMemory>
    requires option { (u : Ty) × (kind.now ≡ form.Option u) }
{
    let numbers = number_rows::<Brand>(alloc, model, Blank::new(1))?;
    let options = option_rows::<Brand>(alloc, model, kind, Blank::new(1))?;
    Ok(numbers && options)
}

fn rows(alloc: Global, model: &Model) -> Result<bool, NoMemory> {
    let kind = Ty::Option(Boxed::new(alloc, Ty::Int(0))?);
    all_rows(alloc, model, &kind)
}

#[test]
fn a_range_and_a_fork(rt: HostRuntime) -> Result<(), Fail> {
    let alloc = rt.alloc();
    let model = example(alloc)?;
    let passed = rows(alloc, &model)?;
    assert!(rt; passed);
    Ok(())
}
