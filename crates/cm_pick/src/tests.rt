//! Worked examples.

ghost use Rattle.std.specs.Prelude.{[], IsTrue};
ghost use Rattle.std.specs.List.{AllByRecursion};
ghost use Rattle.cm_ctx.specs.Contexts.{IsQuestion};
ghost use Rattle.cm_pick.specs.Picking.{fact_of};

use crate::picking::pick;
use crate::standing::as_fact;
use cm_ctx::Ctx;
use cm_model::{EnumDecl, IntDecl, IntVar, List, Model, Name, NoMemory, SortVar, Ty};
use cm_term::{Equal, Fact, Num, Question, Root, Sym, SymPath};
use std::alloc::Global;
use std::test::Fail;

/// A model with an integer type from 0 to 3.
fn example(alloc: Global) -> Result<Model, NoMemory> {
    let mut ints = List::new(alloc);
    let name = Name::from_str(alloc, "n")?;
    ints.push(IntDecl { name, lo: 0, hi: 3 })?;
    let mut variants = List::new(alloc);
    variants.push(Name::from_str(alloc, "false")?)?;
    variants.push(Name::from_str(alloc, "true")?)?;
    let name = Name::from_str(alloc, "bool")?;
    let mut enums = List::new(alloc);
    enums.push(EnumDecl { name, variants })?;
    let model = Model::new(
        List::new(alloc),
        ints,
        enums,
        List::new(alloc),
        List::new(alloc),
        List::new(alloc),
        List::new(alloc),
    );
    Ok(model)
}

/// Asks for the symbol of this root, if it was not asked for.
fn ask(alloc: Global, ctx: &mut Ctx, model: &Model, root: Root, ty: &Ty) -> Result<(), NoMemory> {
    if !ctx.has(root) {
        let path = SymPath::new(alloc);
        ctx.fresh_of(model, &Sym { root, path }, ty)?;
    }
    Ok(())
}

/// Asks for three elements, which are variables 0 to 2, and for a number, which is variable 1.
fn ask_all(alloc: Global, ctx: &mut Ctx, model: &Model) -> Result<(), NoMemory> {
    ask(alloc, ctx, model, Root::A(0), &Ty::Sort(0))?;
    ask(alloc, ctx, model, Root::A(1), &Ty::Sort(0))?;
    ask(alloc, ctx, model, Root::A(2), &Ty::Sort(0))?;
    ask(alloc, ctx, model, Root::A(3), &Ty::Int(0))
}

fn can_be_asked(ctx: &Ctx, equalities: &[Equal]) -> bool
    ensures { IsTrue result → AllByRecursion (λ e. IsQuestion ctx.now (fact_of e).question) equalities.now }
{
    for equality in equalities {
        if !ctx.is_question(&as_fact(*equality).question) {
            return false;
        }
    }
    true
}

/// Whether these facts are picked; none where the equalities can not be.
fn picks(
    alloc: Global,
    ctx: &mut Ctx,
    equalities: &[Equal],
    wanted: Option<&[Fact]>,
) -> Result<bool, NoMemory> {
    if !can_be_asked(ctx, equalities) {
        return Ok(false);
    }
    let picked = pick(alloc, ctx, equalities)?;
    Ok(is_as_wanted(&picked, wanted))
}

fn is_as_wanted(picked: &Option<List<Fact>>, wanted: Option<&[Fact]>) -> bool {
    match (picked, wanted) {
        (None, None) => true,
        (Some(facts), Some(wanted)) => facts.as_slice() == wanted,
        _ => false,
    }
}

/// The first two of three elements in a circle; the second equality of a number with another offset follows.
fn rows(alloc: Global, ctx: &mut Ctx) -> Result<bool, NoMemory> {
    let [x, y, z] = [SortVar(0), SortVar(1), SortVar(2)];
    let circle = [Equal::Elems(x, y), Equal::Elems(y, z), Equal::Elems(x, z)];
    let two = [as_fact(circle[0]), as_fact(circle[1])];
    let n = Num::Plus(IntVar(1), 0);
    let more = Num::Plus(IntVar(1), 1);
    let number = [
        Equal::Nums(n, Num::Const(2)),
        Equal::Nums(more, Num::Const(3)),
    ];
    let one = [as_fact(number[0])];
    let never = [Equal::Nums(n, Num::Const(4))];
    let elements = picks(alloc, ctx, &circle, Some(&two))?;
    let again = picks(alloc, ctx, &circle, Some(&[]))?;
    let numbers = picks(alloc, ctx, &number, Some(&one))?;
    let impossible = picks(alloc, ctx, &never, None)?;
    Ok(elements && again && numbers && impossible)
}

fn all_rows(alloc: Global, model: &Model) -> Result<bool, NoMemory> {
    let mut ctx = Ctx::new(alloc)?;
    ask_all(alloc, &mut ctx, model)?;
    rows(alloc, &mut ctx)
}

#[test]
fn two_of_a_circle(rt: HostRuntime) -> Result<(), Fail> {
    let alloc = rt.alloc();
    let model = example(alloc)?;
    let passed = all_rows(alloc, &model)?;
    assert!(rt; passed);
    Ok(())
}
