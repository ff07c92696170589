//! Facts as literals.

ghost use Rattle.std.specs.Prelude.{◌≡◌, Some, IfOk};
ghost use Rattle.cm_term.specs.Atoms.{offset_of};
ghost use Rattle.cm_term.specs.declared.question.Question.TheVariants as question;
ghost use Rattle.cm_ctx.specs.Contexts.{IsSmall};
ghost use Rattle.cm_cond.specs.declared.literal.Literal.{Literal};
ghost use Rattle.cm_name.specs.Naming.{elements_literal, order_said, turned, numbers_literal, order_literal};
ghost use Rattle.cm_name.specs.Naming.{place_literal, range_literal, tag_literal, presence_literal, option_literal};
ghost use Rattle.cm_name.specs.Naming.{said_of, literal_of, AreSmall, equality_literal};

use crate::order::is_before;
use crate::symbol;
use cm_cond::{Literal, Ord3};
use cm_ctx::Ctx;
use cm_model::{NoMemory, SortVar};
use cm_term::{Fact, Num, Opt, Question, Sym, Tag};

/// What a report says of a fact: the literal of its question and outcome, the earlier symbol first.
///
/// # Errors
/// `NoMemory` where memory runs out.
pub fn literal(ctx: &Ctx, fact: &Fact) -> Result<Literal, NoMemory>
    requires named { (l : Literal) × (literal_of ctx.now.pieces fact.now ≡ Some l) }
    requires small { AreSmall fact.now.question }
    ensures literal { IfOk result (λ l. literal_of ctx.now.pieces fact.now ≡ Some l) }
{
    match fact.question {
        Question::Elems(x, y) => elements_literal(ctx, x, y, fact.outcome),
        Question::Nums(left, right) => order_literal(ctx, left, right, order_said(fact.outcome)),
        Question::Range { of, lo, hi } => range_literal(ctx, of, lo, hi, fact.outcome),
        Question::TagOf(tag) => tag_literal(ctx, tag, fact.outcome),
        Question::OptOf(opt) => option_literal(ctx, opt, fact.outcome),
    }
}

fn elements_literal(ctx: &Ctx, x: SortVar, y: SortVar, outcome: u8) -> Result<Literal, NoMemory>
    requires { (l : Literal) × (said_of ctx.now.pieces (question.Elems x y) outcome ≡ Some l) }
    ensures { IfOk result (λ l. said_of ctx.now.pieces (question.Elems x y) outcome ≡ Some l) }
{
    let left = symbol::of_element(ctx, x)?;
    let right = symbol::of_element(ctx, y)?;
    Ok(ordered_equality(left, right, outcome))
}

fn ordered_equality(x: Sym, y: Sym, outcome: u8) -> Literal
    ensures { result ≡ elements_literal outcome x y }
{
    if is_before(&y, &x) {
        equality(y, x, outcome)
    } else {
        equality(x, y, outcome)
    }
}

fn equality(x: Sym, y: Sym, outcome: u8) -> Literal
    ensures { result ≡ equality_literal outcome x y }
{
    match outcome {
        0 => Literal::Same { x, y },
        _ => Literal::Differ { x, y },
    }
}

// How the first number stands to the second.
fn order_said(outcome: u8) -> Ord3
    ensures { result ≡ order_said outcome }
{
    match outcome {
        0 => Ord3::Less,
        1 => Ord3::Equal,
        _ => Ord3::Greater,
    }
}

// How the second stands to the first.
fn turned(op: Ord3) -> Ord3
    ensures { result ≡ turned op }
{
    match op {
        Ord3::Less => Ord3::Greater,
        Ord3::Equal => Ord3::Equal,
        Ord3::Greater => Ord3::Less,
    }
}

fn order_literal(ctx: &Ctx, left: Num, right: Num, op: Ord3) -> Result<Literal, NoMemory>
    requires named { (l : Literal) × (order_literal ctx.now.pieces left right op ≡ Some l) }
    requires left { IsSmall (offset_of left) }
    requires right { IsSmall (offset_of right) }
    ensures { IfOk result (λ l. order_literal ctx.now.pieces left right op ≡ Some l) }
{
    match (left, right) {
        (Num::Plus(x, k), Num::Plus(y, l)) => {
            let left = symbol::of_number(ctx, x)?;
            let right = symbol::of_number(ctx, y)?;
            Ok(numbers_literal(op, k, l, left, right))
        }
        (Num::Plus(x, k), Num::Const(n)) => {
            let x = symbol::of_number(ctx, x)?;
            Ok(Literal::Against { x, op, n: n - k })
        }
        (Num::Const(n), Num::Plus(y, l)) => {
            let x = symbol::of_number(ctx, y)?;
            Ok(Literal::Against {
                x,
                op: turned(op),
                n: n - l,
            })
        }
        (Num::Const(_), Num::Const(_)) => unreachable!(),
    }
}

fn numbers_literal(op: Ord3, k: i64, l: i64, x: Sym, y: Sym) -> Literal
    requires left { IsSmall k }
    requires right { IsSmall l }
    ensures { result ≡ numbers_literal op k l x y }
{
    if is_before(&y, &x) {
        Literal::Order {
            x: y,
            plus: l - k,
            op: turned(op),
            y: x,
        }
    } else {
        Literal::Order {
            x,
            plus: k - l,
            op,
            y,
        }
    }
}

fn range_literal(ctx: &Ctx, of: Num, lo: i64, hi: i64, outcome: u8) -> Result<Literal, NoMemory>
    requires named { (l : Literal) × (range_literal ctx.now.pieces of lo hi outcome ≡ Some l) }
    requires number { IsSmall (offset_of of) }
    requires low { IsSmall lo }
    requires high { IsSmall hi }
    ensures { IfOk result (λ l. range_literal ctx.now.pieces of lo hi outcome ≡ Some l) }
{
    match of {
        Num::Plus(x, k) => {
            let x = symbol::of_number(ctx, x)?;
            Ok(place_literal(k, lo, hi, outcome, x))
        }
        Num::Const(_) => unreachable!(),
    }
}

// Where a number that is so much more stands to a range.
fn place_literal(k: i64, lo: i64, hi: i64, outcome: u8, x: Sym) -> Literal
    requires number { IsSmall k }
    requires low { IsSmall lo }
    requires high { IsSmall hi }
    ensures { result ≡ place_literal k lo hi outcome x }
{
    match outcome {
        0 => Literal::Against {
            x,
            op: Ord3::Less,
            n: lo - k,
        },
        1 => Literal::Within { x, plus: k, lo, hi },
        _ => Literal::Against {
            x,
            op: Ord3::Greater,
            n: hi - k,
        },
    }
}

fn tag_literal(ctx: &Ctx, tag: Tag, outcome: u8) -> Result<Literal, NoMemory>
    requires { (l : Literal) × (tag_literal ctx.now.pieces tag outcome ≡ Some l) }
    ensures { IfOk result (λ l. tag_literal ctx.now.pieces tag outcome ≡ Some l) }
{
    match tag {
        Tag::Var(x) => {
            let x = symbol::of_tag(ctx, x)?;
            Ok(Literal::Tag {
                x,
                index: u16::from(outcome),
            })
        }
        Tag::Const { .. } => unreachable!(),
    }
}

fn option_literal(ctx: &Ctx, opt: Opt, outcome: u8) -> Result<Literal, NoMemory>
    requires { (l : Literal) × (option_literal ctx.now.pieces opt outcome ≡ Some l) }
    ensures { IfOk result (λ l. option_literal ctx.now.pieces opt outcome ≡ Some l) }
{
    match opt {
        Opt::Var(o) => {
            let x = symbol::of_option(ctx, o)?;
            Ok(presence(x, outcome))
        }
        Opt::None | Opt::Some => unreachable!(),
    }
}

fn presence(x: Sym, outcome: u8) -> Literal
    ensures { result ≡ presence_literal outcome x }
{
    match outcome {
        0 => Literal::IsNone(x),
        _ => Literal::IsSome(x),
    }
}
