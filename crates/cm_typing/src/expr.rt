//! Expressions are checked: a function an alternative of the grammar.

ghost use Rattle.std.specs.Prelude.{◌≡◌, [], ◌∷◌, map, pos, neg_ℤ};
ghost use Rattle.cm_syntax.specs.declared.tree.Cmp.TheOpen as layer;
ghost use Rattle.cm_model.specs.Limits as Limits;
ghost use Rattle.cm_typing.specs.Told.{Answers};
ghost use Rattle.cm_typing.specs.Expressions as Expressions;
ghost use Rattle.cm_typing.specs.Expressions.{expr_told, cmp_told, sum_told, unary_told, post_told};

use crate::fault::rule;
use crate::flat::{are_equal_kinds, bool_kind, is_bool, is_integer};
use crate::{Kind, Names, Scope, TypeFault, Typed, rules};
use cm_model::limits::NUMBER;
use cm_model::{Boxed, List, Op, Place};
use cm_syntax::{Cmp, Expr, Post, Relation, Sum, Unary};
use std::alloc::Global;

fn op_of(relation: Relation) -> Op
    ensures { result ≡ Expressions.op_of relation }
{
    match relation {
        Relation::Equal => Op::Eq,
        Relation::NotEqual => Op::Ne,
        Relation::Less => Op::Lt,
        Relation::AtMost => Op::Le,
        Relation::Greater => Op::Gt,
        Relation::AtLeast => Op::Ge,
    }
}

fn are_ordered(left: Option<Kind>, right: Option<Kind>, at: Place) -> Result<(), TypeFault>
    ensures { Answers (Expressions.ordered left right at) (λ u. u) result }
{
    let both = is_integer(left) && is_integer(right);
    rule(both, rules::ORDER, at)
}

// The rule on the sides of a comparison.
fn compared(
    relation: Relation,
    left: Option<Kind>,
    right: Option<Kind>,
    at: Place,
) -> Result<(), TypeFault>
    ensures { Answers (Expressions.compared relation left right at) (λ u. u) result }
{
    match relation {
        Relation::Equal => rule(are_equal_kinds(left, right), rules::SIDES, at),
        Relation::NotEqual => rule(are_equal_kinds(left, right), rules::SIDES, at),
        Relation::Less => are_ordered(left, right, at),
        Relation::AtMost => are_ordered(left, right, at),
        Relation::Greater => are_ordered(left, right, at),
        Relation::AtLeast => are_ordered(left, right, at),
    }
}

/// Whether a number is near enough to 0.
pub(crate) fn is_number(n: i64) -> bool
    ensures { result ≡ Limits.is_number n }
{
    -NUMBER <= n && n <= NUMBER
}

/// A condition's expression.
pub(crate) fn condition(v: Typed) -> Result<cm_model::Expr, TypeFault>
    ensures { Answers (Expressions.as_condition v) (λ e. e) result }
{
    rule(is_bool(v.kind), rules::CONDITION, v.at)?;
    Ok(v.expr)
}

impl Scope {
    /// An expression, where the declared names and the locals are these.
    #[cycle(check_expr)]
    pub(crate) fn check_expr(
        &self,
        alloc: Global,
        locals: &Names,
        e: &Expr,
    ) -> Result<Typed, TypeFault>
        ensures { Answers (expr_told e.now self.now locals.now) (λ v. v) result }
    {
        match e {
            Expr::Single { at: _, only } => self.check_cmp(alloc, locals, only),
            Expr::All {
                at,
                first,
                second,
                more,
            } => self.check_all(alloc, locals, *at, more.as_slice(), first, second.get()),
            Expr::Any {
                at,
                first,
                second,
                more,
            } => self.check_any(alloc, locals, *at, more.as_slice(), first, second.get()),
        }
    }

    #[cycle(check_expr)]
    fn check_all(
        &self,
        alloc: Global,
        locals: &Names,
        at: Place,
        more: &[Cmp],
        first: &Cmp,
        second: &Cmp,
    ) -> Result<Typed, TypeFault>
        ensures { Answers (Expressions.expr_step (layer.All at (cmp_told first.now) (cmp_told second.now) (map cmp_told
            more.now)) self.now locals.now)
            (λ v. v) result }
    {
        let operands = self.check_operands(alloc, locals, more, first, second)?;
        Ok(Typed {
            at,
            expr: cm_model::Expr::All(operands),
            kind: bool_kind(),
        })
    }

    #[cycle(check_expr)]
    fn check_any(
        &self,
        alloc: Global,
        locals: &Names,
        at: Place,
        more: &[Cmp],
        first: &Cmp,
        second: &Cmp,
    ) -> Result<Typed, TypeFault>
        ensures { Answers (Expressions.expr_step (layer.Any at (cmp_told first.now) (cmp_told second.now) (map cmp_told
            more.now)) self.now locals.now)
            (λ v. v) result }
    {
        let operands = self.check_operands(alloc, locals, more, first, second)?;
        Ok(Typed {
            at,
            expr: cm_model::Expr::Any(operands),
            kind: bool_kind(),
        })
    }

    #[cycle(check_expr)]
    fn check_operands(
        &self,
        alloc: Global,
        locals: &Names,
        more: &[Cmp],
        first: &Cmp,
        second: &Cmp,
    ) -> Result<List<cm_model::Expr>, TypeFault>
        ensures { Answers (Expressions.operands_told [] (cmp_told first.now ∷ cmp_told second.now ∷ map cmp_told
            more.now) self.now locals.now)
            (λ v. v) result }
    {
        let mut done = List::new(alloc);
        self.check_operand(alloc, locals, first, &mut done)?;
        self.check_operand(alloc, locals, second, &mut done)?;
        self.check_more(alloc, locals, more, &mut done)?;
        Ok(done)
    }

    #[cycle(check_expr)]
    fn check_more(
        &self,
        alloc: Global,
        locals: &Names,
        more: &[Cmp],
        done: &mut List<cm_model::Expr>,
    ) -> Result<(), TypeFault>
        ensures { Answers (Expressions.operands_told done.old (map cmp_told more.now) self.now locals.now)
            (λ u. done.new) result }
    {
        for e in more {
            self.check_operand(alloc, locals, e, done)?;
        }
        Ok(())
    }

    #[cycle(check_expr)]
    fn check_operand(
        &self,
        alloc: Global,
        locals: &Names,
        e: &Cmp,
        done: &mut List<cm_model::Expr>,
    ) -> Result<(), TypeFault>
        ensures { Answers (Expressions.operand_told done.old (cmp_told e.now) self.now locals.now)
            (λ u. done.new) result }
    {
        let v = self.check_cmp(alloc, locals, e)?;
        let e = condition(v)?;
        done.push(e)?;
        Ok(())
    }

    #[cycle(check_expr)]
    fn check_cmp(&self, alloc: Global, locals: &Names, e: &Cmp) -> Result<Typed, TypeFault>
        ensures { Answers (cmp_told e.now self.now locals.now) (λ v. v) result }
    {
        match e {
            Cmp::Side { at: _, only } => self.check_sum(alloc, locals, only),
            Cmp::Compared {
                at,
                left,
                relation,
                right,
            } => self.check_compared(alloc, locals, *at, left, *relation, right.get()),
        }
    }

    #[cycle(check_expr)]
    fn check_compared(
        &self,
        alloc: Global,
        locals: &Names,
        at: Place,
        left: &Sum,
        relation: Relation,
        right: &Sum,
    ) -> Result<Typed, TypeFault>
        ensures { Answers (Expressions.cmp_step (layer.Compared at (sum_told left.now) relation (sum_told right.now))
            self.now locals.now)
            (λ v. v) result }
    {
        let a = self.check_sum(alloc, locals, left)?;
        let b = self.check_sum(alloc, locals, right)?;
        compared(relation, a.kind, b.kind, at)?;
        Ok(Typed {
            at,
            expr: cm_model::Expr::Compare {
                op: op_of(relation),
                left: Boxed::new(alloc, a.expr)?,
                right: Boxed::new(alloc, b.expr)?,
            },
            kind: bool_kind(),
        })
    }

    #[cycle(check_expr)]
    fn check_sum(&self, alloc: Global, locals: &Names, e: &Sum) -> Result<Typed, TypeFault>
        ensures { Answers (sum_told e.now self.now locals.now) (λ v. v) result }
    {
        match e {
            Sum::Term { at: _, only } => self.check_unary(alloc, locals, only),
            Sum::Plus { at, left, size } => {
                self.check_shift(alloc, locals, *at, left, i64::from(*size))
            }
            Sum::Minus { at, left, size } => {
                self.check_shift(alloc, locals, *at, left, -i64::from(*size))
            }
        }
    }

    #[cycle(check_expr)]
    fn check_shift(
        &self,
        alloc: Global,
        locals: &Names,
        at: Place,
        left: &Unary,
        by: i64,
    ) -> Result<Typed, TypeFault>
        ensures { Answers (Expressions.shift_told at (unary_told left.now) by self.now locals.now) (λ v. v) result }
    {
        let v = self.check_unary(alloc, locals, left)?;
        rule(is_integer(v.kind), rules::INTEGER, v.at)?;
        rule(is_number(by), rules::NUMBERS, at)?;
        Ok(Typed {
            at,
            expr: cm_model::Expr::Shift {
                of: Boxed::new(alloc, v.expr)?,
                by,
            },
            kind: Some(Kind::Number),
        })
    }

    #[cycle(check_expr)]
    fn check_unary(&self, alloc: Global, locals: &Names, e: &Unary) -> Result<Typed, TypeFault>
        ensures { Answers (unary_told e.now self.now locals.now) (λ v. v) result }
    {
        match e {
            Unary::Bare { at: _, only } => self.check_post(alloc, locals, only),
            Unary::Not { at, of } => self.check_not(alloc, locals, *at, of),
        }
    }

    #[cycle(check_expr)]
    fn check_not(
        &self,
        alloc: Global,
        locals: &Names,
        at: Place,
        of: &Post,
    ) -> Result<Typed, TypeFault>
        ensures { Answers (Expressions.unary_step (layer.Not at (post_told of.now)) self.now locals.now)
            (λ v. v) result }
    {
        let v = self.check_post(alloc, locals, of)?;
        let e = condition(v)?;
        Ok(Typed {
            at,
            expr: cm_model::Expr::Not(Boxed::new(alloc, e)?),
            kind: bool_kind(),
        })
    }
}
