//! What may follow the first part of a rule, where more may follow or nothing.

use crate::{Cmp, Expr, Relation, Sum};
use cm_model::{Boxed, List};

/// What follows a name in an expression.
#[derive(Drop)]
pub enum AfterName {
    Nothing,
    /// `[KEY]`
    Key(Boxed<Expr>),
    /// `(ARGS)`
    Args(List<Expr>),
}

/// What follows the first operand of a sum.
#[derive(Clone, Copy, PartialEq, Eq)]
pub enum Offset {
    Nothing,
    /// `+ SIZE`
    Plus(u32),
    /// `- SIZE`
    Minus(u32),
}

/// What follows the left side of a comparison.
#[derive(Drop)]
pub enum RightSide {
    Nothing,
    Related(Relation, Boxed<Sum>),
}

/// What follows the first comparison of an expression.
#[derive(Drop)]
pub enum Joined {
    Nothing,
    /// `and SECOND and ..`
    And(Boxed<Cmp>, List<Cmp>),
    /// `or SECOND or ..`
    Or(Boxed<Cmp>, List<Cmp>),
}
