//! Expressions, statements, states, functions and calls of a model.

use crate::{Boxed, List, Name, Part, Ty};

/// The six comparisons.
#[derive(Clone, Copy, Debug, PartialEq, Eq)]
pub enum Op {
    Eq,
    Ne,
    Lt,
    Le,
    Gt,
    Ge,
}

/// One field of a `with` and its new value.
#[cycle(expr)]
#[derive(Drop)]
pub struct SetField {
    pub field: u16,
    pub value: Expr,
}

/// An expression. Locals are numbered by their position in scope, parameters first.
#[cycle(expr)]
#[derive(Drop)]
pub enum Expr {
    /// A numeral.
    Num(i64),
    /// A variant of an enum.
    Tag {
        ty: u16,
        index: u16,
    },
    /// A parameter or local.
    Local(u16),
    /// The value of a cell, at a key where the state is a map.
    Cell {
        state: u16,
        key: Option<Boxed<Expr>>,
    },
    /// A field of a field and so on.
    Fields {
        of: Boxed<Expr>,
        path: List<u16>,
    },
    /// A record with some fields replaced.
    With {
        of: Boxed<Expr>,
        sets: List<SetField>,
    },
    /// A record's value with its fields in order.
    Make {
        rec: u16,
        parts: List<Expr>,
    },
    /// The none of the option of this type.
    NoneOf(Ty),
    /// An option with a payload.
    SomeOf(Boxed<Expr>),
    /// The operand plus a numeral.
    Shift {
        of: Boxed<Expr>,
        by: i64,
    },
    /// The operand as a number of an integer type.
    Into {
        int: u16,
        of: Boxed<Expr>,
    },
    /// A comparison.
    Compare {
        op: Op,
        left: Boxed<Expr>,
        right: Boxed<Expr>,
    },
    /// All operands are true.
    All(List<Expr>),
    /// One of the operands is true.
    Any(List<Expr>),
    /// The operand is false.
    Not(Boxed<Expr>),
    /// A function on its arguments.
    Apply {
        fun: u16,
        args: List<Expr>,
    },
}

/// A statement.
#[derive(Drop)]
pub enum Stmt {
    /// Names a value: it is the next local until its block ends.
    Let(Expr),
    /// Writes a cell.
    Set {
        state: u16,
        key: Option<Expr>,
        value: Expr,
    },
    /// One of two blocks.
    If {
        cond: Expr,
        yes: List<Stmt>,
        other: List<Stmt>,
    },
    /// One of two blocks; in `some` the payload is the next local.
    Case {
        of: Expr,
        none: List<Stmt>,
        some: List<Stmt>,
    },
    /// Blocks the run where the condition is false.
    Assume(Expr),
    /// Ends the body with a reply.
    Return(Expr),
}

/// A cell of a type, or a map from a key type, with an invariant of the cells' values in which local 0 is
/// the value.
#[derive(Drop)]
pub struct StateDecl {
    pub name: Name,
    pub key: Option<Ty>,
    pub value: Ty,
    pub inv: Option<Expr>,
}

/// A function or a call: the first `outer` parameters come from outside, the others are internal.
#[derive(Drop)]
pub struct Call {
    pub name: Name,
    pub params: List<Part>,
    pub outer: u16,
    pub reply: Ty,
    pub body: List<Stmt>,
}
