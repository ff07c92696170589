//! The tree of a model's text: a type a rule of the grammar, a variant an alternative, the parts in
//! the order in which they are written. `at` is the place of a node's first token.

use cm_model::{Boxed, List, Name, Place};

/// A whole text: its declarations.
#[derive(Drop)]
pub struct Tree {
    pub at: Place,
    pub first: Decl,
    pub more: List<Decl>,
}

/// A declaration.
#[derive(Drop)]
pub enum Decl {
    /// `sort NAME;`
    Sort {
        at: Place,
        name: Name,
    },
    /// `int NAME LOW..HIGH;`
    Int {
        at: Place,
        name: Name,
        low: Num,
        high: Num,
    },
    /// `enum NAME { FIRST, MORE }`
    Enum {
        at: Place,
        name: Name,
        first: Name,
        more: List<Name>,
    },
    /// `record NAME { FIRST, MORE }`
    Record {
        at: Place,
        name: Name,
        first: Part,
        more: List<Part>,
    },
    /// `state NAME: VALUE;`
    Cell {
        at: Place,
        name: Name,
        value: Type,
    },
    /// `state NAME: VALUE where INVARIANT;`
    CellWhere {
        at: Place,
        name: Name,
        value: Type,
        invariant: Boxed<Expr>,
    },
    /// `state NAME: map KEY -> VALUE;`
    Map {
        at: Place,
        name: Name,
        key: Type,
        value: Type,
    },
    /// `state NAME: map KEY -> VALUE where INVARIANT;`
    MapWhere {
        at: Place,
        name: Name,
        key: Type,
        value: Type,
        invariant: Boxed<Expr>,
    },
    /// `fn NAME(PARAMS) -> REPLY BODY`
    Function {
        at: Place,
        name: Name,
        params: List<Part>,
        reply: Type,
        body: Block,
    },
    /// `call NAME(PARAMS; internal INTERNAL) -> REPLY BODY`. Where `internal` is empty, the word is
    /// not written.
    Call {
        at: Place,
        name: Name,
        params: List<Part>,
        internal: List<Part>,
        reply: Type,
        body: Block,
    },
}

/// An end of an integer type's range, or a number in an expression.
#[derive(Drop)]
pub enum Num {
    /// Digits alone.
    Digits { at: Place, size: u32 },
    /// A minus and digits.
    Negative { at: Place, size: u32 },
}

/// `NAME: TYPE`
#[derive(Drop)]
pub struct Part {
    pub at: Place,
    pub name: Name,
    pub value: Type,
}

/// A type as it is written.
#[derive(Drop)]
pub enum Type {
    Bool { at: Place },
    Named { at: Place, name: Name },
    /// `option(INNER)`
    Optional { at: Place, inner: Boxed<Type> },
}

/// Statements between braces.
#[cycle(statements)]
#[derive(Drop)]
pub struct Block {
    pub at: Place,
    pub statements: List<Stmt>,
}

/// A statement.
#[cycle(statements)]
#[derive(Drop)]
pub enum Stmt {
    /// `let NAME = VALUE;`
    Let {
        at: Place,
        name: Name,
        value: Boxed<Expr>,
    },
    /// `NAME = VALUE;`
    Assign {
        at: Place,
        name: Name,
        value: Boxed<Expr>,
    },
    /// `NAME[KEY] = VALUE;`
    AssignAt {
        at: Place,
        name: Name,
        key: Boxed<Expr>,
        value: Boxed<Expr>,
    },
    /// `if TEST YES`
    If {
        at: Place,
        test: Boxed<Expr>,
        yes: Block,
    },
    /// `if TEST YES else OTHER`
    IfElse {
        at: Place,
        test: Boxed<Expr>,
        yes: Block,
        other: Block,
    },
    /// `case OF { none NOTHING some NAME SOMETHING }`
    Case {
        at: Place,
        of: Boxed<Expr>,
        nothing: Block,
        name: Name,
        something: Block,
    },
    /// `assume TEST;`
    Assume {
        at: Place,
        test: Boxed<Expr>,
    },
    /// `return VALUE;`
    Return {
        at: Place,
        value: Boxed<Expr>,
    },
}

/// An expression: comparisons joined by `and` alone or by `or` alone.
#[cycle(expressions)]
#[derive(Drop)]
pub enum Expr {
    Single {
        at: Place,
        only: Cmp,
    },
    /// `FIRST and SECOND and ..`
    All {
        at: Place,
        first: Cmp,
        second: Boxed<Cmp>,
        more: List<Cmp>,
    },
    /// `FIRST or SECOND or ..`
    Any {
        at: Place,
        first: Cmp,
        second: Boxed<Cmp>,
        more: List<Cmp>,
    },
}

/// A comparison, or what may stand on its side.
#[cycle(expressions)]
#[derive(Drop)]
pub enum Cmp {
    Side {
        at: Place,
        only: Sum,
    },
    Compared {
        at: Place,
        left: Sum,
        relation: Relation,
        right: Boxed<Sum>,
    },
}

/// How the sides of a comparison are related.
#[derive(Clone, Copy, Debug, PartialEq, Eq)]
pub enum Relation {
    Equal,
    NotEqual,
    Less,
    AtMost,
    Greater,
    AtLeast,
}

/// A sum with a number, or what may stand on its left.
#[cycle(expressions)]
#[derive(Drop)]
pub enum Sum {
    Term { at: Place, only: Unary },
    Plus { at: Place, left: Unary, size: u32 },
    Minus { at: Place, left: Unary, size: u32 },
}

/// A negation, or what may be negated.
#[cycle(expressions)]
#[derive(Drop)]
pub enum Unary {
    Bare { at: Place, only: Post },
    Not { at: Place, of: Post },
}

/// `PRIM.FIELD.FIELD with { SET, SET }`. Where `sets` is empty, `with` is not written.
#[cycle(expressions)]
#[derive(Drop)]
pub struct Post {
    pub at: Place,
    pub prim: Primary,
    pub fields: List<Name>,
    pub sets: List<Set>,
}

/// `FIELD: VALUE`
#[cycle(expressions)]
#[derive(Drop)]
pub struct Set {
    pub at: Place,
    pub field: Name,
    pub value: Expr,
}

/// An expression without a sign between its parts.
#[cycle(expressions)]
#[derive(Drop)]
pub enum Primary {
    Number {
        at: Place,
        value: Num,
    },
    True {
        at: Place,
    },
    False {
        at: Place,
    },
    It {
        at: Place,
    },
    Name {
        at: Place,
        name: Name,
    },
    /// `NAME[KEY]`
    Entry {
        at: Place,
        name: Name,
        key: Boxed<Expr>,
    },
    /// `NAME(ARGS)`
    Apply {
        at: Place,
        name: Name,
        args: List<Expr>,
    },
    /// `none(INNER)`
    NoneOf {
        at: Place,
        inner: Type,
    },
    /// `some(OF)`
    SomeOf {
        at: Place,
        of: Boxed<Expr>,
    },
    /// `(INNER)`
    Group {
        at: Place,
        inner: Boxed<Expr>,
    },
}
