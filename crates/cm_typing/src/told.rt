//! What parts of a tree are told to be.

use crate::{Flat, Kind};
use cm_model::{Call, Expr, List, Part, Place, SetField, Stmt};

/// An expression where it stands, with its kind where no rule took it.
#[derive(Drop)]
pub struct Typed {
    pub at: Place,
    pub expr: Expr,
    pub kind: Option<Kind>,
}

/// A state that is one cell.
#[derive(Clone, Copy)]
pub struct FoundCell {
    pub state: u16,
    pub value: Option<Flat>,
}

/// A state that is a map.
#[derive(Clone, Copy)]
pub struct FoundMap {
    pub state: u16,
    pub key: Option<Flat>,
    pub value: Option<Flat>,
}

/// A field of a record.
#[derive(Clone, Copy)]
pub struct FoundField {
    pub index: u16,
    pub ty: Option<Flat>,
}

/// A field of a field and so on, with its kind.
#[derive(Drop)]
pub struct FieldPath {
    pub path: List<u16>,
    pub kind: Option<Kind>,
}

/// The sets of a `with`, and which fields are set.
#[derive(Drop)]
pub struct Sets {
    pub sets: List<SetField>,
    pub taken: List<u16>,
}

/// A statement, and whether it always returns.
#[derive(Drop)]
pub struct Done {
    pub stmt: Stmt,
    pub returns: bool,
}

/// Statements, and whether the last always returns.
#[derive(Drop)]
pub struct Steps {
    pub steps: List<Stmt>,
    pub returns: bool,
}

/// Parameters or fields, and their types where no rule took them.
#[derive(Drop)]
pub struct Params {
    pub parts: List<Part>,
    pub types: List<Option<Flat>>,
}

/// The statements of a function or a call, and their weight.
#[derive(Drop)]
pub struct Body {
    pub steps: List<Stmt>,
    pub weight: u32,
}

/// A function or a call, with its types where no rule took them, and its weight.
#[derive(Drop)]
pub struct Routine {
    pub call: Call,
    pub types: List<Option<Flat>>,
    pub reply: Option<Flat>,
    pub weight: u32,
}
