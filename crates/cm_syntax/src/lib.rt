//! The tree of a model's text, read token by token.
//!
//! The text is read once, with one token of look-ahead. Each function reads one rule of the grammar
//! or what may follow a part of one. A function comes back to itself, for an expression, a type or a
//! block, only behind a bracket that it has passed and that is still open then. At most 64 are open,
//! and from one to the next at most twelve calls stand one inside another, so the depth of the calls
//! is bounded whatever the text.
#![tactic(auto)]

mod decl;
mod expr;
mod fault;
mod lists;
mod mark;
mod reader;
mod stmt;
mod tails;
mod tree;
mod types;
mod whole;

pub use fault::SyntaxFault;
pub use tree::{
    Block, Cmp, Decl, Expr, Num, Part, Post, Primary, Relation, Set, Stmt, Sum, Tree, Type, Unary,
};
pub use whole::{one_tree, read_tree};
