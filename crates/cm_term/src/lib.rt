//! Terms over unknown values, shared between all who hold them; what is asked of them, and symbols.
#![tactic(auto)]

mod atom;
mod question;
mod shared;
mod symbol;
mod term;

pub use atom::{Num, Opt, OptVar, Tag, TagVar};
pub use question::{Equal, Fact, Question};
pub use shared::Shared;
pub use symbol::{Root, Step, Sym, SymPath};
pub use term::{Parts, Term, depend_on_variables, share_all};

#[cfg(test)]
mod tests;
