//! The rules of the language once, for values and for terms; flat code, compiling, and a machine that runs it.
#![tactic(auto)]

mod compile;
mod event;
mod instr;
mod machine;
mod operand;
mod operate;
mod stack;
mod tail;

pub use compile::{compile_all, compile_body, compile_invariant};
pub use event::{Did, Event, Frame, Machine, Ranked, Then};
pub use instr::{Away, Choice, Instr, Piece};
pub use machine::{go, hand, open, rank, start, tell};
pub use operand::Operand;
pub use tail::{Tail, reversed};
