//! The evaluator: what a call does with its arguments and a state, and what it logs.
#![tactic(auto)]

mod call;
mod cells;
mod code;
mod compare;
mod decide;
mod drive;
mod log;
mod operand;
mod outcome;
mod state;

pub use call::{meets_invariant, run_call, run_call_by};
pub use code::Code;
pub use compare::log_both;
pub use log::{CellName, Log};
pub use outcome::{Args, Outcome};
pub use state::{Except, State, same_cell};
