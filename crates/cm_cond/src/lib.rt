//! The conditions of pairs of calls: reports, and whether a case of one holds of a world.
#![tactic(auto)]

mod cell;
mod holding;
mod key;
mod literal;
mod report;
mod symbol;

pub use cell::{CellTerm, KeyTerm};
pub use holding::{condition_holds, holds};
pub use literal::{Literal, Ord3};
pub use report::{Case, Condition, PairEntry, PairReport, Report};
