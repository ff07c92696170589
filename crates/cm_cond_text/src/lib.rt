//! The text of reports.
#![tactic(auto)]

mod cell;
mod literal;
mod number;
mod report;
mod scope;
mod symbol;

pub use cell::push_cell;
pub use literal::push_literal;
pub use report::{print_entry, print_report};
