//! When cases and reports are right, and that the case which is named after a leaf is.
#![tactic(auto)]

mod laws;

pub use laws::{cases_are_right, right_reports_are_spelled};
