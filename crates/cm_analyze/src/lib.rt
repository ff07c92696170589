//! The right report of a pair: its paths are walked over, and each that a commuting world has becomes a case.
#![tactic(auto)]

mod case;
mod report;

pub use report::analyze_pair;
