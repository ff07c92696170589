//! The top call of the analyser.
#![tactic(auto)]

mod emit;
mod fetch;
mod judge;
mod outcome;
mod output;
mod posix;
mod run;
mod sections;
mod status;
mod stop;
mod tell;
mod top;

pub use status::Status;
pub use top::commuter;

#[cfg(test)]
mod tests;
