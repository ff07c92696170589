//! The tokens of a model's text.
#![tactic(auto)]

mod bytes;
mod first;
mod gap;
mod laws;
mod mark;
mod number;
mod token;
mod tokens;
mod word;

pub use laws::tokens_end_once;
pub use token::{Placed, Token};
pub use tokens::Tokens;

#[cfg(test)]
mod tests;
