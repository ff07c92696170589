//! The cells that a pair of calls has touched, and what each holds in each of the two orders.
#![tactic(auto)]

mod cell;
mod cells;
mod compare;
mod order;
mod search;

pub use cells::{Cells, CellsFault};
pub use order::Order;
pub use search::{Touched, touch_as_values_do};

#[cfg(test)]
mod tests;
