//! Worlds of a pair of calls: both orders of the calls, whether they commute, and the path of decisions.
#![tactic(auto)]

mod commuting;
mod order;
mod pair_tests;
mod path;
mod states;
mod typing;
mod world;

pub use commuting::{commutes, commutes_by};
pub use pair_tests::{PairTests, Tests, TestsEntry};
pub use path::{path_by, path_of};
pub use typing::is_world_of;
pub use world::World;
