//! Worlds.

use cm_eval::{Args, State};

/// A world of a pair of calls: an initial state, and arguments for each of the two.
#[derive(Drop)]
pub struct World {
    /// The initial state.
    pub init: State,
    /// The arguments of the first call of the pair.
    pub a: Args,
    /// The arguments of the second call of the pair.
    pub b: Args,
}
