//! When a pair of calls commutes.

use cm_model::List;
use cm_term::Equal;

/// When a pair commutes on a path.
#[derive(Drop)]
pub enum Verdict {
    /// In no world.
    Never,
    /// In the worlds in which each of these is so.
    If(List<Equal>),
}
