//! What goes into a call, and what comes out.

use cm_value::{Vals, Value};

/// The arguments of a call, outer ones first and then internal ones.
#[derive(Drop)]
pub struct Args {
    pub vals: Vals,
}

/// How a call ended.
#[derive(Drop)]
pub enum Outcome {
    /// With a reply.
    Reply(Value),
    /// Without one: a false `assume`, a number outside its type, or a false invariant of a cell.
    Blocked,
}
