//! What a machine stops at, and what it goes on with.

use cm_model::List;

/// What is done with a bool.
#[derive(Clone, Copy, Drop)]
pub enum Then {
    /// It is the topmost operand.
    Flag,
    /// Its negation is.
    Not,
    /// A jump where it is false.
    Unless(u32),
    /// A jump where it is true.
    When(u32),
    /// The run is blocked where it is false.
    Assume,
}

/// Which orders of two numbers are true.
#[derive(Clone, Copy, Drop)]
pub enum Ranked {
    /// Where the first is less.
    Less,
    /// Where it is less or equal.
    NotMore,
    /// Where it is greater.
    More,
    /// Where it is greater or equal.
    NotLess,
}

/// What a machine stops at. V are the values, O the operands.
#[derive(Drop)]
pub enum Event<V, O> {
    /// A bool is inspected.
    Inspects(O, Then),
    /// Whether two are equal.
    Compares(O, O, Then),
    /// Two numbers are compared: 0 less, 1 equal, 2 greater.
    Orders(O, O, Ranked),
    /// A number from `lo` to `hi` is wanted.
    Into { lo: i64, hi: i64, of: O },
    /// An option is inspected; with no payload there is a jump.
    Opens(V, u32),
    /// A cell of a state, at a key where the state is a map.
    Reads(u16, Option<V>),
    /// The same, and the value that is written.
    Writes(u16, Option<V>, V),
    /// The run ends with a reply.
    Replies(V),
    /// The run is blocked.
    Blocks,
}

/// What is left of an instruction after its work on operands and locals.
#[derive(Drop)]
pub enum Did<V, O> {
    /// Nothing.
    Next,
    /// A jump.
    Over(u32),
    /// The machine stops.
    Stops(Event<V, O>),
    /// A function is called.
    Calls(u16, List<V>),
    /// A function ends with a reply.
    Returns(V),
}

/// A place in a code, by the code's number and the instruction's, with operands and locals.
#[derive(Drop)]
pub struct Frame<V, O> {
    /// The code's number: a function's, or behind those of all functions the body's.
    pub fun: usize,
    /// The number of the instruction that is next.
    pub at: usize,
    /// The operands, the topmost last.
    pub operands: List<O>,
    /// The arguments and then the locals, in order.
    pub locals: List<V>,
}

/// A run in midst, with the frames of its callers, the innermost last. It holds no borrow: its code is given at each
/// use.
#[derive(Drop)]
pub struct Machine<V, O> {
    /// Where it stands.
    pub top: Frame<V, O>,
    /// Where each caller goes on once its callee has replied.
    pub callers: List<Frame<V, O>>,
}
