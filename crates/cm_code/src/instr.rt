//! Flat code.

use cm_model::{List, Op};

/// An instruction on a stack of operands and a list of locals. Jumps go forward, over a number of instructions.
#[derive(Clone, Copy, Drop)]
pub enum Instr {
    /// A numeral.
    Number(i64),
    /// A variant of an enum, by the enum's number and its own.
    Tag { ty: u16, index: u16 },
    /// A bool.
    Flag(bool),
    /// An option with nothing in it.
    Nothing,
    /// A parameter or local.
    Local(u16),
    /// The topmost operand has to be a value.
    Valued,
    /// An option with the topmost operand as its payload.
    Some,
    /// A record whose fields are the topmost operands.
    Make(usize),
    /// A field of the topmost operand.
    Field(u16),
    /// The operand below the topmost with this one in a field.
    SetField(u16),
    /// The topmost operand plus a numeral.
    Shift(i64),
    /// The topmost operand as a number from `lo` to `hi`.
    Into { lo: i64, hi: i64 },
    /// Whether the two topmost operands compare so.
    Compare(Op),
    /// The topmost operand is false.
    Not,
    /// A jump where the topmost operand is false.
    Unless(u32),
    /// A jump where the topmost operand is true.
    When(u32),
    /// A jump.
    Jump(u32),
    /// The value of a cell, at the topmost operand as its key where the state is a map.
    Read { state: u16, keyed: bool },
    /// A function on the topmost operands.
    Apply { fun: u16, args: usize },
    /// The topmost operand becomes the last local.
    Let,
    /// The last locals go.
    Leave(usize),
    /// The topmost operand is written into a cell, with the operand below it as key where the state is a map.
    Write { state: u16, keyed: bool },
    /// The payload of the topmost operand becomes the last local; a jump where it has none.
    Open(u32),
    /// The run is blocked where the topmost operand is false.
    Assume,
    /// A reply with the topmost operand.
    Return,
    /// The run is blocked.
    Block,
}

/// Code, and how many locals are more behind it.
#[derive(Drop)]
pub struct Piece {
    /// Its instructions in order.
    pub code: List<Instr>,
    /// How many locals are more.
    pub lets: usize,
}

/// Which outcome of a bool leads away in a list of tests.
#[derive(Clone, Copy, Drop)]
pub enum Away {
    /// False: the tests ask whether all are true.
    False,
    /// True: they ask whether one is.
    True,
}

/// A choice between two blocks: by a bool, or by an option.
#[derive(Clone, Copy, Drop)]
pub enum Choice {
    /// The second block where it is false.
    Bool,
    /// The second block where it is none.
    Option,
}
