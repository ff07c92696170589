//! The limits of the language of models and of its analysis, as the definitions in specs/Limits name them.

/// How many bytes a name has at most.
pub const NAME: usize = 40;

/// How many sorts, integer types, enums, records or states a model declares at most; `bool` is one enum more.
pub const DECLARATIONS: usize = 4096;

/// How many functions a model declares at most.
pub const FUNCTIONS: usize = 64;

/// How many calls a model declares at most.
pub const CALLS: usize = 64;

/// How many variants an enum has at most.
pub const VARIANTS: u16 = 64;

/// The width of a type in use at most.
pub const WIDTH: u32 = 32;

/// How many integers are in a type in use at most.
pub const INTEGERS: u32 = 6;

/// The width of the parameters of a function or call together at most.
pub const PARAMETERS_WIDTH: u32 = 64;

/// How many integers are in the parameters of a function or call at most.
pub const PARAMETERS_INTEGERS: u32 = 16;

/// The weight of an invariant at most.
pub const INVARIANT_WEIGHT: u32 = 1_000;

/// The weight of the body of a function or call at most.
pub const BODY_WEIGHT: u32 = 100_000;

/// How many shifts stand one inside another at most.
pub const SHIFTS: u32 = 65;

/// How many brackets of a text are open at once at most.
pub const BRACKETS: u64 = 64;

/// How far a numeral, or a number of an integer type, is from 0 at most.
pub const NUMBER: i64 = 1_000_000;

/// How many decisions a path has at most.
pub const DECISIONS: usize = 1_024;

/// How many cells a path touches at most.
pub const CELLS: usize = 48;
