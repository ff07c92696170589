//! The type rules by their numbers, as the definitions in specs/Rules name them.

/// A name is taken in its set.
pub const TAKEN: u8 = 1;

/// A name is not declared before its use, or not of a kind that its place allows.
pub const UNKNOWN: u8 = 2;

/// A range is empty or too far from 0, or a numeral is.
pub const NUMBERS: u8 = 3;

/// An enum has too many variants.
pub const VARIANTS: u8 = 4;

/// A type in use is too wide or holds too many integers.
pub const WIDE: u8 = 5;

/// The key type of a map holds an option.
pub const KEY: u8 = 6;

/// There are too many parameters, or too many declarations of a kind.
pub const MANY: u8 = 7;

/// There are not as many arguments as are declared.
pub const COUNT: u8 = 8;

/// A value has another type than is declared.
pub const TYPES: u8 = 9;

/// A condition, an invariant or an operand of `and`, `or` or `not` is not bool.
pub const CONDITION: u8 = 10;

/// The sides of `==` or `!=` cannot be compared.
pub const SIDES: u8 = 11;

/// A side of `<`, `<=`, `>` or `>=` is not an integer expression.
pub const ORDER: u8 = 12;

/// The operand of `+`, `-` or a conversion is not an integer expression.
pub const INTEGER: u8 = 13;

/// The operand of `case` is not an option.
pub const OPTION: u8 = 14;

/// A field is asked of something without it, or is set twice.
pub const FIELD: u8 = 15;

/// A block can end without `return`, or a statement follows one that always returns.
pub const RETURNS: u8 = 16;

/// A number expression stands where a value is needed.
pub const NUMBER: u8 = 17;

/// A function or call is too heavy.
pub const HEAVY: u8 = 18;

/// The least value of a cell's type does not satisfy the invariant.
pub const LEAST: u8 = 19;

/// An invariant holds a state's name, a call of a function or a conversion, or is too heavy.
pub const INVARIANT: u8 = 21;

/// `it` stands outside an invariant.
pub const IT: u8 = 22;
