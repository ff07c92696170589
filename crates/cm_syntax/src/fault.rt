//! Why a text has no tree.

ghost use Rattle.std.specs.Prelude.{◌≡◌};

use cm_model::{NoMemory, Place};
use std::alloc::{AllocError, AllocFailed};
use std::error::Error;
use std::fmt;

/// Why no tree was read.
#[derive(Clone, Copy, Debug, PartialEq, Eq)]
pub enum SyntaxFault {
    /// The first token such that no text of the grammar without the limit on open brackets begins
    /// with the tokens up to and including it.
    Syntax(Place),
    /// The first token that opens a 65th bracket, in what is so far the beginning of a text.
    Deep(Place),
    /// Memory ran out.
    Memory,
}

impl fmt::Display for SyntaxFault {
    fn fmt<W: fmt::Write>(&self, f: &mut fmt::Formatter<W>) -> fmt::Result {
        match self {
            SyntaxFault::Syntax(at) => write!(f, "{}:{}: not a model", at.line, at.col),
            SyntaxFault::Deep(at) => write!(f, "{}:{}: nesting above 64", at.line, at.col),
            SyntaxFault::Memory => f.write_str("out of memory"),
        }
    }
}

impl Error for SyntaxFault {}

impl From<NoMemory> for SyntaxFault {
    ghost use Rattle.cm_syntax.specs.declared.fault.SyntaxFault.TheVariants.{Memory};

    ghost from_gives = { λ _ e. e ≡ Memory };

    fn from(_: NoMemory) -> SyntaxFault {
        SyntaxFault::Memory
    }
}

impl From<AllocError> for SyntaxFault {
    ghost use Rattle.cm_syntax.specs.declared.fault.SyntaxFault.TheVariants.{Memory};

    ghost from_gives = { λ _ e. e ≡ Memory };

    fn from(_: AllocError) -> SyntaxFault {
        SyntaxFault::Memory
    }
}

impl<T: Drop> From<AllocFailed<T>> for SyntaxFault {
    ghost use Rattle.cm_syntax.specs.declared.fault.SyntaxFault.TheVariants.{Memory};

    ghost from_gives = { λ _ e. e ≡ Memory };

    fn from(_: AllocFailed<T>) -> SyntaxFault {
        SyntaxFault::Memory
    }
}
