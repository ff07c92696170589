//! Why a tree is refused.

ghost use Rattle.std.specs.Prelude.{◌≡◌, IfOk, true};
ghost use Rattle.cm_typing.specs.Told as Told;
ghost use Rattle.cm_typing.specs.Told.{Answers};
ghost use Rattle.cm_typing.specs.declared.fault.TypeFault.TheVariants.{Rule};

use cm_model::{NoMemory, Place};
use std::alloc::{AllocError, AllocFailed};
use std::error::Error;
use std::fmt;

/// Why a tree has no tables.
#[derive(Clone, Copy, Debug, PartialEq, Eq)]
pub enum TypeFault {
    /// The first rule that fails, by its number, and the node where it does.
    Rule { code: u8, place: Place },
    /// Memory ran out.
    Memory,
}

impl fmt::Display for TypeFault {
    fn fmt<W: fmt::Write>(&self, f: &mut fmt::Formatter<W>) -> fmt::Result {
        match self {
            TypeFault::Rule { code, place } => {
                write!(f, "{}:{}: rule {}", place.line, place.col, code)
            }
            TypeFault::Memory => f.write_str("out of memory"),
        }
    }
}

impl Error for TypeFault {}

impl From<NoMemory> for TypeFault {
    ghost use Rattle.cm_typing.specs.declared.fault.TypeFault.TheVariants.{Memory};

    ghost from_gives = { λ _ f. f ≡ Memory };

    fn from(_: NoMemory) -> TypeFault {
        TypeFault::Memory
    }
}

impl From<AllocError> for TypeFault {
    ghost use Rattle.cm_typing.specs.declared.fault.TypeFault.TheVariants.{Memory};

    ghost from_gives = { λ _ f. f ≡ Memory };

    fn from(_: AllocError) -> TypeFault {
        TypeFault::Memory
    }
}

impl<T: Drop> From<AllocFailed<T>> for TypeFault {
    ghost use Rattle.cm_typing.specs.declared.fault.TypeFault.TheVariants.{Memory};

    ghost from_gives = { λ _ f. f ≡ Memory };

    fn from(_: AllocFailed<T>) -> TypeFault {
        TypeFault::Memory
    }
}

/// A rule that fails.
pub(crate) fn refused(code: u8, place: Place) -> TypeFault
    ensures { result ≡ Rule code place }
{
    TypeFault::Rule { code, place }
}

/// A rule with this number, asked at a place.
pub fn rule(holds: bool, code: u8, place: Place) -> Result<(), TypeFault>
    ensures answers { Answers (Told.rule holds code place) (λ u. u) result }
    ensures so { IfOk result (λ u. holds ≡ true) }
{
    if holds {
        Ok(())
    } else {
        Err(refused(code, place))
    }
}
