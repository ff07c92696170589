//! Why an enumeration stops.

ghost use Rattle.std.specs.Prelude.{◌≡◌};
ghost use Rattle.cm_forks.specs.declared.fault.Fault.TheVariants.{Memory};

use cm_model::{NoMemory, Over};
use std::alloc::{AllocError, AllocFailed};

/// Why no more paths come.
#[derive(Clone, Copy, Debug, PartialEq, Eq)]
pub enum Fault {
    /// The paths pass this limit.
    Over(Over),
    /// Memory ran out.
    Memory,
}

impl From<NoMemory> for Fault {
    ghost from_gives = { λ _ f. f ≡ Memory };

    fn from(_: NoMemory) -> Fault {
        Fault::Memory
    }
}

impl From<AllocError> for Fault {
    ghost from_gives = { λ _ f. f ≡ Memory };

    fn from(_: AllocError) -> Fault {
        Fault::Memory
    }
}

impl<T: Drop> From<AllocFailed<T>> for Fault {
    ghost from_gives = { λ _ f. f ≡ Memory };

    fn from(_: AllocFailed<T>) -> Fault {
        Fault::Memory
    }
}
