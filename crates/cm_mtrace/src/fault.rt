//! Why a stream is no trace.

ghost use Rattle.std.specs.Prelude.{◌≡◌};

use cm_model::NoMemory;
use std::alloc::{AllocError, AllocFailed};
use thiserror::Error;

/// Why a trace is refused.
#[derive(Clone, Copy, Debug, PartialEq, Eq, Error)]
pub enum TraceFault {
    /// The first bad line of the stream, counted from 1.
    #[error("line {line} is bad")]
    BadLine { line: u64 },
    /// Memory ran out.
    #[error("out of memory")]
    Memory,
}

impl From<NoMemory> for TraceFault {
    ghost use Rattle.cm_mtrace.specs.declared.fault.TraceFault.TheVariants.{Memory};

    ghost from_gives = { λ _ f. f ≡ Memory };

    fn from(_: NoMemory) -> TraceFault {
        TraceFault::Memory
    }
}

impl From<AllocError> for TraceFault {
    ghost use Rattle.cm_mtrace.specs.declared.fault.TraceFault.TheVariants.{Memory};

    ghost from_gives = { λ _ f. f ≡ Memory };

    fn from(_: AllocError) -> TraceFault {
        TraceFault::Memory
    }
}

impl<T: Drop> From<AllocFailed<T>> for TraceFault {
    ghost use Rattle.cm_mtrace.specs.declared.fault.TraceFault.TheVariants.{Memory};

    ghost from_gives = { λ _ f. f ≡ Memory };

    fn from(_: AllocFailed<T>) -> TraceFault {
        TraceFault::Memory
    }
}
