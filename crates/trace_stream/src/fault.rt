//! Why a stream stops.
ghost use Rattle.std.specs.Prelude.{◌≡◌};
ghost use Rattle.trace_format.specs.Grammar.{fault};
ghost use Rattle.trace_format.specs.declared.fault.Kind.TheVariants.{Memory};
ghost use Rattle.trace_stream.specs.declared.fault.StreamFault.TheVariants.{Trace};

use std::alloc::{AllocError, AllocFailed};
use trace_format::{Kind, TraceFault};

/// Why a stream stopped.
#[derive(Clone, Copy, Debug, PartialEq, Eq)]
pub enum StreamFault {
    /// What was read is at fault, or memory ran out: `Kind::Memory` at 0.
    Trace(TraceFault),
    /// The reader failed.
    Read,
}

/// Memory ran out.
pub(crate) fn no_memory() -> StreamFault
    ensures { result ≡ StreamFault.Trace (fault Memory 0) }
{
    StreamFault::Trace(TraceFault {
        kind: Kind::Memory,
        at: 0,
    })
}

impl From<AllocError> for StreamFault {
    ghost from_gives = { λ _ e. e ≡ Trace (fault Memory 0) };

    fn from(_e: AllocError) -> StreamFault {
        no_memory()
    }
}

impl<T: Drop> From<AllocFailed<T>> for StreamFault {
    ghost from_gives = { λ _ e. e ≡ Trace (fault Memory 0) };

    fn from(_e: AllocFailed<T>) -> StreamFault {
        no_memory()
    }
}
