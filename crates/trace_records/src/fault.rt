//! Why reading stops.
ghost use Rattle.std.specs.Prelude.{◌≡◌};
ghost use Rattle.trace_records.specs.Read.{fault_of};
ghost use Rattle.trace_records.specs.declared.fault.ReadError.TheVariants.{OutOfMemory};

use std::alloc::{AllocError, AllocFailed};
use trace_format::{Kind, TraceFault};

/// Why reading stopped.
#[derive(Clone, Copy)]
pub(crate) enum ReadError {
    OutOfMemory,
    Fault(TraceFault),
}

pub(crate) fn refused(kind: Kind, at: u64) -> ReadError
    ensures { result ≡ ReadError.Fault (record { kind = kind; at = at }) }
{
    ReadError::Fault(TraceFault { kind, at })
}

/// The fault that a caller is told.
pub(crate) fn as_fault(error: ReadError) -> TraceFault
    ensures { result ≡ fault_of error }
{
    match error {
        ReadError::OutOfMemory => TraceFault {
            kind: Kind::Memory,
            at: 0,
        },
        ReadError::Fault(fault) => fault,
    }
}

impl From<AllocError> for ReadError {
    ghost from_gives = { λ _ e. e ≡ OutOfMemory };

    fn from(_e: AllocError) -> ReadError {
        ReadError::OutOfMemory
    }
}

impl<T: Drop> From<AllocFailed<T>> for ReadError {
    ghost from_gives = { λ _ e. e ≡ OutOfMemory };

    fn from(_e: AllocFailed<T>) -> ReadError {
        ReadError::OutOfMemory
    }
}
