//! Why a report is not written whole.
ghost use Rattle.std.specs.Prelude.{◌≡◌};
ghost use Rattle.trace_stream.specs.Held.{failed_of};
ghost use Rattle.report_stream.specs.Steps.{IsToldAs, reads_of, writes_of};
ghost use Rattle.report_stream.specs.declared.fault.ReportFault.TheVariants.{Memory};

use std::alloc::AllocError;
use trace_format::{Kind, TraceFault};
use trace_stream::StreamFault;

/// Why a report is not written whole.
#[derive(Clone, Copy, Debug, PartialEq, Eq)]
pub enum ReportFault {
    /// The trace is at fault.
    Trace(TraceFault),
    /// Memory ran out.
    Memory,
    /// A call of the reader failed.
    Read,
    /// A call of the writer failed, or took no bytes.
    Write,
}

impl From<AllocError> for ReportFault {
    ghost from_gives = { λ _ e. e ≡ Memory };

    fn from(_e: AllocError) -> ReportFault {
        ReportFault::Memory
    }
}

/// A fault of a stream.
pub(crate) fn told_of(fault: StreamFault) -> ReportFault
    ensures told { IsToldAs fault result }
    ensures reads { reads_of result ≡ failed_of fault }
    ensures writes { writes_of result ≡ 0 }
{
    match fault {
        StreamFault::Trace(fault) if fault.kind == Kind::Memory => ReportFault::Memory,
        StreamFault::Trace(fault) => ReportFault::Trace(fault),
        StreamFault::Read => ReportFault::Read,
    }
}
