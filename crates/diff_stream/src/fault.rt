//! Why a comparison is not written whole.
ghost use Rattle.std.specs.Prelude.{◌≡◌};
ghost use Rattle.diff_stream.specs.Faults.{of_diff, of_text, of_write};
ghost use Rattle.diff_stream.specs.declared.fault.CompareFault.TheVariants.{Memory};

use byte_transfer::TextFault;
use json_lines::WriteFault;
use report_diff::{DiffFault, Refusal};
use std::alloc::AllocError;

/// Why a comparison is not written whole.
#[derive(Clone, Copy, Debug, PartialEq, Eq)]
pub enum CompareFault {
    /// The texts are not two reports.
    Refused(Refusal),
    /// Memory ran out.
    Memory,
    /// A call of a reader failed.
    Read,
    /// A call of the writer failed, or took no bytes.
    Write,
}

impl From<AllocError> for CompareFault {
    ghost from_gives = { λ _ e. e ≡ Memory };

    fn from(_e: AllocError) -> CompareFault {
        CompareFault::Memory
    }
}

impl From<WriteFault> for CompareFault {
    ghost from_gives = { λ f e. e ≡ of_write f };

    fn from(fault: WriteFault) -> CompareFault {
        match fault {
            WriteFault::Memory => CompareFault::Memory,
            WriteFault::Write => CompareFault::Write,
        }
    }
}

impl From<TextFault> for CompareFault {
    ghost from_gives = { λ f e. e ≡ of_text f };

    fn from(fault: TextFault) -> CompareFault {
        match fault {
            TextFault::Read => CompareFault::Read,
            TextFault::Memory => CompareFault::Memory,
        }
    }
}

impl From<DiffFault> for CompareFault {
    ghost from_gives = { λ f e. e ≡ of_diff f };

    fn from(fault: DiffFault) -> CompareFault {
        match fault {
            DiffFault::Refused(why) => CompareFault::Refused(why),
            DiffFault::Memory => CompareFault::Memory,
        }
    }
}
