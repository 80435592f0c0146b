//! A trace of any version from text, from a reader to a writer.
ghost use Rattle.std.specs.Prelude.{◌≡◌, ◌≢◌, ◌+◌, ◌-◌, ◌^◌, ◌<◌, IfErr, OnOk};
ghost use Rattle.std.specs.Io.KnownBytes.{IsAtEnd, Keeps};
ghost use Rattle.replay_program.specs.Makes.{TellsOfMaking, TellsOfText, WritesMeant, WritesMeantPart};
ghost use Rattle.replay_program.specs.Makes.{WritesTrace, WritesTracePart};
ghost use Rattle.replay_program.specs.Makes.{making_status, reads_failed, writes_failed};
ghost use Rattle.replay_program.specs.Runs.{most_taken};
ghost use Rattle.byte_transfer.specs.Transfer.{ConsumesUpTo};

use byte_transfer::{Failed, MOST_BYTES, Sink, Source, TextFault, read_text, write_text};
use std::alloc::Global;
use std::error::Error;
use std::fmt;
use text_records::make_bytes;
use text_trace::MakeFault;

/// Why no trace is made of a text, or is not written whole. Its text is the line for standard error,
/// without the line feed.
#[derive(Clone, Copy, Debug, PartialEq, Eq)]
pub enum MakingFault {
    /// The text is refused.
    Text(text_trace::TextFault),
    /// It has more bytes than are read.
    TooLong,
    /// Memory ran out.
    Memory,
    /// A call of the reader failed.
    Read,
    /// A call of the writer failed, or took no bytes. What it took before is a front of the trace.
    Write,
}

impl MakingFault {
    /// The exit status of the program after this fault: 1 where the text is refused, else 3.
    pub fn status(self) -> u8
        ensures { result ≡ making_status self }
    {
        match self {
            MakingFault::Text(_) | MakingFault::TooLong => 1,
            MakingFault::Memory | MakingFault::Read | MakingFault::Write => 3,
        }
    }
}

impl Error for MakingFault {}

impl fmt::Display for MakingFault {
    fn fmt<W: fmt::Write>(&self, f: &mut fmt::Formatter<W>) -> fmt::Result {
        match *self {
            MakingFault::Text(fault) => write!(f, "text refused: {fault}"),
            MakingFault::TooLong => f.write_str("text refused: more than 1073741824 bytes"),
            MakingFault::Memory => f.write_str("fault: memory"),
            MakingFault::Read => f.write_str("fault: read"),
            MakingFault::Write => f.write_str("fault: write"),
        }
    }
}

/// Reads a text and writes the trace that it means. Nothing is written before the whole trace is
/// there, and the run ends at the first failure of either side.
///
/// # Errors
///
/// Text or TooLong where the text is refused, Memory, and Read and Write at a call that failed.
pub fn run_make<R: Source, W: Sink>(
    alloc: Global,
    reader: &mut R,
    writer: &mut W,
) -> Result<(), MakingFault>
    requires reader { R.failures reader.old < 2 ^ 64 - 1 }
    requires writer { W.failures writer.old < 2 ^ 64 - 1 }

    // The whole reader was read, and what went out is the trace that its text means.
    ensures ended { OnOk result (IsAtEnd (R.left reader.new)) }
    ensures done { OnOk result (WritesTrace (R.left reader.old)
        (R.left reader.new) (W.written writer.old) (W.written writer.new)) }
    ensures part { result ≡ Err MakingFault.Write → WritesTracePart (R.left reader.old)
        (R.left reader.new) (W.written writer.old) (W.written writer.new) }
    ensures nothing { IfErr result (λ fault. fault ≢ MakingFault.Write
        → Keeps (W.written writer.old) (W.written writer.new)) }

    ensures taken { ConsumesUpTo most_taken (R.left reader.old) (R.left reader.new) }
    ensures reading { IfErr result (TellsOfMaking (R.left reader.old) (R.left reader.new)) }
    ensures read { R.failures reader.new ≡ R.failures reader.old + reads_failed result }
    ensures write { W.failures writer.new ≡ W.failures writer.old + writes_failed result }
{
    match read_text(alloc, reader) {
        Ok(text) => {
            if text.len() == MOST_BYTES {
                return Err(MakingFault::TooLong);
            }
            write_made(alloc, text.as_slice(), writer)
        }
        Err(TextFault::Read) => Err(MakingFault::Read),
        Err(TextFault::Memory) => Err(MakingFault::Memory),
    }
}

/// Writes the trace that a text means.
fn write_made<W: Sink>(alloc: Global, text: &[u8], writer: &mut W) -> Result<(), MakingFault>
    requires { W.failures writer.old < 2 ^ 64 - 1 }
    ensures done { OnOk result (WritesMeant text.now (W.written writer.old) (W.written writer.new)) }
    ensures part { result ≡ Err MakingFault.Write
        → WritesMeantPart text.now (W.written writer.old) (W.written writer.new) }
    ensures nothing { IfErr result (λ fault. fault ≢ MakingFault.Write
        → Keeps (W.written writer.old) (W.written writer.new)) }
    ensures told { IfErr result (TellsOfText text.now) }
    ensures write { W.failures writer.new ≡ W.failures writer.old + writes_failed result }
{
    match make_bytes(alloc, text) {
        Ok(bytes) => match write_text(writer, bytes.as_slice()) {
            Ok(()) => Ok(()),
            Err(Failed) => Err(MakingFault::Write),
        },
        Err(MakeFault::Memory) => Err(MakingFault::Memory),
        Err(MakeFault::Text(fault)) => Err(MakingFault::Text(fault)),
    }
}
