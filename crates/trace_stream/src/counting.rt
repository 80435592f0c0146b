//! How many places and rings a trace has that comes from a reader.
ghost use Rattle.std.specs.Prelude.{◌≡◌, ◌+◌, ◌-◌, ◌<◌, ◌^◌, true, IfOk, IfErr};
ghost use Rattle.byte_transfer.specs.Transfer.{Takes};
ghost use Rattle.trace_stream.specs.Held.{failed};
ghost use Rattle.trace_stream.specs.Streams.{GivesFault, HasTally, ReadsAll, Steps, Tells};

use crate::fault::StreamFault;
use crate::stream::Stream;
use byte_transfer::Source;
use std::alloc::Global;
use trace_records::Tally;

/// Goes on by one record, and lets it go. It tells whether there was one.
fn step<R: Source>(alloc: Global, stream: &mut Stream, reader: &mut R) -> Result<bool, StreamFault>
    requires { R.failures reader.old < 2 ^ 64 - 1 }
    ensures ok { IfOk result (λ going.
        Steps (R.left reader.old) (R.left reader.new) stream.old stream.new going) }
    ensures err { IfErr result
        (GivesFault (R.left reader.old) (R.left reader.new) stream.old) }
    ensures on { IfOk result (λ going. going ≡ true
        → (stream.old.held.place < stream.new.held.place)
        × (stream.new.held.place < 2 ^ 63)) }
    ensures taken { Takes (R.left reader.old) (R.left reader.new) }
    ensures failures { R.failures reader.new ≡ R.failures reader.old + failed result }
{
    let record = stream.next(alloc, reader)?;
    Ok(record.is_some())
}

/// How many places and rings the trace has whose first bytes were read ahead, and whose others the
/// reader has left. It takes the memory of one record, and of the start while that is read.
///
/// # Errors
///
/// Read where the reader failed, else the first fault of the trace, as soon as it is read.
pub fn count_stream<R: Source>(
    alloc: Global,
    ahead: Vec<u8>,
    reader: &mut R,
) -> Result<Tally, StreamFault>
    requires { R.failures reader.old < 2 ^ 64 - 1 }
    ensures ok { IfOk result (λ tally. ReadsAll ahead.items (R.left reader.old) (R.left reader.new)
        (HasTally tally)) }
    ensures err { IfErr result (Tells ahead.items (R.left reader.old) (R.left reader.new)) }
    ensures taken { Takes (R.left reader.old) (R.left reader.new) }
    ensures failures { R.failures reader.new ≡ R.failures reader.old + failed result }
{
    let (_, mut stream) = Stream::open(alloc, ahead, reader)?;
    loop {
        if !step(alloc, &mut stream, reader)? {
            return Ok(stream.tally());
        }
    }
}
