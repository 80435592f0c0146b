//! The trace that comes from a reader.
ghost use Rattle.std.specs.Prelude.{◌≡◌, ◌+◌, ◌-◌, ◌<◌, ◌^◌, true, IfOk, IfErr};
ghost use Rattle.byte_transfer.specs.Transfer.{Takes};
ghost use Rattle.trace_records.specs.Whole.{SpellsTrace};
ghost use Rattle.trace_stream.specs.Held.{failed};
ghost use Rattle.trace_stream.specs.Streams.{Adds, GivesFault, ReadsAll, Tells};

use crate::fault::StreamFault;
use crate::stream::Stream;
use byte_transfer::Source;
use std::alloc::Global;
use trace_format::Series;
use trace_records::{Record, Trace};

/// Goes on by one record, and puts it behind the others. It tells whether there was one.
fn add_next<R: Source>(
    alloc: Global,
    stream: &mut Stream,
    reader: &mut R,
    records: &mut Vec<Record>,
) -> Result<bool, StreamFault>
    requires { R.failures reader.old < 2 ^ 64 - 1 }
    ensures ok { IfOk result (Adds (R.left reader.old) (R.left reader.new) stream.old stream.new
        records.old.items records.new.items) }
    ensures err { IfErr result
        (GivesFault (R.left reader.old) (R.left reader.new) stream.old) }
    ensures on { IfOk result (λ going. going ≡ true
        → (stream.old.held.place < stream.new.held.place)
        × (stream.new.held.place < 2 ^ 63)) }
    ensures taken { Takes (R.left reader.old) (R.left reader.new) }
    ensures failures { R.failures reader.new ≡ R.failures reader.old + failed result }
{
    match stream.next(alloc, reader)? {
        Some(record) => {
            records.push(record)?;
            Ok(true)
        }
        None => Ok(false),
    }
}

/// The trace whose first bytes were read ahead, and whose others the reader has left. Its records
/// share the buffers that they were read into.
///
/// # Errors
///
/// Read where the reader failed, else the first fault of the trace, as soon as it is read.
pub fn read_stream<R: Source>(
    alloc: Global,
    ahead: Vec<u8>,
    reader: &mut R,
) -> Result<Trace, StreamFault>
    requires { R.failures reader.old < 2 ^ 64 - 1 }
    ensures ok { IfOk result (λ t. ReadsAll ahead.items (R.left reader.old) (R.left reader.new)
        (λ text. SpellsTrace text t)) }
    ensures err { IfErr result (Tells ahead.items (R.left reader.old) (R.left reader.new)) }
    ensures taken { Takes (R.left reader.old) (R.left reader.new) }
    ensures failures { R.failures reader.new ≡ R.failures reader.old + failed result }
{
    let (start, mut stream) = Stream::open(alloc, ahead, reader)?;
    let mut records = Vec::new(alloc);
    loop {
        if !add_next(alloc, &mut stream, reader, &mut records)? {
            return Ok(Trace {
                start,
                records: Series::from_vec(records),
            });
        }
    }
}
