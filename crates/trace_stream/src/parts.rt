//! Parts of a text, from the bytes that are held and those that the reader has left.
ghost use Rattle.std.specs.Prelude.{◌≡◌, ◌+◌, ◌-◌, ◌<◌, ◌≤◌, ◌^◌, true, length, IfOk, IfErr, IfSome, OnOk};
ghost use Rattle.byte_transfer.specs.Transfer.{Takes};
ghost use Rattle.trace_records.specs.Front.{places_of, places_limit};
ghost use Rattle.trace_records.specs.Records.{next};
ghost use Rattle.trace_records.specs.Start.{start};
ghost use Rattle.trace_stream.specs.Held.{Fails, Gains, Reads, Stops, Tries, failed};

use crate::fault::StreamFault;
use crate::held::Held;
use byte_transfer::Source;
use std::alloc::Global;
use trace_format::{Kind, TraceFault};
use trace_records::{Front, Record, Start, read_record, read_start};

/// Takes more bytes for a part that is too short, and tells every other fault, or this one where
/// the reader has no more.
fn more_for<R: Source>(
    alloc: Global,
    held: &mut Held,
    reader: &mut R,
    fault: TraceFault,
) -> Result<(), StreamFault>
    requires { R.failures reader.old < 2 ^ 64 - 1 }
    ensures ok { OnOk result
        (Gains true held.old held.new (R.left reader.old) (R.left reader.new)) }
    ensures err { IfErr result (Stops fault (R.left reader.old) (R.left reader.new)) }
    ensures taken { Takes (R.left reader.old) (R.left reader.new) }
    ensures failures { R.failures reader.new ≡ R.failures reader.old + failed result }
    ensures bound { OnOk result (held.new.place + length held.new.rest < 2 ^ 63) }
{
    if fault.kind != Kind::Short {
        return Err(StreamFault::Trace(fault));
    }
    if held.take_on(alloc, reader)? {
        Ok(())
    } else {
        Err(StreamFault::Trace(fault))
    }
}

/// One try to read the start.
fn try_start<R: Source>(
    alloc: Global,
    held: &mut Held,
    reader: &mut R,
) -> Result<Option<Start>, StreamFault>
    requires failures { R.failures reader.old < 2 ^ 64 - 1 }
    requires first { held.old.place ≡ 0 }
    ensures ok { IfOk result
        (Tries start held.old held.new (R.left reader.old) (R.left reader.new)) }
    ensures err { IfErr result (Fails start held.old (R.left reader.old) (R.left reader.new)) }
    ensures taken { Takes (R.left reader.old) (R.left reader.new) }
    ensures failures { R.failures reader.new ≡ R.failures reader.old + failed result }
    ensures bound { IfOk result (λ _. held.new.place + length held.new.rest < 2 ^ 63) }
{
    match read_start(alloc, held.rest()) {
        Ok((start, count)) => {
            held.skip(count);
            Ok(Some(start))
        }
        Err(fault) => {
            more_for(alloc, held, reader, fault)?;
            Ok(None)
        }
    }
}

/// The start of the text.
pub(crate) fn start_on<R: Source>(
    alloc: Global,
    held: &mut Held,
    reader: &mut R,
) -> Result<Start, StreamFault>
    requires failures { R.failures reader.old < 2 ^ 64 - 1 }
    requires first { held.old.place ≡ 0 }
    ensures ok { IfOk result
        (Reads start held.old held.new (R.left reader.old) (R.left reader.new)) }
    ensures err { IfErr result (Fails start held.old (R.left reader.old) (R.left reader.new)) }
    ensures taken { Takes (R.left reader.old) (R.left reader.new) }
    ensures failures { R.failures reader.new ≡ R.failures reader.old + failed result }
{
    loop {
        if let Some(start) = try_start(alloc, held, reader)? {
            return Ok(start);
        }
    }
}

/// One try to read the next record.
fn try_record<R: Source>(
    alloc: Global,
    start: &Start,
    front: &Front,
    held: &mut Held,
    reader: &mut R,
) -> Result<Option<Option<Record>>, StreamFault>
    requires { R.failures reader.old < 2 ^ 64 - 1 }
    ensures ok { IfOk result (Tries (next start.now front.now)
        held.old held.new (R.left reader.old) (R.left reader.new)) }
    ensures err { IfErr result
        (Fails (next start.now front.now) held.old (R.left reader.old) (R.left reader.new)) }
    ensures within { IfOk result (λ x. IfSome x
        (λ y. IfSome y (λ r. front.now.places + places_of r ≤ places_limit))) }
    ensures on { IfOk result (λ x. IfSome x (λ _. held.old.place < held.new.place)) }
    ensures taken { Takes (R.left reader.old) (R.left reader.new) }
    ensures failures { R.failures reader.new ≡ R.failures reader.old + failed result }
    ensures bound { IfOk result (λ _. held.new.place + length held.new.rest < 2 ^ 63) }
{
    match read_record(alloc, start, front, held.slice(), held.place()) {
        Ok((record, count)) => {
            held.skip(count);
            Ok(Some(record))
        }
        Err(fault) => {
            more_for(alloc, held, reader, fault)?;
            Ok(None)
        }
    }
}

/// The next record, none where the trace ends.
pub(crate) fn record_on<R: Source>(
    alloc: Global,
    start: &Start,
    front: &Front,
    held: &mut Held,
    reader: &mut R,
) -> Result<Option<Record>, StreamFault>
    requires { R.failures reader.old < 2 ^ 64 - 1 }
    ensures ok { IfOk result (Reads (next start.now front.now)
        held.old held.new (R.left reader.old) (R.left reader.new)) }
    ensures err { IfErr result
        (Fails (next start.now front.now) held.old (R.left reader.old) (R.left reader.new)) }
    ensures within { IfOk result
        (λ x. IfSome x (λ r. front.now.places + places_of r ≤ places_limit)) }
    ensures on { IfOk result (λ _. held.old.place < held.new.place) }
    ensures taken { Takes (R.left reader.old) (R.left reader.new) }
    ensures failures { R.failures reader.new ≡ R.failures reader.old + failed result }
    ensures bound { IfOk result (λ _. held.new.place < 2 ^ 63) }
{
    loop {
        if let Some(record) = try_record(alloc, start, front, held, reader)? {
            return Ok(record);
        }
    }
}
