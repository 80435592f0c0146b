//! Reading a trace.
ghost use Rattle.std.specs.Prelude.{◌≡◌, ◌+◌, ◌<◌, ◌≤◌, ◌^◌, ◌⊎◌};
ghost use Rattle.std.specs.Prelude.{IfOk, IfErr, IfSome, List, length, take};
ghost use Rattle.trace_format.specs.Blobs.{sliced};
ghost use Rattle.trace_format.specs.Grammar.{Breaks, Spells, fault};
ghost use Rattle.trace_format.specs.declared.fault.Kind.TheVariants.{Memory};
ghost use Rattle.trace_records.specs.Front.{no_records, places_of, places_limit};
ghost use Rattle.trace_records.specs.Read.{Gives, OnFault};
ghost use Rattle.trace_records.specs.Sources.{reading_from, with_rest};
ghost use Rattle.trace_records.specs.Records.{next};
ghost use Rattle.trace_records.specs.Start.{start};
ghost use Rattle.trace_records.specs.Whole.{Behind, Ends, HasMore, NextBreaks};
ghost use Rattle.trace_records.specs.Whole.{SpellsTrace, HasFault, IsRefusal};
ghost use Rattle.trace_records.specs.declared.record.Record as records;

use crate::descriptions::{descriptions_of, descriptors_of};
use crate::fault::{ReadError, as_fault, refused};
use crate::front::Front;
use crate::header::counts_of;
use crate::items::items_of;
use crate::record::Record;
use crate::records::next_of;
use crate::source::Source;
use crate::start::Start;
use crate::trace::Trace;
use std::alloc::Global;
use trace_format::{Kind, Series, TextSlice, TraceFault};

#[tactic(auto, unfolding(crate::specs::Start::start))]
pub(crate) fn start_of(alloc: Global, source: Source<'_>) -> Result<(Start, Source<'_>), ReadError>
    ensures { Gives with_rest result (reading_from source.entry start) }
{
    let (counts, source) = counts_of(source)?;
    let (items, source) = items_of(alloc, counts.items, source)?;
    let (descriptions, source) = descriptions_of(alloc, counts.descriptions, &items, source)?;
    let (descriptors, source) = descriptors_of(
        alloc,
        counts.descriptors,
        counts.table_size,
        counts.descriptions,
        source,
    )?;
    Ok((
        Start {
            items: Series::from_vec(items),
            descriptions: Series::from_vec(descriptions),
            table_size: counts.table_size,
            descriptors: Series::from_vec(descriptors),
        },
        source,
    ))
}

/// The start of a trace, which the bytes begin with, and how many of them it has.
///
/// # Errors
///
/// The first fault in reading order, and [`Kind::Memory`] at 0 where an allocation was refused.
pub fn read_start(alloc: Global, bytes: &[u8]) -> Result<(Start, usize), TraceFault>
    // What is read is spelled so by the bytes that were taken.
    ensures taken { IfOk result (λ x. (x.1 ≤ length bytes.now)
        × Spells start 0 (take x.1 bytes.now) x.0) }
    // A fault is one of the bytes, unless memory ran out.
    ensures fault { IfErr result (λ f. (f ≡ fault Memory 0) ⊎ Breaks start 0 bytes.now f) }
{
    let source = Source {
        shared: None,
        rest: bytes,
        place: 0,
    };
    match start_of(alloc, source) {
        Ok((start, after)) => Ok((start, after.place as usize)),
        Err(error) => Err(as_fault(error)),
    }
}

/// The record that what is left of a text begins with, none where the trace ends, and how many
/// bytes it has.
fn record_from(
    alloc: Global,
    start: &Start,
    front: &Front,
    source: Source<'_>,
) -> Result<(Option<Record>, usize), TraceFault>
    ensures taken { IfOk result (λ x. (0 < x.1) × (x.1 ≤ length source.entry.rest.now)
        × Spells (next start.now front.now) source.entry.place
        (take x.1 source.entry.rest.now) x.0) }
    ensures within { IfOk result
        (λ x. IfSome x.0 (λ r. front.now.places + places_of r ≤ places_limit)) }
    ensures fault { IfErr result (λ f. (f ≡ fault Memory 0)
        ⊎ Breaks (next start.now front.now) source.entry.place source.entry.rest.now f) }
{
    match next_of(alloc, start, front, source) {
        Ok((record, after)) => Ok((record, source.rest.len() - after.rest.len())),
        Err(error) => Err(as_fault(error)),
    }
}

/// The record that bytes of a buffer begin with, none where the trace ends, and how many bytes it
/// has. The bytes stand at a place of a trace, behind its start and the records that `front` stands
/// for. What is read shares the buffer: no byte is copied.
///
/// # Errors
///
/// The first fault in reading order, and [`Kind::Memory`] at 0 where an allocation was refused.
/// [`Kind::Short`] says that more bytes are wanted; no byte more changes any other fault.
pub fn read_record(
    alloc: Global,
    start: &Start,
    front: &Front,
    bytes: TextSlice<'_>,
    place: u64,
) -> Result<(Option<Record>, usize), TraceFault>
    requires { place + length (sliced bytes) < 2 ^ 63 }
    // What is read is spelled so by the bytes that were taken, at least one.
    ensures taken { IfOk result (λ x. (0 < x.1) × (x.1 ≤ length (sliced bytes.entry))
        × Spells (next start.now front.now) place (take x.1 (sliced bytes.entry)) x.0) }
    // It may be added to the front.
    ensures within { IfOk result
        (λ x. IfSome x.0 (λ r. front.now.places + places_of r ≤ places_limit)) }
    // A fault is one of the bytes, unless memory ran out.
    ensures fault { IfErr result (λ f. (f ≡ fault Memory 0)
        ⊎ Breaks (next start.now front.now) place (sliced bytes.entry) f) }
{
    let source = Source {
        shared: Some(bytes),
        rest: bytes.as_slice(),
        place,
    };
    record_from(alloc, start, front, source)
}

/// The records of a trace, to its end.
fn records_of(alloc: Global, start: &Start, source: Source<'_>) -> Result<Vec<Record>, ReadError>
    ensures records { IfOk result (λ v. Behind (Ends start.now)
        start.now no_records source.entry.place source.entry.rest.now v.items) }
    ensures fault { IfErr result (λ e. OnFault e (λ f. (rs : List records.Record)
        × (Behind (NextBreaks f start.now)
        start.now no_records source.entry.place source.entry.rest.now rs
        ⊎ Behind (HasMore f start.now)
        start.now no_records source.entry.place source.entry.rest.now rs))) }
{
    let mut records = Vec::new(alloc);
    let mut front = Front::new(alloc);
    let mut source = source;
    loop {
        let (next, after) = next_of(alloc, start, &front, source)?;
        let Some(made) = next else {
            if after.rest.is_empty() {
                return Ok(records);
            }
            return Err(refused(Kind::Trailing, after.place));
        };
        front.add(alloc, &made)?;
        records.push(made)?;
        source = after;
    }
}

fn trace_of(alloc: Global, bytes: &[u8]) -> Result<Trace, ReadError>
    ensures trace { IfOk result (λ t. SpellsTrace bytes.now t) }
    ensures fault { IfErr result (λ e. OnFault e (HasFault bytes.now)) }
{
    let source = Source {
        shared: None,
        rest: bytes,
        place: 0,
    };
    let (start, source) = start_of(alloc, source)?;
    let records = records_of(alloc, &start, source)?;
    Ok(Trace {
        start,
        records: Series::from_vec(records),
    })
}

/// The trace that the bytes spell.
///
/// # Errors
///
/// The first fault in reading order, and [`Kind::Memory`] at 0 where an allocation was refused.
pub fn read_trace(alloc: Global, bytes: &[u8]) -> Result<Trace, TraceFault>
    // What is read is spelled so.
    ensures trace { IfOk result (λ t. SpellsTrace bytes.now t) }
    // A fault is one of the bytes, which then spell no trace, unless memory ran out.
    ensures fault { IfErr result (λ f. (f ≡ fault Memory 0) ⊎ IsRefusal bytes.now f) }
{
    match trace_of(alloc, bytes) {
        Ok(trace) => Ok(trace),
        Err(error) => Err(as_fault(error)),
    }
}
