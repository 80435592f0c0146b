//! New rings.
ghost use Rattle.std.specs.Prelude.{◌≡◌, ◌<◌, ◌==◌, false, [], List, IfOk, Some, None};
ghost use Rattle.std.specs.List.{list_any};
ghost use Rattle.trace_format.specs.declared.trace.Buffer.{Buffer};
ghost use Rattle.trace_format.specs.Grammar.{several};
ghost use Rattle.trace_format.specs.Spans.{KnowsSpans};
ghost use Rattle.trace_format.specs.Text.{overlap, buffer};
ghost use Rattle.trace_records.specs.Fields.{end_of};
ghost use Rattle.trace_records.specs.Read.{Gives};
ghost use Rattle.trace_records.specs.Sources.{reading_from, with_rest};
ghost use Rattle.trace_records.specs.Records.{ring_there, slot_holder, other_holder};
ghost use Rattle.trace_records.specs.Records.{others, other, holder};
ghost use Rattle.trace_records.specs.Records.{slot_end, full_slot, queue, ring};
ghost use Rattle.trace_records.specs.declared.record.FullSlot.{FullSlot};

use crate::fault::{ReadError, refused};
use crate::front::Front;
use crate::record::{FullSlot, Holder, Ring};
use crate::source::{Source, number_of, u8_to, u16_to, u32_in, u32_of, u32_to, u64_of};
use crate::spans::{Spans, add_span, overlaps_any};
use crate::start::Start;
use std::alloc::Global;
use trace_format::{Buffer, Kind, Series};

/// The number for a queue of a ring's own.
const OWN_QUEUE: u32 = 4_294_967_295;

/// The number of a ring that is there.
pub(crate) fn ring_there_of<'a>(
    front: &Front,
    source: Source<'a>,
) -> Result<(u32, Source<'a>), ReadError>
    ensures { Gives with_rest result (reading_from source.entry (ring_there front.now)) }
{
    let place = source.place;
    let (ring, source) = u32_of(source)?;
    match front.ring(ring) {
        Some(_) => Ok((ring, source)),
        None => Err(refused(Kind::Reference, place)),
    }
}

#[tactic(auto, unfolding(crate::specs::Records::slot_holder))]
fn slot_holder_of<'a>(front: &Front, source: Source<'a>) -> Result<(Holder, Source<'a>), ReadError>
    ensures { Gives with_rest result (reading_from source.entry (slot_holder front.now)) }
{
    let (ring, source) = ring_there_of(front, source)?;
    let slots = front.slots(ring);
    let (number, source) = number_of(source, slots as usize)?;
    Ok((Holder::Slot { ring, number }, source))
}

#[tactic(auto, unfolding(crate::specs::Records::other_holder))]
pub(crate) fn other_holder_of(
    source: Source<'_>,
    count: usize,
) -> Result<(u32, Source<'_>), ReadError>
    ensures { Gives with_rest result (reading_from source.entry (other_holder count)) }
{
    let (_, source) = u32_to(source, 0)?;
    number_of(source, count)
}

/// How many descriptors there are, or descriptions.
fn others(start: &Start, what: u8) -> usize
    ensures { result ≡ others start.now what }
{
    if what == 1 {
        start.table_size as usize
    } else {
        start.descriptions.as_slice().len()
    }
}

/// A descriptor, or a description.
fn other(what: u8, number: u32) -> Holder
    ensures { result ≡ other what number }
{
    if what == 1 {
        Holder::Descriptor { number }
    } else {
        Holder::Description { number }
    }
}

#[tactic(auto, unfolding(crate::specs::Records::holder))]
fn holder_of<'a>(
    start: &Start,
    front: &Front,
    source: Source<'a>,
) -> Result<(Holder, Source<'a>), ReadError>
    ensures { Gives with_rest result (reading_from source.entry (holder start.now front.now)) }
{
    let (what, source) = u8_to(source, 2)?;
    if what == 0 {
        return slot_holder_of(front, source);
    }
    let count = others(start, what);
    let (number, source) = other_holder_of(source, count)?;
    Ok((other(what, number), source))
}

/// A full slot of so many, from the number `low` on.
#[tactic(auto, unfolding(crate::specs::Records::full_slot))]
fn full_slot_of<'a>(
    start: &Start,
    front: &Front,
    slots: u32,
    low: u32,
    source: Source<'a>,
) -> Result<(FullSlot, Source<'a>), ReadError>
    ensures read { (earlier : List FullSlot) → end_of slot_end 0 earlier ≡ low
        → Gives with_rest result
        (reading_from source.entry (full_slot start.now front.now slots earlier)) }
    ensures below { IfOk result (λ x. x.0.number < slots) }
{
    let (number, source) = u32_in(source, low, slots)?;
    let (holds, source) = holder_of(start, front, source)?;
    Ok((FullSlot { number, holds }, source))
}

fn full_slots_of<'a>(
    alloc: Global,
    count: u32,
    start: &Start,
    front: &Front,
    slots: u32,
    source: Source<'a>,
) -> Result<(Vec<FullSlot>, Source<'a>), ReadError>
    ensures { Gives (λ x. with_rest (x.0.items, x.1)) result
        (reading_from source.entry (several count (full_slot start.now front.now slots) [])) }
{
    let mut full = Vec::new(alloc);
    let mut low = 0;
    let mut source = source;
    for _ in 0..count {
        let (slot, after) = full_slot_of(start, front, slots, low, source)?;
        full.push(slot)?;
        low = slot.number + 1;
        source = after;
    }
    Ok((full, source))
}

#[tactic(auto, unfolding(crate::specs::Records::queue))]
fn queue_of<'a>(front: &Front, source: Source<'a>) -> Result<(Option<u32>, Source<'a>), ReadError>
    ensures { Gives with_rest result (reading_from source.entry (queue front.now)) }
{
    let place = source.place;
    let (number, source) = u32_of(source)?;
    if number == OWN_QUEUE {
        return Ok((None, source));
    }
    if number as usize >= front.rings() {
        return Err(refused(Kind::Reference, place));
    }
    Ok((Some(number), source))
}

#[tactic(auto, unfolding(trace_format::specs::Text::buffer))]
fn buffer_of<'a>(spans: &Spans, source: Source<'a>) -> Result<(Buffer, Source<'a>), ReadError>
    ensures read { (earlier : List Buffer) → KnowsSpans spans.now earlier
        → Gives with_rest result (reading_from source.entry (buffer earlier)) }
    ensures apart { (earlier : List Buffer) → KnowsSpans spans.now earlier
        → IfOk result (λ x. list_any (λ b. overlap b x.0) earlier ≡ false) }
{
    let start = source.place;
    let (address, source) = u64_of(source)?;
    let place = source.place;
    let (len, source) = u32_to(source, 1 << 30)?;
    if u64::from(len) > u64::MAX - address {
        return Err(refused(Kind::Limit, place));
    }
    let buffer = Buffer { address, len };
    if overlaps_any(spans, &buffer) {
        return Err(refused(Kind::Overlap, start));
    }
    Ok((buffer, source))
}

fn buffers_of(
    alloc: Global,
    count: u16,
    source: Source<'_>,
) -> Result<(Vec<Buffer>, Source<'_>), ReadError>
    ensures { Gives (λ x. with_rest (x.0.items, x.1)) result
        (reading_from source.entry (several count buffer [])) }
{
    let mut buffers = Vec::new(alloc);
    let mut spans = Spans::new(alloc);
    let mut source = source;
    for _ in 0..count {
        let (buffer, after) = buffer_of(&spans, source)?;
        add_span(&mut spans, &buffer)?;
        buffers.push(buffer)?;
        source = after;
    }
    Ok((buffers, source))
}

#[tactic(auto, unfolding(crate::specs::Records::ring))]
pub(crate) fn ring_of<'a>(
    alloc: Global,
    start: &Start,
    front: &Front,
    source: Source<'a>,
) -> Result<(Ring, Source<'a>), ReadError>
    ensures { Gives with_rest result (reading_from source.entry (ring start.now front.now)) }
{
    let (queue, source) = queue_of(front, source)?;
    let (slots, source) = u32_to(source, 1_048_576)?;
    let (count, source) = u32_to(source, slots)?;
    let (full, source) = full_slots_of(alloc, count, start, front, slots, source)?;
    let (count, source) = u16_to(source, 16_384)?;
    let (buffers, source) = buffers_of(alloc, count, source)?;
    Ok((
        Ring {
            queue,
            slots,
            full: Series::from_vec(full),
            buffers: Series::from_vec(buffers),
        },
        source,
    ))
}
