//! The records.
ghost use Rattle.std.specs.Prelude.{◌≡◌, ◌≤◌, ◌+◌, [], ◌∷◌, IfOk, length};
ghost use Rattle.trace_format.specs.Entries.{IsInside, entry_at};
ghost use Rattle.trace_format.specs.Grammar.{several};
ghost use Rattle.trace_format.specs.Read.{Gives};
ghost use Rattle.trace_format.specs.Sources.{filled, reading_from, with_rest};
ghost use Rattle.trace_format.specs.Counts.{places_in, places_limit};
ghost use Rattle.trace_format.specs.Text.{entry, enter, fill, one_record, buffer_len};

use crate::entries::{Entries, Spot};
use crate::fault::{Kind, ReadError, refused};
use crate::sides::fits_early;
use crate::source::{Source, blob_of, bytes_of, u8_of, u16_of, u16_to, u32_of};
use crate::steps::{Records, step_count};
use crate::trace::{Record, Ring};
use sqe_codec::unpack;
use std::alloc::Global;

/// How many steps a trace has at most.
const PLACES: u32 = 1_048_576;

/// How many bytes an entry takes at least: its 64, and the length of its side bytes.
const SMALLEST_ENTRY: usize = 68;

/// Where the text has an entry.
#[tactic(auto, unfolding(crate::specs::Text::entry))]
fn spot_of(source: Source<'_>) -> Result<(Spot, Source<'_>), ReadError>
    ensures read { Gives (λ x. with_rest (entry_at source.entry.text.now.value.items x.0, x.1))
        result (reading_from source.entry entry) }
    ensures inside { IfOk result (λ x. IsInside source.entry.text.now.value.items x.0) }
    ensures text { IfOk result (λ x. x.1.text.now ≡ source.entry.text.now) }
{
    let start = source;
    let (bytes, source) = bytes_of(source, 64)?;
    let mut array = [0; 64];
    array.copy_from_slice(bytes);
    let sqe = unpack(&array);
    let place = source.place;
    let (len, source) = u32_of(source)?;
    let (side, source) = bytes_of(source, len as usize)?;
    if !fits_early(&sqe, side) {
        return Err(refused(Kind::Side, place));
    }
    let at = start.place as u32;
    Ok((Spot { at, len }, source))
}

fn entries_of(
    alloc: Global,
    count: u16,
    source: Source<'_>,
) -> Result<(Entries, Source<'_>), ReadError>
    ensures read { Gives with_rest result
        (reading_from source.entry (several count (λ _. entry) [])) }
    ensures len { IfOk result (λ x. length x.0 ≡ count) }
{
    let most = usize::from(count).min(source.rest.len() / SMALLEST_ENTRY);
    let mut spots = Vec::with_capacity(alloc, most)?;
    let mut source = source;
    for _ in 0..count {
        let (spot, after) = spot_of(source)?;
        spots.push(spot)?;
        source = after;
    }
    Ok((Entries::part(source.text, spots)?, source))
}

#[tactic(auto, unfolding(crate::specs::Text::enter))]
fn enter_of(
    alloc: Global,
    rings: usize,
    used: u32,
    source: Source<'_>,
) -> Result<(Record, Source<'_>), ReadError>
    requires { used ≤ places_limit }
    ensures read { Gives with_rest result (reading_from source.entry (enter rings used)) }
    ensures within { IfOk result (λ x. used + places_in (x.0 ∷ []) ≤ places_limit) }
{
    let place = source.place;
    let (ring, source) = u8_of(source)?;
    if usize::from(ring) >= rings {
        return Err(refused(Kind::Reference, place));
    }
    let place = source.place;
    let (count, source) = u16_to(source, 32_768)?;
    if used + u32::from(count) > PLACES {
        return Err(refused(Kind::Limit, place));
    }
    let (entries, source) = entries_of(alloc, count, source)?;
    Ok((Record::Enter { ring, entries }, source))
}

/// The length of a buffer of a ring.
fn buffer_len(rings: &[Ring], ring: u8, number: u16) -> Option<u32>
    ensures { result ≡ buffer_len rings.now ring number }
{
    match rings.get(ring as usize) {
        None => None,
        Some(ring) => match ring.buffers.as_slice().get(number as usize) {
            None => None,
            Some(buffer) => Some(buffer.len),
        },
    }
}

/// What a fill has behind its ring and its buffer, which is so long.
fn filled_of(
    ring: u8,
    buffer: u16,
    end: u32,
    source: Source<'_>,
) -> Result<(Record, Source<'_>), ReadError>
    ensures read { Gives with_rest result (reading_from source.entry (filled ring buffer end)) }
    ensures one { IfOk result (λ x. places_in (x.0 ∷ []) ≡ 1) }
{
    let place = source.place;
    let (offset, source) = u32_of(source)?;
    let (len, source) = u32_of(source)?;
    if u64::from(offset) + u64::from(len) > u64::from(end) {
        return Err(refused(Kind::Reference, place));
    }
    let (bytes, source) = blob_of(source, len as usize)?;
    Ok((
        Record::Fill {
            ring,
            buffer,
            offset,
            bytes,
        },
        source,
    ))
}

#[tactic(auto, unfolding(crate::specs::Text::fill))]
fn fill_of<'a>(rings: &[Ring], source: Source<'a>) -> Result<(Record, Source<'a>), ReadError>
    ensures read { Gives with_rest result (reading_from source.entry (fill rings.now)) }
    ensures one { IfOk result (λ x. places_in (x.0 ∷ []) ≡ 1) }
{
    let place = source.place;
    let (ring, source) = u8_of(source)?;
    if ring as usize >= rings.len() {
        return Err(refused(Kind::Reference, place));
    }
    let place = source.place;
    let (buffer, source) = u16_of(source)?;
    match buffer_len(rings, ring, buffer) {
        Some(end) => filled_of(ring, buffer, end, source),
        None => Err(refused(Kind::Reference, place)),
    }
}

#[tactic(auto, unfolding(crate::specs::Text::one_record))]
fn record_of<'a>(
    alloc: Global,
    rings: &[Ring],
    used: u32,
    source: Source<'a>,
) -> Result<(Record, Source<'a>), ReadError>
    requires { used ≤ places_limit }
    ensures read { Gives with_rest result (reading_from source.entry (one_record rings.now used)) }
    ensures within { IfOk result (λ x. used + places_in (x.0 ∷ []) ≤ places_limit) }
{
    let place = source.place;
    let (kind, source) = u8_of(source)?;
    if kind < 1 || kind > 2 {
        return Err(refused(Kind::Limit, place));
    }
    if kind != 1 && used >= PLACES {
        return Err(refused(Kind::Limit, place));
    }
    if kind == 1 {
        enter_of(alloc, rings.len(), used, source)
    } else {
        fill_of(rings, source)
    }
}

pub(crate) fn records_of<'a>(
    alloc: Global,
    count: u32,
    rings: &[Ring],
    source: Source<'a>,
) -> Result<(Records, Source<'a>), ReadError>
    requires { count ≤ places_limit }
    ensures { Gives with_rest result (reading_from source.entry
        (several count (λ earlier. one_record rings.now (places_in earlier)) [])) }
{
    let mut records = Vec::new(alloc);
    let mut used: u32 = 0;
    let mut source = source;
    for _ in 0..count {
        let (record, after) = record_of(alloc, rings, used, source)?;
        used += step_count(&record) as u32;
        records.push(record)?;
        source = after;
    }
    Ok((Records::from_vec(alloc, records)?, source))
}
