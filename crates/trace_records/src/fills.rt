//! Fills of registered buffers.
ghost use Rattle.std.specs.Prelude.{◌≡◌, IfOk};
ghost use Rattle.trace_records.specs.Front.{places_of};
ghost use Rattle.trace_records.specs.Read.{Gives};
ghost use Rattle.trace_records.specs.Sources.{reading_from, with_rest};
ghost use Rattle.trace_records.specs.Records.{filled, fill};

use crate::fault::{ReadError, refused};
use crate::front::Front;
use crate::record::{Filling, Record};
use crate::rings::ring_there_of;
use crate::source::{Source, blob_of, u8_to, u16_of, u32_of};
use std::alloc::Global;
use trace_format::Kind;

/// What a fill has behind its ring and its buffer, which is so long.
#[tactic(auto, unfolding(crate::specs::Records::filled))]
fn filled_of(
    alloc: Global,
    ring: u32,
    buffer: u16,
    buffer_len: u32,
    source: Source<'_>,
) -> Result<(Record, Source<'_>), ReadError>
    ensures read { Gives with_rest result
        (reading_from source.entry (filled ring buffer buffer_len)) }
    ensures one { IfOk result (λ x. places_of x.0 ≡ 1) }
{
    let (form, source) = u8_to(source, 1)?;
    let place = source.place;
    let (offset, source) = u32_of(source)?;
    let (len, source) = u32_of(source)?;
    if u64::from(offset) + u64::from(len) > u64::from(buffer_len) {
        return Err(refused(Kind::Reference, place));
    }
    let stored = if form == 0 { len as usize } else { 0 };
    let (bytes, source) = blob_of(alloc, source, stored)?;
    let filling = if form == 0 {
        Filling::Stored { bytes }
    } else {
        Filling::Zeros { len }
    };
    Ok((
        Record::Fill {
            ring,
            buffer,
            offset,
            filling,
        },
        source,
    ))
}

/// Bytes for a part of a registered buffer.
#[tactic(auto, unfolding(crate::specs::Records::fill))]
pub(crate) fn fill_of<'a>(
    alloc: Global,
    front: &Front,
    source: Source<'a>,
) -> Result<(Record, Source<'a>), ReadError>
    ensures read { Gives with_rest result (reading_from source.entry (fill front.now)) }
    ensures one { IfOk result (λ x. places_of x.0 ≡ 1) }
{
    let (ring, source) = ring_there_of(front, source)?;
    let place = source.place;
    let (buffer, source) = u16_of(source)?;
    match front.buffer_len(ring, buffer) {
        Some(len) => filled_of(alloc, ring, buffer, len, source),
        None => Err(refused(Kind::Reference, place)),
    }
}
