//! Records.
ghost use Rattle.std.specs.Prelude.{◌≡◌, ◌+◌, ◌≤◌, ◌<◌, ◌^◌, true, IfOk, IfSome, length};
ghost use Rattle.trace_records.specs.Front.{places_of, places_limit};
ghost use Rattle.trace_records.specs.Read.{Gives};
ghost use Rattle.trace_records.specs.Sources.{reading_from, with_rest};
ghost use Rattle.trace_records.specs.Records.{is_kind, is_place, has_room};
ghost use Rattle.trace_records.specs.Records.{ring_starts, ring_ends, body, next};

use crate::entries::enter_of;
use crate::fault::{ReadError, refused};
use crate::fills::fill_of;
use crate::front::{Front, PLACES};
use crate::record::Record;
use crate::rings::{ring_of, ring_there_of};
use crate::sets::{seek_of, set_of};
use crate::source::{Source, u8_of};
use crate::start::Start;
use std::alloc::Global;
use trace_format::Kind;

/// How many rings a trace has at most.
const RINGS: usize = 1_048_576;

/// Whether there are records of this kind.
fn is_kind(kind: u8) -> bool
    ensures { result ≡ is_kind kind }
{
    kind >= 1 && kind <= 7
}

/// Whether a record of this kind is one place.
fn is_place(kind: u8) -> bool
    ensures { result ≡ is_place kind }
{
    kind >= 2 && kind <= 5
}

/// Whether one more record of this kind may follow.
fn has_room(front: &Front, kind: u8) -> bool
    ensures { result ≡ has_room front.now kind }
{
    (!is_place(kind) || front.places() < PLACES) && (kind != 5 || front.rings() < RINGS)
}

fn ring_starts_of<'a>(
    alloc: Global,
    start: &Start,
    front: &Front,
    source: Source<'a>,
) -> Result<(Record, Source<'a>), ReadError>
    ensures read { Gives with_rest result
        (reading_from source.entry (ring_starts start.now front.now)) }
    ensures one { IfOk result (λ x. places_of x.0 ≡ 1) }
{
    let (ring, source) = ring_of(alloc, start, front, source)?;
    Ok((Record::RingStarts { ring }, source))
}

fn ring_ends_of<'a>(front: &Front, source: Source<'a>) -> Result<(Record, Source<'a>), ReadError>
    ensures read { Gives with_rest result (reading_from source.entry (ring_ends front.now)) }
    ensures within { IfOk result (λ x. front.now.places + places_of x.0 ≤ places_limit) }
{
    let places = front.places();
    prove!(places <= PLACES);
    let (ring, source) = ring_there_of(front, source)?;
    Ok((Record::RingEnds { ring }, source))
}

/// What a record has behind its kind.
fn body_of<'a>(
    alloc: Global,
    start: &Start,
    front: &Front,
    begin: u64,
    kind: u8,
    source: Source<'a>,
) -> Result<(Record, Source<'a>), ReadError>
    requires begun { begin < 2 ^ 63 }
    requires room { has_room front.now kind ≡ true }
    ensures read { Gives with_rest result
        (reading_from source.entry (body start.now front.now begin kind)) }
    ensures within { IfOk result (λ x. front.now.places + places_of x.0 ≤ places_limit) }
{
    match kind {
        1 => enter_of(alloc, front, begin, source),
        2 => fill_of(alloc, front, source),
        3 => set_of(alloc, start, front, source),
        4 => seek_of(start, front, source),
        5 => ring_starts_of(alloc, start, front, source),
        _ => ring_ends_of(front, source),
    }
}

/// The next record, or none where the trace ends.
#[tactic(auto, unfolding(crate::specs::Records::next))]
pub(crate) fn next_of<'a>(
    alloc: Global,
    start: &Start,
    front: &Front,
    source: Source<'a>,
) -> Result<(Option<Record>, Source<'a>), ReadError>
    ensures read { Gives with_rest result
        (reading_from source.entry (next start.now front.now)) }
    ensures within { IfOk result
        (λ x. IfSome x.0 (λ r. front.now.places + places_of r ≤ places_limit)) }
    ensures shorter { IfOk result (λ x. length x.1.rest.now < length source.entry.rest.now) }
{
    let begin = source.place;
    let (kind, source) = u8_of(source)?;
    if !is_kind(kind) {
        return Err(refused(Kind::Limit, begin));
    }
    if !has_room(front, kind) {
        return Err(refused(Kind::Limit, begin));
    }
    if kind == 7 {
        return Ok((None, source));
    }
    let (record, source) = body_of(alloc, start, front, begin, kind, source)?;
    Ok((Some(record), source))
}
