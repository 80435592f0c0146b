//! What slots and descriptors hold from a record on, and the positions of what they hold.
ghost use Rattle.std.specs.Prelude.{◌≡◌, IfOk};
ghost use Rattle.trace_records.specs.Front.{places_of};
ghost use Rattle.trace_records.specs.Read.{Gives};
ghost use Rattle.trace_records.specs.Sources.{reading_from, with_rest};
ghost use Rattle.trace_records.specs.Records.{slot_at, descriptor_at, file_at, position};
ghost use Rattle.trace_records.specs.Records.{is_call_path, opened, copied, content, set, seek};

use crate::fault::{ReadError, refused};
use crate::front::Front;
use crate::opens::{are_open_flags, check_path};
use crate::paths::has_zero;
use crate::record::{Content, FileAt, Record};
use crate::rings::{other_holder_of, ring_there_of};
use crate::source::{Source, blob_of, number_of, u8_to, u16_of, u32_of, u64_to};
use crate::start::Start;
use std::alloc::Global;
use trace_format::Kind;

#[tactic(auto, unfolding(crate::specs::Records::slot_at))]
fn slot_at_of<'a>(front: &Front, source: Source<'a>) -> Result<(FileAt, Source<'a>), ReadError>
    ensures { Gives with_rest result (reading_from source.entry (slot_at front.now)) }
{
    let (ring, source) = ring_there_of(front, source)?;
    let slots = front.slots(ring);
    let (number, source) = number_of(source, slots as usize)?;
    Ok((FileAt::Slot { ring, number }, source))
}

fn descriptor_at_of<'a>(
    start: &Start,
    source: Source<'a>,
) -> Result<(FileAt, Source<'a>), ReadError>
    ensures { Gives with_rest result (reading_from source.entry (descriptor_at start.now)) }
{
    let (number, source) = other_holder_of(source, start.table_size as usize)?;
    Ok((FileAt::Descriptor { number }, source))
}

#[tactic(auto, unfolding(crate::specs::Records::file_at))]
fn file_at_of<'a>(
    start: &Start,
    front: &Front,
    source: Source<'a>,
) -> Result<(FileAt, Source<'a>), ReadError>
    ensures { Gives with_rest result (reading_from source.entry (file_at start.now front.now)) }
{
    let (what, source) = u8_to(source, 1)?;
    if what == 0 {
        return slot_at_of(front, source);
    }
    descriptor_at_of(start, source)
}

/// A position of a description.
fn position_of(source: Source<'_>) -> Result<(u64, Source<'_>), ReadError>
    ensures { Gives with_rest result (reading_from source.entry position) }
{
    u64_to(source, (1 << 63) - 1)
}

/// Whether a path passes the tests of a path, and has no zero byte.
fn is_call_path(path: &[u8]) -> bool
    ensures { result ≡ is_call_path path.now }
{
    check_path(path).is_ok() && !has_zero(path)
}

/// A new description of a path.
#[tactic(auto, unfolding(crate::specs::Records::opened))]
fn opened_of(alloc: Global, source: Source<'_>) -> Result<(Content, Source<'_>), ReadError>
    ensures { Gives with_rest result (reading_from source.entry opened) }
{
    let place = source.place;
    let (flags, source) = u32_of(source)?;
    if !are_open_flags(flags, 0) {
        return Err(refused(Kind::Limit, place));
    }
    let (position, source) = position_of(source)?;
    let (len, source) = u16_of(source)?;
    let place = source.place;
    let (path, source) = blob_of(alloc, source, len as usize)?;
    if !is_call_path(path.as_slice()) {
        return Err(refused(Kind::Path, place));
    }
    Ok((
        Content::Path {
            flags,
            position,
            path,
        },
        source,
    ))
}

/// What another slot or descriptor holds.
fn copied_of<'a>(
    start: &Start,
    front: &Front,
    source: Source<'a>,
) -> Result<(Content, Source<'a>), ReadError>
    ensures { Gives with_rest result (reading_from source.entry (copied start.now front.now)) }
{
    let (of, source) = file_at_of(start, front, source)?;
    Ok((Content::Copy { of }, source))
}

#[tactic(auto, unfolding(crate::specs::Records::content))]
fn content_of<'a>(
    alloc: Global,
    start: &Start,
    front: &Front,
    source: Source<'a>,
) -> Result<(Content, Source<'a>), ReadError>
    ensures { Gives with_rest result (reading_from source.entry (content start.now front.now)) }
{
    let (what, source) = u8_to(source, 3)?;
    match what {
        0 => Ok((Content::Nothing, source)),
        1 => opened_of(alloc, source),
        2 => copied_of(start, front, source),
        _ => Ok((Content::Taken, source)),
    }
}

/// What a slot or a descriptor holds from here on.
#[tactic(auto, unfolding(crate::specs::Records::set))]
pub(crate) fn set_of<'a>(
    alloc: Global,
    start: &Start,
    front: &Front,
    source: Source<'a>,
) -> Result<(Record, Source<'a>), ReadError>
    ensures read { Gives with_rest result (reading_from source.entry (set start.now front.now)) }
    ensures one { IfOk result (λ x. places_of x.0 ≡ 1) }
{
    let (file, source) = file_at_of(start, front, source)?;
    let (content, source) = content_of(alloc, start, front, source)?;
    Ok((Record::Set { file, content }, source))
}

/// The position of what a slot or a descriptor holds.
#[tactic(auto, unfolding(crate::specs::Records::seek))]
pub(crate) fn seek_of<'a>(
    start: &Start,
    front: &Front,
    source: Source<'a>,
) -> Result<(Record, Source<'a>), ReadError>
    ensures read { Gives with_rest result (reading_from source.entry (seek start.now front.now)) }
    ensures one { IfOk result (λ x. places_of x.0 ≡ 1) }
{
    let (file, source) = file_at_of(start, front, source)?;
    let (position, source) = position_of(source)?;
    Ok((Record::Seek { file, position }, source))
}
