//! What is left of a text, and the place where that starts.
ghost use Rattle.std.specs.Prelude.{◌≡◌, ◌+◌, ◌<◌, ◌≤◌, ◌^◌, IfOk, length};
ghost use Rattle.std.specs.Int.{w8, w16, w32, w64};
ghost use Rattle.std.specs.Option.{ForSome};
ghost use Rattle.trace_format.specs.Blobs.{sliced};
ghost use Rattle.trace_format.specs.Grammar.{Bytes, number, number_to};
ghost use Rattle.trace_records.specs.Fields.{number_in, number_of};
ghost use Rattle.trace_records.specs.Read.{Gives};
ghost use Rattle.trace_records.specs.Shared.{IsEndOf};
ghost use Rattle.trace_format.specs.Read.{reading};

use crate::fault::{ReadError, refused};
use std::alloc::{AllocError, Global};
use trace_format::{Blob, Kind, TextSlice};

/// The bytes that haven't been read, and the place of the first of them in the text.
#[derive(Clone, Copy)]
pub(crate) struct Source<'a> {
    /// The part of a buffer that they are the end of, where what is read may share it. Else it is
    /// copied.
    pub shared: Option<TextSlice<'a>>,
    pub rest: &'a [u8],
    pub place: u64,
    ghost fits: { place + length rest.now < 2 ^ 63 },
    ghost end: { ForSome shared (λ part. IsEndOf (sliced part) rest.now) },
}

pub(crate) fn bytes_of(source: Source<'_>, count: usize) -> Result<(&[u8], Source<'_>), ReadError>
    ensures read { Gives (λ x. (x.0.now, x.1.place, x.1.rest.now)) result
        (reading (Bytes count) source.entry.place source.entry.rest.now) }
    ensures len { IfOk result (λ x. length x.0.now ≡ count) }
{
    if source.rest.len() < count {
        return Err(refused(Kind::Short, source.place + source.rest.len() as u64));
    }
    let (front, rest) = source.rest.split_at(count);
    Ok((
        front,
        Source {
            shared: source.shared,
            rest,
            place: source.place + count as u64,
        },
    ))
}

/// A copy of bytes. Of none it takes no memory.
pub(crate) fn copied(alloc: Global, bytes: &[u8]) -> Result<Blob, AllocError>
    ensures { IfOk result (λ b. b ≡ bytes.now) }
{
    if bytes.is_empty() {
        return Ok(Blob::empty());
    }
    let mut copy = Vec::with_capacity(alloc, bytes.len())?;
    copy.extend_from_slice(bytes)?;
    Blob::from_vec(alloc, copy)
}

/// So many bytes, which share the memory that they lie in, where they may, or are copied.
pub(crate) fn blob_of(
    alloc: Global,
    source: Source<'_>,
    count: usize,
) -> Result<(Blob, Source<'_>), ReadError>
    ensures { Gives (λ x. (x.0, x.1.place, x.1.rest.now)) result
        (reading (Bytes count) source.entry.place source.entry.rest.now) }
{
    let (bytes, after) = bytes_of(source, count)?;
    let made = match source.shared {
        None => copied(alloc, bytes)?,
        Some(part) => part
            .behind(part.len() - source.rest.len())
            .first(count)
            .shared()?,
    };
    Ok((made, after))
}

pub(crate) fn u8_of(source: Source<'_>) -> Result<(u8, Source<'_>), ReadError>
    ensures { Gives (λ x. (x.0, x.1.place, x.1.rest.now)) result
        (reading (number w8) source.entry.place source.entry.rest.now) }
{
    let (front, source) = bytes_of(source, 1)?;
    Ok((front[0], source))
}

pub(crate) fn u8_to(source: Source<'_>, limit: u8) -> Result<(u8, Source<'_>), ReadError>
    ensures { Gives (λ x. (x.0, x.1.place, x.1.rest.now)) result
        (reading (number_to w8 limit) source.entry.place source.entry.rest.now) }
{
    match u8_of(source) {
        Ok((n, _)) if n > limit => Err(refused(Kind::Limit, source.place)),
        read => read,
    }
}

pub(crate) fn u16_of(source: Source<'_>) -> Result<(u16, Source<'_>), ReadError>
    ensures { Gives (λ x. (x.0, x.1.place, x.1.rest.now)) result
        (reading (number w16) source.entry.place source.entry.rest.now) }
{
    let (front, source) = bytes_of(source, 2)?;
    Ok((u16::from_le_bytes([front[0], front[1]]), source))
}

pub(crate) fn u16_to(source: Source<'_>, limit: u16) -> Result<(u16, Source<'_>), ReadError>
    ensures { Gives (λ x. (x.0, x.1.place, x.1.rest.now)) result
        (reading (number_to w16 limit) source.entry.place source.entry.rest.now) }
{
    match u16_of(source) {
        Ok((n, _)) if n > limit => Err(refused(Kind::Limit, source.place)),
        read => read,
    }
}

pub(crate) fn u32_of(source: Source<'_>) -> Result<(u32, Source<'_>), ReadError>
    ensures { Gives (λ x. (x.0, x.1.place, x.1.rest.now)) result
        (reading (number w32) source.entry.place source.entry.rest.now) }
{
    let (front, source) = bytes_of(source, 4)?;
    Ok((
        u32::from_le_bytes([front[0], front[1], front[2], front[3]]),
        source,
    ))
}

pub(crate) fn u32_to(source: Source<'_>, limit: u32) -> Result<(u32, Source<'_>), ReadError>
    ensures { Gives (λ x. (x.0, x.1.place, x.1.rest.now)) result
        (reading (number_to w32 limit) source.entry.place source.entry.rest.now) }
{
    match u32_of(source) {
        Ok((n, _)) if n > limit => Err(refused(Kind::Limit, source.place)),
        read => read,
    }
}

pub(crate) fn u64_of(source: Source<'_>) -> Result<(u64, Source<'_>), ReadError>
    ensures { Gives (λ x. (x.0, x.1.place, x.1.rest.now)) result
        (reading (number w64) source.entry.place source.entry.rest.now) }
{
    let (front, source) = bytes_of(source, 8)?;
    Ok((
        u64::from_le_bytes([
            front[0], front[1], front[2], front[3], front[4], front[5], front[6], front[7],
        ]),
        source,
    ))
}

pub(crate) fn u64_to(source: Source<'_>, limit: u64) -> Result<(u64, Source<'_>), ReadError>
    ensures read { Gives (λ x. (x.0, x.1.place, x.1.rest.now)) result
        (reading (number_to w64 limit) source.entry.place source.entry.rest.now) }
    ensures within { IfOk result (λ x. x.0 ≤ limit) }
{
    match u64_of(source) {
        Ok((n, _)) if n > limit => Err(refused(Kind::Limit, source.place)),
        read => read,
    }
}

/// A number from `low` on and below `end`.
pub(crate) fn u32_in(source: Source<'_>, low: u32, end: u32) -> Result<(u32, Source<'_>), ReadError>
    ensures read { Gives (λ x. (x.0, x.1.place, x.1.rest.now)) result
        (reading (number_in w32 low end) source.entry.place source.entry.rest.now) }
    ensures below { IfOk result (λ x. x.0 < end) }
{
    match u32_of(source) {
        Ok((n, _)) if n < low || n >= end => Err(refused(Kind::Limit, source.place)),
        read => read,
    }
}

/// A number from `low` on and below `end`.
pub(crate) fn u64_in(source: Source<'_>, low: u64, end: u64) -> Result<(u64, Source<'_>), ReadError>
    ensures read { Gives (λ x. (x.0, x.1.place, x.1.rest.now)) result
        (reading (number_in w64 low end) source.entry.place source.entry.rest.now) }
    ensures below { IfOk result (λ x. x.0 < end) }
{
    match u64_of(source) {
        Ok((n, _)) if n < low || n >= end => Err(refused(Kind::Limit, source.place)),
        read => read,
    }
}

/// The number of one of `count`.
pub(crate) fn number_of(source: Source<'_>, count: usize) -> Result<(u32, Source<'_>), ReadError>
    ensures { Gives (λ x. (x.0, x.1.place, x.1.rest.now)) result
        (reading (number_of w32 count) source.entry.place source.entry.rest.now) }
{
    match u32_of(source) {
        Ok((n, _)) if n as usize >= count => Err(refused(Kind::Reference, source.place)),
        read => read,
    }
}
