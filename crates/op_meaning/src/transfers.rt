//! Reads and writes: what they do, or why the world refuses them.
ghost use Rattle.std.specs.Prelude.{◌≡◌, ◌+◌, ◌^◌, ◌<◌, ◌≤◌, IfOk, Ok};
ghost use Rattle.std.specs.Prelude.{drop, length, min, take, unwrap_or, []};
ghost use Rattle.entry_checks.specs.Meant.{file_meant, span_meant};
ghost use Rattle.entry_checks.specs.Operation.{file_limit};
ghost use Rattle.op_meaning.specs.Site.{in_ring, site_meant};
ghost use Rattle.op_meaning.specs.Deciding.{buffer_written_if_any, Decides, DecidesReads};
ghost use Rattle.op_meaning.specs.Deciding.{DecidesFixedReads, DecidesWrites};
ghost use Rattle.op_meaning.specs.Decision.{effect_of, IsWithinLimits};
ghost use Rattle.op_meaning.specs.Handles.{handle_meant, opened_meant};
ghost use Rattle.op_meaning.specs.Lookups.{FindsFile, Tells};
ghost use Rattle.op_meaning.specs.Meaning.{handle, read_fixed_meaning, readv_meaning};
ghost use Rattle.op_meaning.specs.Meaning.{write_fixed_meaning, write_meaning, write_start};
ghost use Rattle.trace_format.specs.Blobs.{sliced};
ghost use Rattle.trace_format.specs.Sides.{most_moved};
ghost use Rattle.world_parts.specs.World as world;

use crate::decision::Decision;
use crate::handles::{
    OpenFile, is_bad_offset, readable, size, span_start, transfer_start, writable,
};
use crate::limits::{LARGEST, MOST_MOVED};
use crate::lookup::Lookup;
use crate::site::Site;
use entry_checks::{BufferSpan, FileNumber};
use recording::Recording;
use sqe_codec::Errno;
use trace_format::TextSlice;
use world_parts::State;

/// The open file that a read at an offset is from, or why it is refused.
#[inline(always)]
pub(crate) fn readable_at(
    opened: Option<OpenFile>,
    offset: u64,
    state: &State,
) -> Result<OpenFile, Errno>
    ensures { DecidesReads state.now offset (opened_meant state.now opened) result }
{
    let file = readable(opened, state)?;
    if is_bad_offset(offset) {
        return Err(Errno::EINVAL);
    }
    Ok(file)
}

/// The open file that a read at an offset is from, and where in the registered buffer its bytes go,
/// or why it is refused.
pub(crate) fn readable_into(
    trace: &Recording,
    ring: u32,
    opened: Option<OpenFile>,
    offset: u64,
    span: BufferSpan,
    state: &State,
) -> Result<(OpenFile, u64), Errno>
    ensures { DecidesFixedReads (in_ring trace.now ring) state.now offset (span_meant span)
        (opened_meant state.now opened) result }
{
    let file = readable(opened, state)?;
    let at = span_start(trace, ring, span).ok_or(Errno::EFAULT)?;
    if is_bad_offset(offset) {
        return Err(Errno::EINVAL);
    }
    Ok((file, at))
}

/// A read of so many bytes of an open file, at an offset or at its position, into the reply.
#[derive(Clone, Copy)]
pub(crate) struct FileRead {
    pub file: OpenFile,
    pub offset: u64,
    pub count: u32,
}

/// What READ and READV do: nothing where no bytes are asked for.
///
/// # Errors
///
/// That of the first test that fails: EBADF, EISDIR, EINVAL.
#[inline(always)]
pub(crate) fn reading<'a>(
    site: Site<'_>,
    file: FileNumber,
    lookup: &Lookup<'a>,
    offset: u64,
    total: u64,
    state: &State,
) -> Result<Decision<'a>, Errno>
    requires { Tells lookup.now
        (FindsFile (site_meant site) state.now (file_meant file) lookup.now) }
    ensures meaning { Decides
        (readv_meaning state.now offset total (handle (site_meant site.entry) state.now
        (file_meant file)))
        (effect_of (site_meant site.entry) state.now) result }
    ensures limits { IfOk result (IsWithinLimits state.now site.entry.ring) }
{
    let file = readable_at(lookup.file_at(site, file, state), offset, state)?;
    let count = total.min(u64::from(MOST_MOVED)) as u32;
    if count == 0 {
        return Ok(Decision::Nothing);
    }
    Ok(Decision::Read(FileRead {
        file,
        offset,
        count,
    }))
}

/// A read of so many bytes of an open file into a registered buffer, from an offset of it on.
#[derive(Clone, Copy)]
pub(crate) struct BufferRead {
    pub file: OpenFile,
    pub offset: u64,
    pub count: u32,
    pub index: u16,
    pub at: u64,
}

/// What READ_FIXED does: nothing where no bytes are asked for.
///
/// # Errors
///
/// That of the first test that fails: EBADF, EISDIR, EFAULT, EINVAL.
pub(crate) fn reading_fixed<'a>(
    site: Site<'_>,
    file: FileNumber,
    lookup: &Lookup<'a>,
    offset: u64,
    span: BufferSpan,
    state: &State,
) -> Result<Decision<'a>, Errno>
    requires { Tells lookup.now
        (FindsFile (site_meant site) state.now (file_meant file) lookup.now) }
    ensures meaning { Decides
        (read_fixed_meaning (site_meant site.entry) state.now offset (span_meant span)
        (handle (site_meant site.entry) state.now (file_meant file)))
        (effect_of (site_meant site.entry) state.now) result }
    ensures limits { IfOk result (IsWithinLimits state.now site.entry.ring) }
{
    let opened = lookup.file_at(site, file, state);
    let (file, at) = readable_into(site.trace, site.ring, opened, offset, span, state)?;
    let count = span.length.min(MOST_MOVED);
    if count == 0 {
        return Ok(Decision::Nothing);
    }
    Ok(Decision::ReadFixed(BufferRead {
        file,
        offset,
        count,
        index: span.index,
        at,
    }))
}

/// Where a write starts: at the end of a file that is open to append.
#[inline(always)]
fn write_start(file: &OpenFile, offset: u64, state: &State) -> u64
    ensures { result ≡ write_start state.now offset (handle_meant state.now file.now) }
{
    if file.description.append {
        size(file.description.node, state)
    } else {
        transfer_start(file, offset, state)
    }
}

/// The open file that a write of so many bytes is to, and where it starts, or why it is refused.
#[inline(always)]
pub(crate) fn writable_at(
    opened: Option<OpenFile>,
    offset: u64,
    count: usize,
    state: &State,
) -> Result<(OpenFile, u64), Errno>
    ensures meaning { DecidesWrites state.now offset count (opened_meant state.now opened) result }
    ensures place { IfOk result (λ x. 0 < count → x.1 < file_limit) }
{
    let file = writable(opened)?;
    if is_bad_offset(offset) {
        return Err(Errno::EINVAL);
    }
    let start = write_start(&file, offset, state);
    if count != 0 && start >= LARGEST {
        return Err(Errno::EFBIG);
    }
    Ok((file, start))
}

/// A write of bytes to an open file, at an offset or at its position: where in the file it starts,
/// and the bytes, as many as the largest size of a file leaves room for.
#[derive(Clone, Copy)]
pub(crate) struct FileWrite<'a> {
    pub file: OpenFile,
    pub offset: u64,
    pub start: u64,
    pub bytes: TextSlice<'a>,
}

/// What WRITE and WRITEV do: nothing where there are no bytes.
///
/// # Errors
///
/// That of the first test that fails: EBADF, EINVAL, EFBIG.
#[inline(always)]
pub(crate) fn writing<'a>(
    site: Site<'_>,
    file: FileNumber,
    lookup: &Lookup<'a>,
    offset: u64,
    bytes: TextSlice<'a>,
    state: &State,
) -> Result<Decision<'a>, Errno>
    requires { Tells lookup.now
        (FindsFile (site_meant site) state.now (file_meant file) lookup.now) }
    ensures meaning { Decides
        (write_meaning state.now offset (handle (site_meant site.entry) state.now (file_meant file))
        (Ok (sliced bytes.entry)))
        (effect_of (site_meant site.entry) state.now) result }
    ensures limits { length (sliced bytes.entry) ≤ most_moved
        → IfOk result (IsWithinLimits state.now site.entry.ring) }
{
    let opened = lookup.file_at(site, file, state);
    let (file, start) = writable_at(opened, offset, bytes.len(), state)?;
    if bytes.is_empty() {
        return Ok(Decision::Nothing);
    }
    let count = bytes.len().min((LARGEST - start) as usize);
    Ok(Decision::Write(FileWrite {
        file,
        offset,
        start,
        bytes: bytes.first(count),
    }))
}

/// How many bytes of a span, which starts at an offset of its buffer, a transfer moves.
fn count_in_buffer(ring: u32, span: BufferSpan, at: u64, state: &State) -> u64
    ensures count { result ≡ length (take (min span.length most_moved)
        (drop at (unwrap_or (world.buffer state.now ring span.index) []))) }
    ensures inside { 0 < result
        → at + result ≤ length (unwrap_or (world.buffer state.now ring span.index) []) }
    ensures most { result ≤ most_moved }
{
    let len = state.buffer_len(ring, u32::from(span.index)).unwrap_or(0);
    len.saturating_sub(at)
        .min(u64::from(span.length.min(MOST_MOVED)))
}

/// A write of bytes of a registered buffer to an open file: where in the file it starts, the buffer,
/// where in it the bytes start, and how many there are, as the largest size of a file leaves room.
#[derive(Clone, Copy)]
pub(crate) struct BufferWrite {
    pub file: OpenFile,
    pub offset: u64,
    pub start: u64,
    pub index: u16,
    pub at: u64,
    pub count: u64,
}

/// The write that a span asks for, cut at the largest size of a file, or why it is refused.
fn writable_from(
    trace: &Recording,
    ring: u32,
    opened: Option<OpenFile>,
    offset: u64,
    span: BufferSpan,
    state: &State,
) -> Result<BufferWrite, Errno>
    ensures meaning { Decides
        (write_fixed_meaning (in_ring trace.now ring) state.now offset (span_meant span)
        (opened_meant state.now opened))
        (buffer_written_if_any state.now ring) result }
    ensures inside { IfOk result (λ w. 0 < w.count
        → w.at + w.count ≤ length (unwrap_or (world.buffer state.now ring w.index) [])) }
    ensures fits { IfOk result (λ w. 0 < w.count → w.start + w.count ≤ file_limit) }
    ensures most { IfOk result (λ w. (w.at < 2 ^ 32) × (w.count ≤ most_moved)) }
{
    let file = writable(opened)?;
    let at = span_start(trace, ring, span).ok_or(Errno::EFAULT)?;
    if is_bad_offset(offset) {
        return Err(Errno::EINVAL);
    }
    let start = write_start(&file, offset, state);
    let count = count_in_buffer(ring, span, at, state);
    if count != 0 && start >= LARGEST {
        return Err(Errno::EFBIG);
    }
    Ok(BufferWrite {
        file,
        offset,
        start,
        index: span.index,
        at,
        count: count.min(LARGEST.saturating_sub(start)),
    })
}

/// What WRITE_FIXED does: nothing where there are no bytes.
///
/// # Errors
///
/// That of the first test that fails: EBADF, EFAULT, EINVAL, EFBIG.
pub(crate) fn writing_fixed<'a>(
    site: Site<'_>,
    file: FileNumber,
    lookup: &Lookup<'a>,
    offset: u64,
    span: BufferSpan,
    state: &State,
) -> Result<Decision<'a>, Errno>
    requires { Tells lookup.now
        (FindsFile (site_meant site) state.now (file_meant file) lookup.now) }
    ensures meaning { Decides
        (write_fixed_meaning (site_meant site.entry) state.now offset (span_meant span)
        (handle (site_meant site.entry) state.now (file_meant file)))
        (effect_of (site_meant site.entry) state.now) result }
    ensures limits { IfOk result (IsWithinLimits state.now site.entry.ring) }
{
    let opened = lookup.file_at(site, file, state);
    let write = writable_from(site.trace, site.ring, opened, offset, span, state)?;
    if write.count == 0 {
        return Ok(Decision::Nothing);
    }
    Ok(Decision::WriteFixed(write))
}
