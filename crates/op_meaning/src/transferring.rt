//! Reads and writes that were decided on.
ghost use Rattle.std.specs.Prelude.{◌≡◌, ◌+◌, ◌-◌, ◌^◌, ◌<◌, ◌≤◌, IfOk, OnOk};
ghost use Rattle.std.specs.Prelude.{drop, length, take, unwrap_or, []};
ghost use Rattle.entry_checks.specs.Operation.{file_limit};
ghost use Rattle.extent_bytes.specs.Bytes.{range_of};
ghost use Rattle.op_meaning.specs.Decision.{buffer_filled, buffer_written};
ghost use Rattle.op_meaning.specs.Decision.{bytes_read, bytes_written};
ghost use Rattle.op_meaning.specs.Handles.{handle_meant};
ghost use Rattle.op_meaning.specs.Meaning.{advance, bytes_in};
ghost use Rattle.op_meaning.specs.Outcomes.{Gives};
ghost use Rattle.trace_format.specs.Blobs.{sliced};
ghost use Rattle.trace_format.specs.Sides.{most_moved};
ghost use Rattle.world_parts.specs.World.{apply_all};
ghost use Rattle.world_parts.specs.World as world;

use crate::handles::{OpenFile, is_at_position, size, transfer_start};
use crate::outcome::{Done, counted};
use crate::transfers::{BufferRead, BufferWrite, FileRead, FileWrite};
use extent_bytes::ReadBytes;
use std::alloc::{AllocError, Global};
use world_parts::State;

/// Where so many bytes of a file from an offset on end, as far as it has them.
fn end_in_file(node: u32, start: u64, count: u32, state: &State) -> u64
    ensures bytes { range_of (bytes_in state.now node) start result
        ≡ take count (drop start (bytes_in state.now node)) }
    ensures count { result - start ≡ length (take count (drop start (bytes_in state.now node))) }
    ensures most { result - start ≤ count }
    ensures place { result - start ≤ file_limit - start }
{
    size(node, state).min(start.saturating_add(u64::from(count)))
}

/// The bytes of a file from an offset on, as many as asked for, as far as it has them.
fn bytes_from(
    alloc: Global,
    node: u32,
    start: u64,
    count: u32,
    state: &State,
) -> Result<ReadBytes, AllocError>
    ensures bytes { IfOk result
        (λ taken. taken ≡ take count (drop start (bytes_in state.now node))) }
    ensures count { IfOk result (λ taken. length taken ≤ count) }
    ensures place { IfOk result (λ taken. length taken ≤ file_limit - start) }
{
    state.read_shared(alloc, node, start, end_in_file(node, start, count, state))
}

/// Moves the position of an open file to the end of a transfer that used it.
fn advance(file: &OpenFile, offset: u64, end: u64, state: &mut State)
    ensures { state.new
        ≡ apply_all (advance offset (handle_meant state.old file.now) end) state.old }
{
    if is_at_position(offset) {
        state.set_position(file.number, end);
    }
}

/// Reads bytes of a file into the reply.
///
/// # Errors
///
/// Out of memory.
#[inline(always)]
pub(crate) fn read(alloc: Global, read: FileRead, state: &mut State) -> Result<Done, AllocError>
    ensures answer { IfOk result (Gives (bytes_read state.old read)) }
    ensures state { OnOk result
        (state.new ≡ apply_all (bytes_read state.old read).changes state.old) }
{
    let FileRead {
        file,
        offset,
        count,
    } = read;
    let start = transfer_start(&file, offset, state);
    let bytes = bytes_from(alloc, file.description.node, start, count, state)?;
    advance(&file, offset, start + bytes.len(), state);
    Ok(Done {
        count: bytes.len() as u32,
        bytes,
    })
}

/// Reads bytes of a file into a registered buffer of a ring.
///
/// # Errors
///
/// Out of memory.
pub(crate) fn read_fixed(
    alloc: Global,
    ring: u32,
    read: BufferRead,
    state: &mut State,
) -> Result<Done, AllocError>
    ensures answer { IfOk result (Gives (buffer_filled state.old ring read)) }
    ensures state { OnOk result
        (state.new ≡ apply_all (buffer_filled state.old ring read).changes state.old) }
{
    let BufferRead {
        file,
        offset,
        count,
        index,
        at,
    } = read;
    let start = transfer_start(&file, offset, state);
    let node = file.description.node;
    let end = end_in_file(node, start, count, state);
    let moved = end.saturating_sub(start);
    state.fill_from_file(alloc, node, start, end, ring, u32::from(index), at)?;
    advance(&file, offset, start + moved, state);
    Ok(counted(alloc, moved as u32))
}

/// Writes bytes to a file.
///
/// # Errors
///
/// Out of memory.
#[inline(always)]
pub(crate) fn write(
    alloc: Global,
    write: FileWrite<'_>,
    state: &mut State,
) -> Result<Done, AllocError>
    requires end { write.start + length (sliced write.bytes) ≤ file_limit }
    requires short { length (sliced write.bytes) ≤ most_moved }
    ensures answer { IfOk result (Gives (bytes_written state.old write.entry)) }
    ensures state { OnOk result
        (state.new ≡ apply_all (bytes_written state.old write.entry).changes state.old) }
{
    let FileWrite {
        file,
        offset,
        start,
        bytes,
    } = write;
    state.write_from_text(alloc, file.description.node, start, bytes)?;
    advance(&file, offset, start + bytes.len() as u64, state);
    Ok(counted(alloc, bytes.len() as u32))
}

/// Writes bytes of a registered buffer of a ring to a file.
///
/// # Errors
///
/// Out of memory.
pub(crate) fn write_fixed(
    alloc: Global,
    ring: u32,
    write: BufferWrite,
    state: &mut State,
) -> Result<Done, AllocError>
    requires low { write.at < 2 ^ 32 }
    requires inside { write.at + write.count
        ≤ length (unwrap_or (world.buffer state.old ring write.index) []) }
    requires end { write.start + write.count ≤ file_limit }
    requires short { write.count ≤ most_moved }
    ensures answer { IfOk result (Gives (buffer_written state.old ring write)) }
    ensures state { OnOk result
        (state.new ≡ apply_all (buffer_written state.old ring write).changes state.old) }
{
    let BufferWrite {
        file,
        offset,
        start,
        index,
        at,
        count,
    } = write;
    let node = file.description.node;
    state.write_from_buffer(ring, u32::from(index), at, at + count, node, start)?;
    advance(&file, offset, start + count, state);
    Ok(counted(alloc, count as u32))
}
