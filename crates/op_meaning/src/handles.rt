//! Files that are open, and ranges of registered buffers.
ghost use Rattle.std.specs.Prelude.{◌≡◌, ◌==◌, ◌+◌, ◌<◌, ◌≤◌, ◌^◌, IfSome, length};
ghost use Rattle.entry_checks.specs.Meant.{file_meant, span_meant};
ghost use Rattle.entry_checks.specs.Operation.{at_descriptor, at_position, file_limit, in_slot};
ghost use Rattle.file_tree.specs.Walk as walk;
ghost use Rattle.op_meaning.specs.Handles.{found, handle_meant, opened_meant};
ghost use Rattle.op_meaning.specs.Site.{in_ring};
ghost use Rattle.op_meaning.specs.Meaning.{bytes_in, can_read, can_write, handle, held};
ghost use Rattle.op_meaning.specs.Meaning.{is_bad_offset, readable, registered_buffer};
ghost use Rattle.op_meaning.specs.Meaning.{slot_count, span_start, transfer_start, writable};
ghost use Rattle.world_parts.specs.World as world;
ghost use Rattle.world_parts.specs.World.{World};

use crate::limits::{AT_POSITION, REFUSED};
use entry_checks::{BufferSpan, FileNumber};
use file_tree::Kind;
use recording::{Access, Buffer, Description, Recording};
use sqe_codec::Errno;
use world_parts::State;

/// A file that is open: the number of its open file description, and what that says.
#[derive(Clone, Copy, Debug)]
pub struct OpenFile {
    pub number: u32,
    pub description: Description,
}

/// How many registered files a ring has room for.
pub fn slot_count(trace: &Recording, ring: u32) -> usize
    ensures { result ≡ slot_count trace.now ring }
{
    match trace.rings.as_slice().get(ring as usize) {
        Some(registered) => registered.slot_count(),
        None => 0,
    }
}

/// The number of the open file description that a registered file of a ring holds.
#[inline(always)]
fn held_by_slot(trace: &Recording, ring: u32, slot: u32, state: &State) -> Option<u32>
    ensures { result ≡ held (in_ring trace.now ring) state.now (in_slot slot) }
{
    if (slot as usize) < slot_count(trace, ring) {
        state.slot(ring, slot)
    } else {
        None
    }
}

/// The number of the open file description that a descriptor of the process holds.
pub(crate) fn held_by_descriptor(trace: &Recording, descriptor: u32, state: &State) -> Option<u32>
    ensures { result ≡ held (in_ring trace.now 0) state.now (at_descriptor descriptor) }
{
    if (descriptor as usize) < trace.descriptors.as_slice().len() {
        state.descriptor(descriptor)
    } else {
        None
    }
}

/// The number of the open file description that a file number stands for: in a slot of the ring, or
/// at a descriptor.
#[inline(always)]
pub fn held(trace: &Recording, ring: u32, file: FileNumber, state: &State) -> Option<u32>
    ensures { result ≡ held (in_ring trace.now ring) state.now (file_meant file) }
{
    match file {
        FileNumber::Slot(slot) => held_by_slot(trace, ring, slot, state),
        FileNumber::Descriptor(number) => held_by_descriptor(trace, number, state),
    }
}

/// The open file that a file number stands for.
#[inline(always)]
pub(crate) fn open_file(
    trace: &Recording,
    ring: u32,
    file: FileNumber,
    state: &State,
) -> Option<OpenFile>
    ensures { opened_meant state.now result
        ≡ handle (in_ring trace.now ring) state.now (file_meant file) }
{
    let number = held(trace, ring, file, state)?;
    let description = state.description(number)?;
    Some(OpenFile {
        number,
        description,
    })
}

/// Whether an access lets its holder read.
pub(crate) fn can_read(access: Access) -> bool
    ensures { result ≡ can_read access }
{
    match access {
        Access::Read | Access::Both => true,
        Access::Write => false,
    }
}

/// Whether an access lets its holder write.
pub(crate) fn can_write(access: Access) -> bool
    ensures { result ≡ can_write access }
{
    match access {
        Access::Write | Access::Both => true,
        Access::Read => false,
    }
}

/// Whether a node is a directory.
#[inline(always)]
pub fn is_directory(node: u32, state: &State) -> bool
    ensures { result ≡ walk.is_directory (world.kind state.now node) }
{
    match state.kind(node) {
        Some(Kind::Directory) => true,
        Some(Kind::File) => false,
        None => false,
    }
}

/// The open file that a read is from, by what its file number stands for, or why it is refused.
#[inline(always)]
pub(crate) fn readable(opened: Option<OpenFile>, state: &State) -> Result<OpenFile, Errno>
    ensures { found state.now result ≡ readable (opened_meant state.now opened) }
{
    let file = opened.ok_or(Errno::EBADF)?;
    if !can_read(file.description.access) {
        return Err(Errno::EBADF);
    }
    if is_directory(file.description.node, state) {
        return Err(Errno::EISDIR);
    }
    Ok(file)
}

/// The open file that a write is to, by what its file number stands for, or why it is refused.
pub(crate) fn writable(opened: Option<OpenFile>) -> Result<OpenFile, Errno>
    ensures { (s : World) → found s result ≡ writable (opened_meant s opened) }
{
    let file = opened.ok_or(Errno::EBADF)?;
    if !can_write(file.description.access) {
        return Err(Errno::EBADF);
    }
    Ok(file)
}

/// Whether no file position can be this offset, which doesn't stand for the position either.
pub(crate) fn is_bad_offset(offset: u64) -> bool
    ensures { result ≡ is_bad_offset offset }
{
    offset >= REFUSED && offset != AT_POSITION
}

/// Whether a transfer with this offset uses the position of its open file description.
pub fn is_at_position(offset: u64) -> bool
    ensures { result ≡ (offset == at_position) }
{
    offset == AT_POSITION
}

/// The size of a file in bytes, at most 2^40; 0 where the node is no file.
pub fn size(node: u32, state: &State) -> u64
    ensures value { result ≡ length (bytes_in state.now node) }
    ensures bound { result ≤ file_limit }
{
    state.size(node).unwrap_or(0)
}

/// Where a transfer starts: at its offset, or at the position.
#[inline(always)]
pub(crate) fn transfer_start(file: &OpenFile, offset: u64, state: &State) -> u64
    ensures { result ≡ transfer_start state.now offset (handle_meant state.now file.now) }
{
    if !is_at_position(offset) {
        return offset;
    }
    state.position(file.number).unwrap_or(0)
}

/// A registered buffer of a ring that is no empty entry.
pub(crate) fn registered_buffer(trace: &Recording, ring: u32, index: u16) -> Option<Buffer>
    ensures { result ≡ registered_buffer (in_ring trace.now ring) index }
{
    let registered = trace.rings.as_slice().get(ring as usize)?;
    let buffer = registered.buffers.as_slice().get(index as usize)?;
    if buffer.len == 0 {
        return None;
    }
    Some(*buffer)
}

/// Where a span starts in its buffer, if it lies in one.
pub fn span_start(trace: &Recording, ring: u32, span: BufferSpan) -> Option<u64>
    ensures place { result ≡ span_start (in_ring trace.now ring) (span_meant span) }
    ensures bound { IfSome result (λ at. at + span.length < 2 ^ 32) }
{
    let buffer = registered_buffer(trace, ring, span.index)?;
    let at = span.address.checked_sub(buffer.address)?;
    if u64::from(span.length) > u64::from(buffer.len) || at > u64::from(buffer.len - span.length) {
        return None;
    }
    Some(at)
}
