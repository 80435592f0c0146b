//! The other operations on open files.
ghost use Rattle.std.specs.Prelude.{◌≡◌, ◌≤◌, [], ◌∷◌, IfOk, OnOk};
ghost use Rattle.entry_checks.specs.Meant.{file_meant};
ghost use Rattle.entry_checks.specs.Operation.{at_descriptor, fadvise, file_limit, fsync, in_slot};
ghost use Rattle.entry_checks.specs.Operation.{sync_file_range};
ghost use Rattle.op_meaning.specs.Site.{site_meant};
ghost use Rattle.op_meaning.specs.Deciding.{Decides};
ghost use Rattle.op_meaning.specs.Decision.{allocated, effect_of, emptied, IsWithinLimits};
ghost use Rattle.op_meaning.specs.Lookups.{FindsFile, Tells};
ghost use Rattle.op_meaning.specs.Meaning.{close_meaning, extended};
ghost use Rattle.op_meaning.specs.Meaning.{fallocate_meaning, ftruncate_meaning, handle, meaning};
ghost use Rattle.world_parts.specs.World.{apply_all};

use crate::allocating::{Allocation, AllocationRequest, RangeAllocation, allocation_of};
use crate::decision::Decision;
use crate::handles::{can_write, held, held_by_descriptor, size, slot_count};
use crate::limits::{LARGEST, REFUSED};
use crate::lookup::Lookup;
use crate::site::Site;
use entry_checks::FileNumber;
use sqe_codec::Errno;
use std::alloc::AllocError;
use world_parts::State;

/// All flags of sync_file_range(2), and the last advice of posix_fadvise(2).
const ALL_SYNC_FLAGS: u32 = 7;

const LAST_ADVICE: u32 = 5;

/// What FSYNC does where it is accepted: nothing is lost here, so that it has nothing to do.
///
/// # Errors
///
/// EBADF where no file is open.
pub(crate) fn syncing<'a>(
    site: Site<'_>,
    file: FileNumber,
    state: &State,
) -> Result<Decision<'a>, Errno>
    ensures meaning { Decides
        (meaning (site_meant site.entry) state.now
        (fsync (file_meant file)))
        (effect_of (site_meant site.entry) state.now) result }
    ensures limits { IfOk result (IsWithinLimits state.now site.entry.ring) }
{
    match held(site.trace, site.ring, file, state) {
        Some(_) => Ok(Decision::Nothing),
        None => Err(Errno::EBADF),
    }
}

/// What SYNC_FILE_RANGE does where it is accepted: nothing, as FSYNC.
///
/// # Errors
///
/// That of the first test that fails: EBADF, EINVAL.
pub(crate) fn syncing_range<'a>(
    site: Site<'_>,
    file: FileNumber,
    offset: u64,
    size: u32,
    flags: u32,
    state: &State,
) -> Result<Decision<'a>, Errno>
    ensures meaning { Decides
        (meaning (site_meant site.entry) state.now
        (sync_file_range (file_meant file) offset size flags))
        (effect_of (site_meant site.entry) state.now) result }
    ensures limits { IfOk result (IsWithinLimits state.now site.entry.ring) }
{
    if held(site.trace, site.ring, file, state).is_none() {
        return Err(Errno::EBADF);
    }
    if flags > ALL_SYNC_FLAGS || offset >= REFUSED || offset + u64::from(size) >= REFUSED {
        return Err(Errno::EINVAL);
    }
    Ok(Decision::Nothing)
}

/// What FADVISE does where it is accepted: nothing, since advice changes no answer.
///
/// # Errors
///
/// That of the first test that fails: EBADF, EINVAL.
pub(crate) fn advising<'a>(
    site: Site<'_>,
    file: FileNumber,
    size: u64,
    advice: u32,
    state: &State,
) -> Result<Decision<'a>, Errno>
    ensures meaning { Decides
        (meaning (site_meant site.entry) state.now
        (fadvise (file_meant file) size advice))
        (effect_of (site_meant site.entry) state.now) result }
    ensures limits { IfOk result (IsWithinLimits state.now site.entry.ring) }
{
    if held(site.trace, site.ring, file, state).is_none() {
        return Err(Errno::EBADF);
    }
    if size >= REFUSED || advice > LAST_ADVICE {
        return Err(Errno::EINVAL);
    }
    Ok(Decision::Nothing)
}

/// What FALLOCATE allocates.
///
/// # Errors
///
/// That of the first test that fails: EBADF, EINVAL, EOPNOTSUPP, EFBIG.
pub(crate) fn allocating<'a>(
    site: Site<'_>,
    file: FileNumber,
    lookup: &Lookup<'a>,
    request: AllocationRequest,
    state: &State,
) -> Result<Decision<'a>, Errno>
    requires { Tells lookup.now
        (FindsFile (site_meant site) state.now (file_meant file) lookup.now) }
    ensures meaning { Decides
        (fallocate_meaning state.now request.offset request.size request.mode
        (handle (site_meant site.entry) state.now (file_meant file)))
        (effect_of (site_meant site.entry) state.now) result }
    ensures limits { IfOk result (IsWithinLimits state.now site.entry.ring) }
{
    let AllocationRequest { offset, size, mode } = request;
    let file = lookup.file_at(site, file, state).ok_or(Errno::EBADF)?;
    if offset >= REFUSED || size == 0 || size >= REFUSED {
        return Err(Errno::EINVAL);
    }
    let allocation = allocation_of(mode).ok_or(Errno::EOPNOTSUPP)?;
    if !can_write(file.description.access) {
        return Err(Errno::EBADF);
    }
    let end = offset + size;
    if end > LARGEST {
        return Err(Errno::EFBIG);
    }
    Ok(Decision::Allocate(RangeAllocation {
        node: file.description.node,
        offset,
        end,
        allocation,
    }))
}

/// Makes a file as long as an offset at least.
fn extend(node: u32, end: u64, state: &mut State) -> Result<(), AllocError>
    requires { end ≤ file_limit }
    ensures { OnOk result (state.new ≡ apply_all (extended state.old node end ∷ []) state.old) }
{
    let longest = size(node, state).max(end);
    state.set_size(node, longest)
}

/// Allocates a range of a file: makes room, a hole or zeros there.
pub(crate) fn allocate(range: RangeAllocation, state: &mut State) -> Result<(), AllocError>
    requires { range.end ≤ file_limit }
    ensures { OnOk result (state.new ≡ apply_all (allocated state.old range).changes state.old) }
{
    let RangeAllocation {
        node,
        offset,
        end,
        allocation,
    } = range;
    match allocation {
        Allocation::Extend => extend(node, end, state),
        Allocation::Reserve => Ok(()),
        Allocation::Punch | Allocation::ZeroWithin => state.zero(node, offset, end),
        Allocation::ZeroExtend => {
            extend(node, end, state)?;
            state.zero(node, offset, end)
        }
    }
}

/// What FTRUNCATE cuts, or extends with zeros, to a size.
///
/// # Errors
///
/// That of the first test that fails: EBADF, EINVAL, EFBIG.
pub(crate) fn resizing<'a>(
    site: Site<'_>,
    file: FileNumber,
    lookup: &Lookup<'a>,
    size: u64,
    state: &State,
) -> Result<Decision<'a>, Errno>
    requires { Tells lookup.now
        (FindsFile (site_meant site) state.now (file_meant file) lookup.now) }
    ensures meaning { Decides
        (ftruncate_meaning size (handle (site_meant site.entry) state.now (file_meant file)))
        (effect_of (site_meant site.entry) state.now) result }
    ensures limits { IfOk result (IsWithinLimits state.now site.entry.ring) }
{
    let file = lookup.file_at(site, file, state).ok_or(Errno::EBADF)?;
    if size >= REFUSED || !can_write(file.description.access) {
        return Err(Errno::EINVAL);
    }
    if size > LARGEST {
        return Err(Errno::EFBIG);
    }
    Ok(Decision::Resize {
        node: file.description.node,
        size,
    })
}

/// The descriptor of the process that CLOSE frees.
fn closing_descriptor<'a>(site: Site<'_>, number: u32, state: &State) -> Result<Decision<'a>, Errno>
    ensures meaning { Decides
        (close_meaning (site_meant site.entry) state.now (at_descriptor number))
        (effect_of (site_meant site.entry) state.now) result }
    ensures limits { IfOk result (IsWithinLimits state.now site.entry.ring) }
{
    if held_by_descriptor(site.trace, number, state).is_none() {
        return Err(Errno::EBADF);
    }
    Ok(Decision::Empty(FileNumber::Descriptor(number)))
}

/// The registered file of a ring that CLOSE takes out.
fn closing_slot<'a>(site: Site<'_>, slot: u32, state: &State) -> Result<Decision<'a>, Errno>
    ensures meaning { Decides
        (close_meaning (site_meant site.entry) state.now (in_slot slot))
        (effect_of (site_meant site.entry) state.now) result }
    ensures limits { IfOk result (IsWithinLimits state.now site.entry.ring) }
{
    if slot as usize >= slot_count(site.trace, site.ring) {
        return Err(Errno::EINVAL);
    }
    if state.slot(site.ring, slot).is_none() {
        return Err(Errno::EBADF);
    }
    Ok(Decision::Empty(FileNumber::Slot(slot)))
}

/// What CLOSE empties: a slot of the ring, or a descriptor.
///
/// # Errors
///
/// That of the first test that fails: EINVAL, EBADF.
pub(crate) fn closing<'a>(
    site: Site<'_>,
    file: FileNumber,
    state: &State,
) -> Result<Decision<'a>, Errno>
    ensures meaning { Decides
        (close_meaning (site_meant site.entry) state.now (file_meant file))
        (effect_of (site_meant site.entry) state.now) result }
    ensures limits { IfOk result (IsWithinLimits state.now site.entry.ring) }
{
    match file {
        FileNumber::Slot(slot) => closing_slot(site, slot, state),
        FileNumber::Descriptor(number) => closing_descriptor(site, number, state),
    }
}

/// Empties a slot of a ring, or frees a descriptor of the process.
pub(crate) fn empty(ring: u32, file: FileNumber, state: &mut State) -> Result<(), AllocError>
    ensures { OnOk result (state.new ≡ apply_all (emptied ring file).changes state.old) }
{
    match file {
        FileNumber::Slot(slot) => state.set_slot(ring, slot, None),
        FileNumber::Descriptor(number) => state.set_descriptor(number, None),
    }
}
