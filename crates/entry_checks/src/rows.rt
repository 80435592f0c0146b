//! The rows of the table: the tests of each opcode in order, behind those of every entry, and the
//! operation that is left.
ghost use Rattle.std.specs.Prelude.{◌≡◌, ◌≤◌, length, true};
ghost use Rattle.trace_format.specs.Blobs.{sliced};
ghost use Rattle.trace_format.specs.Sides.{are_two_paths, vector_len};
ghost use Rattle.trace_format.specs.declared.version.Version.TheVariants as version;
ghost use Rattle.entry_checks.specs.Check as table;
ghost use Rattle.entry_checks.specs.Answer.{answer, checked};

use crate::operation::{Op, PathAt};
use crate::paths::{new_path, old_path};
use crate::row_tests::{
    advised_length, file_closed, file_of, flag_or_none, flags_up_to, has_no_path, new_directory,
    no_registered_file, numbered_slot, open_flags, open_flags_of, slot_of, slot_or_descriptor,
    span_of, stat_flags, stat_mask, statx_of_descriptor, submission, transfer, vector, written,
};
use sqe_codec::{Errno, Sqe};
use trace_format::{TextSlice, Version};
use trace_records::check_path;

// The flags of unlinkat(2) and linkat(2), as linux/fcntl.h has them.
const REMOVE_DIRECTORY: u32 = 0x200;

const FOLLOW_SYMLINK: u32 = 0x400;

pub(crate) fn nop<'a>(sqe: &Sqe, side: &'a [u8]) -> Result<Op<'a>, Errno>
    ensures { answer result ≡ checked table.nop_row version.One sqe.now side.now }
{
    submission(sqe)?;
    Ok(Op::Nop)
}

pub(crate) fn readv<'a>(sqe: &Sqe, side: &'a [u8], version: Version) -> Result<Op<'a>, Errno>
    requires { vector_len sqe.now ≤ length side.now }
    ensures { answer result ≡ checked table.readv_row version sqe.now side.now }
{
    submission(sqe)?;
    transfer(sqe, version)?;
    let total = vector(sqe, side)?;
    Ok(Op::Readv {
        file: file_of(sqe),
        offset: sqe.off,
        total,
    })
}

pub(crate) fn writev<'a>(sqe: &Sqe, side: TextSlice<'a>, version: Version) -> Result<Op<'a>, Errno>
    requires { vector_len sqe.now ≤ length (sliced side) }
    ensures { answer result ≡ checked table.writev_row version sqe.now (sliced side.entry) }
{
    submission(sqe)?;
    transfer(sqe, version)?;
    vector(sqe, side.as_slice())?;
    Ok(Op::Writev {
        file: file_of(sqe),
        offset: sqe.off,
        bytes: written(sqe, side),
    })
}

pub(crate) fn fsync<'a>(sqe: &Sqe, side: &'a [u8]) -> Result<Op<'a>, Errno>
    ensures { answer result ≡ checked table.fsync_row version.One sqe.now side.now }
{
    submission(sqe)?;
    flags_up_to(sqe, 1)?;
    Ok(Op::Fsync { file: file_of(sqe) })
}

pub(crate) fn read_fixed<'a>(sqe: &Sqe, side: &'a [u8], version: Version) -> Result<Op<'a>, Errno>
    ensures { answer result ≡ checked table.read_fixed_row version sqe.now side.now }
{
    submission(sqe)?;
    transfer(sqe, version)?;
    Ok(Op::ReadFixed {
        file: file_of(sqe),
        offset: sqe.off,
        span: span_of(sqe),
    })
}

pub(crate) fn write_fixed<'a>(sqe: &Sqe, side: &'a [u8], version: Version) -> Result<Op<'a>, Errno>
    ensures { answer result ≡ checked table.write_fixed_row version sqe.now side.now }
{
    submission(sqe)?;
    transfer(sqe, version)?;
    Ok(Op::WriteFixed {
        file: file_of(sqe),
        offset: sqe.off,
        span: span_of(sqe),
    })
}

pub(crate) fn fallocate<'a>(sqe: &Sqe, side: &'a [u8]) -> Result<Op<'a>, Errno>
    ensures { answer result ≡ checked table.fallocate_row version.One sqe.now side.now }
{
    submission(sqe)?;
    Ok(Op::Fallocate {
        file: file_of(sqe),
        offset: sqe.off,
        size: sqe.addr,
        mode: sqe.len,
    })
}

pub(crate) fn openat<'a>(sqe: &Sqe, side: &'a [u8]) -> Result<Op<'a>, Errno>
    ensures { answer result ≡ checked table.openat_row version.One sqe.now side.now }
{
    submission(sqe)?;
    no_registered_file(sqe)?;
    open_flags(sqe)?;
    check_path(side)?;
    Ok(Op::Openat {
        path: PathAt {
            directory: sqe.fd,
            text: side,
        },
        flags: open_flags_of(sqe.op_flags),
        slot: slot_of(sqe),
    })
}

pub(crate) fn close<'a>(sqe: &Sqe, side: &'a [u8]) -> Result<Op<'a>, Errno>
    ensures { answer result ≡ checked table.close_row version.One sqe.now side.now }
{
    submission(sqe)?;
    no_registered_file(sqe)?;
    slot_or_descriptor(sqe)?;
    numbered_slot(sqe)?;
    Ok(Op::Close {
        file: file_closed(sqe),
    })
}

pub(crate) fn read<'a>(sqe: &Sqe, side: &'a [u8], version: Version) -> Result<Op<'a>, Errno>
    ensures { answer result ≡ checked table.read_row version sqe.now side.now }
{
    submission(sqe)?;
    transfer(sqe, version)?;
    Ok(Op::Read {
        file: file_of(sqe),
        offset: sqe.off,
        total: sqe.len,
    })
}

pub(crate) fn write<'a>(sqe: &Sqe, side: TextSlice<'a>, version: Version) -> Result<Op<'a>, Errno>
    ensures { answer result ≡ checked table.write_row version sqe.now (sliced side.entry) }
{
    submission(sqe)?;
    transfer(sqe, version)?;
    Ok(Op::Write {
        file: file_of(sqe),
        offset: sqe.off,
        bytes: side,
    })
}

/// The second version admits an exchange of two names.
pub(crate) fn renameat<'a>(sqe: &Sqe, side: &'a [u8], version: Version) -> Result<Op<'a>, Errno>
    requires { are_two_paths side.now ≡ true }
    ensures { answer result ≡ checked table.renameat_row version sqe.now side.now }
{
    submission(sqe)?;
    no_registered_file(sqe)?;
    flags_up_to(sqe, version.rules().most_rename_flags)?;
    let old = old_path(side);
    let new = new_path(side);
    check_path(old)?;
    check_path(new)?;
    Ok(Op::Renameat {
        old: PathAt {
            directory: sqe.fd,
            text: old,
        },
        new: PathAt {
            directory: new_directory(sqe),
            text: new,
        },
        flags: sqe.op_flags,
    })
}

pub(crate) fn unlinkat<'a>(sqe: &Sqe, side: &'a [u8]) -> Result<Op<'a>, Errno>
    ensures { answer result ≡ checked table.unlinkat_row version.One sqe.now side.now }
{
    submission(sqe)?;
    no_registered_file(sqe)?;
    flag_or_none(sqe, REMOVE_DIRECTORY)?;
    check_path(side)?;
    Ok(Op::Unlinkat {
        path: PathAt {
            directory: sqe.fd,
            text: side,
        },
        removes_directory: sqe.op_flags == REMOVE_DIRECTORY,
    })
}

pub(crate) fn mkdirat<'a>(sqe: &Sqe, side: &'a [u8]) -> Result<Op<'a>, Errno>
    ensures { answer result ≡ checked table.mkdirat_row version.One sqe.now side.now }
{
    submission(sqe)?;
    no_registered_file(sqe)?;
    check_path(side)?;
    Ok(Op::Mkdirat {
        path: PathAt {
            directory: sqe.fd,
            text: side,
        },
    })
}

pub(crate) fn linkat<'a>(sqe: &Sqe, side: &'a [u8]) -> Result<Op<'a>, Errno>
    requires { are_two_paths side.now ≡ true }
    ensures { answer result ≡ checked table.linkat_row version.One sqe.now side.now }
{
    submission(sqe)?;
    no_registered_file(sqe)?;
    flag_or_none(sqe, FOLLOW_SYMLINK)?;
    let old = old_path(side);
    let new = new_path(side);
    check_path(old)?;
    check_path(new)?;
    Ok(Op::Linkat {
        old: PathAt {
            directory: sqe.fd,
            text: old,
        },
        new: PathAt {
            directory: new_directory(sqe),
            text: new,
        },
    })
}

pub(crate) fn ftruncate<'a>(sqe: &Sqe, side: &'a [u8]) -> Result<Op<'a>, Errno>
    ensures { answer result ≡ checked table.ftruncate_row version.One sqe.now side.now }
{
    submission(sqe)?;
    Ok(Op::Ftruncate {
        file: file_of(sqe),
        size: sqe.off,
    })
}

pub(crate) fn sync_file_range<'a>(sqe: &Sqe, side: &'a [u8]) -> Result<Op<'a>, Errno>
    ensures { answer result ≡ checked table.sync_file_range_row version.One sqe.now side.now }
{
    submission(sqe)?;
    Ok(Op::SyncFileRange {
        file: file_of(sqe),
        offset: sqe.off,
        size: sqe.len,
        flags: sqe.op_flags,
    })
}

pub(crate) fn fadvise<'a>(sqe: &Sqe, side: &'a [u8]) -> Result<Op<'a>, Errno>
    ensures { answer result ≡ checked table.fadvise_row version.One sqe.now side.now }
{
    submission(sqe)?;
    Ok(Op::Fadvise {
        file: file_of(sqe),
        size: advised_length(sqe),
        advice: sqe.op_flags,
    })
}

/// An empty path, where its flag is set, stands for what is open at the descriptor.
pub(crate) fn statx<'a>(sqe: &Sqe, side: &'a [u8]) -> Result<Op<'a>, Errno>
    ensures { answer result ≡ checked table.statx_row version.One sqe.now side.now }
{
    submission(sqe)?;
    no_registered_file(sqe)?;
    stat_mask(sqe)?;
    stat_flags(sqe)?;
    if has_no_path(sqe, side) {
        return Ok(statx_of_descriptor(sqe));
    }
    check_path(side)?;
    Ok(Op::Statx {
        path: PathAt {
            directory: sqe.fd,
            text: side,
        },
    })
}
