//! The table of the opcodes.
ghost use Rattle.std.specs.Prelude.{◌≡◌, true};
ghost use Rattle.trace_format.specs.Sides.{is_side_of, SideFits};
ghost use Rattle.entry_checks.specs.Check.{check, check_fields, check_given};
ghost use Rattle.entry_checks.specs.Answer.{answer};

use crate::operation::Op;
use crate::rows;
use sqe_codec::Errno;
use trace_format::{Entry, Given, Version};

/// What an entry asks for, or the error that its submission gives; `version` is the trace's, whose
/// rules say which opcodes and flags it admits.
///
/// Of an entry whose answer the trace gives, that answer decides, whatever its fields say. Of any
/// other an opcode that isn't served, the reserved flag bit and a personality are EINVAL, in this
/// order; then the selection of a buffer is EOPNOTSUPP; then come the opcode's own tests. It takes
/// no memory.
#[inline(always)]
pub fn check<'a>(entry: &Entry<'a>, version: Version) -> Result<Op<'a>, Errno>
    requires { SideFits entry.now }
    ensures { answer result ≡ check version entry.now }
{
    match entry.given() {
        Some(given) => answered(given),
        None => checked(entry, version),
    }
}

/// What the fields of an entry and the bytes beside it ask for. A READ or WRITE, of which there are
/// most, is not looked up in the table.
#[inline(always)]
fn checked<'a>(entry: &Entry<'a>, version: Version) -> Result<Op<'a>, Errno>
    requires { is_side_of entry.now.sqe entry.now.side ≡ true }
    ensures { answer result ≡ check_fields version entry.now.sqe entry.now.side }
{
    let sqe = &entry.sqe();
    match sqe.opcode {
        22 => rows::read(sqe, entry.side(), version),
        23 => rows::write(sqe, entry.side_slice(), version),
        _ => looked_up(entry, version),
    }
}

/// The operation of an entry whose answer the trace gives, or the error that it gives.
fn answered<'a>(given: Given) -> Result<Op<'a>, Errno>
    ensures { answer result ≡ check_given given }
{
    match given {
        Given::Passed { result, fails } => Ok(Op::Given { result, fails }),
        Given::Refused { error } => Err(Errno::Other(error)),
    }
}

/// The same for every opcode.
#[tactic(auto, unfolding(trace_format::specs::Sides::is_side_of))]
fn looked_up<'a>(entry: &Entry<'a>, version: Version) -> Result<Op<'a>, Errno>
    requires { is_side_of entry.now.sqe entry.now.side ≡ true }
    ensures { answer result ≡ check_fields version entry.now.sqe entry.now.side }
{
    let sqe = &entry.sqe();
    let side = entry.side();
    // A row for each opcode, by its number in linux/io_uring.h.
    match sqe.opcode {
        0 => rows::nop(sqe, side),
        1 => rows::readv(sqe, side, version),
        2 => rows::writev(sqe, entry.side_slice(), version),
        3 => rows::fsync(sqe, side),
        4 => rows::read_fixed(sqe, side, version),
        5 => rows::write_fixed(sqe, side, version),
        8 if version.rules().has_later_opcodes => rows::sync_file_range(sqe, side),
        17 => rows::fallocate(sqe, side),
        18 => rows::openat(sqe, side),
        19 => rows::close(sqe, side),
        21 if version.rules().has_later_opcodes => rows::statx(sqe, side),
        22 => rows::read(sqe, side, version),
        23 => rows::write(sqe, entry.side_slice(), version),
        24 if version.rules().has_later_opcodes => rows::fadvise(sqe, side),
        35 => rows::renameat(sqe, side, version),
        36 => rows::unlinkat(sqe, side),
        37 => rows::mkdirat(sqe, side),
        39 => rows::linkat(sqe, side),
        55 => rows::ftruncate(sqe, side),
        _ => Err(Errno::EINVAL),
    }
}
