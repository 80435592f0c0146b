//! The tests that the rows of the table name, and what they take from an entry.
ghost use Rattle.std.specs.Prelude.{◌≡◌, ◌≤◌, ◌*◌, ◌==◌, ◌||◌, not, leb, ltb, length, drop};
ghost use Rattle.std.specs.Int.{cast_signed, w32};
ghost use Rattle.sqe_codec.specs.Answers.{require};
ghost use Rattle.sqe_codec.specs.declared.errno.Errno.TheVariants.{EINVAL};
ghost use Rattle.trace_format.specs.Blobs.{sliced};
ghost use Rattle.trace_format.specs.Sides.{vector_len};
ghost use Rattle.entry_checks.specs.Check.{check_transfer_flags, check_no_registered_file};
ghost use Rattle.entry_checks.specs.Check.{advised_length, are_open_flags, open_flags_of, is_zero};
ghost use Rattle.entry_checks.specs.Check.{file_closed, file_number, file_of, slot_of, span_of};
ghost use Rattle.entry_checks.specs.Check.{are_statx_flags, has_no_path, statx_of_descriptor};
ghost use Rattle.entry_checks.specs.Meant.{flags_meant, file_meant, meant, span_meant};
ghost use Rattle.entry_checks.specs.Answer.{check_submission, check_vector};

use crate::operation::{BufferSpan, FileNumber, Op, OpenAtFlags};
use sqe_codec::{BUFFER_SELECT, Errno, FIXED_FILE, Sqe, has_flag};
use trace_format::{TextSlice, Version, vector_total};
use trace_records::{
    ACCESS, ALLOCATED_SLOT, APPEND, CREATE, DIRECTORY, EXCLUSIVE, TRUNCATE, are_open_flags,
};

// The flags of statx(2), as linux/fcntl.h has them.
const EMPTY_PATH: u32 = 0x1000;

const FORCE_SYNC: u32 = 0x2000;

const DONT_SYNC: u32 = 0x4000;

/// All flags that statx takes.
const STATX_FLAGS: u32 = 0x7900;

/// The bit of statx's mask that none may set, `STATX__RESERVED`.
const RESERVED: u32 = 1 << 31;

/// `AT_FDCWD`, the working directory, without its sign.
const WORKING_DIRECTORY: u32 = 4_294_967_196;

pub(crate) fn require(holds: bool, error: Errno) -> Result<(), Errno>
    ensures { result ≡ require holds error }
{
    if holds { Ok(()) } else { Err(error) }
}

/// The tests of every entry whose opcode is served.
pub(crate) fn submission(sqe: &Sqe) -> Result<(), Errno>
    ensures { result ≡ check_submission sqe.now }
{
    require(sqe.flags < 128, Errno::EINVAL)?;
    require(sqe.personality == 0, Errno::EINVAL)?;
    require(!sqe.has(BUFFER_SELECT), Errno::EOPNOTSUPP)
}

/// A transfer takes no flags of its own but those of the version.
pub(crate) fn transfer(sqe: &Sqe, version: Version) -> Result<(), Errno>
    ensures { result ≡ check_transfer_flags version sqe.now }
{
    let flags = version.rules().transfer_flags;
    require(sqe.op_flags | flags == flags, Errno::EOPNOTSUPP)
}

/// The sum of the lengths of a vectored transfer.
pub(crate) fn vector(sqe: &Sqe, side: &[u8]) -> Result<u64, Errno>
    requires { vector_len sqe.now ≤ length side.now }
    ensures { result ≡ check_vector sqe.now side.now }
{
    vector_total(sqe, side).ok_or(Errno::EINVAL)
}

/// The bytes that a vectored write moves: they stand behind its lengths.
pub(crate) fn written<'a>(sqe: &Sqe, side: TextSlice<'a>) -> TextSlice<'a>
    requires few { sqe.now.len ≤ 1024 }
    requires there { 8 * sqe.now.len ≤ length (sliced side) }
    ensures { sliced result ≡ drop (8 * sqe.now.len) (sliced side.entry) }
{
    side.behind(8 * sqe.len as usize)
}

/// An operation on paths or slots takes no registered file.
pub(crate) fn no_registered_file(sqe: &Sqe) -> Result<(), Errno>
    ensures { result ≡ check_no_registered_file sqe.now }
{
    require(!sqe.has(FIXED_FILE), Errno::EBADF)
}

/// The operation's flags are at most these.
pub(crate) fn flags_up_to(sqe: &Sqe, most: u32) -> Result<(), Errno>
    ensures { result ≡ require (leb sqe.now.op_flags most) EINVAL }
{
    require(sqe.op_flags <= most, Errno::EINVAL)
}

/// The operation's flags are none, or this one.
pub(crate) fn flag_or_none(sqe: &Sqe, flag: u32) -> Result<(), Errno>
    ensures { result ≡ require (sqe.now.op_flags == 0 || sqe.now.op_flags == flag) EINVAL }
{
    require(sqe.op_flags == 0 || sqe.op_flags == flag, Errno::EINVAL)
}

/// The flags of openat, by the entry's file index.
pub(crate) fn open_flags(sqe: &Sqe) -> Result<(), Errno>
    ensures { result ≡ require (are_open_flags sqe.now.op_flags sqe.now.file_index) EINVAL }
{
    require(are_open_flags(sqe.op_flags, sqe.file_index), Errno::EINVAL)
}

/// A close names a slot or a descriptor, not both.
pub(crate) fn slot_or_descriptor(sqe: &Sqe) -> Result<(), Errno>
    ensures { result ≡ require (sqe.now.file_index == 0 || is_zero sqe.now.fd) EINVAL }
{
    require(sqe.file_index == 0 || sqe.fd == 0, Errno::EINVAL)
}

/// A close names its slot by a number.
pub(crate) fn numbered_slot(sqe: &Sqe) -> Result<(), Errno>
    ensures { result ≡ require (not (sqe.now.file_index == 4294967295)) EINVAL }
{
    require(sqe.file_index != ALLOCATED_SLOT, Errno::EINVAL)
}

/// The number of the file that an entry names. A negative one is above all that are there.
fn file_number(sqe: &Sqe) -> u32
    ensures { result ≡ file_number sqe.now }
{
    sqe.fd.cast_unsigned()
}

/// The file that an entry names.
pub(crate) fn file_of(sqe: &Sqe) -> FileNumber
    ensures { file_meant result ≡ file_of sqe.now }
{
    if sqe.has(FIXED_FILE) {
        FileNumber::Slot(file_number(sqe))
    } else {
        FileNumber::Descriptor(file_number(sqe))
    }
}

/// The registered file that an entry's file index names, which is one more than its number.
pub(crate) fn slot_of(sqe: &Sqe) -> Option<u32>
    ensures { result ≡ slot_of sqe.now.file_index }
{
    sqe.file_index.checked_sub(1)
}

/// What a close closes: a registered file, or where its file index names none, a descriptor.
pub(crate) fn file_closed(sqe: &Sqe) -> FileNumber
    ensures { file_meant result ≡ file_closed sqe.now }
{
    match slot_of(sqe) {
        Some(slot) => FileNumber::Slot(slot),
        None => FileNumber::Descriptor(file_number(sqe)),
    }
}

/// The range of a registered buffer that an entry names.
pub(crate) fn span_of(sqe: &Sqe) -> BufferSpan
    ensures { span_meant result ≡ span_of sqe.now }
{
    BufferSpan {
        index: sqe.buf_index,
        address: sqe.addr,
        length: sqe.len,
    }
}

/// The flags of openat that have an effect.
pub fn open_flags_of(flags: u32) -> OpenAtFlags
    ensures { flags_meant result ≡ open_flags_of flags }
{
    OpenAtFlags {
        access: (flags & ACCESS) as u8,
        create: has_flag(flags, CREATE),
        exclusive: has_flag(flags, EXCLUSIVE),
        truncate: has_flag(flags, TRUNCATE),
        append: has_flag(flags, APPEND),
        directory: has_flag(flags, DIRECTORY),
    }
}

/// How many bytes advice is for: those of `addr`, or where that is 0 of `len`.
pub(crate) fn advised_length(sqe: &Sqe) -> u64
    ensures { result ≡ advised_length sqe.now }
{
    if sqe.addr == 0 {
        u64::from(sqe.len)
    } else {
        sqe.addr
    }
}

/// The mask of statx has no bit that none may set.
pub(crate) fn stat_mask(sqe: &Sqe) -> Result<(), Errno>
    ensures { result ≡ require (ltb sqe.now.len 2147483648) EINVAL }
{
    require(sqe.len < RESERVED, Errno::EINVAL)
}

/// The flags of statx: no bit that it doesn't take, and not both that ask a server of files.
pub(crate) fn stat_flags(sqe: &Sqe) -> Result<(), Errno>
    ensures { result ≡ require (are_statx_flags sqe.now.op_flags) EINVAL }
{
    let flags = sqe.op_flags;
    let both = has_flag(flags, FORCE_SYNC) && has_flag(flags, DONT_SYNC);
    require(flags | STATX_FLAGS == STATX_FLAGS && !both, Errno::EINVAL)
}

/// Whether an empty path stands for what is open at the descriptor.
pub(crate) fn has_no_path(sqe: &Sqe, side: &[u8]) -> bool
    ensures { result ≡ has_no_path sqe.now side.now }
{
    side.is_empty() && has_flag(sqe.op_flags, EMPTY_PATH)
}

/// That is the root where the descriptor is the working directory.
pub(crate) fn statx_of_descriptor<'a>(sqe: &Sqe) -> Op<'a>
    ensures { meant result ≡ statx_of_descriptor sqe.now }
{
    let number = file_number(sqe);
    if number == WORKING_DIRECTORY {
        return Op::StatxRoot;
    }
    Op::StatxFile {
        file: FileNumber::Descriptor(number),
    }
}

/// The directory of a second path, which stands in `len`.
pub(crate) fn new_directory(sqe: &Sqe) -> i32
    ensures { result ≡ cast_signed w32 sqe.now.len }
{
    sqe.len.cast_signed()
}
