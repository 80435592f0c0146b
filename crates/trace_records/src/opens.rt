//! The tests that a call makes of a path, and openat of its flags.
ghost use Rattle.std.specs.Prelude.{◌≡◌};
ghost use Rattle.std.specs.List.{list_any};
ghost use Rattle.trace_records.specs.Opens.{are_open_flags, check_path, is_dots};
ghost use Rattle.trace_format.specs.Paths.{components};

use sqe_codec::{Errno, has_flag};

/// The most bytes that a path has: `PATH_MAX` of linux/limits.h, less the zero byte at its end.
const LONGEST_PATH: usize = 4_095;

// The flags of open(2), as asm-generic/fcntl.h has them.

/// `O_ACCMODE`, the bits of the access.
pub const ACCESS: u32 = 0o3;

/// `O_CREAT`: a file that is not there is made.
pub const CREATE: u32 = 0o100;

/// `O_EXCL`: the file must not be there yet.
pub const EXCLUSIVE: u32 = 0o200;

/// `O_TRUNC`: the file loses its bytes.
pub const TRUNCATE: u32 = 0o1000;

/// `O_APPEND`: writes go to the end of the file.
pub const APPEND: u32 = 0o2000;

/// `O_DIRECTORY`: what is opened must be a directory.
pub const DIRECTORY: u32 = 0o200000;

/// `O_CLOEXEC`, which is for an ordinary descriptor.
const CLOSE_ON_EXEC: u32 = 0o2000000;

/// All flags that openat takes.
const OPEN_FLAGS: u32 = 0x1f_dfc3;

/// `IORING_FILE_INDEX_ALLOC`, by which the kernel would choose the slot.
pub const ALLOCATED_SLOT: u32 = u32::MAX;

fn is_dots(run: &[u8]) -> bool
    ensures { result ≡ is_dots run.now }
{
    run == b".".as_slice() || run == b"..".as_slice()
}

/// Whether a component is `.` or `..`.
fn has_dots(path: &[u8]) -> bool
    ensures { result ≡ list_any is_dots (components path.now) }
{
    path.split(|b| *b == b'/').any(is_dots)
}

/// The tests of a path, which take no memory.
///
/// # Errors
///
/// `ENOENT` where it is empty, `ENAMETOOLONG` where it has over 4,095 bytes, `EINVAL` where it ends
/// in a slash or has a component `.` or `..`.
#[tactic(auto, using(crate::proofs::Words::last_at))]
pub fn check_path(path: &[u8]) -> Result<(), Errno>
    ensures { result ≡ check_path path.now }
{
    if path.is_empty() {
        return Err(Errno::ENOENT);
    }
    if path.len() > LONGEST_PATH {
        return Err(Errno::ENAMETOOLONG);
    }
    if path[path.len() - 1] == b'/' {
        return Err(Errno::EINVAL);
    }
    if has_dots(path) {
        return Err(Errno::EINVAL);
    }
    Ok(())
}

/// Whether openat takes the flags with this file index: an access, no bit that it doesn't take, no
/// file made where a directory is asked for, no flag for an ordinary descriptor where a slot is
/// named, and no slot that the kernel would choose.
pub fn are_open_flags(flags: u32, index: u32) -> bool
    ensures { result ≡ are_open_flags flags index }
{
    let known = flags & ACCESS != 3 && flags | OPEN_FLAGS == OPEN_FLAGS;
    let agree = !(has_flag(flags, CREATE) && has_flag(flags, DIRECTORY))
        && !(has_flag(flags, CLOSE_ON_EXEC) && index != 0);
    known && agree && index != ALLOCATED_SLOT
}
