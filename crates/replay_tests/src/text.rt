//! Entries, and the traces that hold them.
ghost use Rattle.std.specs.Prelude.{IfOk};
ghost use Rattle.recording.specs.Accepted.{IsAccepted};

use recording::Recording;
use sqe_codec::{FIXED_FILE, IO_DRAIN, IO_LINK, Sqe, pack};
use std::alloc::{AllocError, Global};
use std::test::Fail;
use trace_format::read_trace;

// The opcodes and flags, as `linux/io_uring.h` and `linux/fcntl.h` have them.
const OPENAT: u8 = 18;

const CLOSE: u8 = 19;

const READ: u8 = 22;

const WRITE: u8 = 23;

const RENAMEAT: u8 = 35;

const UNLINKAT: u8 = 36;

const MKDIRAT: u8 = 37;

const AT_REMOVEDIR: u32 = 0x200;

const AT_FDCWD: i32 = -100;

const O_RDWR: u32 = 2;

/// An entry with nothing set: a NOP.
const BLANK: Sqe = Sqe {
    opcode: 0,
    flags: 0,
    ioprio: 0,
    fd: 0,
    off: 0,
    addr: 0,
    len: 0,
    op_flags: 0,
    user_data: 0,
    buf_index: 0,
    personality: 0,
    file_index: 0,
    addr3: 0,
    last: 0,
};

/// A submitted entry, and the bytes beside it.
#[derive(Clone, Copy)]
pub(crate) struct Submitted<'a> {
    pub(crate) sqe: Sqe,
    pub(crate) side: &'a [u8],
}

/// A read of `len` bytes of a registered file.
pub(crate) fn read(slot: i32, off: u64, len: u32) -> Submitted<'static> {
    let sqe = Sqe {
        opcode: READ,
        flags: (FIXED_FILE & 0xff) as u8,
        fd: slot,
        off,
        len,
        ..BLANK
    };
    Submitted { sqe, side: &[] }
}

/// A write of four bytes into a registered file.
pub(crate) fn write(slot: i32, off: u64, bytes: &[u8; 4]) -> Submitted<'_> {
    let sqe = Sqe {
        opcode: WRITE,
        flags: (FIXED_FILE & 0xff) as u8,
        fd: slot,
        off,
        len: 4,
        ..BLANK
    };
    Submitted { sqe, side: bytes }
}

/// A read of four bytes by an ordinary descriptor.
pub(crate) fn read_descriptor(descriptor: i32) -> Submitted<'static> {
    let sqe = Sqe {
        opcode: READ,
        fd: descriptor,
        len: 4,
        ..BLANK
    };
    Submitted { sqe, side: &[] }
}

/// Opens a file to read and write, into the slot before a file index, or with index 0 as the lowest
/// free descriptor.
pub(crate) fn open(path: &[u8], file_index: u32) -> Submitted<'_> {
    let sqe = Sqe {
        opcode: OPENAT,
        fd: AT_FDCWD,
        op_flags: O_RDWR,
        file_index,
        ..BLANK
    };
    Submitted { sqe, side: path }
}

/// Closes the slot before a file index, or with index 0 a descriptor.
pub(crate) fn close(descriptor: i32, file_index: u32) -> Submitted<'static> {
    let sqe = Sqe {
        opcode: CLOSE,
        fd: descriptor,
        file_index,
        ..BLANK
    };
    Submitted { sqe, side: &[] }
}

/// Renames: the length of the old path, the old path and the new one.
pub(crate) fn rename(paths: &[u8]) -> Submitted<'_> {
    let sqe = Sqe {
        opcode: RENAMEAT,
        fd: AT_FDCWD,
        len: 0xffff_ff9c,
        ..BLANK
    };
    Submitted { sqe, side: paths }
}

/// Removes a name of a file.
pub(crate) fn unlink(path: &[u8]) -> Submitted<'_> {
    let sqe = Sqe {
        opcode: UNLINKAT,
        fd: AT_FDCWD,
        ..BLANK
    };
    Submitted { sqe, side: path }
}

/// An entry with more flags.
pub(crate) fn flagged(entry: Submitted<'_>, flags: u32) -> Submitted<'_> {
    let sqe = Sqe {
        flags: entry.sqe.flags | (flags & 0xff) as u8,
        ..entry.sqe
    };
    Submitted {
        sqe,
        side: entry.side,
    }
}

/// A NOP with flags.
pub(crate) fn nop(flags: u32) -> Submitted<'static> {
    let sqe = Sqe {
        flags: (flags & 0xff) as u8,
        ..BLANK
    };
    Submitted { sqe, side: &[] }
}

/// Makes a directory.
pub(crate) fn make_directory(path: &[u8]) -> Submitted<'_> {
    let sqe = Sqe {
        opcode: MKDIRAT,
        fd: AT_FDCWD,
        ..BLANK
    };
    Submitted { sqe, side: path }
}

/// Removes a directory.
pub(crate) fn remove_directory(path: &[u8]) -> Submitted<'_> {
    let sqe = Sqe {
        opcode: UNLINKAT,
        fd: AT_FDCWD,
        op_flags: AT_REMOVEDIR,
        ..BLANK
    };
    Submitted { sqe, side: path }
}

/// Adds an entry with the bytes beside it.
fn push_entry(text: &mut Vec<u8>, sqe: &Sqe, side: &[u8]) -> Result<(), AllocError> {
    text.extend_from_slice(&pack(sqe))?;
    text.extend_from_slice(&(side.len() as u64).to_le_bytes()[..4])?;
    text.extend_from_slice(side)
}

/// The text of a trace up to its entries: the directory `/d`, node 1; the file `/d/f`, node 2, of
/// ten bytes; the file `/g` and `/d.x`, node 3, which is longer than its stored bytes; the
/// directory `/e`, node 5. A ring with the first file in slot 0, none in slot 1, the second file in
/// slot 2, and a buffer of 16 bytes.
fn head(alloc: Global) -> Result<Vec<u8>, AllocError> {
    let mut text = Vec::from_slice(alloc, b"URINGTRC")?;
    for number in [1u32, 5, 2, 1, 1, 0] {
        text.extend_from_slice(&number.to_le_bytes())?;
    }
    text.extend_from_slice(b"\x01\x02\0/d")?;
    text.extend_from_slice(b"\x02\x04\0/d/f\x0a\0\0\0\0\0\0\0\x0a\0\0\x000123456789")?;
    text.extend_from_slice(b"\x02\x02\0/g\x06\0\0\0\0\0\0\0\x03\0\0\0xyz")?;
    text.extend_from_slice(b"\x03\x04\0/d.x\x03\0\0\0\x01\x02\0/e")?;
    text.extend_from_slice(b"\x02\0\0\0\x02\0\0\0\0\0\0\0\0\0\x03\0\0\0\0\0\x03\0\0\0\0\0\0\0")?;
    text.extend_from_slice(b"\x03\0\x01\0\0\0\0\0\0\0\x02\0\0\0")?;
    text.extend_from_slice(b"\x01\0\0\x10\0\0\0\0\0\0\x10\0\0\0\x01\0")?;
    Ok(text)
}

/// What is recorded by a text of version 1 or 2.
#[tactic(auto, using(recording::proofs::WholeAccepted::whole_accepted))]
pub(crate) fn recording_of(alloc: Global, text: Vec<u8>) -> Result<Box<Recording>, Fail>
    ensures { IfOk result (λ trace. IsAccepted trace.value) }
{
    let trace = read_trace(alloc, text)?;
    Ok(Box::new(alloc, Recording::of_whole(alloc, trace)?)?)
}

/// The trace of that head with a record of these entries.
pub(crate) fn trace_of(alloc: Global, entries: &[Submitted<'_>]) -> Result<Box<Recording>, Fail>
    ensures { IfOk result (λ trace. IsAccepted trace.value) }
{
    trace_behind(alloc, head(alloc)?, entries)
}

/// The trace of a head that ends in a record's ring, with these entries in that record.
pub(crate) fn trace_behind(
    alloc: Global,
    mut text: Vec<u8>,
    entries: &[Submitted<'_>],
) -> Result<Box<Recording>, Fail>
    ensures { IfOk result (λ trace. IsAccepted trace.value) }
{
    text.extend_from_slice(&(entries.len() as u64).to_le_bytes()[..2])?;
    for entry in entries {
        push_entry(&mut text, &entry.sqe, entry.side)?;
    }
    recording_of(alloc, text)
}

/// Two writes that share bytes 2 and 3 of a file, a chain of two NOPs, a NOP, and one that drains
/// its ring.
pub(crate) fn six_places(alloc: Global) -> Result<Box<Recording>, Fail>
    ensures { IfOk result (λ trace. IsAccepted trace.value) }
{
    let entries = [
        write(0, 0, b"abcd"),
        write(0, 2, b"efgh"),
        nop(IO_LINK),
        nop(0),
        nop(0),
        nop(IO_DRAIN),
    ];
    trace_of(alloc, &entries)
}
