//! Places that run on parts of the world, and give what one after another on the whole of it gives.

use crate::rounds::compared;
use crate::text::{
    Submitted, close, flagged, open, read, read_descriptor, rename, trace_behind, unlink, write,
};
use replay_core::{EagerGate, Verdict};
use sqe_codec::IO_LINK;
use std::alloc::{AllocError, Global};
use std::sync::Wait;
use std::test::Fail;
use std::thread::Threads;

/// The text of a trace up to its entries: the file `/a` of ten bytes, the directory `/d` and the
/// file `/d/f` of four. A table of four descriptors and a ring with four slots: the first file open
/// in the first slot and in the first descriptor, and to append in the second slot.
fn head(alloc: Global) -> Result<Vec<u8>, AllocError> {
    let mut text = Vec::from_slice(alloc, b"URINGTRC")?;
    for number in [2u32, 3, 2, 1, 1, 4] {
        text.extend_from_slice(&number.to_le_bytes())?;
    }
    text.extend_from_slice(b"\x02\x02\0/a\x0a\0\0\0\0\0\0\0\x0a\0\0\x000123456789")?;
    text.extend_from_slice(b"\x01\x02\0/d\x02\x04\0/d/f\x04\0\0\0\0\0\0\0\x04\0\0\0wxyz")?;
    text.extend_from_slice(b"\x01\0\0\0\x02\0\0\0\0\0\0\0\0\0\x01\0\0\0\x02\x01\0\0\0\0\0\0\0\0")?;
    for entry in [1u32, 0, 0, 0] {
        text.extend_from_slice(&entry.to_le_bytes())?;
    }
    text.extend_from_slice(b"\x04\0\x01\0\0\0\x02\0\0\0\0\0\0\0\0\0\0\0\0\0\x01\0")?;
    Ok(text)
}

/// Whether these entries give on parts, on two workers, what they give one after another.
fn is_serial<R: Threads + Wait + Sync>(
    rt: &R,
    alloc: Global,
    entries: &[Submitted<'_>],
) -> Result<bool, Fail> {
    let trace = trace_behind(alloc, head(alloc)?, entries)?;
    let verdict = compared(rt, alloc, &trace, 2, &EagerGate);
    Ok(matches!(verdict, Ok(Verdict::Equal)))
}

/// The first slot, and an empty one, with its file index.
const FILE: i32 = 0;

const OPENED: i32 = 2;

const OPENED_INDEX: u32 = 3;

/// A chain over a slot that its first member fills, between places that use the file and the slot.
fn chain(path: &[u8]) -> [Submitted<'_>; 8] {
    [
        write(FILE, 0, b"abcd"),
        flagged(open(path, OPENED_INDEX), IO_LINK),
        flagged(write(OPENED, 2, b"efgh"), IO_LINK),
        flagged(read(OPENED, 0, 4), IO_LINK),
        flagged(write(OPENED, 0, b"ijkl"), IO_LINK),
        close(0, OPENED_INDEX),
        read(FILE, 6, 4),
        read(OPENED, 0, 4),
    ]
}

/// With the second path the chain breaks at its first member, and with the third each member uses
/// another file.
#[test]
fn a_chain_uses_the_slot_that_it_fills(rt: HostRuntime) -> Result<(), Fail> {
    for path in [b"/a".as_slice(), b"/b", b"/d/f"] {
        assert!(rt; is_serial(&rt, rt.alloc(), &chain(path))?);
    }
    Ok(())
}

#[test]
fn opens_take_the_lowest_free_descriptor(rt: HostRuntime) -> Result<(), Fail> {
    let entries = [
        open(b"/d/f", 0),
        read_descriptor(1),
        open(b"/a", 0),
        write(FILE, 0, b"abcd"),
        read_descriptor(2),
        close(1, 0),
        open(b"/a", 0),
        read_descriptor(1),
    ];
    assert!(rt; is_serial(&rt, rt.alloc(), &entries)?);
    Ok(())
}

#[test]
fn names_move_along_one_path(rt: HostRuntime) -> Result<(), Fail> {
    let entries = [
        rename(b"\x02\0/a/d/b"),
        open(b"/d/b", OPENED_INDEX),
        write(OPENED, 0, b"abcd"),
        rename(b"\x04\0/d/b/d/f"),
        unlink(b"/d/f"),
        rename(b"\x02\0/d/e"),
        open(b"/e/f", OPENED_INDEX),
        read(OPENED, 0, 4),
    ];
    assert!(rt; is_serial(&rt, rt.alloc(), &entries)?);
    Ok(())
}
