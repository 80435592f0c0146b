//! What reading keeps of a trace: the buffers so far of a ring.

use crate::traces::told_at;
use std::alloc::{AllocError, Global};
use std::test::Fail;
use trace_format::Kind;

/// The first bytes of a trace of one ring alone, without slots, and with six buffers.
const HEAD: &[u8] = b"URINGTRC\x01\0\0\0\0\0\0\0\0\0\0\0\x01\0\0\0\0\0\0\0\0\0\0\0\0\0\x06\0";

/// The first four buffers of it: their addresses and lengths.
const BUFFERS: [(u64, u32); 4] = [(4096, 16), (8192, 16), (6000, 0), (12288, 4096)];

/// Adds a buffer to the text of a ring.
fn push_buffer(text: &mut Vec<u8>, address: u64, len: u32) -> Result<(), AllocError> {
    text.extend_from_slice(&address.to_le_bytes())?;
    text.extend_from_slice(&len.to_le_bytes())
}

/// The text of that ring with this buffer twice behind the four, at bytes 84 and 96.
fn text_of(alloc: Global, address: u64, len: u32) -> Result<Vec<u8>, AllocError> {
    let mut text = Vec::from_slice(alloc, HEAD)?;
    for (address, len) in BUFFERS {
        push_buffer(&mut text, address, len)?;
    }
    push_buffer(&mut text, address, len)?;
    push_buffer(&mut text, address, len)?;
    Ok(text)
}

/// That buffer, and where an overlap is told: 84 where it overlaps one of the four, 96 where it
/// overlaps itself alone, and 0 where it is empty.
const CASES: [(u64, u32, u64); 12] = [
    (4112, 4080, 96),
    (4080, 16, 96),
    (4080, 17, 84),
    (4111, 1, 84),
    (4096, 16, 84),
    (4095, 18, 84),
    (4000, 8000, 84),
    (5000, 2000, 96),
    (12800, 16, 84),
    (16384, 1, 96),
    (4100, 0, 0),
    (0, 4096, 96),
];

/// The first of the cases in which what is told is wrong.
fn first_wrong(alloc: Global) -> Result<Option<(u64, u32)>, AllocError> {
    for (address, len, at) in CASES {
        let text = text_of(alloc, address, len)?;
        if told_at(alloc, text, Kind::Overlap) != Some(at) {
            return Ok(Some((address, len)));
        }
    }
    Ok(None)
}

#[test]
fn buffers_so_far(rt: HostRuntime) -> Result<(), Fail> {
    assert!(rt; first_wrong(rt.alloc())?.is_none());
    Ok(())
}
