//! Replies among one another.

use extent_bytes::{Extents, ReadBytes};
use op_meaning::{Replies, Reply};
use std::alloc::{AllocError, Global};
use std::test::Fail;

/// A list of 3,000 bytes that begins with four digits.
fn digits(alloc: Global) -> Result<Box<Extents>, AllocError> {
    let mut list = Box::new(alloc, Extents::new(alloc))?;
    list.write(0, b"0123")?;
    list.set_len(3_000)?;
    Ok(list)
}

/// The reply to a read of a range of a list.
fn reply(alloc: Global, list: &Extents, lo: u64, hi: u64) -> Result<Reply, AllocError> {
    let (lo, hi) = (lo.min(hi), hi.min(list.len()));
    Ok(Reply {
        res: 4,
        bytes: ReadBytes::of(alloc, list, lo.min(hi), hi)?,
        posted: true,
    })
}

/// Three replies of few bytes, of many, and of none that are then replaced by others.
fn three(alloc: Global) -> Result<Replies, AllocError> {
    let list = digits(alloc)?;
    let mut replies = Replies::new(alloc);
    replies.push(reply(alloc, &list, 1, 3)?)?;
    replies.push(reply(alloc, &list, 0, 3_000)?)?;
    replies.push(reply(alloc, &list, 0, 0)?)?;
    if replies.len() > 2 {
        replies.set(2, reply(alloc, &list, 1, 3)?)?;
    }
    Ok(replies)
}

/// Whether a place has these first bytes, of so many.
fn begins(replies: &Replies, place: usize, len: u64, front: &[u8]) -> bool {
    if place >= replies.len() {
        return false;
    }
    let reply = replies.get(place);
    reply.len() == len && reply.front(4) == front && reply.res() == 4 && reply.posted()
}

#[test]
fn replies_of_few_and_of_many_bytes(rt: HostRuntime) -> Result<(), Fail> {
    let replies = three(rt.alloc())?;
    assert!(rt; begins(&replies, 0, 2, b"12"));
    assert!(rt; begins(&replies, 1, 3_000, b"0123"));
    assert!(rt; begins(&replies, 2, 2, b"12"));
    Ok(())
}

/// Whether the replies of two places are the same.
fn alike(replies: &Replies, one: usize, other: usize) -> bool {
    one < replies.len() && other < replies.len() && replies.get(one).same(&replies.get(other))
}

#[test]
fn replies_are_compared(rt: HostRuntime) -> Result<(), Fail> {
    let replies = three(rt.alloc())?;
    assert!(rt; alike(&replies, 0, 2));
    assert!(rt; alike(&replies, 1, 1));
    assert!(rt; !alike(&replies, 0, 1));
    Ok(())
}

/// Whether the bytes of a reply from `lo` up to `hi` are these.
fn has(
    alloc: Global,
    replies: &Replies,
    place: usize,
    lo: u64,
    hi: u64,
    bytes: &[u8],
) -> Result<bool, AllocError> {
    if place >= replies.len() {
        return Ok(false);
    }
    let reply = replies.get(place);
    if lo > hi || hi > reply.len() {
        return Ok(false);
    }
    let read = reply.read(alloc, lo, hi)?;
    Ok(read.as_slice() == bytes)
}

#[test]
fn bytes_of_replies_are_read(rt: HostRuntime) -> Result<(), Fail> {
    let replies = three(rt.alloc())?;
    assert!(rt; has(rt.alloc(), &replies, 0, 1, 2, b"2")?);
    assert!(rt; has(rt.alloc(), &replies, 1, 2, 6, b"23\0\0")?);
    Ok(())
}
