//! Slots, descriptions and buffers.

use extent_bytes::MAX_LEN;
use indexmap::IndexSet;
use ring_tables::{Buffers, Descriptions, Descriptors, Slots};
use std::alloc::{AllocError, Global};
use std::test::Fail;
use trace_format::{Access, Blob, Description};

/// Whether a slot is filled and emptied in its own ring alone, and slots are equal just where their
/// entries are, whatever was there before.
fn entries_tell(slots: &mut Slots, others: &mut Slots) -> Result<bool, AllocError> {
    slots.set(1, 5, Some(7))?;
    slots.set(0, 5, Some(8))?;
    slots.set(0, 5, None)?;
    let one_left = slots.get(1, 5) == Some(7) && slots.get(0, 5).is_none();
    others.set(1, 5, Some(7))?;
    let alike = slots.same(others) && slots.iter().count() == 1;
    others.set(2, 5, Some(7))?;
    Ok(one_left && alike && !slots.same(others))
}

#[test]
fn slots_are_of_their_ring(rt: HostRuntime) -> Result<(), Fail> {
    let mut slots = Slots::new(rt.alloc());
    let mut others = Slots::new(rt.alloc());
    assert!(rt; entries_tell(&mut slots, &mut others)?);
    Ok(())
}

/// Whether the lowest free one is found in front of the taken ones, in a gap between them, behind
/// them, and not at all where there is room for no more.
fn lowest_is_found(descriptors: &mut Descriptors) -> Result<bool, AllocError> {
    descriptors.set(1, Some(0))?;
    let in_front = descriptors.lowest_free(8) == Some(0);
    descriptors.set(0, Some(0))?;
    descriptors.set(3, Some(0))?;
    let between = descriptors.lowest_free(8) == Some(2) && descriptors.lowest_free(2).is_none();
    descriptors.set(2, Some(0))?;
    let behind = descriptors.lowest_free(5) == Some(4) && descriptors.lowest_free(4).is_none();
    Ok(in_front && between && behind)
}

#[test]
fn lowest_free_descriptor_is_found(rt: HostRuntime) -> Result<(), Fail> {
    let mut descriptors = Descriptors::new(rt.alloc());
    assert!(rt; lowest_is_found(&mut descriptors)?);
    Ok(())
}

/// Open on node 3, at byte 10.
const OPEN: Description = Description {
    node: 3,
    access: Access::Both,
    append: false,
    position: 10,
};

/// No descriptions, in a box: a test that owns one is proved in less time.
fn no_descriptions(alloc: Global) -> Result<Box<Descriptions>, AllocError> {
    Ok(Box::new(alloc, Descriptions::new(alloc))?)
}

/// Adds the descriptions 0 and 1, both on node 3 at byte 10.
fn add_two(descriptions: &mut Descriptions) -> Result<(), AllocError> {
    descriptions.set(0, OPEN)?;
    descriptions.set(1, OPEN)
}

/// Whether one position moves, which tells descriptions apart, and then a description goes alone;
/// one that isn't there changes nothing.
fn one_moves(descriptions: &mut Descriptions, others: &Descriptions) -> bool {
    descriptions.set_position(2, 5);
    descriptions.remove(6);
    let alike = descriptions.same(others);
    descriptions.set_position(1, 64);
    let unlike = !descriptions.same(others) && descriptions.position(0) == Some(10);
    descriptions.remove(0);
    let node = descriptions.get(1).map(|description| description.node);
    let one_left = descriptions.position(0).is_none() && descriptions.position(1) == Some(64);
    alike && unlike && one_left && node == Some(3)
}

/// The same of two tables without descriptions, to which two are added.
fn positions_tell(
    descriptions: &mut Descriptions,
    others: &mut Descriptions,
) -> Result<bool, AllocError> {
    add_two(descriptions)?;
    add_two(others)?;
    Ok(one_moves(descriptions, others))
}

#[test]
fn positions_tell_descriptions_apart(rt: HostRuntime) -> Result<(), Fail> {
    let mut descriptions = no_descriptions(rt.alloc())?;
    let mut others = no_descriptions(rt.alloc())?;
    assert!(rt; positions_tell(&mut descriptions, &mut others)?);
    Ok(())
}

/// The first description on another node.
const ON_NODE_4: Description = Description {
    node: 4,
    access: Access::Read,
    append: false,
    position: 0,
};

/// Whether of the descriptions 0 on node 4 and 1 on node 3 the second alone stays, with its node
/// marked, where a set has the numbers 1 and 2.
fn held_stay(alloc: Global, descriptions: &mut Descriptions) -> Result<bool, AllocError> {
    descriptions.set(0, ON_NODE_4)?;
    descriptions.set(1, OPEN)?;
    let mut held = IndexSet::new(alloc);
    held.insert(1)?;
    held.insert(2)?;
    let mut nodes = IndexSet::new(alloc);
    descriptions.mark_nodes(&held, &mut nodes)?;
    let marked = nodes.contains(&3) && !nodes.contains(&4) && !nodes.contains(&1);
    let both = descriptions.len() == 2;
    descriptions.keep_only(&held);
    let one_left = descriptions.get(0).is_none() && descriptions.position(1) == Some(10);
    Ok(marked && both && one_left && descriptions.len() == 1)
}

#[test]
fn descriptions_that_are_held_stay(rt: HostRuntime) -> Result<(), Fail> {
    let mut descriptions = no_descriptions(rt.alloc())?;
    assert!(rt; held_stay(rt.alloc(), &mut descriptions)?);
    Ok(())
}

/// Whether buffer 9 of ring 2 has just these bytes from a place on.
fn holds(buffers: &Buffers, at: u64, bytes: &[u8]) -> Result<bool, AllocError> {
    let end = at.saturating_add(bytes.len() as u64);
    if buffers.len(2, 9) != Some(end) {
        return Ok(false);
    }
    Ok(buffers.read(2, 9, at, end)?.as_slice() == bytes)
}

/// Whether bytes of a buffer that are shared stay what they were where they are cut out.
fn shares_what_is_cut(buffers: &mut Buffers) -> Result<bool, AllocError> {
    if buffers.len(2, 9) != Some(8) {
        return Ok(false);
    }
    let shared = buffers.share(2, 9, 2, 5)?;
    Ok(buffers.cut(2, 9, 2, 5)?.same(&shared))
}

/// Whether a part that is cut out leaves zeros, and can be put back elsewhere.
fn part_moves(buffers: &mut Buffers) -> Result<bool, AllocError> {
    if buffers.len(2, 9) != Some(8) {
        return Ok(false);
    }
    let part = buffers.cut(2, 9, 5, 8)?;
    if part.len() != 3 || buffers.len(2, 9) != Some(8) {
        return Ok(false);
    }
    buffers.put_back(2, 9, 3, part)?;
    holds(buffers, 0, b"ab\0fgh\0\0")
}

/// Whether parts of a buffer of eight bytes are shared, cut out and put back.
fn parts_are_taken(buffers: &mut Buffers) -> Result<bool, AllocError> {
    buffers.add(2, 9, 8)?;
    buffers.write(2, 9, 0, b"abcdefgh")?;
    Ok(shares_what_is_cut(buffers)? && part_moves(buffers)?)
}

#[test]
fn parts_of_buffers(rt: HostRuntime) -> Result<(), Fail> {
    let mut buffers = Buffers::new(rt.alloc());
    assert!(rt; parts_are_taken(&mut buffers)?);
    Ok(())
}

/// Whether the last bytes but one lie over those of the other table's buffer in the same place.
fn copies_the_end(source: &Buffers, buffers: &mut Buffers) -> Result<bool, AllocError> {
    if source.len(2, 9) != Some(MAX_LEN) || buffers.len(2, 9) != Some(MAX_LEN) {
        return Ok(false);
    }
    buffers.copy_range(source, 2, 9, MAX_LEN - 3, MAX_LEN - 1)?;
    holds(buffers, MAX_LEN - 4, b"\0\0eN")
}

/// Whether bytes at the end tell buffers of 2^40 bytes apart, and those past it don't, and a range
/// of them is copied.
fn ends_tell(buffers: &mut Buffers, others: &mut Buffers) -> Result<bool, AllocError> {
    buffers.add_zeros(2, 9, MAX_LEN)?;
    others.add_zeros(2, 9, MAX_LEN)?;
    let alike = buffers.same(others) && buffers.len(2, 8).is_none();
    buffers.write(2, 9, MAX_LEN - 2, b"ends")?;
    others.write(2, 9, MAX_LEN - 2, b"EN")?;
    let unlike = !buffers.same(others);
    Ok(alike && unlike && copies_the_end(buffers, others)?)
}

#[test]
fn a_buffer_takes_no_memory_by_its_length(rt: HostRuntime) -> Result<(), Fail> {
    let mut buffers = Buffers::new(rt.alloc());
    let mut others = Buffers::new(rt.alloc());
    assert!(rt; ends_tell(&mut buffers, &mut others)?);
    Ok(())
}

/// Whether bytes of a text lie over those of a buffer of eight bytes from the fifth one on, as far as
/// it has room.
fn takes_a_text(buffers: &mut Buffers, text: &Blob) -> Result<bool, AllocError> {
    buffers.add_zeros(2, 9, 8)?;
    let Some(bytes) = text.slice() else {
        return Ok(false);
    };
    buffers.write_text(2, 9, 5, bytes)?;
    buffers.write_text(2, 9, 8, bytes)?;
    holds(buffers, 3, b"\0\0abc")
}

#[test]
fn a_buffer_takes_a_text(rt: HostRuntime) -> Result<(), Fail> {
    let mut buffers = Buffers::new(rt.alloc());
    let text = Blob::from_vec(rt.alloc(), Vec::from_slice(rt.alloc(), b"abcdef")?)?;
    assert!(rt; takes_a_text(&mut buffers, &text)?);
    Ok(())
}
