//! Writing a trace.
ghost use Rattle.std.specs.Prelude.{◌≡◌, ◌∷◌, ◌++◌, OnOk, IfOk};
ghost use Rattle.std.specs.List.{flat_map};
ghost use Rattle.std.specs.Int.{w16, w32, to_le_bytes};
ghost use Rattle.trace_format.specs.Spelling.{access_number, flag, description_bytes, buffer_bytes};
ghost use Rattle.trace_records.specs.Spelling.{range_bytes, kind_of, node_bytes, item_bytes};
ghost use Rattle.trace_records.specs.Spelling.{descriptor_bytes, header_bytes, start_bytes};
ghost use Rattle.trace_records.specs.Spelling.{beside_bytes, entry_text, filling_bytes};
ghost use Rattle.trace_records.specs.Spelling.{holder_bytes, full_slot_bytes, queue_number};
ghost use Rattle.trace_records.specs.Spelling.{file_bytes, content_bytes};
ghost use Rattle.trace_records.specs.Spelling.{ring_bytes, record_bytes, end_bytes, trace_bytes};

use crate::record::{Beside, Content, Entry, FileAt, Filling, FullSlot, Holder, Record, Ring};
use crate::start::{Descriptor, Item, Node, Range, Start};
use crate::trace::Trace;
use sqe_codec::pack;
use std::alloc::{AllocError, Global};
use trace_format::{Access, Buffer, Description, Given};

/// The lower two bytes of a count.
fn put_u16(out: &mut Vec<u8>, n: usize) -> Result<(), AllocError>
    ensures { OnOk result (out.new.items ≡ out.old.items ++ to_le_bytes w16 n) }
{
    let [b0, b1, _, _, _, _, _, _] = (n as u64).to_le_bytes();
    out.extend_from_slice(&[b0, b1])
}

/// The lower four bytes of a count.
fn put_u32(out: &mut Vec<u8>, n: usize) -> Result<(), AllocError>
    ensures { OnOk result (out.new.items ≡ out.old.items ++ to_le_bytes w32 n) }
{
    let [b0, b1, b2, b3, _, _, _, _] = (n as u64).to_le_bytes();
    out.extend_from_slice(&[b0, b1, b2, b3])
}

fn put_range(out: &mut Vec<u8>, range: &Range) -> Result<(), AllocError>
    ensures { OnOk result (out.new.items ≡ out.old.items ++ range_bytes range.now) }
{
    out.extend_from_slice(&range.offset.to_le_bytes())?;
    put_u32(out, range.bytes.as_slice().len())?;
    out.extend_from_slice(range.bytes.as_slice())
}

fn put_ranges(out: &mut Vec<u8>, ranges: &[Range]) -> Result<(), AllocError>
    ensures { OnOk result (out.new.items ≡ out.old.items ++ flat_map range_bytes ranges.now) }
{
    for range in ranges {
        put_range(out, range)?;
    }
    Ok(())
}

fn put_node(out: &mut Vec<u8>, node: &Node) -> Result<(), AllocError>
    ensures { OnOk result (out.new.items ≡ out.old.items ++ node_bytes node.now) }
{
    match node {
        Node::Directory => Ok(()),
        Node::File { size, ranges } => {
            out.extend_from_slice(&size.to_le_bytes())?;
            put_u32(out, ranges.as_slice().len())?;
            put_ranges(out, ranges.as_slice())
        }
        Node::OtherName { number } => { out.extend_from_slice(&number.to_le_bytes()) }
    }
}

fn kind_of(node: &Node) -> u8
    ensures { result ≡ kind_of node.now }
{
    match node {
        Node::Directory => 1,
        Node::File { size: _, ranges: _ } => 2,
        Node::OtherName { number: _ } => 3,
    }
}

fn put_item(out: &mut Vec<u8>, item: &Item) -> Result<(), AllocError>
    ensures { OnOk result (out.new.items ≡ out.old.items ++ item_bytes item.now) }
{
    out.push(kind_of(&item.node))?;
    put_u16(out, item.path.as_slice().len())?;
    out.extend_from_slice(item.path.as_slice())?;
    put_node(out, &item.node)
}

fn put_items(out: &mut Vec<u8>, items: &[Item]) -> Result<(), AllocError>
    ensures { OnOk result (out.new.items ≡ out.old.items ++ flat_map item_bytes items.now) }
{
    for item in items {
        put_item(out, item)?;
    }
    Ok(())
}

fn access_number(access: Access) -> u8
    ensures { result ≡ access_number access }
{
    match access {
        Access::Read => 0,
        Access::Write => 1,
        Access::Both => 2,
    }
}

fn flag(value: bool) -> u8
    ensures { result ≡ flag value }
{
    if value { 1 } else { 0 }
}

fn put_description(out: &mut Vec<u8>, description: &Description) -> Result<(), AllocError>
    ensures { OnOk result (out.new.items ≡ out.old.items ++ description_bytes description.now) }
{
    out.extend_from_slice(&description.node.to_le_bytes())?;
    out.extend_from_slice(&[access_number(description.access), flag(description.append)])?;
    out.extend_from_slice(&description.position.to_le_bytes())
}

fn put_descriptions(out: &mut Vec<u8>, descriptions: &[Description]) -> Result<(), AllocError>
    ensures { OnOk result
        (out.new.items ≡ out.old.items ++ flat_map description_bytes descriptions.now) }
{
    for description in descriptions {
        put_description(out, description)?;
    }
    Ok(())
}

fn put_descriptor(out: &mut Vec<u8>, descriptor: &Descriptor) -> Result<(), AllocError>
    ensures { OnOk result (out.new.items ≡ out.old.items ++ descriptor_bytes descriptor.now) }
{
    out.extend_from_slice(&descriptor.number.to_le_bytes())?;
    out.extend_from_slice(&descriptor.description.to_le_bytes())
}

fn put_descriptors(out: &mut Vec<u8>, descriptors: &[Descriptor]) -> Result<(), AllocError>
    ensures { OnOk result
        (out.new.items ≡ out.old.items ++ flat_map descriptor_bytes descriptors.now) }
{
    for descriptor in descriptors {
        put_descriptor(out, descriptor)?;
    }
    Ok(())
}

fn put_header(out: &mut Vec<u8>, start: &Start) -> Result<(), AllocError>
    ensures { OnOk result (out.new.items ≡ out.old.items ++ header_bytes start.now) }
{
    out.extend_from_slice(b"URINGTRC".as_slice())?;
    put_u32(out, 3)?;
    put_u32(out, start.items.as_slice().len())?;
    put_u32(out, start.descriptions.as_slice().len())?;
    out.extend_from_slice(&start.table_size.to_le_bytes())?;
    put_u32(out, start.descriptors.as_slice().len())?;
    put_u32(out, 0)?;
    Ok(())
}

/// Adds the bytes of a start, which begin a trace.
///
/// # Errors
///
/// `AllocError` where an allocation was refused. A part of the bytes may stand there then.
pub fn write_start(out: &mut Vec<u8>, start: &Start) -> Result<(), AllocError>
    ensures { OnOk result (out.new.items ≡ out.old.items ++ start_bytes start.now) }
{
    put_header(out, start)?;
    put_items(out, start.items.as_slice())?;
    put_descriptions(out, start.descriptions.as_slice())?;
    put_descriptors(out, start.descriptors.as_slice())
}

fn put_buffer(out: &mut Vec<u8>, buffer: &Buffer) -> Result<(), AllocError>
    ensures { OnOk result (out.new.items ≡ out.old.items ++ buffer_bytes buffer.now) }
{
    out.extend_from_slice(&buffer.address.to_le_bytes())?;
    out.extend_from_slice(&buffer.len.to_le_bytes())
}

fn put_buffers(out: &mut Vec<u8>, buffers: &[Buffer]) -> Result<(), AllocError>
    ensures { OnOk result (out.new.items ≡ out.old.items ++ flat_map buffer_bytes buffers.now) }
{
    for buffer in buffers {
        put_buffer(out, buffer)?;
    }
    Ok(())
}

/// Form and result, and whether that is a failure.
fn put_given(out: &mut Vec<u8>, given: Given) -> Result<(), AllocError>
    ensures { OnOk result (out.new.items ≡ out.old.items ++ beside_bytes (Beside.Given given)) }
{
    match given {
        Given::Passed { result, fails } => {
            out.push(2)?;
            out.extend_from_slice(&result.to_le_bytes())?;
            out.extend_from_slice(&[flag(fails)])
        }
        Given::Refused { error } => {
            out.push(3)?;
            put_u32(out, 0x1_0000_0000 - usize::from(error))
        }
    }
}

fn put_beside(out: &mut Vec<u8>, beside: &Beside) -> Result<(), AllocError>
    ensures { OnOk result (out.new.items ≡ out.old.items ++ beside_bytes beside.now) }
{
    match beside {
        Beside::Stored { bytes } => {
            out.push(0)?;
            put_u32(out, bytes.as_slice().len())?;
            out.extend_from_slice(bytes.as_slice())
        }
        Beside::Zeros { lengths, len } => {
            out.push(1)?;
            out.extend_from_slice(&len.to_le_bytes())?;
            out.extend_from_slice(lengths.as_slice())
        }
        Beside::Given { given } => put_given(out, *given),
    }
}

#[tactic(auto, unfolding(crate::specs::Spelling::entry_text))]
fn put_entry(out: &mut Vec<u8>, entry: &Entry) -> Result<(), AllocError>
    ensures { OnOk result (out.new.items ≡ out.old.items ++ entry_text entry.now) }
{
    out.extend_from_slice(&pack(&entry.sqe))?;
    put_beside(out, &entry.beside)?;
    Ok(())
}

fn put_entries(out: &mut Vec<u8>, entries: &[Entry]) -> Result<(), AllocError>
    ensures { OnOk result (out.new.items ≡ out.old.items ++ flat_map entry_text entries.now) }
{
    for entry in entries {
        put_entry(out, entry)?;
    }
    Ok(())
}

fn put_filling(out: &mut Vec<u8>, offset: u32, filling: &Filling) -> Result<(), AllocError>
    ensures { OnOk result (out.new.items ≡ out.old.items ++ filling_bytes offset filling.now) }
{
    match filling {
        Filling::Stored { bytes } => {
            out.push(0)?;
            out.extend_from_slice(&offset.to_le_bytes())?;
            put_u32(out, bytes.as_slice().len())?;
            out.extend_from_slice(bytes.as_slice())
        }
        Filling::Zeros { len } => {
            out.push(1)?;
            out.extend_from_slice(&offset.to_le_bytes())?;
            out.extend_from_slice(&len.to_le_bytes())
        }
    }
}

/// What holds it, a ring or 0, and a number.
fn put_three(out: &mut Vec<u8>, what: u8, ring: u32, number: u32) -> Result<(), AllocError>
    ensures { OnOk result
        (out.new.items ≡ out.old.items ++ what ∷ to_le_bytes w32 ring ++ to_le_bytes w32 number) }
{
    out.push(what)?;
    out.extend_from_slice(&ring.to_le_bytes())?;
    out.extend_from_slice(&number.to_le_bytes())
}

fn put_file(out: &mut Vec<u8>, file: FileAt) -> Result<(), AllocError>
    ensures { OnOk result (out.new.items ≡ out.old.items ++ file_bytes file) }
{
    match file {
        FileAt::Slot { ring, number } => put_three(out, 0, ring, number),
        FileAt::Descriptor { number } => put_three(out, 1, 0, number),
    }
}

fn put_holder(out: &mut Vec<u8>, holder: Holder) -> Result<(), AllocError>
    ensures { OnOk result (out.new.items ≡ out.old.items ++ holder_bytes holder) }
{
    match holder {
        Holder::Slot { ring, number } => put_file(out, FileAt::Slot { ring, number }),
        Holder::Descriptor { number } => put_file(out, FileAt::Descriptor { number }),
        Holder::Description { number } => put_three(out, 2, 0, number),
    }
}

fn put_full_slot(out: &mut Vec<u8>, slot: &FullSlot) -> Result<(), AllocError>
    ensures { OnOk result (out.new.items ≡ out.old.items ++ full_slot_bytes slot.now) }
{
    out.extend_from_slice(&slot.number.to_le_bytes())?;
    put_holder(out, slot.holds)
}

fn put_full_slots(out: &mut Vec<u8>, slots: &[FullSlot]) -> Result<(), AllocError>
    ensures { OnOk result (out.new.items ≡ out.old.items ++ flat_map full_slot_bytes slots.now) }
{
    for slot in slots {
        put_full_slot(out, slot)?;
    }
    Ok(())
}

/// Flags, a position, and a path with its length, behind the number for these.
fn put_opened(out: &mut Vec<u8>, flags: u32, position: u64, path: &[u8]) -> Result<(), AllocError>
    ensures { OnOk result (out.new.items
        ≡ out.old.items ++ content_bytes (Content.Path flags position path.now)) }
{
    out.push(1)?;
    out.extend_from_slice(&flags.to_le_bytes())?;
    out.extend_from_slice(&position.to_le_bytes())?;
    put_u16(out, path.len())?;
    out.extend_from_slice(path)
}

fn put_content(out: &mut Vec<u8>, content: &Content) -> Result<(), AllocError>
    ensures { OnOk result (out.new.items ≡ out.old.items ++ content_bytes content.now) }
{
    match content {
        Content::Nothing => {
            out.push(0)?;
            Ok(())
        }
        Content::Path {
            flags,
            position,
            path,
        } => put_opened(out, *flags, *position, path.as_slice()),
        Content::Copy { of } => {
            out.push(2)?;
            put_file(out, *of)
        }
        Content::Taken => {
            out.push(3)?;
            Ok(())
        }
    }
}

fn queue_number(queue: Option<u32>) -> u32
    ensures { result ≡ queue_number queue }
{
    match queue {
        None => 4_294_967_295,
        Some(ring) => ring,
    }
}

fn put_ring(out: &mut Vec<u8>, ring: &Ring) -> Result<(), AllocError>
    ensures { OnOk result (out.new.items ≡ out.old.items ++ ring_bytes ring.now) }
{
    out.extend_from_slice(&queue_number(ring.queue).to_le_bytes())?;
    out.extend_from_slice(&ring.slots.to_le_bytes())?;
    put_u32(out, ring.full.as_slice().len())?;
    put_full_slots(out, ring.full.as_slice())?;
    put_u16(out, ring.buffers.as_slice().len())?;
    put_buffers(out, ring.buffers.as_slice())
}

/// Adds the bytes of a record, which stand behind the start of a trace.
///
/// # Errors
///
/// `AllocError` where an allocation was refused. A part of the bytes may stand there then.
pub fn write_record(out: &mut Vec<u8>, made: &Record) -> Result<(), AllocError>
    ensures { OnOk result (out.new.items ≡ out.old.items ++ record_bytes made.now) }
{
    match made {
        Record::Enter { ring, entries } => {
            out.push(1)?;
            out.extend_from_slice(&ring.to_le_bytes())?;
            put_u16(out, entries.as_slice().len())?;
            put_entries(out, entries.as_slice())
        }
        Record::Fill {
            ring,
            buffer,
            offset,
            filling,
        } => {
            out.push(2)?;
            out.extend_from_slice(&ring.to_le_bytes())?;
            out.extend_from_slice(&buffer.to_le_bytes())?;
            put_filling(out, *offset, filling)
        }
        Record::Set { file, content } => {
            out.push(3)?;
            put_file(out, *file)?;
            put_content(out, content)
        }
        Record::Seek { file, position } => {
            out.push(4)?;
            put_file(out, *file)?;
            out.extend_from_slice(&position.to_le_bytes())
        }
        Record::RingStarts { ring } => {
            out.push(5)?;
            put_ring(out, ring)
        }
        Record::RingEnds { ring } => {
            out.push(6)?;
            out.extend_from_slice(&ring.to_le_bytes())
        }
    }
}

/// Adds the byte of the record that ends a trace.
///
/// # Errors
///
/// `AllocError` where an allocation was refused.
pub fn write_end(out: &mut Vec<u8>) -> Result<(), AllocError>
    ensures { OnOk result (out.new.items ≡ out.old.items ++ end_bytes) }
{
    out.push(7)?;
    Ok(())
}

fn put_records(out: &mut Vec<u8>, records: &[Record]) -> Result<(), AllocError>
    ensures { OnOk result (out.new.items ≡ out.old.items ++ flat_map record_bytes records.now) }
{
    for made in records {
        write_record(out, made)?;
    }
    Ok(())
}

/// The bytes of a trace. Where some bytes spell the trace, these are they: it has no other
/// spelling.
///
/// # Errors
///
/// `AllocError` where an allocation was refused.
pub fn write_trace(alloc: Global, trace: &Trace) -> Result<Vec<u8>, AllocError>
    ensures { IfOk result (λ v. v.items ≡ trace_bytes trace.now) }
{
    let mut out = Vec::new(alloc);
    write_start(&mut out, &trace.start)?;
    put_records(&mut out, trace.records.as_slice())?;
    write_end(&mut out)?;
    Ok(out)
}
