//! The lines of a trace.
ghost use Rattle.std.specs.Prelude.{◌≡◌, ◌≤◌, ◌+◌, ◌-◌, ◌++◌, OnOk, codes, length};
ghost use Rattle.std.specs.List.{flat_map};
ghost use Rattle.std.specs.Fmt.{decimal};
ghost use Rattle.trace_format.specs.Counts.{places_in, places_limit, step_count};
ghost use Rattle.trace_text.specs.Fields.{decimal_word};
ghost use Rattle.trace_text.specs.Entry.{entry_line};
ghost use Rattle.trace_text.specs.Shown.{access_text, buffer_line, description_line, empty_slots};
ghost use Rattle.trace_text.specs.Shown.{enter_line, file_words, fill_words};
ghost use Rattle.trace_text.specs.Shown.{item_kind, item_line, node_text, node_words, numbered};
ghost use Rattle.trace_text.specs.Shown.{path_or_number, record_lines, records_from, ring_lines};
ghost use Rattle.trace_text.specs.Shown.{slots_from, slots_line};

use crate::entry::{push_data, push_entry, push_place};
use crate::fields::{push_key, push_number};
use crate::look::Look;
use std::alloc::AllocError;
use text_forms::{push_bytes, push_decimal, push_hexadecimal, push_path};
use trace_format::{Access, Buffer, Description, Entries, Item, Node, Record, Ring};

/// The longest path that stands for its item: others stand by their numbers.
const LONGEST: usize = 64;

/// An item: its path where that is not long, else its number.
///
/// # Errors
///
/// Out of memory.
pub fn push_path_or_number(text: &mut Vec<u8>, number: u32, path: &[u8]) -> Result<(), AllocError>
    ensures { OnOk result (text.new.items ≡ text.old.items ++ path_or_number number path.now) }
{
    if path.len() <= LONGEST {
        push_path(text, path)
    } else {
        push_item_number(text, number)
    }
}

/// The number of an item.
///
/// # Errors
///
/// Out of memory.
pub fn push_item_number(text: &mut Vec<u8>, number: u32) -> Result<(), AllocError>
    ensures { OnOk result (text.new.items ≡ text.old.items ++ (codes "@" ++ decimal number)) }
{
    push_bytes(text, b"@")?;
    push_decimal(text, number as u64)
}

/// An item by its number: its path where that is not long.
fn push_node(text: &mut Vec<u8>, items: &[Item], number: u32) -> Result<(), AllocError>
    ensures { OnOk result (text.new.items ≡ text.old.items ++ node_text items.now number) }
{
    if number == 0 {
        return push_bytes(text, b"/");
    }
    match items.get(number as usize - 1) {
        Some(item) => push_path_or_number(text, number, item.path.as_slice()),
        None => push_item_number(text, number),
    }
}

/// The word of an item's line.
fn item_kind(node: &Node) -> &'static [u8]
    ensures { result.now ≡ item_kind node.now }
{
    match node {
        Node::Directory => b"dir ",
        Node::File { size: _, stored: _ } => b"file ",
        Node::OtherName { number: _ } => b"name ",
    }
}

/// What follows the path of a file: its size, where it is another than that of its bytes, and
/// these.
fn push_file(text: &mut Vec<u8>, look: Look, size: u64, stored: &[u8]) -> Result<(), AllocError>
    ensures { OnOk result (text.new.items
        ≡ text.old.items ++ file_words look size stored.now) }
{
    if size != stored.len() as u64 {
        push_key(text, b"size")?;
        push_decimal(text, size)?;
    }
    push_data(text, look, b" \\\n  ", stored)
}

/// What follows the path of an item.
fn push_node_words(
    text: &mut Vec<u8>,
    look: Look,
    items: &[Item],
    node: &Node,
) -> Result<(), AllocError>
    ensures { OnOk result (text.new.items
        ≡ text.old.items ++ node_words look items.now node.now) }
{
    match node {
        Node::Directory => Ok(()),
        Node::File { size, stored } => push_file(text, look, *size, stored.as_slice()),
        Node::OtherName { number } => {
            push_key(text, b"of")?;
            push_node(text, items, *number)
        }
    }
}

/// An initial name.
fn push_item(text: &mut Vec<u8>, look: Look, items: &[Item], item: &Item) -> Result<(), AllocError>
    ensures { OnOk result (text.new.items ≡ text.old.items ++ item_line look items.now item.now) }
{
    push_bytes(text, item_kind(&item.node))?;
    push_path(text, item.path.as_slice())?;
    push_node_words(text, look, items, &item.node)?;
    push_bytes(text, b"\n")
}

pub(crate) fn push_items(text: &mut Vec<u8>, look: Look, items: &[Item]) -> Result<(), AllocError>
    ensures { OnOk result
        (text.new.items ≡ text.old.items ++ flat_map (item_line look items.now) items.now) }
{
    for item in items {
        push_item(text, look, items, item)?;
    }
    Ok(())
}

fn access_text(access: Access, append: bool) -> &'static [u8]
    ensures { result.now ≡ access_text access append }
{
    match (access, append) {
        (Access::Read, false) => b" O_RDONLY",
        (Access::Write, false) => b" O_WRONLY",
        (Access::Both, false) => b" O_RDWR",
        (Access::Read, true) => b" O_RDONLY|O_APPEND",
        (Access::Write, true) => b" O_WRONLY|O_APPEND",
        (Access::Both, true) => b" O_RDWR|O_APPEND",
    }
}

/// An open file description, by its number.
fn push_description(
    text: &mut Vec<u8>,
    items: &[Item],
    number: usize,
    description: &Description,
) -> Result<(), AllocError>
    ensures { OnOk result (text.new.items
        ≡ text.old.items ++ description_line items.now number description.now) }
{
    push_bytes(text, b"open ")?;
    push_decimal(text, number as u64)?;
    push_bytes(text, b" ")?;
    push_node(text, items, description.node)?;
    push_opening(text, description)
}

/// How the line of a description ends behind its node.
///
/// # Errors
///
/// Out of memory.
pub fn push_opening(text: &mut Vec<u8>, description: &Description) -> Result<(), AllocError>
    ensures { OnOk result (text.new.items ≡ text.old.items
        ++ (access_text description.now.access description.now.append
        ++ decimal_word (codes "pos") description.now.position ++ codes "\n")) }
{
    push_bytes(text, access_text(description.access, description.append))?;
    push_number(text, b"pos", description.position)?;
    push_bytes(text, b"\n")
}

pub(crate) fn push_descriptions(
    text: &mut Vec<u8>,
    items: &[Item],
    descriptions: &[Description],
) -> Result<(), AllocError>
    ensures { OnOk result (text.new.items
        ≡ text.old.items ++ numbered (description_line items.now) 0 descriptions.now) }
{
    for number in 0..descriptions.len() {
        push_description(text, items, number, &descriptions[number])?;
    }
    Ok(())
}

/// So many empty slots.
///
/// # Errors
///
/// Out of memory.
pub fn push_empty(text: &mut Vec<u8>, count: usize) -> Result<(), AllocError>
    ensures { OnOk result (text.new.items ≡ text.old.items ++ empty_slots count) }
{
    match count {
        0 => Ok(()),
        1 => push_bytes(text, b" -"),
        _ => {
            push_bytes(text, b" -*")?;
            push_decimal(text, count as u64)
        }
    }
}

/// A slot that is not empty, behind so many empty ones.
fn push_slot(text: &mut Vec<u8>, empty: usize, slot: u32) -> Result<(), AllocError>
    requires { 1 ≤ slot }
    ensures { OnOk result (text.new.items
        ≡ text.old.items ++ (empty_slots empty ++ codes " " ++ decimal (slot - 1))) }
{
    push_empty(text, empty)?;
    push_bytes(text, b" ")?;
    push_decimal(text, slot as u64 - 1)
}

fn push_slots_from(text: &mut Vec<u8>, slots: &[u32]) -> Result<(), AllocError>
    ensures { OnOk result (text.new.items ≡ text.old.items ++ slots_from 0 slots.now) }
{
    let mut empty = 0;
    for slot in slots {
        if *slot == 0 {
            empty += 1;
        } else {
            push_slot(text, empty, *slot)?;
            empty = 0;
        }
    }
    push_empty(text, empty)
}

/// The line of slots, where there are some.
pub(crate) fn push_slots(text: &mut Vec<u8>, word: &[u8], slots: &[u32]) -> Result<(), AllocError>
    ensures { OnOk result (text.new.items ≡ text.old.items ++ slots_line word.now slots.now) }
{
    if slots.is_empty() {
        return Ok(());
    }
    push_bytes(text, word)?;
    push_slots_from(text, slots)?;
    push_bytes(text, b"\n")
}

/// A registered buffer, by its number.
fn push_buffer(text: &mut Vec<u8>, number: usize, buffer: &Buffer) -> Result<(), AllocError>
    ensures { OnOk result (text.new.items ≡ text.old.items ++ buffer_line number buffer.now) }
{
    push_bytes(text, b"  buffer ")?;
    push_decimal(text, number as u64)?;
    push_bytes(text, b" ")?;
    push_hexadecimal(text, buffer.address)?;
    push_bytes(text, b" ")?;
    push_decimal(text, buffer.len as u64)?;
    push_bytes(text, b"\n")
}

/// The registered buffers of a ring, numbered from 0.
///
/// # Errors
///
/// Out of memory.
pub fn push_buffers(text: &mut Vec<u8>, buffers: &[Buffer]) -> Result<(), AllocError>
    ensures { OnOk result (text.new.items ≡ text.old.items ++ numbered buffer_line 0 buffers.now) }
{
    for number in 0..buffers.len() {
        push_buffer(text, number, &buffers[number])?;
    }
    Ok(())
}

/// A ring, by its number.
fn push_ring(text: &mut Vec<u8>, number: usize, ring: &Ring) -> Result<(), AllocError>
    ensures { OnOk result (text.new.items ≡ text.old.items ++ ring_lines number ring.now) }
{
    push_bytes(text, b"ring ")?;
    push_decimal(text, number as u64)?;
    push_bytes(text, b"\n")?;
    push_slots(text, b"  slots", ring.slots.as_slice())?;
    push_buffers(text, ring.buffers.as_slice())
}

pub(crate) fn push_rings(text: &mut Vec<u8>, rings: &[Ring]) -> Result<(), AllocError>
    ensures { OnOk result (text.new.items ≡ text.old.items ++ numbered ring_lines 0 rings.now) }
{
    for number in 0..rings.len() {
        push_ring(text, number, &rings[number])?;
    }
    Ok(())
}

/// Entries, from a place on.
fn push_entries(
    text: &mut Vec<u8>,
    look: Look,
    place: usize,
    entries: &Entries,
) -> Result<(), AllocError>
    requires { place + length entries.now ≤ places_limit }
    ensures { OnOk result (text.new.items
        ≡ text.old.items ++ numbered (entry_line look) place entries.now) }
{
    for number in 0..entries.len() {
        push_entry(text, look, (place + number) as u64, entries.at(number))?;
    }
    Ok(())
}

/// The line that begins what a ring was handed.
///
/// # Errors
///
/// Out of memory.
pub fn push_enter(text: &mut Vec<u8>, ring: u32) -> Result<(), AllocError>
    ensures { OnOk result
        (text.new.items ≡ text.old.items ++ enter_line ring) }
{
    push_bytes(text, b"enter ")?;
    push_decimal(text, ring as u64)?;
    push_bytes(text, b"\n")
}

/// How the line of a fill begins.
///
/// # Errors
///
/// Out of memory.
pub fn push_fill(text: &mut Vec<u8>, ring: u32, buffer: u16, offset: u32) -> Result<(), AllocError>
    ensures { OnOk result (text.new.items ≡ text.old.items ++ fill_words ring buffer offset) }
{
    push_bytes(text, b"fill ")?;
    push_decimal(text, ring as u64)?;
    push_key(text, b"buffer")?;
    push_decimal(text, buffer as u64)?;
    push_number(text, b"at", offset as u64)
}

/// A record, from a place on.
fn push_record(
    text: &mut Vec<u8>,
    look: Look,
    place: usize,
    made: &Record,
) -> Result<(), AllocError>
    requires { place + step_count made.now ≤ places_limit }
    ensures { OnOk result (text.new.items ≡ text.old.items ++ record_lines look place made.now) }
{
    match made {
        Record::Enter { ring, entries } => {
            push_enter(text, u32::from(*ring))?;
            push_entries(text, look, place, entries)
        }
        Record::Fill {
            ring,
            buffer,
            offset,
            bytes,
        } => {
            push_place(text, look, b"", place as u64)?;
            push_fill(text, u32::from(*ring), *buffer, *offset)?;
            push_data(text, look, b" \\\n  ", bytes.as_slice())?;
            push_bytes(text, b"\n")
        }
    }
}

/// All records, which have at most as many steps as a trace.
pub(crate) fn push_records(
    text: &mut Vec<u8>,
    look: Look,
    records: &[Record],
) -> Result<(), AllocError>
    requires { places_in records.now ≤ places_limit }
    ensures { OnOk result (text.new.items ≡ text.old.items ++ records_from look 0 records.now) }
{
    let mut place = 0;
    for made in records {
        push_record(text, look, place, made)?;
        place += step_count(made);
    }
    Ok(())
}

/// How many steps a record has.
fn step_count(made: &Record) -> usize
    ensures { result ≡ step_count made.now }
{
    match made {
        Record::Enter { ring: _, entries } => entries.len(),
        Record::Fill {
            ring: _,
            buffer: _,
            offset: _,
            bytes: _,
        } => 1,
    }
}
