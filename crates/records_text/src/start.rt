//! The lines before the records.
ghost use Rattle.std.specs.Prelude.{◌≡◌, ◌==◌, ◌++◌, OnOk};
ghost use Rattle.std.specs.List.{flat_map};
ghost use Rattle.trace_records.specs.Fields.{end_of};
ghost use Rattle.trace_records.specs.Start.{range_end};
ghost use Rattle.trace_text.specs.Shown.{numbered};
ghost use Rattle.records_text.specs.Shown.{description_line, file_words, item_kind, item_line};
ghost use Rattle.records_text.specs.Shown.{node_text, node_words, range_words, ranges_words};

use std::alloc::AllocError;
use text_forms::{push_bytes, push_decimal, push_path};
use trace_format::Description;
use trace_records::{Item, Node, Range};
use trace_text::{
    Look, push_data, push_item_number, push_key, push_number, push_opening, push_path_or_number,
};

/// An item by its number: its path where that is not long.
fn push_node(text: &mut Vec<u8>, items: &[Item], number: u32) -> Result<(), AllocError>
    ensures { OnOk result (text.new.items ≡ text.old.items ++ node_text items.now number) }
{
    if number == 0 {
        return push_bytes(text, b"/");
    }
    match items.get(number as usize - 1) {
        Some(item) => push_path_or_number(text, number, item.path.as_slice()),
        None => push_item_number(text, number),
    }
}

/// A range behind another.
fn push_range(text: &mut Vec<u8>, look: Look, range: &Range) -> Result<(), AllocError>
    ensures { OnOk result (text.new.items ≡ text.old.items ++ range_words look range.now) }
{
    push_key(text, b"at")?;
    push_decimal(text, range.offset)?;
    push_data(text, look, b" \\\n  ", range.bytes.as_slice())
}

fn push_further(text: &mut Vec<u8>, look: Look, ranges: &[Range]) -> Result<(), AllocError>
    ensures { OnOk result
        (text.new.items ≡ text.old.items ++ flat_map (range_words look) ranges.now) }
{
    for range in ranges {
        push_range(text, look, range)?;
    }
    Ok(())
}

/// The ranges of a file.
fn push_ranges(text: &mut Vec<u8>, look: Look, ranges: &[Range]) -> Result<(), AllocError>
    ensures { OnOk result (text.new.items ≡ text.old.items ++ ranges_words look ranges.now) }
{
    let [first, further @ ..] = ranges else {
        return Ok(());
    };
    push_number(text, b"at", first.offset)?;
    push_data(text, look, b" \\\n  ", first.bytes.as_slice())?;
    push_further(text, look, further)
}

/// Whether a range ends there.
fn ends_at(range: &Range, end: u64) -> bool
    ensures { result ≡ (range_end range.now == end) }
{
    let len = range.bytes.as_slice().len() as u64;
    end >= len && end - len == range.offset
}

/// Whether a file ends with its last range, or is empty and has none.
#[tactic(auto, using(crate::proofs::Ends::last_end))]
fn ends_with(size: u64, ranges: &[Range]) -> bool
    ensures { result ≡ (end_of range_end 0 ranges.now == size) }
{
    if ranges.is_empty() {
        return size == 0;
    }
    ends_at(&ranges[ranges.len() - 1], size)
}

/// What follows the path of a file: its size, where it ends elsewhere, and its ranges.
fn push_file(text: &mut Vec<u8>, look: Look, size: u64, ranges: &[Range]) -> Result<(), AllocError>
    ensures { OnOk result (text.new.items ≡ text.old.items ++ file_words look size ranges.now) }
{
    if !ends_with(size, ranges) {
        push_key(text, b"size")?;
        push_decimal(text, size)?;
    }
    push_ranges(text, look, ranges)
}

/// The word of an item's line.
fn item_kind(node: &Node) -> &'static [u8]
    ensures { result.now ≡ item_kind node.now }
{
    match node {
        Node::Directory => b"dir ",
        Node::File { size: _, ranges: _ } => b"file ",
        Node::OtherName { number: _ } => b"name ",
    }
}

/// What follows the path of an item.
fn push_node_words(
    text: &mut Vec<u8>,
    look: Look,
    items: &[Item],
    node: &Node,
) -> Result<(), AllocError>
    ensures { OnOk result (text.new.items
        ≡ text.old.items ++ node_words look items.now node.now) }
{
    match node {
        Node::Directory => Ok(()),
        Node::File { size, ranges } => push_file(text, look, *size, ranges.as_slice()),
        Node::OtherName { number } => {
            push_key(text, b"of")?;
            push_node(text, items, *number)
        }
    }
}

/// An initial name.
fn push_item(text: &mut Vec<u8>, look: Look, items: &[Item], item: &Item) -> Result<(), AllocError>
    ensures { OnOk result (text.new.items ≡ text.old.items ++ item_line look items.now item.now) }
{
    push_bytes(text, item_kind(&item.node))?;
    push_path(text, item.path.as_slice())?;
    push_node_words(text, look, items, &item.node)?;
    push_bytes(text, b"\n")
}

pub(crate) fn push_items(text: &mut Vec<u8>, look: Look, items: &[Item]) -> Result<(), AllocError>
    ensures { OnOk result
        (text.new.items ≡ text.old.items ++ flat_map (item_line look items.now) items.now) }
{
    for item in items {
        push_item(text, look, items, item)?;
    }
    Ok(())
}

/// An open file description, by its number.
fn push_description(
    text: &mut Vec<u8>,
    items: &[Item],
    number: usize,
    description: &Description,
) -> Result<(), AllocError>
    ensures { OnOk result (text.new.items
        ≡ text.old.items ++ description_line items.now number description.now) }
{
    push_bytes(text, b"open ")?;
    push_decimal(text, number as u64)?;
    push_bytes(text, b" ")?;
    push_node(text, items, description.node)?;
    push_opening(text, description)
}

pub(crate) fn push_descriptions(
    text: &mut Vec<u8>,
    items: &[Item],
    descriptions: &[Description],
) -> Result<(), AllocError>
    ensures { OnOk result (text.new.items
        ≡ text.old.items ++ numbered (description_line items.now) 0 descriptions.now) }
{
    for number in 0..descriptions.len() {
        push_description(text, items, number, &descriptions[number])?;
    }
    Ok(())
}
