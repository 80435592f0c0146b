//! The lines before the records: items, descriptions and the table of descriptors.
ghost use Rattle.std.specs.Prelude.{◌≡◌, ◌<◌, ◌+◌, ◌^◌, [], IfOk, OnOk, length, map};
ghost use Rattle.std.specs.List.{flat_map};
ghost use Rattle.trace_format.specs.Spelling.{description_bytes};
ghost use Rattle.trace_records.specs.Spelling.{descriptor_bytes, item_bytes, range_bytes};
ghost use Rattle.text_words.specs.Read.{Gives, rest_of};
ghost use Rattle.text_trace.specs.Named.{named};
ghost use Rattle.text_records.specs.Start.{all_bytes, descriptions_of, descriptor_of};
ghost use Rattle.text_records.specs.Start.{directory_of, end_of, file_of, items_of, node_of};
ghost use Rattle.text_records.specs.Start.{number_of, one_description, one_item};
ghost use Rattle.text_records.specs.Start.{one_range, other_of, ranges_of, table_of};

use crate::pieces::{Pieces, add_piece};
use crate::slots::{Table, slots_line};
use std::alloc::{AllocError, Global};
use text_trace::{
    ItemKind, Names, begins, description_of, keyed_long, kind_of, next_path, node_at, note_name,
};
use text_words::{
    ReadError, Reason, Source, add_string, behind_first, behind_next, first_word, is_at_end,
    is_string, line_end, next_word, refused, value_at,
};
use trace_format::{Blob, Description, Series};
use trace_records::{Descriptor, FullSlot, Holder, Item, Node, Range};

/// How many items a trace has at most.
const MOST_ITEMS: usize = 16_777_216;

/// How many descriptions a trace has at most.
const MOST_DESCRIPTIONS: usize = 1_048_576;

/// Adds all strings that follow.
fn all_bytes<'a>(
    alloc: Global,
    bytes: &mut Vec<u8>,
    source: Source<'a>,
) -> Result<Source<'a>, ReadError>
    ensures { Gives (λ s. (bytes.new.items, rest_of s)) result
        (all_bytes bytes.old.items (rest_of source.entry)) }
{
    let mut source = source;
    for _ in 0..source.rest.len() {
        if !is_string(source) {
            break;
        }
        source = add_string(alloc, bytes, source)?;
    }
    Ok(source)
}

/// Adds a range.
#[tactic(auto, unfolding(crate::specs::Start::one_range))]
fn add_range<'a>(
    alloc: Global,
    ranges: &mut Vec<Range>,
    source: Source<'a>,
) -> Result<Source<'a>, ReadError>
    ensures { Gives (λ s. (ranges.new.items, rest_of s)) result
        (one_range ranges.old.items (rest_of source.entry)) }
{
    let (offset, source) = keyed_long(b"at", source)?;
    let mut bytes = Vec::new(alloc);
    let source = add_string(alloc, &mut bytes, source)?;
    let source = all_bytes(alloc, &mut bytes, source)?;
    let bytes = Blob::from_vec(alloc, bytes)?;
    let offset = offset.unwrap_or(0);
    ranges.push(Range { offset, bytes })?;
    Ok(source)
}

/// All ranges of a file.
fn ranges_of<'a>(alloc: Global, source: Source<'a>) -> Result<(Vec<Range>, Source<'a>), ReadError>
    ensures { Gives (λ x. (x.0.items, rest_of x.1)) result (ranges_of (rest_of source.entry)) }
{
    let mut ranges = Vec::new(alloc);
    let mut source = source;
    for _ in 0..source.rest.len() {
        if is_at_end(source) {
            break;
        }
        source = add_range(alloc, &mut ranges, source)?;
    }
    Ok((ranges, source))
}

/// Where the last range ends.
fn end_of(ranges: &[Range]) -> u64
    ensures { result ≡ end_of ranges.now }
{
    match ranges.last() {
        None => 0,
        Some(range) => range
            .offset
            .saturating_add(range.bytes.as_slice().len() as u64),
    }
}

/// What a file has.
#[tactic(auto, unfolding(crate::specs::Start::file_of))]
fn file_of(alloc: Global, source: Source<'_>) -> Result<(Node, Source<'_>), ReadError>
    ensures { Gives (λ x. (x.0, rest_of x.1)) result (file_of (rest_of source.entry)) }
{
    let (size, source) = keyed_long(b"size", source)?;
    let (ranges, source) = ranges_of(alloc, source)?;
    let source = line_end(source)?;
    let size = size.unwrap_or(end_of(ranges.as_slice()));
    let ranges = Series::from_vec(ranges);
    Ok((Node::File { size, ranges }, source))
}

/// The file that another name leads to.
#[tactic(auto, unfolding(crate::specs::Start::other_of))]
fn other_of<'a>(
    alloc: Global,
    names: &Names,
    source: Source<'a>,
) -> Result<(Node, Source<'a>), ReadError>
    ensures { Gives (λ x. (x.0, rest_of x.1)) result
        (other_of (named names.now) (rest_of source.entry)) }
{
    let word = next_word(source);
    let Some(value) = value_at(word, b"of") else {
        return Err(refused(Reason::Of, word.left));
    };
    let number = node_at(alloc, names, value)?;
    let source = line_end(behind_next(source))?;
    Ok((Node::OtherName { number }, source))
}

/// A directory has nothing.
#[tactic(auto, unfolding(crate::specs::Start::directory_of))]
fn directory_of(source: Source<'_>) -> Result<(Node, Source<'_>), ReadError>
    ensures { Gives (λ x. (x.0, rest_of x.1)) result (directory_of (rest_of source.entry)) }
{
    let source = line_end(source)?;
    Ok((Node::Directory, source))
}

/// What a name leads to.
fn node_of<'a>(
    alloc: Global,
    names: &Names,
    kind: ItemKind,
    source: Source<'a>,
) -> Result<(Node, Source<'a>), ReadError>
    ensures { Gives (λ x. (x.0, rest_of x.1)) result
        (node_of (named names.now) kind (rest_of source.entry)) }
{
    match kind {
        ItemKind::Directory => directory_of(source),
        ItemKind::File => file_of(alloc, source),
        ItemKind::Name => other_of(alloc, names, source),
    }
}

/// How many bytes ranges have.
fn ranges_len(ranges: &[Range]) -> u128
    ensures len { result ≡ length (flat_map range_bytes ranges.now) }
    ensures within { result < 2 ^ 127 + 2 ^ 68 }
{
    let mut len = 0;
    for range in ranges {
        len += range.bytes.as_slice().len() as u128 + 12;
    }
    len
}

/// How many bytes an item has.
fn item_len(item: &Item) -> u128
    ensures { result ≡ length (item_bytes item.now) }
{
    let node: u128 = match &item.node {
        Node::Directory => 0,
        Node::File { size: _, ranges } => ranges_len(ranges.as_slice()) + 12,
        Node::OtherName { number: _ } => 4,
    };
    item.path.as_slice().len() as u128 + 3 + node
}

/// Adds the item of a line.
#[tactic(auto, unfolding(crate::specs::Start::one_item))]
fn add_item<'a>(
    alloc: Global,
    names: &mut Names,
    items: &mut Vec<Item>,
    pieces: &mut Pieces,
    kind: ItemKind,
    source: Source<'a>,
) -> Result<Source<'a>, ReadError>
    requires { named names.old ≡ number_of items.old.items }
    ensures read { Gives (λ s. (items.new.items, pieces.new.items, rest_of s)) result
        (one_item (items.old.items, pieces.old.items, rest_of source.entry) kind) }
    ensures names { OnOk result (named names.new ≡ number_of items.new.items) }
{
    let word = first_word(source);
    if items.len() >= MOST_ITEMS {
        return Err(refused(Reason::TooMany, word.left));
    }
    let (path, after) = next_path(alloc, behind_first(source))?;
    let (node, after) = node_of(alloc, names, kind, after)?;
    note_name(names, &path, items.len() as u32 + 1)?;
    let path = Blob::from_vec(alloc, path)?;
    let item = Item { path, node };
    add_piece(pieces, item_len(&item), word.left)?;
    items.push(item)?;
    Ok(after)
}

/// All items, and their numbers by their paths.
pub(crate) fn items_of<'a>(
    alloc: Global,
    names: &mut Names,
    pieces: &mut Pieces,
    source: Source<'a>,
) -> Result<(Vec<Item>, Source<'a>), ReadError>
    requires { named names.old ≡ number_of [] }
    ensures read { Gives (λ x. (x.0.items, pieces.new.items, rest_of x.1)) result
        (items_of pieces.old.items (rest_of source.entry)) }
    ensures names { IfOk result (λ x. named names.new ≡ number_of x.0.items) }
{
    let mut items = Vec::new(alloc);
    let mut source = source;
    for _ in 0..source.rest.len() {
        let Some(kind) = kind_of(first_word(source).bytes) else {
            break;
        };
        source = add_item(alloc, names, &mut items, pieces, kind, source)?;
    }
    Ok((items, source))
}

/// How many bytes a description has.
fn description_len(_description: Description) -> u128
    ensures { result ≡ length (description_bytes _description) }
{
    14
}

/// Adds a description.
#[tactic(auto, unfolding(crate::specs::Start::one_description))]
fn add_description<'a>(
    alloc: Global,
    names: &Names,
    descriptions: &mut Vec<Description>,
    pieces: &mut Pieces,
    source: Source<'a>,
) -> Result<Source<'a>, ReadError>
    ensures { Gives (λ s. (descriptions.new.items, pieces.new.items, rest_of s)) result
        (one_description (named names.now) (
          descriptions.old.items,
          pieces.old.items,
          rest_of source.entry,
        )) }
{
    let word = first_word(source);
    let number = descriptions.len();
    if number >= MOST_DESCRIPTIONS {
        return Err(refused(Reason::TooMany, word.left));
    }
    let (description, after) = description_of(alloc, names, number, source)?;
    add_piece(pieces, description_len(description), word.left)?;
    descriptions.push(description)?;
    Ok(after)
}

/// All descriptions.
pub(crate) fn descriptions_of<'a>(
    alloc: Global,
    names: &Names,
    pieces: &mut Pieces,
    source: Source<'a>,
) -> Result<(Vec<Description>, Source<'a>), ReadError>
    ensures { Gives (λ x. (x.0.items, pieces.new.items, rest_of x.1)) result
        (descriptions_of (named names.now) pieces.old.items (rest_of source.entry)) }
{
    let mut descriptions = Vec::new(alloc);
    let mut source = source;
    for _ in 0..source.rest.len() {
        if !begins(b"open", source) {
            break;
        }
        source = add_description(alloc, names, &mut descriptions, pieces, source)?;
    }
    Ok((descriptions, source))
}

/// A full entry of the table, which holds a description.
fn descriptor_of(slot: FullSlot) -> Descriptor
    ensures { result ≡ descriptor_of slot }
{
    let description = match slot.holds {
        Holder::Slot { ring: _, number }
        | Holder::Descriptor { number }
        | Holder::Description { number } => number,
    };
    Descriptor {
        number: slot.number,
        description,
    }
}

/// The full entries of the table.
fn descriptors_of(alloc: Global, slots: &[FullSlot]) -> Result<Vec<Descriptor>, AllocError>
    ensures { IfOk result (λ v. v.items ≡ map descriptor_of slots.now) }
{
    slots.iter().map(|slot| descriptor_of(*slot)).collect(alloc)
}

/// How many bytes full entries of the table have.
fn descriptors_len(descriptors: &[Descriptor]) -> u128
    ensures { result ≡ length (flat_map descriptor_bytes descriptors.now) }
{
    descriptors.len() as u128 * 8
}

/// The table of descriptors: its size, and its full entries.
#[tactic(auto, unfolding(crate::specs::Start::table_of))]
pub(crate) fn table_of<'a>(
    alloc: Global,
    pieces: &mut Pieces,
    source: Source<'a>,
) -> Result<(u32, Vec<Descriptor>, Source<'a>), ReadError>
    ensures { Gives (λ x. (x.0, x.1.items, pieces.new.items, rest_of x.2)) result
        (table_of pieces.old.items (rest_of source.entry)) }
{
    if !begins(b"descriptors", source) {
        return Ok((0, Vec::new(alloc), source));
    }
    let (slots, after) = slots_line(alloc, Table::Descriptors, source)?;
    let full = descriptors_of(alloc, slots.full.as_slice())?;
    let len = descriptors_len(full.as_slice());
    add_piece(pieces, len, first_word(source).left)?;
    Ok((slots.count, full, after))
}
