//! The initial names.
ghost use Rattle.std.specs.Prelude.{◌≡◌, ◌+◌, ◌≤◌, false, [], List, is_some, IfOk};
ghost use Rattle.trace_format.specs.Grammar.{several};
ghost use Rattle.trace_format.specs.Limits.{file_limit};
ghost use Rattle.trace_format.specs.Names.{kind_at};
ghost use Rattle.trace_records.specs.Fields.{end_of};
ghost use Rattle.trace_records.specs.Names.{KnowsNames};
ghost use Rattle.trace_records.specs.Read.{Gives};
ghost use Rattle.trace_records.specs.Sources.{reading_from, with_rest};
ghost use Rattle.trace_records.specs.Start.{range, range_end, file, is_directory, is_file};
ghost use Rattle.trace_records.specs.Start.{is_item, other_name, node, item};
ghost use Rattle.trace_records.specs.declared.start.Range.{Range};

use crate::fault::{ReadError, refused};
use crate::names::{Names, add_name, path_of};
use crate::source::{Source, blob_of, u8_of, u32_of, u64_in, u64_to};
use crate::start::{Item, Node, Range};
use std::alloc::Global;
use trace_format::{Kind, Series};

/// The largest size of a file in bytes.
const LARGEST: u64 = 1 << 40;

pub(crate) fn is_directory(node: &Node) -> bool
    ensures { result ≡ is_directory node.now }
{
    match node {
        Node::Directory => true,
        Node::File { .. } => false,
        Node::OtherName { .. } => false,
    }
}

pub(crate) fn is_file(node: &Node) -> bool
    ensures { result ≡ is_file node.now }
{
    match node {
        Node::Directory => false,
        Node::File { .. } => true,
        Node::OtherName { .. } => false,
    }
}

/// Bytes of a file of this size, from `low` on, and where they end.
#[tactic(auto, unfolding(crate::specs::Start::range))]
fn range_of(
    alloc: Global,
    size: u64,
    low: u64,
    source: Source<'_>,
) -> Result<(Range, u64, Source<'_>), ReadError>
    requires { size ≤ file_limit }
    ensures read { (earlier : List Range) → end_of range_end 0 earlier ≡ low
        → Gives (λ x. with_rest (x.0, x.2)) result
        (reading_from source.entry (range size earlier)) }
    ensures end { IfOk result (λ x. x.1 ≡ range_end x.0) }
{
    let (offset, source) = u64_in(source, low, size + 1)?;
    let place = source.place;
    let (len, source) = u32_of(source)?;
    let end = offset + u64::from(len);
    if len < 1 || end > size {
        return Err(refused(Kind::Limit, place));
    }
    let (bytes, source) = blob_of(alloc, source, len as usize)?;
    Ok((Range { offset, bytes }, end, source))
}

fn ranges_of(
    alloc: Global,
    count: u32,
    size: u64,
    source: Source<'_>,
) -> Result<(Vec<Range>, Source<'_>), ReadError>
    requires { size ≤ file_limit }
    ensures { Gives (λ x. with_rest (x.0.items, x.1)) result
        (reading_from source.entry (several count (range size) [])) }
{
    let mut ranges = Vec::new(alloc);
    let mut low = 0;
    let mut source = source;
    for _ in 0..count {
        let (range, end, after) = range_of(alloc, size, low, source)?;
        ranges.push(range)?;
        low = end;
        source = after;
    }
    Ok((ranges, source))
}

#[tactic(auto, unfolding(crate::specs::Start::file))]
fn file_of(alloc: Global, source: Source<'_>) -> Result<(Node, Source<'_>), ReadError>
    ensures { Gives with_rest result (reading_from source.entry file) }
{
    let (size, source) = u64_to(source, LARGEST)?;
    let (count, source) = u32_of(source)?;
    let (ranges, source) = ranges_of(alloc, count, size, source)?;
    Ok((
        Node::File {
            size,
            ranges: Series::from_vec(ranges),
        },
        source,
    ))
}

/// Whether the item of a number from 1 on is a file.
fn is_file_item(items: &[Item], number: u32) -> bool
    ensures { result ≡ is_item is_file items.now number }
{
    if number == 0 {
        return false;
    }
    match items.get(number as usize - 1) {
        None => false,
        Some(item) => is_file(&item.node),
    }
}

#[tactic(auto, unfolding(crate::specs::Start::other_name))]
fn other_name_of<'a>(items: &[Item], source: Source<'a>) -> Result<(Node, Source<'a>), ReadError>
    ensures { Gives with_rest result (reading_from source.entry (other_name items.now)) }
{
    let place = source.place;
    let (number, source) = u32_of(source)?;
    if !is_file_item(items, number) {
        return Err(refused(Kind::Reference, place));
    }
    Ok((Node::OtherName { number }, source))
}

fn node_of<'a>(
    alloc: Global,
    kind: u8,
    items: &[Item],
    source: Source<'a>,
) -> Result<(Node, Source<'a>), ReadError>
    ensures { Gives with_rest result (reading_from source.entry (node kind items.now)) }
{
    match kind {
        1 => Ok((Node::Directory, source)),
        2 => file_of(alloc, source),
        _ => other_name_of(items, source),
    }
}

#[tactic(auto, unfolding(crate::specs::Start::item))]
fn item_of<'a>(
    alloc: Global,
    items: &[Item],
    names: &Names<'_>,
    source: Source<'a>,
) -> Result<(Item, &'a [u8], Source<'a>), ReadError>
    requires { KnowsNames names.now items.now }
    ensures read { Gives (λ x. with_rest (x.0, x.2)) result
        (reading_from source.entry (item items.now)) }
    ensures path { IfOk result (λ x. x.0.path ≡ x.1.now) }
    ensures fresh { IfOk result (λ x. is_some (kind_at names.now x.1.now) ≡ false) }
{
    let place = source.place;
    let (kind, source) = u8_of(source)?;
    if kind < 1 || kind > 3 {
        return Err(refused(Kind::Limit, place));
    }
    let (path, bytes, source) = path_of(alloc, names, source)?;
    let (node, source) = node_of(alloc, kind, items, source)?;
    Ok((Item { path, node }, bytes, source))
}

pub(crate) fn items_of(
    alloc: Global,
    count: u32,
    source: Source<'_>,
) -> Result<(Vec<Item>, Source<'_>), ReadError>
    ensures { Gives (λ x. with_rest (x.0.items, x.1)) result
        (reading_from source.entry (several count item [])) }
{
    let mut items = Vec::new(alloc);
    let mut names = Names::new(alloc);
    let mut source = source;
    for _ in 0..count {
        let (item, path, after) = item_of(alloc, &items, &names, source)?;
        let directory = is_directory(&item.node);
        items.push(item)?;
        add_name(&mut names, path, directory)?;
        source = after;
    }
    Ok((items, source))
}
