//! The initial names.
ghost use Rattle.std.specs.Prelude.{◌≡◌, false, [], is_some, IfOk};
ghost use Rattle.trace_format.specs.Grammar.{several};
ghost use Rattle.trace_format.specs.Names.{KnowsNames, kind_at};
ghost use Rattle.trace_format.specs.Paths.{is_file};
ghost use Rattle.trace_format.specs.Read.{Gives};
ghost use Rattle.trace_format.specs.Sources.{reading_from, with_rest};
ghost use Rattle.trace_format.specs.Text.{file, other_name, node, item, is_item};

use crate::fault::{Kind, ReadError, refused};
use crate::names::{Names, add_name, path_of};
use crate::paths::{is_directory, is_file};
use crate::source::{Source, blob_of, u8_of, u32_of, u32_to, u64_to};
use crate::trace::{Item, Node};
use std::alloc::Global;

#[tactic(auto, unfolding(crate::specs::Text::file))]
fn file_of(source: Source<'_>) -> Result<(Node, Source<'_>), ReadError>
    ensures { Gives with_rest result (reading_from source.entry file) }
{
    let (size, source) = u64_to(source, 1 << 40)?;
    let (stored, source) = u32_to(source, size.min(0xffff_ffff) as u32)?;
    let (stored, source) = blob_of(source, stored as usize)?;
    Ok((Node::File { size, stored }, source))
}

/// Whether the item of a number from 1 on is a file.
fn is_file_item(items: &[Item], number: u32) -> bool
    ensures { result ≡ is_item is_file items.now number }
{
    if number == 0 {
        return false;
    }
    match items.get(number as usize - 1) {
        None => false,
        Some(item) => is_file(&item.node),
    }
}

#[tactic(auto, unfolding(crate::specs::Text::other_name))]
fn other_name_of<'a>(items: &[Item], source: Source<'a>) -> Result<(Node, Source<'a>), ReadError>
    ensures { Gives with_rest result (reading_from source.entry (other_name items.now)) }
{
    let place = source.place;
    let (number, source) = u32_of(source)?;
    if !is_file_item(items, number) {
        return Err(refused(Kind::Reference, place));
    }
    Ok((Node::OtherName { number }, source))
}

fn node_of<'a>(
    kind: u8,
    items: &[Item],
    source: Source<'a>,
) -> Result<(Node, Source<'a>), ReadError>
    ensures { Gives with_rest result (reading_from source.entry (node kind items.now)) }
{
    match kind {
        1 => Ok((Node::Directory, source)),
        2 => file_of(source),
        _ => other_name_of(items, source),
    }
}

#[tactic(auto, unfolding(crate::specs::Text::item))]
fn item_of<'a>(
    items: &[Item],
    names: &Names<'_>,
    source: Source<'a>,
) -> Result<(Item, &'a [u8], Source<'a>), ReadError>
    requires { KnowsNames names.now items.now }
    ensures read { Gives (λ x. with_rest (x.0, x.2)) result
        (reading_from source.entry (item items.now)) }
    ensures path { IfOk result (λ x. x.0.path ≡ x.1.now) }
    ensures fresh { IfOk result (λ x. is_some (kind_at names.now x.1.now) ≡ false) }
{
    let place = source.place;
    let (kind, source) = u8_of(source)?;
    if kind < 1 || kind > 3 {
        return Err(refused(Kind::Limit, place));
    }
    let (path, bytes, source) = path_of(names, source)?;
    let (node, source) = node_of(kind, items, source)?;
    Ok((Item { path, node }, bytes, source))
}

pub(crate) fn items_of(
    alloc: Global,
    count: u32,
    source: Source<'_>,
) -> Result<(Vec<Item>, Source<'_>), ReadError>
    ensures { Gives (λ x. with_rest (x.0.items, x.1)) result
        (reading_from source.entry (several count item [])) }
{
    let mut items = Vec::new(alloc);
    let mut names = Names::new(alloc);
    let mut source = source;
    for _ in 0..count {
        let (item, path, after) = item_of(&items, &names, source)?;
        let directory = is_directory(&item.node);
        items.push(item)?;
        add_name(&mut names, path, directory)?;
        source = after;
    }
    Ok((items, source))
}
