//! The initial open file descriptions, and the table of ordinary descriptors.
ghost use Rattle.std.specs.Prelude.{◌≡◌, ◌<◌, ◌==◌, ◌||◌, not, [], List, IfOk};
ghost use Rattle.trace_format.specs.Grammar.{several};
ghost use Rattle.trace_format.specs.Text.{access_of};
ghost use Rattle.trace_records.specs.Fields.{end_of};
ghost use Rattle.trace_records.specs.Read.{Gives};
ghost use Rattle.trace_records.specs.Sources.{reading_from, with_rest};
ghost use Rattle.trace_records.specs.Start.{description, is_node, is_directory_number};
ghost use Rattle.trace_records.specs.Start.{descriptor, descriptor_end};
ghost use Rattle.trace_records.specs.declared.start.Descriptor.{Descriptor};

use crate::fault::{ReadError, refused};
use crate::items::{is_directory, is_file};
use crate::source::{Source, number_of, u8_to, u32_in, u32_of, u64_to};
use crate::start::{Descriptor, Item};
use std::alloc::Global;
use trace_format::{Access, Description, Kind};

fn is_directory_number(items: &[Item], number: u32) -> bool
    ensures { result ≡ is_directory_number items.now number }
{
    if number == 0 {
        return true;
    }
    match items.get(number as usize - 1) {
        None => false,
        Some(item) => is_directory(&item.node),
    }
}

fn is_node(items: &[Item], number: u32) -> bool
    ensures { result ≡ is_node items.now number }
{
    if number == 0 {
        return true;
    }
    match items.get(number as usize - 1) {
        None => false,
        Some(item) => is_directory(&item.node) || is_file(&item.node),
    }
}

/// Whether a node may be open with this access: a directory with 0 alone.
fn may_have(items: &[Item], node: u32, access: u8) -> bool
    ensures { result ≡ (access == 0 || not (is_directory_number items.now node)) }
{
    access == 0 || !is_directory_number(items, node)
}

fn access_of(number: u8) -> Access
    ensures { result ≡ access_of number }
{
    match number {
        0 => Access::Read,
        1 => Access::Write,
        _ => Access::Both,
    }
}

#[tactic(auto, unfolding(crate::specs::Start::description))]
fn description_of<'a>(
    items: &[Item],
    source: Source<'a>,
) -> Result<(Description, Source<'a>), ReadError>
    ensures { Gives with_rest result (reading_from source.entry (description items.now)) }
{
    let place = source.place;
    let (node, source) = u32_of(source)?;
    if !is_node(items, node) {
        return Err(refused(Kind::Reference, place));
    }
    let place = source.place;
    let (access, source) = u8_to(source, 2)?;
    if !may_have(items, node, access) {
        return Err(refused(Kind::Limit, place));
    }
    let (append, source) = u8_to(source, 1)?;
    let (position, source) = u64_to(source, (1 << 63) - 1)?;
    Ok((
        Description {
            node,
            access: access_of(access),
            append: append == 1,
            position,
        },
        source,
    ))
}

pub(crate) fn descriptions_of<'a>(
    alloc: Global,
    count: u32,
    items: &[Item],
    source: Source<'a>,
) -> Result<(Vec<Description>, Source<'a>), ReadError>
    ensures { Gives (λ x. with_rest (x.0.items, x.1)) result
        (reading_from source.entry (several count (λ _. description items.now) [])) }
{
    let mut descriptions = Vec::new(alloc);
    let mut source = source;
    for _ in 0..count {
        let (description, after) = description_of(items, source)?;
        descriptions.push(description)?;
        source = after;
    }
    Ok((descriptions, source))
}

/// A full entry of a table of this size, from the number `low` on.
#[tactic(auto, unfolding(crate::specs::Start::descriptor))]
fn descriptor_of(
    table_size: u32,
    descriptions: u32,
    low: u32,
    source: Source<'_>,
) -> Result<(Descriptor, Source<'_>), ReadError>
    ensures read { (earlier : List Descriptor) → end_of descriptor_end 0 earlier ≡ low
        → Gives with_rest result
        (reading_from source.entry (descriptor table_size descriptions earlier)) }
    ensures below { IfOk result (λ x. x.0.number < table_size) }
{
    let (number, source) = u32_in(source, low, table_size)?;
    let (description, source) = number_of(source, descriptions as usize)?;
    Ok((
        Descriptor {
            number,
            description,
        },
        source,
    ))
}

pub(crate) fn descriptors_of(
    alloc: Global,
    count: u32,
    table_size: u32,
    descriptions: u32,
    source: Source<'_>,
) -> Result<(Vec<Descriptor>, Source<'_>), ReadError>
    ensures { Gives (λ x. with_rest (x.0.items, x.1)) result
        (reading_from source.entry (several count (descriptor table_size descriptions) [])) }
{
    let mut descriptors = Vec::new(alloc);
    let mut low = 0;
    let mut source = source;
    for _ in 0..count {
        let (descriptor, after) = descriptor_of(table_size, descriptions, low, source)?;
        descriptors.push(descriptor)?;
        low = descriptor.number + 1;
        source = after;
    }
    Ok((descriptors, source))
}
