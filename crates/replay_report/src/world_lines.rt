//! The lines of what the world shows at the end.
ghost use Rattle.std.specs.Prelude.{◌≡◌, ◌++◌, All, OnOk, Some, [], length};
ghost use Rattle.std.specs.Prelude.{codes, string_bytes, unwrap_or};
ghost use Rattle.std.specs.Fmt.{decimal};
ghost use Rattle.std.specs.List.{flat_map};
ghost use Rattle.std.specs.Option.{option_map};
ghost use Rattle.sqe_codec.specs.Answers.{each};
ghost use Rattle.replay_report.specs.Sums.{AreMade, AreSumsOf, AreTreeSums, held, shown_of};
ghost use Rattle.world_parts.specs.World.{buffer, bytes, size};
ghost use Rattle.replay_report.specs.Report.{IsLong, IsSized, buffer_line, buffer_shown, buffer_sum};
ghost use Rattle.replay_report.specs.Report.{description_text, descriptor_line};
ghost use Rattle.replay_report.specs.Report.{file_sum, has_ended, large_sum, line, name_line};
ghost use Rattle.replay_report.specs.Report.{slot_line, slot_shown, sum_text};
ghost use Rattle.replay_report.specs.Report.{world_lines};
ghost use Rattle.world_parts.specs.Image.{image_of};

use crate::escaping::push_escaped;
use crate::made::Made;
use crate::showing::SumsShown;
use crate::sums::{Holder, MOST_SUMMED, Sums};
use crate::tree_sums::TreeSums;
use recording::Ring;
use std::alloc::{AllocError, Global};
use world_parts::{BufferEntry, DescriptorEntry, Image, NameEntry, SlotEntry, State};

/// The lines of what the world shows, with the sums that were made ahead where they are asked for.
#[tactic(auto, using(crate::proofs::ReportLemmas::image_is_sized, crate::proofs::SumLemmas::image_is_long))]
pub(crate) fn push_world(
    alloc: Global,
    text: &mut Vec<u8>,
    rings: &[Ring],
    world: &State,
    image: &Image,
    sums: Made<'_>,
) -> Result<(), AllocError>
    requires image { image.now ≡ image_of world.now }
    requires sums { AreMade world.now sums }
    ensures { OnOk result (text.new.items
        ≡ text.old.items ++ world_lines rings.now world.now (shown_of sums.entry)) }
{
    text.extend_from_slice(b"tree\n")?;
    push_names(alloc, text, world, image.names.as_slice(), sums)?;
    let mut lines = String::new(alloc);
    push_tables(
        &mut lines,
        rings,
        image.slots.as_slice(),
        image.descriptors.as_slice(),
    )?;
    lines.push_str("buffers\n")?;
    push_buffers(
        alloc,
        &mut lines,
        rings,
        world,
        image.buffers.as_slice(),
        sums,
    )?;
    text.extend_from_slice(lines.as_bytes())
}

/// The lines of the full slots and of the full descriptors.
fn push_tables(
    text: &mut String,
    rings: &[Ring],
    slots: &[SlotEntry],
    descriptors: &[DescriptorEntry],
) -> Result<(), AllocError>
    ensures { OnOk result (string_bytes text.new ≡ string_bytes text.old ++ line (codes "slots")
        ++ flat_map (slot_shown rings.now) slots.now ++ flat_map descriptor_line descriptors.now) }
{
    text.push_str("slots\n")?;
    push_slots(text, rings, slots)?;
    push_descriptors(text, descriptors)
}

/// The lines of the names.
fn push_names(
    alloc: Global,
    text: &mut Vec<u8>,
    world: &State,
    names: &[NameEntry],
    sums: Made<'_>,
) -> Result<(), AllocError>
    requires sums { AreMade world.now sums }
    requires names { All (IsSized world.now) names.now }
    ensures { OnOk result (text.new.items
        ≡ text.old.items ++ flat_map (name_line world.now (shown_of sums.entry)) names.now) }
{
    for name in names {
        push_name(alloc, text, world, name, sums)?;
    }
    Ok(())
}

/// The line of a name, whose path goes to the text at once: where paths are long, they are most of
/// the report.
fn push_name(
    alloc: Global,
    text: &mut Vec<u8>,
    world: &State,
    name: &NameEntry,
    sums: Made<'_>,
) -> Result<(), AllocError>
    requires sums { AreMade world.now sums }
    requires name { IsSized world.now name.now }
    ensures { OnOk result (text.new.items
        ≡ text.old.items ++ name_line world.now (shown_of sums.entry) name.now) }
{
    match name.size {
        None => {
            text.extend_from_slice(b"dir ")?;
            push_escaped(text, name.path.as_slice())?;
            text.extend_from_slice(b"\n")
        }
        Some(len) => {
            text.extend_from_slice(b"file ")?;
            push_escaped(text, name.path.as_slice())?;
            let mut facts = String::new(alloc);
            push_file(alloc, &mut facts, world, name.node, len, sums)?;
            text.extend_from_slice(facts.as_bytes())
        }
    }
}

/// What follows the path of a file: its node, its size and its sum.
fn push_file(
    alloc: Global,
    text: &mut String,
    world: &State,
    node: u32,
    len: u64,
    sums: Made<'_>,
) -> Result<(), AllocError>
    requires sums { AreMade world.now sums }
    requires len { size world.now node ≡ Some len }
    ensures { OnOk result (string_bytes text.new ≡ string_bytes text.old
        ++ line (codes " node=" ++ decimal node ++ codes " size=" ++ decimal len
        ++ each (file_sum (shown_of sums.entry)) (bytes world.now node))) }
{
    write!(text, " node={node} size={len}")?;
    push_file_sum(alloc, text, world, node, len, sums)?;
    text.push_str("\n")
}

/// The sum of a file of this length, where sums are asked for. A large file isn't read.
fn push_file_sum(
    alloc: Global,
    text: &mut String,
    world: &State,
    node: u32,
    len: u64,
    sums: Made<'_>,
) -> Result<(), AllocError>
    requires sums { AreMade world.now sums }
    requires len { size world.now node ≡ Some len }
    ensures { OnOk result (string_bytes text.new
        ≡ string_bytes text.old ++ each (file_sum (shown_of sums.entry)) (bytes world.now node)) }
{
    match sums {
        Made::None => Ok(()),
        Made::Small(known) => {
            if len > MOST_SUMMED {
                return text.push_str(" sum=large");
            }
            push_sum(alloc, text, world, Holder::File { node }, len, known)
        }
        Made::All(known, trees) => {
            if len > MOST_SUMMED {
                return push_tree_sum(alloc, text, world, node, len, trees);
            }
            push_sum(alloc, text, world, Holder::File { node }, len, known)
        }
    }
}

/// What stands for the sum of a large file, and the sum that is made of those of its pieces.
fn push_tree_sum(
    alloc: Global,
    text: &mut String,
    world: &State,
    node: u32,
    len: u64,
    trees: &TreeSums,
) -> Result<(), AllocError>
    requires trees { AreTreeSums world.now trees.now }
    requires len { option_map length (bytes world.now node) ≡ Some len }
    ensures { OnOk result (string_bytes text.new ≡ string_bytes text.old
        ++ large_sum SumsShown.All (unwrap_or (bytes world.now node) [])) }
{
    let sum = hex::encode(alloc, trees.get(alloc, world, node, len)?)?;
    write!(text, " sum=large tree-sum={sum}")
}

fn push_sum(
    alloc: Global,
    text: &mut String,
    world: &State,
    holder: Holder,
    len: u64,
    sums: &Sums,
) -> Result<(), AllocError>
    requires sums { AreSumsOf world.now sums.now }
    requires len { option_map length (held world.now holder) ≡ Some len }
    ensures { OnOk result (string_bytes text.new
        ≡ string_bytes text.old ++ sum_text (unwrap_or (held world.now holder) [])) }
{
    let sum = hex::encode(alloc, sums.get(alloc, world, holder, len)?)?;
    write!(text, " sum={sum}")
}

/// Whether a ring has ended, so that nothing is shown of it.
fn has_ended(rings: &[Ring], ring: u32) -> bool
    ensures { result ≡ has_ended rings.now ring }
{
    match rings.get(ring as usize) {
        None => false,
        Some(there) => there.ended,
    }
}

fn push_slots(text: &mut String, rings: &[Ring], slots: &[SlotEntry]) -> Result<(), AllocError>
    ensures { OnOk result (string_bytes text.new
        ≡ string_bytes text.old ++ flat_map (slot_shown rings.now) slots.now) }
{
    for slot in slots {
        push_shown_slot(text, rings, *slot)?;
    }
    Ok(())
}

/// The line of a full slot, unless its ring has ended.
fn push_shown_slot(text: &mut String, rings: &[Ring], slot: SlotEntry) -> Result<(), AllocError>
    ensures { OnOk result (string_bytes text.new
        ≡ string_bytes text.old ++ slot_shown rings.now slot) }
{
    if has_ended(rings, slot.ring) {
        return Ok(());
    }
    push_slot(text, slot)
}

fn push_slot(text: &mut String, entry: SlotEntry) -> Result<(), AllocError>
    ensures { OnOk result (string_bytes text.new ≡ string_bytes text.old ++ slot_line entry) }
{
    let SlotEntry {
        ring,
        slot,
        description,
        node,
        position,
    } = entry;
    write!(text, "slot {ring} {slot}")?;
    push_description(text, description, node, position)?;
    text.push_str("\n")
}

fn push_description(
    text: &mut String,
    description: u32,
    node: u32,
    position: u64,
) -> Result<(), AllocError>
    ensures { OnOk result (string_bytes text.new
        ≡ string_bytes text.old ++ description_text description node position) }
{
    write!(text, " desc={description} node={node} pos={position}")
}

fn push_descriptors(text: &mut String, descriptors: &[DescriptorEntry]) -> Result<(), AllocError>
    ensures { OnOk result (string_bytes text.new
        ≡ string_bytes text.old ++ flat_map descriptor_line descriptors.now) }
{
    for descriptor in descriptors {
        push_descriptor(text, *descriptor)?;
    }
    Ok(())
}

fn push_descriptor(text: &mut String, entry: DescriptorEntry) -> Result<(), AllocError>
    ensures { OnOk result (string_bytes text.new
        ≡ string_bytes text.old ++ descriptor_line entry) }
{
    let DescriptorEntry {
        number,
        description,
        node,
        position,
    } = entry;
    write!(text, "descriptor {number}")?;
    push_description(text, description, node, position)?;
    text.push_str("\n")
}

fn push_buffers(
    alloc: Global,
    text: &mut String,
    rings: &[Ring],
    world: &State,
    buffers: &[BufferEntry],
    sums: Made<'_>,
) -> Result<(), AllocError>
    requires sums { AreMade world.now sums }
    requires buffers { All (IsLong world.now) buffers.now }
    ensures { OnOk result (string_bytes text.new
        ≡ string_bytes text.old
        ++ flat_map (buffer_shown rings.now world.now (shown_of sums.entry)) buffers.now) }
{
    for buffer in buffers {
        push_shown_buffer(alloc, text, rings, world, *buffer, sums)?;
    }
    Ok(())
}

/// The line of a buffer, unless its ring has ended.
fn push_shown_buffer(
    alloc: Global,
    text: &mut String,
    rings: &[Ring],
    world: &State,
    buffer: BufferEntry,
    sums: Made<'_>,
) -> Result<(), AllocError>
    requires sums { AreMade world.now sums }
    requires entry { IsLong world.now buffer }
    ensures { OnOk result (string_bytes text.new ≡ string_bytes text.old
        ++ buffer_shown rings.now world.now (shown_of sums.entry) buffer) }
{
    if has_ended(rings, buffer.ring) {
        return Ok(());
    }
    push_buffer(alloc, text, world, buffer, sums)
}

fn push_buffer(
    alloc: Global,
    text: &mut String,
    world: &State,
    entry: BufferEntry,
    sums: Made<'_>,
) -> Result<(), AllocError>
    requires sums { AreMade world.now sums }
    requires entry { IsLong world.now entry }
    ensures { OnOk result (string_bytes text.new
        ≡ string_bytes text.old ++ buffer_line world.now (shown_of sums.entry) entry) }
{
    let BufferEntry { ring, index, len } = entry;
    write!(text, "buffer {ring} {index} len={len}")?;
    push_buffer_sum(alloc, text, world, entry, sums)?;
    text.push_str("\n")
}

/// The sum of a buffer, where sums are asked for.
fn push_buffer_sum(
    alloc: Global,
    text: &mut String,
    world: &State,
    entry: BufferEntry,
    sums: Made<'_>,
) -> Result<(), AllocError>
    requires sums { AreMade world.now sums }
    requires entry { IsLong world.now entry }
    ensures { OnOk result (string_bytes text.new ≡ string_bytes text.old
        ++ buffer_sum (shown_of sums.entry)
        (unwrap_or (buffer world.now entry.ring entry.index) [])) }
{
    let BufferEntry { ring, index, len } = entry;
    match sums {
        Made::None => Ok(()),
        Made::Small(known) | Made::All(known, _) => push_sum(
            alloc,
            text,
            world,
            Holder::Buffer { ring, index },
            len,
            known,
        ),
    }
}
