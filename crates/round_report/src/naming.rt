//! What nodes and items are called.
ghost use Rattle.std.specs.Prelude.{◌≡◌, ◌++◌, OnOk, codes};
ghost use Rattle.std.specs.Fmt.{decimal};
ghost use Rattle.replay_report.specs.Report.{escaped};
ghost use Rattle.round_report.specs.Naming.{file_offsets, in_ring, item_text, node_text, offsets};
ghost use Rattle.world_parts.specs.Uses.{item_meant};

use extent_bytes::MAX_LEN;
use recording::Recording;
use replay_report::push_escaped;
use std::alloc::AllocError;
use text_forms::{push_bytes, push_decimal};
use world_parts::Item;

/// What an item is called.
pub(crate) fn push_item(
    text: &mut Vec<u8>,
    trace: &Recording,
    item: &Item,
) -> Result<(), AllocError>
    ensures { OnOk result (text.new.items
        ≡ text.old.items ++ item_text trace.now (item_meant item.now)) }
{
    match item {
        Item::Chain(chain) => push_numbered(text, b"chain ", u64::from(*chain)),
        Item::Ring(ring) => push_numbered(text, b"order of ring ", u64::from(*ring)),
        Item::Slot(ring, slot) => push_of_ring(text, b"slot ", *ring, *slot),
        Item::Descriptor(number) => push_numbered(text, b"descriptor ", u64::from(*number)),
        Item::Description(number) => push_numbered(text, b"description ", u64::from(*number)),
        Item::Position(number) => {
            push_numbered(text, b"position of description ", u64::from(*number))
        }
        Item::Size(node) => push_of_node(text, b"size of ", trace, *node),
        Item::Bytes(node, low, high) => push_bytes_of_node(text, trace, *node, *low, *high),
        Item::Name(node, name) => push_name_in_node(text, trace, *node, name.as_slice()),
        Item::Names(node) => push_of_node(text, b"number of names in ", trace, *node),
        Item::Buffer(ring, index, low, high) => {
            push_bytes_of_buffer(text, *ring, *index, *low, *high)
        }
        Item::AllNames(_) => push_bytes(text, b"all names"),
        Item::AllBytesAndSizes(_) => push_bytes(text, b"all bytes and sizes of files"),
        Item::AllPositions(_) => push_bytes(text, b"all positions"),
        Item::AllDescriptions(_) => push_bytes(text, b"all descriptions"),
        Item::AllDescriptors => push_bytes(text, b"all descriptors"),
    }
}

/// Words, and a number behind them.
pub(crate) fn push_numbered(text: &mut Vec<u8>, what: &[u8], number: u64) -> Result<(), AllocError>
    ensures { OnOk result (text.new.items ≡ text.old.items ++ (what.now ++ decimal number)) }
{
    push_bytes(text, what)?;
    push_decimal(text, number)
}

/// Something that has a number in a ring.
fn push_of_ring(text: &mut Vec<u8>, what: &[u8], ring: u32, number: u32) -> Result<(), AllocError>
    ensures { OnOk result (text.new.items ≡ text.old.items ++ (what.now ++ in_ring ring number)) }
{
    push_numbered(text, what, u64::from(ring))?;
    push_numbered(text, b" ", u64::from(number))
}

/// What a node is called: the path that the trace has for it, or the place that makes it.
fn push_node(text: &mut Vec<u8>, trace: &Recording, node: u32) -> Result<(), AllocError>
    ensures { OnOk result (text.new.items ≡ text.old.items ++ node_text trace.now node) }
{
    let Some(index) = node.checked_sub(1) else {
        return push_bytes(text, b"/");
    };
    let items = trace.items.as_slice();
    match items.get(index as usize) {
        Some(item) => push_escaped(text, item.path.as_slice()),
        None => {
            let place = index as usize - items.len();
            push_numbered(text, b"node of place ", place as u64)
        }
    }
}

/// Something that a node has.
fn push_of_node(
    text: &mut Vec<u8>,
    what: &[u8],
    trace: &Recording,
    node: u32,
) -> Result<(), AllocError>
    ensures { OnOk result (text.new.items ≡ text.old.items ++ (what.now ++ node_text trace.now node)) }
{
    push_bytes(text, what)?;
    push_node(text, trace, node)
}

/// A range of a file's bytes.
fn push_bytes_of_node(
    text: &mut Vec<u8>,
    trace: &Recording,
    node: u32,
    low: u64,
    high: u64,
) -> Result<(), AllocError>
    ensures { OnOk result (text.new.items ≡ text.old.items
        ++ (codes "bytes " ++ file_offsets low high ++ codes " of " ++ node_text trace.now node)) }
{
    push_bytes(text, b"bytes ")?;
    push_file_offsets(text, low, high)?;
    push_of_node(text, b" of ", trace, node)
}

/// The ends of a range of a file's bytes.
fn push_file_offsets(text: &mut Vec<u8>, low: u64, high: u64) -> Result<(), AllocError>
    ensures { OnOk result (text.new.items ≡ text.old.items ++ file_offsets low high) }
{
    if high == MAX_LEN {
        push_numbered(text, b"from ", low)
    } else {
        push_offsets(text, low, high)
    }
}

/// The ends of a range.
fn push_offsets(text: &mut Vec<u8>, low: u64, high: u64) -> Result<(), AllocError>
    ensures { OnOk result (text.new.items ≡ text.old.items ++ offsets low high) }
{
    push_decimal(text, low)?;
    push_numbered(text, b" to ", high)
}

/// A range of a buffer's bytes.
fn push_bytes_of_buffer(
    text: &mut Vec<u8>,
    ring: u32,
    index: u32,
    low: u64,
    high: u64,
) -> Result<(), AllocError>
    ensures { OnOk result (text.new.items ≡ text.old.items
        ++ (codes "bytes " ++ offsets low high ++ codes " of buffer " ++ in_ring ring index)) }
{
    push_bytes(text, b"bytes ")?;
    push_offsets(text, low, high)?;
    push_of_ring(text, b" of buffer ", ring, index)
}

/// A name of a directory.
fn push_name_in_node(
    text: &mut Vec<u8>,
    trace: &Recording,
    node: u32,
    name: &[u8],
) -> Result<(), AllocError>
    ensures { OnOk result (text.new.items ≡ text.old.items
        ++ (codes "name " ++ escaped name.now ++ codes " in " ++ node_text trace.now node)) }
{
    push_bytes(text, b"name ")?;
    push_escaped(text, name)?;
    push_of_node(text, b" in ", trace, node)
}
