//! Where the items of footprints lie on the line.
ghost use Rattle.std.specs.Prelude.{◌≡◌, ◌<◌, ◌≤◌, ◌+◌, ◌*◌, ◌^◌, true, map, IfOk, OnOk};
ghost use Rattle.foot_waits.specs.Names.{KeepsNumbers};
ghost use Rattle.foot_waits.specs.Spots.{AllFit, ItemFits, span_for, spot};
ghost use Rattle.world_parts.specs.Cutting.{is_narrow_use};
ghost use Rattle.world_parts.specs.Uses.{item_meant, use_meant};

use crate::names::Names;
use std::alloc::{AllocError, Global};
use use_line::Span;
use world_parts::{Footprint, Item, Use};

/// How many sorts there are, and how many numbers a row has.
const SORTS: u128 = 16;

const PLACES: u128 = 1 << 64;

/// How many rows of a sort the line keeps number by number.
const SINGLE_ROWS: u128 = 256;

/// How many registered buffers of a ring an entry can name.
const BUFFERS: u32 = 65_536;

/// The ranges of an access set's uses. Names without a number get one.
pub(crate) fn spans_of(
    alloc: Global,
    names: &mut Names,
    footprint: &Footprint,
) -> Result<Vec<Span>, AllocError>
    ensures kept { OnOk result (KeepsNumbers names.old names.new) }
    ensures spans { IfOk result (λ spans. spans.items ≡ map (span_for names.new) footprint.now) }
    ensures fit { IfOk result (λ spans. AllFit names.new footprint.now) }
{
    let mut spans = Vec::with_capacity(alloc, footprint.len())?;
    for used in footprint.uses() {
        let span = span_of(alloc, names, used)?;
        spans.push(span)?;
    }
    Ok(spans)
}

/// The range of a use, if it is one range, and of a buffer that an entry can name.
fn span_of(alloc: Global, names: &mut Names, used: &Use) -> Result<Span, AllocError>
    ensures kept { OnOk result (KeepsNumbers names.old names.new) }
    ensures span { IfOk result (λ span. span ≡ span_for names.new (use_meant used.now)) }
    ensures fits { IfOk result (λ span. ItemFits names.new (item_meant used.now.item)) }
    ensures narrow { IfOk result (λ span. is_narrow_use (use_meant used.now) ≡ true) }
{
    let written = used.written;
    match &used.item {
        Item::Chain(number) => Ok(single(0, 0, u64::from(*number), written)),
        Item::Ring(ring) => Ok(single(1, 0, u64::from(*ring), written)),
        Item::Slot(ring, slot) => Ok(single(2, u128::from(*ring), u64::from(*slot), written)),
        Item::Descriptor(number) => {
            let _number = *number;
            Ok(no_range(written))
        }
        Item::Description(number) => Ok(single(4, 0, u64::from(*number), written)),
        Item::Position(number) => Ok(single(5, 0, u64::from(*number), written)),
        Item::Size(node) => Ok(single(6, 0, u64::from(*node), written)),
        Item::Bytes(node, low, high) => {
            let row = SINGLE_ROWS + u128::from(*node);
            Ok(range(7, row, *low, u128::from(*high), written))
        }
        Item::Name(directory, name) => {
            let number = names.number(alloc, *directory, name.as_slice())?;
            Ok(single(8, 0, number, written))
        }
        Item::Names(directory) => Ok(single(9, 0, u64::from(*directory), written)),
        Item::Buffer(ring, index, low, high) if *index < BUFFERS => {
            let buffer = u128::from(*ring) * u128::from(BUFFERS) + u128::from(*index);
            Ok(range(11, SINGLE_ROWS + buffer, *low, u128::from(*high), written))
        }
        Item::AllDescriptors if !written => Ok(no_range(written)),
        _ => Err(AllocError),
    }
}

/// What a use of descriptors has on the line, where they don't lie.
fn no_range(written: bool) -> Span
    ensures { result ≡ record { low = 0; high = 0; written = written } }
{
    Span {
        low: 0,
        high: 0,
        written,
    }
}

/// The range of a single place in a row.
fn single(sort: u128, row: u128, place: u64, written: bool) -> Span
    requires sort { sort ≤ 12 }
    requires row { row < 2 ^ 49 }
    ensures { result ≡ record { low = spot sort row place; high = spot sort row (place + 1); written = written } }
{
    range(sort, row, place, u128::from(place) + 1, written)
}

/// A range of places in a row.
fn range(sort: u128, row: u128, low: u64, high: u128, written: bool) -> Span
    requires sort { sort ≤ 12 }
    requires row { row < 2 ^ 49 }
    requires high { high ≤ 2 ^ 64 }
    ensures { result ≡ record { low = spot sort row low; high = spot sort row high; written = written } }
{
    let start = (row * SORTS + sort) * PLACES;
    Span {
        low: start + u128::from(low),
        high: start + high,
        written,
    }
}
