//! What two access sets share.
ghost use Rattle.std.specs.Prelude.{◌≡◌, IfOk, false, filter, map, true};
ghost use Rattle.std.specs.Option.{option_map};
ghost use Rattle.wave_pick.specs.Holding as model;
ghost use Rattle.wave_pick.specs.Sharing.{is_single, shared_if};
ghost use Rattle.world_parts.specs.Uses.{item_meant, use_meant};

use std::alloc::{AllocError, Global};
use world_parts::{Footprint, Item, Use, share};

/// What the first use of an access set that collides with one of another shares with that one.
///
/// # Errors
///
/// Out of memory.
pub fn shared_of(
    alloc: Global,
    one: &Footprint,
    other: &Footprint,
) -> Result<Option<Item>, AllocError>
    ensures { IfOk result (λ found. option_map item_meant found
        ≡ model.shared_of one.now other.now) }
{
    shared_among(alloc, one.uses(), other.uses())
}

/// What the first of some uses that collides with one of some others shares with that one.
fn shared_among(alloc: Global, uses: &[Use], others: &[Use]) -> Result<Option<Item>, AllocError>
    ensures { IfOk result (λ found. option_map item_meant found
        ≡ model.shared_of (map use_meant uses.now) (map use_meant others.now)) }
{
    let written = written_of(alloc, others)?;
    for used in uses {
        if let Some(item) = shared_in(alloc, used, others, written.as_slice())? {
            return Ok(Some(item));
        }
    }
    Ok(None)
}

/// Those of some uses that are written.
fn written_of(alloc: Global, uses: &[Use]) -> Result<Vec<&Use>, AllocError>
    ensures { IfOk result (λ written. map (λ u. u.now) written.items
        ≡ filter (λ u. u.written) uses.now) }
{
    let mut written = Vec::new(alloc);
    for used in uses {
        if used.written {
            written.push(used)?;
        }
    }
    Ok(written)
}

/// What a use shares with the first of some others that it collides with. One that only reads
/// collides with none but the written ones of them.
fn shared_in(
    alloc: Global,
    used: &Use,
    others: &[Use],
    written: &[&Use],
) -> Result<Option<Item>, AllocError>
    requires { map (λ u. u.now) written.now ≡ filter (λ u. u.written) others.now }
    ensures { IfOk result (λ found. option_map item_meant found
        ≡ model.shared_with (use_meant used.now) (map use_meant others.now)) }
{
    if used.written {
        shared_with(alloc, used, others)
    } else {
        shared_with_those(alloc, used, written)
    }
}

/// What a use shares with the first of some others that it collides with: nothing where it collides
/// with none.
///
/// # Errors
///
/// Out of memory.
pub fn shared_with(alloc: Global, used: &Use, others: &[Use]) -> Result<Option<Item>, AllocError>
    ensures { IfOk result (λ found. option_map item_meant found
        ≡ model.shared_with (use_meant used.now) (map use_meant others.now)) }
{
    for other in others {
        if let Some(item) = shared_by(alloc, used, other)? {
            return Ok(Some(item));
        }
    }
    Ok(None)
}

/// What a use shares with the first that it collides with of some others picked from a list.
fn shared_with_those(alloc: Global, used: &Use, others: &[&Use]) -> Result<Option<Item>, AllocError>
    ensures { IfOk result (λ found. option_map item_meant found
        ≡ model.shared_with (use_meant used.now) (map use_meant (map (λ u. u.now) others.now))) }
{
    for other in others {
        if let Some(item) = shared_by(alloc, used, other)? {
            return Ok(Some(item));
        }
    }
    Ok(None)
}

/// What two uses share where they collide.
fn shared_by(alloc: Global, used: &Use, other: &Use) -> Result<Option<Item>, AllocError>
    ensures { IfOk result (λ found. option_map item_meant found
        ≡ model.shared_by (use_meant used.now) (use_meant other.now)) }
{
    if !used.written && !other.written {
        return Ok(None);
    }
    shared(alloc, &used.item, &other.item)
}

/// What two items share, if they share a part of a world.
fn shared(alloc: Global, one: &Item, other: &Item) -> Result<Option<Item>, AllocError>
    ensures { IfOk result (λ found. option_map item_meant found
        ≡ shared_if (item_meant one.now) (item_meant other.now)) }
{
    if !share(one, other) {
        return Ok(None);
    }
    Ok(Some(shared_item(alloc, one, other)?))
}

/// What two items share that share a part of a world: the single part that one of them is, or else
/// what is in both.
fn shared_item(alloc: Global, one: &Item, other: &Item) -> Result<Item, AllocError>
    ensures { IfOk result (λ item. item_meant item
        ≡ model.shared_item (item_meant one.now) (item_meant other.now)) }
{
    if is_single(one) {
        copied(alloc, one)
    } else if is_single(other) {
        copied(alloc, other)
    } else {
        Ok(common(one, other))
    }
}

/// Whether an item is a single part of a world.
fn is_single(item: &Item) -> bool
    ensures { result ≡ is_single (item_meant item.now) }
{
    match item {
        Item::Chain(_)
        | Item::Ring(_)
        | Item::Slot(_, _)
        | Item::Descriptor(_)
        | Item::Description(_)
        | Item::Position(_)
        | Item::Size(_)
        | Item::Name(_, _)
        | Item::Names(_) => true,
        _ => false,
    }
}

/// The same single part once more.
fn copied(alloc: Global, item: &Item) -> Result<Item, AllocError>
    requires { is_single (item_meant item.now) ≡ true }
    ensures { IfOk result (λ copy. item_meant copy ≡ item_meant item.now) }
{
    match item {
        Item::Chain(chain) => Ok(Item::Chain(*chain)),
        Item::Ring(ring) => Ok(Item::Ring(*ring)),
        Item::Slot(ring, slot) => Ok(Item::Slot(*ring, *slot)),
        Item::Descriptor(number) => Ok(Item::Descriptor(*number)),
        Item::Description(number) => Ok(Item::Description(*number)),
        Item::Position(number) => Ok(Item::Position(*number)),
        Item::Size(node) => Ok(Item::Size(*node)),
        Item::Name(directory, name) => Ok(Item::Name(*directory, name.clone()?)),
        Item::Names(directory) => Ok(Item::Names(*directory)),
        _ => Ok(Item::AllDescriptors),
    }
}

/// What is in both of two items that share a part of a world, where neither is a single part.
fn common(one: &Item, other: &Item) -> Item
    requires one { is_single (item_meant one.now) ≡ false }
    requires other { is_single (item_meant other.now) ≡ false }
    ensures { item_meant result ≡ model.shared_item (item_meant one.now) (item_meant other.now) }
{
    match (one, other) {
        (Item::Bytes(node, low, high), Item::Bytes(_, from, to)) => {
            Item::Bytes(*node, *low.max(from), *high.min(to))
        }
        (Item::Bytes(node, low, high), _)
        | (Item::AllBytesAndSizes(_), Item::Bytes(node, low, high)) => {
            Item::Bytes(*node, *low, *high)
        }
        (Item::AllBytesAndSizes(below), Item::AllBytesAndSizes(other)) => {
            Item::AllBytesAndSizes(*below.min(other))
        }
        (Item::AllBytesAndSizes(below), _) => Item::AllBytesAndSizes(*below),
        (Item::Buffer(ring, index, low, high), Item::Buffer(_, _, from, to)) => {
            Item::Buffer(*ring, *index, *low.max(from), *high.min(to))
        }
        (Item::Buffer(ring, index, low, high), _) => Item::Buffer(*ring, *index, *low, *high),
        (Item::AllNames(below), Item::AllNames(other)) => Item::AllNames(*below.min(other)),
        (Item::AllNames(below), _) => Item::AllNames(*below),
        (Item::AllPositions(below), Item::AllPositions(other)) => {
            Item::AllPositions(*below.min(other))
        }
        (Item::AllPositions(below), _) => Item::AllPositions(*below),
        (Item::AllDescriptions(below), Item::AllDescriptions(other)) => {
            Item::AllDescriptions(*below.min(other))
        }
        (Item::AllDescriptions(below), _) => Item::AllDescriptions(*below),
        _ => Item::AllDescriptors,
    }
}
