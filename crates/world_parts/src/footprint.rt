//! What a place reads and writes.
ghost use Rattle.std.specs.Prelude.{◌≡◌, ◌≤◌, ◌||◌, ◌&&◌, ◌++◌, ◌∷◌, [], drop, length, map, take};
ghost use Rattle.std.specs.Prelude.{true, IfOk, OnOk};
ghost use Rattle.std.specs.List.{list_any};
ghost use Rattle.world_parts.specs.Items as items;
ghost use Rattle.world_parts.specs.Uses.{item_meant, only_read, use_meant};

use std::alloc::{AllocError, Global};
use std::marker::Model;

/// Room for the uses of most places.
const USUAL_USES: usize = 12;

/// A part of a world, or all parts of a sort whose numbers are below one.
#[derive(Drop)]
pub enum Item {
    /// The flag of a chain.
    Chain(u32),
    /// The order of a ring, which keeps barriers apart.
    Ring(u32),
    /// A registered file of a ring.
    Slot(u32, u32),
    /// A descriptor of the process.
    Descriptor(u32),
    /// An open file description, apart from its position.
    Description(u32),
    /// The position of an open file description.
    Position(u32),
    /// The size of a file.
    Size(u32),
    /// The bytes of a file from one offset up to another.
    Bytes(u32, u64, u64),
    /// What a name of a directory leads to.
    Name(u32, Vec<u8>),
    /// How many names a directory has.
    Names(u32),
    /// The bytes of a registered buffer of a ring from one offset up to another.
    Buffer(u32, u32, u64, u64),
    /// The names of all directories below a number.
    AllNames(u32),
    /// The bytes and sizes of all files below a number.
    AllBytesAndSizes(u32),
    /// The positions of all open file descriptions below a number.
    AllPositions(u32),
    /// All open file descriptions below a number.
    AllDescriptions(u32),
    /// All descriptors of the process.
    AllDescriptors,
}

/// An item that a place reads or writes.
#[derive(Drop)]
pub struct Use {
    pub item: Item,
    pub written: bool,
}

/// The items that a place reads and writes.
#[derive(Drop)]
pub struct Footprint {
    pub(crate) uses: Vec<Use>,
}

impl Model for Footprint {
    ghost use Rattle.std.specs.Prelude.{map};
    ghost use Rattle.world_parts.specs.Items.{Footprint};
    ghost use Rattle.world_parts.specs.Uses.{use_meant};

    ghost Value = { Footprint };

    ghost view = { λ f. map use_meant f.uses.items };
}

impl Footprint {
    /// An access set without items.
    pub fn new(alloc: Global) -> Self
        ensures { result ≡ [] }
    {
        Footprint {
            uses: Vec::new(alloc),
        }
    }

    /// Adds an item that is read or written.
    ///
    /// # Errors
    ///
    /// Out of memory.
    #[inline(always)]
    pub fn push(&mut self, used: Use) -> Result<(), AllocError>
        ensures { OnOk result (self.new ≡ self.old ++ use_meant used ∷ []) }
    {
        if self.uses.is_empty() {
            self.uses.reserve(USUAL_USES)?;
        }
        self.uses.push(used)?;
        Ok(())
    }

    /// Adds an item that is read.
    ///
    /// # Errors
    ///
    /// Out of memory.
    pub fn reads(&mut self, item: Item) -> Result<(), AllocError>
        ensures { OnOk result (self.new ≡ self.old ++ items.reads (item_meant item) ∷ []) }
    {
        self.push(Use {
            item,
            written: false,
        })
    }

    /// Adds an item that is written.
    ///
    /// # Errors
    ///
    /// Out of memory.
    pub fn writes(&mut self, item: Item) -> Result<(), AllocError>
        ensures { OnOk result (self.new ≡ self.old ++ items.writes (item_meant item) ∷ []) }
    {
        self.push(Use {
            item,
            written: true,
        })
    }

    /// Adds the items of another access set.
    ///
    /// # Errors
    ///
    /// Out of memory.
    pub fn append(&mut self, mut other: Footprint) -> Result<(), AllocError>
        ensures { OnOk result (self.new ≡ self.old ++ other) }
    {
        self.uses.append(&mut other.uses)
    }

    /// How many items are read and written.
    pub fn len(&self) -> usize
        ensures { result ≡ length self.now }
    {
        self.uses.len()
    }

    /// Makes every item but the first ones, as many as a number, one that is only read.
    pub fn make_read_only(&mut self, first: usize)
        requires { first ≤ length self.old }
        ensures { self.new ≡ take first self.old
            ++ map (λ u. items.reads u.item) (drop first self.old) }
    {
        let (_, behind) = self.uses.as_mut_slice().split_at_mut(first);
        make_reads(behind);
    }

    /// Drops all items but the first ones, as many as a number.
    pub fn truncate(&mut self, count: usize)
        ensures { self.new ≡ take count self.old }
    {
        self.uses.truncate(count);
    }

    /// A copy of the first items, as many as a number.
    ///
    /// # Errors
    ///
    /// Out of memory.
    pub fn first(&self, alloc: Global, count: usize) -> Result<Footprint, AllocError>
        requires { count ≤ length self.now }
        ensures { IfOk result (λ f. f ≡ take count self.now) }
    {
        copies(alloc, &self.uses.as_slice()[..count])
    }

    /// What is read and written, in the order in which it was added.
    pub fn uses(&self) -> &[Use]
        ensures { map use_meant result.now ≡ self.now }
    {
        self.uses.as_slice()
    }
}

/// A copy of an item.
fn copied(alloc: Global, item: &Item) -> Result<Item, AllocError>
    ensures { IfOk result (λ copy. item_meant copy ≡ item_meant item.now) }
{
    Ok(match item {
        Item::Chain(chain) => Item::Chain(*chain),
        Item::Ring(ring) => Item::Ring(*ring),
        Item::Slot(ring, slot) => Item::Slot(*ring, *slot),
        Item::Descriptor(number) => Item::Descriptor(*number),
        Item::Description(number) => Item::Description(*number),
        Item::Position(description) => Item::Position(*description),
        Item::Size(node) => Item::Size(*node),
        Item::Bytes(node, low, high) => Item::Bytes(*node, *low, *high),
        Item::Name(directory, name) => {
            Item::Name(*directory, Vec::from_slice(alloc, name.as_slice())?)
        }
        Item::Names(directory) => Item::Names(*directory),
        Item::Buffer(ring, index, low, high) => Item::Buffer(*ring, *index, *low, *high),
        Item::AllNames(below) => Item::AllNames(*below),
        Item::AllBytesAndSizes(below) => Item::AllBytesAndSizes(*below),
        Item::AllPositions(below) => Item::AllPositions(*below),
        Item::AllDescriptions(below) => Item::AllDescriptions(*below),
        Item::AllDescriptors => Item::AllDescriptors,
    })
}

/// Copies of some uses.
fn copies(alloc: Global, uses: &[Use]) -> Result<Footprint, AllocError>
    ensures { IfOk result (λ f. f ≡ map use_meant uses.now) }
{
    let mut footprint = Footprint::new(alloc);
    for used in uses {
        footprint.push(Use {
            item: copied(alloc, &used.item)?,
            written: used.written,
        })?;
    }
    Ok(footprint)
}

/// Makes every use one that reads.
fn make_reads(uses: &mut [Use])
    ensures { uses.new ≡ map only_read uses.old }
{
    for used in uses.iter_mut() {
        used.written = false;
    }
}

/// Whether two access sets share an item, of a range a byte, that at least one of them writes. It
/// takes no memory.
pub fn collide(one: &Footprint, other: &Footprint) -> bool
    ensures { result ≡ items.collide one.now other.now }
{
    let uses = one.uses();
    let others = other.uses();
    any_writes_some(uses, others) || any_writes_some(others, uses)
}

/// Whether one of some uses writes a part of the item of one of some others. It takes no memory, and
/// of the first it passes over those that only read, which are most.
pub fn any_writes_some(uses: &[Use], others: &[Use]) -> bool
    ensures { result ≡ list_any (λ u. u.written && list_any (λ v.
        items.share (item_meant u.item) (item_meant v.item)) others.now) uses.now }
{
    uses.iter()
        .any(|used| used.written && shares_one(&used.item, others))
}

/// Whether an item shares a part of a world with that of one of some uses.
fn shares_one(item: &Item, uses: &[Use]) -> bool
    ensures { result ≡ list_any (λ u. items.share (item_meant item.now) (item_meant u.item))
        uses.now }
{
    uses.iter().any(|used| share(item, &used.item))
}

/// Whether an access set writes a part of an item. It takes no memory.
pub fn writes_item(footprint: &Footprint, item: &Item) -> bool
    ensures { result ≡ list_any (λ u. u.written && items.share u.item (item_meant item.now))
        footprint.now }
{
    any_writes(footprint.uses(), item)
}

fn any_writes(uses: &[Use], item: &Item) -> bool
    ensures { result ≡ list_any (λ u. u.written
        && items.share (item_meant u.item) (item_meant item.now)) uses.now }
{
    uses.iter()
        .any(|used| used.written && share(&used.item, item))
}

/// Whether an access set has a part of an item. It takes no memory.
pub fn touches_item(footprint: &Footprint, item: &Item) -> bool
    ensures { result ≡ list_any (λ u. items.share u.item (item_meant item.now)) footprint.now }
{
    any_touches(footprint.uses(), item)
}

fn any_touches(uses: &[Use], item: &Item) -> bool
    ensures { result ≡ list_any (λ u. items.share (item_meant u.item) (item_meant item.now))
        uses.now }
{
    uses.iter().any(|used| share(&used.item, item))
}

/// Whether two access sets have the same uses in the same order. It takes no memory.
pub fn same_uses(one: &Footprint, other: &Footprint) -> bool
    ensures { result ≡ true → one.now ≡ other.now }
{
    let uses = one.uses();
    let others = other.uses();
    uses.len() == others.len() && are_same(uses, others)
}

/// Whether some uses are those at the start of some others.
fn are_same(uses: &[Use], others: &[Use]) -> bool
    requires { length uses.now ≡ length others.now }
    ensures { result ≡ true → map use_meant uses.now ≡ map use_meant others.now }
{
    for index in 0..uses.len() {
        if !is_same_use(&uses[index], &others[index]) {
            return false;
        }
    }
    true
}

/// Whether two uses are one.
fn is_same_use(one: &Use, other: &Use) -> bool
    ensures { result ≡ true → use_meant one.now ≡ use_meant other.now }
{
    one.written == other.written && is_same(&one.item, &other.item)
}

/// Whether two items are one.
fn is_same(one: &Item, other: &Item) -> bool
    ensures { result ≡ true → item_meant one.now ≡ item_meant other.now }
{
    match (one, other) {
        (Item::Chain(one), Item::Chain(other))
        | (Item::Descriptor(one), Item::Descriptor(other))
        | (Item::Description(one), Item::Description(other))
        | (Item::Position(one), Item::Position(other))
        | (Item::Size(one), Item::Size(other))
        | (Item::Names(one), Item::Names(other))
        | (Item::AllNames(one), Item::AllNames(other))
        | (Item::AllBytesAndSizes(one), Item::AllBytesAndSizes(other))
        | (Item::AllPositions(one), Item::AllPositions(other))
        | (Item::AllDescriptions(one), Item::AllDescriptions(other)) => one == other,
        (Item::Ring(one), Item::Ring(other)) => one == other,
        (Item::Slot(ring, one), Item::Slot(other_ring, other)) => {
            ring == other_ring && one == other
        }
        (Item::Bytes(one, low, high), Item::Bytes(other, from, to)) => {
            one == other && low == from && high == to
        }
        (Item::Name(directory, one), Item::Name(other_directory, other)) => {
            directory == other_directory && one.as_slice() == other.as_slice()
        }
        (Item::Buffer(ring, one, low, high), Item::Buffer(other_ring, other, from, to)) => {
            ring == other_ring && one == other && low == from && high == to
        }
        (Item::AllDescriptors, Item::AllDescriptors) => true,
        _ => false,
    }
}

/// Whether two items share a part of a world. It takes no memory.
pub fn share(one: &Item, other: &Item) -> bool
    ensures { result ≡ items.share (item_meant one.now) (item_meant other.now) }
{
    match (one, other) {
        (Item::Chain(number), Item::Chain(other))
        | (Item::Descriptor(number), Item::Descriptor(other))
        | (Item::Description(number), Item::Description(other))
        | (Item::Position(number), Item::Position(other))
        | (Item::Size(number), Item::Size(other))
        | (Item::Names(number), Item::Names(other)) => number == other,
        (Item::Ring(ring), Item::Ring(other)) => ring == other,
        (Item::Slot(ring, slot), Item::Slot(other_ring, other)) => {
            ring == other_ring && slot == other
        }
        (Item::Descriptor(_), Item::AllDescriptors)
        | (Item::AllDescriptors, Item::Descriptor(_) | Item::AllDescriptors) => true,
        (Item::Description(number), Item::AllDescriptions(below))
        | (Item::AllDescriptions(below), Item::Description(number))
        | (Item::Position(number), Item::AllPositions(below))
        | (Item::AllPositions(below), Item::Position(number))
        | (Item::Size(number), Item::AllBytesAndSizes(below))
        | (Item::AllBytesAndSizes(below), Item::Size(number))
        | (Item::Name(number, _) | Item::Names(number), Item::AllNames(below))
        | (Item::AllNames(below), Item::Name(number, _) | Item::Names(number)) => number < below,
        (Item::AllDescriptions(below), Item::AllDescriptions(other))
        | (Item::AllPositions(below), Item::AllPositions(other))
        | (Item::AllBytesAndSizes(below), Item::AllBytesAndSizes(other))
        | (Item::AllNames(below), Item::AllNames(other)) => *below > 0 && *other > 0,
        (Item::Bytes(node, low, high), Item::Bytes(other, from, to)) => {
            node == other && ranges_meet(*low, *high, *from, *to)
        }
        (Item::Bytes(node, low, high), Item::AllBytesAndSizes(below))
        | (Item::AllBytesAndSizes(below), Item::Bytes(node, low, high)) => {
            node < below && low < high
        }
        (Item::Name(directory, name), Item::Name(other_directory, other)) => {
            directory == other_directory && name.as_slice() == other.as_slice()
        }
        (Item::Buffer(ring, index, low, high), Item::Buffer(other_ring, other, from, to)) => {
            ring == other_ring && index == other && ranges_meet(*low, *high, *from, *to)
        }
        _ => false,
    }
}

/// Whether two ranges share an offset.
fn ranges_meet(low: u64, high: u64, from: u64, to: u64) -> bool
    ensures { result ≡ items.ranges_meet low high from to }
{
    low.max(from) < high.min(to)
}
