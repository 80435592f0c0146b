//! The world that a trace starts with.
ghost use Rattle.std.specs.Prelude.{◌≡◌, ◌≤◌, ◌∷◌, ◌++◌, [], map, All, IfOk, OnOk, length};
ghost use Rattle.entry_checks.specs.Operation.{file_limit};
ghost use Rattle.file_tree.specs.Tree.{a_file};
ghost use Rattle.finite_maps.specs.Table.{empty};
ghost use Rattle.recording.specs.Accepted.{IsAccepted};
ghost use Rattle.recording.specs.Limits.{buffers_limit, items_limit, table_limit};
ghost use Rattle.recording.specs.declared.recording.Ring.{Ring};
ghost use Rattle.trace_records.specs.Start.{range_end};
ghost use Rattle.trace_records.specs.declared.start.Item.{Item};
ghost use Rattle.trace_records.specs.declared.start.Range as start;
ghost use Rattle.world_parts.specs.Known.{Knows};
ghost use Rattle.world_parts.specs.Sized.{IsSized};
ghost use Rattle.world_parts.specs.Start as initial;
ghost use Rattle.world_parts.specs.World.{apply_all};
ghost use Rattle.world_parts.specs.World as change;

use crate::known::Known;
use crate::state::State;
use file_tree::{Kind, Tree};
use indexmap::IndexMap;
use recording::{Buffer, Description, Item, Node, Range, Recording, Ring};
use ring_tables::{Buffers, Descriptions, Descriptors, Slots};
use std::alloc::{AllocError, Global};

/// Adds the open file descriptions.
fn add_descriptions(
    table: &mut Descriptions,
    descriptions: &[Description],
) -> Result<(), AllocError>
    requires bare { table.old ≡ empty }
    requires count { length descriptions.now ≤ table_limit }
    ensures { OnOk result (table.new ≡ initial.descriptions_from 0 descriptions.now) }
{
    for (number, description) in descriptions.iter().enumerate() {
        table.set(number as u32, *description)?;
    }
    Ok(())
}

/// Adds the full descriptors.
fn add_descriptors(table: &mut Descriptors, descriptors: &[u32]) -> Result<(), AllocError>
    requires bare { table.old ≡ empty }
    requires count { length descriptors.now ≤ table_limit }
    ensures { OnOk result (table.new ≡ initial.descriptors_from 0 descriptors.now) }
{
    for (number, descriptor) in descriptors.iter().enumerate() {
        if let Some(description) = descriptor.checked_sub(1) {
            table.set(number as u32, Some(description))?;
        }
    }
    Ok(())
}

/// Adds the full slots of a ring.
fn add_slots(table: &mut Slots, ring: u32, slots: &[u32]) -> Result<(), AllocError>
    requires { length slots.now ≤ table_limit }
    ensures { OnOk result (table.new ≡ initial.slots_from ring 0 slots.now table.old) }
{
    for (number, slot) in slots.iter().enumerate() {
        if let Some(description) = slot.checked_sub(1) {
            table.set(ring, number as u32, Some(description))?;
        }
    }
    Ok(())
}

/// Adds the full slots of the rings.
fn add_all_slots(table: &mut Slots, rings: &[Ring]) -> Result<(), AllocError>
    requires bare { table.old ≡ empty }
    requires rings { length rings.now ≤ table_limit }
    requires slots { All (λ (r : Ring). length r.slots ≤ table_limit) rings.now }
    ensures { OnOk result (table.new ≡ initial.ring_slots 0 rings.now) }
{
    for (number, ring) in rings.iter().enumerate() {
        add_slots(table, number as u32, ring.slots.as_slice())?;
    }
    Ok(())
}

/// Adds the buffers of a ring, but for empty entries.
fn add_buffers(table: &mut Buffers, ring: u32, buffers: &[Buffer]) -> Result<(), AllocError>
    requires { length buffers.now ≤ buffers_limit }
    ensures { OnOk result (table.new ≡ initial.buffers_from ring 0 buffers.now table.old) }
{
    for (index, buffer) in buffers.iter().enumerate() {
        if buffer.len != 0 {
            table.add(ring, index as u32, buffer.len)?;
        }
    }
    Ok(())
}

/// Adds the buffers of the rings.
fn add_all_buffers(table: &mut Buffers, rings: &[Ring]) -> Result<(), AllocError>
    requires bare { table.old ≡ empty }
    requires rings { length rings.now ≤ table_limit }
    requires buffers { All (λ (r : Ring). length r.buffers ≤ buffers_limit) rings.now }
    ensures { OnOk result (table.new ≡ initial.ring_buffers 0 rings.now) }
{
    for (number, ring) in rings.iter().enumerate() {
        add_buffers(table, number as u32, ring.buffers.as_slice())?;
    }
    Ok(())
}

impl State {
    /// The state that a trace starts with.
    ///
    /// # Errors
    ///
    /// Out of memory.
    pub fn of(alloc: Global, trace: &Recording) -> Result<Self, AllocError>
        requires { IsAccepted trace.now }
        ensures { IfOk result (λ state. state ≡ initial.start trace.now) }
    {
        let mut state = State::bare(alloc, Tree::new(alloc)?);
        match state.fill(alloc, trace) {
            Ok(()) => Ok(state),
            Err(error) => {
                drop(state);
                Err(error)
            }
        }
    }

    /// Adds what a trace starts with.
    fn fill(&mut self, alloc: Global, trace: &Recording) -> Result<(), AllocError>
        requires trace { IsAccepted trace.now }
        requires bare { self.old ≡ initial.bare }
        ensures { OnOk result (self.new ≡ initial.start trace.now) }
    {
        self.add_items(alloc, trace.items.as_slice())?;
        self.open(trace)?;
        self.register(trace)
    }

    /// Adds the open file descriptions, and the descriptors that hold some.
    fn open(&mut self, trace: &Recording) -> Result<(), AllocError>
        requires trace { IsAccepted trace.now }
        requires descriptions { self.old.descriptions ≡ empty }
        requires descriptors { self.old.descriptors ≡ empty }
        ensures { OnOk result (self.new ≡ initial.opened trace.now self.old) }
    {
        add_descriptions(&mut self.descriptions, trace.descriptions.as_slice())?;
        add_descriptors(&mut self.descriptors, trace.descriptors.as_slice())
    }

    /// Adds the registered files and buffers of the rings.
    fn register(&mut self, trace: &Recording) -> Result<(), AllocError>
        requires trace { IsAccepted trace.now }
        requires slots { self.old.slots ≡ empty }
        requires buffers { self.old.buffers ≡ empty }
        ensures { OnOk result (self.new ≡ record self.old {
          slots = initial.ring_slots 0 trace.now.rings;
          buffers = initial.ring_buffers 0 trace.now.rings;
        }) }
    {
        add_all_slots(&mut self.slots, trace.rings.as_slice())?;
        add_all_buffers(&mut self.buffers, trace.rings.as_slice())
    }

    /// Adds the buffers of a new ring, but for empty entries, all of zeros.
    ///
    /// # Errors
    ///
    /// Out of memory. Some of the buffers may be there then.
    pub fn add_ring(&mut self, ring: u32, buffers: &[Buffer]) -> Result<(), AllocError>
        requires { length buffers.now ≤ buffers_limit }
        ensures added { OnOk result
            (self.new.buffers ≡ initial.buffers_from ring 0 buffers.now self.old.buffers) }
        ensures rest { self.new ≡ record self.old { buffers = self.new.buffers } }
    {
        add_buffers(&mut self.buffers, ring, buffers)
    }

    /// A state with a tree alone.
    fn bare(alloc: Global, nodes: Tree) -> Self
        ensures { result ≡ record initial.bare { nodes = nodes } }
    {
        State {
            nodes,
            descriptions: Descriptions::new(alloc),
            slots: Slots::new(alloc),
            descriptors: Descriptors::new(alloc),
            buffers: Buffers::new(alloc),
            broken: IndexMap::new(alloc),
            shares_texts: true,
        }
    }

    /// Adds the items of a trace. The first one makes node 1.
    fn add_items(&mut self, alloc: Global, items: &[Item]) -> Result<(), AllocError>
        requires count { length items.now ≤ items_limit }
        requires sizes { All IsSized items.now }
        ensures { OnOk result (self.new ≡ initial.with_items self.old 1 items.now) }
    {
        let mut known = Known::new(alloc);
        for (index, item) in items.iter().enumerate() {
            self.add_item(alloc, &mut known, index as u32 + 1, item)?;
        }
        Ok(())
    }

    fn add_item<'a>(
        &mut self,
        alloc: Global,
        known: &mut Known<'a>,
        number: u32,
        item: &'a Item,
    ) -> Result<(), AllocError>
        requires sizes { IsSized item.now }
        requires known { Knows self.old.nodes known.old }
        ensures named { OnOk result
            (self.new ≡ initial.with_node self.old number item.now.path item.now.node) }
        ensures known { OnOk result (Knows self.new.nodes known.new) }
    {
        let path = item.path.as_slice();
        match &item.node {
            Node::Directory => {
                self.make_node(alloc, known, number, Kind::Directory)?;
                self.name_item(alloc, known, path, number)
            }
            Node::File { size, ranges } => {
                self.add_file(alloc, known, number, *size, ranges.as_slice())?;
                self.name_item(alloc, known, path, number)
            }
            Node::OtherName { number } => self.name_item(alloc, known, path, *number),
        }
    }

    /// Adds a file of a size with bytes in some ranges, and zeros elsewhere.
    fn add_file(
        &mut self,
        alloc: Global,
        known: &mut Known<'_>,
        number: u32,
        size: u64,
        ranges: &[Range],
    ) -> Result<(), AllocError>
        requires bound { size ≤ file_limit }
        requires ranges { All (λ (r : start.Range). range_end r ≤ size) ranges.now }
        requires known { Knows self.old.nodes known.old }
        ensures added { OnOk result (self.new ≡ apply_all (change.make_node number a_file
            ∷ map (initial.range_written number) ranges.now ++ change.set_size number size ∷ [])
            self.old) }
        ensures known { OnOk result (Knows self.new.nodes known.new) }
    {
        self.make_node(alloc, known, number, Kind::File)?;
        self.write_ranges(alloc, number, ranges)?;
        self.set_size(number, size)
    }

    /// Writes the bytes of some ranges of a file.
    fn write_ranges(
        &mut self,
        alloc: Global,
        number: u32,
        ranges: &[Range],
    ) -> Result<(), AllocError>
        requires { All (λ (r : start.Range). range_end r ≤ file_limit) ranges.now }
        ensures { OnOk result
            (self.new ≡ apply_all (map (initial.range_written number) ranges.now) self.old) }
    {
        for range in ranges {
            self.write_from_blob(alloc, number, range.offset, &range.bytes)?;
        }
        Ok(())
    }
}
