//! What a part shows of a world: items that are copied one by one.
ghost use Rattle.std.specs.Prelude.{◌≡◌, length, map, OnOk, Some, T};
ghost use Rattle.std.specs.Option.{option_map};
ghost use Rattle.world_parts.specs.Copying.{IsCopied, IsNearer, IsShadow};
ghost use Rattle.world_parts.specs.Copying.{looked_up, nothing, outline};
ghost use Rattle.world_parts.specs.Items.{Agree, all_descriptors, buffer_bytes, chain_flag};
ghost use Rattle.world_parts.specs.Items.{description_at, descriptor_at, file_bytes, name_at};
ghost use Rattle.world_parts.specs.Items.{one, position_of, slot_at};
ghost use Rattle.world_parts.specs.Cutting.{is_narrow, is_narrow_use};
ghost use Rattle.world_parts.specs.Uses.{item_meant, use_meant};
ghost use Rattle.world_parts.specs.World as world;

use crate::footprint::{Item, Use};
use crate::state::State;
use file_tree::Tree;
use indexmap::IndexMap;
use ring_tables::{Buffers, Descriptions, Descriptors, Slots};
use std::alloc::{AllocError, Global};

impl State {
    /// A state in which nothing is.
    pub(crate) fn nothing(alloc: Global) -> Self
        ensures { result ≡ nothing }
    {
        State {
            nodes: Tree::empty(alloc),
            descriptions: Descriptions::new(alloc),
            slots: Slots::new(alloc),
            descriptors: Descriptors::new(alloc),
            buffers: Buffers::new(alloc),
            broken: IndexMap::new(alloc),
            shares_texts: true,
        }
    }

    /// Copies the flag of a chain.
    fn copy_chain(&mut self, from: &State, chain: u32) -> Result<(), AllocError>
        requires { IsShadow from.now self.old }
        ensures { OnOk result (IsCopied from.now self.old self.new (one (chain_flag chain))) }
    {
        let Some(broken) = from.broken(chain) else {
            return Ok(());
        };
        self.break_chain(chain, broken)
    }

    /// Copies a registered file of a ring.
    fn copy_slot(&mut self, from: &State, ring: u32, number: u32) -> Result<(), AllocError>
        requires { IsShadow from.now self.old }
        ensures { OnOk result (IsCopied from.now self.old self.new (one (slot_at ring number))) }
    {
        self.set_slot(ring, number, from.slot(ring, number))
    }

    /// Copies a descriptor of the process.
    fn copy_descriptor(&mut self, from: &State, number: u32) -> Result<(), AllocError>
        requires { IsShadow from.now self.old }
        ensures { OnOk result (IsCopied from.now self.old self.new (one (descriptor_at number))) }
    {
        self.set_descriptor(number, from.descriptor(number))
    }

    /// Copies all descriptors of the process.
    fn copy_descriptors(&mut self, from: &State) -> Result<(), AllocError>
        requires { IsShadow from.now self.old }
        ensures { OnOk result (IsCopied from.now self.old self.new all_descriptors) }
    {
        let descriptors = from.descriptors.copy()?;
        self.descriptors = descriptors;
        Ok(())
    }

    /// Copies what a node looks like from outside: what it is, and how many bytes or names it has.
    /// A file gets zeros, and a directory shows none of its names.
    fn copy_node(&mut self, alloc: Global, from: &State, node: u32) -> Result<(), AllocError>
        requires { IsShadow from.now self.old }
        ensures nearer { OnOk result (IsNearer from.now self.old self.new) }
        ensures node { OnOk result (outline self.new node ≡ outline from.now node) }
    {
        if self.kind(node).is_some() {
            return Ok(());
        }
        if let Some(size) = from.size(node) {
            return self.add_zeros(alloc, node, size);
        }
        let Some(count) = from.name_count(node)? else {
            return Ok(());
        };
        self.add_listing(alloc, node, count)
    }

    /// Copies an open file description with its position, and what its node looks like.
    fn copy_description(
        &mut self,
        alloc: Global,
        from: &State,
        number: u32,
    ) -> Result<(), AllocError>
        requires { IsShadow from.now self.old }
        ensures opened { OnOk result
            (IsCopied from.now self.old self.new (one (description_at number))) }
        ensures position { OnOk result
            (IsCopied from.now self.old self.new (one (position_of number))) }
    {
        let Some(description) = from.description(number) else {
            return Ok(());
        };
        self.copy_node(alloc, from, description.node)?;
        self.add_description(number, description)
    }

    /// Lets a directory that looks like the other's show a name.
    fn show_name(
        &mut self,
        alloc: Global,
        from: &State,
        directory: u32,
        name: &[u8],
        node: u32,
    ) -> Result<(), AllocError>
        requires shadow { IsShadow from.now self.old }
        requires leads { looked_up from.now directory name.now ≡ Some node }
        requires directory { outline self.old directory ≡ outline from.now directory }
        requires node { world.kind self.old node ≡ world.kind from.now node }
        ensures { OnOk result
            (IsCopied from.now self.old self.new (one (name_at directory name.now))) }
    {
        if self.name(directory, name).is_some() {
            return Ok(());
        }
        self.show(alloc, directory, name, node)
    }

    /// Copies what a name of a directory leads to, and what the directory and the node look like.
    fn copy_name(
        &mut self,
        alloc: Global,
        from: &State,
        directory: u32,
        name: &[u8],
    ) -> Result<(), AllocError>
        requires { IsShadow from.now self.old }
        ensures { OnOk result
            (IsCopied from.now self.old self.new (one (name_at directory name.now))) }
    {
        self.copy_node(alloc, from, directory)?;
        let Some(node) = from.name(directory, name) else {
            return Ok(());
        };
        self.copy_node(alloc, from, node)?;
        self.show_name(alloc, from, directory, name, node)
    }

    /// Copies the bytes of a file from `low` up to `high`, and what the file looks like.
    fn copy_bytes(
        &mut self,
        alloc: Global,
        from: &State,
        node: u32,
        low: u64,
        high: u64,
    ) -> Result<(), AllocError>
        requires { IsShadow from.now self.old }
        ensures { OnOk result (IsCopied from.now self.old self.new (file_bytes node low high)) }
    {
        self.copy_node(alloc, from, node)?;
        let Some(size) = from.size(node) else {
            return Ok(());
        };
        let end = high.min(size);
        let start = low.min(end);
        self.copy_file_range(from, node, start, end)
    }

    /// Copies the length of a registered buffer of a ring. One that wasn't there is zeros.
    fn copy_buffer_len(&mut self, from: &State, ring: u32, index: u32) -> Result<(), AllocError>
        requires { IsShadow from.now self.old }
        ensures nearer { OnOk result (IsNearer from.now self.old self.new) }
        ensures len { OnOk result (option_map length (world.buffer self.new ring index)
            ≡ option_map length (world.buffer from.now ring index)) }
    {
        if self.buffer_len(ring, index).is_some() {
            return Ok(());
        }
        let Some(len) = from.buffers.len(ring, index) else {
            return Ok(());
        };
        self.add_buffer(ring, index, len)
    }

    /// Copies the bytes of a registered buffer of a ring from `low` up to `high`, as far as it has
    /// them, and its length.
    fn copy_buffer(
        &mut self,
        from: &State,
        ring: u32,
        index: u32,
        low: u64,
        high: u64,
    ) -> Result<(), AllocError>
        requires { IsShadow from.now self.old }
        ensures { OnOk result
            (IsCopied from.now self.old self.new (buffer_bytes ring index low high)) }
    {
        self.copy_buffer_len(from, ring, index)?;
        let Some(len) = from.buffer_len(ring, index) else {
            return Ok(());
        };
        let end = high.min(len);
        let start = low.min(end);
        self.copy_buffer_range(from, ring, index, start, end)
    }

    /// Copies an item that a place uses. Items of a whole sort are none, but for the descriptors.
    fn copy_use(&mut self, alloc: Global, from: &State, used: &Use) -> Result<(), AllocError>
        requires shadow { IsShadow from.now self.old }
        requires narrow { T (is_narrow_use (use_meant used.now)) }
        ensures { OnOk result (IsCopied from.now self.old self.new (item_meant used.now.item)) }
    {
        match &used.item {
            Item::Chain(chain) => self.copy_chain(from, *chain),
            Item::Slot(ring, number) => self.copy_slot(from, *ring, *number),
            Item::Descriptor(number) => self.copy_descriptor(from, *number),
            Item::Description(number) => self.copy_description(alloc, from, *number),
            Item::Position(number) => self.copy_description(alloc, from, *number),
            Item::Size(node) => self.copy_node(alloc, from, *node),
            Item::Bytes(node, low, high) => self.copy_bytes(alloc, from, *node, *low, *high),
            Item::Name(directory, name) => self.copy_name(alloc, from, *directory, name),
            Item::Names(directory) => self.copy_node(alloc, from, *directory),
            Item::Buffer(ring, index, low, high) => {
                self.copy_buffer(from, *ring, *index, *low, *high)
            }
            Item::AllDescriptors => self.copy_descriptors(from),
            _ => Ok(()),
        }
    }

    /// Copies what a narrow access set names.
    ///
    /// # Errors
    ///
    /// Out of memory.
    pub(crate) fn copy_uses(
        &mut self,
        alloc: Global,
        from: &State,
        uses: &[Use],
    ) -> Result<(), AllocError>
        requires shadow { IsShadow from.now self.old }
        requires narrow { T (is_narrow (map use_meant uses.now)) }
        ensures shadow { OnOk result (IsShadow from.now self.new) }
        ensures agrees { OnOk result (Agree (map use_meant uses.now) from.now self.new) }
    {
        for used in uses {
            self.copy_use(alloc, from, used)?;
        }
        Ok(())
    }
}
