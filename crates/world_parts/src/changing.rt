//! The changes of a world's maps.
ghost use Rattle.std.specs.Prelude.{◌≡◌, ◌+◌, ◌≤◌, length, OnOk};
ghost use Rattle.entry_checks.specs.Operation.{file_limit};
ghost use Rattle.file_tree.specs.Kinds.{kind_meant};
ghost use Rattle.finite_maps.specs.Table.{adjust_number, insert, number_keys};
ghost use Rattle.file_tree.specs.Tree.{renamed_node};
ghost use Rattle.world_parts.specs.Uses.{broken_meant};
ghost use Rattle.world_parts.specs.World.{apply};
ghost use Rattle.world_parts.specs.World as change;

use crate::broken::{Broken, Flag};
use crate::state::State;
use file_tree::Kind;
use std::alloc::{AllocError, Global};
use trace_format::Description;

impl State {
    /// Makes a node: a directory without names, or an empty file. One that had the number goes.
    ///
    /// # Errors
    ///
    /// Out of memory.
    pub fn add_node(&mut self, alloc: Global, number: u32, kind: Kind) -> Result<(), AllocError>
        ensures { OnOk result
            (self.new ≡ apply (change.make_node number (kind_meant kind)) self.old) }
    {
        self.nodes.add_node(alloc, number, kind)
    }

    /// Lets a name of a directory lead to a node, or to none. Where there is no such directory
    /// nothing changes.
    ///
    /// # Errors
    ///
    /// Out of memory.
    pub fn set_name(
        &mut self,
        alloc: Global,
        directory: u32,
        name: &[u8],
        node: Option<u32>,
    ) -> Result<(), AllocError>
        ensures { OnOk result (self.new ≡ record self.old {
          nodes = adjust_number (renamed_node name.now node) self.old.nodes directory;
        }) }
    {
        self.nodes.set_name(alloc, directory, name, node)
    }

    /// Fills a registered file of a ring, or empties it.
    ///
    /// # Errors
    ///
    /// Out of memory.
    pub fn set_slot(
        &mut self,
        ring: u32,
        number: u32,
        description: Option<u32>,
    ) -> Result<(), AllocError>
        ensures { OnOk result
            (self.new ≡ apply (change.set_slot ring number description) self.old) }
    {
        self.slots.set(ring, number, description)
    }

    /// Gives a descriptor of the process an open file description, or frees it.
    ///
    /// # Errors
    ///
    /// Out of memory.
    pub fn set_descriptor(
        &mut self,
        number: u32,
        description: Option<u32>,
    ) -> Result<(), AllocError>
        ensures { OnOk result
            (self.new ≡ apply (change.set_descriptor number description) self.old) }
    {
        self.descriptors.set(number, description)
    }

    /// Makes an open file description. One that had the number goes.
    ///
    /// # Errors
    ///
    /// Out of memory.
    pub fn add_description(
        &mut self,
        number: u32,
        description: Description,
    ) -> Result<(), AllocError>
        ensures { OnOk result (self.new ≡ record self.old {
          descriptions = insert number_keys.total self.old.descriptions number description;
        }) }
    {
        self.descriptions.set(number, description)
    }

    /// Moves the position of an open file description. Where there is none nothing changes.
    pub fn set_position(&mut self, description: u32, position: u64)
        ensures { self.new ≡ apply (change.set_position description position) self.old }
    {
        self.descriptions.set_position(description, position);
    }

    /// Cuts a file, or extends it with zeros, to a size. Where the node is no file nothing changes.
    ///
    /// # Errors
    ///
    /// Out of memory.
    pub fn set_size(&mut self, node: u32, size: u64) -> Result<(), AllocError>
        requires { size ≤ file_limit }
        ensures { OnOk result (self.new ≡ apply (change.set_size node size) self.old) }
    {
        self.nodes.set_size(node, size)
    }

    /// Writes bytes into a file from `at` on; a gap past its end becomes zeros. Where the node is
    /// no file nothing changes.
    ///
    /// # Errors
    ///
    /// Out of memory.
    #[inline(always)]
    pub fn write(&mut self, node: u32, at: u64, bytes: &[u8]) -> Result<(), AllocError>
        requires { at + length bytes.now ≤ file_limit }
        ensures { OnOk result (self.new ≡ apply (change.write_bytes node at bytes.now) self.old) }
    {
        self.nodes.write(node, at, bytes)
    }

    /// Makes the bytes of a file from `low` up to `high` zeros, as far as it has them. Where the
    /// node is no file nothing changes.
    ///
    /// # Errors
    ///
    /// Out of memory.
    pub fn zero(&mut self, node: u32, low: u64, high: u64) -> Result<(), AllocError>
        ensures { OnOk result (self.new ≡ apply (change.zero_bytes node low high) self.old) }
    {
        self.nodes.zero(node, low, high)
    }

    /// Writes bytes over those of a registered buffer of a ring from `at` on. Those beyond its
    /// length are dropped, and where there is no buffer nothing changes.
    ///
    /// # Errors
    ///
    /// Out of memory.
    pub fn write_buffer(
        &mut self,
        ring: u32,
        index: u32,
        at: u64,
        bytes: &[u8],
    ) -> Result<(), AllocError>
        ensures { OnOk result
            (self.new ≡ apply (change.write_buffer ring index at bytes.now) self.old) }
    {
        self.buffers.write(ring, index, at, bytes)
    }

    /// Breaks a chain.
    ///
    /// # Errors
    ///
    /// Out of memory.
    pub fn break_chain(&mut self, chain: u32, broken: Broken) -> Result<(), AllocError>
        ensures { OnOk result
            (self.new ≡ apply (change.break_chain chain (broken_meant broken)) self.old) }
    {
        self.broken.insert(chain, Flag { broken })?;
        Ok(())
    }
}
