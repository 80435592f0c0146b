//! What is laid into a part of a world: nodes without their contents, and ranges of bytes.
ghost use Rattle.std.specs.Prelude.{◌≡◌, ◌+◌, ◌≤◌, [], length, replicate};
ghost use Rattle.std.specs.Prelude.{unwrap_or, IfOk, IfSome, OnOk};
ghost use Rattle.entry_checks.specs.Operation.{file_limit};
ghost use Rattle.extent_bytes.specs.Bytes.{overwritten, range_of, resized};
ghost use Rattle.file_tree.specs.Tree.{directory, file, rewritten_node, shown_node};
ghost use Rattle.finite_maps.specs.Table.{adjust_number, empty, insert, number_keys, pair_keys};
ghost use Rattle.ring_tables.specs.Contents.{rewritten_at};
ghost use Rattle.world_parts.specs.World as world;

use crate::state::State;
use extent_bytes::{Extents, MAX_LEN};
use std::alloc::{AllocError, Global};

impl State {
    /// How many names a directory has, those that aren't shown too; none where the node is none.
    pub(crate) fn name_count(&self, node: u32) -> Result<Option<usize>, AllocError>
        ensures { IfOk result (λ count. count ≡ world.name_count self.now node) }
    {
        self.nodes.name_count(node)
    }

    /// Makes a file of zeros. A node that had the number goes.
    pub(crate) fn add_zeros(
        &mut self,
        alloc: Global,
        node: u32,
        size: u64,
    ) -> Result<(), AllocError>
        requires { size ≤ file_limit }
        ensures { OnOk result (self.new ≡ record self.old {
          nodes = insert number_keys.total self.old.nodes node (file (resized [] size));
        }) }
    {
        self.nodes.add_zeros(alloc, node, size)
    }

    /// Makes a directory that shows none of its names. A node that had the number goes.
    pub(crate) fn add_listing(
        &mut self,
        alloc: Global,
        node: u32,
        others: usize,
    ) -> Result<(), AllocError>
        ensures { OnOk result (self.new ≡ record self.old {
          nodes = insert number_keys.total self.old.nodes node (directory empty others);
        }) }
    {
        self.nodes.add_listing(alloc, node, others)
    }

    /// Lets a directory show one of its other names. Where there is no such directory nothing
    /// changes.
    pub(crate) fn show(
        &mut self,
        alloc: Global,
        directory: u32,
        name: &[u8],
        node: u32,
    ) -> Result<(), AllocError>
        ensures { OnOk result (self.new ≡ record self.old {
          nodes = adjust_number (shown_node name.now node) self.old.nodes directory;
        }) }
    {
        self.nodes.show_name(alloc, directory, name, node)
    }

    /// Puts bytes in place of those of a file from `at` on, within its size. Where the node is no
    /// file nothing changes.
    pub(crate) fn put_bytes(&mut self, node: u32, at: u64, part: Extents) -> Result<(), AllocError>
        requires { IfSome (world.size self.old node) (λ size. at + length part ≤ size) }
        ensures { OnOk result (self.new ≡ record self.old {
          nodes = adjust_number
              (rewritten_node (λ old. overwritten old at part)) self.old.nodes node;
        }) }
    {
        self.nodes.put_back(node, at, part)
    }

    /// Puts the bytes of another state's file from `low` up to `high` in place of those of the file
    /// of the same number. Where that node is no file nothing changes.
    pub(crate) fn copy_file_range(
        &mut self,
        from: &State,
        node: u32,
        low: u64,
        high: u64,
    ) -> Result<(), AllocError>
        requires forward { low ≤ high }
        requires there { high ≤ length (unwrap_or (world.bytes from.now node) []) }
        requires inside { IfSome (world.size self.old node) (λ size. high ≤ size) }
        ensures { OnOk result (self.new ≡ record self.old {
          nodes = adjust_number (rewritten_node (λ old. overwritten
              old low (range_of (unwrap_or (world.bytes from.now node) []) low high)))
              self.old.nodes node;
        }) }
    {
        self.nodes.copy_range(&from.nodes, node, low, high)
    }

    /// Makes a registered buffer of zeros. One that was there goes.
    pub(crate) fn add_buffer(&mut self, ring: u32, index: u32, len: u64) -> Result<(), AllocError>
        requires { len ≤ MAX_LEN }
        ensures { OnOk result (self.new ≡ record self.old {
          buffers = insert pair_keys.total self.old.buffers (ring, index) (replicate len 0);
        }) }
    {
        self.buffers.add_zeros(ring, index, len)
    }

    /// Puts bytes in place of those of a registered buffer from `at` on, within its length.
    pub(crate) fn put_buffer_bytes(
        &mut self,
        ring: u32,
        index: u32,
        at: u64,
        part: Extents,
    ) -> Result<(), AllocError>
        requires { at + length part ≤ length (unwrap_or (world.buffer self.old ring index) []) }
        ensures { OnOk result (self.new ≡ record self.old {
          buffers = rewritten_at (λ old. overwritten old at part) self.old.buffers ring index;
        }) }
    {
        self.buffers.put_back(ring, index, at, part)
    }

    /// Puts the bytes of another state's registered buffer from `low` up to `high` in place of those
    /// of the buffer of the same ring and index. Where there is no such buffer nothing changes.
    pub(crate) fn copy_buffer_range(
        &mut self,
        from: &State,
        ring: u32,
        index: u32,
        low: u64,
        high: u64,
    ) -> Result<(), AllocError>
        requires forward { low ≤ high }
        requires there { high ≤ length (unwrap_or (world.buffer from.now ring index) []) }
        requires inside { high ≤ length (unwrap_or (world.buffer self.old ring index) []) }
        ensures { OnOk result (self.new ≡ record self.old {
          buffers = rewritten_at (λ old. overwritten
              old low (range_of (unwrap_or (world.buffer from.now ring index) []) low high))
              self.old.buffers ring index;
        }) }
    {
        self.buffers
            .copy_range(&from.buffers, ring, index, low, high)
    }
}
