//! The maps of a world.
ghost use Rattle.std.specs.Prelude.{◌≡◌, ◌==◌, ◌≤◌, [], length, unwrap_or, IfOk, IfSome, Some};
ghost use Rattle.std.specs.List.{find, range_with_len};
ghost use Rattle.std.specs.Prelude.{is_none};
ghost use Rattle.std.specs.Option.{option_map};
ghost use Rattle.entry_checks.specs.Operation.{file_limit};
ghost use Rattle.extent_bytes.specs.Bytes.{range_of};
ghost use Rattle.finite_maps.specs.Table.{get};
ghost use Rattle.file_tree.specs.Found.{node_of, walk_meant};
ghost use Rattle.file_tree.specs.Kinds.{kind_meant};
ghost use Rattle.file_tree.specs.Steps.{steps_left};
ghost use Rattle.file_tree.specs.Steps as steps;
ghost use Rattle.file_tree.specs.Walk as walk;
ghost use Rattle.world_parts.specs.Uses.{broken_meant};
ghost use Rattle.world_parts.specs.World as world;

use crate::broken::{Broken, Flag};
use extent_bytes::{Extents, ReadBytes};
use file_tree::{Kind, Place, Steps, Tree};
use indexmap::IndexMap;
use ring_tables::{Buffers, Descriptions, Descriptors, Slots};
use sqe_codec::Errno;
use std::alloc::{AllocError, Global};
use std::marker::Model;
use trace_format::Description;

/// The state of a replay: the file tree, the open file descriptions, the registered files and
/// buffers of the rings, the descriptors of the process, and the chains that broke.
///
/// A world and a part of one both hold their values so: what can be asked of the one can be asked
/// of the other.
#[derive(Drop)]
pub struct State {
    pub(crate) nodes: Tree,
    pub(crate) descriptions: Descriptions,
    pub(crate) slots: Slots,
    pub(crate) descriptors: Descriptors,
    pub(crate) buffers: Buffers,
    pub(crate) broken: IndexMap<u32, Flag>,
    // Whether files and buffers may share the texts of a trace. Of a trace that goes they hold copies.
    pub(crate) shares_texts: bool,
}

impl Model for State {
    ghost use Rattle.finite_maps.specs.Table.{number_keys};
    ghost use Rattle.finite_maps.specs.Maps.{table_of};
    ghost use Rattle.world_parts.specs.Codes.{world_code};
    ghost use Rattle.world_parts.specs.World.{World};

    ghost Value = { World };

    ghost coded = { world_code };

    ghost view = { λ s. record {
      nodes = s.nodes;
      descriptions = s.descriptions;
      slots = s.slots;
      descriptors = s.descriptors;
      buffers = s.buffers;
      broken = table_of number_keys.total s.broken.entries;
    } };
}

impl State {
    /// From here on bytes of a trace are copied into files and buffers. None of them shares a text
    /// then, so that a text takes memory no longer than it is there itself.
    pub fn copy_texts(&mut self)
        ensures { self.new ≡ self.old }
    {
        self.shares_texts = false;
    }

    /// The open file description that a registered file of a ring holds.
    #[inline(always)]
    pub fn slot(&self, ring: u32, number: u32) -> Option<u32>
        ensures { result ≡ world.slot self.now ring number }
    {
        self.slots.get(ring, number)
    }

    /// The open file description that a descriptor of the process holds.
    pub fn descriptor(&self, number: u32) -> Option<u32>
        ensures { result ≡ world.descriptor self.now number }
    {
        self.descriptors.get(number)
    }

    /// The lowest free descriptor of the first `count`.
    pub fn lowest_free(&self, count: u32) -> Option<u32>
        ensures { result
            ≡ find (λ n. is_none (world.descriptor self.now n)) (range_with_len 0 count) }
    {
        self.descriptors.lowest_free(count)
    }

    /// What an open file description says.
    #[inline(always)]
    pub fn description(&self, number: u32) -> Option<Description>
        ensures { result ≡ get self.now.descriptions number }
    {
        self.descriptions.get(number)
    }

    /// The position of an open file description: where a transfer without an offset starts.
    pub fn position(&self, description: u32) -> Option<u64>
        ensures { result ≡ world.position self.now description }
    {
        Some(self.descriptions.get(description)?.position)
    }

    /// What a node is; none where there is no such node.
    pub fn kind(&self, node: u32) -> Option<Kind>
        ensures { option_map kind_meant result ≡ world.kind self.now node }
    {
        self.nodes.kind(node)
    }

    /// The size of a file in bytes, at most 2^40; none where the node is no file.
    pub fn size(&self, node: u32) -> Option<u64>
        ensures value { result ≡ world.size self.now node }
        ensures bound { IfSome result (λ size. size ≤ file_limit) }
    {
        self.nodes.size(node)
    }

    /// The bytes of a file from `low` up to `high`, as far as it has them; none where the node is
    /// no file.
    ///
    /// # Errors
    ///
    /// Out of memory.
    pub fn bytes(
        &self,
        alloc: Global,
        node: u32,
        low: u64,
        high: u64,
    ) -> Result<Vec<u8>, AllocError>
        ensures { IfOk result
            (λ taken. taken.items ≡ range_of (unwrap_or (world.bytes self.now node) []) low high) }
    {
        self.nodes.read(alloc, node, low, high)
    }

    /// What [`State::bytes`] gives, as bytes that share the file's pages where they lie in one or
    /// are many.
    ///
    /// # Errors
    ///
    /// Out of memory.
    pub fn read_shared(
        &self,
        alloc: Global,
        node: u32,
        low: u64,
        high: u64,
    ) -> Result<ReadBytes, AllocError>
        ensures { IfOk result
            (λ taken. taken ≡ range_of (unwrap_or (world.bytes self.now node) []) low high) }
    {
        self.nodes.read_shared(alloc, node, low, high)
    }

    /// The number of the node that a name of a directory leads to.
    pub fn name(&self, directory: u32, name: &[u8]) -> Option<u32>
        ensures { result ≡ node_of (world.name self.now directory name.now) }
    {
        self.nodes.name(directory, name)
    }

    /// Whether a node has no names. A file has none.
    pub fn is_empty(&self, node: u32) -> bool
        ensures { result ≡ (unwrap_or (world.name_count self.now node) 0 == 0) }
    {
        self.nodes.is_empty(node)
    }

    /// Where a path leads, as [`Tree::walk`] says.
    pub fn walk<'a>(&self, directory: i32, path: &'a [u8]) -> Result<Place<'a>, Errno>
        ensures { walk_meant self.now.nodes result
            ≡ walk.walk self.now.nodes (record { directory = directory; text = path.now }) }
    {
        self.nodes.walk(directory, path)
    }

    /// The steps of the walk of a path, as [`Tree::steps`] says.
    pub fn steps<'a, 't>(&'t self, directory: i32, path: &'a [u8]) -> Steps<'a, 't>
        ensures same { result.tree.now ≡ self.now.nodes }
        ensures left { steps_left result
            ≡ steps.steps self.now.nodes (record { directory = directory; text = path.now }) }
    {
        self.nodes.steps(directory, path)
    }

    /// The directory that a name of a directory leads to.
    ///
    /// # Errors
    ///
    /// ENOENT where the name is missing, ENOTDIR where it leads to a file.
    pub(crate) fn directory_at(&self, directory: u32, name: &[u8]) -> Result<u32, Errno>
        ensures { result ≡ walk.directory_at (world.name self.now directory name.now) }
    {
        self.nodes.directory_at(directory, name)
    }

    /// Whether a node is one of the directories in which the walk of a path looks a name up, as
    /// [`Tree::is_above`] says.
    pub fn is_above(&self, node: u32, directory: i32, path: &[u8]) -> bool
        ensures { result ≡ walk.is_above self.now.nodes node
            (record { directory = directory; text = path.now }) }
    {
        self.nodes.is_above(node, directory, path)
    }

    /// The bytes of a registered buffer of a ring from `low` up to `high`, a range within it. A
    /// buffer that isn't there has none.
    ///
    /// # Errors
    ///
    /// Out of memory.
    pub fn buffer(&self, ring: u32, index: u32, low: u64, high: u64) -> Result<Vec<u8>, AllocError>
        requires forward { low ≤ high }
        requires inside { high ≤ length (unwrap_or (world.buffer self.now ring index) []) }
        ensures { IfOk result (λ taken. taken.items
            ≡ range_of (unwrap_or (world.buffer self.now ring index) []) low high) }
    {
        self.buffers.read(ring, index, low, high)
    }

    /// What [`State::buffer`] gives, as a list that shares the buffer's pages.
    ///
    /// # Errors
    ///
    /// Out of memory.
    pub fn share_buffer(
        &self,
        ring: u32,
        index: u32,
        low: u64,
        high: u64,
    ) -> Result<Extents, AllocError>
        requires forward { low ≤ high }
        requires inside { high ≤ length (unwrap_or (world.buffer self.now ring index) []) }
        ensures { IfOk result
            (λ part. part ≡ range_of (unwrap_or (world.buffer self.now ring index) []) low high) }
    {
        self.buffers.share(ring, index, low, high)
    }

    /// The length of a registered buffer in bytes.
    pub fn buffer_len(&self, ring: u32, index: u32) -> Option<u64>
        ensures { result ≡ option_map length (world.buffer self.now ring index) }
    {
        self.buffers.len(ring, index)
    }

    /// How a chain broke, if it did.
    pub fn broken(&self, chain: u32) -> Option<Broken>
        ensures { option_map broken_meant result ≡ world.broken self.now chain }
    {
        Some(self.broken.get(&chain)?.broken)
    }
}
