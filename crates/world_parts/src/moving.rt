//! Bytes that go between files and registered buffers, and those that a trace's text has for them.
ghost use Rattle.std.specs.Prelude.{◌≡◌, ◌+◌, ◌-◌, ◌≤◌, [], length, unwrap_or, IsTrue, OnOk};
ghost use Rattle.entry_checks.specs.Operation.{file_limit};
ghost use Rattle.extent_bytes.specs.Bytes.{range_of};
ghost use Rattle.trace_format.specs.Blobs.{sliced};
ghost use Rattle.world_parts.specs.World.{apply};
ghost use Rattle.world_parts.specs.World as world;

use crate::state::State;
use extent_bytes::Extents;
use std::alloc::{AllocError, Global};
use trace_format::{Blob, TextSlice};

/// How many bytes a page of a file or buffer has.
const PAGE: u64 = 4_096;

/// Whether so many bytes that lie from one place on, and are to lie from another on, are shared and
/// not copied: more than a page, and a page that is one on both sides.
fn are_shared(count: u64, from: u64, to: u64) -> bool
    ensures { IsTrue result → 4096 ≤ count }
{
    count > PAGE || count == PAGE && from % PAGE == 0 && to % PAGE == 0
}

impl State {
    /// Writes the bytes of a file from `low` up to `high`, as far as it has them, over those of a
    /// registered buffer of a ring from `at` on. Those beyond its length are dropped, and where
    /// there is no buffer nothing changes. Many share the file's pages.
    ///
    /// # Errors
    ///
    /// Out of memory.
    pub fn fill_from_file(
        &mut self,
        alloc: Global,
        node: u32,
        low: u64,
        high: u64,
        ring: u32,
        index: u32,
        at: u64,
    ) -> Result<(), AllocError>
        ensures { OnOk result (self.new ≡ apply (world.write_buffer ring index at
            (range_of (unwrap_or (world.bytes self.old node) []) low high)) self.old) }
    {
        let room = self.buffer_len(ring, index).unwrap_or(0).saturating_sub(at);
        let end = high.min(low.saturating_add(room));
        if !are_shared(end.saturating_sub(low), low, at) {
            let bytes = self.bytes(alloc, node, low, end)?;
            return self.write_buffer(ring, index, at, &bytes);
        }
        let part = self.nodes.share(alloc, node, low, end)?;
        self.put_buffer_bytes(ring, index, at, part)
    }

    /// Writes the bytes of a registered buffer of a ring from `low` up to `high`, a range within
    /// it, into a file from `at` on; a gap past its end becomes zeros. Where the node is no file
    /// nothing changes. Many share the buffer's pages.
    ///
    /// # Errors
    ///
    /// Out of memory.
    pub fn write_from_buffer(
        &mut self,
        ring: u32,
        index: u32,
        low: u64,
        high: u64,
        node: u32,
        at: u64,
    ) -> Result<(), AllocError>
        requires forward { low ≤ high }
        requires inside { high ≤ length (unwrap_or (world.buffer self.old ring index) []) }
        requires fits { at + (high - low) ≤ file_limit }
        ensures { OnOk result (self.new ≡ apply (world.write_bytes node at
            (range_of (unwrap_or (world.buffer self.old ring index) []) low high)) self.old) }
    {
        if !are_shared(high - low, low, at) {
            let bytes = self.buffer(ring, index, low, high)?;
            return self.write(node, at, &bytes);
        }
        let part = self.buffers.share(ring, index, low, high)?;
        self.write_part(node, at, part)
    }

    /// Writes bytes of a text into a file from `at` on, as [`State::write`] does. Many share the
    /// text, where texts are shared.
    ///
    /// # Errors
    ///
    /// Out of memory.
    pub fn write_from_text(
        &mut self,
        alloc: Global,
        node: u32,
        at: u64,
        bytes: TextSlice<'_>,
    ) -> Result<(), AllocError>
        requires { at + length (sliced bytes) ≤ file_limit }
        ensures { OnOk result
            (self.new ≡ apply (world.write_bytes node at (sliced bytes.entry)) self.old) }
    {
        if !self.shares_texts || !are_shared(bytes.len() as u64, 0, at) {
            return self.write(node, at, bytes.as_slice());
        }
        let part = Extents::of_text(alloc, bytes.text, bytes.from, bytes.len(), at)?;
        self.write_part(node, at, part)
    }

    /// Writes bytes of a trace into a file from `at` on, as [`State::write_from_text`] does.
    pub(crate) fn write_from_blob(
        &mut self,
        alloc: Global,
        node: u32,
        at: u64,
        bytes: &Blob,
    ) -> Result<(), AllocError>
        requires { at + length bytes.now ≤ file_limit }
        ensures { OnOk result (self.new ≡ apply (world.write_bytes node at bytes.now) self.old) }
    {
        match bytes.slice() {
            Some(bytes) => self.write_from_text(alloc, node, at, bytes),
            None => self.write(node, at, &[]),
        }
    }

    /// Writes bytes of a trace over those of a registered buffer of a ring from `at` on, as
    /// [`State::write_buffer`] does. Many share the trace's text, where texts are shared.
    ///
    /// # Errors
    ///
    /// Out of memory.
    pub fn fill_from_blob(
        &mut self,
        ring: u32,
        index: u32,
        at: u64,
        bytes: &Blob,
    ) -> Result<(), AllocError>
        ensures { OnOk result
            (self.new ≡ apply (world.write_buffer ring index at bytes.now) self.old) }
    {
        match bytes.slice() {
            Some(bytes) if self.shares_texts && are_shared(bytes.len() as u64, 0, at) => {
                self.buffers.write_text(ring, index, at, bytes)
            }
            _ => self.write_buffer(ring, index, at, bytes.as_slice()),
        }
    }

    /// Writes a list of bytes into a file from `at` on, as [`State::write`] does.
    fn write_part(&mut self, node: u32, at: u64, part: Extents) -> Result<(), AllocError>
        requires { at + length part ≤ file_limit }
        ensures { OnOk result (self.new ≡ apply (world.write_bytes node at part) self.old) }
    {
        let end = at + part.len();
        let size = self.size(node).unwrap_or(end);
        if size >= end {
            return self.put_bytes(node, at, part);
        }
        self.set_size(node, end)?;
        self.put_bytes(node, at, part)
    }
}
