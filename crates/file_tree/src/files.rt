//! The bytes of the files of a tree.
ghost use Rattle.std.specs.Prelude.{◌≡◌, ◌+◌, ◌≤◌, [], length, unwrap_or};
ghost use Rattle.std.specs.Prelude.{IfOk, IfSome, OnErr, OnOk};
ghost use Rattle.std.specs.Option.{option_copied};
ghost use Rattle.trace_format.specs.Limits.{file_limit};
ghost use Rattle.extent_bytes.specs.Bytes.{overwritten, range_of, resized, zeroed};
ghost use Rattle.finite_maps.specs.Table.{adjust_number, insert, number_keys};
ghost use Rattle.file_tree.specs.Tree.{file, rewritten_node};
ghost use Rattle.file_tree.specs.Tree as tree;

use crate::node::{Content, Node, within};
use crate::tree::Tree;
use extent_bytes::{Extents, ReadBytes};
use std::alloc::{AllocError, Global};

impl Tree {
    /// The bytes of a file; none where the node is none.
    #[inline(always)]
    pub fn bytes(&self, node: u32) -> Option<&Extents>
        ensures { option_copied result ≡ tree.bytes self.now node }
    {
        self.node(node)?.bytes()
    }

    /// The size of a file in bytes, at most 2^40; none where the node is no file.
    pub fn size(&self, node: u32) -> Option<u64>
        ensures value { result ≡ tree.size self.now node }
        ensures bound { IfSome result (λ size. size ≤ file_limit) }
    {
        Some(self.bytes(node)?.len())
    }

    /// Makes a file of zeros, which take no memory. A node that had the number goes.
    ///
    /// # Errors
    ///
    /// Out of memory; the tree is as before.
    pub fn add_zeros(&mut self, alloc: Global, number: u32, size: u64) -> Result<(), AllocError>
        requires { size ≤ file_limit }
        ensures ok { OnOk result
            (self.new ≡ insert number_keys.total self.old number (file (resized [] size))) }
        ensures err { OnErr result (self.new ≡ self.old) }
    {
        let mut bytes = Extents::new(alloc);
        bytes.set_len(size)?;
        let content = Content::File(bytes);
        self.put(number, Node { content })
    }

    /// The bytes of a file from `lo` up to `hi`, as far as it has them; none where the node is no
    /// file.
    ///
    /// # Errors
    ///
    /// Out of memory.
    pub fn read(&self, alloc: Global, node: u32, lo: u64, hi: u64) -> Result<Vec<u8>, AllocError>
        ensures { IfOk result
            (λ taken. taken.items ≡ range_of (unwrap_or (tree.bytes self.now node) []) lo hi) }
    {
        let Some(bytes) = self.bytes(node) else {
            return Ok(Vec::new(alloc));
        };
        let (lo, hi) = within(bytes, lo, hi);
        bytes.read(lo, hi)
    }

    /// What [`Tree::read`] gives, as bytes that share the file's pages where they lie in one or are
    /// many.
    ///
    /// # Errors
    ///
    /// Out of memory.
    pub fn read_shared(
        &self,
        alloc: Global,
        node: u32,
        lo: u64,
        hi: u64,
    ) -> Result<ReadBytes, AllocError>
        ensures { IfOk result
            (λ taken. taken ≡ range_of (unwrap_or (tree.bytes self.now node) []) lo hi) }
    {
        let Some(bytes) = self.bytes(node) else {
            return Ok(ReadBytes::none(alloc));
        };
        let (lo, hi) = within(bytes, lo, hi);
        ReadBytes::of(alloc, bytes, lo, hi)
    }

    /// What [`Tree::read`] gives, as a list that shares the file's pages.
    ///
    /// # Errors
    ///
    /// Out of memory.
    pub fn share(&self, alloc: Global, node: u32, lo: u64, hi: u64) -> Result<Extents, AllocError>
        ensures { IfOk result
            (λ part. part ≡ range_of (unwrap_or (tree.bytes self.now node) []) lo hi) }
    {
        let Some(bytes) = self.bytes(node) else {
            return Ok(Extents::new(alloc));
        };
        let (lo, hi) = within(bytes, lo, hi);
        bytes.share(lo, hi)
    }

    /// Writes bytes into a file from `at` on; a gap past its end becomes zeros. Where the node is
    /// no file nothing changes.
    ///
    /// # Errors
    ///
    /// Out of memory; the tree is as before.
    pub fn write(&mut self, node: u32, at: u64, bytes: &[u8]) -> Result<(), AllocError>
        requires { at + length bytes.now ≤ file_limit }
        ensures ok { OnOk result (self.new
            ≡ adjust_number (rewritten_node (λ old. overwritten old at bytes.now)) self.old node) }
        ensures err { OnErr result (self.new ≡ self.old) }
    {
        let Some(found) = self.nodes.get_mut(&node) else {
            return Ok(());
        };
        found.write(at, bytes)
    }

    /// Makes the bytes of a file from `lo` up to `hi` zeros, as far as it has them. Where the node
    /// is no file nothing changes.
    ///
    /// # Errors
    ///
    /// Out of memory; the tree is as before.
    pub fn zero(&mut self, node: u32, lo: u64, hi: u64) -> Result<(), AllocError>
        ensures ok { OnOk result
            (self.new ≡ adjust_number (rewritten_node (λ old. zeroed old lo hi)) self.old node) }
        ensures err { OnErr result (self.new ≡ self.old) }
    {
        let Some(found) = self.nodes.get_mut(&node) else {
            return Ok(());
        };
        found.zero(lo, hi)
    }

    /// Cuts a file, or extends it with zeros, to a size. Where the node is no file nothing changes.
    ///
    /// # Errors
    ///
    /// Out of memory; the tree is as before.
    pub fn set_size(&mut self, node: u32, size: u64) -> Result<(), AllocError>
        requires { size ≤ file_limit }
        ensures ok { OnOk result
            (self.new ≡ adjust_number (rewritten_node (λ old. resized old size)) self.old node) }
        ensures err { OnErr result (self.new ≡ self.old) }
    {
        let Some(found) = self.nodes.get_mut(&node) else {
            return Ok(());
        };
        found.set_size(size)
    }

    /// Takes the bytes of a file from `lo` up to `hi` out, as far as it has them, and leaves zeros
    /// there. Where the node is no file there are none, and nothing changes.
    ///
    /// # Errors
    ///
    /// Out of memory; the tree is as before.
    pub fn cut(&mut self, alloc: Global, node: u32, lo: u64, hi: u64) -> Result<Extents, AllocError>
        ensures part { IfOk result
            (λ part. part ≡ range_of (unwrap_or (tree.bytes self.old node) []) lo hi) }
        ensures rest { OnOk result
            (self.new ≡ adjust_number (rewritten_node (λ old. zeroed old lo hi)) self.old node) }
        ensures err { OnErr result (self.new ≡ self.old) }
    {
        let Some(found) = self.nodes.get_mut(&node) else {
            return Ok(Extents::new(alloc));
        };
        found.cut(alloc, lo, hi)
    }

    /// Puts the bytes of `part` in place of those of a file from `lo` on, within its size. Where
    /// the node is no file nothing changes.
    ///
    /// # Errors
    ///
    /// Out of memory; the tree is as before.
    pub fn put_back(&mut self, node: u32, lo: u64, part: Extents) -> Result<(), AllocError>
        requires { IfSome (tree.size self.old node) (λ size. lo + length part ≤ size) }
        ensures ok { OnOk result (self.new
            ≡ adjust_number (rewritten_node (λ old. overwritten old lo part)) self.old node) }
        ensures err { OnErr result (self.new ≡ self.old) }
    {
        let Some(found) = self.nodes.get_mut(&node) else {
            return Ok(());
        };
        found.put_back(lo, part)
    }

    /// Puts the bytes of another tree's file from `lo` up to `hi` in place of those of the file of
    /// the same number. Where that node is no file nothing changes.
    ///
    /// # Errors
    ///
    /// Out of memory; the tree is as before.
    pub fn copy_range(
        &mut self,
        source: &Tree,
        node: u32,
        lo: u64,
        hi: u64,
    ) -> Result<(), AllocError>
        requires forward { lo ≤ hi }
        requires there { hi ≤ length (unwrap_or (tree.bytes source.now node) []) }
        requires inside { IfSome (tree.size self.old node) (λ size. hi ≤ size) }
        ensures ok { OnOk result (self.new ≡ adjust_number (rewritten_node (λ old. overwritten
            old lo (range_of (unwrap_or (tree.bytes source.now node) []) lo hi))) self.old node) }
        ensures err { OnErr result (self.new ≡ self.old) }
    {
        let Some(bytes) = source.bytes(node) else {
            return Ok(());
        };
        let Some(found) = self.nodes.get_mut(&node) else {
            return Ok(());
        };
        found.copy_range(bytes, lo, hi)
    }
}
