//! A node of the file tree.
ghost use Rattle.std.specs.Prelude.{◌≡◌, ◌+◌, ◌≤◌, ◌==◌, [], length, unwrap_or};
ghost use Rattle.std.specs.Prelude.{IfNone, IfOk, IfSome, IsOk, OnErr, OnOk};
ghost use Rattle.std.specs.Option.{option_copied};
ghost use Rattle.trace_format.specs.Limits.{file_limit};
ghost use Rattle.extent_bytes.specs.Bytes.{overwritten, range_of, resized, zeroed};
ghost use Rattle.finite_maps.specs.Table.{empty};
ghost use Rattle.file_tree.specs.Kinds.{kind_meant};
ghost use Rattle.file_tree.specs.Tree.{bytes_of_node, count_of_node, directory, kind_of_node};
ghost use Rattle.file_tree.specs.Tree.{new_node, renamed_node, rewritten_node, shown_node};

use crate::names::Names;
use extent_bytes::Extents;
use std::alloc::{AllocError, Global};
use std::marker::Model;

/// What a node is.
#[derive(Clone, Copy, Debug, PartialEq, Eq)]
pub enum Kind {
    /// A directory, with names.
    Directory,
    /// A regular file, with bytes.
    File,
}

/// What a node holds.
#[derive(Drop)]
pub(crate) enum Content {
    /// The names that are shown, and how many others there are.
    Directory { names: Names, others: usize },
    File(Extents),
}

/// A node: a directory, or a file with its bytes.
#[derive(Drop)]
pub(crate) struct Node {
    pub content: Content,
}

impl Model for Node {
    ghost use Rattle.file_tree.specs.Tree.{Node};
    ghost use Rattle.file_tree.specs.Nodes.{node_of};
    ghost use Rattle.file_tree.specs.Codes.{node_code};

    ghost Value = { Node };

    ghost coded = { node_code };

    ghost view = { λ n. node_of n.content };
}

/// The part of a range where there are bytes: it has the bytes of the whole range.
pub(crate) fn within(bytes: &Extents, lo: u64, hi: u64) -> (u64, u64)
    ensures forward { result.0 ≤ result.1 }
    ensures inside { result.1 ≤ length bytes.now }
    ensures taken { range_of bytes.now result.0 result.1 ≡ range_of bytes.now lo hi }
    ensures cleared { zeroed bytes.now result.0 result.1 ≡ zeroed bytes.now lo hi }
{
    let end = hi.min(bytes.len());
    (lo.min(end), end)
}

impl Node {
    /// A directory without names, or an empty file.
    pub(crate) fn new(alloc: Global, kind: Kind) -> Self
        ensures { result ≡ new_node (kind_meant kind) }
    {
        let content = match kind {
            Kind::Directory => Content::Directory {
                names: Names::new(alloc),
                others: 0,
            },
            Kind::File => Content::File(Extents::new(alloc)),
        };
        Node { content }
    }

    /// A directory that shows none of its names, so many in number.
    pub(crate) fn listing(alloc: Global, others: usize) -> Self
        ensures { result ≡ directory empty others }
    {
        Node {
            content: Content::Directory {
                names: Names::new(alloc),
                others,
            },
        }
    }

    pub(crate) fn kind(&self) -> Kind
        ensures { kind_meant result ≡ kind_of_node self.now }
    {
        match &self.content {
            Content::Directory { .. } => Kind::Directory,
            Content::File(_) => Kind::File,
        }
    }

    /// Lets a name of a directory lead to a node, or to none; a file stays as it is.
    pub(crate) fn set_name(
        &mut self,
        alloc: Global,
        name: &[u8],
        node: Option<u32>,
    ) -> Result<(), AllocError>
        ensures ok { OnOk result (self.new ≡ renamed_node name.now node self.old) }
        ensures err { OnErr result (self.new ≡ self.old) }
        ensures removal { IfNone node (IsOk result) }
    {
        match &mut self.content {
            Content::Directory { names, .. } => names.set(alloc, name, node),
            Content::File(_) => Ok(()),
        }
    }

    /// Lets a directory show one of its other names; a file stays as it is.
    pub(crate) fn show_name(
        &mut self,
        alloc: Global,
        name: &[u8],
        node: u32,
    ) -> Result<(), AllocError>
        ensures ok { OnOk result (self.new ≡ shown_node name.now node self.old) }
        ensures err { OnErr result (self.new ≡ self.old) }
    {
        match &mut self.content {
            Content::Directory { names, others } => {
                names.set(alloc, name, Some(node))?;
                *others = others.saturating_sub(1);
                Ok(())
            }
            Content::File(_) => Ok(()),
        }
    }

    /// How many names a directory has, those that aren't shown too.
    pub(crate) fn name_count(&self) -> Result<Option<usize>, AllocError>
        ensures { IfOk result (λ count. count ≡ count_of_node self.now) }
    {
        match &self.content {
            Content::Directory { names, others } => {
                let count = names.len().checked_add(*others).ok_or(AllocError)?;
                Ok(Some(count))
            }
            Content::File(_) => Ok(None),
        }
    }

    /// Whether a node has no names. A file has none.
    pub(crate) fn is_empty(&self) -> bool
        ensures { result ≡ (unwrap_or (count_of_node self.now) 0 == 0) }
    {
        match &self.content {
            Content::Directory { names, others } => names.is_empty() && *others == 0,
            Content::File(_) => true,
        }
    }

    /// The bytes of a file.
    pub(crate) fn bytes(&self) -> Option<&Extents>
        ensures { option_copied result ≡ bytes_of_node self.now }
    {
        match &self.content {
            Content::Directory { .. } => None,
            Content::File(bytes) => Some(bytes),
        }
    }

    /// Writes bytes into a file; a directory stays as it is.
    pub(crate) fn write(&mut self, at: u64, bytes: &[u8]) -> Result<(), AllocError>
        requires { at + length bytes.now ≤ file_limit }
        ensures ok { OnOk result
            (self.new ≡ rewritten_node (λ old. overwritten old at bytes.now) self.old) }
        ensures err { OnErr result (self.new ≡ self.old) }
    {
        match &mut self.content {
            Content::Directory { .. } => Ok(()),
            Content::File(file) => file.write(at, bytes),
        }
    }

    /// Makes a range of a file zeros; a directory stays as it is.
    pub(crate) fn zero(&mut self, lo: u64, hi: u64) -> Result<(), AllocError>
        ensures ok { OnOk result (self.new ≡ rewritten_node (λ old. zeroed old lo hi) self.old) }
        ensures err { OnErr result (self.new ≡ self.old) }
    {
        match &mut self.content {
            Content::Directory { .. } => Ok(()),
            Content::File(file) => {
                let (lo, hi) = within(file, lo, hi);
                file.zero(lo, hi)
            }
        }
    }

    /// Cuts or extends a file; a directory stays as it is.
    pub(crate) fn set_size(&mut self, size: u64) -> Result<(), AllocError>
        requires { size ≤ file_limit }
        ensures ok { OnOk result (self.new ≡ rewritten_node (λ old. resized old size) self.old) }
        ensures err { OnErr result (self.new ≡ self.old) }
    {
        match &mut self.content {
            Content::Directory { .. } => Ok(()),
            Content::File(file) => file.set_len(size),
        }
    }

    /// Takes a range out of a file; a directory stays as it is.
    pub(crate) fn cut(&mut self, alloc: Global, lo: u64, hi: u64) -> Result<Extents, AllocError>
        ensures part { IfOk result
            (λ part. part ≡ range_of (unwrap_or (bytes_of_node self.old) []) lo hi) }
        ensures rest { OnOk result (self.new ≡ rewritten_node (λ old. zeroed old lo hi) self.old) }
        ensures err { OnErr result (self.new ≡ self.old) }
    {
        match &mut self.content {
            Content::Directory { .. } => Ok(Extents::new(alloc)),
            Content::File(file) => {
                let (lo, hi) = within(file, lo, hi);
                file.cut(lo, hi)
            }
        }
    }

    /// Puts a part back into a file; a directory stays as it is.
    pub(crate) fn put_back(&mut self, lo: u64, part: Extents) -> Result<(), AllocError>
        requires { IfSome (bytes_of_node self.old) (λ bytes. lo + length part ≤ length bytes) }
        ensures ok { OnOk result
            (self.new ≡ rewritten_node (λ old. overwritten old lo part) self.old) }
        ensures err { OnErr result (self.new ≡ self.old) }
    {
        match &mut self.content {
            Content::Directory { .. } => Ok(()),
            Content::File(file) => file.put_back(lo, part),
        }
    }

    /// Puts a range of other bytes in place of a file's; a directory stays as it is.
    pub(crate) fn copy_range(
        &mut self,
        source: &Extents,
        lo: u64,
        hi: u64,
    ) -> Result<(), AllocError>
        requires forward { lo ≤ hi }
        requires there { hi ≤ length source.now }
        requires inside { IfSome (bytes_of_node self.old) (λ bytes. hi ≤ length bytes) }
        ensures ok { OnOk result (self.new ≡ rewritten_node
            (λ old. overwritten old lo (range_of source.now lo hi)) self.old) }
        ensures err { OnErr result (self.new ≡ self.old) }
    {
        match &mut self.content {
            Content::Directory { .. } => Ok(()),
            Content::File(file) => file.copy_range(source, lo, hi),
        }
    }
}

impl PartialEq for Node {
    ghost use Rattle.file_tree.specs.Same.{same_node, same_node_laws};

    ghost eq = { same_node };

    ghost laws = { same_node_laws };

    fn eq(&self, other: &Node) -> bool {
        match (&self.content, &other.content) {
            (
                Content::Directory { names, others },
                Content::Directory {
                    names: other_names,
                    others: other_others,
                },
            ) => others == other_others && names == other_names,
            (Content::File(bytes), Content::File(others)) => bytes.same(others),
            _ => false,
        }
    }
}
