//! The file tree: its nodes and their names.
ghost use Rattle.std.specs.Prelude.{◌≡◌, ◌==◌, ◌↔◌, unwrap_or, IfNone};
ghost use Rattle.std.specs.Prelude.{IfOk, IsOk, IsTrue, OnErr, OnOk};
ghost use Rattle.std.specs.Option.{option_copied, option_map};
ghost use Rattle.finite_maps.specs.Table.{adjust_number, count, empty, get, insert};
ghost use Rattle.finite_maps.specs.Table.{number_keys, remove};
ghost use Rattle.file_tree.specs.Kinds.{kind_meant};
ghost use Rattle.file_tree.specs.Tree.{directory, new_node, renamed_node, shown_node};
ghost use Rattle.file_tree.specs.Tree as tree;
ghost use Rattle.file_tree.specs.Found.{node_of};

use crate::names::Names;
use crate::node::{Content, Kind, Node};
use finite_maps::value_at;
use indexmap::IndexMap;
use std::alloc::{AllocError, Global};
use std::marker::Model;

/// Directories and files by their numbers. The root is directory 0.
#[derive(Drop)]
pub struct Tree {
    pub(crate) nodes: IndexMap<u32, Node>,
}

impl Model for Tree {
    ghost use Rattle.file_tree.specs.Tree.{Tree};
    ghost use Rattle.finite_maps.specs.Table.{number_keys};
    ghost use Rattle.finite_maps.specs.Maps.{table_of};
    ghost use Rattle.file_tree.specs.Codes.{tree_code};

    ghost Value = { Tree };

    ghost coded = { tree_code };

    ghost view = { λ t. table_of number_keys.total t.nodes.entries };
}

impl Tree {
    /// A tree without nodes, as a part of a tree starts.
    pub fn empty(alloc: Global) -> Self
        ensures { result ≡ empty }
    {
        Tree {
            nodes: IndexMap::new(alloc),
        }
    }

    /// A tree with the root alone.
    ///
    /// # Errors
    ///
    /// Out of memory.
    pub fn new(alloc: Global) -> Result<Self, AllocError>
        ensures { IfOk result
            (λ tree. tree ≡ insert number_keys.total empty 0 (directory empty 0)) }
    {
        let mut tree = Tree::empty(alloc);
        tree.put(0, Node::new(alloc, Kind::Directory))?;
        Ok(tree)
    }

    /// A node by its number.
    pub(crate) fn node(&self, number: u32) -> Option<&Node>
        ensures { option_copied result ≡ get self.now number }
    {
        value_at(&self.nodes, number)
    }

    /// How many nodes there are, those without names too.
    pub fn node_count(&self) -> usize
        ensures { result ≡ count self.now }
    {
        self.nodes.len()
    }

    /// Whether both trees have the same nodes with the same names and bytes. It takes no memory.
    pub fn same(&self, other: &Tree) -> bool
        ensures { IsTrue result ↔ (self.now ≡ other.now) }
    {
        self.nodes == other.nodes
    }

    /// What a node is; none where there is no such node.
    pub fn kind(&self, node: u32) -> Option<Kind>
        ensures { option_map kind_meant result ≡ tree.kind self.now node }
    {
        Some(self.node(node)?.kind())
    }

    /// The names that a directory shows; none where the node is none.
    pub fn names(&self, node: u32) -> Option<&Names>
        ensures { option_copied result ≡ tree.names self.now node }
    {
        match &self.node(node)?.content {
            Content::Directory { names, .. } => Some(names),
            Content::File(_) => None,
        }
    }

    /// The number of the node that a name of a directory leads to.
    pub fn name(&self, directory: u32, name: &[u8]) -> Option<u32>
        ensures { result ≡ node_of (tree.name self.now directory name.now) }
    {
        self.names(directory)?.get(name)
    }

    /// Whether a node has no names. A file has none.
    pub fn is_empty(&self, node: u32) -> bool
        ensures { result ≡ (unwrap_or (tree.name_count self.now node) 0 == 0) }
    {
        match self.node(node) {
            Some(found) => found.is_empty(),
            None => true,
        }
    }

    /// How many names a directory has, those that aren't shown too; none where the node is none.
    ///
    /// # Errors
    ///
    /// Out of memory, where no machine could have so many.
    pub fn name_count(&self, node: u32) -> Result<Option<usize>, AllocError>
        ensures { IfOk result (λ count. count ≡ tree.name_count self.now node) }
    {
        match self.node(node) {
            Some(found) => found.name_count(),
            None => Ok(None),
        }
    }

    /// Puts a node at a number. One that had the number goes.
    #[inline(always)]
    pub(crate) fn put(&mut self, number: u32, node: Node) -> Result<(), AllocError>
        ensures ok { OnOk result (self.new ≡ insert number_keys.total self.old number node) }
        ensures err { OnErr result (self.new ≡ self.old) }
    {
        self.nodes.insert(number, node)?;
        Ok(())
    }

    /// Makes a node: a directory without names, or an empty file. One that had the number goes.
    ///
    /// # Errors
    ///
    /// Out of memory; the tree is as before.
    pub fn add_node(&mut self, alloc: Global, number: u32, kind: Kind) -> Result<(), AllocError>
        ensures ok { OnOk result
            (self.new ≡ insert number_keys.total self.old number (new_node (kind_meant kind))) }
        ensures err { OnErr result (self.new ≡ self.old) }
    {
        self.put(number, Node::new(alloc, kind))
    }

    /// Makes a directory that shows none of its names, `others` in number. A node that had the
    /// number goes.
    ///
    /// # Errors
    ///
    /// Out of memory; the tree is as before.
    pub fn add_listing(
        &mut self,
        alloc: Global,
        number: u32,
        others: usize,
    ) -> Result<(), AllocError>
        ensures ok { OnOk result
            (self.new ≡ insert number_keys.total self.old number (directory empty others)) }
        ensures err { OnErr result (self.new ≡ self.old) }
    {
        self.put(number, Node::listing(alloc, others))
    }

    /// Takes a node out, if it is there. Names that lead to it stay.
    pub fn remove_node(&mut self, number: u32)
        ensures { self.new ≡ remove self.old number }
    {
        self.nodes.swap_remove(&number);
    }

    /// Lets a name of a directory lead to a node, or to none, which takes no memory. Where there is
    /// no such directory nothing changes.
    ///
    /// # Errors
    ///
    /// Out of memory; the tree is as before.
    pub fn set_name(
        &mut self,
        alloc: Global,
        directory: u32,
        name: &[u8],
        node: Option<u32>,
    ) -> Result<(), AllocError>
        ensures ok { OnOk result
            (self.new ≡ adjust_number (renamed_node name.now node) self.old directory) }
        ensures err { OnErr result (self.new ≡ self.old) }
        ensures removal { IfNone node (IsOk result) }
    {
        let Some(found) = self.nodes.get_mut(&directory) else {
            return Ok(());
        };
        found.set_name(alloc, name, node)
    }

    /// Lets a directory show one of its other names. Where there is no such directory nothing
    /// changes.
    ///
    /// # Errors
    ///
    /// Out of memory; the tree is as before.
    pub fn show_name(
        &mut self,
        alloc: Global,
        directory: u32,
        name: &[u8],
        node: u32,
    ) -> Result<(), AllocError>
        ensures ok { OnOk result
            (self.new ≡ adjust_number (shown_node name.now node) self.old directory) }
        ensures err { OnErr result (self.new ≡ self.old) }
    {
        let Some(listing) = self.nodes.get_mut(&directory) else {
            return Ok(());
        };
        listing.show_name(alloc, name, node)
    }
}
