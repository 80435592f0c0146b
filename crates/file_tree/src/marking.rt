//! Which nodes have names, and trees of which some nodes are kept.
ghost use Rattle.std.specs.Prelude.{◌≡◌, ◌==◌, nat_eq, OnOk};
ghost use Rattle.indexmap.specs.IndexSet.{contains};
ghost use Rattle.finite_maps.specs.Marks.{Marks};
ghost use Rattle.finite_maps.specs.Sifted.{has_value, only};
ghost use Rattle.file_tree.specs.Named.{is_named, names_it};

use crate::names::Names;
use crate::node::{Content, Node};
use crate::tree::Tree;
use finite_maps::keep_only;
use indexmap::IndexSet;
use std::alloc::AllocError;

impl Names {
    /// Marks the nodes that the names lead to.
    fn mark_nodes(&self, marks: &mut IndexSet<u32>) -> Result<(), AllocError>
        ensures { OnOk result
            (Marks (λ i. has_value (λ x. x == i) self.now) marks.old marks.new) }
    {
        for (_, node) in self.descending() {
            marks.insert(node)?;
        }
        Ok(())
    }
}

impl Node {
    /// Marks the nodes that the names of a directory lead to.
    fn mark_named(&self, marks: &mut IndexSet<u32>) -> Result<(), AllocError>
        ensures { OnOk result (Marks (λ i. names_it i self.now) marks.old marks.new) }
    {
        match &self.content {
            Content::Directory { names, .. } => names.mark_nodes(marks),
            Content::File(_) => Ok(()),
        }
    }
}

impl Tree {
    /// Marks the nodes that have a name.
    ///
    /// # Errors
    ///
    /// Out of memory; some of them are marked then.
    pub fn mark_named(&self, marks: &mut IndexSet<u32>) -> Result<(), AllocError>
        ensures { OnOk result (Marks (is_named self.now) marks.old marks.new) }
    {
        for (_, node) in &self.nodes {
            node.mark_named(marks)?;
        }
        Ok(())
    }

    /// Keeps the nodes whose numbers a set has. It takes no memory.
    pub fn keep_only(&mut self, numbers: &IndexSet<u32>)
        ensures { self.new ≡ only (λ i. contains nat_eq numbers.now i) self.old }
    {
        keep_only(&mut self.nodes, numbers);
    }
}
