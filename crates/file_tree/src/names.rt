//! The names of a directory.
ghost use Rattle.std.specs.Prelude.{◌≡◌, ◌==◌, Option, IfNone, IsOk, OnErr, OnOk};
ghost use Rattle.finite_maps.specs.Table.{assign, count, empty, get, text_keys};

use crate::descending::Descending;
use crate::short_name::ShortName;
use std::alloc::{AllocError, Global};
use std::collections::BTreeMap;
use std::marker::Model;

/// The names of a directory, each with the number of its node: the short ones, which are found by
/// number, and the long ones.
#[derive(Drop)]
pub struct Names {
    short: BTreeMap<ShortName, u32>,
    long: BTreeMap<Vec<u8>, u32>,
}

impl Model for Names {
    ghost use Rattle.std.specs.Prelude.{map};
    ghost use Rattle.file_tree.specs.Tree.{Names};
    ghost use Rattle.file_tree.specs.Codes.{names_code};
    ghost use Rattle.file_tree.specs.Listed.{as_name, names_in, AreShort, AreLong};

    ghost Value = { Names };

    ghost coded = { names_code };

    ghost view = { λ n. names_in n.short.entries (map as_name n.long.entries) };

    ghost invariant = { λ n. AreShort n.short.entries × AreLong (map as_name n.long.entries) };
}

impl Names {
    /// No names.
    pub(crate) fn new(alloc: Global) -> Self
        ensures { result ≡ empty }
    {
        Names {
            short: BTreeMap::new(alloc),
            long: BTreeMap::new(alloc),
        }
    }

    /// The number of the node that a name leads to.
    pub fn get(&self, name: &[u8]) -> Option<u32>
        ensures { result ≡ get self.now name.now }
    {
        match ShortName::new(name) {
            Some(short) => self.short.get(&short).copied(),
            None => self.long.get(name).copied(),
        }
    }

    /// How many names there are.
    pub fn len(&self) -> usize
        ensures { result ≡ count self.now }
    {
        self.short.len() + self.long.len()
    }

    /// Whether there is no name.
    pub fn is_empty(&self) -> bool
        ensures { result ≡ (count self.now == 0) }
    {
        self.len() == 0
    }

    /// The names from the last one back, in the order of their bytes, each with the number of its
    /// node.
    pub fn descending(&self) -> Descending<'_>
        ensures { result ≡ self.now }
    {
        Descending::new(self.short.iter(), self.long.iter())
    }

    /// Lets a name lead to a node, or to none.
    pub(crate) fn set(
        &mut self,
        alloc: Global,
        name: &[u8],
        node: Option<u32>,
    ) -> Result<(), AllocError>
        ensures ok { OnOk result (self.new ≡ assign text_keys.total self.old name.now node) }
        ensures err { OnErr result (self.new ≡ self.old) }
        ensures removal { IfNone node (IsOk result) }
    {
        match (ShortName::new(name), node) {
            (Some(short), Some(node)) => {
                self.short.insert(short, node)?;
            }
            (None, Some(node)) => {
                self.long.insert(Vec::from_slice(alloc, name)?, node)?;
            }
            (Some(short), None) => {
                self.short.remove(&short);
            }
            (None, None) => {
                self.long.remove(name);
            }
        }
        Ok(())
    }
}

impl PartialEq for Names {
    ghost use Rattle.file_tree.specs.Same.{same_names, same_names_laws};

    ghost eq = { same_names };

    ghost laws = { same_names_laws };

    fn eq(&self, other: &Names) -> bool {
        if self.short.len() != other.short.len() {
            return false;
        }
        if self.long.len() != other.long.len() {
            return false;
        }
        self.short == other.short && self.long == other.long
    }
}
