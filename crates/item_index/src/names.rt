//! Names of one directory.
ghost use Rattle.std.specs.Prelude.{◌≡◌, ◌||◌, Bool, List, ℕ, [], true, OnOk};
ghost use Rattle.std.specs.List.{list_any};
ghost use Rattle.std.specs.Str.{bytes_eq};

use std::alloc::{AllocError, Global};
use std::collections::BTreeSet;
use std::marker::Model;

/// A set of names of one directory.
#[derive(Drop)]
pub(crate) struct Names {
    names: BTreeSet<Vec<u8>>,
}

impl Model for Names {
    ghost use Rattle.std.specs.Prelude.{ℕ, List, map};

    ghost Value = { List (List ℕ) };

    ghost view = { λ n. map (λ k. k.items) n.names.keys };
}

impl Names {
    pub(crate) fn new(alloc: Global) -> Self
        ensures { result ≡ [] }
    {
        Names {
            names: BTreeSet::new(alloc),
        }
    }

    /// Adds a name.
    pub(crate) fn insert(&mut self, alloc: Global, name: &[u8]) -> Result<(), AllocError>
        ensures { OnOk result ((t : List ℕ → Bool)
            → list_any t self.new ≡ (list_any t self.old || t name.now)) }
    {
        if self.has(name) {
            return Ok(());
        }
        self.names.insert(Vec::from_slice(alloc, name)?)?;
        Ok(())
    }

    /// Whether it has a name.
    pub(crate) fn has(&self, name: &[u8]) -> bool
        ensures { result ≡ list_any (λ n. bytes_eq name.now n) self.now }
    {
        self.names.contains(name)
    }

    /// Whether it has some name.
    pub(crate) fn has_any(&self) -> bool
        ensures { result ≡ list_any (λ n. true) self.now }
    {
        !self.names.is_empty()
    }
}
