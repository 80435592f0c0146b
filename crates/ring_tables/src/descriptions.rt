//! The open file descriptions of a replay.
ghost use Rattle.std.specs.Prelude.{◌≡◌, ◌==◌, ◌↔◌, nat_eq, IsTrue, OnErr, OnOk};
ghost use Rattle.std.specs.Option.{option_map};
ghost use Rattle.indexmap.specs.IndexSet.{contains};
ghost use Rattle.finite_maps.specs.Marks.{Marks};
ghost use Rattle.finite_maps.specs.Sifted.{has_value, only};
ghost use Rattle.finite_maps.specs.Table.{adjust_number, count, empty, get, insert, number_keys};
ghost use Rattle.finite_maps.specs.Table.{remove};

use finite_maps::{keep_only, value_at};
use indexmap::{IndexMap, IndexSet};
use std::alloc::{AllocError, Global};
use std::marker::Model;
use trace_format::Description;

/// Open file descriptions, as open(2) has them, by number.
///
/// A call that answers [`AllocError`] leaves the descriptions as they were.
#[derive(Drop)]
pub struct Descriptions {
    entries: IndexMap<u32, Description>,
}

impl Model for Descriptions {
    ghost use Rattle.std.specs.Ordering.{nat_cmp};
    ghost use Rattle.std.specs.Coded.{coded_ℕ};
    ghost use Rattle.trace_format.specs.declared.trace.Description.{Description};
    ghost use Rattle.trace_format.specs.contracts.trace.Description as description;
    ghost use Rattle.finite_maps.specs.Table.{Table, code, number_keys};
    ghost use Rattle.finite_maps.specs.Maps.{table_of};

    ghost Value = { Table nat_cmp Description };

    ghost coded = { code coded_ℕ description.the_row.coded };

    ghost view = { λ d. table_of number_keys.total d.entries.entries };
}

impl Descriptions {
    /// No descriptions.
    pub fn new(alloc: Global) -> Self
        ensures { result ≡ empty }
    {
        Descriptions {
            entries: IndexMap::new(alloc),
        }
    }

    /// What a description says.
    #[inline(always)]
    #[tactic(auto, using(crate::proofs::Looked::held))]
    pub fn get(&self, number: u32) -> Option<Description>
        ensures { result ≡ get self.now number }
    {
        value_at(&self.entries, number).copied()
    }

    /// Puts a description at a number, in place of the one that was there.
    pub fn set(&mut self, number: u32, description: Description) -> Result<(), AllocError>
        ensures ok { OnOk result (self.new ≡ insert number_keys.total self.old number description) }
        ensures err { OnErr result (self.new ≡ self.old) }
    {
        self.entries.insert(number, description)?;
        Ok(())
    }

    /// Takes a description out, if it is there.
    pub fn remove(&mut self, number: u32)
        ensures { self.new ≡ remove self.old number }
    {
        self.entries.swap_remove(&number);
    }

    /// The position of a description, in bytes.
    pub fn position(&self, number: u32) -> Option<u64>
        ensures { result ≡ option_map (λ d. d.position) (get self.now number) }
    {
        self.get(number).map(|description| description.position)
    }

    /// Moves the position of a description, as lseek(2) does. Where there is no description,
    /// nothing changes.
    pub fn set_position(&mut self, number: u32, position: u64)
        ensures { self.new ≡ adjust_number (λ d. record d { position = position }) self.old number }
    {
        let Some(description) = self.entries.get_mut(&number) else {
            return;
        };
        description.position = position;
    }

    /// Whether both have the same descriptions at the same numbers. It takes no memory.
    pub fn same(&self, other: &Descriptions) -> bool
        ensures { IsTrue result ↔ (self.now ≡ other.now) }
    {
        self.entries == other.entries
    }

    /// How many descriptions there are.
    pub fn len(&self) -> usize
        ensures { result ≡ count self.now }
    {
        self.entries.len()
    }

    /// Marks the nodes of the descriptions whose numbers are in a set.
    ///
    /// # Errors
    ///
    /// Out of memory; some of them are marked then.
    pub fn mark_nodes(
        &self,
        held: &IndexSet<u32>,
        marks: &mut IndexSet<u32>,
    ) -> Result<(), AllocError>
        ensures { OnOk result (Marks (λ i. has_value (λ d. d.node == i)
            (only (λ d. contains nat_eq held.now d) self.now)) marks.old marks.new) }
    {
        for (number, description) in &self.entries {
            if held.contains(number) {
                marks.insert(description.node)?;
            }
        }
        Ok(())
    }

    /// Keeps the descriptions whose numbers a set has. It takes no memory.
    pub fn keep_only(&mut self, numbers: &IndexSet<u32>)
        ensures { self.new ≡ only (λ d. contains nat_eq numbers.now d) self.old }
    {
        keep_only(&mut self.entries, numbers);
    }
}
