//! The registered files of rings.
ghost use Rattle.std.specs.Prelude.{◌≡◌, ◌≢◌, ◌↔◌, ℕ, IfSome, IsOk, IsTrue, None, OnErr, OnOk, Some};
ghost use Rattle.std.specs.Prelude.{get_or};
ghost use Rattle.finite_maps.specs.Table.{Table, assign, empty, get, pair_cmp, pair_keys};
ghost use Rattle.ring_tables.specs.Cells.{AreHeld, cell};

use std::alloc::{AllocError, Global};
use std::collections::BTreeMap;
use std::collections::btree_map::Iter;
use std::marker::Model;

/// The open file descriptions that the registered files of rings hold, by ring and slot, as
/// io_uring_register(2) numbers them. An empty slot takes no memory but its cell, of
/// which there are 2^15 at most.
///
/// A call that answers [`AllocError`] leaves the slots as they were.
#[derive(Drop)]
pub struct Slots {
    entries: BTreeMap<(u32, u32), u32>,
    /// What some slots hold, each in its cell: an empty cell, or none, says nothing.
    cells: Vec<Option<u32>>,
}

impl Model for Slots {
    ghost use Rattle.std.specs.Prelude.{ℕ};
    ghost use Rattle.std.specs.Coded.{coded_ℕ, coded×};
    ghost use Rattle.finite_maps.specs.Table.{Table, code, pair_cmp, pair_keys};
    ghost use Rattle.finite_maps.specs.Maps.{table_of};
    ghost use Rattle.ring_tables.specs.Cells.{AreHeld};

    ghost Value = { Table pair_cmp ℕ };

    ghost coded = { code (coded× coded_ℕ coded_ℕ) coded_ℕ };

    ghost view = { λ s. table_of pair_keys.total s.entries.entries };

    ghost invariant = { λ s. AreHeld (table_of pair_keys.total s.entries.entries) s.cells.items };
}

/// How many slots of a ring have cells, from the first on.
const ROW: u32 = 64;

/// How many rings have cells, from the first on.
const ROWS: u32 = 512;

/// The number of a slot's cell, if it has one.
fn cell(ring: u32, slot: u32) -> Option<usize>
    ensures { result ≡ cell ring slot }
{
    if ring < ROWS && slot < ROW {
        Some((ring * ROW + slot) as usize)
    } else {
        None
    }
}

/// What the cell of a slot says.
fn known(cells: &[Option<u32>], ring: u32, slot: u32) -> Option<u32>
    ensures { (t : Table pair_cmp ℕ) → AreHeld t cells.now
        → IfSome result (λ number. get t (ring, slot) ≡ Some number) }
{
    *cells.get(cell(ring, slot)?)?
}

/// Makes the cell of a slot where it is among the next ones, a row of them at most. So a few slots of
/// late rings take no cells.
fn grow(cells: &mut Vec<Option<u32>>, ring: u32, slot: u32) -> Result<(), AllocError>
    ensures { (c : ℕ) → get_or cells.new.items c None ≡ get_or cells.old.items c None }
{
    match cell(ring, slot) {
        Some(at) if cells.len() <= at && at <= cells.len() + ROW as usize => {
            cells.resize(at + 1, None)
        }
        _ => Ok(()),
    }
}

/// Writes what a slot holds into its cell, where there is one.
fn note(cells: &mut Vec<Option<u32>>, ring: u32, slot: u32, description: Option<u32>)
    ensures other { (c : ℕ) → cell ring slot ≢ Some c
        → get_or cells.new.items c None ≡ get_or cells.old.items c None }
    ensures own { (c : ℕ) → cell ring slot ≡ Some c
        → IfSome (get_or cells.new.items c None) (λ number. description ≡ Some number) }
{
    if let Some(at) = cell(ring, slot)
        && at < cells.len()
    {
        cells[at] = description;
    }
}

impl Slots {
    /// Empty slots.
    pub fn new(alloc: Global) -> Self
        ensures { result ≡ empty }
    {
        Slots {
            entries: BTreeMap::new(alloc),
            cells: Vec::new(alloc),
        }
    }

    /// The open file description that a slot of a ring holds.
    #[inline(always)]
    pub fn get(&self, ring: u32, slot: u32) -> Option<u32>
        ensures { result ≡ get self.now (ring, slot) }
    {
        match known(&self.cells, ring, slot) {
            Some(number) => Some(number),
            None => self.entries.get(&(ring, slot)).copied(),
        }
    }

    /// Fills a slot of a ring, or empties it, which takes no memory.
    pub fn set(&mut self, ring: u32, slot: u32, description: Option<u32>) -> Result<(), AllocError>
        ensures ok { OnOk result
            (self.new ≡ assign pair_keys.total self.old (ring, slot) description) }
        ensures err { OnErr result (self.new ≡ self.old) }
        ensures emptied { description ≡ None → IsOk result }
    {
        let Some(number) = description else {
            self.entries.remove(&(ring, slot));
            note(&mut self.cells, ring, slot, None);
            return Ok(());
        };
        grow(&mut self.cells, ring, slot)?;
        self.entries.insert((ring, slot), number)?;
        note(&mut self.cells, ring, slot, Some(number));
        Ok(())
    }

    /// The full slots in the order of ring and slot, each with its open file description.
    #[tactic(auto, using(crate::proofs::Looked::held))]
    pub fn iter(&self) -> Iter<'_, (u32, u32), u32>
        ensures { result ≡ self.now.entries }
    {
        self.entries.iter()
    }

    /// Whether both have the same open file descriptions in the same slots. It takes no memory.
    #[tactic(auto, using(crate::proofs::Looked::held))]
    pub fn same(&self, other: &Slots) -> bool
        ensures { IsTrue result ↔ (self.now ≡ other.now) }
    {
        self.entries.len() == other.entries.len() && self.entries == other.entries
    }
}
