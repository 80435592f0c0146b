//! The descriptors of the process.
ghost use Rattle.std.specs.Prelude.{◌≡◌, ◌↔◌, ◌≤◌, ◌<◌, ◌%◌, ℕ, IfOk, IsOk, IsTrue, None, OnErr, OnOk};
ghost use Rattle.std.specs.Prelude.{false, is_none, true};
ghost use Rattle.std.specs.List.{find, range_with_len};
ghost use Rattle.finite_maps.specs.Table.{assign, empty, get, number_keys};
ghost use Rattle.finite_maps.specs.Maps.{table_of};
ghost use Rattle.ring_tables.specs.Fronts.{AreTaken, front_at};

use std::alloc::{AllocError, Global};
use std::collections::BTreeMap;
use std::collections::btree_map::Iter;
use std::marker::Model;

/// The open file descriptions that descriptors hold, by number. Only one that is taken takes memory,
/// beside four bytes for each 256 numbers up to the highest.
///
/// A call that answers [`AllocError`] leaves the descriptors as they were.
#[derive(Drop)]
pub struct Descriptors {
    entries: BTreeMap<u32, u32>,
    /// Of each block how many of its numbers are taken before the first that is free.
    fronts: Vec<u32>,
}

impl Model for Descriptors {
    ghost use Rattle.std.specs.Prelude.{ℕ};
    ghost use Rattle.std.specs.Ordering.{nat_cmp};
    ghost use Rattle.std.specs.Coded.{coded_ℕ};
    ghost use Rattle.finite_maps.specs.Table.{Table, code, number_keys};
    ghost use Rattle.finite_maps.specs.Maps.{table_of};
    ghost use Rattle.ring_tables.specs.Fronts.{AreTaken};

    ghost Value = { Table nat_cmp ℕ };

    ghost coded = { code coded_ℕ coded_ℕ };

    ghost view = { λ d. table_of number_keys.total d.entries.entries };

    ghost invariant = { λ d. AreTaken (table_of number_keys.total d.entries.entries) d.fronts.items };
}

/// How many numbers a block has.
const BLOCK: u32 = 256;

/// Numbers from this one on are in no block that has a front.
const IN_BLOCKS: u32 = 1 << 20;

/// The first number from one on that is free, or the end.
#[tactic(auto, using(crate::proofs::Looked::held))]
fn free_from(entries: &BTreeMap<u32, u32>, first: u32, end: u32) -> u32
    requires { first ≤ end }
    ensures least { first ≤ result }
    ensures most { result ≤ end }
    ensures taken { (n : ℕ) → first ≤ n → n < result
        → is_none (get (table_of number_keys.total entries.now.entries) n) ≡ false }
    ensures free { result < end
        → is_none (get (table_of number_keys.total entries.now.entries) result) ≡ true }
{
    for number in first..end {
        if entries.get(&number).is_none() {
            return number;
        }
    }
    end
}

/// Makes room for the front of a number's block.
fn grow(fronts: &mut Vec<u32>, number: u32) -> Result<(), AllocError>
    ensures { (n : ℕ) → front_at fronts.new.items n ≡ front_at fronts.old.items n }
{
    let block = (number / BLOCK) as usize;
    if number < IN_BLOCKS && fronts.len() <= block {
        fronts.resize(block + 1, 0)?;
    }
    Ok(())
}

/// Ends the front of a number's block at a number that is free.
fn lower(fronts: &mut Vec<u32>, number: u32)
    ensures less { (n : ℕ) → front_at fronts.new.items n ≤ front_at fronts.old.items n }
    ensures there { front_at fronts.new.items number ≤ number % 256 }
{
    let block = (number / BLOCK) as usize;
    let at = number % BLOCK;
    if block < fronts.len() && fronts[block] > at {
        fronts[block] = at;
    }
}

/// Moves the front of a number's block behind the number, which is taken, where it ends there.
fn raise(fronts: &mut Vec<u32>, entries: &BTreeMap<u32, u32>, number: u32)
    requires { AreTaken (table_of number_keys.total entries.now.entries) fronts.old.items }
    ensures { AreTaken (table_of number_keys.total entries.now.entries) fronts.new.items }
{
    let block = (number / BLOCK) as usize;
    let at = number % BLOCK;
    if block < fronts.len() && fronts[block] == at {
        let first = number - at;
        fronts[block] = free_from(entries, number, first.saturating_add(BLOCK)) - first;
    }
}

impl Descriptors {
    /// Free descriptors.
    pub fn new(alloc: Global) -> Self
        ensures { result ≡ empty }
    {
        Descriptors {
            entries: BTreeMap::new(alloc),
            fronts: Vec::new(alloc),
        }
    }

    /// The open file description that a descriptor holds.
    #[inline(always)]
    #[tactic(auto, using(crate::proofs::Looked::held))]
    pub fn get(&self, number: u32) -> Option<u32>
        ensures { result ≡ get self.now number }
    {
        self.entries.get(&number).copied()
    }

    /// Gives a descriptor an open file description, or frees it, which takes no memory.
    pub fn set(&mut self, number: u32, description: Option<u32>) -> Result<(), AllocError>
        ensures ok { OnOk result (self.new ≡ assign number_keys.total self.old number description) }
        ensures err { OnErr result (self.new ≡ self.old) }
        ensures freed { description ≡ None → IsOk result }
    {
        let Some(held) = description else {
            self.entries.remove(&number);
            lower(&mut self.fronts, number);
            return Ok(());
        };
        grow(&mut self.fronts, number)?;
        self.entries.insert(number, held)?;
        raise(&mut self.fronts, &self.entries, number);
        Ok(())
    }

    /// A number of the first `count` below which all are taken: the lowest that is free, where that
    /// is in a block before the end's.
    fn front(&self, count: u32) -> u32
        ensures most { result ≤ count }
        ensures taken { (n : ℕ) → n < result → is_none (get self.now n) ≡ false }
    {
        for block in 0..count / BLOCK {
            let front = self.fronts.get(block as usize).copied().unwrap_or(0);
            if front < BLOCK {
                return block * BLOCK + front;
            }
        }
        count - count % BLOCK
    }

    /// The lowest free descriptor of the first `count`, which open(2) takes. It looks at the
    /// fronts of the blocks below it, and at the numbers of one block.
    pub fn lowest_free(&self, count: u32) -> Option<u32>
        ensures { result ≡ find (λ n. is_none (get self.now n)) (range_with_len 0 count) }
    {
        let lowest = free_from(&self.entries, self.front(count), count);
        (lowest < count).then_some(lowest)
    }

    /// The descriptors that are taken, in order, each with its open file description.
    #[tactic(auto, using(crate::proofs::Looked::held))]
    pub fn iter(&self) -> Iter<'_, u32, u32>
        ensures { result ≡ self.now.entries }
    {
        self.entries.iter()
    }

    /// The same descriptors once more.
    pub fn copy(&self) -> Result<Descriptors, AllocError>
        ensures { IfOk result (λ copy. copy ≡ self.now) }
    {
        let entries = self.entries.clone()?;
        let fronts = self.fronts.clone()?;
        Ok(Descriptors { entries, fronts })
    }

    /// Whether both have the same open file descriptions at the same descriptors. It takes no
    /// memory.
    #[tactic(auto, using(crate::proofs::Looked::held))]
    pub fn same(&self, other: &Descriptors) -> bool
        ensures { IsTrue result ↔ (self.now ≡ other.now) }
    {
        self.entries.len() == other.entries.len() && self.entries == other.entries
    }
}
