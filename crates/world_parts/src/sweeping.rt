//! What nothing leads to any more is dropped.
ghost use Rattle.std.specs.Prelude.{◌≡◌, ◌==◌, ◌||◌, ℕ, ltb, nat_eq, IfOk, OnErr, OnOk};
ghost use Rattle.indexmap.specs.IndexSet.{contains};
ghost use Rattle.finite_maps.specs.Marks.{Marks};
ghost use Rattle.finite_maps.specs.Sifted.{has_value, only};
ghost use Rattle.finite_maps.specs.Table.{count};
ghost use Rattle.file_tree.specs.Named.{is_named};
ghost use Rattle.world_parts.specs.Sweeping.{is_held, is_open, swept};

use crate::state::State;
use indexmap::IndexSet;
use std::alloc::{AllocError, Global};

/// Marks the numbers below one.
#[tactic(auto, using(crate::proofs::Swept::below_next))]
fn mark_below(end: u32, marks: &mut IndexSet<u32>) -> Result<(), AllocError>
    ensures { OnOk result (Marks (λ d. ltb d end) marks.old marks.new) }
{
    for number in 0..end {
        marks.insert(number)?;
    }
    Ok(())
}

impl State {
    /// How many nodes there are, those without names too.
    pub fn node_count(&self) -> usize
        ensures { result ≡ count self.now.nodes }
    {
        self.nodes.node_count()
    }

    /// How many open file descriptions there are, those that nothing holds too.
    pub fn description_count(&self) -> usize
        ensures { result ≡ count self.now.descriptions }
    {
        self.descriptions.len()
    }

    /// How many chains broke, of those that no sweep forgot.
    pub fn broken_count(&self) -> usize
        ensures { result ≡ count self.now.broken }
    {
        self.broken.len()
    }

    /// Marks the open file descriptions that slots hold.
    fn mark_in_slots(&self, marks: &mut IndexSet<u32>) -> Result<(), AllocError>
        ensures { OnOk result
            (Marks (λ d. has_value (λ x. x == d) self.now.slots) marks.old marks.new) }
    {
        for (_, description) in self.slots.iter() {
            marks.insert(*description)?;
        }
        Ok(())
    }

    /// Marks the open file descriptions that descriptors hold.
    fn mark_in_descriptors(&self, marks: &mut IndexSet<u32>) -> Result<(), AllocError>
        ensures { OnOk result
            (Marks (λ d. has_value (λ x. x == d) self.now.descriptors) marks.old marks.new) }
    {
        for (_, description) in self.descriptors.iter() {
            marks.insert(*description)?;
        }
        Ok(())
    }

    /// The numbers of the open file descriptions that stay: the first ones, and those that a slot
    /// or a descriptor holds. There are numbers among them that no description has.
    fn held(&self, alloc: Global, started: u32) -> Result<IndexSet<u32>, AllocError>
        ensures { IfOk result
            (λ held. (d : ℕ) → contains nat_eq held d ≡ (ltb d started || is_held self.now d)) }
    {
        let mut held = IndexSet::new(alloc);
        mark_below(started, &mut held)?;
        self.mark_in_slots(&mut held)?;
        self.mark_in_descriptors(&mut held)?;
        Ok(held)
    }

    /// The numbers of the nodes that stay: the root, those that have a name, and those that are
    /// open by a description that stays.
    fn led_to(&self, alloc: Global, held: &IndexSet<u32>) -> Result<IndexSet<u32>, AllocError>
        ensures { IfOk result (λ led. (i : ℕ) → contains nat_eq led i ≡ (i == 0
            || is_named self.now.nodes i
            || is_open (only (λ d. contains nat_eq held.now d) self.now.descriptions) i)) }
    {
        let mut led = IndexSet::new(alloc);
        led.insert(0)?;
        self.nodes.mark_named(&mut led)?;
        self.descriptions.mark_nodes(held, &mut led)?;
        Ok(led)
    }

    /// How much there is for a sweep to look at that drops none of these: the nodes with their
    /// names, the open file descriptions, and the full slots and descriptors.
    fn looked_at(&self, held: &IndexSet<u32>, led: &IndexSet<u32>) -> usize {
        let mut size = held.len();
        size = size.saturating_add(self.slots.iter().len());
        size = size.saturating_add(self.descriptors.iter().len());
        size = size.saturating_add(led.len());
        for node in led {
            if let Some(names) = self.nodes.names(*node) {
                size = size.saturating_add(names.len());
            }
        }
        size
    }

    /// Drops the open file descriptions that neither a slot nor a descriptor holds, but for the
    /// first `started`; then the nodes that no name leads to, that are not open, and are not the
    /// root; and forgets which chains broke. What stays is not copied. Gives how much stays for
    /// another sweep to look at, by which it can be put off.
    ///
    /// # Errors
    ///
    /// Out of memory; the state is as before.
    pub fn sweep(&mut self, alloc: Global, started: u32) -> Result<usize, AllocError>
        ensures ok { OnOk result (self.new ≡ swept started self.old) }
        ensures err { OnErr result (self.new ≡ self.old) }
    {
        let held = self.held(alloc, started)?;
        let led = self.led_to(alloc, &held)?;
        let left = self.looked_at(&held, &led);
        self.descriptions.keep_only(&held);
        self.nodes.keep_only(&led);
        self.broken.clear();
        Ok(left)
    }
}
