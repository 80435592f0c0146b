//! Parts that are cut out of a world.
ghost use Rattle.std.specs.Prelude.{◌≡◌, ◌-◌, ◌∷◌, [], map, replicate, None, IfOk, OnOk, T};
ghost use Rattle.finite_maps.specs.Table.{get};
ghost use Rattle.world_parts.specs.Cutting.{IsPartOf, cut_from, holed, is_narrow, zeros_in};
ghost use Rattle.world_parts.specs.Uses.{item_meant, use_meant};
ghost use Rattle.world_parts.specs.World.{apply, apply_all};
ghost use Rattle.world_parts.specs.World as change;

use crate::footprint::{Footprint, Item, Use};
use crate::part::{Part, World};
use crate::state::State;
use std::alloc::{AllocError, Global};

impl State {
    /// Makes the bytes of a registered buffer of a ring from `low` up to `high` zeros, as far as it
    /// has them. Where there is no buffer nothing changes.
    fn zero_buffer(&mut self, ring: u32, index: u32, low: u64, high: u64) -> Result<(), AllocError>
        ensures { OnOk result (self.new
            ≡ apply (change.write_buffer ring index low (replicate (high - low) 0)) self.old) }
    {
        self.buffers.zero(ring, index, low, high)
    }

    /// Leaves zeros where an item is a range of bytes.
    fn clear_item(&mut self, item: &Item) -> Result<(), AllocError>
        ensures { OnOk result (self.new ≡ apply_all (zeros_in (item_meant item.now)) self.old) }
    {
        match item {
            Item::Bytes(node, low, high) => self.zero(*node, *low, *high),
            Item::Buffer(ring, index, low, high) => self.zero_buffer(*ring, *index, *low, *high),
            _ => Ok(()),
        }
    }

    /// Leaves zeros where a use writes a range of bytes.
    fn clear_use(&mut self, used: &Use) -> Result<(), AllocError>
        ensures { OnOk result (self.new ≡ holed (use_meant used.now ∷ []) self.old) }
    {
        if !used.written {
            return Ok(());
        }
        self.clear_item(&used.item)
    }

    /// Leaves zeros where uses write ranges of bytes.
    fn clear_uses(&mut self, uses: &[Use]) -> Result<(), AllocError>
        ensures { OnOk result (self.new ≡ holed (map use_meant uses.now) self.old) }
    {
        for used in uses {
            self.clear_use(used)?;
        }
        Ok(())
    }
}

impl World {
    /// Leaves zeros where an access set writes ranges of bytes, and notes that the part of a place
    /// is out.
    fn take_out(&mut self, place: u32, footprint: Footprint) -> Result<(), AllocError>
        requires home { get self.old.out place ≡ None }
        ensures { OnOk result (self.new ≡ cut_from self.old place footprint) }
    {
        self.state.clear_uses(&footprint.uses)?;
        self.out.insert(place, footprint)?;
        Ok(())
    }

    /// Takes a part out for a place: what its access set names. Bytes that are written leave zeros
    /// behind, all else stays; whole pages are shared.
    ///
    /// # Errors
    ///
    /// Out of memory; the world can then only be dropped.
    pub fn cut(
        &mut self,
        alloc: Global,
        place: u32,
        footprint: Footprint,
    ) -> Result<Part, AllocError>
        requires home { get self.old.out place ≡ None }
        requires narrow { T (is_narrow footprint) }
        ensures place { IfOk result (λ part. part.place ≡ place) }
        ensures part { IfOk result (λ part. IsPartOf self.old.world footprint part.values) }
        ensures rest { OnOk result (self.new ≡ cut_from self.old place footprint) }
    {
        let mut part = Part::nothing(alloc, place)?;
        part.state.copy_uses(alloc, &self.state, &footprint.uses)?;
        self.take_out(place, footprint)?;
        Ok(part)
    }
}
