//! What was recorded.
ghost use Rattle.std.specs.Prelude.{◌≡◌, ◌<◌, Some};
ghost use Rattle.recording.specs.Steps.{places, step_at, step_meant};
ghost use Rattle.recording.specs.Rings.{queue_of, slots_of};

use crate::steps::{Step, Steps};
use trace_format::{Buffer, Description, Series, Version};
use trace_records::Item;

/// A ring, with its registered files and buffers.
#[derive(Drop)]
pub struct Ring {
    /// The first of its slots for files as the recording starts: 0 for an empty one, else the
    /// number of a description and 1.
    pub slots: Series<u32>,
    /// How many slots follow those, which are empty as the recording starts.
    pub spare: u32,
    /// Its buffers. No two share an address.
    pub buffers: Series<Buffer>,
    /// The ring whose queue it submits to, by which its entries are drained.
    pub queue: u32,
    /// Whether it ends before the recording does.
    pub ended: bool,
}

impl Ring {
    /// How many slots for files it has.
    pub fn slot_count(&self) -> usize
        ensures { result ≡ slots_of self.now }
    {
        self.slots.as_slice().len() + self.spare as usize
    }
}

/// What was recorded.
#[derive(Drop)]
pub struct Recording {
    /// The version by whose rules entries are checked. Version 3 has those of version 2.
    pub version: Version,
    /// Whether a report tells the entries in the order of their places, as from version 3 on, or
    /// ring by ring.
    pub in_place_order: bool,
    /// The initial names. The item at index i has the number i + 1.
    pub items: Series<Item>,
    /// The initial open file descriptions, numbered from 0.
    pub descriptions: Series<Description>,
    /// The table of ordinary descriptors, each written as a slot of a ring is.
    pub descriptors: Series<u32>,
    /// The rings, numbered from 0: those that are there from the start, and those that come later.
    pub rings: Series<Ring>,
    /// What was recorded, in order.
    pub steps: Steps,
}

impl Recording {
    /// How many steps the recording has, at most 2^31. Their numbers from 0 on are their places.
    pub fn places(&self) -> u32
        ensures { result ≡ places self.now }
    {
        self.steps.len()
    }

    /// The step at a place, in constant time.
    #[inline(always)]
    pub fn step(&self, place: u32) -> Step<'_>
        requires { place < places self.now }
        ensures { step_at self.now place ≡ Some (step_meant result) }
    {
        self.steps.at(place)
    }

    /// The ring whose queue a ring submits to.
    pub fn queue(&self, ring: u32) -> u32
        ensures { result ≡ queue_of self.now ring }
    {
        match self.rings.as_slice().get(ring as usize) {
            None => ring,
            Some(there) => there.queue,
        }
    }
}
