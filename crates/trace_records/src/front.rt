//! What the records so far decide for the next one.
ghost use Rattle.std.specs.Prelude.{◌≡◌, ◌+◌, ◌≤◌, Some, None, length};
ghost use Rattle.std.specs.Prelude.{OnOk, OnErr, IfOk, IfSome, IfNone};
ghost use Rattle.trace_records.specs.Front.{after, no_records, places_of, places_limit};
ghost use Rattle.trace_records.specs.Front.{sizes_of, ring_at, slots_in, buffer_len};

use crate::record::{Record, Ring};
use std::alloc::{AllocError, Global};
use std::marker::Model;
use trace_format::Series;

/// How many places a trace has at most.
pub(crate) const PLACES: u32 = 2_147_483_648;

/// The sizes of a ring, which its number stands for in later records.
#[derive(Drop)]
pub struct Sizes {
    /// How many slots it has.
    pub slots: u32,
    /// How many bytes each of its buffers has.
    pub buffers: Series<u32>,
}

/// The rings that are there, and how many places there were.
#[derive(Drop)]
pub struct Front {
    rings: Vec<Option<Sizes>>,
    places: u32,
}

impl Model for Front {
    ghost use Rattle.std.specs.Prelude.{◌≤◌};
    ghost use Rattle.trace_records.specs.Front as meant;

    ghost Value = { meant.Front };

    ghost view = { λ f. record { rings = f.rings.items; places = f.places } };

    ghost invariant = { λ f. f.places ≤ meant.places_limit };
}

/// The sizes of a ring.
fn sizes_of(alloc: Global, ring: &Ring) -> Result<Sizes, AllocError>
    ensures { IfOk result (λ s. s ≡ sizes_of ring.now) }
{
    let buffers = ring
        .buffers
        .as_slice()
        .iter()
        .map(|b| b.len)
        .collect(alloc)?;
    Ok(Sizes {
        slots: ring.slots,
        buffers: Series::from_vec(buffers),
    })
}

impl Front {
    /// Before the first record. It takes no memory.
    pub fn new(alloc: Global) -> Self
        ensures { result ≡ no_records }
    {
        Front {
            rings: Vec::new(alloc),
            places: 0,
        }
    }

    /// One record more.
    ///
    /// # Errors
    ///
    /// `AllocError` where an allocation was refused. Nothing has changed then.
    pub fn add(&mut self, alloc: Global, made: &Record) -> Result<(), AllocError>
        requires { self.old.places + places_of made.now ≤ places_limit }
        ensures added { OnOk result (self.new ≡ after self.old made.now) }
        ensures kept { OnErr result (self.new ≡ self.old) }
    {
        match made {
            Record::Enter { ring: _, entries } => {
                self.places += entries.as_slice().len() as u32;
            }
            Record::Fill { .. } => self.places += 1,
            Record::Set { .. } => self.places += 1,
            Record::Seek { .. } => self.places += 1,
            Record::RingStarts { ring } => {
                let sizes = sizes_of(alloc, ring)?;
                self.rings.push(Some(sizes))?;
                self.places += 1;
            }
            Record::RingEnds { ring } => {
                if let Some(sizes) = self.rings.get_mut(*ring as usize) {
                    *sizes = None;
                }
            }
        }
        Ok(())
    }

    /// The sizes of a ring that is there.
    pub fn ring(&self, number: u32) -> Option<&Sizes>
        ensures some { IfSome result (λ s. ring_at self.now.rings number ≡ Some s.now) }
        ensures none { IfNone result (ring_at self.now.rings number ≡ None) }
    {
        match self.rings.get(number as usize) {
            Some(Some(sizes)) => Some(sizes),
            _ => None,
        }
    }

    /// How many slots a ring has, none where it is not there.
    pub fn slots(&self, number: u32) -> u32
        ensures { result ≡ slots_in self.now.rings number }
    {
        match self.ring(number) {
            Some(sizes) => sizes.slots,
            None => 0,
        }
    }

    /// How many bytes a buffer of a ring has, where both are there.
    pub fn buffer_len(&self, number: u32, buffer: u16) -> Option<u32>
        ensures { result ≡ buffer_len self.now.rings number buffer }
    {
        match self.ring(number) {
            Some(sizes) => sizes.buffers.as_slice().get(buffer as usize).copied(),
            None => None,
        }
    }

    /// How many rings there were, those that ended too.
    pub fn rings(&self) -> usize
        ensures { result ≡ length self.now.rings }
    {
        self.rings.len()
    }

    /// How many places there are, at most 2^31.
    pub fn places(&self) -> u32
        ensures places { result ≡ self.now.places }
        ensures limit { result ≤ places_limit }
    {
        self.places
    }
}
