//! The records of a trace, with the way from a place to its step.
ghost use Rattle.std.specs.Prelude.{◌≡◌, ◌+◌, ◌<◌, ◌≤◌, [], ◌∷◌, ◌++◌, List, length, replicate, Some};
ghost use Rattle.std.specs.Prelude.{IfOk, OnOk, vec_len};
ghost use Rattle.std.specs.List.{slice_get};
ghost use Rattle.trace_format.specs.Counts.{step_count, places_in, places_limit};
ghost use Rattle.trace_format.specs.Steps.{steps_from, step_meant};

use crate::blob::Blob;
use crate::entry::Entry;
use crate::trace::Record;
use std::alloc::{AllocError, Global};
use std::marker::Model;

/// What a step does: it submits an entry, or puts bytes into a registered buffer at an offset.
#[derive(Drop)]
pub enum Action<'a> {
    /// Submits an entry.
    Submit(Entry<'a>),
    /// Puts the bytes into the ring's buffer of this number, from this offset in it on.
    Fill {
        buffer: u16,
        offset: u32,
        bytes: &'a Blob,
    },
}

/// A step of a trace, with its ring and the number of its record.
#[derive(Drop)]
pub struct Step<'a> {
    /// The number of its ring.
    pub ring: u8,
    /// The number of its record, from 0.
    pub record_number: u32,
    /// What it does.
    pub action: Action<'a>,
}

/// The records of a trace. A step is found by its place in constant time: by the number of its
/// record, and by the place of that record's first step.
#[derive(Drop)]
pub struct Records {
    items: Vec<Record>,
    /// Of each place the number of its record.
    record_numbers: Vec<u32>,
    /// Of each record the place of its first step.
    firsts: Vec<u32>,
}

impl Model for Records {
    ghost use Rattle.std.specs.Prelude.{◌≡◌, ◌≤◌, List, length};
    ghost use Rattle.trace_format.specs.declared.trace.Record.{Record};

    ghost Value = { List Record };

    ghost use Rattle.trace_format.specs.Counts.{places_limit};
    ghost use Rattle.trace_format.specs.Spots.{numbers_from, firsts_from};

    ghost view = { λ a. a.items.items };

    ghost invariant = { λ a. (a.record_numbers.items ≡ numbers_from 0 a.items.items)
        × (a.firsts.items ≡ firsts_from 0 a.items.items)
        × (length a.record_numbers.items ≤ places_limit) };
}

/// How many steps a record has.
pub(crate) fn step_count(item: &Record) -> usize
    ensures { result ≡ step_count item.now }
{
    match item {
        Record::Enter { ring: _, entries } => entries.len(),
        Record::Fill {
            ring: _,
            buffer: _,
            offset: _,
            bytes: _,
        } => 1,
    }
}

/// Adds a record of so many steps: the place of its first step, and its number for each of them.
fn add_record(
    record_numbers: &mut Vec<u32>,
    firsts: &mut Vec<u32>,
    record_number: u32,
    count: usize,
) -> Result<(), AllocError>
    requires { vec_len record_numbers.old + count ≤ places_limit }
    ensures numbers { OnOk result (record_numbers.new.items
        ≡ record_numbers.old.items ++ replicate count record_number) }
    ensures firsts { OnOk result
        (firsts.new.items ≡ firsts.old.items ++ vec_len record_numbers.old ∷ []) }
{
    let first = record_numbers.len();
    firsts.push(first as u32)?;
    record_numbers.resize(first + count, record_number)
}

impl Records {
    /// The records of a vector. Its time is linear in the records and their steps, and it takes
    /// memory for the way from each place to its step: a number of 32 bits for each step, and one
    /// for each record.
    pub fn from_vec(alloc: Global, items: Vec<Record>) -> Result<Self, AllocError>
        requires records { vec_len items ≤ places_limit }
        requires steps { places_in items.items ≤ places_limit }
        ensures { IfOk result (λ r. r ≡ items.items) }
    {
        let mut record_numbers = Vec::new(alloc);
        let mut firsts = Vec::with_capacity(alloc, items.len())?;
        for i in 0..items.len() {
            add_record(
                &mut record_numbers,
                &mut firsts,
                i as u32,
                step_count(&items[i]),
            )?;
        }
        Ok(Records {
            items,
            record_numbers,
            firsts,
        })
    }

    /// The records as a slice.
    pub fn as_slice(&self) -> &[Record]
        ensures { result.now ≡ self.now }
    {
        self.items.as_slice()
    }

    /// How many steps the records have: an entry each, and a fill each.
    pub fn places(&self) -> u32
        ensures places { result ≡ length (steps_from 0 self.now) }
        ensures limit { result ≤ places_limit }
    {
        self.record_numbers.len() as u32
    }

    /// The step at a place, in constant time.
    pub fn step(&self, place: u32) -> Step<'_>
        requires { place < length (steps_from 0 self.now) }
        ensures { slice_get (steps_from 0 self.now) place ≡ Some (step_meant result) }
    {
        let record_number = self.record_numbers[place as usize];
        let entry = place - self.firsts[record_number as usize];
        match &self.items[record_number as usize] {
            Record::Enter { ring, entries } => Step {
                ring: *ring,
                record_number,
                action: Action::Submit(entries.at(entry as usize)),
            },
            Record::Fill {
                ring,
                buffer,
                offset,
                bytes,
            } => Step {
                ring: *ring,
                record_number,
                action: Action::Fill {
                    buffer: *buffer,
                    offset: *offset,
                    bytes,
                },
            },
        }
    }
}
