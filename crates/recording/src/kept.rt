//! Records that came one after another, with the way from a place to its step.
ghost use Rattle.std.specs.Prelude.{◌≡◌, ◌+◌, ◌-◌, ◌<◌, ◌≤◌, [], ◌∷◌, ◌++◌, length, replicate, Some, IfOk, OnOk};
ghost use Rattle.std.specs.List.{slice_get};
ghost use Rattle.recording.specs.Limits.{places_limit};
ghost use Rattle.recording.specs.Records.{step_count, record_steps};
ghost use Rattle.recording.specs.Steps.{ring_of, step_meant};

use crate::record::{Record, step_count};
use crate::steps::{Action, Step};
use std::alloc::{AllocError, Global};
use std::marker::Model;
use trace_records::FileAt;

/// The ring of a step that is on none: all rings have numbers below it.
const NO_RING: u32 = 1_048_576;

/// Records in order, behind some places. A step is found by its place in constant time: by the
/// index of its record, and by the place of that record's first step. Each record has a step.
#[derive(Drop)]
pub struct Grown {
    /// How many places are before theirs.
    first: u32,
    records: Vec<Record>,
    /// Of each place of theirs the index of its record.
    indexes: Vec<u32>,
    /// Of each record the place of its first step.
    firsts: Vec<u32>,
}

impl Model for Grown {
    ghost use Rattle.std.specs.Prelude.{◌≡◌, ◌+◌, ◌≤◌, length};
    ghost use Rattle.recording.specs.Records.{Later};

    ghost Value = { Later };

    ghost use Rattle.recording.specs.Limits.{places_limit};
    ghost use Rattle.recording.specs.Records.{steps_from, indexes_from, firsts_from};

    ghost view = { λ g. record { first = g.first; steps = steps_from g.first g.records.items } };

    ghost invariant = { λ g. (g.indexes.items ≡ indexes_from 0 g.records.items)
        × (g.firsts.items ≡ firsts_from g.first g.records.items)
        × (g.first + length g.indexes.items ≤ places_limit)
        × (length g.records.items ≤ length g.indexes.items) };
}

/// Adds a record of so many steps: the place of its first step, and its index for each of them.
fn add_record(
    indexes: &mut Vec<u32>,
    firsts: &mut Vec<u32>,
    first: u32,
    index: u32,
    count: usize,
) -> Result<(), AllocError>
    requires { length indexes.old.items + count ≤ places_limit }
    ensures indexes { OnOk result
        (indexes.new.items ≡ indexes.old.items ++ replicate count index) }
    ensures firsts { OnOk result (firsts.new.items ≡ firsts.old.items ++ first ∷ []) }
{
    firsts.push(first)?;
    indexes.resize(indexes.len() + count, index)
}

/// The ring of a slot, or 1,048,576 for a descriptor, which is on none.
pub fn ring_of(file: FileAt) -> u32
    ensures { result ≡ ring_of file }
{
    match file {
        FileAt::Slot { ring, number: _ } => ring,
        FileAt::Descriptor { number: _ } => NO_RING,
    }
}

impl Grown {
    /// No records, behind so many places. It takes no memory.
    pub(crate) fn new(alloc: Global, first: u32) -> Self
        requires { first ≤ places_limit }
        ensures { result ≡ record { first = first; steps = [] } }
    {
        Grown {
            first,
            records: Vec::new(alloc),
            indexes: Vec::new(alloc),
            firsts: Vec::new(alloc),
        }
    }

    /// The same with a record more, behind the others.
    ///
    /// # Errors
    ///
    /// Out of memory.
    pub(crate) fn with(self, last: Record) -> Result<Self, AllocError>
        requires { self.first + length self.steps + step_count last ≤ places_limit }
        ensures { IfOk result (λ g. g ≡ record self {
          steps = self.steps ++ record_steps (self.first + length self.steps) last;
        }) }
    {
        let count = step_count(&last);
        if count == 0 {
            return Ok(self);
        }
        let first = self.first;
        let mut records = self.records;
        let mut indexes = self.indexes;
        let mut firsts = self.firsts;
        let place = first + indexes.len() as u32;
        add_record(
            &mut indexes,
            &mut firsts,
            place,
            records.len() as u32,
            count,
        )?;
        records.push(last)?;
        Ok(Grown {
            first,
            records,
            indexes,
            firsts,
        })
    }

    /// Lets go of the records, whose places are before those of the next ones.
    pub(crate) fn let_go(&mut self)
        ensures { self.new
            ≡ record { first = self.old.first + length self.old.steps; steps = [] } }
    {
        self.first += self.indexes.len() as u32;
        self.records.clear();
        self.indexes.clear();
        self.firsts.clear();
    }

    /// How many places are before those of the records.
    #[inline(always)]
    pub(crate) fn first(&self) -> u32
        ensures { result ≡ self.now.first }
    {
        self.first
    }

    /// How many places there are, with those before the records.
    pub(crate) fn places(&self) -> u32
        ensures places { result ≡ self.now.first + length self.now.steps }
        ensures limit { result ≤ places_limit }
    {
        self.first + self.indexes.len() as u32
    }

    /// The step at a place, in constant time.
    pub(crate) fn step(&self, place: u32) -> Step<'_>
        requires behind { self.now.first ≤ place }
        requires within { place < self.now.first + length self.now.steps }
        ensures { slice_get self.now.steps (place - self.now.first) ≡ Some (step_meant result) }
    {
        let index = self.indexes[(place - self.first) as usize];
        let first = self.firsts[index as usize];
        match &self.records[index as usize] {
            Record::Enter { ring, entries } => Step {
                ring: *ring,
                record_number: first,
                action: Action::Submit(entries.at((place - first) as usize)),
            },
            Record::Fill {
                ring,
                buffer,
                offset,
                bytes,
            } => Step {
                ring: *ring,
                record_number: first,
                action: Action::Fill {
                    buffer: *buffer,
                    offset: *offset,
                    bytes,
                },
            },
            Record::Register { ring, slots } => Step {
                ring: *ring,
                record_number: first,
                action: Action::Register(slots),
            },
            Record::Set { file, content } => Step {
                ring: ring_of(*file),
                record_number: first,
                action: Action::Set {
                    file: *file,
                    content,
                },
            },
            Record::Seek { file, position } => Step {
                ring: ring_of(*file),
                record_number: first,
                action: Action::Seek {
                    file: *file,
                    position: *position,
                },
            },
        }
    }
}
