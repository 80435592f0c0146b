//! The steps of a recording.
ghost use Rattle.std.specs.Prelude.{◌≡◌, ◌+◌, ◌<◌, ◌≤◌, [], ◌++◌, length, map, IfOk, Some};
ghost use Rattle.std.specs.List.{slice_get};
ghost use Rattle.recording.specs.Forgotten.{blanks};
ghost use Rattle.recording.specs.Kept.{steps_before, widened, widened_action};
ghost use Rattle.recording.specs.Limits.{places_limit};
ghost use Rattle.recording.specs.Records.{record_steps, step_count};
ghost use Rattle.recording.specs.Steps.{action_meant, step_meant};
ghost use Rattle.trace_format.specs.Steps as narrow;
ghost use Rattle.trace_format.specs.Steps.{action_meant as narrow_action, step_meant as narrow_meant};

use crate::kept::Grown;
use crate::record::Record;
use std::alloc::{AllocError, Global};
use std::marker::Model;
use trace_format::{Blob, Entry, Records, Series};
use trace_records::{Content, FileAt, FullSlot};

/// What a step does.
#[derive(Drop)]
pub enum Action<'a> {
    /// Submits an entry.
    Submit(Entry<'a>),
    /// Puts the bytes into the ring's buffer of this number, from this offset in it on.
    Fill {
        buffer: u16,
        offset: u32,
        bytes: &'a Blob,
    },
    /// Fills slots of the ring, which is new, with what others hold.
    Register(&'a Series<FullSlot>),
    /// Says what a slot or a descriptor holds from there on.
    Set {
        file: FileAt,
        content: &'a Content,
    },
    /// Gives the position of what a slot or a descriptor holds.
    Seek {
        file: FileAt,
        position: u64,
    },
}

/// A step of a recording, with its ring and the number of its record.
#[derive(Drop)]
pub struct Step<'a> {
    /// The number of its ring, 1,048,576 where it is on none.
    pub ring: u32,
    /// A number that the steps of its record share, and those of no other one have.
    pub record_number: u32,
    /// What it does.
    pub action: Action<'a>,
}

/// The steps before those of records that came one after another.
#[derive(Drop)]
pub(crate) enum Before {
    /// Those of the records of version 1 or 2.
    Whole(Records),
    /// So many that do nothing: each fills these slots, of which there are none.
    Blank { count: u32, slots: Series<FullSlot> },
}

/// The steps of a recording, in order. Each is found by its place in constant time.
#[derive(Drop)]
pub struct Steps {
    before: Before,
    grown: Grown,
}

impl Model for Steps {
    ghost use Rattle.std.specs.Prelude.{◌≡◌, ◌++◌, List, length};
    ghost use Rattle.recording.specs.Actions.{Step};

    ghost Value = { List Step };

    ghost use Rattle.recording.specs.Kept.{steps_before};

    ghost view = { λ s. steps_before s.before ++ s.grown.steps };

    ghost invariant = { λ s. s.grown.first ≡ length (steps_before s.before) };
}

/// The same step, with the number of its ring in 32 bits.
fn widened(step: trace_format::Step<'_>) -> Step<'_>
    ensures { step_meant result ≡ widened (narrow_meant step.entry) }
{
    let trace_format::Step {
        ring,
        record_number,
        action,
    } = step;
    Step {
        ring: u32::from(ring),
        record_number,
        action: widened_action(action),
    }
}

/// What a step of a record of version 1 or 2 does.
fn widened_action(action: trace_format::Action<'_>) -> Action<'_>
    ensures { action_meant result ≡ widened_action (narrow_action action.entry) }
{
    match action {
        trace_format::Action::Submit(entry) => Action::Submit(entry),
        trace_format::Action::Fill {
            buffer,
            offset,
            bytes,
        } => Action::Fill {
            buffer,
            offset,
            bytes,
        },
    }
}

/// So many steps that do nothing. It takes no memory.
fn blanks(alloc: Global, count: u32) -> Before
    ensures { steps_before result ≡ blanks count }
{
    Before::Blank {
        count,
        slots: Series::from_vec(Vec::new(alloc)),
    }
}

impl Before {
    /// The step at a place.
    fn at(&self, place: u32) -> Step<'_>
        requires { place < length (steps_before self.now) }
        ensures { slice_get (steps_before self.now) place ≡ Some (step_meant result) }
    {
        match self {
            Before::Whole(records) => widened(records.step(place)),
            Before::Blank { count: _, slots } => Step {
                ring: 0,
                record_number: place,
                action: Action::Register(slots),
            },
        }
    }
}

impl Steps {
    /// None. It takes no memory.
    pub(crate) fn new(alloc: Global) -> Self
        ensures { result ≡ [] }
    {
        Steps {
            before: blanks(alloc, 0),
            grown: Grown::new(alloc, 0),
        }
    }

    /// Those of the records of version 1 or 2. It takes no memory.
    pub(crate) fn of_whole(alloc: Global, records: Records) -> Self
        ensures { result ≡ map widened (narrow.steps_from 0 records) }
    {
        let grown = Grown::new(alloc, records.places());
        Steps {
            before: Before::Whole(records),
            grown,
        }
    }

    /// The same with those of a record more, behind the others.
    ///
    /// # Errors
    ///
    /// Out of memory.
    pub(crate) fn with(self, last: Record) -> Result<Self, AllocError>
        requires { length self + step_count last ≤ places_limit }
        ensures { IfOk result (λ s. s ≡ self ++ record_steps (length self) last) }
    {
        let before = self.before;
        let grown = self.grown.with(last)?;
        Ok(Steps { before, grown })
    }

    /// Lets go of all steps: there are as many, and each does nothing. The memory that is kept
    /// does not depend on how many there are.
    pub(crate) fn let_go(&mut self, alloc: Global)
        ensures { self.new ≡ blanks (length self.old) }
    {
        self.before = blanks(alloc, self.len());
        self.grown.let_go();
    }

    /// How many there are, at most 2^31.
    pub fn len(&self) -> u32
        ensures steps { result ≡ length self.now }
    {
        self.grown.places()
    }

    /// The step at a place, in constant time.
    #[inline(always)]
    pub fn at(&self, place: u32) -> Step<'_>
        requires { place < length self.now }
        ensures { slice_get self.now place ≡ Some (step_meant result) }
    {
        if place < self.grown.first() {
            self.before.at(place)
        } else {
            self.grown.step(place)
        }
    }
}
