//! Recordings of traces of version 3.
ghost use Rattle.std.specs.Prelude.{◌≡◌, ◌+◌, ◌<◌, ◌^◌, [], ◌∷◌, ◌++◌, length, map, All, IfOk, OnOk};
ghost use Rattle.recording.specs.Fronts.{IsSpelledFront};
ghost use Rattle.recording.specs.Growing as meant;
ghost use Rattle.recording.specs.Growing.{HasRoom};
ghost use Rattle.recording.specs.Spelled.{IsSpelled};
ghost use Rattle.recording.specs.declared.record.Record.TheVariants as kept;
ghost use Rattle.trace_records.specs.Records as side;
ghost use Rattle.trace_records.specs.declared.start.Descriptor as three;

use crate::record::Record;
use crate::recording::{Recording, Ring};
use crate::steps::Steps;
use std::alloc::{AllocError, Global};
use trace_format::{Blob, EntryBuf, Gathered, Given, Series, Version};
use trace_records::{Beside, Descriptor, Entry, Filling, Start, Trace};

/// Bytes, and zeros behind them, so many in all.
fn with_zeros(alloc: Global, front: &[u8], len: usize) -> Result<Blob, AllocError>
    ensures { IfOk result (λ b. b ≡ meant.with_zeros front.now len) }
{
    let len = len.max(front.len());
    if len == 0 {
        return Ok(Blob::empty());
    }
    let mut bytes = Vec::with_capacity(alloc, len)?;
    bytes.extend_from_slice(front)?;
    bytes.resize(len, 0)?;
    Blob::from_vec(alloc, bytes)
}

/// The bytes beside an entry, which are stored and not copied, or its lengths and zeros; or what is
/// given of it.
fn beside_of(alloc: Global, beside: Beside) -> Result<(Blob, Option<Given>), AllocError>
    ensures { IfOk result (λ x. (x.0 ≡ side.meant beside) × (x.1 ≡ meant.given_in beside)) }
{
    match beside {
        Beside::Stored { bytes } => Ok((bytes, None)),
        Beside::Zeros { lengths, len } => {
            let bytes = with_zeros(alloc, lengths.as_slice(), len as usize)?;
            Ok((bytes, None))
        }
        Beside::Given { given } => Ok((Blob::empty(), Some(given))),
    }
}

/// The entries of a record.
fn entries_of(alloc: Global, entries: Vec<Entry>) -> Result<Gathered, AllocError>
    ensures { IfOk result (λ e. e ≡ map meant.submitted entries.items) }
{
    let mut made = Vec::with_capacity(alloc, entries.len())?;
    for entry in entries {
        let Entry { sqe, beside } = entry;
        let (side, given) = beside_of(alloc, beside)?;
        made.push(EntryBuf::new(sqe, side, given))?;
    }
    Gathered::new(alloc, made)
}

/// The bytes that are put into a buffer.
fn bytes_of(alloc: Global, filling: Filling) -> Result<Blob, AllocError>
    ensures { IfOk result (λ b. b ≡ meant.filling_bytes filling) }
{
    match filling {
        Filling::Stored { bytes } => Ok(bytes),
        Filling::Zeros { len } => with_zeros(alloc, &[], len as usize),
    }
}

/// The table of ordinary descriptors.
fn table_of(alloc: Global, size: u32, full: &[Descriptor]) -> Result<Vec<u32>, AllocError>
    requires { All (λ (d : three.Descriptor). d.description + 1 < 2 ^ 32) full.now }
    ensures { IfOk result (λ v. v.items ≡ meant.table_of size full.now) }
{
    let mut table = Vec::with_capacity(alloc, size as usize)?;
    table.resize(size as usize, 0)?;
    for descriptor in full {
        if let Some(entry) = table.get_mut(descriptor.number as usize) {
            *entry = descriptor.description + 1;
        }
    }
    Ok(table)
}

/// The ring whose queue a new ring submits to, which continues that of an earlier one or is its
/// own.
fn queue_behind(rings: &[Ring], queue: Option<u32>) -> u32
    requires { length rings.now < 2 ^ 32 }
    ensures { result ≡ meant.queue_behind rings.now queue }
{
    let own = rings.len() as u32;
    match queue {
        None => own,
        Some(earlier) => match rings.get(earlier as usize) {
            None => own,
            Some(there) => there.queue,
        },
    }
}

/// Adds a new ring, whose slots are empty until its step. That step is the result.
fn with_ring(
    alloc: Global,
    rings: &mut Vec<Ring>,
    ring: trace_records::Ring,
) -> Result<Record, AllocError>
    requires { length rings.old.items < 2 ^ 32 }
    ensures ring { OnOk result
        (rings.new.items ≡ rings.old.items ++ meant.new_ring rings.old.items ring ∷ []) }
    ensures step { IfOk result (λ r. r ≡ kept.Register (length rings.old.items) ring.full) }
{
    let number = rings.len() as u32;
    let queue = queue_behind(rings, ring.queue);
    rings.push(Ring {
        slots: Series::from_vec(Vec::new(alloc)),
        spare: ring.slots,
        buffers: ring.buffers,
        queue,
        ended: false,
    })?;
    Ok(Record::Register {
        ring: number,
        slots: ring.full,
    })
}

/// The rings and the steps of the records so far.
#[derive(Drop)]
struct Growing {
    rings: Vec<Ring>,
    steps: Steps,
}

/// One record more.
fn grown_by(
    alloc: Global,
    growing: Growing,
    next: trace_records::Record,
) -> Result<Growing, AllocError>
    requires { HasRoom (meant.grown growing) next }
    ensures { IfOk result (λ g. meant.grown g ≡ meant.with_record (meant.grown growing) next) }
{
    let mut rings = growing.rings;
    let steps = growing.steps;
    let steps = match next {
        trace_records::Record::Enter { ring, entries } => {
            let entries = entries_of(alloc, entries.into_vec())?;
            steps.with(Record::Enter { ring, entries })?
        }
        trace_records::Record::Fill {
            ring,
            buffer,
            offset,
            filling,
        } => {
            let bytes = bytes_of(alloc, filling)?;
            steps.with(Record::Fill {
                ring,
                buffer,
                offset,
                bytes,
            })?
        }
        trace_records::Record::Set { file, content } => {
            steps.with(Record::Set { file, content })?
        }
        trace_records::Record::Seek { file, position } => {
            steps.with(Record::Seek { file, position })?
        }
        trace_records::Record::RingStarts { ring } => {
            steps.with(with_ring(alloc, &mut rings, ring)?)?
        }
        trace_records::Record::RingEnds { ring } => {
            if let Some(there) = rings.get_mut(ring as usize) {
                there.ended = true;
            }
            steps
        }
    };
    Ok(Growing { rings, steps })
}

impl Recording {
    /// The recording of a start of version 3, before the first record.
    ///
    /// # Errors
    ///
    /// Out of memory.
    pub fn of_start(alloc: Global, start: Start) -> Result<Self, AllocError>
        requires { IsSpelledFront start [] }
        ensures { IfOk result (λ t. t ≡ meant.of_start start) }
    {
        let descriptors = table_of(alloc, start.table_size, start.descriptors.as_slice())?;
        Ok(Recording {
            version: Version::Three,
            in_place_order: true,
            items: start.items,
            descriptions: start.descriptions,
            descriptors: Series::from_vec(descriptors),
            rings: Series::from_vec(Vec::new(alloc)),
            steps: Steps::new(alloc),
        })
    }

    /// The same with one record more.
    ///
    /// # Errors
    ///
    /// Out of memory.
    pub fn with_record(self, alloc: Global, next: trace_records::Record) -> Result<Self, AllocError>
        requires { HasRoom (meant.grown_in self) next }
        ensures { IfOk result (λ t. t ≡ meant.with_next self next) }
    {
        let growing = Growing {
            rings: self.rings.into_vec(),
            steps: self.steps,
        };
        let Growing { rings, steps } = grown_by(alloc, growing, next)?;
        Ok(Recording {
            version: self.version,
            in_place_order: self.in_place_order,
            items: self.items,
            descriptions: self.descriptions,
            descriptors: self.descriptors,
            rings: Series::from_vec(rings),
            steps,
        })
    }

    /// Lets go of all steps so far: there are as many, and each does nothing. The memory that is
    /// kept of them does not depend on how many there are.
    pub fn let_go(&mut self, alloc: Global)
        ensures { self.new ≡ meant.let_go self.old }
    {
        self.steps.let_go(alloc);
    }

    /// The recording of a trace of version 3.
    ///
    /// # Errors
    ///
    /// Out of memory.
    pub fn of_records(alloc: Global, trace: Trace) -> Result<Self, AllocError>
        requires { IsSpelled trace }
        ensures { IfOk result (λ r. r ≡ meant.of_records trace) }
    {
        let Trace { start, records } = trace;
        let mut made = Recording::of_start(alloc, start)?;
        for next in records.into_vec() {
            made = made.with_record(alloc, next)?;
        }
        Ok(made)
    }
}
