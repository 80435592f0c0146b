//! Numbers that are used in ranges.
ghost use Rattle.std.specs.BinaryHeap.{heap_items};
ghost use Rattle.std.specs.Bool.{Decides};
ghost use Rattle.std.specs.Prelude.{◌≡◌, ◌<◌, ◌≤◌, ◌||◌, ◌==◌, ◌⊎◌, ℕ, true, false, OnOk, None, Some, length, if◌then◌else◌};
ghost use Rattle.use_line.specs.History.{is_number};
ghost use Rattle.use_line.specs.Known.{AddsToldBy, HasRead, HasWriter, IsPart};
ghost use Rattle.use_line.specs.Known.{is_among, is_none, no_ranges, range_at, written_at};
ghost use Rattle.use_line.specs.Queue.{AddsDue, AreBelow, AreFilled, Due};
ghost use Rattle.use_line.specs.Spans.{within, written_by};
ghost use Rattle.use_line.specs.Steps.{step_at};

use crate::clip::{Clip, add_older, next_clip};
use crate::line::Span;
use crate::read::Read;
use crate::steps::Steps;
use std::alloc::{AllocError, Global};
use std::collections::BinaryHeap;
use std::marker::Model;

/// Some numbers that one place wrote last, and of which one read is the latest since then.
#[derive(Clone, Copy)]
struct Part {
    low: u128,
    high: u128,
    writer: Option<u32>,
    reader: Option<u32>,
}

/// Of each number, which place wrote it last, and which have read it since.
///
/// A read takes what it covers out of `readers`, keeps that as what it stands upon, and leaves one
/// part there. So those that have read a number are the latest read there and the reads below it.
///
/// All memory follows the number of ranges that were added, however they overlap: at most one read
/// for each, and ten keys. A range adds two keys to `writers` or `readers` and takes out those in
/// between. A read keeps at most two keys for each part that it takes out.
#[derive(Drop)]
pub(crate) struct Ranges {
    /// Which place wrote each number last.
    writers: Steps,
    /// Which of `reads` is the latest since then.
    readers: Steps,
    /// All reads, each upon earlier ones.
    reads: Vec<Read>,
}

impl Model for Ranges {
    ghost use Rattle.use_line.specs.Known.{IsLinked, RangeUses};

    ghost Value = { RangeUses };

    ghost view = { λ l. record { writers = l.writers; readers = l.readers; reads = l.reads.items } };

    ghost invariant = { λ l. IsLinked (record { writers = l.writers; readers = l.readers; reads = l.reads.items }) };
}

impl Ranges {
    /// No place has used any number.
    pub(crate) fn new(alloc: Global) -> Self
        ensures { result ≡ no_ranges }
    {
        Ranges {
            writers: Steps::new(alloc),
            readers: Steps::new(alloc),
            reads: Vec::new(alloc),
        }
    }

    /// The last part of a range of which all numbers have one writer and one latest read, and a
    /// place's ranges write all of them or none.
    fn last_part(&self, low: u128, high: u128, own: &[Span]) -> Part
        requires { low < high }
        ensures from { low ≤ result.low }
        ensures to { result.low < high }
        ensures end { result.high ≡ high }
        ensures part { IsPart self.now own.now result.low high }
        ensures writer { result.writer ≡ step_at self.now.writers result.low }
        ensures reader { result.reader ≡ step_at self.now.readers result.low }
    {
        let (start, writer) = self.writers.last_part(low, high);
        let (start, reader) = self.readers.last_part(start, high);
        Part {
            low: last_edge(own, start, high),
            high,
            writer,
            reader,
        }
    }

    /// Adds those for whom a place waits by a part of one of its ranges: the readers as a clip.
    fn tell_part(
        &self,
        part: &Part,
        written: bool,
        own: &[Span],
        queue: &mut BinaryHeap<Clip>,
        told: &mut Vec<u32>,
    ) -> Result<(), AllocError>
        requires some { part.now.low < part.now.high }
        requires part { IsPart self.now own.now part.now.low part.now.high }
        requires writer { part.now.writer ≡ step_at self.now.writers part.now.low }
        requires reader { part.now.reader ≡ step_at self.now.readers part.now.low }
        ensures filled { OnOk result (AreFilled (heap_items queue.old) → AreFilled (heap_items queue.new)) }
        ensures below { OnOk result (AreBelow (length self.now.reads) (heap_items queue.old)
            → AreBelow (length self.now.reads) (heap_items queue.new)) }
        ensures due { OnOk result (AddsDue self.now own.now written part.now.low part.now.high
            told.old.items (heap_items queue.old) told.new.items (heap_items queue.new)) }
    {
        let _reads = &self.reads;
        let Some(read) = part.reader else {
            return tell_writer(part.writer, told);
        };
        if written {
            queue.push(Clip {
                read,
                low: part.low,
                high: part.high,
            })?;
            return Ok(());
        }
        if writes(own, part.low) {
            return Ok(());
        }
        tell_writer(part.writer, told)
    }

    /// Adds those that have read what some clips have, each at most once for each of its reads.
    ///
    /// The latest read comes first, so that its clips from all reads above it have come together.
    fn tell_readers(
        &self,
        queue: &mut BinaryHeap<Clip>,
        told: &mut Vec<u32>,
    ) -> Result<(), AllocError>
        requires filled { AreFilled (heap_items queue.old) }
        requires below { AreBelow (length self.now.reads) (heap_items queue.old) }
        ensures { OnOk result ((j : ℕ) → Decides (is_among told.new.items j)
            (Due self.now.reads told.old.items (heap_items queue.old) j)) }
    {
        while let Some(clip) = next_clip(queue) {
            let read = &self.reads[clip.read as usize];
            tell_place(read.place, told)?;
            add_older(&read.older, clip.low, clip.high, queue)?;
        }
        Ok(())
    }

    /// Adds those who wrote the numbers of a range last.
    fn tell_writers(&self, low: u128, high: u128, told: &mut Vec<u32>) -> Result<(), AllocError>
        requires { low < high }
        ensures { OnOk result ((j : ℕ) → Decides (is_among told.new.items j)
            ((is_among told.old.items j ≡ true) ⊎ HasWriter self.now.writers low high j)) }
    {
        let mut end = high;
        while low < end {
            let (start, writer) = self.writers.last_part(low, end);
            tell_writer(writer, told)?;
            end = start;
        }
        Ok(())
    }

    /// Adds those for whom a place waits directly by one of its ranges.
    pub(crate) fn tell(
        &self,
        alloc: Global,
        span: &Span,
        own: &[Span],
        told: &mut Vec<u32>,
    ) -> Result<(), AllocError>
        requires { span.now.low < span.now.high }
        ensures { OnOk result (AddsToldBy (range_at self.now) own.now span.now.written span.now.low span.now.high
            told.old.items told.new.items) }
    {
        if !span.written && !is_written_within(own, span.low, span.high) {
            return self.tell_writers(span.low, span.high, told);
        }
        let mut queue = BinaryHeap::new(alloc);
        let mut end = span.high;
        while span.low < end {
            let part = self.last_part(span.low, end, own);
            self.tell_part(&part, span.written, own, &mut queue, told)?;
            end = part.low;
        }
        self.tell_readers(&mut queue, told)
    }

    /// Adds a place to those that have read the numbers of a range.
    pub(crate) fn read(
        &mut self,
        alloc: Global,
        place: u32,
        low: u128,
        high: u128,
    ) -> Result<(), AllocError>
        requires { low < high }
        ensures { OnOk result ((b : ℕ) → HasRead (range_at self.old b) (range_at self.new b)
            (within low high b) place) }
    {
        let Ok(number) = u32::try_from(self.reads.len()) else {
            return Err(AllocError);
        };
        let older = self.readers.copied(alloc, low, high)?;
        self.reads.push(Read { place, older })?;
        self.readers.set(low, high, Some(number))
    }

    /// Makes a place the one that wrote the numbers of a range.
    pub(crate) fn write(&mut self, place: u32, low: u128, high: u128) -> Result<(), AllocError>
        requires { low < high }
        ensures { OnOk result ((b : ℕ) → range_at self.new b
            ≡ (if within low high b then written_at place else range_at self.old b)) }
    {
        self.writers.set(low, high, Some(place))?;
        self.readers.clear(low, high)
    }
}

/// Adds the place that wrote some numbers, if there is one.
pub(crate) fn tell_writer(writer: Option<u32>, told: &mut Vec<u32>) -> Result<(), AllocError>
    ensures { OnOk result ((j : ℕ) → is_among told.new.items j
        ≡ (is_among told.old.items j || is_number j writer)) }
{
    match writer {
        Some(place) => tell_place(place, told),
        None => Ok(()),
    }
}

/// Adds a place, unless it is the last one there.
pub(crate) fn tell_place(place: u32, told: &mut Vec<u32>) -> Result<(), AllocError>
    ensures told { OnOk result ((j : ℕ) → is_among told.new.items j
        ≡ (is_among told.old.items j || place == j)) }
    ensures some { OnOk result (is_none told.new.items ≡ false) }
{
    match told.as_slice().last() {
        Some(last) if *last == place => Ok(()),
        _ => {
            told.push(place)?;
            Ok(())
        }
    }
}

/// The last number within a range where one of some ranges begins or ends, or else its first.
fn last_edge(spans: &[Span], low: u128, high: u128) -> u128
    requires { low < high }
    ensures from { low ≤ result }
    ensures to { result < high }
    ensures same { (b : ℕ) → within result high b ≡ true
        → written_by spans.now b ≡ written_by spans.now result }
{
    let mut edge = low;
    for span in spans {
        edge = later_edge(edge, span.low, high);
        edge = later_edge(edge, span.high, high);
    }
    edge
}

/// A number, or a later one below an end.
fn later_edge(edge: u128, at: u128, high: u128) -> u128
    requires { edge < high }
    ensures from { edge ≤ result }
    ensures to { result < high }
    ensures at { (at ≤ result) ⊎ (high ≤ at) }
{
    if edge < at && at < high { at } else { edge }
}

/// Whether one of some ranges may have a number of a range that is written.
fn is_written_within(spans: &[Span], low: u128, high: u128) -> bool
    ensures { result ≡ false → (b : ℕ) → within low high b ≡ true → written_by spans.now b ≡ false }
{
    for span in spans {
        if span.written && span.low < high && low < span.high {
            return true;
        }
    }
    false
}

/// Whether one of some ranges has a number that is written.
pub(crate) fn writes(spans: &[Span], number: u128) -> bool
    ensures { result ≡ written_by spans.now number }
{
    spans.iter().any(|span| span.written && span.low <= number && number < span.high)
}
