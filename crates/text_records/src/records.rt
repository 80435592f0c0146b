//! The records of a text: entries, fills, sets, seeks, rings and their ends.
ghost use Rattle.std.specs.Prelude.{◌≡◌, ◌≤◌, ◌<◌, ◌∷◌, [], ◌+◌, ◌-◌, ◌^◌, ℕ, IfOk, OnOk, length};
ghost use Rattle.std.specs.List.{flat_map};
ghost use Rattle.trace_format.specs.Spelling.{buffer_bytes};
ghost use Rattle.trace_records.specs.Spelling.{entry_text, full_slot_bytes, record_bytes};
ghost use Rattle.trace_records.specs.Tallies.{rings};
ghost use Rattle.trace_records.specs.declared.record.Record.TheVariants.{Fill, RingEnds};
ghost use Rattle.text_words.specs.Read.{Gives, rest_of};
ghost use Rattle.text_records.specs.Records.{buffers_of, enter_line, enter_of, entries_of};
ghost use Rattle.text_records.specs.Records.{fill_buffer, fill_of, filling_of, one_buffer};
ghost use Rattle.text_records.specs.Records.{one_entry, one_fill, one_record, one_seek};
ghost use Rattle.text_records.specs.Records.{one_set, record_of};
ghost use Rattle.text_records.specs.Records.{records_of, ring_end, ring_line, ring_slots};
ghost use Rattle.text_records.specs.Records.{ring_start, ring_step, step_of, stored_of};

use crate::entry::entry_of;
use crate::pieces::{Pieces, add_piece};
use crate::sets::{seek_of, set_of};
use crate::slots::{Table, slots_line};
use std::alloc::Global;
use text_trace::{begins, buffer_of, keyed_word, next_number, opcode_of};
use text_words::{
    ReadError, Reason, Source, behind_first, behind_next, first_word, line_end, next_word, refused,
    strings_of, u16_at, u32_at, value_at,
};
use trace_format::{Blob, Buffer, Given, Series};
use trace_records::{Beside, Entry, Filling, FullSlot, Record, Ring};

/// How many entries are handed over at once at most.
const MOST_ENTRIES: usize = 32_768;

/// How many rings a trace has at most.
const MOST_RINGS: usize = 1_048_576;

/// How many buffers a ring has at most.
const MOST_BUFFERS: usize = 16_384;

/// How many bytes an entry has.
#[tactic(auto, unfolding(trace_records::specs::Spelling::entry_text))]
fn entry_len(entry: &Entry) -> u128
    ensures { result ≡ length (entry_text entry.now) }
{
    match &entry.beside {
        Beside::Stored { bytes } => bytes.as_slice().len() as u128 + 69,
        Beside::Zeros { lengths, len: _ } => lengths.as_slice().len() as u128 + 69,
        Beside::Given {
            given: Given::Passed { .. },
        } => 70,
        Beside::Given {
            given: Given::Refused { .. },
        } => 69,
    }
}

/// Adds the entry of a line.
#[tactic(auto, unfolding(crate::specs::Records::one_entry))]
fn add_entry<'a>(
    alloc: Global,
    entries: &mut Vec<Entry>,
    pieces: &mut Pieces,
    opcode: u8,
    source: Source<'a>,
) -> Result<Source<'a>, ReadError>
    ensures { Gives (λ s. (entries.new.items, pieces.new.items, rest_of s)) result
        (one_entry (entries.old.items, pieces.old.items, rest_of source.entry) opcode) }
{
    let left = first_word(source).left;
    if entries.len() >= MOST_ENTRIES {
        return Err(refused(Reason::TooMany, left));
    }
    let (entry, after) = entry_of(alloc, left, opcode, behind_first(source))?;
    add_piece(pieces, entry_len(&entry), left)?;
    entries.push(entry)?;
    Ok(after)
}

/// The entries of one `enter`.
fn entries_of<'a>(
    alloc: Global,
    pieces: &mut Pieces,
    source: Source<'a>,
) -> Result<(Vec<Entry>, Source<'a>), ReadError>
    ensures { Gives (λ x. (x.0.items, pieces.new.items, rest_of x.1)) result
        (entries_of pieces.old.items (rest_of source.entry)) }
{
    let mut entries = Vec::new(alloc);
    let mut source = source;
    for _ in 0..source.rest.len() {
        let Some(opcode) = opcode_of(first_word(source).bytes) else {
            break;
        };
        source = add_entry(alloc, &mut entries, pieces, opcode, source)?;
    }
    Ok((entries, source))
}

/// The ring that entries were handed to.
#[tactic(auto, unfolding(crate::specs::Records::enter_line))]
fn enter_line(source: Source<'_>) -> Result<(u32, Source<'_>), ReadError>
    ensures { Gives (λ x. (x.0, rest_of x.1)) result (enter_line (rest_of source.entry)) }
{
    let source = behind_first(source);
    let ring = u32_at(next_word(source))?;
    let source = line_end(behind_next(source))?;
    Ok((ring, source))
}

/// The entries that a ring was handed at once.
#[tactic(auto, unfolding(crate::specs::Records::enter_of))]
fn enter_of<'a>(
    alloc: Global,
    pieces: &mut Pieces,
    source: Source<'a>,
) -> Result<(Record, Source<'a>), ReadError>
    ensures { Gives (λ x. (x.0, pieces.new.items, rest_of x.1)) result
        (enter_of pieces.old.items (rest_of source.entry)) }
{
    let (ring, after) = enter_line(source)?;
    add_piece(pieces, 7, first_word(source).left)?;
    let (entries, after) = entries_of(alloc, pieces, after)?;
    let entries = Series::from_vec(entries);
    Ok((Record::Enter { ring, entries }, after))
}

/// The buffer of a ring that a fill puts bytes into.
#[tactic(auto, unfolding(crate::specs::Records::fill_buffer))]
fn fill_buffer(source: Source<'_>) -> Result<(u32, u16, Source<'_>), ReadError>
    ensures { Gives (λ x. (x.0, x.1, rest_of x.2)) result (fill_buffer (rest_of source.entry)) }
{
    let source = behind_first(source);
    let ring = u32_at(next_word(source))?;
    let source = behind_next(source);
    let word = next_word(source);
    let Some(value) = value_at(word, b"buffer") else {
        return Err(refused(Reason::Buffer, word.left));
    };
    let buffer = u16_at(value)?;
    Ok((ring, buffer, behind_next(source)))
}

/// Bytes as strings.
#[tactic(auto, unfolding(crate::specs::Records::stored_of))]
fn stored_of<'a>(alloc: Global, source: Source<'a>) -> Result<(Filling, Source<'a>), ReadError>
    ensures { Gives (λ x. (x.0, rest_of x.1)) result (stored_of (rest_of source.entry)) }
{
    let (bytes, source) = strings_of(alloc, source)?;
    let bytes = Blob::from_vec(alloc, bytes)?;
    Ok((Filling::Stored { bytes }, source))
}

/// What a fill puts into a buffer.
#[tactic(auto, unfolding(crate::specs::Records::filling_of))]
fn filling_of<'a>(alloc: Global, source: Source<'a>) -> Result<(Filling, Source<'a>), ReadError>
    ensures { Gives (λ x. (x.0, rest_of x.1)) result (filling_of (rest_of source.entry)) }
{
    let Some(value) = value_at(next_word(source), b"zeros") else {
        return stored_of(alloc, source);
    };
    let len = u32_at(value)?;
    Ok((Filling::Zeros { len }, behind_next(source)))
}

/// How many bytes the record of a fill has.
fn fill_len(filling: &Filling) -> u128
    ensures { (ring buffer offset : ℕ) → result
        ≡ length (record_bytes (Fill ring buffer offset filling.now)) }
{
    match filling {
        Filling::Stored { bytes } => bytes.as_slice().len() as u128 + 16,
        Filling::Zeros { len: _ } => 16,
    }
}

/// Bytes for a part of a registered buffer, and how many bytes the record has.
#[tactic(auto, unfolding(crate::specs::Records::fill_of))]
fn fill_of<'a>(alloc: Global, source: Source<'a>) -> Result<(Record, u128, Source<'a>), ReadError>
    ensures read { Gives (λ x. (x.0, rest_of x.2)) result (fill_of (rest_of source.entry)) }
    ensures len { IfOk result (λ x. x.1 ≡ length (record_bytes x.0)) }
{
    let (ring, buffer, source) = fill_buffer(source)?;
    let (offset, source) = keyed_word(b"at", source)?;
    let (filling, source) = filling_of(alloc, source)?;
    let source = line_end(source)?;
    let len = fill_len(&filling);
    let offset = offset.unwrap_or(0);
    Ok((
        Record::Fill {
            ring,
            buffer,
            offset,
            filling,
        },
        len,
        source,
    ))
}

/// The record of a `fill`.
#[tactic(auto, unfolding(crate::specs::Records::one_fill))]
fn one_fill<'a>(
    alloc: Global,
    pieces: &mut Pieces,
    source: Source<'a>,
) -> Result<(Record, Source<'a>), ReadError>
    ensures { Gives (λ x. (x.0, pieces.new.items, rest_of x.1)) result
        (one_fill pieces.old.items (rest_of source.entry)) }
{
    let (made, len, after) = fill_of(alloc, source)?;
    add_piece(pieces, len, first_word(source).left)?;
    Ok((made, after))
}

/// The record of a `set`.
#[tactic(auto, unfolding(crate::specs::Records::one_set))]
fn one_set<'a>(
    alloc: Global,
    pieces: &mut Pieces,
    source: Source<'a>,
) -> Result<(Record, Source<'a>), ReadError>
    ensures { Gives (λ x. (x.0, pieces.new.items, rest_of x.1)) result
        (one_set pieces.old.items (rest_of source.entry)) }
{
    let (made, len, after) = set_of(alloc, source)?;
    add_piece(pieces, len, first_word(source).left)?;
    Ok((made, after))
}

/// The record of a `seek`.
#[tactic(auto, unfolding(crate::specs::Records::one_seek))]
fn one_seek<'a>(pieces: &mut Pieces, source: Source<'a>) -> Result<(Record, Source<'a>), ReadError>
    ensures { Gives (λ x. (x.0, pieces.new.items, rest_of x.1)) result
        (one_seek pieces.old.items (rest_of source.entry)) }
{
    let (made, len, after) = seek_of(source)?;
    add_piece(pieces, len, first_word(source).left)?;
    Ok((made, after))
}

/// The end of a ring.
#[tactic(auto, unfolding(crate::specs::Records::ring_end))]
fn ring_end<'a>(pieces: &mut Pieces, source: Source<'a>) -> Result<(Record, Source<'a>), ReadError>
    ensures { Gives (λ x. (x.0, pieces.new.items, rest_of x.1)) result
        (ring_end pieces.old.items (rest_of source.entry)) }
{
    let behind = behind_first(source);
    let ring = u32_at(next_word(behind))?;
    let after = line_end(behind_next(behind_next(behind)))?;
    add_piece(pieces, 5, first_word(source).left)?;
    Ok((Record::RingEnds { ring }, after))
}

/// The line of a ring, behind so many: the ring whose queue it continues.
#[tactic(auto, unfolding(crate::specs::Records::ring_line))]
fn ring_line(number: usize, source: Source<'_>) -> Result<(Option<u32>, Source<'_>), ReadError>
    ensures { Gives (λ x. (x.0, rest_of x.1)) result (ring_line number (rest_of source.entry)) }
{
    let source = next_number(number, behind_first(source))?;
    let (queue, source) = keyed_word(b"queue", source)?;
    let source = line_end(source)?;
    Ok((queue, source))
}

/// How many bytes full slots have.
fn full_len(full: &[FullSlot]) -> u128
    ensures { result ≡ length (flat_map full_slot_bytes full.now) }
{
    full.len() as u128 * 13
}

/// The slots of a ring: how many there are, and the full ones.
#[tactic(auto, unfolding(crate::specs::Records::ring_slots))]
fn ring_slots<'a>(
    alloc: Global,
    pieces: &mut Pieces,
    source: Source<'a>,
) -> Result<(u32, Vec<FullSlot>, Source<'a>), ReadError>
    ensures { Gives (λ x. (x.0, x.1.items, pieces.new.items, rest_of x.2)) result
        (ring_slots pieces.old.items (rest_of source.entry)) }
{
    if !begins(b"slots", source) {
        return Ok((0, Vec::new(alloc), source));
    }
    let (slots, after) = slots_line(alloc, Table::Slots, source)?;
    let len = full_len(slots.full.as_slice());
    add_piece(pieces, len, first_word(source).left)?;
    Ok((slots.count, slots.full, after))
}

/// How many bytes a buffer has.
fn buffer_len(_buffer: Buffer) -> u128
    ensures { result ≡ length (buffer_bytes _buffer) }
{
    12
}

/// Adds a buffer.
#[tactic(auto, unfolding(crate::specs::Records::one_buffer))]
fn add_buffer<'a>(
    buffers: &mut Vec<Buffer>,
    pieces: &mut Pieces,
    source: Source<'a>,
) -> Result<Source<'a>, ReadError>
    ensures { Gives (λ s. (buffers.new.items, pieces.new.items, rest_of s)) result
        (one_buffer (buffers.old.items, pieces.old.items, rest_of source.entry)) }
{
    let left = first_word(source).left;
    let number = buffers.len();
    if number >= MOST_BUFFERS {
        return Err(refused(Reason::TooMany, left));
    }
    let (buffer, after) = buffer_of(number, source)?;
    add_piece(pieces, buffer_len(buffer), left)?;
    buffers.push(buffer)?;
    Ok(after)
}

/// The buffers of a ring.
fn buffers_of<'a>(
    alloc: Global,
    pieces: &mut Pieces,
    source: Source<'a>,
) -> Result<(Vec<Buffer>, Source<'a>), ReadError>
    ensures { Gives (λ x. (x.0.items, pieces.new.items, rest_of x.1)) result
        (buffers_of pieces.old.items (rest_of source.entry)) }
{
    let mut buffers = Vec::new(alloc);
    let mut source = source;
    for _ in 0..source.rest.len() {
        if !begins(b"buffer", source) {
            break;
        }
        source = add_buffer(&mut buffers, pieces, source)?;
    }
    Ok((buffers, source))
}

/// A new ring, behind so many.
#[tactic(auto, unfolding(crate::specs::Records::ring_start))]
fn ring_start<'a>(
    alloc: Global,
    number: usize,
    pieces: &mut Pieces,
    source: Source<'a>,
) -> Result<(Record, Source<'a>), ReadError>
    ensures { Gives (λ x. (x.0, pieces.new.items, rest_of x.1)) result
        (ring_start number pieces.old.items (rest_of source.entry)) }
{
    let left = first_word(source).left;
    if number >= MOST_RINGS {
        return Err(refused(Reason::TooMany, left));
    }
    let (queue, after) = ring_line(number, source)?;
    add_piece(pieces, 13, left)?;
    let (slots, full, after) = ring_slots(alloc, pieces, after)?;
    add_piece(pieces, 2, left)?;
    let (buffers, after) = buffers_of(alloc, pieces, after)?;
    let ring = Ring {
        queue,
        slots,
        full: Series::from_vec(full),
        buffers: Series::from_vec(buffers),
    };
    Ok((Record::RingStarts { ring }, after))
}

/// What the first words of the line of a record are.
#[derive(Clone, Copy)]
enum Step {
    Enter,
    Fill,
    Set,
    Seek,
    RingStarts,
    RingEnds,
}

/// Whether a ring begins or ends.
fn ring_step(source: Source<'_>) -> Step
    ensures { result ≡ ring_step (rest_of source.entry) }
{
    let behind = behind_next(behind_first(source));
    if next_word(behind).bytes == b"ends".as_slice() {
        Step::RingEnds
    } else {
        Step::RingStarts
    }
}

fn step_of(source: Source<'_>) -> Option<Step>
    ensures { result ≡ step_of (rest_of source.entry) }
{
    if begins(b"enter", source) {
        Some(Step::Enter)
    } else if begins(b"fill", source) {
        Some(Step::Fill)
    } else if begins(b"set", source) {
        Some(Step::Set)
    } else if begins(b"seek", source) {
        Some(Step::Seek)
    } else if begins(b"ring", source) {
        Some(ring_step(source))
    } else {
        None
    }
}

/// A record, behind so many rings.
fn record_of<'a>(
    alloc: Global,
    step: Step,
    count: usize,
    pieces: &mut Pieces,
    source: Source<'a>,
) -> Result<(Record, Source<'a>), ReadError>
    ensures { Gives (λ x. (x.0, pieces.new.items, rest_of x.1)) result
        (record_of step count pieces.old.items (rest_of source.entry)) }
{
    match step {
        Step::Enter => enter_of(alloc, pieces, source),
        Step::Fill => one_fill(alloc, pieces, source),
        Step::Set => one_set(alloc, pieces, source),
        Step::Seek => one_seek(pieces, source),
        Step::RingStarts => ring_start(alloc, count, pieces, source),
        Step::RingEnds => ring_end(pieces, source),
    }
}

/// How many rings a record begins.
fn ring_count(made: &Record) -> usize
    ensures count { result ≡ rings (made.now ∷ []) }
    ensures few { result ≤ 1 }
{
    match made {
        Record::RingStarts { ring: _ } => 1,
        _ => 0,
    }
}

/// Adds a record, and counts the rings.
#[tactic(auto, unfolding(crate::specs::Records::one_record))]
fn add_record<'a>(
    alloc: Global,
    records: &mut Vec<Record>,
    count: &mut usize,
    pieces: &mut Pieces,
    step: Step,
    source: Source<'a>,
) -> Result<Source<'a>, ReadError>
    requires counted { count.old ≡ rings records.old.items }
    requires few { count.old < 2 ^ 64 - 1 }
    ensures read { Gives (λ s. (records.new.items, pieces.new.items, rest_of s)) result
        (one_record (records.old.items, pieces.old.items, rest_of source.entry) step) }
    ensures counted { OnOk result (count.new ≡ rings records.new.items) }
    ensures few { OnOk result (count.new ≤ count.old + 1) }
{
    let (made, after) = record_of(alloc, step, *count, pieces, source)?;
    *count += ring_count(&made);
    records.push(made)?;
    Ok(after)
}

/// All records.
pub(crate) fn records_of<'a>(
    alloc: Global,
    pieces: &mut Pieces,
    source: Source<'a>,
) -> Result<(Vec<Record>, Source<'a>), ReadError>
    ensures { Gives (λ x. (x.0.items, pieces.new.items, rest_of x.1)) result
        (records_of pieces.old.items (rest_of source.entry)) }
{
    let mut records = Vec::new(alloc);
    let mut count = 0;
    let mut source = source;
    for _ in 0..source.rest.len() {
        let Some(step) = step_of(source) else {
            break;
        };
        source = add_record(alloc, &mut records, &mut count, pieces, step, source)?;
    }
    Ok((records, source))
}
