//! The lines of records.
ghost use Rattle.std.specs.Prelude.{◌≡◌, ◌+◌, ◌≤◌, ◌++◌, OnOk, [], ◌∷◌, length};
ghost use Rattle.trace_records.specs.Front.{places_limit, places_of};
ghost use Rattle.trace_records.specs.Tallies.{places, rings};
ghost use Rattle.trace_text.specs.Shown.{numbered};
ghost use Rattle.records_text.specs.Shown.{end_line, filling_words, record_lines, records_from};
ghost use Rattle.records_text.specs.Shown.{given_word, given_words, submitted_line, submitted_words};
ghost use Rattle.records_text.specs.Shown.{zeros_len, zeros_word, zeros_words};

use crate::rings::push_ring;
use crate::sets::{push_seek, push_set};
use sqe_codec::Sqe;
use std::alloc::AllocError;
use text_forms::{push_bytes, push_decimal, push_signed};
use trace_format::Given;
use trace_records::{Beside, Entry, Filling, Record};
use trace_text::{
    Look, default_len, push_data, push_enter, push_fill, push_front, push_head, push_key,
    push_later, push_place, push_words,
};

/// How many zeros stand for bytes.
fn push_zeros(text: &mut Vec<u8>, len: u32) -> Result<(), AllocError>
    ensures { OnOk result (text.new.items ≡ text.old.items ++ zeros_word len) }
{
    push_key(text, b"zeros")?;
    push_decimal(text, u64::from(len))
}

/// The length that an entry has where none is written, and where it writes zeros.
fn zeros_len(sqe: &Sqe, lengths: &[u8], len: u32) -> usize
    ensures { result ≡ zeros_len sqe.now lengths.now len }
{
    if sqe.opcode == 23 {
        len as usize
    } else {
        default_len(sqe, lengths)
    }
}

/// The words of an entry that writes zeros.
fn push_zeros_words(
    text: &mut Vec<u8>,
    sqe: &Sqe,
    lengths: &[u8],
    len: u32,
) -> Result<(), AllocError>
    ensures { OnOk result (text.new.items ≡ text.old.items
        ++ zeros_words sqe.now lengths.now len) }
{
    push_front(text, sqe, lengths, zeros_len(sqe, lengths, len))?;
    push_zeros(text, len)?;
    push_bytes(text, b"\n")
}

/// What is given of an entry.
fn push_given(text: &mut Vec<u8>, given: Given) -> Result<(), AllocError>
    ensures { OnOk result (text.new.items ≡ text.old.items ++ given_word given) }
{
    match given {
        Given::Passed { result, fails } => {
            push_key(text, if fails { b"failed" } else { b"given" })?;
            push_signed(text, result)
        }
        Given::Refused { error } => {
            push_key(text, b"refused")?;
            push_bytes(text, b"-")?;
            push_decimal(text, u64::from(error))
        }
    }
}

/// The words of an entry that is given.
fn push_given_words(text: &mut Vec<u8>, sqe: &Sqe, given: Given) -> Result<(), AllocError>
    ensures { OnOk result (text.new.items ≡ text.old.items ++ given_words sqe.now given) }
{
    push_head(text, sqe)?;
    push_later(text, sqe, 0)?;
    push_given(text, given)?;
    push_bytes(text, b"\n")
}

/// The words of an entry.
#[tactic(auto, unfolding(crate::specs::Shown::submitted_words))]
pub(crate) fn push_submitted(
    text: &mut Vec<u8>,
    look: Look,
    entry: &Entry,
) -> Result<(), AllocError>
    ensures { OnOk result (text.new.items ≡ text.old.items ++ submitted_words look entry.now) }
{
    match &entry.beside {
        Beside::Stored { bytes } => push_words(text, look, &entry.sqe, bytes.as_slice()),
        Beside::Zeros { lengths, len } => {
            push_zeros_words(text, &entry.sqe, lengths.as_slice(), *len)
        }
        Beside::Given { given } => push_given_words(text, &entry.sqe, *given),
    }
}

/// The line of the entry at a place.
fn push_entry(text: &mut Vec<u8>, look: Look, place: usize, entry: &Entry) -> Result<(), AllocError>
    ensures { OnOk result (text.new.items
        ≡ text.old.items ++ submitted_line look place entry.now) }
{
    push_place(text, look, b"  ", place as u64)?;
    push_submitted(text, look, entry)
}

/// Entries, from a place on.
fn push_entries(
    text: &mut Vec<u8>,
    look: Look,
    place: usize,
    entries: &[Entry],
) -> Result<(), AllocError>
    requires { place + length entries.now ≤ places_limit }
    ensures { OnOk result (text.new.items
        ≡ text.old.items ++ numbered (submitted_line look) place entries.now) }
{
    for number in 0..entries.len() {
        push_entry(text, look, place + number, &entries[number])?;
    }
    Ok(())
}

/// What is put into a buffer.
fn push_filling(text: &mut Vec<u8>, look: Look, filling: &Filling) -> Result<(), AllocError>
    ensures { OnOk result (text.new.items ≡ text.old.items ++ filling_words look filling.now) }
{
    match filling {
        Filling::Stored { bytes } => push_data(text, look, b" \\\n  ", bytes.as_slice()),
        Filling::Zeros { len } => push_zeros(text, *len),
    }
}

/// The end of a ring.
fn push_end(text: &mut Vec<u8>, ring: u32) -> Result<(), AllocError>
    ensures { OnOk result (text.new.items ≡ text.old.items ++ end_line ring) }
{
    push_bytes(text, b"ring ")?;
    push_decimal(text, u64::from(ring))?;
    push_bytes(text, b" ends\n")
}

/// A record, from a place on, behind so many rings.
fn push_record(
    text: &mut Vec<u8>,
    look: Look,
    place: usize,
    rings: usize,
    made: &Record,
) -> Result<(), AllocError>
    requires { place + places_of made.now ≤ places_limit }
    ensures { OnOk result (text.new.items
        ≡ text.old.items ++ record_lines look place rings made.now) }
{
    match made {
        Record::Enter { ring, entries } => {
            push_enter(text, *ring)?;
            push_entries(text, look, place, entries.as_slice())
        }
        Record::Fill {
            ring,
            buffer,
            offset,
            filling,
        } => {
            push_place(text, look, b"", place as u64)?;
            push_fill(text, *ring, *buffer, *offset)?;
            push_filling(text, look, filling)?;
            push_bytes(text, b"\n")
        }
        Record::Set { file, content } => {
            push_place(text, look, b"", place as u64)?;
            push_set(text, *file, content)
        }
        Record::Seek { file, position } => {
            push_place(text, look, b"", place as u64)?;
            push_seek(text, *file, *position)
        }
        Record::RingStarts { ring } => {
            push_place(text, look, b"", place as u64)?;
            push_ring(text, rings, ring)
        }
        Record::RingEnds { ring } => push_end(text, *ring),
    }
}

/// How many places a record has.
fn places_of(made: &Record) -> usize
    ensures { result ≡ places_of made.now }
{
    match made {
        Record::Enter { ring: _, entries } => entries.as_slice().len(),
        Record::RingEnds { ring: _ } => 0,
        _ => 1,
    }
}

/// How many rings it starts.
fn rings_of(made: &Record) -> usize
    ensures count { result ≡ rings (made.now ∷ []) }
    ensures one { result ≤ 1 }
{
    matches!(made, Record::RingStarts { .. }) as usize
}

/// All records.
pub(crate) fn push_records(
    text: &mut Vec<u8>,
    look: Look,
    records: &[Record],
) -> Result<(), AllocError>
    requires { places records.now ≤ places_limit }
    ensures { OnOk result (text.new.items ≡ text.old.items ++ records_from look 0 0 records.now) }
{
    let mut place = 0;
    let mut rings = 0;
    for made in records {
        push_record(text, look, place, rings, made)?;
        place += places_of(made);
        rings += rings_of(made);
    }
    Ok(())
}
