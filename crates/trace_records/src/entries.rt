//! Submitted entries.
ghost use Rattle.std.specs.Prelude.{◌≡◌, ◌+◌, ◌≤◌, ◌<◌, ◌^◌, true, [], IfOk, length};
ghost use Rattle.trace_format.specs.Grammar.{several};
ghost use Rattle.trace_format.specs.Sides.{is_side_of, vector_len, written_len};
ghost use Rattle.trace_records.specs.Front.{places_of, places_limit};
ghost use Rattle.trace_records.specs.Read.{Gives};
ghost use Rattle.trace_records.specs.Sources.{reading_from, with_rest};
ghost use Rattle.trace_records.specs.Records.{meant, may_be_zeros, lengths_len, is_form};
ghost use Rattle.trace_records.specs.Records.{stored, zeros, passed, refused as given_error};
ghost use Rattle.trace_records.specs.Records.{beside, entry, enter};
ghost use Rattle.trace_records.specs.declared.record.Beside.TheVariants.{Zeros};

use crate::fault::{ReadError, refused};
use crate::front::{Front, PLACES};
use crate::record::{Beside, Entry, Record};
use crate::rings::ring_there_of;
use crate::source::{Source, blob_of, bytes_of, u8_of, u8_to, u16_to, u32_of};
use sqe_codec::{Sqe, unpack};
use std::alloc::Global;
use trace_format::{Given, Kind, Series, fits, vector_total};

/// How many bytes an entry has at least: its 64, its form, and a length or a result.
const SMALLEST_ENTRY: usize = 69;

/// How many bytes a record of entries has at most.
const LONGEST: u64 = 0xffff_ffff;

/// The most bytes that one call moves, `MAX_RW_COUNT` in Linux.
const MOST_MOVED: u64 = 0x7fff_f000;

/// The least error as a word: -4,095, below which Linux has no error.
const LEAST_ERROR: u32 = 0xffff_f001;

/// WRITE and WRITEV.
fn may_be_zeros(sqe: &Sqe) -> bool
    ensures { result ≡ may_be_zeros sqe.now }
{
    sqe.opcode == 23 || sqe.opcode == 2
}

/// How many bytes a vector of lengths has.
fn vector_len(sqe: &Sqe) -> u32
    ensures { result ≡ vector_len sqe.now }
{
    if sqe.len <= 1024 { 8 * sqe.len } else { 0 }
}

/// How many bytes of lengths stand in front of zeros, so many in all.
fn lengths_len(sqe: &Sqe, len: u32) -> u32
    ensures { result ≡ lengths_len sqe.now len }
{
    if sqe.opcode == 2 {
        len.min(vector_len(sqe))
    } else {
        0
    }
}

/// How many bytes a vectored write moves.
fn written_len(sqe: &Sqe, lengths: &[u8]) -> u64
    requires { vector_len sqe.now ≤ length lengths.now }
    ensures { result ≡ written_len sqe.now lengths.now }
{
    match vector_total(sqe, lengths) {
        Some(total) => total.min(MOST_MOVED),
        None => 0,
    }
}

/// Whether lengths and zeros, so many bytes in all, fit the entry. It takes no memory.
fn zeros_fit(sqe: &Sqe, lengths: &[u8], len: u32) -> bool
    requires kind { may_be_zeros sqe.now ≡ true }
    requires whole { length lengths.now ≡ lengths_len sqe.now len }
    ensures { result ≡ is_side_of sqe.now (meant (Zeros lengths.now len)) }
{
    if sqe.opcode == 23 {
        return u64::from(len) == u64::from(sqe.len).min(MOST_MOVED);
    }
    let vector = vector_len(sqe);
    if vector > len {
        return false;
    }
    u64::from(len) == u64::from(vector) + written_len(sqe, lengths)
}

#[tactic(auto, unfolding(crate::specs::Records::stored))]
fn stored_of<'a>(
    alloc: Global,
    begin: u64,
    sqe: &Sqe,
    source: Source<'a>,
) -> Result<(Beside, Source<'a>), ReadError>
    requires { begin < 2 ^ 63 }
    ensures { Gives with_rest result (reading_from source.entry (stored begin sqe.now)) }
{
    let place = source.place;
    let (len, source) = u32_of(source)?;
    if source.place + u64::from(len) > begin + LONGEST {
        return Err(refused(Kind::Limit, place));
    }
    let (bytes, source) = blob_of(alloc, source, len as usize)?;
    if !fits(sqe, bytes.as_slice()) {
        return Err(refused(Kind::Side, place));
    }
    Ok((Beside::Stored { bytes }, source))
}

#[tactic(auto, unfolding(crate::specs::Records::zeros))]
fn zeros_of<'a>(
    alloc: Global,
    sqe: &Sqe,
    source: Source<'a>,
) -> Result<(Beside, Source<'a>), ReadError>
    requires { may_be_zeros sqe.now ≡ true }
    ensures { Gives with_rest result (reading_from source.entry (zeros sqe.now)) }
{
    let place = source.place;
    let (len, source) = u32_of(source)?;
    let (lengths, source) = blob_of(alloc, source, lengths_len(sqe, len) as usize)?;
    if !zeros_fit(sqe, lengths.as_slice(), len) {
        return Err(refused(Kind::Side, place));
    }
    Ok((Beside::Zeros { lengths, len }, source))
}

/// A given result, and whether it is a failure.
#[tactic(auto, unfolding(crate::specs::Records::passed))]
fn passed_of(source: Source<'_>) -> Result<(Beside, Source<'_>), ReadError>
    ensures { Gives with_rest result (reading_from source.entry passed) }
{
    let (word, source) = u32_of(source)?;
    let (fails, source) = u8_to(source, 1)?;
    let given = Given::Passed {
        result: word.cast_signed(),
        fails: fails == 1,
    };
    Ok((Beside::Given { given }, source))
}

/// A given error.
#[tactic(auto, unfolding(crate::specs::Records::refused))]
fn error_of(source: Source<'_>) -> Result<(Beside, Source<'_>), ReadError>
    ensures { Gives with_rest result (reading_from source.entry given_error) }
{
    let place = source.place;
    let (word, source) = u32_of(source)?;
    if word < LEAST_ERROR {
        return Err(refused(Kind::Limit, place));
    }
    let error = (u32::MAX - word + 1) as u16;
    let given = Given::Refused { error };
    Ok((Beside::Given { given }, source))
}

/// What an entry of this form has behind it.
fn beside_of<'a>(
    alloc: Global,
    begin: u64,
    form: u8,
    sqe: &Sqe,
    source: Source<'a>,
) -> Result<(Beside, Source<'a>), ReadError>
    requires begun { begin < 2 ^ 63 }
    requires form { is_form sqe.now form ≡ true }
    ensures { Gives with_rest result (reading_from source.entry (beside begin sqe.now form)) }
{
    match form {
        0 => stored_of(alloc, begin, sqe, source),
        1 => zeros_of(alloc, sqe, source),
        2 => passed_of(source),
        _ => error_of(source),
    }
}

/// Whether an entry may have this form.
fn is_form(sqe: &Sqe, form: u8) -> bool
    ensures { result ≡ is_form sqe.now form }
{
    form == 0 || form == 1 && may_be_zeros(sqe) || form == 2 || form == 3
}

#[tactic(auto, unfolding(crate::specs::Records::entry))]
fn entry_from(
    alloc: Global,
    begin: u64,
    source: Source<'_>,
) -> Result<(Entry, Source<'_>), ReadError>
    requires { begin < 2 ^ 63 }
    ensures { Gives with_rest result (reading_from source.entry (entry begin)) }
{
    let (bytes, source) = bytes_of(source, 64)?;
    let mut array = [0; 64];
    array.copy_from_slice(bytes);
    let sqe = unpack(&array);
    let place = source.place;
    let (form, source) = u8_of(source)?;
    if !is_form(&sqe, form) {
        return Err(refused(Kind::Limit, place));
    }
    let (beside, source) = beside_of(alloc, begin, form, &sqe, source)?;
    Ok((Entry { sqe, beside }, source))
}

/// So many entries.
fn entries_of(
    alloc: Global,
    count: u16,
    begin: u64,
    source: Source<'_>,
) -> Result<(Vec<Entry>, Source<'_>), ReadError>
    requires { begin < 2 ^ 63 }
    ensures read { Gives (λ x. with_rest (x.0.items, x.1)) result
        (reading_from source.entry (several count (λ _. entry begin) [])) }
    ensures len { IfOk result (λ x. length x.0.items ≡ count) }
{
    let most = usize::from(count).min(source.rest.len() / SMALLEST_ENTRY);
    let mut entries = Vec::with_capacity(alloc, most)?;
    let mut source = source;
    for _ in 0..count {
        let (entry, after) = entry_from(alloc, begin, source)?;
        entries.push(entry)?;
        source = after;
    }
    Ok((entries, source))
}

/// Entries of one ring, in a record that began there.
#[tactic(auto, unfolding(crate::specs::Records::enter))]
pub(crate) fn enter_of<'a>(
    alloc: Global,
    front: &Front,
    begin: u64,
    source: Source<'a>,
) -> Result<(Record, Source<'a>), ReadError>
    requires { begin < 2 ^ 63 }
    ensures read { Gives with_rest result (reading_from source.entry (enter front.now begin)) }
    ensures within { IfOk result (λ x. front.now.places + places_of x.0 ≤ places_limit) }
{
    let (ring, source) = ring_there_of(front, source)?;
    let place = source.place;
    let (count, source) = u16_to(source, 32_768)?;
    if front.places() + u32::from(count) > PLACES {
        return Err(refused(Kind::Limit, place));
    }
    let (entries, source) = entries_of(alloc, count, begin, source)?;
    let entries = Series::from_vec(entries);
    Ok((Record::Enter { ring, entries }, source))
}
