//! Entries.
ghost use Rattle.std.specs.Prelude.{◌≡◌, option_map};
ghost use Rattle.trace_records.specs.Records.{lengths_len};
ghost use Rattle.text_words.specs.Read.{Gives, rest_of, word_of};
ghost use Rattle.text_trace.specs.Entry.{side_of};
ghost use Rattle.text_records.specs.Entry.{add_given, add_other, add_zeros, all_words, beside_of};
ghost use Rattle.text_records.specs.Entry.{bytes_of, entry_of, error_at, given_at, manner_of};
ghost use Rattle.text_records.specs.Entry.{one_word, sqe_of, told_of};

use sqe_codec::Sqe;
use std::alloc::Global;
use text_trace::{Draft, Field, add_next, empty, fields_of, mark_of, side_of};
use text_words::{
    ReadError, Reason, Source, Word, behind_next, is_at_end, is_string, line_end, next_word,
    refused, u32_at, value_at,
};
use trace_format::{Blob, Given, Kind};
use trace_records::{Beside, Entry};

/// What the words of an entry have said so far.
#[derive(Drop)]
pub(crate) struct Told {
    /// What an entry of any version has.
    pub draft: Draft,
    /// How many bytes beside it are zeros, but for its lengths, where that is told.
    pub zeros: Option<u32>,
    /// Whether there are strings.
    pub has_strings: bool,
    /// What is given of it, where that is told.
    pub outcome: Option<Given>,
}

/// How an entry is given: with a result that is no failure, with one that is, or with an error.
#[derive(Clone, Copy)]
pub(crate) enum Manner {
    Passes,
    Fails,
    IsRefused,
}

/// The least error as a word, -4,095.
const LEAST_ERROR: u32 = 0xffff_f001;

/// Reads how many bytes are zeros.
#[tactic(auto, unfolding(crate::specs::Entry::add_zeros))]
fn add_zeros(told: &mut Told, word: Word<'_>, value: Word<'_>) -> Result<(), ReadError>
    ensures { Gives (λ _. told_of told.new) result
        (add_zeros (told_of told.old) (word_of word.entry) (word_of value.entry)) }
{
    if told.zeros.is_some() {
        return Err(refused(Reason::FieldTwice, word.left));
    }
    if told.has_strings {
        return Err(refused(Reason::Both, word.left));
    }
    told.zeros = Some(u32_at(value)?);
    Ok(())
}

/// How a word says that an entry is given, with what stands behind its key.
fn manner_of(word: Word<'_>) -> Option<(Manner, Word<'_>)>
    ensures { option_map (λ m. (m.0, word_of m.1)) result ≡ manner_of (word_of word.entry) }
{
    if let Some(value) = value_at(word, b"given") {
        return Some((Manner::Passes, value));
    }
    if let Some(value) = value_at(word, b"failed") {
        return Some((Manner::Fails, value));
    }
    match value_at(word, b"refused") {
        Some(value) => Some((Manner::IsRefused, value)),
        None => None,
    }
}

/// An error.
#[tactic(auto, unfolding(crate::specs::Entry::error_at))]
fn error_at(value: Word<'_>) -> Result<Given, ReadError>
    ensures { Gives (λ g. g) result (error_at (word_of value.entry)) }
{
    let word = u32_at(value)?;
    if word < LEAST_ERROR {
        return Err(refused(Reason::Error, value.left));
    }
    let error = (u32::MAX - word + 1) as u16;
    Ok(Given::Refused { error })
}

/// A result, or an error.
#[tactic(auto, unfolding(crate::specs::Entry::given_at))]
fn given_at(manner: Manner, value: Word<'_>) -> Result<Given, ReadError>
    ensures { Gives (λ g. g) result (given_at manner (word_of value.entry)) }
{
    match manner {
        Manner::Passes => Ok(Given::Passed {
            result: u32_at(value)?.cast_signed(),
            fails: false,
        }),
        Manner::Fails => Ok(Given::Passed {
            result: u32_at(value)?.cast_signed(),
            fails: true,
        }),
        Manner::IsRefused => error_at(value),
    }
}

/// Reads what is given.
#[tactic(auto, unfolding(crate::specs::Entry::add_given))]
fn add_given(
    told: &mut Told,
    word: Word<'_>,
    manner: Manner,
    value: Word<'_>,
) -> Result<(), ReadError>
    ensures { Gives (λ _. told_of told.new) result
        (add_given (told_of told.old) (word_of word.entry) manner (word_of value.entry)) }
{
    if told.outcome.is_some() {
        return Err(refused(Reason::FieldTwice, word.left));
    }
    told.outcome = Some(given_at(manner, value)?);
    Ok(())
}

/// Reads the next word, which an entry of any version has.
#[tactic(auto, unfolding(crate::specs::Entry::add_other))]
fn add_other<'a>(
    alloc: Global,
    told: &mut Told,
    source: Source<'a>,
) -> Result<Source<'a>, ReadError>
    ensures { Gives (λ s. (told_of told.new, rest_of s)) result
        (add_other (told_of told.old) (rest_of source.entry)) }
{
    if is_string(source) && told.zeros.is_some() {
        return Err(refused(Reason::Both, next_word(source).left));
    }
    told.has_strings = told.has_strings || is_string(source);
    add_next(alloc, &mut told.draft, source)
}

/// Reads the next word.
#[tactic(auto, unfolding(crate::specs::Entry::one_word))]
fn one_word<'a>(alloc: Global, told: &mut Told, source: Source<'a>) -> Result<Source<'a>, ReadError>
    ensures { Gives (λ s. (told_of told.new, rest_of s)) result
        (one_word (told_of told.old) (rest_of source.entry)) }
{
    let word = next_word(source);
    if let Some(value) = value_at(word, b"zeros") {
        add_zeros(told, word, value)?;
        return Ok(behind_next(source));
    }
    let Some((manner, value)) = manner_of(word) else {
        return add_other(alloc, told, source);
    };
    add_given(told, word, manner, value)?;
    Ok(behind_next(source))
}

/// Reads all words up to the end of the line.
fn all_words<'a>(
    alloc: Global,
    told: &mut Told,
    source: Source<'a>,
) -> Result<Source<'a>, ReadError>
    ensures { Gives (λ s. (told_of told.new, rest_of s)) result
        (all_words (told_of told.old) (rest_of source.entry)) }
{
    let mut source = source;
    for _ in 0..source.rest.len() {
        if is_at_end(source) {
            break;
        }
        source = one_word(alloc, told, source)?;
    }
    Ok(source)
}

/// The fields of an entry.
#[tactic(auto, unfolding(crate::specs::Entry::sqe_of))]
fn sqe_of(told: &Told) -> Sqe
    ensures { result ≡ sqe_of (told_of told.now) }
{
    let draft = &told.draft;
    match told.zeros {
        Some(len) if draft.sqe.opcode == 23 && draft.given & mark_of(Field::Len) == 0 => {
            Sqe { len, ..draft.sqe }
        }
        _ => fields_of(draft),
    }
}

/// How many bytes of lengths an entry has in front of zeros, so many bytes in all.
fn lengths_len(sqe: &Sqe, len: u32) -> u32
    ensures { result ≡ lengths_len sqe.now len }
{
    match sqe.opcode {
        2 if sqe.len <= 1024 => len.min(8 * sqe.len),
        _ => 0,
    }
}

/// What stands beside an entry with strings or zeros, of these bytes.
#[tactic(auto, unfolding(crate::specs::Entry::bytes_of))]
fn bytes_of(told: &Told, left: usize, bytes: Blob) -> Result<Beside, ReadError>
    requires { bytes ≡ side_of (told_of told.now).draft }
    ensures { Gives (λ b. b) result (bytes_of (told_of told.now) left) }
{
    let Some(len) = told.zeros else {
        return Ok(Beside::Stored { bytes });
    };
    if bytes.as_slice().len() as u64 != u64::from(lengths_len(&sqe_of(told), len)) {
        return Err(refused(Reason::Trace(Kind::Side), left));
    }
    Ok(Beside::Zeros {
        lengths: bytes,
        len,
    })
}

/// What stands beside an entry, whose line begins where so many bytes of the text are left.
#[tactic(auto, unfolding(crate::specs::Entry::beside_of))]
fn beside_of(alloc: Global, told: &Told, left: usize) -> Result<Beside, ReadError>
    ensures { Gives (λ b. b) result (beside_of (told_of told.now) left) }
{
    let bytes = Blob::from_vec(alloc, side_of(alloc, &told.draft)?)?;
    let Some(given) = told.outcome else {
        return bytes_of(told, left, bytes);
    };
    if told.zeros.is_some() || !bytes.as_slice().is_empty() {
        return Err(refused(Reason::Trace(Kind::Side), left));
    }
    Ok(Beside::Given { given })
}

/// An entry of an operation, whose line begins where so many bytes of the text are left.
#[tactic(auto, unfolding(crate::specs::Entry::entry_of))]
pub(crate) fn entry_of<'a>(
    alloc: Global,
    left: usize,
    opcode: u8,
    source: Source<'a>,
) -> Result<(Entry, Source<'a>), ReadError>
    ensures { Gives (λ x. (x.0, rest_of x.1)) result
        (entry_of left opcode (rest_of source.entry)) }
{
    let mut told = Told {
        draft: empty(alloc, opcode),
        zeros: None,
        has_strings: false,
        outcome: None,
    };
    let source = all_words(alloc, &mut told, source)?;
    let source = line_end(source)?;
    let beside = beside_of(alloc, &told, left)?;
    let sqe = sqe_of(&told);
    Ok((Entry { sqe, beside }, source))
}
