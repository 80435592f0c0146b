//! Entries.
ghost use Rattle.std.specs.Prelude.{◌≡◌, ◌≤◌, ◌++◌, ◌==◌, [], IfOk, OnOk, option_map, unwrap_or};
ghost use Rattle.std.specs.List.{slice_split};
ghost use Rattle.text_words.specs.Numbers.{greatest};
ghost use Rattle.text_words.specs.Read.{Gives, rest_of, taken, word_of};
ghost use Rattle.text_trace.specs.Entry.{add_all, add_field, add_flag, add_keyed, add_lengths};
ghost use Rattle.text_trace.specs.Entry.{add_next, add_number, add_word, add_words, default_len};
ghost use Rattle.text_trace.specs.Entry.{draft_of, empty, entry_of, fields_of, first_path, has_brackets};
ghost use Rattle.text_trace.specs.Entry.{len_bytes, lengths_at, mark_of, more_lengths};
ghost use Rattle.text_trace.specs.Entry.{side_of, two_paths, with_field};
ghost use Rattle.text_trace.specs.Fields.{bits_of};

use crate::fields::{Field, bits_of, entry_flag_of, field_of, style_of};
use sqe_codec::Sqe;
use std::alloc::{AllocError, Global};
use text_words::{
    ReadError, Reason, Source, Word, add_string, behind, behind_next, is_at_end, is_string,
    letters_of, line_end, next_word, number_at, part_at, refused, u64_at, value_at,
};

/// The most bytes that a path may have whose length stands in two bytes.
const LONGEST_COUNTED: usize = 65_535;

/// What the words of an entry have said so far.
#[derive(Drop)]
pub struct Draft {
    pub sqe: Sqe,
    /// The fields that were told, a bit each.
    pub given: u16,
    pub path: Option<Vec<u8>>,
    pub old_path: Option<Vec<u8>>,
    pub new_path: Option<Vec<u8>>,
    /// The lengths of a vector, 8 bytes each.
    pub lengths: Option<Vec<u8>>,
    pub data: Vec<u8>,
}

/// An entry of which nothing but the operation has been told.
pub fn empty(alloc: Global, opcode: u8) -> Draft
    ensures { draft_of result ≡ empty opcode }
{
    Draft {
        sqe: Sqe {
            opcode,
            flags: 0,
            ioprio: 0,
            fd: 0,
            off: 0,
            addr: 0,
            len: 0,
            op_flags: 0,
            user_data: 0,
            buf_index: 0,
            personality: 0,
            file_index: 0,
            addr3: 0,
            last: 0,
        },
        given: 0,
        path: None,
        old_path: None,
        new_path: None,
        lengths: None,
        data: Vec::new(alloc),
    }
}

/// The bit of a field among those that were told.
pub fn mark_of(field: Field) -> u16
    ensures { result ≡ mark_of field }
{
    match field {
        Field::Fd => 1,
        Field::Off => 2,
        Field::Addr => 4,
        Field::Len => 8,
        Field::OpFlags => 16,
        Field::BufIndex => 32,
        Field::FileIndex => 64,
        Field::Ioprio => 128,
        Field::Personality => 256,
        Field::Addr3 => 512,
        Field::Pad => 1024,
        Field::UserData => 2048,
    }
}

/// Fields with one that has a number.
fn with_field(sqe: Sqe, field: Field, number: u64) -> Sqe
    requires { number ≤ greatest (bits_of field) }
    ensures { result ≡ with_field sqe field number }
{
    match field {
        Field::Fd => Sqe {
            fd: (number as u32).cast_signed(),
            ..sqe
        },
        Field::Off => Sqe { off: number, ..sqe },
        Field::Addr => Sqe {
            addr: number,
            ..sqe
        },
        Field::Len => Sqe {
            len: number as u32,
            ..sqe
        },
        Field::OpFlags => Sqe {
            op_flags: number as u32,
            ..sqe
        },
        Field::BufIndex => Sqe {
            buf_index: number as u16,
            ..sqe
        },
        Field::FileIndex => Sqe {
            file_index: number as u32,
            ..sqe
        },
        Field::Ioprio => Sqe {
            ioprio: number as u16,
            ..sqe
        },
        Field::Personality => Sqe {
            personality: number as u16,
            ..sqe
        },
        Field::Addr3 => Sqe {
            addr3: number,
            ..sqe
        },
        Field::Pad => Sqe {
            last: number,
            ..sqe
        },
        Field::UserData => Sqe {
            user_data: number,
            ..sqe
        },
    }
}

/// Reads the value of a field.
#[tactic(auto, unfolding(crate::specs::Entry::add_field))]
fn add_field(
    draft: &mut Draft,
    field: Field,
    word: Word<'_>,
    value: Word<'_>,
) -> Result<(), ReadError>
    ensures { Gives (λ _. draft_of draft.new) result
        (add_field (draft_of draft.old) field (word_of word.entry) (word_of value.entry)) }
{
    let mark = mark_of(field);
    if draft.given & mark != 0 {
        return Err(refused(Reason::FieldTwice, word.left));
    }
    let number = number_at(style_of(draft.sqe.opcode, field), bits_of(field), value)?;
    draft.given = draft.given | mark;
    draft.sqe = with_field(draft.sqe, field, number);
    Ok(())
}

/// A place where a path is put, once. Two bytes count the first one of two.
#[tactic(auto, unfolding(crate::specs::Entry::first_path))]
fn add_path(
    alloc: Global,
    is_counted: bool,
    place: &mut Option<Vec<u8>>,
    word: Word<'_>,
    value: Word<'_>,
) -> Result<(), ReadError>
    ensures { Gives (λ _. option_map (λ v. v.items) place.new) result
        (first_path is_counted (option_map (λ v. v.items) place.old) (word_of word.entry)
        (word_of value.entry)) }
{
    if place.is_some() {
        return Err(refused(Reason::FieldTwice, word.left));
    }
    let path = letters_of(alloc, value)?;
    if is_counted && path.len() > LONGEST_COUNTED {
        return Err(refused(Reason::PathLong, value.left));
    }
    *place = Some(path);
    Ok(())
}

/// One length more, and how many bytes of the text are left behind its part.
#[tactic(auto, unfolding(crate::specs::Entry::more_lengths))]
fn push_length(lengths: &mut Vec<u8>, left: usize, part: &[u8]) -> Result<usize, ReadError>
    ensures { Gives (λ after. (lengths.new.items, after)) result
        (more_lengths (lengths.old.items, left) part.now) }
{
    let number = u64_at(Word { bytes: part, left })?;
    lengths.extend_from_slice(&number.to_le_bytes())?;
    Ok(left.saturating_sub(part.len().saturating_add(1)))
}

/// Lengths with commas between them.
fn push_lengths(lengths: &mut Vec<u8>, left: usize, inside: &[u8]) -> Result<usize, ReadError>
    ensures { Gives (λ after. (lengths.new.items, after)) result
        (taken more_lengths (lengths.old.items, left) (slice_split (λ b. b == 44) inside.now)) }
{
    let mut left = left;
    let mut rest = inside;
    for _ in 0..inside.len() {
        let part = part_at(b',', rest);
        if part.len() == rest.len() {
            break;
        }
        left = push_length(lengths, left, part)?;
        rest = behind(rest, part.len() + 1);
    }
    push_length(lengths, left, rest)
}

/// Whether brackets stand round a word.
fn has_brackets(word: &[u8]) -> bool
    ensures { result ≡ has_brackets word.now }
{
    word.len() >= 2 && word.starts_with(b"[") && word[word.len() - 1] == b']'
}

/// The lengths between brackets, 8 bytes each.
#[tactic(auto, unfolding(crate::specs::Entry::lengths_at))]
fn lengths_at(alloc: Global, word: Word<'_>) -> Result<Vec<u8>, ReadError>
    ensures { Gives (λ lengths. lengths.items) result (lengths_at (word_of word.entry)) }
{
    if !has_brackets(word.bytes) {
        return Err(refused(Reason::Lengths, word.left));
    }
    let inside = behind(word.bytes, 1);
    let inside = &inside[..inside.len() - 1];
    let mut lengths = Vec::new(alloc);
    push_lengths(&mut lengths, word.left.saturating_sub(1), inside)?;
    Ok(lengths)
}

/// Reads the lengths of a vector.
#[tactic(auto, unfolding(crate::specs::Entry::add_lengths))]
fn add_lengths(alloc: Global, draft: &mut Draft, word: Word<'_>) -> Result<(), ReadError>
    ensures { Gives (λ _. draft_of draft.new) result
        (add_lengths (draft_of draft.old) (word_of word.entry)) }
{
    if draft.lengths.is_some() {
        return Err(refused(Reason::FieldTwice, word.left));
    }
    draft.lengths = Some(lengths_at(alloc, word)?);
    Ok(())
}

/// Reads a flag of the entry.
#[tactic(auto, unfolding(crate::specs::Entry::add_flag))]
fn add_flag(draft: &mut Draft, flag: u8, word: Word<'_>) -> Result<(), ReadError>
    ensures { Gives (λ _. draft_of draft.new) result
        (add_flag (draft_of draft.old) flag (word_of word.entry)) }
{
    if draft.sqe.flags & flag != 0 {
        return Err(refused(Reason::FlagTwice, word.left));
    }
    draft.sqe.flags = draft.sqe.flags | flag;
    Ok(())
}

/// Reads a word that is the key of a field and its number.
#[tactic(auto, unfolding(crate::specs::Entry::add_number))]
fn add_number(draft: &mut Draft, word: Word<'_>) -> Result<(), ReadError>
    ensures { Gives (λ _. draft_of draft.new) result
        (add_number (draft_of draft.old) (word_of word.entry)) }
{
    let key = part_at(b'=', word.bytes);
    let Some(field) = field_of(draft.sqe.opcode, key) else {
        return Err(refused(Reason::Field, word.left));
    };
    let Some(value) = value_at(word, key) else {
        return Err(refused(Reason::Field, word.left));
    };
    add_field(draft, field, word, value)
}

/// Reads a word that is a key and a value.
#[tactic(auto, unfolding(crate::specs::Entry::add_keyed))]
fn add_keyed(alloc: Global, draft: &mut Draft, word: Word<'_>) -> Result<(), ReadError>
    ensures { Gives (λ _. draft_of draft.new) result
        (add_keyed (draft_of draft.old) (word_of word.entry)) }
{
    if let Some(value) = value_at(word, b"path") {
        return add_path(alloc, false, &mut draft.path, word, value);
    }
    if let Some(value) = value_at(word, b"old") {
        return add_path(alloc, true, &mut draft.old_path, word, value);
    }
    if let Some(value) = value_at(word, b"new") {
        return add_path(alloc, false, &mut draft.new_path, word, value);
    }
    add_number(draft, word)
}

/// Reads a word that is no string.
#[tactic(auto, unfolding(crate::specs::Entry::add_word))]
fn add_word(alloc: Global, draft: &mut Draft, word: Word<'_>) -> Result<(), ReadError>
    ensures { Gives (λ _. draft_of draft.new) result
        (add_word (draft_of draft.old) (word_of word.entry)) }
{
    if let Some(flag) = entry_flag_of(word.bytes) {
        return add_flag(draft, flag, word);
    }
    if word.bytes.starts_with(b"[") {
        return add_lengths(alloc, draft, word);
    }
    if word.bytes == b"...".as_slice() {
        return Err(refused(Reason::Cut, word.left));
    }
    add_keyed(alloc, draft, word)
}

/// Reads the next word.
#[tactic(auto, unfolding(crate::specs::Entry::add_next))]
pub fn add_next<'a>(
    alloc: Global,
    draft: &mut Draft,
    source: Source<'a>,
) -> Result<Source<'a>, ReadError>
    ensures { Gives (λ s. (draft_of draft.new, rest_of s)) result
        (add_next (draft_of draft.old) (rest_of source.entry)) }
{
    if is_string(source) {
        return add_string(alloc, &mut draft.data, source);
    }
    add_word(alloc, draft, next_word(source))?;
    Ok(behind_next(source))
}

/// Reads all words up to the end of the line.
fn add_all<'a>(
    alloc: Global,
    draft: &mut Draft,
    source: Source<'a>,
) -> Result<Source<'a>, ReadError>
    ensures { Gives (λ s. (draft_of draft.new, rest_of s)) result
        (add_all (draft_of draft.old) (rest_of source.entry)) }
{
    let mut source = source;
    for _ in 0..source.rest.len() {
        if is_at_end(source) {
            break;
        }
        source = add_next(alloc, draft, source)?;
    }
    Ok(source)
}

/// Reads all words of the line.
#[tactic(auto, unfolding(crate::specs::Entry::add_words))]
fn add_words<'a>(
    alloc: Global,
    draft: &mut Draft,
    source: Source<'a>,
) -> Result<Source<'a>, ReadError>
    ensures { Gives (λ s. (draft_of draft.new, rest_of s)) result
        (add_words (draft_of draft.old) (rest_of source.entry)) }
{
    let source = add_all(alloc, draft, source)?;
    line_end(source)
}

/// Puts bytes behind others, where there are some.
fn push_some(side: &mut Vec<u8>, some: &Option<Vec<u8>>) -> Result<(), AllocError>
    ensures { OnOk result (side.new.items
        ≡ side.old.items ++ unwrap_or (option_map (λ v. v.items) some.now) []) }
{
    match some {
        None => Ok(()),
        Some(bytes) => side.extend_from_slice(bytes.as_slice()),
    }
}

/// How many bytes there are, as two bytes.
fn push_len(side: &mut Vec<u8>, some: &Option<Vec<u8>>) -> Result<(), AllocError>
    ensures { OnOk result (side.new.items
        ≡ side.old.items ++ len_bytes (unwrap_or (option_map (λ v. v.items) some.now) [])) }
{
    let len = match some {
        None => 0,
        Some(bytes) => bytes.len().min(65_535),
    };
    side.extend_from_slice(&(len as u16).to_le_bytes())
}

/// Two paths, the length of the first one in front.
fn push_paths(side: &mut Vec<u8>, draft: &Draft) -> Result<(), AllocError>
    ensures { OnOk result (side.new.items
        ≡ side.old.items ++ two_paths (draft_of draft.now).old_path (draft_of draft.now).new_path) }
{
    if draft.old_path.is_none() && draft.new_path.is_none() {
        return Ok(());
    }
    push_len(side, &draft.old_path)?;
    push_some(side, &draft.old_path)?;
    push_some(side, &draft.new_path)
}

/// The bytes beside an entry: lengths, paths, and what it writes.
#[tactic(auto, unfolding(crate::specs::Entry::side_of))]
pub fn side_of(alloc: Global, draft: &Draft) -> Result<Vec<u8>, AllocError>
    ensures { IfOk result (λ side. side.items ≡ side_of (draft_of draft.now)) }
{
    let mut side = Vec::new(alloc);
    push_some(&mut side, &draft.lengths)?;
    push_some(&mut side, &draft.path)?;
    push_paths(&mut side, draft)?;
    side.extend_from_slice(draft.data.as_slice())?;
    Ok(side)
}

/// The length that an entry has where none is told.
fn default_len(draft: &Draft) -> u32
    ensures { result ≡ default_len (draft_of draft.now) }
{
    match draft.sqe.opcode {
        23 => draft.data.len().min(4_294_967_295) as u32,
        1 | 2 => match &draft.lengths {
            None => 0,
            Some(lengths) => (lengths.len() / 8).min(4_294_967_295) as u32,
        },
        _ => 0,
    }
}

/// The fields of an entry.
#[tactic(auto, unfolding(crate::specs::Entry::fields_of))]
pub fn fields_of(draft: &Draft) -> Sqe
    ensures { result ≡ fields_of (draft_of draft.now) }
{
    if draft.given & mark_of(Field::Len) == 0 {
        return Sqe {
            len: default_len(draft),
            ..draft.sqe
        };
    }
    draft.sqe
}

/// The fields of an entry, and the bytes beside it.
#[tactic(auto, unfolding(crate::specs::Entry::entry_of))]
pub(crate) fn entry_of<'a>(
    alloc: Global,
    opcode: u8,
    source: Source<'a>,
) -> Result<(Sqe, Vec<u8>, Source<'a>), ReadError>
    ensures { Gives (λ x. (x.0, x.1.items, rest_of x.2)) result
        (entry_of opcode (rest_of source.entry)) }
{
    let mut draft = empty(alloc, opcode);
    let source = add_words(alloc, &mut draft, source)?;
    let side = side_of(alloc, &draft)?;
    Ok((fields_of(&draft), side, source))
}
