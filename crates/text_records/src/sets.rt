//! The lines of sets and seeks.
ghost use Rattle.std.specs.Prelude.{◌≡◌, ◌<◌, ◌^◌, IfOk, length};
ghost use Rattle.trace_records.specs.Spelling.{content_bytes, file_bytes, record_bytes};
ghost use Rattle.text_words.specs.Read.{Gives, rest_of, word_of};
ghost use Rattle.text_records.specs.Sets.{content_of, file_at, file_of, held_of, next_file};
ghost use Rattle.text_records.specs.Sets.{open_flags, opened_of, seek_of, set_of};

use crate::slots::holder_at;
use std::alloc::Global;
use text_trace::keyed_long;
use text_words::{
    ReadError, Reason, Source, Style, Word, behind_first, behind_next, line_end, next_word,
    number_at, path_at, refused, u64_at, value_at,
};
use trace_format::Blob;
use trace_records::{Content, FileAt, Holder, Record};
use trace_text::FlagSet;

/// A slot or a descriptor, as where a slot of a ring gets its content from. A description is
/// neither.
fn file_of(holder: Holder) -> Option<FileAt>
    ensures { result ≡ file_of holder }
{
    match holder {
        Holder::Slot { ring, number } => Some(FileAt::Slot { ring, number }),
        Holder::Descriptor { number } => Some(FileAt::Descriptor { number }),
        Holder::Description { number: _ } => None,
    }
}

#[tactic(auto, unfolding(crate::specs::Sets::file_at))]
fn file_at(word: Word<'_>) -> Result<FileAt, ReadError>
    ensures { Gives (λ file. file) result (file_at (word_of word.entry)) }
{
    let holder = holder_at(word)?;
    match file_of(holder) {
        Some(file) => Ok(file),
        None => Err(refused(Reason::File, word.left)),
    }
}

/// The next word, which is a slot or a descriptor.
#[tactic(auto, unfolding(crate::specs::Sets::next_file))]
fn next_file(source: Source<'_>) -> Result<(FileAt, Source<'_>), ReadError>
    ensures { Gives (λ x. (x.0, rest_of x.1)) result (next_file (rest_of source.entry)) }
{
    let file = file_at(next_word(source))?;
    Ok((file, behind_next(source)))
}

/// Flags of openat, where the next word has them.
#[tactic(auto, unfolding(crate::specs::Sets::open_flags))]
fn open_flags(source: Source<'_>) -> Result<(Option<u32>, Source<'_>), ReadError>
    ensures { Gives (λ x. (x.0, rest_of x.1)) result (open_flags (rest_of source.entry)) }
{
    match value_at(next_word(source), b"open_flags") {
        None => Ok((None, source)),
        Some(value) => {
            let flags = number_at(Style::Flags(FlagSet::Open), 32, value)?;
            Ok((Some(flags as u32), behind_next(source)))
        }
    }
}

/// A path, and the flags and the position of its new description.
#[tactic(auto, unfolding(crate::specs::Sets::opened_of))]
fn opened_of<'a>(alloc: Global, source: Source<'a>) -> Result<(Content, Source<'a>), ReadError>
    ensures { Gives (λ x. (x.0, rest_of x.1)) result (opened_of (rest_of source.entry)) }
{
    let word = next_word(source);
    let Some(value) = value_at(word, b"path") else {
        return Err(refused(Reason::Content, word.left));
    };
    let path = path_at(alloc, value)?;
    let (flags, source) = open_flags(behind_next(source))?;
    let (position, source) = keyed_long(b"pos", source)?;
    let path = Blob::from_vec(alloc, path)?;
    Ok((
        Content::Path {
            flags: flags.unwrap_or(0),
            position: position.unwrap_or(0),
            path,
        },
        source,
    ))
}

/// What another slot or descriptor holds, or a path.
#[tactic(auto, unfolding(crate::specs::Sets::held_of))]
fn held_of<'a>(alloc: Global, source: Source<'a>) -> Result<(Content, Source<'a>), ReadError>
    ensures { Gives (λ x. (x.0, rest_of x.1)) result (held_of (rest_of source.entry)) }
{
    let Some(value) = value_at(next_word(source), b"of") else {
        return opened_of(alloc, source);
    };
    let of = file_at(value)?;
    Ok((Content::Copy { of }, behind_next(source)))
}

/// What a slot or a descriptor holds.
fn content_of<'a>(alloc: Global, source: Source<'a>) -> Result<(Content, Source<'a>), ReadError>
    ensures { Gives (λ x. (x.0, rest_of x.1)) result (content_of (rest_of source.entry)) }
{
    let word = next_word(source);
    if word.bytes == b"nothing".as_slice() {
        Ok((Content::Nothing, behind_next(source)))
    } else if word.bytes == b"taken".as_slice() {
        Ok((Content::Taken, behind_next(source)))
    } else {
        held_of(alloc, source)
    }
}

/// How many bytes a slot or a descriptor has.
fn file_len(_file: FileAt) -> u128
    ensures len { result ≡ length (file_bytes _file) }
    ensures nine { result ≡ 9 }
{
    9
}

/// How many bytes content has.
fn content_len(content: &Content) -> u128
    ensures len { result ≡ length (content_bytes content.now) }
    ensures within { result < 2 ^ 65 }
{
    match content {
        Content::Nothing | Content::Taken => 1,
        Content::Path { path, .. } => path.as_slice().len() as u128 + 15,
        Content::Copy { of } => file_len(*of) + 1,
    }
}

/// The record of a `set`, and how many bytes it has.
#[tactic(auto, unfolding(crate::specs::Sets::set_of))]
pub(crate) fn set_of<'a>(
    alloc: Global,
    source: Source<'a>,
) -> Result<(Record, u128, Source<'a>), ReadError>
    ensures read { Gives (λ x. (x.0, rest_of x.2)) result (set_of (rest_of source.entry)) }
    ensures len { IfOk result (λ x. x.1 ≡ length (record_bytes x.0)) }
{
    let (file, source) = next_file(behind_first(source))?;
    let (content, source) = content_of(alloc, source)?;
    let source = line_end(source)?;
    let len = file_len(file) + content_len(&content) + 1;
    Ok((Record::Set { file, content }, len, source))
}

/// The record of a `seek`, and how many bytes it has.
#[tactic(auto, unfolding(crate::specs::Sets::seek_of))]
pub(crate) fn seek_of(source: Source<'_>) -> Result<(Record, u128, Source<'_>), ReadError>
    ensures read { Gives (λ x. (x.0, rest_of x.2)) result (seek_of (rest_of source.entry)) }
    ensures len { IfOk result (λ x. x.1 ≡ length (record_bytes x.0)) }
{
    let (file, source) = next_file(behind_first(source))?;
    let word = next_word(source);
    let Some(value) = value_at(word, b"pos") else {
        return Err(refused(Reason::Position, word.left));
    };
    let position = u64_at(value)?;
    let source = line_end(behind_next(source))?;
    let len = file_len(file) + 9;
    Ok((Record::Seek { file, position }, len, source))
}
