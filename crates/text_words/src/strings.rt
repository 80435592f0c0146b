//! Strings.
ghost use Rattle.std.specs.Prelude.{◌≡◌, ◌++◌, ◌*◌, nat_lt, OnOk};
ghost use Rattle.std.specs.List.{repeat};
ghost use Rattle.text_words.specs.Read.{Gives, rest_of};
ghost use Rattle.text_words.specs.Strings.{behind_count, behind_mark, count_of, digits, escape, escaped};
ghost use Rattle.text_words.specs.Strings.{is_string, letter, letters, more_string, no_string};
ghost use Rattle.text_words.specs.Strings.{once, one_byte, one_letter, strings_of};

use crate::fault::{ReadError, Reason, refused};
use crate::numbers::count_at;
use crate::paths::{hex_byte, hex_escape};
use crate::source::{Source, Word, behind, behind_blanks, behind_word, is_at_end, is_gap, word_at};
use std::alloc::{AllocError, Global};

/// Whether a string is next.
pub fn is_string(source: Source<'_>) -> bool
    ensures { result ≡ is_string (rest_of source.entry) }
{
    let rest = behind_blanks(source.rest);
    rest.starts_with(b"\"") || rest.starts_with(b"x\"")
}

/// The byte that a letter stands for behind a backslash.
fn escaped(letter: u8) -> Option<u8>
    ensures { result ≡ escaped letter }
{
    match letter {
        b'n' => Some(b'\n'),
        b't' => Some(b'\t'),
        b'r' => Some(b'\r'),
        b'0' => Some(0),
        b'"' => Some(b'"'),
        b'\\' => Some(b'\\'),
        _ => None,
    }
}

/// The first byte of a string, and how many letters are it, or why it is none.
#[tactic(auto, unfolding(crate::specs::Strings::letter))]
fn letter(text: &[u8]) -> Result<(u8, usize), Reason>
    ensures { result ≡ letter text.now }
{
    if text.is_empty() {
        return Err(Reason::Letter);
    }
    if text[0] == b'\\' {
        return escape(text);
    }
    if text[0] >= 32 && text[0] <= 126 {
        Ok((text[0], 1))
    } else {
        Err(Reason::Letter)
    }
}

/// The same of a text that begins with a backslash.
#[tactic(auto, unfolding(crate::specs::Strings::escape))]
fn escape(text: &[u8]) -> Result<(u8, usize), Reason>
    ensures { result ≡ escape text.now }
{
    if let Some(byte) = hex_escape(text) {
        return Ok((byte, 4));
    }
    if text.len() < 2 {
        return Err(Reason::Escape);
    }
    match escaped(text[1]) {
        Some(byte) => Ok((byte, 2)),
        None => Err(Reason::Escape),
    }
}

/// What is left behind the mark at the end of a string.
fn behind_mark(text: &[u8], why: Reason) -> Result<&[u8], ReadError>
    ensures { Gives (λ rest. rest.now) result (behind_mark why text.entry.now) }
{
    if text.starts_with(b"\"") {
        Ok(behind(text, 1))
    } else {
        Err(refused(why, text.len()))
    }
}

/// One letter more of a string, and what is left behind it.
#[tactic(auto, unfolding(crate::specs::Strings::one_letter))]
fn push_letter<'a>(bytes: &mut Vec<u8>, text: &'a [u8]) -> Result<&'a [u8], ReadError>
    ensures { Gives (λ rest. (bytes.new.items, rest.now)) result
        (one_letter bytes.old.items text.entry.now) }
{
    match letter(text) {
        Ok((byte, count)) => {
            bytes.push(byte)?;
            Ok(behind(text, count))
        }
        Err(reason) => Err(refused(reason, text.len())),
    }
}

/// The bytes up to the mark at the end of a string, and what is left from there on.
#[tactic(auto, unfolding(crate::specs::Strings::letters))]
fn letters<'a>(bytes: &mut Vec<u8>, text: &'a [u8]) -> Result<&'a [u8], ReadError>
    ensures { Gives (λ rest. (bytes.new.items, rest.now)) result
        (letters bytes.old.items text.entry.now) }
{
    let mut rest = text;
    for _ in 0..text.len() {
        if rest.starts_with(b"\"") {
            break;
        }
        rest = push_letter(bytes, rest)?;
    }
    Ok(rest)
}

/// One byte more of a string of digits, and what is left behind it.
#[tactic(auto, unfolding(crate::specs::Strings::one_byte))]
fn push_byte<'a>(bytes: &mut Vec<u8>, text: &'a [u8]) -> Result<&'a [u8], ReadError>
    ensures { Gives (λ rest. (bytes.new.items, rest.now)) result
        (one_byte bytes.old.items text.entry.now) }
{
    match hex_byte(text) {
        Some(byte) => {
            bytes.push(byte)?;
            Ok(behind(text, 2))
        }
        None => Err(refused(Reason::Digits, text.len())),
    }
}

/// The bytes up to the mark at the end of a string of digits, and what is left from there on.
#[tactic(auto, unfolding(crate::specs::Strings::digits))]
fn digits<'a>(bytes: &mut Vec<u8>, text: &'a [u8]) -> Result<&'a [u8], ReadError>
    ensures { Gives (λ rest. (bytes.new.items, rest.now)) result
        (digits bytes.old.items text.entry.now) }
{
    let mut rest = text;
    for _ in 0..text.len() {
        if rest.starts_with(b"\"") {
            break;
        }
        rest = push_byte(bytes, rest)?;
    }
    Ok(rest)
}

/// The bytes of a string once, and what is left behind its marks.
#[tactic(auto, unfolding(crate::specs::Strings::once))]
fn once<'a>(bytes: &mut Vec<u8>, text: &'a [u8]) -> Result<&'a [u8], ReadError>
    ensures { Gives (λ rest. (bytes.new.items, rest.now)) result
        (once bytes.old.items text.entry.now) }
{
    if text.starts_with(b"\"") {
        let rest = letters(bytes, behind(text, 1))?;
        behind_mark(rest, Reason::Letter)
    } else if text.starts_with(b"x\"") {
        let rest = digits(bytes, behind(text, 2))?;
        behind_mark(rest, Reason::Digits)
    } else {
        Err(refused(no_string(text), text.len()))
    }
}

/// Why a word is no string.
fn no_string(text: &[u8]) -> Reason
    ensures { result ≡ no_string text.now }
{
    if text.starts_with(b"...") {
        Reason::Cut
    } else {
        Reason::NoString
    }
}

/// How often a string stands there: its count, or once.
#[tactic(auto, unfolding(crate::specs::Strings::count_of))]
fn count_of(text: &[u8]) -> Result<u64, ReadError>
    ensures { Gives (λ n. n) result (count_of text.now) }
{
    if !text.starts_with(b"*") {
        return Ok(1);
    }
    count_at(Word {
        bytes: behind(word_at(text), 1),
        left: text.len().saturating_sub(1),
    })
}

/// Bytes so often at the end of others.
fn push_times(out: &mut Vec<u8>, bytes: &[u8], count: u64) -> Result<(), AllocError>
    ensures { OnOk result (out.new.items ≡ out.old.items ++ repeat count bytes.now) }
{
    if bytes.len() == 1 && count < 1 << 31 {
        let len = out.len();
        if len < 1 << 31 {
            return out.resize(len + count as usize, bytes[0]);
        }
    }
    if bytes.is_empty() {
        return Ok(());
    }
    for _ in 0..count {
        out.extend_from_slice(bytes)?;
    }
    Ok(())
}

/// Whether so many bytes so often are more than there is room for.
fn is_over(room: u64, len: u64, count: u64) -> bool
    ensures { result ≡ nat_lt room (len * count) }
{
    len != 0 && count > room / len
}

/// The bytes of the next string at the end of others.
#[tactic(auto, unfolding(crate::specs::Strings::more_string))]
pub fn add_string<'a>(
    alloc: Global,
    out: &mut Vec<u8>,
    source: Source<'a>,
) -> Result<Source<'a>, ReadError>
    ensures { Gives (λ s. (out.new.items, rest_of s)) result
        (more_string out.old.items (rest_of source.entry)) }
{
    let text = behind_blanks(source.rest);
    let mut bytes = Vec::new(alloc);
    let rest = once(&mut bytes, text)?;
    let count = count_of(rest)?;
    let len = bytes.len() as u64;
    if is_over(source.room, len, count) {
        return Err(refused(Reason::Room, text.len()));
    }
    let rest = behind_count(rest)?;
    push_times(out, bytes.as_slice(), count)?;
    Ok(Source {
        rest,
        room: source.room.saturating_sub(len.saturating_mul(count)),
    })
}

/// What is left behind the count of a string, if it has one. A gap follows.
#[tactic(auto, unfolding(crate::specs::Strings::behind_count))]
fn behind_count(text: &[u8]) -> Result<&[u8], ReadError>
    ensures { Gives (λ rest. rest.now) result (behind_count text.entry.now) }
{
    if text.starts_with(b"*") {
        return Ok(behind_word(text));
    }
    if text.is_empty() || is_gap(text[0]) {
        Ok(text)
    } else {
        Err(refused(Reason::NoString, text.len()))
    }
}

/// The bytes of all strings up to the end of the line.
#[tactic(auto, unfolding(crate::specs::Strings::strings_of))]
pub fn strings_of<'a>(alloc: Global, source: Source<'a>) -> Result<(Vec<u8>, Source<'a>), ReadError>
    ensures { Gives (λ x. (x.0.items, rest_of x.1)) result (strings_of (rest_of source.entry)) }
{
    let mut bytes = Vec::new(alloc);
    let mut source = source;
    for _ in 0..source.rest.len() {
        if is_at_end(source) {
            break;
        }
        source = add_string(alloc, &mut bytes, source)?;
    }
    Ok((bytes, source))
}
