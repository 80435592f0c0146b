//! Paths.
ghost use Rattle.std.specs.Prelude.{◌≡◌};
ghost use Rattle.text_words.specs.Paths.{hex_byte, hex_escape, letters_of, path_at, path_byte};
ghost use Rattle.text_words.specs.Paths.{path_letter};
ghost use Rattle.text_words.specs.Read.{Gives, word_of};

use crate::fault::{ReadError, Reason, refused};
use crate::numbers::digit_value;
use crate::source::{Word, behind};
use std::alloc::Global;

/// The most bytes that a path may have, for two bytes that count them.
const LONGEST: usize = 65_535;

/// The byte that a text begins with two digits of.
#[tactic(auto, unfolding(crate::specs::Paths::hex_byte))]
pub(crate) fn hex_byte(text: &[u8]) -> Option<u8>
    ensures { result ≡ hex_byte text.now }
{
    if text.len() < 2 {
        return None;
    }
    let high = digit_value(text[0]);
    let low = digit_value(text[1]);
    if high < 16 && low < 16 {
        Some(16 * high + low)
    } else {
        None
    }
}

/// The byte of an escape by its digits, behind `\x`.
#[tactic(auto, unfolding(crate::specs::Paths::hex_escape))]
pub(crate) fn hex_escape(text: &[u8]) -> Option<u8>
    ensures { result ≡ hex_escape text.now }
{
    if text.starts_with(b"\\x") {
        hex_byte(&text[2..])
    } else {
        None
    }
}

/// The first byte of a path, and how many letters are it: none where that is no letter of a path.
#[tactic(auto, unfolding(crate::specs::Paths::path_letter))]
fn path_letter(text: &[u8]) -> Option<(u8, usize)>
    ensures { result ≡ path_letter text.now }
{
    match hex_escape(text) {
        Some(byte) => Some((byte, 4)),
        None => {
            if !text.is_empty() && text[0] >= 33 && text[0] <= 126 && text[0] != b'\\' {
                Some((text[0], 1))
            } else {
                None
            }
        }
    }
}

/// One byte more of the path of a word, and what is left of the word.
#[tactic(auto, unfolding(crate::specs::Paths::path_byte))]
fn push_path_byte<'a>(
    path: &mut Vec<u8>,
    word: Word<'_>,
    rest: &'a [u8],
) -> Result<&'a [u8], ReadError>
    ensures { Gives (λ after. (path.new.items, after.now)) result
        (path_byte (word_of word.entry) path.old.items rest.entry.now) }
{
    match path_letter(rest) {
        Some((byte, count)) => {
            path.push(byte)?;
            Ok(behind(rest, count))
        }
        None => {
            let passed = word.bytes.len().saturating_sub(rest.len());
            Err(refused(Reason::PathLetter, word.left.saturating_sub(passed)))
        }
    }
}

/// The bytes that the letters of a word are.
///
/// # Errors
///
/// The fault of the word, or out of memory.
pub fn letters_of(alloc: Global, word: Word<'_>) -> Result<Vec<u8>, ReadError>
    ensures { Gives (λ path. path.items) result (letters_of (word_of word.entry)) }
{
    let mut path = Vec::new(alloc);
    let mut rest = word.bytes;
    for _ in 0..word.bytes.len() {
        if rest.is_empty() {
            break;
        }
        rest = push_path_byte(&mut path, word, rest)?;
    }
    Ok(path)
}

/// The bytes of a path.
///
/// # Errors
///
/// The fault of the word, or out of memory.
#[tactic(auto, unfolding(crate::specs::Paths::path_at))]
pub fn path_at(alloc: Global, word: Word<'_>) -> Result<Vec<u8>, ReadError>
    ensures { Gives (λ path. path.items) result (path_at (word_of word.entry)) }
{
    if word.bytes.is_empty() {
        return Err(refused(Reason::Path, word.left));
    }
    let path = letters_of(alloc, word)?;
    if path.len() > LONGEST {
        return Err(refused(Reason::PathLong, word.left));
    }
    Ok(path)
}
