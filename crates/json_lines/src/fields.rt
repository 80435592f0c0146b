//! Strings, numbers and fields of JSON, in ASCII.
ghost use Rattle.std.specs.Prelude.{◌≡◌, ◌++◌, ◌∷◌, [], IsTrue, OnOk};
ghost use Rattle.std.specs.List.{list_all};
ghost use Rattle.json_lines.specs.Fields.{is_digit, is_natural, is_number, is_number_key};
ghost use Rattle.json_lines.specs.Fields.{json_byte, json_bytes, json_field, json_string};
ghost use Rattle.json_lines.specs.Fields.{json_value};

use std::alloc::AllocError;
use text_forms::{glyph, push_bytes};

/// Bytes inside a string.
///
/// # Errors
///
/// Out of memory, as of all that follow.
pub(crate) fn push_inside(text: &mut Vec<u8>, bytes: &[u8]) -> Result<(), AllocError>
    ensures { OnOk result (text.new.items ≡ text.old.items ++ json_bytes bytes.now) }
{
    if are_plain(bytes) {
        return push_bytes(text, bytes);
    }
    push_escaped(text, bytes)
}

/// Whether all bytes stand for themselves. Each is looked at, so that many are at once.
fn are_plain(bytes: &[u8]) -> bool
    ensures { IsTrue result → json_bytes bytes.now ≡ bytes.now }
{
    let mut plain = true;
    for byte in bytes {
        plain = plain & is_plain(*byte);
    }
    plain
}

fn is_plain(byte: u8) -> bool
    ensures { IsTrue result → json_byte byte ≡ byte ∷ [] }
{
    byte >= 32 && byte <= 126 && byte != b'"' && byte != b'\\'
}

fn push_escaped(text: &mut Vec<u8>, bytes: &[u8]) -> Result<(), AllocError>
    ensures { OnOk result (text.new.items ≡ text.old.items ++ json_bytes bytes.now) }
{
    for byte in bytes {
        push_byte(text, *byte)?;
    }
    Ok(())
}

/// A byte inside a string.
fn push_byte(text: &mut Vec<u8>, byte: u8) -> Result<(), AllocError>
    ensures { OnOk result (text.new.items ≡ text.old.items ++ json_byte byte) }
{
    if byte == b'"' || byte == b'\\' {
        push_bytes(text, &[b'\\', byte])
    } else if byte >= 32 && byte <= 126 {
        push_bytes(text, &[byte])
    } else {
        push_bytes(
            text,
            &[b'\\', b'u', b'0', b'0', glyph(byte / 16), glyph(byte % 16)],
        )
    }
}

/// A string.
pub(crate) fn push_string(text: &mut Vec<u8>, bytes: &[u8]) -> Result<(), AllocError>
    ensures { OnOk result (text.new.items ≡ text.old.items ++ json_string bytes.now) }
{
    push_bytes(text, b"\"")?;
    push_inside(text, bytes)?;
    push_bytes(text, b"\"")
}

/// Whether a word is a natural number of JSON: digits, the first of which is 0 only where it is
/// alone.
pub(crate) fn is_natural(word: &[u8]) -> bool
    ensures { result ≡ is_natural word.now }
{
    match word {
        [] => false,
        [first, ..] => are_digits(word) && (*first != b'0' || word.len() == 1),
    }
}

fn are_digits(word: &[u8]) -> bool
    ensures { result ≡ list_all is_digit word.now }
{
    word.iter().all(|byte| *byte >= b'0' && *byte <= b'9')
}

/// The same, perhaps behind a minus.
fn is_number(word: &[u8]) -> bool
    ensures { result ≡ is_number word.now }
{
    match word {
        [] => false,
        [first, ..] if *first == b'-' => is_natural(&word[1..]),
        _ => is_natural(word),
    }
}

/// Whether the values of a key are numbers that have at most 53 bits.
fn is_number_key(key: &[u8]) -> bool
    ensures { result ≡ is_number_key key.now }
{
    key == b"place".as_slice()
        || key == b"ring".as_slice()
        || key == b"slot".as_slice()
        || key == b"number".as_slice()
        || key == b"node".as_slice()
        || key == b"desc".as_slice()
        || key == b"len".as_slice()
        || key == b"res".as_slice()
        || key == b"round".as_slice()
        || key == b"after".as_slice()
        || key == b"version".as_slice()
        || key == b"rings".as_slice()
        || key == b"rounds".as_slice()
        || key == b"widest".as_slice()
        || key == b"longest".as_slice()
        || key == b"span".as_slice()
}

/// A value of a key: a number or a string.
#[tactic(auto, unfolding(crate::specs::Fields::json_value))]
fn push_value(text: &mut Vec<u8>, key: &[u8], value: &[u8]) -> Result<(), AllocError>
    ensures { OnOk result (text.new.items ≡ text.old.items ++ json_value key.now value.now) }
{
    if is_number_key(key) && is_number(value) {
        push_bytes(text, value)
    } else {
        push_string(text, value)
    }
}

/// A field behind another one.
#[tactic(auto, unfolding(crate::specs::Fields::json_field))]
pub(crate) fn push_field(text: &mut Vec<u8>, key: &[u8], value: &[u8]) -> Result<(), AllocError>
    ensures { OnOk result (text.new.items ≡ text.old.items ++ json_field key.now value.now) }
{
    push_bytes(text, b",")?;
    push_string(text, key)?;
    push_bytes(text, b":")?;
    push_value(text, key, value)
}
