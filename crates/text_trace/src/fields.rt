//! Operations, and the fields of their entries.
ghost use Rattle.std.specs.Prelude.{◌≡◌};
ghost use Rattle.text_forms.specs.Names.{opcode_names};
ghost use Rattle.text_trace.specs.Fields.{addr_key, bits_of, decimal_byte, entry_flag_of, field_of};
ghost use Rattle.text_trace.specs.Fields.{len_style, named_in, numbered_opcode, op_flags_key};
ghost use Rattle.text_trace.specs.Fields.{op_flags_style, opcode_of, plain_field, rare_field};
ghost use Rattle.text_trace.specs.Fields.{style_of};

use text_forms::opcode_name;
use text_words::{Style, decimal_of};
use trace_text::{FlagSet, entry_flag_name, fd_key, len_key, off_key};

/// A field of an entry.
#[derive(Clone, Copy)]
pub enum Field {
    Fd,
    Off,
    Addr,
    Len,
    OpFlags,
    BufIndex,
    FileIndex,
    Ioprio,
    Personality,
    Addr3,
    Pad,
    UserData,
}

/// The operation of a name.
fn named_opcode(word: &[u8]) -> Option<u8>
    ensures { result ≡ named_in opcode_names word.now }
{
    if word.is_empty() {
        return None;
    }
    for opcode in 0..64u8 {
        if opcode_name(opcode).as_bytes() == word {
            return Some(opcode);
        }
    }
    None
}

/// A decimal number of 8 bits, with no zero in front.
#[tactic(auto, unfolding(crate::specs::Fields::decimal_byte))]
fn decimal_byte(digits: &[u8]) -> Option<u8>
    ensures { result ≡ decimal_byte digits.now }
{
    if digits.len() > 1 && digits[0] == b'0' {
        return None;
    }
    match decimal_of(digits, 255) {
        Some(number) => Some(number as u8),
        None => None,
    }
}

/// The operation of a number behind `OP_`.
#[tactic(auto, unfolding(crate::specs::Fields::numbered_opcode))]
fn numbered_opcode(word: &[u8]) -> Option<u8>
    ensures { result ≡ numbered_opcode word.now }
{
    if word.starts_with(b"OP_") {
        decimal_byte(&word[3..])
    } else {
        None
    }
}

/// The operation that a word names.
#[tactic(auto, unfolding(crate::specs::Fields::opcode_of))]
pub fn opcode_of(word: &[u8]) -> Option<u8>
    ensures { result ≡ opcode_of word.now }
{
    match named_opcode(word) {
        Some(opcode) => Some(opcode),
        None => numbered_opcode(word),
    }
}

/// The value of the flag of an entry that a word names.
#[tactic(auto, unfolding(crate::specs::Fields::entry_flag_of))]
pub(crate) fn entry_flag_of(word: &[u8]) -> Option<u8>
    ensures { result ≡ entry_flag_of word.now }
{
    if word.is_empty() {
        return None;
    }
    for bit in 0..8 {
        if entry_flag_name(bit).as_bytes() == word {
            return Some(1 << bit);
        }
    }
    None
}

/// The key of `op_flags` in an operation.
fn op_flags_key(opcode: u8) -> &'static [u8]
    ensures { result.now ≡ op_flags_key opcode }
{
    match opcode {
        1 | 2 | 4 | 5 | 22 | 23 => b"rw_flags",
        3 => b"fsync_flags",
        18 => b"open_flags",
        35 => b"rename_flags",
        36 => b"unlink_flags",
        39 => b"hardlink_flags",
        _ => b"op_flags",
    }
}

/// The flags of `op_flags` in an operation.
fn op_flags_style(opcode: u8) -> Style
    ensures { result ≡ op_flags_style opcode }
{
    match opcode {
        1 | 2 | 4 | 5 | 22 | 23 => Style::Flags(FlagSet::Transfer),
        3 => Style::Flags(FlagSet::Sync),
        18 => Style::Flags(FlagSet::Open),
        35 => Style::Flags(FlagSet::Rename),
        36 => Style::Flags(FlagSet::Unlink),
        39 => Style::Flags(FlagSet::Link),
        _ => Style::Plain,
    }
}

/// The key of `addr` in an operation.
fn addr_key(opcode: u8) -> &'static [u8]
    ensures { result.now ≡ addr_key opcode }
{
    match opcode {
        17 => b"length",
        _ => b"addr",
    }
}

/// The field that few operations have, and that `struct io_uring_sqe` names so.
fn rare_field(key: &[u8]) -> Option<Field>
    ensures { result ≡ rare_field key.now }
{
    if key == b"buf_index".as_slice() {
        Some(Field::BufIndex)
    } else if key == b"file_index".as_slice() {
        Some(Field::FileIndex)
    } else if key == b"ioprio".as_slice() {
        Some(Field::Ioprio)
    } else if key == b"personality".as_slice() {
        Some(Field::Personality)
    } else if key == b"addr3".as_slice() {
        Some(Field::Addr3)
    } else if key == b"pad".as_slice() {
        Some(Field::Pad)
    } else {
        None
    }
}

/// The field that `struct io_uring_sqe` names so.
fn plain_field(key: &[u8]) -> Option<Field>
    ensures { result ≡ plain_field key.now }
{
    if key == b"user_data".as_slice() {
        Some(Field::UserData)
    } else if key == b"fd".as_slice() {
        Some(Field::Fd)
    } else if key == b"off".as_slice() {
        Some(Field::Off)
    } else if key == b"addr".as_slice() {
        Some(Field::Addr)
    } else if key == b"len".as_slice() {
        Some(Field::Len)
    } else if key == b"op_flags".as_slice() {
        Some(Field::OpFlags)
    } else {
        rare_field(key)
    }
}

/// The field that a key names in an operation.
#[tactic(auto, unfolding(crate::specs::Fields::field_of))]
pub(crate) fn field_of(opcode: u8, key: &[u8]) -> Option<Field>
    ensures { result ≡ field_of opcode key.now }
{
    if key == fd_key(opcode) {
        Some(Field::Fd)
    } else if key == off_key(opcode) {
        Some(Field::Off)
    } else if key == addr_key(opcode) {
        Some(Field::Addr)
    } else if key == len_key(opcode) {
        Some(Field::Len)
    } else if key == op_flags_key(opcode) {
        Some(Field::OpFlags)
    } else {
        plain_field(key)
    }
}

/// How many bits a field has.
pub(crate) fn bits_of(field: Field) -> u8
    ensures { result ≡ bits_of field }
{
    match field {
        Field::BufIndex | Field::Ioprio | Field::Personality => 16,
        Field::Fd | Field::Len | Field::OpFlags | Field::FileIndex => 32,
        _ => 64,
    }
}

fn len_style(opcode: u8) -> Style
    ensures { result ≡ len_style opcode }
{
    match opcode {
        17 => Style::Flags(FlagSet::Allocate),
        35 | 39 => Style::Descriptor,
        _ => Style::Plain,
    }
}

/// What the number of a field may be beside its digits.
pub(crate) fn style_of(opcode: u8, field: Field) -> Style
    ensures { result ≡ style_of opcode field }
{
    match field {
        Field::Fd => Style::Descriptor,
        Field::Len => len_style(opcode),
        Field::OpFlags => op_flags_style(opcode),
        _ => Style::Plain,
    }
}
