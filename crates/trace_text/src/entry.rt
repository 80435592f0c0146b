//! The line of an entry.
ghost use Rattle.std.specs.Prelude.{◌≡◌, ◌≤◌, ◌+◌, ◌*◌, ◌^◌, ◌<◌, ◌++◌, drop, length, OnOk};
ghost use Rattle.std.specs.Int.{cast_unsigned, from_le_bytes, w16, w32, w64};
ghost use Rattle.std.specs.Prelude.{take};
ghost use Rattle.trace_text.specs.Entry.{data_of, data_text, default_len, entry_line, words_of};
ghost use Rattle.trace_text.specs.Entry.{front_words, has_path, has_paths, head_words};
ghost use Rattle.trace_text.specs.Entry.{lengths_from, lengths_text};
ghost use Rattle.trace_text.specs.Entry.{paths_text, place_comment, shown_part, side_words};
ghost use Rattle.trace_text.specs.Entry.{vector_count};

use crate::fields::{push_fd, push_key, push_later};
use crate::look::Look;
use crate::names::{push_entry_flags, push_opcode};
use crate::pieces::push_pieces;
use sqe_codec::Sqe;
use std::alloc::AllocError;
use text_forms::{push_bytes, push_decimal, push_path};
use trace_format::Entry;

/// The first bytes, where there is a limit.
fn shown_part<'a>(first: Option<u32>, bytes: &'a [u8]) -> &'a [u8]
    ensures { result.now ≡ shown_part first bytes.entry.now }
{
    match first {
        None => bytes,
        Some(most) => &bytes[..bytes.len().min(most as usize)],
    }
}

/// Bytes as strings, and dots where some are not shown. `line` is what stands before each where
/// they have lines of their own.
///
/// # Errors
///
/// Out of memory.
pub fn push_data(
    text: &mut Vec<u8>,
    look: Look,
    line: &[u8],
    bytes: &[u8],
) -> Result<(), AllocError>
    ensures { OnOk result (text.new.items ≡ text.old.items ++ data_text look line.now bytes.now) }
{
    let front = shown_part(look.first, bytes);
    let gap: &[u8] = if front.len() <= 64 { b" " } else { line };
    push_pieces(text, gap, front)?;
    if front.len() < bytes.len() {
        push_bytes(text, b" ...")
    } else {
        Ok(())
    }
}

/// How many lengths a vector beside an entry has.
fn vector_count(sqe: &Sqe, side: &[u8]) -> usize
    ensures count { result ≡ vector_count sqe.now side.now }
    ensures within { 8 * result ≤ length side.now }
{
    let count = sqe.len as usize;
    if (sqe.opcode == 1 || sqe.opcode == 2) && count <= 1024 && 8 * count <= side.len() {
        count
    } else {
        0
    }
}

/// The number that the first eight bytes have.
fn first_length(bytes: &[u8]) -> u64
    requires { 8 ≤ length bytes.now }
    ensures { result ≡ from_le_bytes w64 (take 8 bytes.now) }
{
    u64::from_le_bytes([
        bytes[0], bytes[1], bytes[2], bytes[3], bytes[4], bytes[5], bytes[6], bytes[7],
    ])
}

/// What follows them.
fn behind_first(bytes: &[u8]) -> &[u8]
    requires { 8 ≤ length bytes.now }
    ensures { result.now ≡ drop 8 bytes.now }
{
    bytes.split_at(8).1
}

/// So many lengths, each behind a comma.
fn push_lengths_from(text: &mut Vec<u8>, count: usize, bytes: &[u8]) -> Result<(), AllocError>
    requires { 8 * count ≤ length bytes.now }
    ensures { OnOk result (text.new.items ≡ text.old.items ++ lengths_from count bytes.now) }
{
    let mut rest = bytes;
    for number in 0..count {
        push_bytes(text, b",")?;
        push_decimal(text, first_length(rest))?;
        rest = behind_first(rest);
    }
    Ok(())
}

/// So many lengths, with commas between them.
fn push_lengths(text: &mut Vec<u8>, count: usize, bytes: &[u8]) -> Result<(), AllocError>
    requires { 8 * count ≤ length bytes.now }
    ensures { OnOk result (text.new.items ≡ text.old.items ++ lengths_text count bytes.now) }
{
    if count == 0 {
        return Ok(());
    }
    push_bytes(text, b" [")?;
    push_decimal(text, first_length(bytes))?;
    push_lengths_from(text, count - 1, &bytes[8..])?;
    push_bytes(text, b"]")
}

/// Whether an operation has one path beside it.
fn has_path(sqe: &Sqe) -> bool
    ensures { result ≡ has_path sqe.now }
{
    sqe.opcode == 18 || sqe.opcode == 36 || sqe.opcode == 37
}

/// The length of the first of two paths.
fn first_len(side: &[u8]) -> usize
    requires { 2 ≤ length side.now }
    ensures len { result ≡ from_le_bytes w16 (take 2 side.now) }
    ensures small { result < 2 ^ 16 }
{
    u16::from_le_bytes([side[0], side[1]]) as usize
}

/// Whether an operation has two paths beside it, which fit.
fn has_paths(sqe: &Sqe, side: &[u8]) -> bool
    ensures { result ≡ has_paths sqe.now side.now }
{
    (sqe.opcode == 35 || sqe.opcode == 39) && side.len() >= 2 && 2 + first_len(side) <= side.len()
}

fn push_paths(text: &mut Vec<u8>, side: &[u8]) -> Result<(), AllocError>
    requires len { 2 ≤ length side.now }
    requires first { 2 + from_le_bytes w16 (take 2 side.now) ≤ length side.now }
    ensures { OnOk result (text.new.items ≡ text.old.items ++ paths_text side.now) }
{
    let (first, second) = side[2..].split_at(first_len(side));
    push_key(text, b"old")?;
    push_path(text, first)?;
    push_key(text, b"new")?;
    push_path(text, second)
}

/// What stands beside an entry, but the bytes that it writes.
fn push_side(text: &mut Vec<u8>, sqe: &Sqe, side: &[u8]) -> Result<(), AllocError>
    ensures { OnOk result (text.new.items ≡ text.old.items ++ side_words sqe.now side.now) }
{
    if has_path(sqe) {
        push_key(text, b"path")?;
        push_path(text, side)
    } else if has_paths(sqe, side) {
        push_paths(text, side)
    } else {
        push_lengths(text, vector_count(sqe, side), side)
    }
}

/// The bytes that an entry writes.
fn data_of<'a>(sqe: &Sqe, side: &'a [u8]) -> &'a [u8]
    ensures { result.now ≡ data_of sqe.now side.entry.now }
{
    if has_path(sqe) || has_paths(sqe, side) {
        &[]
    } else {
        &side[8 * vector_count(sqe, side)..]
    }
}

/// The length that an entry has where none is written.
pub fn default_len(sqe: &Sqe, side: &[u8]) -> usize
    ensures { result ≡ default_len sqe.now side.now }
{
    if sqe.opcode == 23 {
        side.len()
    } else {
        vector_count(sqe, side)
    }
}

/// The place of a step behind an indent, where places are shown.
///
/// # Errors
///
/// Out of memory.
pub fn push_place(
    text: &mut Vec<u8>,
    look: Look,
    indent: &[u8],
    place: u64,
) -> Result<(), AllocError>
    ensures { OnOk result (text.new.items ≡ text.old.items ++ place_comment look indent.now place) }
{
    if !look.places {
        return Ok(());
    }
    push_bytes(text, indent)?;
    push_bytes(text, b"# ")?;
    push_decimal(text, place)?;
    push_bytes(text, b"\n")
}

/// The bits of the field `fd`, as a number without a sign.
fn fd_bits(sqe: &Sqe) -> u32
    ensures { result ≡ cast_unsigned w32 sqe.now.fd }
{
    sqe.fd.cast_unsigned()
}

/// The first words of an entry: its operation, its flags and its descriptor.
///
/// # Errors
///
/// Out of memory.
pub fn push_head(text: &mut Vec<u8>, sqe: &Sqe) -> Result<(), AllocError>
    ensures { OnOk result (text.new.items ≡ text.old.items ++ head_words sqe.now) }
{
    push_bytes(text, b"  ")?;
    push_opcode(text, sqe.opcode)?;
    push_entry_flags(text, sqe.flags)?;
    push_fd(text, sqe.opcode, fd_bits(sqe))
}

/// The words of an entry before the bytes that it writes. Its length is left out where it is
/// `default`.
///
/// # Errors
///
/// Out of memory.
pub fn push_front(
    text: &mut Vec<u8>,
    sqe: &Sqe,
    side: &[u8],
    default: usize,
) -> Result<(), AllocError>
    ensures { OnOk result (text.new.items
        ≡ text.old.items ++ front_words sqe.now side.now default) }
{
    push_head(text, sqe)?;
    push_side(text, sqe, side)?;
    push_later(text, sqe, default)
}

/// The words of an entry.
///
/// # Errors
///
/// Out of memory.
#[tactic(auto, unfolding(crate::specs::Entry::words_of))]
pub fn push_words(text: &mut Vec<u8>, look: Look, sqe: &Sqe, side: &[u8]) -> Result<(), AllocError>
    ensures { OnOk result (text.new.items
        ≡ text.old.items ++ words_of look sqe.now side.now) }
{
    push_front(text, sqe, side, default_len(sqe, side))?;
    push_data(text, look, b" \\\n    ", data_of(sqe, side))?;
    push_bytes(text, b"\n")
}

/// The line of the entry at a place.
#[tactic(auto, unfolding(crate::specs::Entry::entry_line))]
pub(crate) fn push_entry(
    text: &mut Vec<u8>,
    look: Look,
    place: u64,
    entry: Entry<'_>,
) -> Result<(), AllocError>
    ensures { OnOk result (text.new.items ≡ text.old.items ++ entry_line look place entry.entry) }
{
    push_place(text, look, b"  ", place)?;
    push_words(text, look, &entry.sqe(), entry.side())
}
