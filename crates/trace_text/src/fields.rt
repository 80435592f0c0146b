//! The fields of an entry as words. One that is left out is 0.
ghost use Rattle.std.specs.Prelude.{◌≡◌, ◌++◌, [], OnOk};
ghost use Rattle.trace_text.specs.Names.{flags_text};
ghost use Rattle.trace_text.specs.Fields.{addr_word, address_word, decimal_word, descriptor_text};
ghost use Rattle.trace_text.specs.Fields.{fd_key, fd_word, field, later_words, len_key, len_text};
ghost use Rattle.trace_text.specs.Fields.{len_word, off_key, off_text, off_word, op_flags_field};
ghost use Rattle.trace_text.specs.Fields.{op_flags_word, plain_words, user_word};

use crate::names::{FlagSet, push_flags};
use sqe_codec::Sqe;
use std::alloc::AllocError;
use text_forms::{push_bytes, push_decimal, push_hexadecimal, push_octal, push_signed};

/// A key behind a space, and the sign before its value.
///
/// # Errors
///
/// Out of memory.
pub fn push_key(text: &mut Vec<u8>, key: &[u8]) -> Result<(), AllocError>
    ensures { OnOk result (text.new.items ≡ text.old.items ++ field key.now []) }
{
    push_bytes(text, b" ")?;
    push_bytes(text, key)?;
    push_bytes(text, b"=")
}

/// A descriptor: `AT_FDCWD`, or a number with its sign.
fn push_descriptor(text: &mut Vec<u8>, number: u32) -> Result<(), AllocError>
    ensures { OnOk result (text.new.items ≡ text.old.items ++ descriptor_text number) }
{
    if number == 4_294_967_196 {
        push_bytes(text, b"AT_FDCWD")
    } else {
        push_signed(text, number.cast_signed())
    }
}

/// The key of the field `fd`.
pub fn fd_key(opcode: u8) -> &'static [u8]
    ensures { result.now ≡ fd_key opcode }
{
    match opcode {
        18 | 36 | 37 => b"dfd",
        35 | 39 => b"old_dfd",
        _ => b"fd",
    }
}

pub(crate) fn push_fd(text: &mut Vec<u8>, opcode: u8, number: u32) -> Result<(), AllocError>
    ensures { OnOk result (text.new.items ≡ text.old.items ++ fd_word opcode number) }
{
    if number == 0 {
        return Ok(());
    }
    push_key(text, fd_key(opcode))?;
    push_descriptor(text, number)
}

/// The key of the field `off`.
pub fn off_key(opcode: u8) -> &'static [u8]
    ensures { result.now ≡ off_key opcode }
{
    match opcode {
        35 | 39 => b"addr2",
        55 => b"length",
        _ => b"off",
    }
}

fn push_off_value(text: &mut Vec<u8>, opcode: u8, number: u64) -> Result<(), AllocError>
    ensures { OnOk result (text.new.items ≡ text.old.items ++ off_text opcode number) }
{
    if opcode == 35 || opcode == 39 {
        push_hexadecimal(text, number)
    } else if number == u64::MAX {
        push_bytes(text, b"-1")
    } else {
        push_decimal(text, number)
    }
}

fn push_off(text: &mut Vec<u8>, opcode: u8, number: u64) -> Result<(), AllocError>
    ensures { OnOk result (text.new.items ≡ text.old.items ++ off_word opcode number) }
{
    if number == 0 {
        return Ok(());
    }
    push_key(text, off_key(opcode))?;
    push_off_value(text, opcode, number)
}

fn push_addr(text: &mut Vec<u8>, opcode: u8, number: u64) -> Result<(), AllocError>
    ensures { OnOk result (text.new.items ≡ text.old.items ++ addr_word opcode number) }
{
    if number == 0 {
        return Ok(());
    }
    if opcode == 17 {
        push_key(text, b"length")?;
        push_decimal(text, number)
    } else {
        push_key(text, b"addr")?;
        push_hexadecimal(text, number)
    }
}

/// The key of the field `len`.
pub fn len_key(opcode: u8) -> &'static [u8]
    ensures { result.now ≡ len_key opcode }
{
    match opcode {
        17 | 18 | 37 => b"mode",
        35 | 39 => b"new_dfd",
        _ => b"len",
    }
}

fn push_len_value(text: &mut Vec<u8>, opcode: u8, number: u32) -> Result<(), AllocError>
    ensures { OnOk result (text.new.items ≡ text.old.items ++ len_text opcode number) }
{
    match opcode {
        17 => push_flags(text, FlagSet::Allocate, number),
        18 | 37 => push_octal(text, number as u64),
        35 | 39 => push_descriptor(text, number),
        _ => push_decimal(text, number as u64),
    }
}

/// The field `len`, which is left out where it has the default value.
fn push_len(text: &mut Vec<u8>, opcode: u8, default: usize, number: u32) -> Result<(), AllocError>
    ensures { OnOk result (text.new.items ≡ text.old.items ++ len_word opcode default number) }
{
    if number as usize == default {
        return Ok(());
    }
    push_key(text, len_key(opcode))?;
    if number == 0 {
        push_bytes(text, b"0")
    } else {
        push_len_value(text, opcode, number)
    }
}

/// A field of flags with names.
fn push_named(text: &mut Vec<u8>, key: &[u8], set: FlagSet, number: u32) -> Result<(), AllocError>
    ensures { OnOk result (text.new.items ≡ text.old.items ++ field key.now (flags_text set number)) }
{
    push_key(text, key)?;
    push_flags(text, set, number)
}

fn push_op_flags_field(text: &mut Vec<u8>, opcode: u8, number: u32) -> Result<(), AllocError>
    ensures { OnOk result (text.new.items ≡ text.old.items ++ op_flags_field opcode number) }
{
    match opcode {
        1 | 2 | 4 | 5 | 22 | 23 => push_named(text, b"rw_flags", FlagSet::Transfer, number),
        3 => push_named(text, b"fsync_flags", FlagSet::Sync, number),
        18 => push_named(text, b"open_flags", FlagSet::Open, number),
        35 => push_named(text, b"rename_flags", FlagSet::Rename, number),
        36 => push_named(text, b"unlink_flags", FlagSet::Unlink, number),
        39 => push_named(text, b"hardlink_flags", FlagSet::Link, number),
        _ => {
            push_key(text, b"op_flags")?;
            push_hexadecimal(text, number as u64)
        }
    }
}

/// The field `op_flags`, as an operation names it. It is left out where it is 0.
///
/// # Errors
///
/// Out of memory.
pub fn push_op_flags(text: &mut Vec<u8>, opcode: u8, number: u32) -> Result<(), AllocError>
    ensures { OnOk result (text.new.items ≡ text.old.items ++ op_flags_word opcode number) }
{
    if number == 0 {
        return Ok(());
    }
    push_op_flags_field(text, opcode, number)
}

/// A field in decimal digits. It is left out where it is 0.
///
/// # Errors
///
/// Out of memory.
pub fn push_number(text: &mut Vec<u8>, key: &[u8], number: u64) -> Result<(), AllocError>
    ensures { OnOk result (text.new.items ≡ text.old.items ++ decimal_word key.now number) }
{
    if number == 0 {
        return Ok(());
    }
    push_key(text, key)?;
    push_decimal(text, number)
}

/// A field in hexadecimal digits.
fn push_address(text: &mut Vec<u8>, key: &[u8], number: u64) -> Result<(), AllocError>
    ensures { OnOk result (text.new.items ≡ text.old.items ++ address_word key.now number) }
{
    if number == 0 {
        return Ok(());
    }
    push_key(text, key)?;
    push_hexadecimal(text, number)
}

fn push_user(text: &mut Vec<u8>, number: u64) -> Result<(), AllocError>
    ensures { OnOk result (text.new.items ≡ text.old.items ++ user_word number) }
{
    if number < 1 << 32 {
        push_number(text, b"user_data", number)
    } else {
        push_address(text, b"user_data", number)
    }
}

/// The fields behind what stands beside the entry.
///
/// # Errors
///
/// Out of memory.
pub fn push_later(text: &mut Vec<u8>, sqe: &Sqe, default: usize) -> Result<(), AllocError>
    ensures { OnOk result (text.new.items ≡ text.old.items ++ later_words sqe.now default) }
{
    push_off(text, sqe.opcode, sqe.off)?;
    push_addr(text, sqe.opcode, sqe.addr)?;
    push_len(text, sqe.opcode, default, sqe.len)?;
    push_op_flags(text, sqe.opcode, sqe.op_flags)?;
    push_rest(text, sqe)
}

/// Those that every operation names alike.
fn push_rest(text: &mut Vec<u8>, sqe: &Sqe) -> Result<(), AllocError>
    ensures { OnOk result (text.new.items ≡ text.old.items ++ plain_words sqe.now) }
{
    push_number(text, b"buf_index", sqe.buf_index as u64)?;
    push_number(text, b"file_index", sqe.file_index as u64)?;
    push_number(text, b"ioprio", sqe.ioprio as u64)?;
    push_number(text, b"personality", sqe.personality as u64)?;
    push_address(text, b"addr3", sqe.addr3)?;
    push_address(text, b"pad", sqe.last)?;
    push_user(text, sqe.user_data)
}
