//! Strings. The text of a piece is made in some room. Many bytes are copied there at once, and
//! count as far as they stand for themselves.
ghost use Rattle.std.specs.Prelude.{◌≡◌, ◌≤◌, ◌+◌, ◌++◌, ◌==◌, if◌then◌else◌, ℕ, OnOk};
ghost use Rattle.std.specs.Prelude.{drop, length, take};
ghost use Rattle.std.specs.Int.{trailing_zeros, w64};
ghost use Rattle.std.specs.List.{flat_map};
ghost use Rattle.text_forms.specs.Strings.{escape_letter, most_plain, quoted_byte, string_text};

use crate::plain::PRINTABLE;
use std::alloc::AllocError;
use std::simd::prelude::*;
use text_forms::{glyph, push_bytes};

/// How many bytes are copied together.
const LANES: usize = 16;

/// A byte has at most four in a string. Behind them there is room for those copied together.
const ROOM: usize = 272;

/// The place of the first bit that is set, or a number where none is.
fn first_set(mask: u64, none: usize) -> usize
    ensures { result ≡ (if mask == 0 then none else trailing_zeros w64 mask) }
{
    if mask == 0 {
        none
    } else {
        mask.trailing_zeros() as usize
    }
}

/// Copies the sixteen bytes from a place behind what is used of the room. Says how many of them
/// stand for themselves before one that does not.
fn put_lanes(room: &mut [u8; ROOM], used: usize, bytes: &[u8], at: usize) -> usize
    requires room { used + LANES ≤ ROOM }
    requires bytes { at + LANES ≤ length bytes.now }
    ensures few { result ≤ LANES }
    ensures copied { (n : ℕ) → n ≤ result
        → take (used + n) room.new ≡ take used room.old ++ flat_map quoted_byte (take n (drop at bytes.now)) }
{
    let lanes = u8x16::from_slice(&bytes[at..]);
    lanes.copy_to_slice(&mut room[used..]);
    let unseen = (lanes - u8x16::splat(b' ')).simd_ge(u8x16::splat(PRINTABLE));
    let stops = unseen | lanes.simd_eq(u8x16::splat(b'"')) | lanes.simd_eq(u8x16::splat(b'\\'));
    first_set(stops.to_bitmask(), LANES)
}

/// The same where the bytes go so far, and else none. Counts so many at most.
fn put_run(room: &mut [u8; ROOM], used: usize, bytes: &[u8], at: usize, most: usize) -> usize
    requires room { used + LANES ≤ ROOM }
    requires bytes { at + most ≤ length bytes.now }
    ensures few { result ≤ most }
    ensures copied { take (used + result) room.new
        ≡ take used room.old ++ flat_map quoted_byte (take result (drop at bytes.now)) }
{
    if bytes.len() - at >= LANES {
        put_lanes(room, used, bytes, at).min(most)
    } else {
        0
    }
}

/// The letter that stands for a byte behind a backslash, and 0 where none does.
fn escape_letter(byte: u8) -> u8
    ensures { result ≡ escape_letter byte }
{
    match byte {
        b'\n' => b'n',
        b'\t' => b't',
        b'\r' => b'r',
        0 => b'0',
        b'"' => b'"',
        b'\\' => b'\\',
        _ => 0,
    }
}

/// Writes a byte of a string behind what is used of the room, and says how much is used then.
fn put_byte(room: &mut [u8; ROOM], used: usize, byte: u8) -> usize
    requires { used + 4 ≤ ROOM }
    ensures few { result ≤ used + 4 }
    ensures written { take result room.new ≡ take used room.old ++ quoted_byte byte }
{
    let letter = escape_letter(byte);
    if letter != 0 {
        room[used] = b'\\';
        room[used + 1] = letter;
        used + 2
    } else if byte >= 32 && byte <= 126 {
        room[used] = byte;
        used + 1
    } else {
        room[used] = b'\\';
        room[used + 1] = b'x';
        room[used + 2] = glyph(byte / 16);
        room[used + 3] = glyph(byte % 16);
        used + 4
    }
}

/// Writes the first bytes as a string has them at the front of some room. Says how much is used.
fn put_quoted(room: &mut [u8; ROOM], bytes: &[u8], count: usize) -> usize
    requires few { count ≤ most_plain }
    requires within { count ≤ length bytes.now }
    ensures fits { result ≤ ROOM }
    ensures quoted { take result room.new ≡ flat_map quoted_byte (take count bytes.now) }
{
    let mut used = 0;
    let mut at = 0;
    while at < count {
        let run = put_run(room, used, bytes, at, count - at);
        used += run;
        at += run;
        if run < LANES && at < count {
            used = put_byte(room, used, bytes[at]);
            at += 1;
        }
    }
    used
}

/// The first bytes between quotation marks.
pub(crate) fn push_quoted(text: &mut Vec<u8>, bytes: &[u8], count: usize) -> Result<(), AllocError>
    requires few { count ≤ most_plain }
    requires within { count ≤ length bytes.now }
    ensures { OnOk result (text.new.items ≡ text.old.items ++ string_text (take count bytes.now)) }
{
    let mut room = [0; ROOM];
    let used = put_quoted(&mut room, bytes, count);
    push_bytes(text, b"\"")?;
    push_bytes(text, &room[..used])?;
    push_bytes(text, b"\"")
}
