//! What decides whether a piece is a string, and the digits of one that is not.
ghost use Rattle.std.specs.Prelude.{◌≡◌, ◌≤◌, ◌++◌, ◌*◌, OnOk, length, take};
ghost use Rattle.std.specs.List.{count_by, flat_map};
ghost use Rattle.text_forms.specs.Strings.{hex_byte, hex_text, is_hidden, most_plain};

use std::alloc::AllocError;
use std::simd::prelude::*;
use text_forms::{glyph, push_bytes};

/// How many bytes can be seen, or are a space.
pub(crate) const PRINTABLE: u8 = 95;

/// How many bytes a plain piece has at most.
pub(crate) const MOST_PLAIN: usize = 64;

/// How many digits it has at most.
const HEX_ROOM: usize = 128;

/// How many bytes of a whole piece a string shows by their digits.
fn hidden_in_lanes(bytes: &[u8]) -> usize
    requires { length bytes.now ≡ most_plain }
    ensures { result ≡ count_by is_hidden bytes.now }
{
    let lanes = u8x64::from_slice(bytes);
    let unseen = (lanes - u8x64::splat(b' ')).simd_ge(u8x64::splat(PRINTABLE));
    let hidden = unseen
        & lanes.simd_ne(u8x64::splat(b'\t'))
        & lanes.simd_ne(u8x64::splat(b'\n'))
        & lanes.simd_ne(u8x64::splat(b'\r'));
    hidden.to_bitmask().count_ones() as usize
}

/// How many bytes of a piece a string shows by their digits.
pub(crate) fn hidden_count(bytes: &[u8]) -> usize
    requires { length bytes.now ≤ most_plain }
    ensures { result ≡ count_by is_hidden bytes.now }
{
    if bytes.len() == MOST_PLAIN {
        return hidden_in_lanes(bytes);
    }
    let mut count = 0u8;
    for byte in bytes {
        count += is_hidden(*byte) as u8;
    }
    count as usize
}

fn is_hidden(byte: u8) -> bool
    ensures { result ≡ is_hidden byte }
{
    let is_printable = (byte >= 32) & (byte <= 126);
    !(is_printable | (byte == b'\t') | (byte == b'\n') | (byte == b'\r'))
}

/// Bytes of a piece by their digits.
pub(crate) fn push_hex(text: &mut Vec<u8>, bytes: &[u8]) -> Result<(), AllocError>
    requires { length bytes.now ≤ most_plain }
    ensures { OnOk result (text.new.items ≡ text.old.items ++ hex_text bytes.now) }
{
    push_bytes(text, b"x\"")?;
    let mut room = [0; HEX_ROOM];
    put_hex(&mut room, bytes);
    text.extend_from_slice(&room[..2 * bytes.len()])?;
    push_bytes(text, b"\"")
}

/// The digits of bytes, at the front of some room.
fn put_hex(room: &mut [u8; HEX_ROOM], bytes: &[u8])
    requires { length bytes.now ≤ most_plain }
    ensures { take (2 * length bytes.now) room.new ≡ flat_map hex_byte bytes.now }
{
    for (i, byte) in bytes.iter().enumerate() {
        room[2 * i] = glyph(*byte / 16);
        room[2 * i + 1] = glyph(*byte % 16);
    }
}
