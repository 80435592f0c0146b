//! Paths at the end of a text.
ghost use Rattle.std.specs.Prelude.{◌≡◌, ◌++◌, ◌∷◌, [], IsTrue, OnOk};
ghost use Rattle.text_forms.specs.Strings.{hex_escape, is_visible, path_byte, path_text};

use crate::words::glyph;
use std::alloc::AllocError;

/// A path.
///
/// # Errors
///
/// Out of memory.
pub fn push_path(text: &mut Vec<u8>, path: &[u8]) -> Result<(), AllocError>
    ensures { OnOk result (text.new.items ≡ text.old.items ++ path_text path.now) }
{
    if are_visible(path) {
        return text.extend_from_slice(path);
    }
    push_path_bytes(text, path)
}

/// Whether all bytes stand for themselves in a path. Each is looked at, so that many are at once.
fn are_visible(path: &[u8]) -> bool
    ensures { IsTrue result → path_text path.now ≡ path.now }
{
    let mut visible = true;
    for byte in path {
        visible = visible & is_visible(*byte);
    }
    visible
}

fn is_visible(byte: u8) -> bool
    ensures { result ≡ is_visible byte }
{
    byte >= 33 && byte <= 126 && byte != b'\\'
}

fn push_path_bytes(text: &mut Vec<u8>, path: &[u8]) -> Result<(), AllocError>
    ensures { OnOk result (text.new.items ≡ text.old.items ++ path_text path.now) }
{
    for byte in path {
        push_path_byte(text, *byte)?;
    }
    Ok(())
}

fn push_path_byte(text: &mut Vec<u8>, byte: u8) -> Result<(), AllocError>
    ensures { OnOk result (text.new.items ≡ text.old.items ++ path_byte byte) }
{
    if is_visible(byte) {
        push_byte(text, byte)
    } else {
        push_hex_escape(text, byte)
    }
}

fn push_byte(text: &mut Vec<u8>, byte: u8) -> Result<(), AllocError>
    ensures { OnOk result (text.new.items ≡ text.old.items ++ byte ∷ []) }
{
    text.push(byte)?;
    Ok(())
}

/// A byte by its two digits, behind `\x`.
fn push_hex_escape(text: &mut Vec<u8>, byte: u8) -> Result<(), AllocError>
    ensures { OnOk result (text.new.items ≡ text.old.items ++ hex_escape byte) }
{
    text.extend_from_slice(&[b'\\', b'x', glyph(byte / 16), glyph(byte % 16)])
}
