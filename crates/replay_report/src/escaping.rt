//! Paths as text.
ghost use Rattle.std.specs.Prelude.{◌≡◌, ◌<◌, ◌++◌, [], ◌∷◌, IfOk, IsTrue, OnOk, codes, false, string_bytes};
ghost use Rattle.hex.specs.Hex.{encode_lower};
ghost use Rattle.replay_report.specs.Report.{escaped, escaped_byte};

use crate::entry_line::digit;
use std::alloc::{AllocError, Global};

/// So many bytes are looked at together: where all of them stand for themselves, they are copied.
const BLOCK: usize = 256;

/// A path with its unprintable bytes by their numbers.
pub fn escaped(alloc: Global, path: &[u8]) -> Result<String, AllocError>
    ensures { IfOk result (λ text. string_bytes text ≡ escaped path.now) }
{
    let mut text = Vec::with_capacity(alloc, path.len())?;
    push_escaped(&mut text, path)?;
    Ok(String::from_utf8(text).unwrap())
}

/// Adds a path with its unprintable bytes by their numbers.
///
/// # Errors
///
/// Out of memory.
pub fn push_escaped(text: &mut Vec<u8>, path: &[u8]) -> Result<(), AllocError>
    ensures { OnOk result (text.new.items ≡ text.old.items ++ escaped path.now) }
{
    let mut done = 0;
    while done < path.len() {
        let end = done + BLOCK.min(path.len() - done);
        push_block(text, &path[done..end])?;
        done = end;
    }
    Ok(())
}

/// A part of a path.
fn push_block(text: &mut Vec<u8>, bytes: &[u8]) -> Result<(), AllocError>
    ensures { OnOk result (text.new.items ≡ text.old.items ++ escaped bytes.now) }
{
    if are_visible(bytes) {
        return text.extend_from_slice(bytes);
    }
    for byte in bytes {
        push_byte(text, *byte)?;
    }
    Ok(())
}

/// Whether all of some bytes stand for themselves. Each is looked at, so that many are at once.
fn are_visible(bytes: &[u8]) -> bool
    ensures { IsTrue result → escaped bytes.now ≡ bytes.now }
{
    let mut visible = true;
    for byte in bytes {
        visible = visible & is_visible(*byte);
    }
    visible
}

/// Whether a byte stands for itself.
fn is_visible(byte: u8) -> bool
    ensures seen { IsTrue result → escaped_byte byte ≡ byte ∷ [] }
    ensures ascii { IsTrue result → byte < 128 }
    ensures other { result ≡ false → escaped_byte byte ≡ codes "\\x" ++ encode_lower (byte ∷ []) }
{
    byte >= 0x21 && byte <= 0x7e && byte != b'\\'
}

fn push_byte(text: &mut Vec<u8>, byte: u8) -> Result<(), AllocError>
    ensures { OnOk result (text.new.items ≡ text.old.items ++ escaped_byte byte) }
{
    if is_visible(byte) {
        text.extend_from_slice(&[byte])
    } else {
        text.extend_from_slice(&[b'\\', b'x', digit(byte >> 4), digit(byte & 0x0f)])
    }
}
