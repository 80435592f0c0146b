//! Words at the end of a text.
ghost use Rattle.std.specs.Prelude.{◌≡◌, ◌≤◌, ◌<◌, ◌++◌, OnOk, drop, false};
ghost use Rattle.std.specs.Fmt.{decimal, digit_glyph, digits, signed_decimal};
ghost use Rattle.text_forms.specs.Numbers.{hexadecimal, octal};

use std::alloc::AllocError;

/// How many digits a number of 64 bits has at most.
const ROOM: usize = 64;

/// Bytes as they are.
///
/// # Errors
///
/// Out of memory, as of all that follow.
pub fn push_bytes(text: &mut Vec<u8>, more: &[u8]) -> Result<(), AllocError>
    ensures { OnOk result (text.new.items ≡ text.old.items ++ more.now) }
{
    text.extend_from_slice(more)
}

/// A number by its decimal digits.
pub fn push_decimal(text: &mut Vec<u8>, number: u64) -> Result<(), AllocError>
    ensures { OnOk result (text.new.items ≡ text.old.items ++ decimal number) }
{
    push_digits(text, 10, number)
}

/// A number by its hexadecimal digits, behind `0x`.
pub fn push_hexadecimal(text: &mut Vec<u8>, number: u64) -> Result<(), AllocError>
    ensures { OnOk result (text.new.items ≡ text.old.items ++ hexadecimal number) }
{
    text.extend_from_slice(b"0x")?;
    push_digits(text, 16, number)
}

/// A number by its octal digits, behind `0`.
pub fn push_octal(text: &mut Vec<u8>, number: u64) -> Result<(), AllocError>
    ensures { OnOk result (text.new.items ≡ text.old.items ++ octal number) }
{
    text.extend_from_slice(b"0")?;
    push_digits(text, 8, number)
}

/// The digits of a number in a base.
fn push_digits(text: &mut Vec<u8>, base: u64, number: u64) -> Result<(), AllocError>
    requires { (2 ≤ base) × (base ≤ 16) }
    ensures { OnOk result (text.new.items ≡ text.old.items ++ digits base false number) }
{
    let mut room = [0; ROOM];
    let start = put_digits(&mut room, base, number);
    text.extend_from_slice(&room[start..])
}

/// The digits of a number at the end of some room, and where they start.
fn put_digits(room: &mut [u8; ROOM], base: u64, number: u64) -> usize
    requires { (2 ≤ base) × (base ≤ 16) }
    ensures within { result ≤ ROOM }
    ensures written { drop result room.new ≡ digits base false number }
{
    let mut rest = number;
    for count in 0..ROOM {
        let place = ROOM - 1 - count;
        room[place] = glyph((rest % base) as u8);
        rest = rest / base;
        if rest == 0 {
            return place;
        }
    }
    0
}

/// The hexadecimal digit of a value.
pub fn glyph(value: u8) -> u8
    requires { value < 16 }
    ensures { result ≡ digit_glyph false value }
{
    if value < 10 {
        b'0' + value
    } else {
        b'a' - 10 + value
    }
}

/// A number by its decimal digits, with its sign where it is negative.
pub fn push_signed(text: &mut Vec<u8>, number: i32) -> Result<(), AllocError>
    ensures { OnOk result (text.new.items ≡ text.old.items ++ signed_decimal number) }
{
    if number < 0 {
        text.extend_from_slice(b"-")?;
    }
    push_decimal(text, number.unsigned_abs() as u64)
}
