//! Numbers.
ghost use Rattle.std.specs.Prelude.{◌≡◌, ◌≤◌, ◌<◌, IfOk, IfSome, MatchOption};
ghost use Rattle.text_words.specs.Numbers.{are_digits, count_at, decimal_of, digit_value, digits_of};
ghost use Rattle.text_words.specs.Numbers.{flag_of, greatest, more_parts, named, negative_of, no_number};
ghost use Rattle.text_words.specs.Numbers.{number, number_at, number_in, part_of, parts_of};
ghost use Rattle.text_words.specs.Numbers.{plain_of, value_of};
ghost use Rattle.text_words.specs.Read.{Gives, word_of};

use crate::fault::{ReadError, Reason, refused};
use crate::source::{Word, behind, part_at};
use trace_text::{FlagSet, flag_name};

/// What a number may be beside its digits.
#[derive(Clone, Copy)]
pub enum Style {
    /// Nothing else.
    Plain,
    /// `AT_FDCWD`.
    Descriptor,
    /// Flags by their names.
    Flags(FlagSet),
}

/// The greatest number of so many bits.
fn greatest(bits: u8) -> u64
    ensures { result ≡ greatest bits }
{
    match bits {
        8 => 255,
        16 => 65_535,
        32 => 4_294_967_295,
        _ => u64::MAX,
    }
}

/// The value of a digit, and more than any where it is none.
pub(crate) fn digit_value(byte: u8) -> u8
    ensures { result ≡ digit_value byte }
{
    if byte >= b'0' && byte <= b'9' {
        byte - b'0'
    } else if byte >= b'a' && byte <= b'f' {
        byte - b'a' + 10
    } else {
        255
    }
}

/// Whether there are digits of a base, and nothing else.
fn are_digits(base: u8, digits: &[u8]) -> bool
    ensures { result ≡ are_digits base digits.now }
{
    for digit in digits {
        if digit_value(*digit) >= base {
            return false;
        }
    }
    !digits.is_empty()
}

/// The value of digits, where it is not above the last one.
fn value_of(base: u8, digits: &[u8], last: u64) -> Option<u64>
    requires { (2 ≤ base) × (base ≤ 16) }
    ensures { MatchOption result (last < value_of base digits.now)
        (λ n. (n ≡ value_of base digits.now) × (n ≤ last)) }
{
    let base = base as u64;
    let mut value: u64 = 0;
    for byte in digits {
        let digit = digit_value(*byte) as u64;
        let next = value.checked_mul(base)?.checked_add(digit)?;
        if next > last {
            return None;
        }
        value = next;
    }
    Some(value)
}

/// The number that decimal digits are, where it is not above the last one.
pub fn decimal_of(digits: &[u8], last: u64) -> Option<u64>
    ensures read { result ≡ decimal_of digits.now last }
    ensures within { IfSome result (λ n. n ≤ last) }
{
    if are_digits(10, digits) {
        value_of(10, digits, last)
    } else {
        None
    }
}

/// The number that digits of a base are.
#[tactic(auto, unfolding(crate::specs::Numbers::digits_of))]
fn digits_of(base: u8, digits: &[u8], bits: u8, why: Reason) -> Result<u64, Reason>
    requires { (2 ≤ base) × (base ≤ 16) }
    ensures { result ≡ digits_of base digits.now bits why }
{
    if !are_digits(base, digits) {
        return Err(why);
    }
    match value_of(base, digits, greatest(bits)) {
        Some(number) => Ok(number),
        None => Err(Reason::Bits(bits)),
    }
}

/// A number by its digits: decimal, hexadecimal behind `0x`, octal behind `0`.
#[tactic(auto, unfolding(crate::specs::Numbers::plain_of))]
fn plain_of(word: &[u8], bits: u8, why: Reason) -> Result<u64, Reason>
    ensures { result ≡ plain_of word.now bits why }
{
    if word.starts_with(b"0x") {
        digits_of(16, &word[2..], bits, why)
    } else if word.len() > 1 && word[0] == b'0' {
        digits_of(8, &word[1..], bits, why)
    } else {
        digits_of(10, word, bits, why)
    }
}

/// The bit that a name of a set stands for.
#[tactic(auto, unfolding(crate::specs::Numbers::flag_of))]
fn flag_of(set: FlagSet, word: &[u8]) -> Option<u64>
    ensures { result ≡ flag_of set word.now }
{
    if word.is_empty() {
        return None;
    }
    for bit in 0..32 {
        if flag_name(set, bit).as_bytes() == word {
            return Some(1 << bit);
        }
    }
    None
}

/// The number that a name stands for, where the style has it.
fn named(style: Style, word: &[u8]) -> Option<u64>
    ensures { result ≡ named style word.now }
{
    match style {
        Style::Plain => None,
        Style::Descriptor => {
            if word == b"AT_FDCWD".as_slice() {
                Some(4_294_967_196)
            } else {
                None
            }
        }
        Style::Flags(set) => flag_of(set, word),
    }
}

/// A name or digits.
#[tactic(auto, unfolding(crate::specs::Numbers::part_of))]
fn part_of(style: Style, word: &[u8], bits: u8) -> Result<u64, Reason>
    ensures { result ≡ part_of style word.now bits }
{
    match named(style, word) {
        Some(number) => Ok(number),
        None => plain_of(word, bits, no_number(style)),
    }
}

/// Why a word is no number of a style.
fn no_number(style: Style) -> Reason
    ensures { result ≡ no_number style }
{
    match style {
        Style::Flags(_) => Reason::Flag,
        _ => Reason::Number,
    }
}

/// One part more, no bit of which stands in those before.
#[tactic(auto, unfolding(crate::specs::Numbers::more_parts))]
fn more_parts(style: Style, bits: u8, total: u64, part: &[u8]) -> Result<u64, Reason>
    ensures { result ≡ more_parts style bits total part.now }
{
    let number = part_of(style, part, bits)?;
    if total & number != 0 {
        return Err(Reason::FlagTwice);
    }
    Ok(total | number)
}

/// Parts with bars between them.
#[tactic(auto, unfolding(crate::specs::Numbers::parts_of))]
fn parts_of(style: Style, word: &[u8], bits: u8) -> Result<u64, Reason>
    ensures { result ≡ parts_of style word.now bits }
{
    let mut total = 0;
    let mut rest = word;
    for _ in 0..word.len() {
        let part = part_at(b'|', rest);
        if part.len() == rest.len() {
            break;
        }
        total = more_parts(style, bits, total, part)?;
        rest = behind(rest, part.len() + 1);
    }
    more_parts(style, bits, total, rest)
}

/// A number below zero: that much below what its bits have room for.
#[tactic(auto, unfolding(crate::specs::Numbers::negative_of))]
fn negative_of(digits: &[u8], bits: u8) -> Result<u64, Reason>
    ensures { result ≡ negative_of digits.now bits }
{
    if digits.starts_with(b"0") {
        return Err(Reason::Number);
    }
    let number = digits_of(10, digits, bits, Reason::Number)?;
    let last = greatest(bits);
    if number == 0 || number > last / 2 + 1 {
        return Err(Reason::Bits(bits));
    }
    Ok(last - (number - 1))
}

/// The number that a word is, of so many bits.
#[tactic(auto, unfolding(crate::specs::Numbers::number_in))]
pub fn number_in(style: Style, word: &[u8], bits: u8) -> Result<u64, Reason>
    ensures { result ≡ number_in style word.now bits }
{
    if word.starts_with(b"-") {
        negative_of(&word[1..], bits)
    } else {
        parts_of(style, word, bits)
    }
}

/// The same, told at its place where it is none.
///
/// # Errors
///
/// The fault of the word, as of all that follow.
#[tactic(auto, unfolding(crate::specs::Numbers::number_at))]
pub fn number_at(style: Style, bits: u8, word: Word<'_>) -> Result<u64, ReadError>
    ensures read { Gives (λ n. n) result (number_at style bits (word_of word.entry)) }
    ensures within { IfOk result (λ n. n ≤ greatest bits) }
{
    match number_in(style, word.bytes, bits) {
        Ok(number) if number <= greatest(bits) => Ok(number),
        Ok(_) => Err(refused(Reason::Bits(bits), word.left)),
        Err(reason) => Err(refused(reason, word.left)),
    }
}

/// A number of 8 bits.
pub fn u8_at(word: Word<'_>) -> Result<u8, ReadError>
    ensures { Gives (λ n. n) result (number 8 (word_of word.entry)) }
{
    Ok(number_at(Style::Plain, 8, word)? as u8)
}

/// A number of 16 bits.
pub fn u16_at(word: Word<'_>) -> Result<u16, ReadError>
    ensures { Gives (λ n. n) result (number 16 (word_of word.entry)) }
{
    Ok(number_at(Style::Plain, 16, word)? as u16)
}

/// A number of 32 bits.
pub fn u32_at(word: Word<'_>) -> Result<u32, ReadError>
    ensures { Gives (λ n. n) result (number 32 (word_of word.entry)) }
{
    Ok(number_at(Style::Plain, 32, word)? as u32)
}

/// A number of 64 bits.
pub fn u64_at(word: Word<'_>) -> Result<u64, ReadError>
    ensures { Gives (λ n. n) result (number 64 (word_of word.entry)) }
{
    number_at(Style::Plain, 64, word)
}

/// The count behind a star: from 1 on.
#[tactic(auto, unfolding(crate::specs::Numbers::count_at))]
pub fn count_at(word: Word<'_>) -> Result<u64, ReadError>
    ensures { Gives (λ n. n) result (count_at (word_of word.entry)) }
{
    if word.bytes.starts_with(b"0") || !are_digits(10, word.bytes) {
        return Err(refused(Reason::Count, word.left));
    }
    match value_of(10, word.bytes, u64::MAX) {
        Some(count) => Ok(count),
        None => Err(refused(Reason::Bits(64), word.left)),
    }
}
