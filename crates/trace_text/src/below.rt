//! A text of differences, with the entries that its lines are of.
ghost use Rattle.std.specs.Prelude.{◌≡◌, ◌==◌, ◌++◌, ◌+◌, ◌*◌, ◌^◌, ◌<◌, ◌≤◌, ◌↔◌, ℕ, IfOk, IfSome, IsTrue};
ghost use Rattle.std.specs.Prelude.{List, OnOk, Some, length, slice_index};
ghost use Rattle.std.specs.List.{before_first, position_or_len, slice_split};
ghost use Rattle.std.specs.Option.{SomeIff};
ghost use Rattle.std.specs.Fmt.{decimal};
ghost use Rattle.trace_format.specs.Steps.{action_meant};
ghost use Rattle.trace_text.specs.Below.{action_line, differs, entry_lines, line_at};
ghost use Rattle.trace_text.specs.Below.{line_with_entry, named_line, texts, told_word};
ghost use Rattle.trace_text.specs.Below.{with_entries, with_lines};

use crate::entry::push_words;
use crate::look::Look;
use std::alloc::{AllocError, Global};
use text_forms::push_bytes;
use trace_format::{Action, Trace};

/// How an entry is shown below a line: in one line.
pub const BRIEF: Look = Look {
    places: false,
    first: Some(32),
};

/// What has places, by their numbers from 0 on, of which some have a line.
pub trait Placed {
    // The lines of all places, in order.
    ghost lines: { Self → List (List ℕ) };

    /// How many places there are.
    fn count(&self) -> usize
        ensures { result ≡ length (lines self.now) };

    /// Adds the line of a place to a text.
    ///
    /// # Errors
    ///
    /// Out of memory.
    fn push_line(&self, text: &mut Vec<u8>, place: usize) -> Result<(), AllocError>
        requires { place < length (lines self.now) }
        ensures { OnOk result (text.new.items
            ≡ text.old.items ++ line_at (lines self.now) place) };
}

/// The lines of a text.
fn lines(alloc: Global, text: &[u8]) -> Result<Vec<&[u8]>, AllocError>
    ensures { IfOk result (λ parts. texts parts.items ≡ slice_split (λ b. b == 10) text.now) }
{
    text.split(|byte| *byte == b'\n').collect(alloc)
}

/// The place of the first space, or the length.
fn first_space(bytes: &[u8]) -> usize
    ensures place { result ≡ position_or_len (λ b. b == 32) bytes.now }
    ensures bound { result ≤ length bytes.now }
{
    for (place, byte) in bytes.iter().enumerate() {
        if *byte == b' ' {
            return place;
        }
    }
    bytes.len()
}

fn first_word(bytes: &[u8]) -> &[u8]
    ensures { result.now ≡ before_first (λ b. b == 32) bytes.now }
{
    &bytes[..first_space(bytes)]
}

/// Whether a line is one that differs.
fn differs(line: &[u8]) -> bool
    ensures { result ≡ differs line.now }
{
    line.len() >= 2 && (&line[..2] == b"- ".as_slice() || &line[..2] == b"+ ".as_slice())
}

/// The first word of what differs.
fn told_word(line: &[u8]) -> &[u8]
    ensures { result.now ≡ told_word line.now }
{
    if differs(line) {
        first_word(&line[2..])
    } else {
        &line[..0]
    }
}

fn is_digit(byte: u8) -> bool
    ensures { IsTrue result ↔ (48 ≤ byte) × (byte ≤ 57) }
{
    byte >= b'0' && byte <= b'9'
}

/// Whether a word has a first byte, which is 0 only where it is alone.
fn begins(word: &[u8]) -> bool
    ensures { IsTrue result ↔ (0 < length word.now)
        × (slice_index word.now 0 ≡ 48 → length word.now ≡ 1) }
{
    match word {
        [] => false,
        [first, ..] => *first != b'0' || word.len() == 1,
    }
}

/// A number with a digit behind it, where that is one of 64 bits.
fn with_digit(number: usize, digit: u8) -> Option<usize>
    ensures { SomeIff result (number * 10 + digit < 2 ^ 64) (number * 10 + digit) }
{
    number.checked_mul(10)?.checked_add(digit as usize)
}

/// The number that a word is in decimal digits, where it is one of 64 bits.
fn number_of(word: &[u8]) -> Option<usize>
    ensures number { IfSome result (λ number. word.now ≡ decimal number) }
    ensures all { (number : ℕ) → number < 2 ^ 64 → word.now ≡ decimal number
        → result ≡ Some number }
{
    if !begins(word) {
        return None;
    }
    let mut number = 0;
    for byte in word {
        if !is_digit(*byte) {
            return None;
        }
        number = with_digit(number, *byte - b'0')?;
    }
    Some(number)
}

/// The line of the place that a word is.
fn push_named<T: Placed>(text: &mut Vec<u8>, trace: &T, word: &[u8]) -> Result<(), AllocError>
    ensures { OnOk result (text.new.items
        ≡ text.old.items ++ named_line (T.lines trace.now) word.now) }
{
    let places = trace.count();
    let Some(place) = number_of(word) else {
        return Ok(());
    };
    if place >= places {
        return Ok(());
    }
    trace.push_line(text, place)
}

/// A line, and below it the entry that it is of.
#[tactic(auto, unfolding(crate::specs::Below::line_with_entry))]
fn push_with_entry<T: Placed>(text: &mut Vec<u8>, trace: &T, line: &[u8]) -> Result<(), AllocError>
    ensures { OnOk result (text.new.items
        ≡ text.old.items ++ line_with_entry (T.lines trace.now) line.now) }
{
    if line.is_empty() {
        return Ok(());
    }
    push_bytes(text, line)?;
    push_bytes(text, b"\n")?;
    push_named(text, trace, told_word(line))
}

/// The text of a comparison of two reports, with the line of a place below each line that differs
/// and is of that place. It takes time linear in the text and the lines that are added.
///
/// # Errors
///
/// Out of memory.
#[tactic(auto, unfolding(crate::specs::Below::with_lines))]
pub fn with_lines<T: Placed>(alloc: Global, trace: &T, text: &[u8]) -> Result<Vec<u8>, AllocError>
    ensures { IfOk result
        (λ shown. shown.items ≡ with_lines (T.lines trace.now) text.now) }
{
    let mut shown = Vec::new(alloc);
    for line in lines(alloc, text)?.as_slice() {
        push_with_entry(&mut shown, trace, line)?;
    }
    Ok(shown)
}

/// The line of a step.
fn push_action(text: &mut Vec<u8>, action: &Action<'_>) -> Result<(), AllocError>
    ensures { OnOk result (text.new.items
        ≡ text.old.items ++ action_line (action_meant action.now)) }
{
    match action {
        Action::Submit(entry) => push_words(text, BRIEF, &entry.sqe(), entry.side()),
        Action::Fill {
            buffer: _,
            offset: _,
            bytes: _,
        } => Ok(()),
    }
}

impl Placed for Trace {
    ghost lines = { entry_lines };

    fn count(&self) -> usize {
        self.places() as usize
    }

    fn push_line(&self, text: &mut Vec<u8>, place: usize) -> Result<(), AllocError> {
        // The trace counts its steps, so there are few enough for the numbers of their places.
        let _places = self.places();
        push_action(text, &self.step(place as u32).action)
    }
}

/// The text of a comparison of two reports, with the entry below each line that differs and is of
/// one of the trace: as `show` writes it, in one line of the first 32 bytes.
///
/// # Errors
///
/// Out of memory.
pub fn with_entries(alloc: Global, trace: &Trace, text: &[u8]) -> Result<Vec<u8>, AllocError>
    ensures { IfOk result (λ shown. shown.items ≡ with_entries trace.now text.now) }
{
    with_lines(alloc, trace, text)
}
