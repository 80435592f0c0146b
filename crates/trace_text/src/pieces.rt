//! Bytes in pieces: long runs of one byte, and what is between them.
ghost use Rattle.std.specs.Prelude.{◌≡◌, ◌≢◌, ◌≤◌, ◌<◌, ◌+◌, ◌++◌, [], ℕ, IsTrue, OnOk};
ghost use Rattle.std.specs.Prelude.{drop, length, slice_index, take};
ghost use Rattle.text_forms.specs.Strings.{ended, least_run, most_plain, pieces, plain_pieces};
ghost use Rattle.text_forms.specs.Strings.{plain_text, run_text};

use crate::plain::{MOST_PLAIN, hidden_count, push_hex};
use crate::quoted::push_quoted;
use std::alloc::AllocError;
use text_forms::{push_bytes, push_decimal};

/// How many bytes a run has at least.
const LEAST_RUN: usize = 16;

/// How many bytes are looked at together.
const BLOCK: usize = 16;

/// Whether all bytes are one. Each is looked at, so that many are at once.
fn are_all(byte: u8, bytes: &[u8]) -> bool
    ensures { IsTrue result → (k : ℕ) → k < length bytes.now → slice_index bytes.now k ≡ byte }
{
    let mut all = true;
    for other in bytes {
        all = all & (*other == byte);
    }
    all
}

/// How many bytes from a place are known to be as the one there: a block, or this one.
fn alike(bytes: &[u8], at: usize) -> usize
    requires { at < length bytes.now }
    ensures some { 1 ≤ result }
    ensures within { at + result ≤ length bytes.now }
    ensures same { (k : ℕ) → k < result
        → slice_index bytes.now (at + k) ≡ slice_index bytes.now at }
{
    if bytes.len() - at >= BLOCK && are_all(bytes[at], &bytes[at..at + BLOCK]) {
        BLOCK
    } else {
        1
    }
}

/// Where the run that begins at a place ends.
fn run_end(bytes: &[u8], from: usize) -> usize
    requires { from < length bytes.now }
    ensures behind { from < result }
    ensures within { result ≤ length bytes.now }
    ensures same { (k : ℕ) → from ≤ k → k < result
        → slice_index bytes.now k ≡ slice_index bytes.now from }
    ensures other { result < length bytes.now
        → slice_index bytes.now result ≢ slice_index bytes.now from }
{
    let mut end = from + 1;
    while end < bytes.len() && bytes[end] == bytes[from] {
        end += alike(bytes, end);
    }
    end
}

/// The first plain piece: a string where at most one byte of four is hidden, else digits.
#[tactic(auto, using(std::proofs::lemmas::List::take_min))]
fn push_front(text: &mut Vec<u8>, bytes: &[u8]) -> Result<(), AllocError>
    ensures { OnOk result (text.new.items
        ≡ text.old.items ++ plain_text (take most_plain bytes.now)) }
{
    let count = MOST_PLAIN.min(bytes.len());
    if hidden_count(&bytes[..count]) <= count / 4 {
        push_quoted(text, bytes, count)
    } else {
        push_hex(text, &bytes[..count])
    }
}

/// The bytes behind the first plain piece.
#[tactic(auto, using(std::proofs::lemmas::List::drop_min))]
fn behind_front(bytes: &[u8]) -> &[u8]
    ensures { result.now ≡ drop most_plain bytes.now }
{
    bytes.split_at(MOST_PLAIN.min(bytes.len())).1
}

/// Plain pieces, each behind the same text.
fn push_plains(text: &mut Vec<u8>, before: &[u8], bytes: &[u8]) -> Result<(), AllocError>
    ensures { OnOk result (text.new.items ≡ text.old.items ++ plain_pieces before.now bytes.now) }
{
    let mut rest = bytes;
    for count in 0..bytes.len() {
        if rest.is_empty() {
            return Ok(());
        }
        text.extend_from_slice(before)?;
        push_front(text, rest)?;
        rest = behind_front(rest);
    }
    Ok(())
}

/// A run of one byte: the byte and how many there are.
fn push_run(text: &mut Vec<u8>, run: &[u8]) -> Result<(), AllocError>
    requires { 1 ≤ length run.now }
    ensures { OnOk result (text.new.items ≡ text.old.items ++ run_text run.now) }
{
    push_quoted(text, run, 1)?;
    push_bytes(text, b"*")?;
    push_decimal(text, run.len() as u64)
}

/// Plain bytes and a long run behind them.
fn push_ended(text: &mut Vec<u8>, before: &[u8], plain: &[u8], run: &[u8]) -> Result<(), AllocError>
    requires { least_run ≤ length run.now }
    ensures { OnOk result (text.new.items ≡ text.old.items ++ ended before.now plain.now run.now) }
{
    push_plains(text, before, plain)?;
    push_bytes(text, before)?;
    push_run(text, run)
}

/// Bytes in pieces, each behind the same text: long runs of one byte, and what is between them.
/// Where two bytes differ no run goes on, so most of them are not looked at one by one.
pub(crate) fn push_pieces(text: &mut Vec<u8>, before: &[u8], bytes: &[u8]) -> Result<(), AllocError>
    ensures { OnOk result (text.new.items ≡ text.old.items ++ pieces before.now [] [] bytes.now) }
{
    let mut start = 0;
    let mut run = 0;
    while bytes.len() - run >= LEAST_RUN {
        if bytes[run + 15] != bytes[run + 14] {
            run += 15;
            continue;
        }
        let end = run_end(bytes, run);
        if end - run >= LEAST_RUN {
            push_ended(text, before, &bytes[start..run], &bytes[run..end])?;
            start = end;
        }
        run = end;
    }
    push_plains(text, before, &bytes[start..])
}
