//! Readers and writers, and texts that are read from one or written to one.
ghost use Rattle.std.specs.Prelude.{◌≡◌, ℕ, ◌+◌, ◌-◌, ◌^◌, ◌<◌, ◌≤◌, if◌then◌else◌, is_ok, List};
ghost use Rattle.std.specs.Prelude.{Option, vec_len, IfOk, OnOk, OnErr};
ghost use Rattle.std.specs.Io.{ReadsAtMost, WritesAtMost};
ghost use Rattle.std.specs.Io.KnownBytes.{Appends, Consumes, IsAtEnd, ReadConsumes, WriteAppends};
ghost use Rattle.byte_transfer.specs.Transfer.{AppendsPart, ConsumesUpTo, GoesOn, took_some};

use std::alloc::Global;
use std::io::{Read, Write};

/// A call of a reader or a writer failed.
#[derive(Clone, Copy, Debug, PartialEq, Eq)]
pub struct Failed;

/// A reader.
pub trait Source {
    // The bytes that it has left, where it tells them.
    ghost left: { Self → Option (List ℕ) };
    // How many of its calls have failed.
    ghost failures: { Self → ℕ };

    /// Reads bytes into the front of the buffer and tells how many. As with read(2), 0 for a buffer
    /// with room is the end.
    fn read_some(&mut self, buffer: &mut [u8]) -> Result<usize, Failed>
        requires { failures self.old < 2 ^ 64 - 1 }
        ensures bound { ReadsAtMost result buffer.new }
        ensures bytes { ReadConsumes (left self.old) (left self.new) result buffer.new }
        ensures failures { failures self.new
            ≡ failures self.old + (if is_ok result then 0 else 1) };
}

/// A writer.
pub trait Sink {
    // The bytes that it holds, where it tells them.
    ghost written: { Self → Option (List ℕ) };
    // How many of its calls have failed. Writing no bytes is a failure.
    ghost failures: { Self → ℕ };

    /// Takes bytes from the front and tells how many. As with write(2), these may be fewer than
    /// all.
    fn write_some(&mut self, bytes: &[u8]) -> Result<usize, Failed>
        requires { failures self.old < 2 ^ 64 - 1 }
        ensures bound { WritesAtMost result bytes.now }
        ensures bytes { WriteAppends (written self.old) (written self.new) result bytes.now }
        ensures failures { failures self.new
            ≡ failures self.old + (if took_some result then 0 else 1) };
}

/// A reader or writer of std, with a count of its failures.
#[derive(Drop)]
pub struct FromStd<S> {
    pub stream: S,
    pub failures: u64,
}

impl<S> FromStd<S> {
    /// The stream, none of whose calls has failed so far.
    pub fn new(stream: S) -> Self
        ensures stream { result.stream ≡ stream }
        ensures failures { result.failures ≡ 0 }
    {
        FromStd {
            stream,
            failures: 0,
        }
    }
}

impl<R: Read> Source for FromStd<R> {
    ghost left = { λ s. R.remaining s.stream };

    ghost failures = { λ s. s.failures };

    fn read_some(&mut self, buffer: &mut [u8]) -> Result<usize, Failed> {
        match self.stream.read(buffer) {
            Ok(count) => Ok(count),
            Err(_) => {
                self.failures += 1;
                Err(Failed)
            }
        }
    }
}

impl<W: Write> Sink for FromStd<W> {
    ghost written = { λ s. W.contents s.stream };

    ghost failures = { λ s. s.failures };

    fn write_some(&mut self, bytes: &[u8]) -> Result<usize, Failed> {
        match self.stream.write(bytes) {
            Ok(0) => {
                self.failures += 1;
                Ok(0)
            }
            Ok(count) => Ok(count),
            Err(_) => {
                self.failures += 1;
                Err(Failed)
            }
        }
    }
}

/// The most bytes that are taken from a reader: one more than a trace may have.
pub const MOST_BYTES: usize = 1_073_741_825;

/// The most bytes that one call reads.
const PIECE: usize = 65_536;

/// Why a text was not read whole.
#[derive(Clone, Copy, Debug, PartialEq, Eq)]
pub enum TextFault {
    Read,
    Memory,
}

/// The text, and behind it what the reader has left, up to `most` bytes in all. The first failure
/// ends the reading.
pub fn read_on<S: Source>(
    alloc: Global,
    source: &mut S,
    text: Vec<u8>,
    most: usize,
) -> Result<Vec<u8>, TextFault>
    requires failures { S.failures source.old < 2 ^ 64 - 1 }
    requires room { vec_len text ≤ most }
    ensures text { IfOk result
        (λ all. GoesOn text.items (S.left source.old) (S.left source.new) all.items) }
    ensures taken { ConsumesUpTo (most - vec_len text) (S.left source.old) (S.left source.new) }
    ensures bound { IfOk result (λ all. vec_len all ≤ most) }
    ensures end { IfOk result (λ all. vec_len all < most → IsAtEnd (S.left source.new)) }
    ensures ok { OnOk result (S.failures source.new ≡ S.failures source.old) }
    ensures read { result ≡ Err TextFault.Read → S.failures source.new ≡ S.failures source.old + 1 }
    ensures memory { result ≡ Err TextFault.Memory → S.failures source.new ≡ S.failures source.old }
{
    let mut text = text;
    let mut piece = [0; PIECE];
    while text.len() < most {
        let room = PIECE.min(most - text.len());
        match source.read_some(&mut piece[..room]) {
            Ok(0) => return Ok(text),
            Ok(count) => {
                if text.extend_from_slice(&piece[..count]).is_err() {
                    return Err(TextFault::Memory);
                }
            }
            Err(Failed) => return Err(TextFault::Read),
        }
    }
    Ok(text)
}

/// All that the reader has left, or its first `MOST_BYTES` bytes. The first failure ends the
/// reading.
pub fn read_text<S: Source>(alloc: Global, source: &mut S) -> Result<Vec<u8>, TextFault>
    requires { S.failures source.old < 2 ^ 64 - 1 }
    ensures text { IfOk result
        (λ text. Consumes (S.left source.old) (S.left source.new) text.items) }
    ensures taken { ConsumesUpTo MOST_BYTES (S.left source.old) (S.left source.new) }
    ensures bound { IfOk result (λ text. vec_len text ≤ MOST_BYTES) }
    ensures end { IfOk result (λ text. vec_len text < MOST_BYTES → IsAtEnd (S.left source.new)) }
    ensures ok { OnOk result (S.failures source.new ≡ S.failures source.old) }
    ensures read { result ≡ Err TextFault.Read → S.failures source.new ≡ S.failures source.old + 1 }
    ensures memory { result ≡ Err TextFault.Memory → S.failures source.new ≡ S.failures source.old }
{
    read_on(alloc, source, Vec::new(alloc), MOST_BYTES)
}

/// Writes all of the bytes, or stops at the first failure.
pub fn write_text<K: Sink>(sink: &mut K, bytes: &[u8]) -> Result<(), Failed>
    requires { K.failures sink.old < 2 ^ 64 - 1 }
    ensures whole { OnOk result (Appends (K.written sink.old) (K.written sink.new) bytes.now) }
    ensures part { OnErr result (AppendsPart (K.written sink.old) (K.written sink.new) bytes.now) }
    ensures ok { OnOk result (K.failures sink.new ≡ K.failures sink.old) }
    ensures err { OnErr result (K.failures sink.new ≡ K.failures sink.old + 1) }
{
    let mut done = 0;
    while done < bytes.len() {
        match sink.write_some(&bytes[done..]) {
            Ok(0) => return Err(Failed),
            Ok(count) => done += count,
            Err(Failed) => return Err(Failed),
        }
    }
    Ok(())
}
