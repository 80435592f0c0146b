//! The lines of a text, one after another, and the bytes that are held for them.
ghost use Rattle.std.specs.Prelude.{◌≡◌, ◌+◌, ◌-◌, ◌<◌, ◌≤◌, ◌^◌, ◌==◌, [], ◌++◌, ℕ, drop, length, take};
ghost use Rattle.std.specs.Prelude.{vec_len, IfOk, OnErr, OnOk};
ghost use Rattle.std.specs.Io.KnownBytes.{Consumes, IsAtEnd};
ghost use Rattle.std.specs.List.{after_first, position_or_len};
ghost use Rattle.std.specs.Option.{option_copied};
ghost use Rattle.byte_transfer.specs.Transfer.{Takes};
ghost use Rattle.text_lines.specs.Lines.{Gains, IsFeedFrom, ReadsAll, ReadsLine, first_line};

use byte_transfer::{Failed, Source, TextFault, read_on};
use std::alloc::{AllocError, Global};
use std::marker::Model;

/// The most bytes that one call reads.
const PIECE: usize = 65_536;

/// The bytes of a text that were taken from a reader and not used yet: whole lines, and what has
/// come of the next.
#[derive(Drop)]
pub struct TextLines {
    bytes: Vec<u8>,
    // So many of the first bytes were used.
    used: usize,
    // The place of the first line feed behind them, or how many bytes there are.
    end: usize,
    // What one call reads into: so many bytes as it may read, or none yet.
    piece: Vec<u8>,
}

impl Model for TextLines {
    ghost use Rattle.std.specs.Prelude.{ℕ, List, drop};
    ghost use Rattle.text_lines.specs.Lines.{IsFeedFrom};

    ghost Value = { List ℕ };

    ghost view = { λ t. drop t.used t.bytes.items };

    ghost invariant = { λ t. IsFeedFrom t.used t.bytes.items t.end };
}

impl TextLines {
    /// No byte is held.
    pub fn new(alloc: Global) -> Self
        ensures { result ≡ [] }
    {
        TextLines {
            bytes: Vec::new(alloc),
            used: 0,
            end: 0,
            piece: Vec::new(alloc),
        }
    }

    /// The first line, without its line feed, where it is held whole. Looks through no bytes.
    pub fn line(&self) -> Option<&[u8]>
        ensures { option_copied result ≡ first_line self.now }
    {
        if self.end == self.bytes.len() {
            return None;
        }
        Some(&self.bytes[self.used..self.end])
    }

    /// Passes over the first line and its line feed, or over all that is held, where that is no
    /// whole line. No byte is moved.
    pub fn pass(&mut self)
        ensures { self.new ≡ after_first (λ b. b == 10) self.old }
    {
        self.used = self.bytes.len().min(self.end + 1);
        self.end = self.used + feed_place(&self.bytes[self.used..]);
    }

    /// Takes more bytes, by one call of the reader, and tells whether it had any.
    ///
    /// # Errors
    ///
    /// Read where the reader fails, else Memory. What is held stays as it was.
    pub fn read_more<R: Source>(&mut self, alloc: Global, reader: &mut R) -> Result<bool, TextFault>
        requires { R.failures reader.old < 2 ^ 64 - 1 }
        ensures gains { IfOk result
            (λ some. Gains some self.old self.new (R.left reader.old) (R.left reader.new)) }
        ensures bound { length self.new < 2 ^ 63 }
        ensures err { OnErr result (self.new ≡ self.old) }
        ensures taken { Takes (R.left reader.old) (R.left reader.new) }
        ensures ok { OnOk result (R.failures reader.new ≡ R.failures reader.old) }
        ensures read { result ≡ Err TextFault.Read
            → R.failures reader.new ≡ R.failures reader.old + 1 }
        ensures memory { result ≡ Err TextFault.Memory
            → R.failures reader.new ≡ R.failures reader.old }
    {
        if self.used >= self.bytes.len() - self.used {
            self.let_go();
        }
        let count = read_piece(alloc, &mut self.piece, reader)?;
        if count == 0 {
            return Ok(false);
        }
        match add(&mut self.bytes, self.end, &self.piece[..count]) {
            Ok(end) => self.end = end,
            Err(AllocError) => return Err(TextFault::Memory),
        }
        Ok(true)
    }

    /// Takes more bytes until the first line is whole, and tells whether it is: none is where the
    /// reader is at its end.
    ///
    /// # Errors
    ///
    /// Read where the reader fails, else Memory. What is held is of use still.
    pub fn read_line<R: Source>(&mut self, alloc: Global, reader: &mut R) -> Result<bool, TextFault>
        requires { R.failures reader.old < 2 ^ 64 - 1 }
        ensures line { IfOk result
            (λ some. ReadsLine some self.old self.new (R.left reader.old) (R.left reader.new)) }
        ensures taken { Takes (R.left reader.old) (R.left reader.new) }
        ensures ok { OnOk result (R.failures reader.new ≡ R.failures reader.old) }
        ensures read { result ≡ Err TextFault.Read
            → R.failures reader.new ≡ R.failures reader.old + 1 }
        ensures memory { result ≡ Err TextFault.Memory
            → R.failures reader.new ≡ R.failures reader.old }
    {
        while self.line().is_none() {
            if !self.read_more(alloc, reader)? {
                return Ok(false);
            }
        }
        Ok(true)
    }

    /// The bytes that are held.
    pub fn rest(&self) -> &[u8]
        ensures { result.now ≡ self.now }
    {
        &self.bytes[self.used..]
    }

    /// All bytes that were not used, and those that the reader has left. The first failure ends the
    /// reading.
    ///
    /// # Errors
    ///
    /// Read where the reader fails, else Memory.
    pub fn into_rest<R: Source>(self, alloc: Global, reader: &mut R) -> Result<Vec<u8>, TextFault>
        requires { R.failures reader.old < 2 ^ 64 - 1 }
        ensures all { IfOk result
            (λ all. ReadsAll self (R.left reader.old) (R.left reader.new) all.items) }
        ensures taken { Takes (R.left reader.old) (R.left reader.new) }
        ensures ok { OnOk result (R.failures reader.new ≡ R.failures reader.old) }
        ensures read { result ≡ Err TextFault.Read
            → R.failures reader.new ≡ R.failures reader.old + 1 }
        ensures memory { result ≡ Err TextFault.Memory
            → R.failures reader.new ≡ R.failures reader.old }
    {
        let TextLines { bytes, used, .. } = self;
        let mut rest = bytes;
        drop_front(&mut rest, used);
        read_on(alloc, reader, rest, usize::MAX)
    }

    /// Lets go of the bytes that were used.
    fn let_go(&mut self)
        ensures { self.new ≡ self.old }
    {
        drop_front(&mut self.bytes, self.used);
        self.end -= self.used;
        self.used = 0;
    }
}

/// One call of the reader, which reads into a piece that is made where there is none, and how many
/// bytes it gave.
fn read_piece<R: Source>(
    alloc: Global,
    piece: &mut Vec<u8>,
    reader: &mut R,
) -> Result<usize, TextFault>
    requires { R.failures reader.old < 2 ^ 64 - 1 }
    ensures bound { IfOk result (λ count. count ≤ vec_len piece.new) }
    ensures bytes { IfOk result
        (λ count. Consumes (R.left reader.old) (R.left reader.new) (take count piece.new.items)) }
    ensures end { result ≡ Ok 0 → IsAtEnd (R.left reader.new) }
    ensures err { OnErr result (Consumes (R.left reader.old) (R.left reader.new) []) }
    ensures ok { OnOk result (R.failures reader.new ≡ R.failures reader.old) }
    ensures read { result ≡ Err TextFault.Read → R.failures reader.new ≡ R.failures reader.old + 1 }
    ensures memory { result ≡ Err TextFault.Memory → R.failures reader.new ≡ R.failures reader.old }
{
    if piece.is_empty() {
        let Ok(made) = vec![in alloc; 0; PIECE] else {
            return Err(TextFault::Memory);
        };
        *piece = made;
    }
    match reader.read_some(piece) {
        Ok(count) => Ok(count),
        Err(Failed) => Err(TextFault::Read),
    }
}

/// Moves what stands behind the first bytes to the front.
fn drop_front(bytes: &mut Vec<u8>, count: usize)
    requires { count ≤ vec_len bytes.old }
    ensures { bytes.new.items ≡ drop count bytes.old.items }
{
    bytes.copy_within(count.., 0);
    bytes.truncate(bytes.len() - count);
}

/// Adds a piece, and gives the place of the first line feed after it, from that before it.
fn add(bytes: &mut Vec<u8>, end: usize, piece: &[u8]) -> Result<usize, AllocError>
    requires { end ≤ vec_len bytes.old }
    ensures bytes { OnOk result (bytes.new.items ≡ bytes.old.items ++ piece.now) }
    ensures err { OnErr result (bytes.new.items ≡ bytes.old.items) }
    ensures end { (used : ℕ) → IsFeedFrom used bytes.old.items end
        → IfOk result (IsFeedFrom used bytes.new.items) }
{
    let held = bytes.len();
    bytes.extend_from_slice(piece)?;
    if end < held {
        return Ok(end);
    }
    Ok(end + feed_place(piece))
}

/// The place of the first line feed, or how many bytes there are.
fn feed_place(bytes: &[u8]) -> usize
    ensures { result ≡ position_or_len (λ b. b == 10) bytes.now }
{
    for (place, byte) in bytes.iter().enumerate() {
        if *byte == b'\n' {
            return place;
        }
    }
    bytes.len()
}
