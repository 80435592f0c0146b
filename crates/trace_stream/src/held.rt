//! Bytes that were taken from a reader and not used yet.
ghost use Rattle.std.specs.Prelude.{◌≡◌, ◌+◌, ◌-◌, ◌<◌, ◌≤◌, ◌^◌, drop, length, take};
ghost use Rattle.std.specs.Prelude.{IfOk, IfErr, OnOk};
ghost use Rattle.std.specs.Io.{StartsWith};
ghost use Rattle.std.specs.Io.KnownBytes.{Consumes, IsAtEnd};
ghost use Rattle.byte_transfer.specs.Transfer.{Takes};
ghost use Rattle.trace_format.specs.Blobs.{sliced};
ghost use Rattle.trace_stream.specs.Held.{Gains, IsOutside, failed};

use crate::fault::{StreamFault, no_memory};
use crate::lengths::{StartWalk, record_len};
use byte_transfer::{Failed, Source};
use std::alloc::{AllocError, Global};
use std::marker::Model;
use std::mem;
use std::sync::Arc;
use trace_format::{Text, TextSlice};

/// The most bytes that one call reads.
const PIECE: usize = 65_536;

/// The buffer that had the start is kept where it has room for so many bytes at most. Those of
/// records are kept whatever their room.
const KEPT: usize = 8_388_608;

/// Nothing is read behind so many bytes of a text: numbers of places have 64 bits.
const MOST: u64 = 4_611_686_018_427_387_904;

/// How many bytes may be read again for each that is taken, where a part may not be whole.
const AGAIN: u64 = 1;

/// What begins the bytes that are held.
#[derive(Clone, Copy)]
enum Part {
    /// The start of a trace, walked so far.
    Start(StartWalk),
    /// A record.
    Record,
}

/// How many bytes the largest record had, where this part had so many: the start is none.
fn largest_with(part: Part, largest: usize, count: usize) -> usize {
    match part {
        Part::Start(_) => largest,
        Part::Record => largest.max(count),
    }
}

/// A buffer with a copy of these bytes.
fn buffer_of(alloc: Global, bytes: &[u8]) -> Result<Text, AllocError>
    ensures { IfOk result (λ buffer. buffer.value.items ≡ bytes.now) }
{
    let mut copy = Vec::new(alloc);
    copy.extend_from_slice(bytes)?;
    Ok(Arc::new(alloc, copy)?)
}

/// Puts bytes over the first ones of a slice.
#[tactic(auto, using(crate::proofs::Ranges::starts_over))]
fn put_first(own: &mut [u8], bytes: &[u8])
    requires { length bytes.now ≤ length own.old }
    ensures starts { StartsWith own.new bytes.now }
    ensures long { length own.new ≡ length own.old }
{
    own[..bytes.len()].copy_from_slice(bytes);
}

/// Lets a buffer begin with these bytes. It is written over, or made anew where it is shared or too
/// small.
fn begin_with(alloc: Global, buffer: &mut Text, bytes: &[u8]) -> Result<(), AllocError>
    ensures { OnOk result (StartsWith buffer.new.value.items bytes.now) }
{
    let Some(own) = Arc::get_mut(buffer) else {
        *buffer = buffer_of(alloc, bytes)?;
        return Ok(());
    };
    if own.len() < bytes.len() {
        own.resize(bytes.len(), 0)?;
    }
    put_first(own, bytes);
    Ok(())
}

/// Reads a piece into a buffer, behind its first bytes, and tells how many came.
fn read_behind<R: Source>(
    reader: &mut R,
    buffer: &mut Text,
    end: usize,
) -> Result<usize, StreamFault>
    requires failures { R.failures reader.old < 2 ^ 64 - 1 }
    requires within { end ≤ length buffer.old.value.items }
    ensures kept { take end buffer.new.value.items ≡ take end buffer.old.value.items }
    ensures inside { end ≤ length buffer.new.value.items }
    ensures ok { IfOk result (λ count. (count ≤ 65536)
        × (end + count ≤ length buffer.new.value.items)
        × Consumes (R.left reader.old) (R.left reader.new)
        (take count (drop end buffer.new.value.items))
        × (count ≡ 0 → IsAtEnd (R.left reader.new))) }
    ensures err { IfErr result IsOutside }
    ensures taken { Takes (R.left reader.old) (R.left reader.new) }
    ensures failures { R.failures reader.new ≡ R.failures reader.old + failed result }
{
    let Ok(own) = Arc::make_mut(buffer) else {
        return Err(no_memory());
    };
    let room = end.saturating_add(PIECE);
    if own.len() < room && own.resize(room, 0).is_err() {
        return Err(no_memory());
    }
    match reader.read_some(&mut own[end..room]) {
        Ok(count) => Ok(count),
        Err(Failed) => Err(StreamFault::Read),
    }
}

/// The bytes of a text that were taken and not used yet, and where in the text they stand.
///
/// They lie in a buffer, which the records that are read from it share. Two buffers take turns: while
/// a record keeps one of them, what comes next is read into the other. So no memory is given back
/// and asked for again, where a record is let go before the one after the next is read.
#[derive(Drop)]
pub(crate) struct Held {
    buffer: Text,
    // The buffer that takes the next turn.
    spare: Text,
    // Whether the buffer had the start of the text.
    had_start: bool,
    // Where in the buffer the bytes begin, and where they end. What is behind them is room.
    used: usize,
    end: usize,
    place: u64,
    part: Part,
    // How many bytes the part has at least.
    least: usize,
    // How many bytes the largest record so far had.
    largest: usize,
    // How many bytes may be read again of one that may not be whole.
    credit: u64,
}

impl Model for Held {
    ghost use Rattle.std.specs.Prelude.{◌≤◌, ◌<◌, ◌+◌, ◌-◌, ◌^◌, drop, length, take};
    ghost use Rattle.trace_stream.specs.Held as meant;

    ghost Value = { meant.Held };

    ghost view = { λ h. record {
      rest = take (h.end - h.used) (drop h.used h.buffer.value.items);
      place = h.place;
    } };

    ghost invariant = { λ h. (h.used ≤ h.end)
        × (h.end ≤ length h.buffer.value.items)
        × (h.place + h.end < h.used + 2 ^ 63) };
}

impl Held {
    /// The first bytes of a text.
    pub(crate) fn new(alloc: Global, bytes: Vec<u8>) -> Result<Self, AllocError>
        ensures { IfOk result (λ held. held ≡ record { rest = bytes.items; place = 0 }) }
    {
        let end = bytes.len();
        Ok(Held {
            buffer: Arc::new(alloc, bytes)?,
            spare: Arc::new(alloc, Vec::new(alloc))?,
            had_start: true,
            used: 0,
            end,
            place: 0,
            part: Part::Start(StartWalk::new()),
            least: 0,
            largest: 0,
            credit: PIECE as u64,
        })
    }

    pub(crate) fn rest(&self) -> &[u8]
        ensures rest { result.now ≡ self.now.rest }
        ensures bound { self.now.place + length self.now.rest < 2 ^ 63 }
    {
        &self.buffer[self.used..self.end]
    }

    /// The same bytes, with the buffer that they lie in.
    pub(crate) fn slice(&self) -> TextSlice<'_>
        ensures rest { sliced result ≡ self.entry.now.rest }
        ensures bound { self.now.place + length self.now.rest < 2 ^ 63 }
    {
        TextSlice::of(&self.buffer, self.used, self.end - self.used)
    }

    pub(crate) fn place(&self) -> u64
        ensures { result ≡ self.now.place }
    {
        self.place
    }

    /// The first bytes were used.
    pub(crate) fn skip(&mut self, count: usize)
        requires { count ≤ length self.old.rest }
        ensures rest { self.new.rest ≡ drop count self.old.rest }
        ensures place { self.new.place ≡ self.old.place + count }
        ensures bound { self.new.place + length self.new.rest < 2 ^ 63 }
    {
        self.used += count;
        self.place += count as u64;
        self.largest = largest_with(self.part, self.largest, count);
        self.part = Part::Record;
        self.least = 0;
    }

    /// Lets go of the bytes that were used. Where a record shares the buffer, those that are left
    /// go into the spare one, which takes its turn. A large buffer that had the start is given
    /// back.
    pub(crate) fn let_go(&mut self, alloc: Global) -> Result<(), AllocError>
        ensures same { OnOk result (self.new ≡ self.old) }
        ensures bound { self.new.place + length self.new.rest < 2 ^ 63 }
    {
        if self.used == 0 {
            return Ok(());
        }
        if self.had_start && self.buffer.capacity() > KEPT {
            self.buffer = buffer_of(alloc, &self.buffer[self.used..self.end])?;
        } else if let Some(own) = Arc::get_mut(&mut self.buffer) {
            own.copy_within(self.used..self.end, 0);
        } else {
            begin_with(alloc, &mut self.spare, &self.buffer[self.used..self.end])?;
            mem::swap(&mut self.buffer, &mut self.spare);
        }
        self.had_start = false;
        self.end -= self.used;
        self.used = 0;
        Ok(())
    }

    /// Takes one piece more, and tells whether the reader had one.
    fn take_piece<R: Source>(&mut self, reader: &mut R) -> Result<bool, StreamFault>
        requires { R.failures reader.old < 2 ^ 64 - 1 }
        ensures ok { IfOk result
            (λ some. Gains some self.old self.new (R.left reader.old) (R.left reader.new)) }
        ensures err { IfErr result IsOutside }
        ensures taken { Takes (R.left reader.old) (R.left reader.new) }
        ensures failures { R.failures reader.new ≡ R.failures reader.old + failed result }
        ensures bound { self.new.place + length self.new.rest < 2 ^ 63 }
    {
        if self.place > MOST || (self.end - self.used) as u64 > MOST - self.place {
            return Err(no_memory());
        }
        let count = read_behind(reader, &mut self.buffer, self.end)?;
        self.end += count;
        self.credit = self.credit.saturating_add(AGAIN * count as u64);
        Ok(count != 0)
    }

    /// Whether a record may be whole that begins the bytes. Where there are as many as the largest one
    /// so far had, no lengths are looked at. So it is wrong about once for each record that is larger
    /// than those before it.
    pub(crate) fn may_be_whole(&mut self) -> bool
        ensures same { self.new ≡ self.old }
        ensures bound { self.new.place + length self.new.rest < 2 ^ 63 }
    {
        self.end - self.used >= self.largest || self.is_long_enough()
    }

    /// Whether the part may be whole, by the lengths in it that are there.
    fn is_long_enough(&mut self) -> bool
        ensures same { self.new ≡ self.old }
        ensures bound { self.new.place + length self.new.rest < 2 ^ 63 }
    {
        let rest = &self.buffer[self.used..self.end];
        if rest.len() < self.least {
            return false;
        }
        self.least = match &mut self.part {
            Part::Start(walk) => walk.len(rest),
            Part::Record => record_len(rest),
        };
        rest.len() >= self.least
    }

    /// Whether the bytes that are held may be read again: where they may be the whole part, and else
    /// at most once for each byte that was taken, and a piece more.
    fn may_try(&mut self) -> bool
        ensures same { self.new ≡ self.old }
        ensures bound { self.new.place + length self.new.rest < 2 ^ 63 }
    {
        if self.is_long_enough() {
            return true;
        }
        let cost = (self.end - self.used) as u64;
        if self.credit < cost {
            return false;
        }
        self.credit -= cost;
        true
    }

    /// Takes more bytes, until what is held may be read again, or those that the reader has left, and
    /// tells whether it had any. So what is read again and again takes linear time, and a part is
    /// read as soon as it is whole.
    pub(crate) fn take_on<R: Source>(
        &mut self,
        alloc: Global,
        reader: &mut R,
    ) -> Result<bool, StreamFault>
        requires { R.failures reader.old < 2 ^ 64 - 1 }
        ensures ok { IfOk result
            (λ some. Gains some self.old self.new (R.left reader.old) (R.left reader.new)) }
        ensures err { IfErr result IsOutside }
        ensures taken { Takes (R.left reader.old) (R.left reader.new) }
        ensures failures { R.failures reader.new ≡ R.failures reader.old + failed result }
        ensures bound { self.new.place + length self.new.rest < 2 ^ 63 }
    {
        if self.let_go(alloc).is_err() {
            return Err(no_memory());
        }
        let mut some = false;
        loop {
            if !self.take_piece(reader)? {
                return Ok(some);
            }
            some = true;
            if self.may_try() {
                return Ok(some);
            }
        }
    }
}
