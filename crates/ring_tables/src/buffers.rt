//! The registered buffers of rings.
ghost use Rattle.std.specs.Prelude.{◌≡◌, ◌+◌, ◌-◌, ◌≤◌, ◌↔◌, IfOk, IfSome};
ghost use Rattle.std.specs.Prelude.{IsTrue, OnErr, OnOk, length, replicate};
ghost use Rattle.std.specs.Option.{option_map};
ghost use Rattle.extent_bytes.specs.Bytes.{overlaid, overwritten, range_of, zeroed};
ghost use Rattle.finite_maps.specs.Table.{empty, get, insert, pair_keys};
ghost use Rattle.ring_tables.specs.Contents.{bytes_at, rewritten_at};
ghost use Rattle.trace_format.specs.Blobs.{sliced};

use extent_bytes::{Extents, MAX_LEN};
use std::alloc::{AllocError, Global};
use std::collections::BTreeMap;
use std::collections::btree_map::Iter;
use std::marker::Model;
use trace_format::TextSlice;

/// The bytes of the registered buffers of rings, by ring and index, as io_uring_register(2) numbers
/// them. Bytes that were never written are zeros and take no memory.
///
/// A call that answers [`AllocError`] leaves the buffers as they were.
#[derive(Drop)]
pub struct Buffers {
    entries: BTreeMap<(u32, u32), Extents>,
    alloc: Global,
}

impl Model for Buffers {
    ghost use Rattle.std.specs.Prelude.{ℕ, List};
    ghost use Rattle.std.specs.Coded.{coded_ℕ, coded_list, coded×};
    ghost use Rattle.finite_maps.specs.Table.{Table, code, pair_cmp, pair_keys};
    ghost use Rattle.finite_maps.specs.Maps.{table_of};

    ghost Value = { Table pair_cmp (List ℕ) };

    ghost coded = { code (coded× coded_ℕ coded_ℕ) (coded_list coded_ℕ) };

    ghost view = { λ b. table_of pair_keys.total b.entries.entries };
}

impl Buffers {
    /// No buffers.
    pub fn new(alloc: Global) -> Self
        ensures { result ≡ empty }
    {
        Buffers {
            entries: BTreeMap::new(alloc),
            alloc,
        }
    }

    /// Adds a buffer of zeros, `len` bytes long, in place of the one that was there.
    pub fn add(&mut self, ring: u32, index: u32, len: u32) -> Result<(), AllocError>
        ensures ok { OnOk result
            (self.new ≡ insert pair_keys.total self.old (ring, index) (replicate len 0)) }
        ensures err { OnErr result (self.new ≡ self.old) }
    {
        self.add_zeros(ring, index, len as u64)
    }

    /// Adds a buffer of zeros, `len` bytes long, which may be more than a ring registers, in place
    /// of the one that was there.
    pub fn add_zeros(&mut self, ring: u32, index: u32, len: u64) -> Result<(), AllocError>
        requires { len ≤ MAX_LEN }
        ensures ok { OnOk result
            (self.new ≡ insert pair_keys.total self.old (ring, index) (replicate len 0)) }
        ensures err { OnErr result (self.new ≡ self.old) }
    {
        let mut buffer = Extents::new(self.alloc);
        buffer.set_len(len)?;
        self.entries.insert((ring, index), buffer)?;
        Ok(())
    }

    /// The length of a buffer in bytes, at most 2^40.
    pub fn len(&self, ring: u32, index: u32) -> Option<u64>
        ensures value { result ≡ option_map length (get self.now (ring, index)) }
        ensures bound { IfSome result (λ len. len ≤ MAX_LEN) }
    {
        self.entries.get(&(ring, index)).map(|buffer| buffer.len())
    }

    /// The bytes of a buffer from `lo` up to `hi`, a range within it. A buffer that isn't there has
    /// none.
    pub fn read(&self, ring: u32, index: u32, lo: u64, hi: u64) -> Result<Vec<u8>, AllocError>
        requires forward { lo ≤ hi }
        requires inside { hi ≤ length (bytes_at self.now ring index) }
        ensures { IfOk result
            (λ bytes. bytes.items ≡ range_of (bytes_at self.now ring index) lo hi) }
    {
        match self.entries.get(&(ring, index)) {
            Some(buffer) => buffer.read(lo, hi),
            None => Ok(Vec::new(self.alloc)),
        }
    }

    /// Writes bytes over those of a buffer from `at` on. Those beyond its length are dropped, and
    /// where there is no buffer nothing changes.
    pub fn write(&mut self, ring: u32, index: u32, at: u64, bytes: &[u8]) -> Result<(), AllocError>
        ensures ok { OnOk result
            (self.new ≡ rewritten_at (λ old. overlaid old at bytes.now) self.old ring index) }
        ensures err { OnErr result (self.new ≡ self.old) }
    {
        let Some(buffer) = self.entries.get_mut(&(ring, index)) else {
            return Ok(());
        };
        let room = buffer.len().saturating_sub(at);
        if room == 0 {
            return Ok(());
        }
        let count = bytes.len().min(room as usize);
        buffer.write(at, &bytes[..count])
    }

    /// Writes bytes of a text over those of a buffer from `at` on, as [`Buffers::write`] does. Whole
    /// pages share the text.
    pub fn write_text(
        &mut self,
        ring: u32,
        index: u32,
        at: u64,
        bytes: TextSlice<'_>,
    ) -> Result<(), AllocError>
        ensures ok { OnOk result (self.new
            ≡ rewritten_at (λ old. overlaid old at (sliced bytes.entry)) self.old ring index) }
        ensures err { OnErr result (self.new ≡ self.old) }
    {
        let Some(buffer) = self.entries.get_mut(&(ring, index)) else {
            return Ok(());
        };
        let room = buffer.len().saturating_sub(at);
        if room == 0 {
            return Ok(());
        }
        let count = bytes.len().min(room as usize);
        let part = Extents::of_text(self.alloc, bytes.text, bytes.from, count, at)?;
        buffer.put_back(at, part)
    }

    /// The bytes of a buffer from `lo` up to `hi` as a list of its own, which shares their memory.
    pub fn share(&self, ring: u32, index: u32, lo: u64, hi: u64) -> Result<Extents, AllocError>
        requires forward { lo ≤ hi }
        requires inside { hi ≤ length (bytes_at self.now ring index) }
        ensures { IfOk result (λ part. part ≡ range_of (bytes_at self.now ring index) lo hi) }
    {
        match self.entries.get(&(ring, index)) {
            Some(buffer) => buffer.share(lo, hi),
            None => Ok(Extents::new(self.alloc)),
        }
    }

    /// Makes the bytes of a buffer from `lo` up to `hi` zeros, as far as it has them. Where there
    /// is no buffer nothing changes.
    pub fn zero(&mut self, ring: u32, index: u32, lo: u64, hi: u64) -> Result<(), AllocError>
        ensures ok { OnOk result (self.new
            ≡ rewritten_at (λ old. overlaid old lo (replicate (hi - lo) 0)) self.old ring index) }
        ensures err { OnErr result (self.new ≡ self.old) }
    {
        let Some(buffer) = self.entries.get_mut(&(ring, index)) else {
            return Ok(());
        };
        let end = hi.min(buffer.len());
        let start = lo.min(end);
        buffer.zero(start, end)
    }

    /// Takes the bytes of a buffer from `lo` up to `hi` out as a list of its own, and leaves zeros
    /// there.
    pub fn cut(&mut self, ring: u32, index: u32, lo: u64, hi: u64) -> Result<Extents, AllocError>
        requires forward { lo ≤ hi }
        requires inside { hi ≤ length (bytes_at self.old ring index) }
        ensures part { IfOk result (λ part. part ≡ range_of (bytes_at self.old ring index) lo hi) }
        ensures rest { OnOk result
            (self.new ≡ rewritten_at (λ old. zeroed old lo hi) self.old ring index) }
        ensures err { OnErr result (self.new ≡ self.old) }
    {
        let Some(buffer) = self.entries.get_mut(&(ring, index)) else {
            return Ok(Extents::new(self.alloc));
        };
        buffer.cut(lo, hi)
    }

    /// Puts the bytes of `part` in place of those of a buffer from `lo` on. They end within it.
    pub fn put_back(
        &mut self,
        ring: u32,
        index: u32,
        lo: u64,
        part: Extents,
    ) -> Result<(), AllocError>
        requires { lo + length part ≤ length (bytes_at self.old ring index) }
        ensures ok { OnOk result
            (self.new ≡ rewritten_at (λ old. overwritten old lo part) self.old ring index) }
        ensures err { OnErr result (self.new ≡ self.old) }
    {
        let Some(buffer) = self.entries.get_mut(&(ring, index)) else {
            return Ok(());
        };
        buffer.put_back(lo, part)
    }

    /// Puts the bytes of another table's buffer from `lo` up to `hi` in place of those of the buffer
    /// of the same ring and index. Where there is no such buffer nothing changes.
    pub fn copy_range(
        &mut self,
        source: &Buffers,
        ring: u32,
        index: u32,
        lo: u64,
        hi: u64,
    ) -> Result<(), AllocError>
        requires forward { lo ≤ hi }
        requires there { hi ≤ length (bytes_at source.now ring index) }
        requires inside { hi ≤ length (bytes_at self.old ring index) }
        ensures ok { OnOk result (self.new ≡ rewritten_at (λ old. overwritten
            old lo (range_of (bytes_at source.now ring index) lo hi)) self.old ring index) }
        ensures err { OnErr result (self.new ≡ self.old) }
    {
        let Some(bytes) = source.entries.get(&(ring, index)) else {
            return Ok(());
        };
        let Some(buffer) = self.entries.get_mut(&(ring, index)) else {
            return Ok(());
        };
        buffer.copy_range(bytes, lo, hi)
    }

    /// The buffers in the order of ring and index.
    #[tactic(auto, using(crate::proofs::Looked::held))]
    pub fn iter(&self) -> Iter<'_, (u32, u32), Extents>
        ensures { result ≡ self.now.entries }
    {
        self.entries.iter()
    }

    /// Whether both have the same buffers with the same bytes. It takes no memory.
    pub fn same(&self, other: &Buffers) -> bool
        ensures { IsTrue result ↔ (self.now ≡ other.now) }
    {
        let mut others = other.iter();
        for (key, buffer) in self.iter() {
            let Some((other_key, other_buffer)) = others.next() else {
                return false;
            };
            if key != other_key || !buffer.same(other_buffer) {
                return false;
            }
        }
        others.next().is_none()
    }
}
