// Lists of bytes whose stored pages alone take memory.
ghost use Rattle.std.specs.Prelude.{◌≡◌, ℕ, ◌+◌, ◌-◌, ◌≤◌, ◌↔◌, List, [], length, take, drop};
ghost use Rattle.std.specs.Prelude.{replicate, vec_len, max, IsTrue, IfOk, IfSome, OnOk, OnErr};
ghost use Rattle.extent_bytes.specs.Bytes.{overwritten, zeroed, resized, range_of};

use crate::comparing::{holds, rest_agrees, stored_agree, zeros_ahead};
use crate::moving::aligned;
use crate::page_bytes::{PAGE, copy_of_part, part_of_page, shared_part};
use crate::page_part::PagePart;
use crate::page_run::PageRun;
use crate::paged::Paged;
use crate::stored::Stored;
use crate::texts::text_pages;
use std::alloc::{AllocError, Global};
use std::marker::Model;
use std::sync::Arc;

/// The greatest length of a byte list, 2^40.
pub const MAX_LEN: u64 = 1_099_511_627_776;

/// A list of at most [`MAX_LEN`] bytes. Only pages with bytes that were written take memory.
///
/// A call that answers [`AllocError`] leaves the list as it was.
#[derive(Drop)]
pub struct Extents {
    // Where the first byte lies in page 0.
    start: u64,
    len: u64,
    stored: Stored,
    alloc: Global,
}

impl Model for Extents {
    ghost use Rattle.std.specs.Prelude.{ℕ, List, ◌≤◌, ◌<◌, ◌^◌};
    ghost use Rattle.extent_bytes.specs.Kept.{pages_in};
    ghost use Rattle.extent_bytes.specs.Pages.{bytes_of};

    ghost Value = { List ℕ };

    ghost view = { λ e. bytes_of (pages_in e.stored) e.start e.len };

    ghost invariant = { λ e. (e.start < 4096) × (e.len ≤ 2 ^ 40) };
}

impl Extents {
    /// The empty list.
    pub fn new(alloc: Global) -> Extents
        ensures { result ≡ [] }
    {
        Extents {
            start: 0,
            len: 0,
            stored: Stored::new(alloc),
            alloc,
        }
    }

    /// So many bytes of a text, from a place on. Whole pages among them share the text, and are
    /// not copied; nor are they when the list is put back at `at` of one that begins with a page.
    pub fn of_text(
        alloc: Global,
        text: &Arc<Vec<u8>>,
        from: usize,
        count: usize,
        at: u64,
    ) -> Result<Extents, AllocError>
        requires inside { from + count ≤ length text.now.value.items }
        requires few { count ≤ MAX_LEN }
        ensures value { IfOk result (λ list. list ≡ take count (drop from text.now.value.items)) }
        ensures len { IfOk result (λ list. length list ≡ count) }
    {
        let start = at % PAGE;
        let pages = text_pages(alloc, start, text, from, from + count)?;
        let mut stored = Stored::Own(pages);
        stored.settle(alloc);
        Ok(Extents {
            start,
            len: count as u64,
            stored,
            alloc,
        })
    }

    /// How many bytes the list has.
    pub fn len(&self) -> u64
        ensures value { result ≡ length self.now }
        ensures bound { length self.now ≤ MAX_LEN }
    {
        self.len
    }

    /// The bytes from `lo` up to `hi`.
    #[inline(always)]
    pub fn read(&self, lo: u64, hi: u64) -> Result<Vec<u8>, AllocError>
        requires forward { lo ≤ hi }
        requires inside { hi ≤ length self.now }
        ensures value { IfOk result (λ bytes. bytes.items ≡ range_of self.now lo hi) }
        ensures len { IfOk result (λ bytes. vec_len bytes ≡ hi - lo) }
    {
        let pages = self.stored.pages();
        let at = self.start + lo;
        let start = at % PAGE;
        let stop = start + (hi - lo);
        if stop <= PAGE {
            return copy_of_part(pages, self.alloc, at / PAGE, start as usize, stop as usize);
        }
        Paged::Map(pages).read(self.alloc, at, self.start + hi)
    }

    /// Writes the bytes from `at` on. A gap past the end is zeros, which take no memory; nor do
    /// zeros that are written where no page is stored.
    pub fn write(&mut self, at: u64, bytes: &[u8]) -> Result<(), AllocError>
        requires { at + length bytes.now ≤ MAX_LEN }
        ensures ok { OnOk result (self.new ≡ overwritten self.old at bytes.now) }
        ensures len { OnOk result (
            length self.new ≡ max (length self.old) (at + length bytes.now)) }
        ensures err { OnErr result (self.new ≡ self.old) }
    {
        let end = self.start + self.len;
        self.stored
            .write_range(self.alloc, end, self.start + at, bytes)?;
        self.len = self.len.max(at + bytes.len() as u64);
        Ok(())
    }

    /// Makes the bytes from `lo` up to `hi` zeros, and gives the pages within back.
    pub fn zero(&mut self, lo: u64, hi: u64) -> Result<(), AllocError>
        requires forward { lo ≤ hi }
        requires inside { hi ≤ length self.old }
        ensures ok { OnOk result (self.new ≡ zeroed self.old lo hi) }
        ensures len { OnOk result (length self.new ≡ length self.old) }
        ensures err { OnErr result (self.new ≡ self.old) }
    {
        if lo == 0 && hi == self.len {
            self.stored = Stored::new(self.alloc);
            return Ok(());
        }
        self.stored
            .zero_range(self.alloc, self.start + lo, self.start + hi)
    }

    /// Cuts the list, or extends it with zeros, to `len` bytes.
    pub fn set_len(&mut self, len: u64) -> Result<(), AllocError>
        requires { len ≤ MAX_LEN }
        ensures ok { OnOk result (self.new ≡ resized self.old len) }
        ensures len { OnOk result (length self.new ≡ len) }
        ensures err { OnErr result (self.new ≡ self.old) }
    {
        if self.len < len {
            let end = self.start + self.len;
            self.stored.zero_range(self.alloc, end, self.start + len)?;
            self.len = len;
            return Ok(());
        }
        let end = (self.start + len).div_ceil(PAGE);
        self.stored.truncate(self.alloc, end)?;
        self.len = len;
        Ok(())
    }

    /// The bytes from `lo` up to `hi` as a list of its own, which shares their pages, and of the
    /// tree of them what lies whole among them.
    pub fn share(&self, lo: u64, hi: u64) -> Result<Extents, AllocError>
        requires forward { lo ≤ hi }
        requires inside { hi ≤ length self.now }
        ensures value { IfOk result (λ part. part ≡ range_of self.now lo hi) }
        ensures len { IfOk result (λ part. length part ≡ hi - lo) }
    {
        let from = self.start + lo;
        let to = self.start + hi;
        Ok(Extents {
            start: from % PAGE,
            len: hi - lo,
            stored: self
                .stored
                .share(self.alloc, from / PAGE, to.div_ceil(PAGE))?,
            alloc: self.alloc,
        })
    }

    /// Takes the bytes from `lo` up to `hi` out as a list of its own, and leaves zeros there.
    pub fn cut(&mut self, lo: u64, hi: u64) -> Result<Extents, AllocError>
        requires forward { lo ≤ hi }
        requires inside { hi ≤ length self.old }
        ensures part { IfOk result (λ part. part ≡ range_of self.old lo hi) }
        ensures part_len { IfOk result (λ part. length part ≡ hi - lo) }
        ensures rest { OnOk result (self.new ≡ zeroed self.old lo hi) }
        ensures len { OnOk result (length self.new ≡ length self.old) }
        ensures err { OnErr result (self.new ≡ self.old) }
    {
        let part = self.share(lo, hi)?;
        self.zero(lo, hi)?;
        Ok(part)
    }

    /// Puts the bytes of `part` in place of those from `lo` on. A part for the whole list is moved
    /// in.
    pub fn put_back(&mut self, lo: u64, part: Extents) -> Result<(), AllocError>
        requires { lo + length part ≤ length self.old }
        ensures ok { OnOk result (self.new ≡ overwritten self.old lo part) }
        ensures len { OnOk result (length self.new ≡ length self.old) }
        ensures err { OnErr result (self.new ≡ self.old) }
    {
        let Extents {
            start,
            len,
            stored,
            alloc,
        } = part;
        if lo == 0 && len == self.len {
            self.start = start;
            self.stored = stored;
            return Ok(());
        }
        if len == 0 {
            return Ok(());
        }
        let from = self.start + lo;
        let patch = aligned(stored.into_pages()?, alloc, start, start + len, from % PAGE)?;
        self.stored.overlay(self.alloc, patch, from, from + len)
    }

    /// Puts the bytes of another list from `lo` up to `hi` in place of those of this one. A part of
    /// one page is copied, so that the page keeps its one owner. A whole page, more than a page and
    /// the whole of this list are shared.
    pub fn copy_range(&mut self, source: &Extents, lo: u64, hi: u64) -> Result<(), AllocError>
        requires forward { lo ≤ hi }
        requires there { hi ≤ length source.now }
        requires inside { hi ≤ length self.old }
        ensures ok { OnOk result (self.new ≡ overwritten self.old lo (range_of source.now lo hi)) }
        ensures len { OnOk result (length self.new ≡ length self.old) }
        ensures err { OnErr result (self.new ≡ self.old) }
    {
        let from = source.start + lo;
        let start = from % PAGE;
        let count = hi - lo;
        let end = start + count;
        if end > PAGE || count == PAGE || count == self.len {
            return self.put_back(lo, source.share(lo, hi)?);
        }
        let pages = source.stored.pages();
        match part_of_page(pages, from / PAGE, start as usize, end as usize) {
            Some(bytes) => self.write(lo, bytes),
            None => self.zero(lo, hi),
        }
    }

    /// Whether both lists have the same bytes. It takes no memory, and only looks at stored pages.
    pub fn same(&self, other: &Extents) -> bool
        ensures { IsTrue result ↔ (self.now ≡ other.now) }
    {
        if self.len != other.len {
            return false;
        }
        let end = self.start + self.len;
        let other_end = other.start + other.len;
        let pages = self.stored.pages();
        let others = other.stored.pages();
        if !stored_agree(pages, self.start, end, &Paged::Map(others), other.start) {
            return false;
        }
        if self.start == other.start {
            return rest_agrees(others, other.start, other_end, pages);
        }
        stored_agree(
            others,
            other.start,
            other_end,
            &Paged::Map(pages),
            self.start,
        )
    }

    /// How many zeros the list begins with, at least: those before the first stored page that has
    /// another byte, and all where there is none. It takes no memory, and only looks at stored pages.
    pub fn zeros_ahead(&self) -> u64
        ensures within { result ≤ length self.now }
        ensures zeros { take result self.now ≡ replicate result 0 }
    {
        zeros_ahead(self.stored.pages(), self.start, self.start + self.len)
    }

    /// The bytes from `lo` up to `hi` as a part of the page that they lie in, which is shared; none
    /// where they lie in several, or it isn't stored.
    #[inline(always)]
    pub(crate) fn part(&self, lo: u64, hi: u64) -> Result<Option<PagePart>, AllocError>
        requires forward { lo ≤ hi }
        requires inside { hi ≤ length self.now }
        ensures { IfOk result (λ found. IfSome found (λ part. part ≡ range_of self.now lo hi)) }
    {
        let pages = self.stored.pages();
        let at = self.start + lo;
        let start = at % PAGE;
        let stop = start + (hi - lo);
        if PAGE < stop {
            return Ok(None);
        }
        shared_part(pages, at / PAGE, start as usize, stop as usize)
    }

    /// The bytes from `lo` up to `hi` as a run of pages, which are shared; none where one of them
    /// isn't stored, or there are many.
    pub(crate) fn run(&self, lo: u64, hi: u64) -> Result<Option<PageRun>, AllocError>
        requires forward { lo ≤ hi }
        requires inside { hi ≤ length self.now }
        ensures { IfOk result (λ found. IfSome found (λ run. run ≡ range_of self.now lo hi)) }
    {
        let pages = self.stored.pages();
        PageRun::of(pages, self.alloc, self.start + lo, self.start + hi)
    }

    /// Whether a run has the bytes of this list. It takes no memory.
    pub(crate) fn is_run(&self, run: &PageRun) -> bool
        ensures { IsTrue result ↔ (run.now ≡ self.now) }
    {
        run.len() == self.len && run.agrees(&Paged::Map(self.stored.pages()), self.start)
    }

    /// Whether a slice has the bytes of this list. It takes no memory.
    pub(crate) fn is_slice(&self, bytes: &[u8]) -> bool
        requires { length bytes.now ≤ MAX_LEN }
        ensures { IsTrue result ↔ (self.now ≡ bytes.now) }
    {
        self.len == bytes.len() as u64 && holds(&Paged::Map(self.stored.pages()), self.start, bytes)
    }
}
