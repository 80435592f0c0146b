// Bytes that lie in pages one behind another.
ghost use Rattle.std.specs.Prelude.{◌≡◌, ℕ, ◌+◌, ◌-◌, ◌*◌, ◌<◌, ◌≤◌, ◌^◌, ◌↔◌, length};
ghost use Rattle.std.specs.Prelude.{IfOk, IfSome, IsTrue, slice_get};
ghost use Rattle.extent_bytes.specs.Bytes.{range_of};
ghost use Rattle.extent_bytes.specs.Kept.{byte_held};
ghost use Rattle.extent_bytes.specs.Pages.{page_of, byte_in, bytes_from, bytes_of};

use crate::comparing::{holds, page_agrees};
use crate::page::Page;
use crate::page_bytes::PAGE;
use crate::paged::Paged;
use crate::pages::Pages;
use std::alloc::{AllocError, Global};
use std::marker::Model;

// So many pages a run has at most. More share a tree.
const MOST_IN_RUN: u64 = 64;

// Bytes that lie in pages one behind another, all of them stored. Each page takes 24 bytes, where a
// leaf takes 32.
#[derive(Drop)]
pub(crate) struct PageRun {
    // Where the first byte lies in the first page.
    start: u64,
    len: u64,
    pages: Vec<Page>,
}

impl Model for PageRun {
    ghost use Rattle.std.specs.Prelude.{ℕ, List, ◌≤◌, ◌<◌, ◌+◌, ◌*◌, ◌^◌, length};
    ghost use Rattle.extent_bytes.specs.Pages.{byte_in, bytes_from};

    ghost Value = { List ℕ };

    ghost view = { λ r. bytes_from (byte_in r.pages.items) r.start r.len };

    ghost invariant = { λ r. (r.start < 4096) × (r.len ≤ 2 ^ 40)
        × (r.start + r.len ≤ length r.pages.items * 4096) };
}

// The pages from one number up to another, where there are few, all of them stored. They are shared
// and not copied.
fn stored_run(
    pages: &Pages,
    alloc: Global,
    from: u64,
    to: u64,
) -> Result<Option<Vec<Page>>, AllocError>
    requires { from ≤ to }
    ensures all { IfOk result (λ found. IfSome found (λ run. length run.items ≡ to - from)) }
    ensures pages { IfOk result (λ found. IfSome found (λ run. (j : ℕ) → from + j < to
        → slice_get run.items j ≡ page_of pages.now (from + j))) }
{
    if MOST_IN_RUN < to - from {
        return Ok(None);
    }
    let mut run = Vec::with_capacity(alloc, (to - from) as usize)?;
    for number in from..to {
        match pages.get(number) {
            Some(page) => run.push(page.clone()?)?,
            None => return Ok(None),
        }
    }
    Ok(Some(run))
}

// Whether the bytes of pages, from `start` up to `end`, are those of others from `other_start` on.
fn run_agrees(pages: &[Page], start: u64, end: u64, other: &Paged<'_>, other_start: u64) -> bool
    requires forward { start ≤ end }
    requires all { end ≤ length pages.now * 4096 }
    requires small { end < 2 ^ 62 }
    requires near { start < 4096 }
    requires other_near { other_start < 4096 }
    ensures { IsTrue result ↔ ((i : ℕ) → start + i < end
        → byte_held other.now (other_start + i) ≡ byte_in pages.now (start + i)) }
{
    for number in 0..end.div_ceil(PAGE) {
        let page = &pages[number as usize];
        if !page_agrees(page, number, start, end, other, other_start) {
            return false;
        }
    }
    true
}

impl PageRun {
    // The bytes of pages from one position up to another; none where a page that they lie in isn't
    // stored, or there are too many.
    pub(crate) fn of(
        pages: &Pages,
        alloc: Global,
        from: u64,
        to: u64,
    ) -> Result<Option<PageRun>, AllocError>
        requires forward { from ≤ to }
        requires few { to - from ≤ 2 ^ 40 }
        requires small { to < 2 ^ 62 }
        ensures { IfOk result (λ found. IfSome found
            (λ run. run ≡ bytes_of pages.now from (to - from))) }
    {
        match stored_run(pages, alloc, from / PAGE, to.div_ceil(PAGE))? {
            Some(pages) => Ok(Some(PageRun {
                start: from % PAGE,
                len: to - from,
                pages,
            })),
            None => Ok(None),
        }
    }

    // How many bytes there are.
    pub(crate) fn len(&self) -> u64
        ensures value { result ≡ length self.now }
        ensures bound { length self.now ≤ 2 ^ 40 }
    {
        self.len
    }

    // A copy of the bytes from `lo` up to `hi`.
    pub(crate) fn read(&self, alloc: Global, lo: u64, hi: u64) -> Result<Vec<u8>, AllocError>
        requires forward { lo ≤ hi }
        requires inside { hi ≤ length self.now }
        ensures { IfOk result (λ bytes. bytes.items ≡ range_of self.now lo hi) }
    {
        Paged::Run(&self.pages).read(alloc, self.start + lo, self.start + hi)
    }

    // Whether they are those of other pages from a position on.
    pub(crate) fn agrees(&self, other: &Paged<'_>, other_start: u64) -> bool
        requires { other_start < 4096 }
        ensures { IsTrue result
            ↔ (self.now ≡ bytes_from (byte_held other.now) other_start (length self.now)) }
    {
        let end = self.start + self.len;
        run_agrees(&self.pages, self.start, end, other, other_start)
    }

    // Whether both have the same bytes.
    pub(crate) fn same(&self, other: &PageRun) -> bool
        ensures { IsTrue result ↔ (self.now ≡ other.now) }
    {
        self.len == other.len && self.agrees(&Paged::Run(&other.pages), other.start)
    }

    // Whether they are the bytes of a slice.
    pub(crate) fn is_slice(&self, bytes: &[u8]) -> bool
        requires { length bytes.now ≤ 2 ^ 40 }
        ensures { IsTrue result ↔ (self.now ≡ bytes.now) }
    {
        self.len == bytes.len() as u64 && holds(&Paged::Run(&self.pages), self.start, bytes)
    }
}
