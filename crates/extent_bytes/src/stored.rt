// The stored pages of a list. Lists that have the same pages share the tree of them.
ghost use Rattle.std.specs.Prelude.{◌≡◌, ℕ, ◌+◌, ◌-◌, ◌*◌, ◌/◌, ◌<◌, ◌≤◌, ◌^◌};
ghost use Rattle.std.specs.Prelude.{None, min, length, IfOk, OnOk, OnErr};
ghost use Rattle.extent_bytes.specs.Kept.{pages_in};
ghost use Rattle.extent_bytes.specs.Pages.{page_of, byte_at, SameBytes, SamePages};
ghost use Rattle.extent_bytes.specs.Pages.{SameBelow, Overlaid, WrittenAt};

use crate::overlaying::{overlay, write_range, zero_range};
use crate::page_bytes::PAGE;
use crate::pages::Pages;
use crate::parting::{between, front};
use std::alloc::{AllocError, Global};
use std::mem;
use std::sync::Arc;

// So many pages are shared one by one, since a list of few does without a tree on the heap.
const FEW: usize = 2;

// Pages by their numbers.
#[derive(Drop)]
pub(crate) enum Stored {
    // A tree whose root one list alone has.
    Own(Pages),
    // A tree that several lists may have. One that changes it copies its root first, unless it is
    // alone.
    Shared(Arc<Pages>),
}

impl Stored {
    // No pages.
    pub(crate) fn new(alloc: Global) -> Stored
        ensures { (j : ℕ) → page_of (pages_in result) j ≡ None }
    {
        Stored::Own(Pages::new(alloc))
    }

    pub(crate) fn pages(&self) -> &Pages
        ensures { result.now ≡ pages_in self.now }
    {
        match self {
            Stored::Own(pages) => pages,
            Stored::Shared(pages) => pages,
        }
    }

    pub(crate) fn into_pages(self) -> Result<Pages, AllocError>
        ensures { IfOk result (λ pages. SamePages (pages_in self) pages) }
    {
        match self {
            Stored::Own(pages) => Ok(pages),
            Stored::Shared(pages) => Arc::unwrap_or_clone(pages),
        }
    }

    // The pages from `from` up to `to`, numbered from 0. All pages together are shared at once.
    pub(crate) fn share(&self, alloc: Global, from: u64, to: u64) -> Result<Stored, AllocError>
        requires { from ≤ to }
        ensures { IfOk result (λ part. (j : ℕ) → from + j < to →
            page_of (pages_in part) j ≡ page_of (pages_in self.now) (from + j)) }
    {
        match self {
            Stored::Shared(pages) if from == 0 && pages.ends_by(to) => {
                Ok(Stored::Shared(Arc::try_clone(pages)?))
            }
            _ => Ok(Stored::Shared(between(self.pages(), alloc, from, to)?)),
        }
    }

    // Lets a tree of more than a few pages be shared from now on. Where memory is wanting it stays
    // as it is, and is shared page by page.
    pub(crate) fn settle(&mut self, alloc: Global)
        ensures { pages_in self.new ≡ pages_in self.old }
    {
        if let Stored::Own(pages) = self
            && !pages.is_few(FEW)
        {
            let pages = mem::replace(pages, Pages::new(alloc));
            *self = match Arc::new(alloc, pages) {
                Ok(pages) => Stored::Shared(pages),
                Err(refused) => Stored::Own(refused.value),
            };
        }
    }

    // `overlay` of the pages.
    pub(crate) fn overlay(
        &mut self,
        alloc: Global,
        patch: Pages,
        lo: u64,
        hi: u64,
    ) -> Result<(), AllocError>
        requires forward { lo < hi }
        requires small { hi < 2 ^ 63 }
        ensures ok { OnOk result (Overlaid (pages_in self.old) (pages_in self.new) lo hi
            (λ p. byte_at patch (p - lo / 4096 * 4096))) }
        ensures err { OnErr result (SameBytes (pages_in self.old) (pages_in self.new)) }
    {
        match self {
            Stored::Own(pages) => {
                overlay(pages, alloc, patch, lo, hi)?;
                self.settle(alloc);
                Ok(())
            }
            Stored::Shared(pages) => overlay(Arc::make_mut(pages)?, alloc, patch, lo, hi),
        }
    }

    // `zero_range` of the pages. Where it is found that none is stored there are zeros already.
    pub(crate) fn zero_range(&mut self, alloc: Global, lo: u64, hi: u64) -> Result<(), AllocError>
        requires forward { lo ≤ hi }
        requires small { hi < 2 ^ 63 }
        ensures ok { OnOk result (Overlaid (pages_in self.old) (pages_in self.new) lo hi (λ _. 0)) }
        ensures err { OnErr result (SameBytes (pages_in self.old) (pages_in self.new)) }
    {
        if lo == hi {
            return Ok(());
        }
        if self.pages().is_hole(lo / PAGE, hi.div_ceil(PAGE)) {
            return Ok(());
        }
        match self {
            Stored::Own(pages) => zero_range(pages, alloc, lo, hi),
            Stored::Shared(pages) => zero_range(Arc::make_mut(pages)?, alloc, lo, hi),
        }
    }

    // `write_range` of the pages.
    pub(crate) fn write_range(
        &mut self,
        alloc: Global,
        end: u64,
        at: u64,
        bytes: &[u8],
    ) -> Result<(), AllocError>
        requires { at + length bytes.now < 2 ^ 63 }
        ensures ok { OnOk result
            (WrittenAt (pages_in self.old) (pages_in self.new) (min at end) at bytes.now) }
        ensures err { OnErr result (SameBelow (pages_in self.old) (pages_in self.new) end) }
    {
        match self {
            Stored::Own(pages) => {
                write_range(pages, alloc, end, at, bytes)?;
                self.settle(alloc);
                Ok(())
            }
            Stored::Shared(pages) => write_range(Arc::make_mut(pages)?, alloc, end, at, bytes),
        }
    }

    // Takes the pages from `from` on away.
    pub(crate) fn truncate(&mut self, alloc: Global, from: u64) -> Result<(), AllocError>
        ensures below { OnOk result ((j : ℕ) → j < from →
            page_of (pages_in self.new) j ≡ page_of (pages_in self.old) j) }
        ensures err { OnErr result (SameBytes (pages_in self.old) (pages_in self.new)) }
    {
        if self.pages().ends_by(from) {
            return Ok(());
        }
        *self = Stored::Shared(front(self.pages(), alloc, from)?);
        Ok(())
    }
}
