// Stored pages by their numbers. Page k holds the bytes from 4,096 * k on, and one that is not
// stored is zeros.
ghost use Rattle.std.specs.Prelude.{◌≡◌, ℕ, ◌+◌, ◌*◌, ◌<◌, ◌≤◌, ◌≢◌, length, replicate};
ghost use Rattle.std.specs.Prelude.{None, Some, IsSome, IsTrue, IfSome, IfNone, IfOk, OnOk, OnErr};
ghost use Rattle.extent_bytes.specs.Pages.{page_of, IsRewritten, IsSpliced, PageWritten};
ghost use Rattle.extent_bytes.specs.Pages.{Replaced, SameBytes, SamePages, Overlaid};

use crate::joining::{fork, height, joined, leaned};
use crate::page::{PAGE_SIZE, Page, is_blank};
use crate::parting::{behind, front};
use crate::places::{next_in, put_all_in, put_in, rewrite_in};
use std::alloc::{AllocError, Global};
use std::mem;
use std::sync::Arc;

// So many places a leaf has at most. One that changes a page of a leaf that others have too copies
// so many.
pub(crate) const LEAF: u64 = 256;

// So many places a leaf may have for one page.
const WINDOW: u64 = 64;

// A page of zeros, as bytes.
static ZEROS: [u8; PAGE_SIZE] = [0; PAGE_SIZE];

// So many zeros, of a page at most.
fn zeros(count: usize) -> &'static [u8]
    requires { count ≤ PAGE_SIZE }
    ensures { result.now ≡ replicate count 0 }
{
    &ZEROS[..count]
}

// Pages by their numbers: a tree, of which lists share what they have in common. One that changes a
// page copies the leaf that has it and the forks above, unless they are its own.
#[derive(Drop)]
pub(crate) enum Pages {
    // The first places, each with a page or none. Behind them there is none.
    Leaf(Vec<Option<Page>>),
    // The pages of numbers below a width, then those from there on, and how high the tree is.
    Fork(Arc<Pages>, u64, Arc<Pages>, u64),
}

impl Clone for Pages {
    ghost use Rattle.std.specs.Prelude.{◌≡◌};
    ghost use Rattle.extent_bytes.specs.Pages.{SamePages, levels};

    ghost is_clone = { λ pages copy. SamePages pages copy × (levels copy ≡ levels pages) };

    // The same pages, of which a leaf's have one more owner, and otherwise both sides.
    fn clone(&self) -> Result<Pages, AllocError> {
        match self {
            Pages::Leaf(places) => Ok(Pages::Leaf(places.clone()?)),
            Pages::Fork(left, width, right, height) => Ok(Pages::Fork(
                Arc::try_clone(left)?,
                *width,
                Arc::try_clone(right)?,
                *height,
            )),
        }
    }
}

impl Pages {
    // No pages.
    pub(crate) fn new(alloc: Global) -> Pages
        ensures { (j : ℕ) → page_of result j ≡ None }
    {
        Pages::Leaf(Vec::new(alloc))
    }

    // Whether there are so many at most, as far as it can be told without a look at each.
    pub(crate) fn is_few(&self, most: usize) -> bool {
        match self {
            Pages::Leaf(places) => places.len() <= most,
            Pages::Fork(..) => false,
        }
    }

    // The page of a number.
    #[inline(always)]
    pub(crate) fn get(&self, number: u64) -> Option<&Page>
        ensures stored { IfSome result (λ page. page_of self.now number ≡ Some page.now) }
        ensures none { IfNone result (page_of self.now number ≡ None) }
    {
        let mut pages = self;
        let mut place = number;
        loop {
            match pages {
                Pages::Leaf(places) => {
                    return match places.get(place as usize) {
                        Some(Some(page)) => Some(page),
                        _ => None,
                    };
                }
                Pages::Fork(left, width, right, _) => {
                    if place < *width {
                        pages = left;
                    } else {
                        pages = right;
                        place -= *width;
                    }
                }
            }
        }
    }

    // The first stored page from the number `from` on and below `to`, with its number.
    pub(crate) fn next(&self, from: u64, to: u64) -> Option<(u64, &Page)>
        requires { from ≤ to }
        ensures page { IfSome result (λ e. page_of self.now e.0 ≡ Some e.1.now) }
        ensures within { IfSome result (λ e. (from ≤ e.0) × (e.0 < to)) }
        ensures least { IfSome result (λ e.
            (j : ℕ) → from ≤ j → j < to → IsSome (page_of self.now j) → e.0 ≤ j) }
        ensures none { IfNone result ((j : ℕ) → from ≤ j → j < to → page_of self.now j ≡ None) }
    {
        match self {
            Pages::Leaf(places) => next_in(places, from, to),
            Pages::Fork(left, width, right, _) => {
                let width = *width;
                if from < width
                    && let Some(found) = left.next(from, to.min(width))
                {
                    return Some(found);
                }
                if to <= width {
                    return None;
                }
                match right.next(from.saturating_sub(width), to - width) {
                    Some((number, page)) => Some((width + number, page)),
                    None => None,
                }
            }
        }
    }

    // Whether there is no page from the number `from` on and below `to`. Where more than one leaf has
    // places there it isn't found out.
    pub(crate) fn is_hole(&self, from: u64, to: u64) -> bool
        requires { from ≤ to }
        ensures { IsTrue result → (j : ℕ) → from ≤ j → j < to → page_of self.now j ≡ None }
    {
        match self {
            Pages::Leaf(places) => next_in(places, from, to).is_none(),
            Pages::Fork(left, width, right, _) => {
                if to <= *width {
                    return left.is_hole(from, to);
                }
                *width <= from && right.is_hole(from - *width, to - *width)
            }
        }
    }

    // Whether the last leaf has no place for the number `to`, nor for any beyond. A part up to there
    // may as well be all of it, and share it.
    pub(crate) fn ends_by(&self, to: u64) -> bool {
        match self {
            Pages::Leaf(places) => places.len() as u64 <= to,
            Pages::Fork(_, width, right, _) => *width <= to && right.ends_by(to - *width),
        }
    }

    // Turns a fork of which one side has become two higher than the other. Where memory is wanting it
    // stays as it is.
    fn rebalance(&mut self, alloc: Global)
        ensures { SamePages self.old self.new }
    {
        let Pages::Fork(left, width, right, above) = self else {
            return;
        };
        let (first, second) = (height(left), height(right));
        if first.abs_diff(second) < 2 {
            *above = first.max(second).saturating_add(1);
            return;
        }
        let (Ok(left), Ok(right)) = (Arc::try_clone(left), Arc::try_clone(right)) else {
            return;
        };
        let Ok(turned) = leaned(alloc, left, *width, right) else {
            return;
        };
        if let Ok(turned) = Arc::unwrap_or_clone(turned) {
            *self = turned;
        }
    }

    // Stores a page of a number from a width on, where there is none.
    fn put_behind(
        &mut self,
        alloc: Global,
        width: u64,
        number: u64,
        page: Page,
    ) -> Result<(), AllocError>
        requires behind { width ≤ number }
        requires free { (j : ℕ) → width ≤ j → page_of self.old j ≡ None }
        ensures put { OnOk result (page_of self.new number ≡ Some page) }
        ensures others { OnOk result ((j : ℕ) → j ≢ number → page_of self.new j ≡ page_of self.old j) }
        ensures err { OnErr result (SamePages self.old self.new) }
    {
        let mut places = Vec::new(alloc);
        put_in(&mut places, (number - width) as usize, page)?;
        let last = Arc::new(alloc, Pages::Leaf(places))?;
        let first = mem::replace(self, Pages::new(alloc));
        match Arc::new(alloc, first) {
            Ok(first) => {
                *self = fork(first, width, last);
                Ok(())
            }
            Err(refused) => {
                *self = refused.value;
                Err(AllocError)
            }
        }
    }

    // Stores a page, in place of the one of its number where there is one.
    pub(crate) fn put(&mut self, alloc: Global, number: u64, page: Page) -> Result<(), AllocError>
        ensures put { OnOk result (page_of self.new number ≡ Some page) }
        ensures others { OnOk result ((j : ℕ) → j ≢ number → page_of self.new j ≡ page_of self.old j) }
        ensures err { OnErr result (SamePages self.old self.new) }
    {
        match self {
            Pages::Leaf(places) => {
                let len = places.len() as u64;
                if number < WINDOW.max(len) || number == len && len < LEAF {
                    return put_in(places, number as usize, page);
                }
                self.put_behind(alloc, len.max(number - number % WINDOW), number, page)
            }
            Pages::Fork(left, width, right, _) => {
                if number < *width {
                    Arc::make_mut(left)?.put(alloc, number, page)?;
                } else {
                    Arc::make_mut(right)?.put(alloc, number - *width, page)?;
                }
                self.rebalance(alloc);
                Ok(())
            }
        }
    }

    // `splice` where one leaf has all the places, or may get them, and so has the patch. Else the
    // patch comes back.
    fn splice_in_leaf(
        &mut self,
        first: u64,
        end: u64,
        patch: Pages,
    ) -> Result<Option<Pages>, AllocError>
        requires { first ≤ end }
        ensures ok { IfOk result (λ left. IsSpliced left self.old self.new first end patch) }
        ensures err { OnErr result (SamePages self.old self.new) }
    {
        match self {
            Pages::Leaf(places) => match patch {
                Pages::Leaf(others) if end <= LEAF || end <= places.len() as u64 => {
                    put_all_in(places, first as usize, end as usize, others)?;
                    Ok(None)
                }
                _ => Ok(Some(patch)),
            },
            Pages::Fork(left, width, right, _) => {
                if end <= *width {
                    return Arc::make_mut(left)?.splice_in_leaf(first, end, patch);
                }
                if *width <= first {
                    return Arc::make_mut(right)?.splice_in_leaf(
                        first - *width,
                        end - *width,
                        patch,
                    );
                }
                Ok(Some(patch))
            }
        }
    }

    // Puts the patch's pages in place of those from `first` up to `end`, and none where it has none.
    pub(crate) fn splice(
        &mut self,
        alloc: Global,
        first: u64,
        end: u64,
        patch: Pages,
    ) -> Result<(), AllocError>
        requires { first ≤ end }
        ensures ok { OnOk result (Replaced self.old self.new first end patch) }
        ensures err { OnErr result (SamePages self.old self.new) }
    {
        let Some(patch) = self.splice_in_leaf(first, end, patch)? else {
            return Ok(());
        };
        let patch = Arc::new(alloc, patch)?;
        let changed = joined(alloc, front(self, alloc, first)?, first, patch)?;
        let changed = joined(alloc, changed, end, behind(self, alloc, end)?)?;
        *self = Arc::unwrap_or_clone(changed)?;
        Ok(())
    }

    // Writes the bytes into the page of a number, if there is one.
    fn rewrite(
        &mut self,
        alloc: Global,
        number: u64,
        at: usize,
        bytes: &[u8],
    ) -> Result<bool, AllocError>
        requires { at + length bytes.now ≤ PAGE_SIZE }
        ensures ok { IfOk result (λ is_there.
            IsRewritten is_there (page_of self.old number) (page_of self.new number) at bytes.now) }
        ensures others { OnOk result ((j : ℕ) → j ≢ number → page_of self.new j ≡ page_of self.old j) }
        ensures err { OnErr result (SamePages self.old self.new) }
    {
        match self {
            Pages::Leaf(places) => rewrite_in(places, alloc, number as usize, at, bytes),
            Pages::Fork(left, width, right, _) => {
                if number < *width {
                    if let Some(own) = Arc::get_mut(left) {
                        return own.rewrite(alloc, number, at, bytes);
                    }
                    Arc::make_mut(left)?.rewrite(alloc, number, at, bytes)
                } else {
                    if let Some(own) = Arc::get_mut(right) {
                        return own.rewrite(alloc, number - *width, at, bytes);
                    }
                    Arc::make_mut(right)?.rewrite(alloc, number - *width, at, bytes)
                }
            }
        }
    }

    // Writes the bytes into one page. Zeros are not stored where there is no page.
    pub(crate) fn write(
        &mut self,
        alloc: Global,
        number: u64,
        at: usize,
        bytes: &[u8],
    ) -> Result<(), AllocError>
        requires { at + length bytes.now ≤ PAGE_SIZE }
        ensures ok { OnOk result
            (PageWritten self.old self.new number at bytes.now) }
        ensures err { OnErr result (SameBytes self.old self.new) }
    {
        if self.rewrite(alloc, number, at, bytes)? {
            return Ok(());
        }
        if is_blank(bytes) {
            return Ok(());
        }
        self.put(alloc, number, Page::new(alloc, at, bytes)?)
    }

    // Makes a part of one page zeros.
    pub(crate) fn clear(
        &mut self,
        alloc: Global,
        number: u64,
        from: usize,
        to: usize,
    ) -> Result<(), AllocError>
        requires forward { from ≤ to }
        requires inside { to ≤ PAGE_SIZE }
        ensures ok { OnOk result (Overlaid self.old self.new
            (number * 4096 + from) (number * 4096 + to) (λ _. 0)) }
        ensures err { OnErr result (SameBytes self.old self.new) }
    {
        self.write(alloc, number, from, zeros(to - from))
    }
}
