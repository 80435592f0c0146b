// Parts of a tree of pages, which share what lies whole within them.
ghost use Rattle.std.specs.Prelude.{◌≡◌, ℕ, ◌+◌, ◌-◌, ◌<◌, ◌≤◌, IfOk};
ghost use Rattle.std.specs.Arc.{arc_value};
ghost use Rattle.extent_bytes.specs.Pages.{page_of};

use crate::joining::joined;
use crate::pages::Pages;
use crate::places::copied;
use std::alloc::{AllocError, Global};
use std::sync::Arc;

// The pages of numbers below `to`.
pub(crate) fn front(pages: &Pages, alloc: Global, to: u64) -> Result<Arc<Pages>, AllocError>
    ensures { IfOk result (λ part. (j : ℕ) → j < to → page_of (arc_value part) j ≡ page_of pages.now j) }
{
    match pages {
        Pages::Leaf(places) => {
            let end = places.len().min(to as usize);
            Ok(Arc::new(alloc, Pages::Leaf(copied(alloc, &places[..end])?))?)
        }
        Pages::Fork(left, width, right, _) => {
            if to <= *width {
                if left.ends_by(to) {
                    return Arc::try_clone(left);
                }
                return front(left, alloc, to);
            }
            let last = if right.ends_by(to - *width) {
                Arc::try_clone(right)?
            } else {
                front(right, alloc, to - *width)?
            };
            joined(alloc, Arc::try_clone(left)?, *width, last)
        }
    }
}

// The pages from a number on, numbered from 0.
pub(crate) fn behind(pages: &Pages, alloc: Global, from: u64) -> Result<Arc<Pages>, AllocError>
    ensures { IfOk result (λ part. (j : ℕ) → page_of (arc_value part) j ≡ page_of pages.now (from + j)) }
{
    match pages {
        Pages::Leaf(places) => {
            let start = places.len().min(from as usize);
            Ok(Arc::new(alloc, Pages::Leaf(copied(alloc, &places[start..])?))?)
        }
        Pages::Fork(left, width, right, _) => {
            if from == *width {
                return Arc::try_clone(right);
            }
            if *width < from {
                return behind(right, alloc, from - *width);
            }
            let first = behind(left, alloc, from)?;
            joined(alloc, first, *width - from, Arc::try_clone(right)?)
        }
    }
}

// The pages of numbers from `from` up to `to`, numbered from 0.
pub(crate) fn between(
    pages: &Pages,
    alloc: Global,
    from: u64,
    to: u64,
) -> Result<Arc<Pages>, AllocError>
    requires { from ≤ to }
    ensures { IfOk result (λ part. (j : ℕ) → from + j < to →
        page_of (arc_value part) j ≡ page_of pages.now (from + j)) }
{
    if from == 0 {
        return front(pages, alloc, to);
    }
    match pages {
        Pages::Leaf(places) => {
            let end = places.len().min(to as usize);
            let start = end.min(from as usize);
            Ok(Arc::new(alloc, Pages::Leaf(copied(alloc, &places[start..end])?))?)
        }
        Pages::Fork(left, width, right, _) => {
            if to <= *width {
                return between(left, alloc, from, to);
            }
            if from == *width && right.ends_by(to - from) {
                return Arc::try_clone(right);
            }
            if *width <= from {
                return between(right, alloc, from - *width, to - *width);
            }
            let first = behind(left, alloc, from)?;
            let last = if right.ends_by(to - *width) {
                Arc::try_clone(right)?
            } else {
                front(right, alloc, to - *width)?
            };
            joined(alloc, first, *width - from, last)
        }
    }
}
