// Two trees of pages put side by side. Rotations keep a tree about as high as the logarithm of its
// leaves; no contract speaks of heights.
ghost use Rattle.std.specs.Prelude.{IfOk};
ghost use Rattle.std.specs.Arc.{arc_value};
ghost use Rattle.extent_bytes.specs.Pages.{IsJoined};

use crate::pages::{LEAF, Pages};
use crate::places::one_leaf;
use std::alloc::{AllocError, Global};
use std::sync::Arc;

// Two leaves become one where it has so many places at most, since that copies them.
const MERGED: u64 = LEAF / 2;

// How many forks lie above one another.
pub(crate) fn height(pages: &Pages) -> u64 {
    match pages {
        Pages::Leaf(_) => 0,
        Pages::Fork(_, _, _, height) => *height,
    }
}

// Both sides under a fork.
pub(crate) fn fork(left: Arc<Pages>, width: u64, right: Arc<Pages>) -> Pages
    ensures { IsJoined (arc_value left) width (arc_value right) result }
{
    let height = height(&left).max(height(&right)).saturating_add(1);
    Pages::Fork(left, width, right, height)
}

// Both sides, of which the second may be two higher.
fn lean_right(
    alloc: Global,
    left: Arc<Pages>,
    width: u64,
    right: Arc<Pages>,
) -> Result<Arc<Pages>, AllocError>
    ensures { IfOk result (λ whole. IsJoined (arc_value left) width (arc_value right) (arc_value whole)) }
{
    if height(&left).saturating_add(1) < height(&right)
        && let Pages::Fork(middle, near, last, _) = &*right
        && *near <= u64::MAX - width
    {
        let last = Arc::try_clone(last)?;
        if height(&last) < height(middle)
            && let Pages::Fork(first, half, second, _) = &**middle
            && *half <= *near
        {
            let lower = Arc::new(alloc, fork(left, width, Arc::try_clone(first)?))?;
            let upper = Arc::new(alloc, fork(Arc::try_clone(second)?, *near - *half, last))?;
            return Ok(Arc::new(alloc, fork(lower, width + *half, upper))?);
        }
        let lower = Arc::new(alloc, fork(left, width, Arc::try_clone(middle)?))?;
        return Ok(Arc::new(alloc, fork(lower, width + *near, last))?);
    }
    Ok(Arc::new(alloc, fork(left, width, right))?)
}

// Both sides, of which the first may be two higher.
fn lean_left(
    alloc: Global,
    left: Arc<Pages>,
    width: u64,
    right: Arc<Pages>,
) -> Result<Arc<Pages>, AllocError>
    ensures { IfOk result (λ whole. IsJoined (arc_value left) width (arc_value right) (arc_value whole)) }
{
    if height(&right).saturating_add(1) < height(&left)
        && let Pages::Fork(first, near, middle, _) = &*left
        && *near <= width
    {
        let first = Arc::try_clone(first)?;
        if height(&first) < height(middle)
            && let Pages::Fork(second, half, last, _) = &**middle
            && *half <= width - *near
        {
            let lower = Arc::new(alloc, fork(first, *near, Arc::try_clone(second)?))?;
            let rest = width - *near - *half;
            let upper = Arc::new(alloc, fork(Arc::try_clone(last)?, rest, right))?;
            return Ok(Arc::new(alloc, fork(lower, *near + *half, upper))?);
        }
        let upper = Arc::new(alloc, fork(Arc::try_clone(middle)?, width - *near, right))?;
        return Ok(Arc::new(alloc, fork(first, *near, upper))?);
    }
    Ok(Arc::new(alloc, fork(left, width, right))?)
}

// Both sides, of which either may be two higher.
pub(crate) fn leaned(
    alloc: Global,
    left: Arc<Pages>,
    width: u64,
    right: Arc<Pages>,
) -> Result<Arc<Pages>, AllocError>
    ensures { IfOk result (λ whole. IsJoined (arc_value left) width (arc_value right) (arc_value whole)) }
{
    if height(&left) < height(&right) {
        return lean_right(alloc, left, width, right);
    }
    lean_left(alloc, left, width, right)
}

// The pages of the first tree below a width, and from there on those of the second.
pub(crate) fn joined(
    alloc: Global,
    left: Arc<Pages>,
    width: u64,
    right: Arc<Pages>,
) -> Result<Arc<Pages>, AllocError>
    ensures { IfOk result (λ whole. IsJoined (arc_value left) width (arc_value right) (arc_value whole)) }
{
    match (&*left, &*right) {
        (Pages::Leaf(first), Pages::Leaf(second))
            if width <= MERGED && second.len() as u64 <= MERGED - width => {
            Ok(Arc::new(
                alloc,
                Pages::Leaf(one_leaf(alloc, first, width as usize, second)?),
            )?)
        }
        (Pages::Fork(first, near, middle, high), _)
            if height(&right).saturating_add(1) < *high && *near <= width => {
            let last = joined(alloc, Arc::try_clone(middle)?, width - *near, right)?;
            lean_right(alloc, Arc::try_clone(first)?, *near, last)
        }
        (_, Pages::Fork(middle, near, last, high))
            if height(&left).saturating_add(1) < *high && *near <= u64::MAX - width => {
            let first = joined(alloc, left, width, Arc::try_clone(middle)?)?;
            lean_left(alloc, first, width + *near, Arc::try_clone(last)?)
        }
        _ => Ok(Arc::new(alloc, fork(left, width, right))?),
    }
}
