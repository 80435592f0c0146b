// Bytes put over a range of a map of pages. After a refusal of memory the bytes are as they were.
ghost use Rattle.std.specs.Prelude.{◌+◌, ◌-◌, ◌*◌, ◌/◌, ◌<◌, ◌≤◌, ◌^◌, min};
ghost use Rattle.std.specs.Prelude.{length, slice_index};
ghost use Rattle.std.specs.Prelude.{OnOk, OnErr};
ghost use Rattle.extent_bytes.specs.Pages.{byte_at, SameBytes};
ghost use Rattle.extent_bytes.specs.Pages.{SameBelow, Overlaid, WrittenAt, Completed};
ghost use Rattle.extent_bytes.specs.Parted.{HasParted};

use crate::page::PAGE_SIZE;
use crate::page_bytes::{PAGE, copy_bytes, put_range};
use crate::pages::Pages;
use std::alloc::{AllocError, Global};

// Writes what surrounds the range in its first and its last page into the patch, whose page 0 is
// page `first`.
fn complete(
    pages: &Pages,
    alloc: Global,
    patch: &mut Pages,
    lo: u64,
    hi: u64,
) -> Result<(), AllocError>
    requires forward { lo < hi }
    requires small { hi < 2 ^ 63 }
    ensures { OnOk result
        (Completed pages.now patch.old patch.new (lo / 4096) ((hi + 4095) / 4096) lo hi) }
{
    let first = lo / PAGE;
    let last = (hi - 1) / PAGE;
    copy_bytes(patch, alloc, 0, pages, first, 0, (lo % PAGE) as usize)?;
    let end = hi - last * PAGE;
    copy_bytes(
        patch,
        alloc,
        last - first,
        pages,
        last,
        end as usize,
        PAGE_SIZE,
    )
}

// Puts the bytes of the patch, whose page 0 is the page of `lo`, over the range from `lo` up to
// `hi`.
pub(crate) fn overlay(
    pages: &mut Pages,
    alloc: Global,
    mut patch: Pages,
    lo: u64,
    hi: u64,
) -> Result<(), AllocError>
    requires forward { lo < hi }
    requires small { hi < 2 ^ 63 }
    ensures ok { OnOk result
        (Overlaid pages.old pages.new lo hi (λ p. byte_at patch (p - lo / 4096 * 4096))) }
    ensures err { OnErr result (SameBytes pages.old pages.new) }
{
    let first = lo / PAGE;
    if hi - lo < PAGE && first == (hi - 1) / PAGE {
        let end = hi - first * PAGE;
        return copy_bytes(
            pages,
            alloc,
            first,
            &patch,
            0,
            (lo % PAGE) as usize,
            end as usize,
        );
    }
    complete(pages, alloc, &mut patch, lo, hi)?;
    pages.splice(alloc, first, hi.div_ceil(PAGE), patch)
}

// Makes the bytes from `lo` up to `hi` zeros.
pub(crate) fn zero_range(
    pages: &mut Pages,
    alloc: Global,
    lo: u64,
    hi: u64,
) -> Result<(), AllocError>
    requires forward { lo ≤ hi }
    requires small { hi < 2 ^ 63 }
    ensures ok { OnOk result (Overlaid pages.old pages.new lo hi (λ _. 0)) }
    ensures err { OnErr result (SameBytes pages.old pages.new) }
{
    if lo < hi {
        overlay(pages, alloc, Pages::new(alloc), lo, hi)?;
    }
    Ok(())
}

// Where a position lies within a page, shares that page with a patch, whose page 0 is page `first`.
fn share_parted(
    pages: &Pages,
    alloc: Global,
    patch: &mut Pages,
    first: u64,
    position: u64,
) -> Result<(), AllocError>
    requires { first ≤ position / 4096 }
    ensures { OnOk result (HasParted pages.now patch.old patch.new first position) }
{
    if position % PAGE == 0 {
        return Ok(());
    }
    let number = position / PAGE;
    copy_bytes(patch, alloc, number - first, pages, number, 0, PAGE_SIZE)
}

// Writes the bytes from `at` on.
fn replace_range(pages: &mut Pages, alloc: Global, at: u64, bytes: &[u8]) -> Result<(), AllocError>
    requires { at + length bytes.now < 2 ^ 63 }
    ensures ok { OnOk result (Overlaid pages.old pages.new
        at (at + length bytes.now) (λ p. slice_index bytes.now (p - at))) }
    ensures err { OnErr result (SameBytes pages.old pages.new) }
{
    if bytes.is_empty() {
        return Ok(());
    }
    let hi = at + bytes.len() as u64;
    let first = at / PAGE;
    let offset = at % PAGE;
    let last = (hi - 1) / PAGE;
    if first == last {
        return pages.write(alloc, first, offset as usize, bytes);
    }
    let (ahead, behind) = bytes.split_at((last * PAGE - at) as usize);
    let mut patch = Pages::new(alloc);
    share_parted(pages, alloc, &mut patch, first, at)?;
    put_range(&mut patch, alloc, offset, ahead)?;
    share_parted(pages, alloc, &mut patch, first, hi)?;
    put_range(&mut patch, alloc, (last - first) * PAGE, behind)?;
    pages.splice(alloc, first, last + 1, patch)
}

// Writes the bytes from `at` on, and zeros before them from `end` on. What lies at `end` and above
// was not seen before, so it may change even where memory is wanting.
pub(crate) fn write_range(
    pages: &mut Pages,
    alloc: Global,
    end: u64,
    at: u64,
    bytes: &[u8],
) -> Result<(), AllocError>
    requires { at + length bytes.now < 2 ^ 63 }
    ensures ok { OnOk result (WrittenAt pages.old pages.new (min at end) at bytes.now) }
    ensures err { OnErr result (SameBelow pages.old pages.new end) }
{
    if at < end {
        return replace_range(pages, alloc, at, bytes);
    }
    zero_range(pages, alloc, end, at)?;
    put_range(pages, alloc, at, bytes)
}
