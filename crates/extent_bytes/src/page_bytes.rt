// Bytes of stored pages, by the number of their page and by their position.
ghost use Rattle.std.specs.Prelude.{◌≡◌, ◌+◌, ◌-◌, ◌*◌, ◌<◌, ◌≤◌, ◌^◌, length};
ghost use Rattle.std.specs.Prelude.{slice_index, replicate, None, IfSome, IfNone};
ghost use Rattle.std.specs.Prelude.{IfOk, OnOk, OnErr};
ghost use Rattle.extent_bytes.specs.Pages.{bytes_of, PageCopied};
ghost use Rattle.extent_bytes.specs.Pages.{SameBytes, SameBelow, Overlaid};

use crate::page::PAGE_SIZE;
use crate::page_part::PagePart;
use crate::pages::Pages;
use std::alloc::{AllocError, Global};

pub(crate) const PAGE: u64 = PAGE_SIZE as u64;

// Writes a part of a page of another map into the same part of one page. A whole page is shared.
pub(crate) fn copy_bytes(
    pages: &mut Pages,
    alloc: Global,
    number: u64,
    source: &Pages,
    source_number: u64,
    from: usize,
    to: usize,
) -> Result<(), AllocError>
    requires forward { from ≤ to }
    requires inside { to ≤ PAGE_SIZE }
    ensures ok { OnOk result
        (PageCopied pages.old pages.new number from to source.now source_number) }
    ensures err { OnErr result (SameBytes pages.old pages.new) }
{
    if from == to {
        return Ok(());
    }
    match source.get(source_number) {
        Some(page) => {
            if to - from == PAGE_SIZE {
                return pages.put(alloc, number, page.clone()?);
            }
            let bytes = page.as_slice();
            pages.write(alloc, number, from, &bytes[from..to])
        }
        None => pages.clear(alloc, number, from, to),
    }
}

// Writes the bytes from a position on. Some may be written before memory is wanting.
pub(crate) fn put_range(
    pages: &mut Pages,
    alloc: Global,
    at: u64,
    bytes: &[u8],
) -> Result<(), AllocError>
    requires { at + length bytes.now < 2 ^ 63 }
    ensures ok { OnOk result (Overlaid pages.old pages.new
        at (at + length bytes.now) (λ p. slice_index bytes.now (p - at))) }
    ensures err { OnErr result (SameBelow pages.old pages.new at) }
{
    let mut done = 0;
    while done < bytes.len() {
        let position = at + done as u64;
        let offset = (position % PAGE) as usize;
        let count = (PAGE_SIZE - offset).min(bytes.len() - done);
        pages.write(alloc, position / PAGE, offset, &bytes[done..done + count])?;
        done += count;
    }
    Ok(())
}

// A part of one page; none where the page is not stored, and the part so is zeros.
pub(crate) fn part_of_page(pages: &Pages, number: u64, from: usize, to: usize) -> Option<&[u8]>
    requires forward { from ≤ to }
    requires inside { to ≤ PAGE_SIZE }
    ensures part { IfSome result (λ part.
        part.now ≡ bytes_of pages.now (number * 4096 + from) (to - from)) }
    ensures none { IfNone result
        (bytes_of pages.now (number * 4096 + from) (to - from) ≡ replicate (to - from) 0) }
{
    match pages.get(number) {
        Some(page) => {
            let stored = page.as_slice();
            Some(&stored[from..to])
        }
        None => None,
    }
}

// A part of one page, which is shared; none where the page is not stored.
#[inline(always)]
pub(crate) fn shared_part(
    pages: &Pages,
    number: u64,
    from: usize,
    to: usize,
) -> Result<Option<PagePart>, AllocError>
    requires forward { from ≤ to }
    requires inside { to ≤ PAGE_SIZE }
    ensures { IfOk result (λ found. IfSome found (λ part.
        part ≡ bytes_of pages.now (number * 4096 + from) (to - from))) }
{
    match pages.get(number) {
        Some(page) => Ok(Some(PagePart::of(page, from, to)?)),
        None => Ok(None),
    }
}

// A copy of a part of one page.
pub(crate) fn copy_of_part(
    pages: &Pages,
    alloc: Global,
    number: u64,
    from: usize,
    to: usize,
) -> Result<Vec<u8>, AllocError>
    requires forward { from ≤ to }
    requires inside { to ≤ PAGE_SIZE }
    ensures { IfOk result (λ bytes.
        bytes.items ≡ bytes_of pages.now (number * 4096 + from) (to - from)) }
{
    match part_of_page(pages, number, from, to) {
        Some(part) => Vec::from_slice(alloc, part),
        None => Vec::from_elem(alloc, 0, to - from),
    }
}
