// Ranges of a map of pages as maps of their own.
ghost use Rattle.std.specs.Prelude.{◌+◌, ◌-◌, ◌*◌, ◌/◌, ◌<◌, ◌≤◌, ◌^◌, IfOk, OnOk};
ghost use Rattle.extent_bytes.specs.Pages.{SameRange, PageMoved};

use crate::page::Page;
use crate::page_bytes::{PAGE, put_range};
use crate::pages::Pages;
use std::alloc::{AllocError, Global};

// The bytes of the page of a number that lie from `start` up to `end`, written from `target` on.
fn move_page(
    moved: &mut Pages,
    alloc: Global,
    page: &Page,
    number: u64,
    start: u64,
    end: u64,
    target: u64,
) -> Result<(), AllocError>
    requires forward { start ≤ end }
    requires small { end < 2 ^ 62 }
    requires near { target < 4096 }
    requires first { start / 4096 ≤ number }
    requires last { number * 4096 < end }
    ensures { OnOk result (PageMoved moved.old moved.new page.now number start end target) }
{
    let from = start.max(number * PAGE);
    let to = end.min(number * PAGE + PAGE);
    let stored = page.as_slice();
    let bytes = &stored[(from - number * PAGE) as usize..(to - number * PAGE) as usize];
    put_range(moved, alloc, target + (from - start), bytes)
}

// The bytes of a range as pages of their own, from another place in page 0 on.
fn moved(
    pages: &Pages,
    alloc: Global,
    start: u64,
    end: u64,
    target: u64,
) -> Result<Pages, AllocError>
    requires forward { start ≤ end }
    requires small { end < 2 ^ 62 }
    requires near { target < 4096 }
    ensures { IfOk result (λ moved. SameRange pages.now start moved target (end - start)) }
{
    let mut moved = Pages::new(alloc);
    let last = end.div_ceil(PAGE);
    let mut at = start / PAGE;
    while let Some((number, page)) = pages.next(at, last) {
        move_page(&mut moved, alloc, page, number, start, end, target)?;
        at = number + 1;
    }
    Ok(moved)
}

// The bytes of a range as pages of their own, from another place in page 0 on. They are copied only
// where that is another place than they have.
pub(crate) fn aligned(
    pages: Pages,
    alloc: Global,
    start: u64,
    end: u64,
    target: u64,
) -> Result<Pages, AllocError>
    requires forward { start ≤ end }
    requires small { end < 2 ^ 62 }
    requires near { target < 4096 }
    ensures { IfOk result (λ moved. SameRange pages start moved target (end - start)) }
{
    if start == target {
        return Ok(pages);
    }
    moved(&pages, alloc, start, end, target)
}
