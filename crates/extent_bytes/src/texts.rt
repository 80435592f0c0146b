// Pages that share a text.
ghost use Rattle.std.specs.Prelude.{◌≡◌, ℕ, ◌+◌, ◌-◌, ◌<◌, ◌≤◌, ◌^◌, length};
ghost use Rattle.std.specs.Prelude.{slice_index, IfOk, OnOk};
ghost use Rattle.extent_bytes.specs.Bytes.{range_of};
ghost use Rattle.extent_bytes.specs.Pages.{byte_at, Overlaid, PageWritten};

use crate::page::{PAGE_SIZE, Page, Text, is_blank};
use crate::page_bytes::PAGE;
use crate::pages::Pages;
use std::alloc::{AllocError, Global};

// Writes the bytes of a text from one place up to another into one page. A whole page shares the
// text, and zeros are not stored where there is no page.
fn put_piece(
    pages: &mut Pages,
    alloc: Global,
    number: u64,
    at: usize,
    text: &Text,
    from: usize,
    to: usize,
) -> Result<(), AllocError>
    requires forward { from ≤ to }
    requires inside { to ≤ length text.now.value.items }
    requires fits { at + (to - from) ≤ PAGE_SIZE }
    ensures { OnOk result
        (PageWritten pages.old pages.new number at (range_of text.now.value.items from to)) }
{
    let bytes = &text[from..to];
    if bytes.len() < PAGE_SIZE || is_blank(bytes) {
        return pages.write(alloc, number, at, bytes);
    }
    pages.put(alloc, number, Page::within(text, from)?)
}

// Writes the bytes of a text from one place up to another from a position on.
fn put_text(
    pages: &mut Pages,
    alloc: Global,
    at: u64,
    text: &Text,
    from: usize,
    to: usize,
) -> Result<(), AllocError>
    requires forward { from ≤ to }
    requires inside { to ≤ length text.now.value.items }
    requires small { at + (to - from) < 2 ^ 63 }
    ensures { OnOk result (Overlaid pages.old pages.new at (at + (to - from))
        (λ p. slice_index text.now.value.items (from + (p - at)))) }
{
    let mut done = from;
    while done < to {
        let position = at + (done - from) as u64;
        let offset = (position % PAGE) as usize;
        let end = (done + (PAGE_SIZE - offset)).min(to);
        put_piece(pages, alloc, position / PAGE, offset, text, done, end)?;
        done = end;
    }
    Ok(())
}

// The bytes of a text from one place up to another as pages, of which the first byte lies at a
// position of page 0.
pub(crate) fn text_pages(
    alloc: Global,
    start: u64,
    text: &Text,
    from: usize,
    to: usize,
) -> Result<Pages, AllocError>
    requires forward { from ≤ to }
    requires inside { to ≤ length text.now.value.items }
    requires small { start + (to - from) < 2 ^ 63 }
    ensures { IfOk result (λ pages. (i : ℕ) → i < to - from
        → byte_at pages (start + i) ≡ slice_index text.now.value.items (from + i)) }
{
    let mut pages = Pages::new(alloc);
    put_text(&mut pages, alloc, start, text, from, to)?;
    Ok(pages)
}
