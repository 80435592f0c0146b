// Bytes of two maps of pages compared. Only stored pages are looked at.
ghost use Rattle.std.specs.Prelude.{◌≡◌, ℕ, ◌+◌, ◌*◌, ◌/◌, ◌<◌, ◌≤◌, ◌^◌, ◌↔◌, length, IsTrue};
ghost use Rattle.extent_bytes.specs.Kept.{byte_held};
ghost use Rattle.extent_bytes.specs.Pages.{byte_at, HoldsAt, PageAgrees, StoredAgree};

use crate::page::{PAGE_SIZE, Page, is_blank};
use crate::page_bytes::PAGE;
use crate::paged::Paged;
use crate::pages::Pages;

// Whether the bytes are those of one page, from a place in it on.
fn page_holds(pages: &Paged<'_>, number: u64, offset: usize, bytes: &[u8]) -> bool
    requires { offset + length bytes.now ≤ PAGE_SIZE }
    ensures { IsTrue result ↔ HoldsAt (byte_held pages.now) (number * 4096 + offset) bytes.now }
{
    match pages.part(number, offset, offset + bytes.len()) {
        Some(stored) => stored == bytes,
        None => is_blank(bytes),
    }
}

// Whether the bytes are those from a position on.
pub(crate) fn holds(pages: &Paged<'_>, at: u64, bytes: &[u8]) -> bool
    requires { at + length bytes.now < 2 ^ 63 }
    ensures { IsTrue result ↔ HoldsAt (byte_held pages.now) at bytes.now }
{
    let mut done = 0;
    while done < bytes.len() {
        let position = at + done as u64;
        let offset = (position % PAGE) as usize;
        let count = (PAGE_SIZE - offset).min(bytes.len() - done);
        if !page_holds(pages, position / PAGE, offset, &bytes[done..done + count]) {
            return false;
        }
        done += count;
    }
    true
}

// Whether the bytes of the page of a number that lie from `start` up to `end` are the other map's
// from `other_start` on.
pub(crate) fn page_agrees(
    page: &Page,
    number: u64,
    start: u64,
    end: u64,
    other: &Paged<'_>,
    other_start: u64,
) -> bool
    requires forward { start ≤ end }
    requires small { end < 2 ^ 62 }
    requires near { other_start < 4096 }
    requires first { start / 4096 ≤ number }
    requires last { number * 4096 < end }
    ensures { IsTrue result ↔ PageAgrees page.now number start end
        (byte_held other.now) other_start }
{
    let from = start.max(number * PAGE);
    let to = end.min(number * PAGE + PAGE);
    let stored = page.as_slice();
    let bytes = &stored[(from - number * PAGE) as usize..(to - number * PAGE) as usize];
    holds(other, other_start + (from - start), bytes)
}

// Whether all bytes of stored pages that lie from `start` up to `end` are the other map's from
// `other_start` on.
pub(crate) fn stored_agree(
    pages: &Pages,
    start: u64,
    end: u64,
    other: &Paged<'_>,
    other_start: u64,
) -> bool
    requires forward { start ≤ end }
    requires small { end < 2 ^ 62 }
    requires near { other_start < 4096 }
    ensures { IsTrue result ↔ StoredAgree pages.now start end
        (byte_held other.now) other_start }
{
    let last = end.div_ceil(PAGE);
    let mut at = start / PAGE;
    while let Some((number, page)) = pages.next(at, last) {
        if !page_agrees(page, number, start, end, other, other_start) {
            return false;
        }
        at = number + 1;
    }
    true
}

// The same of the other map, where all bytes of this one's stored pages are its own already: those
// of pages that both have were compared, and what this one lacks is zeros.
pub(crate) fn rest_agrees(other: &Pages, start: u64, end: u64, pages: &Pages) -> bool
    requires forward { start ≤ end }
    requires small { end < 2 ^ 62 }
    requires near { start < 4096 }
    requires compared { StoredAgree pages.now start end (byte_at other.now) start }
    ensures { IsTrue result ↔ StoredAgree other.now start end (byte_at pages.now) start }
{
    let last = end.div_ceil(PAGE);
    let mut at = start / PAGE;
    while let Some((number, page)) = other.next(at, last) {
        at = number + 1;
        if let Some(_) = pages.get(number) {
            continue;
        }
        if !page_agrees(page, number, start, end, &Paged::Map(pages), start) {
            return false;
        }
    }
    true
}

// How many zeros there are from `start` on and up to `end`, up to the first stored page that has
// another byte.
pub(crate) fn zeros_ahead(pages: &Pages, start: u64, end: u64) -> u64
    requires forward { start ≤ end }
    requires small { end < 2 ^ 62 }
    ensures within { start + result ≤ end }
    ensures zeros { (i : ℕ) → i < result → byte_at pages.now (start + i) ≡ 0 }
{
    let last = end.div_ceil(PAGE);
    let mut at = start / PAGE;
    while let Some((number, page)) = pages.next(at, last) {
        if !is_blank(page.as_slice()) {
            return start.max(number * PAGE) - start;
        }
        at = number + 1;
    }
    end - start
}
