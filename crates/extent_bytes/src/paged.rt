// Pages that are only read, whether a map holds them or a list.
ghost use Rattle.std.specs.Prelude.{◌≡◌, ◌+◌, ◌-◌, ◌*◌, ◌≤◌, ◌<◌, ◌^◌, ◌++◌, vec_len};
ghost use Rattle.std.specs.Prelude.{replicate, IfSome, IfNone, IfOk, OnOk};
ghost use Rattle.extent_bytes.specs.Kept.{byte_held};
ghost use Rattle.extent_bytes.specs.Pages.{byte_in, bytes_from};

use crate::page::Page;
use crate::page_bytes::{PAGE, part_of_page};
use crate::pages::Pages;
use std::alloc::{AllocError, Global};

// Pages by their numbers, to be read.
#[derive(Clone, Copy)]
pub(crate) enum Paged<'a> {
    // The pages of a map.
    Map(&'a Pages),
    // Pages that lie one behind another, numbered from 0.
    Run(&'a [Page]),
}

// A part of one page of a list; none where the list ends before it.
fn part_of_run(pages: &[Page], number: u64, from: usize, to: usize) -> Option<&[u8]>
    requires forward { from ≤ to }
    requires inside { to ≤ 4096 }
    ensures part { IfSome result (λ part.
        part.now ≡ bytes_from (byte_in pages.now) (number * 4096 + from) (to - from)) }
    ensures none { IfNone result
        (bytes_from (byte_in pages.now) (number * 4096 + from) (to - from)
        ≡ replicate (to - from) 0) }
{
    match pages.get(number as usize) {
        Some(page) => {
            let stored = page.as_slice();
            Some(&stored[from..to])
        }
        None => None,
    }
}

// Appends a part of one page to the bytes.
fn append_part(
    bytes: &mut Vec<u8>,
    pages: &Paged<'_>,
    number: u64,
    from: usize,
    to: usize,
) -> Result<(), AllocError>
    requires forward { from ≤ to }
    requires inside { to ≤ 4096 }
    requires small { vec_len bytes.old < 2 ^ 62 }
    ensures { OnOk result (bytes.new.items ≡
        bytes.old.items ++ bytes_from (byte_held pages.now) (number * 4096 + from) (to - from)) }
{
    match pages.part(number, from, to) {
        Some(part) => bytes.extend_from_slice(part),
        None => bytes.resize(bytes.len() + (to - from), 0),
    }
}

impl<'a> Paged<'a> {
    // A part of one page; none where the page is not stored, and the part so is zeros.
    pub(crate) fn part(&self, number: u64, from: usize, to: usize) -> Option<&'a [u8]>
        requires forward { from ≤ to }
        requires inside { to ≤ 4096 }
        ensures part { IfSome result (λ part.
            part.now ≡ bytes_from (byte_held self.now) (number * 4096 + from) (to - from)) }
        ensures none { IfNone result
            (bytes_from (byte_held self.now) (number * 4096 + from) (to - from)
            ≡ replicate (to - from) 0) }
    {
        match self {
            Paged::Map(pages) => part_of_page(pages, number, from, to),
            Paged::Run(pages) => part_of_run(pages, number, from, to),
        }
    }

    // A copy of the bytes from one position up to another.
    pub(crate) fn read(&self, alloc: Global, from: u64, to: u64) -> Result<Vec<u8>, AllocError>
        requires forward { from ≤ to }
        requires small { to < 2 ^ 62 }
        ensures value { IfOk result (λ bytes. bytes.items
            ≡ bytes_from (byte_held self.now) from (to - from)) }
        ensures len { IfOk result (λ bytes. vec_len bytes ≡ to - from) }
    {
        let mut bytes = Vec::with_capacity(alloc, (to - from) as usize)?;
        let mut at = from;
        while at < to {
            let offset = at % PAGE;
            let count = (PAGE - offset).min(to - at);
            let (start, end) = (offset as usize, (offset + count) as usize);
            append_part(&mut bytes, self, at / PAGE, start, end)?;
            at += count;
        }
        Ok(bytes)
    }
}
