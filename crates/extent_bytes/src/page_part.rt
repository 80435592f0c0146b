// Bytes that lie in one page.
ghost use Rattle.std.specs.Prelude.{◌≡◌, ◌-◌, ◌≤◌, length, take, drop, IfOk};

use crate::page::{PAGE_SIZE, Page};
use std::alloc::AllocError;
use std::marker::Model;

// Bytes that lie in one page, which they share. They take no memory of their own.
#[derive(Drop)]
pub(crate) struct PagePart {
    page: Page,
    // Where the first of them lies in the page.
    start: u16,
    len: u16,
}

impl Model for PagePart {
    ghost use Rattle.std.specs.Prelude.{ℕ, List, ◌+◌, ◌≤◌, take, drop};

    ghost Value = { List ℕ };

    ghost view = { λ p. take p.len (drop p.start p.page) };

    ghost invariant = { λ p. p.start + p.len ≤ 4096 };
}

impl PagePart {
    // The bytes of a page from one place up to another.
    #[inline(always)]
    pub(crate) fn of(page: &Page, from: usize, to: usize) -> Result<PagePart, AllocError>
        requires forward { from ≤ to }
        requires inside { to ≤ PAGE_SIZE }
        ensures part { IfOk result (λ part. part ≡ take (to - from) (drop from page.now)) }
        ensures whole { length page.now ≡ PAGE_SIZE }
    {
        let stored = page.as_slice();
        let bytes = &stored[from..to];
        Ok(PagePart {
            page: page.clone()?,
            start: from as u16,
            len: bytes.len() as u16,
        })
    }

    pub(crate) fn as_slice(&self) -> &[u8]
        ensures bytes { result.now ≡ self.now }
        ensures few { length self.now ≤ PAGE_SIZE }
    {
        let start = self.start as usize;
        let stored = self.page.as_slice();
        &stored[start..start + self.len as usize]
    }
}
