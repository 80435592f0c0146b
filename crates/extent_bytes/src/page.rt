// A page of bytes. Several owners may share one, and each sees its own bytes.
ghost use Rattle.std.specs.Prelude.{◌≡◌, ◌+◌, ◌-◌, ◌≤◌, ◌↔◌, length, take, drop};
ghost use Rattle.std.specs.Prelude.{IsTrue, All, IfOk, OnOk, OnErr};
ghost use Rattle.extent_bytes.specs.Bytes.{overwritten};
ghost use Rattle.extent_bytes.specs.Pages.{blank_page};

use std::alloc::{AllocError, Global};
use std::marker::Model;
use std::sync::Arc;

pub(crate) const PAGE_SIZE: usize = 4096;

// Whether all bytes are zeros.
pub(crate) fn is_blank(bytes: &[u8]) -> bool
    ensures { IsTrue result ↔ All (λ byte. byte ≡ 0) bytes.now }
{
    bytes.iter().all(|&byte| byte == 0)
}

// Writes the bytes at a place in a page.
fn put(page: &mut [u8; PAGE_SIZE], at: usize, bytes: &[u8])
    requires { at + length bytes.now ≤ PAGE_SIZE }
    ensures { page.new ≡ overwritten page.old at bytes.now }
{
    page[at..at + bytes.len()].copy_from_slice(bytes);
}

// A text, whose bytes pages may share.
pub(crate) type Text = Arc<Vec<u8>>;

// Where a page has its bytes.
#[derive(Drop)]
pub(crate) enum Home {
    // Apart, for pages alone.
    Apart(Arc<[u8; PAGE_SIZE]>),
    // In a text, from a place on.
    Within(Text, usize),
}

#[derive(Drop)]
pub(crate) struct Page {
    home: Home,
}

impl Model for Page {
    ghost use Rattle.std.specs.Prelude.{ℕ, List};
    ghost use Rattle.extent_bytes.specs.Homes.{IsHome, page_in};

    ghost Value = { List ℕ };

    ghost view = { λ p. page_in p.home };

    ghost invariant = { λ p. IsHome p.home };
}

impl Clone for Page {
    ghost is_clone = { λ page copy. copy ≡ page };

    // The same bytes, with one more owner.
    fn clone(&self) -> Result<Page, AllocError> {
        let home = match &self.home {
            Home::Apart(bytes) => Home::Apart(Arc::try_clone(bytes)?),
            Home::Within(text, from) => Home::Within(Arc::try_clone(text)?, *from),
        };
        Ok(Page { home })
    }
}

impl Page {
    // A page of zeros.
    pub(crate) fn blank(alloc: Global) -> Result<Page, AllocError>
        ensures { IfOk result (λ page. page ≡ blank_page) }
    {
        Ok(Page {
            home: Home::Apart(Arc::new(alloc, [0; PAGE_SIZE])?),
        })
    }

    // The bytes of a text from a place on, as many as a page has. They are not copied.
    pub(crate) fn within(text: &Text, from: usize) -> Result<Page, AllocError>
        requires { from + PAGE_SIZE ≤ length text.now.value.items }
        ensures { IfOk result (λ page. page ≡ take PAGE_SIZE (drop from text.now.value.items)) }
    {
        Ok(Page {
            home: Home::Within(Arc::try_clone(text)?, from),
        })
    }

    // A page with the bytes at a place, and zeros elsewhere.
    pub(crate) fn new(alloc: Global, at: usize, bytes: &[u8]) -> Result<Page, AllocError>
        requires { at + length bytes.now ≤ PAGE_SIZE }
        ensures { IfOk result (λ page. page ≡ overwritten blank_page at bytes.now) }
    {
        if let Some(whole) = bytes.as_array() {
            return Ok(Page {
                home: Home::Apart(Arc::new(alloc, *whole)?),
            });
        }
        let mut page = Page::blank(alloc)?;
        page.write(alloc, at, bytes)?;
        Ok(page)
    }

    pub(crate) fn as_slice(&self) -> &[u8]
        ensures bytes { result.now ≡ self.now }
        ensures len { length self.now ≡ PAGE_SIZE }
    {
        match &self.home {
            Home::Apart(bytes) => {
                let bytes: &[u8; PAGE_SIZE] = bytes;
                bytes
            }
            Home::Within(text, from) => &text[*from..*from + PAGE_SIZE],
        }
    }

    // A copy of the bytes.
    fn copied(&self) -> [u8; PAGE_SIZE]
        ensures { result ≡ self.now }
    {
        let mut bytes = [0; PAGE_SIZE];
        bytes.copy_from_slice(self.as_slice());
        bytes
    }

    // Writes the bytes in place, or into a copy where the page has another owner.
    pub(crate) fn write(&mut self, alloc: Global, at: usize, bytes: &[u8]) -> Result<(), AllocError>
        requires { at + length bytes.now ≤ PAGE_SIZE }
        ensures ok { OnOk result (self.new ≡ overwritten self.old at bytes.now) }
        ensures err { OnErr result (self.new ≡ self.old) }
    {
        if let Home::Apart(page) = &mut self.home
            && let Some(page) = Arc::get_mut(page)
        {
            put(page, at, bytes);
            return Ok(());
        }
        self.write_copy(alloc, at, bytes)
    }

    // Writes the bytes into a copy. It is a function of its own, so that a write in place has no
    // room for a page to fill.
    fn write_copy(&mut self, alloc: Global, at: usize, bytes: &[u8]) -> Result<(), AllocError>
        requires { at + length bytes.now ≤ PAGE_SIZE }
        ensures ok { OnOk result (self.new ≡ overwritten self.old at bytes.now) }
        ensures err { OnErr result (self.new ≡ self.old) }
    {
        let mut page = self.copied();
        put(&mut page, at, bytes);
        self.home = Home::Apart(Arc::new(alloc, page)?);
        Ok(())
    }
}
