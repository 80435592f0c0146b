//! Bytes that were read.
ghost use Rattle.std.specs.Prelude.{◌≡◌, ◌-◌, ◌<◌, ◌≤◌, ◌↔◌, [], length, take, IfOk, IsTrue};
ghost use Rattle.std.specs.Prelude.{replicate, IfNone, IfSome};
ghost use Rattle.extent_bytes.specs.Bytes.{range_of};

use crate::extents::{Extents, MAX_LEN};
use crate::page::is_blank;
use crate::page_part::PagePart;
use crate::shared_pages::SharedPages;
use std::alloc::{AllocError, Global};
use std::marker::Model;

/// The most bytes that are copied where they are kept, or do not lie in one stored page. More are
/// shared: half a page, so that a page that is changed after it was read, and so copied then, has
/// cost no more than twice what a copy of the bytes would have.
pub const MOST_COPIED: u64 = 2_048;

/// The most bytes that [`ReadBytes::front`] shows.
pub const FRONT: usize = 64;

/// Bytes that share their pages, and the first of them as plain bytes.
#[derive(Drop)]
pub(crate) struct SharedBytes {
    pub list: SharedPages,
    pub front: Vec<u8>,
}

/// How bytes that were read are kept.
#[derive(Drop)]
pub(crate) enum Kept {
    Plain(Vec<u8>),
    // All of them lie in one page, which is stored. They may be few.
    Part(PagePart),
    Shared(Box<SharedBytes>),
}

/// Bytes that were read. Those that lie in one stored page share it. Of others up to 2,048 are a
/// copy, and more share the pages that they were read from, so that zeros take no memory.
///
/// Few bytes share their page while they are looked at. Who keeps them copies what
/// [`ReadBytes::few`] gives, so that the page has one owner again.
#[derive(Drop)]
pub struct ReadBytes {
    kept: Kept,
}

impl Model for ReadBytes {
    ghost use Rattle.std.specs.Prelude.{ℕ, List};

    ghost Value = { List ℕ };

    ghost use Rattle.extent_bytes.specs.Reading.{IsKept, kept_bytes};

    ghost view = { λ b. kept_bytes b.kept };

    ghost invariant = { λ b. IsKept b.kept };
}

impl ReadBytes {
    /// No bytes. It takes no memory.
    pub fn none(alloc: Global) -> Self
        ensures { result ≡ [] }
    {
        ReadBytes {
            kept: Kept::Plain(Vec::new(alloc)),
        }
    }

    /// A few bytes of no file. It takes no memory.
    pub fn plain(bytes: Vec<u8>) -> Self
        requires { length bytes.items ≤ MOST_COPIED }
        ensures { result ≡ bytes.items }
    {
        ReadBytes {
            kept: Kept::Plain(bytes),
        }
    }

    /// The bytes of a list from `lo` up to `hi`.
    ///
    /// # Errors
    ///
    /// Out of memory.
    #[inline(always)]
    pub fn of(alloc: Global, list: &Extents, lo: u64, hi: u64) -> Result<Self, AllocError>
        requires forward { lo ≤ hi }
        requires inside { hi ≤ length list.now }
        ensures { IfOk result (λ bytes. bytes ≡ range_of list.now lo hi) }
    {
        if lo == hi {
            return Ok(ReadBytes::none(alloc));
        }
        match list.part(lo, hi)? {
            Some(part) => Ok(ReadBytes {
                kept: Kept::Part(part),
            }),
            None => ReadBytes::spread(alloc, list, lo, hi),
        }
    }

    /// Bytes of a list that do not lie in one stored page. It is a function of its own, so that
    /// [`ReadBytes::of`] stays short where it is inlined.
    #[inline(never)]
    fn spread(alloc: Global, list: &Extents, lo: u64, hi: u64) -> Result<Self, AllocError>
        requires forward { lo ≤ hi }
        requires inside { hi ≤ length list.now }
        ensures { IfOk result (λ bytes. bytes ≡ range_of list.now lo hi) }
    {
        if hi - lo <= MOST_COPIED {
            return Ok(ReadBytes {
                kept: Kept::Plain(list.read(lo, hi)?),
            });
        }
        let front = list.read(lo, lo + FRONT as u64)?;
        let list = SharedPages::of(alloc, list, lo, hi)?;
        let shared = Box::new(alloc, SharedBytes { list, front })?;
        Ok(ReadBytes {
            kept: Kept::Shared(shared),
        })
    }

    /// How many bytes there are.
    pub fn len(&self) -> u64
        ensures value { result ≡ length self.now }
        ensures bound { length self.now ≤ MAX_LEN }
    {
        match &self.kept {
            Kept::Plain(bytes) => bytes.len() as u64,
            Kept::Part(part) => part.as_slice().len() as u64,
            Kept::Shared(shared) => shared.list.len(),
        }
    }

    /// All of them, where there are at most 2,048. It takes no memory.
    pub fn few(&self) -> Option<&[u8]>
        ensures all { IfSome result (λ few. few.now ≡ self.now) }
        ensures few { IfSome result (λ few. length few.now ≤ MOST_COPIED) }
        ensures many { IfNone result (MOST_COPIED < length self.now) }
    {
        match &self.kept {
            Kept::Plain(bytes) => Some(bytes),
            Kept::Part(part) => {
                let bytes = part.as_slice();
                if bytes.len() as u64 <= MOST_COPIED {
                    Some(bytes)
                } else {
                    None
                }
            }
            Kept::Shared(_) => None,
        }
    }

    /// The first bytes, up to `count` of them. It takes no memory.
    pub fn front(&self, count: usize) -> &[u8]
        requires { count ≤ FRONT }
        ensures { result.now ≡ take count self.now }
    {
        let bytes: &[u8] = match &self.kept {
            Kept::Plain(bytes) => bytes,
            Kept::Part(part) => part.as_slice(),
            Kept::Shared(shared) => &shared.front,
        };
        let end = count.min(bytes.len());
        &bytes[..end]
    }

    /// A copy of the bytes from `lo` up to `hi`.
    ///
    /// # Errors
    ///
    /// Out of memory.
    #[tactic(auto, unfolding(crate::specs::Bytes::range_of))]
    pub fn read(&self, alloc: Global, lo: u64, hi: u64) -> Result<Vec<u8>, AllocError>
        requires forward { lo ≤ hi }
        requires inside { hi ≤ length self.now }
        ensures { IfOk result (λ bytes. bytes.items ≡ range_of self.now lo hi) }
    {
        match &self.kept {
            Kept::Plain(bytes) => Vec::from_slice(alloc, &bytes[lo as usize..hi as usize]),
            Kept::Part(part) => {
                let bytes = part.as_slice();
                Vec::from_slice(alloc, &bytes[lo as usize..hi as usize])
            }
            Kept::Shared(shared) => shared.list.read(alloc, lo, hi),
        }
    }

    /// Whether both are the same bytes. It takes no memory, and of shared ones only looks at stored
    /// pages.
    pub fn same(&self, other: &ReadBytes) -> bool
        ensures { IsTrue result ↔ (self.now ≡ other.now) }
    {
        match (&self.kept, &other.kept) {
            (Kept::Plain(bytes), Kept::Plain(others)) => bytes.as_slice() == others.as_slice(),
            (Kept::Plain(bytes), Kept::Part(part)) => bytes.as_slice() == part.as_slice(),
            (Kept::Part(part), Kept::Plain(bytes)) => part.as_slice() == bytes.as_slice(),
            (Kept::Part(part), Kept::Part(others)) => part.as_slice() == others.as_slice(),
            (Kept::Part(part), Kept::Shared(shared)) => shared.list.is_slice(part.as_slice()),
            (Kept::Shared(shared), Kept::Part(part)) => shared.list.is_slice(part.as_slice()),
            (Kept::Shared(shared), Kept::Shared(others)) => shared.list.same(&others.list),
            _ => false,
        }
    }

    /// How many zeros they begin with, at least: of a whole list those before the first stored page
    /// that has another byte, and all where there is none.
    pub fn zeros_ahead(&self) -> u64
        ensures within { result ≤ length self.now }
        ensures zeros { take result self.now ≡ replicate result 0 }
    {
        match &self.kept {
            Kept::Plain(bytes) => blank_len(bytes),
            Kept::Part(part) => blank_len(part.as_slice()),
            Kept::Shared(shared) => shared.list.zeros_ahead(),
        }
    }
}

/// How many bytes there are, where all are zeros, and else none.
fn blank_len(bytes: &[u8]) -> u64
    ensures within { result ≤ length bytes.now }
    ensures zeros { take result bytes.now ≡ replicate result 0 }
{
    if is_blank(bytes) {
        bytes.len() as u64
    } else {
        0
    }
}
