//! Entries that have the bytes beside them, as parts of any texts.
ghost use Rattle.std.specs.Prelude.{◌≡◌, ◌<◌, length, Some, IfOk};
ghost use Rattle.std.specs.List.{slice_get};
ghost use Rattle.trace_format.specs.Blobs.{sliced};

use crate::blob::{Blob, Text, TextSlice};
use crate::entry::Entry;
use crate::given::Given;
use sqe_codec::Sqe;
use std::alloc::{AllocError, Global};
use std::marker::Model;
use std::sync::Arc;

/// A submitted entry with the bytes beside it. An [`Entry`] borrows it.
#[derive(Drop)]
pub struct EntryBuf {
    pub(crate) sqe: Sqe,
    side: Blob,
    pub(crate) given: Option<Given>,
}

impl Model for EntryBuf {
    ghost use Rattle.trace_format.specs.Submitted.{Submitted};

    ghost Value = { Submitted };

    ghost view = { λ e. record { sqe = e.sqe; side = e.side; given = e.given } };
}

impl EntryBuf {
    /// The entry of these fields, with these bytes beside it, none of which is copied, and what is
    /// given of it.
    pub fn new(sqe: Sqe, side: Blob, given: Option<Given>) -> Self
        ensures { result ≡ record { sqe = sqe; side = side; given = given } }
    {
        EntryBuf { sqe, side, given }
    }

    /// The bytes beside it. Where there are none, they are none of this text.
    #[inline(always)]
    pub(crate) fn side<'a>(&'a self, nowhere: &'a Text) -> TextSlice<'a>
        ensures { sliced result ≡ self.entry.now.side }
    {
        match self.side.slice() {
            None => TextSlice::empty(nowhere),
            Some(side) => side,
        }
    }
}

/// Entries of one io_uring_enter(2), in the order of their submission. The bytes beside each stay
/// where they lie.
#[derive(Drop)]
pub struct Gathered {
    /// Where bytes lie that are none.
    nowhere: Text,
    entries: Vec<EntryBuf>,
}

impl Model for Gathered {
    ghost use Rattle.std.specs.Prelude.{List};
    ghost use Rattle.trace_format.specs.Submitted.{Submitted};

    ghost Value = { List Submitted };

    ghost view = { λ e. e.entries.items };
}

impl Gathered {
    /// These entries.
    ///
    /// # Errors
    ///
    /// `AllocError` where an allocation was refused.
    pub fn new(alloc: Global, entries: Vec<EntryBuf>) -> Result<Self, AllocError>
        ensures { IfOk result (λ e. e ≡ entries.items) }
    {
        Ok(Gathered {
            nowhere: Arc::new(alloc, Vec::new(alloc))?,
            entries,
        })
    }

    /// How many there are.
    pub fn len(&self) -> usize
        ensures { result ≡ length self.now }
    {
        self.entries.len()
    }

    /// The entry of a number, from 0.
    #[inline(always)]
    pub fn at(&self, number: usize) -> Entry<'_>
        requires { number < length self.now }
        ensures { slice_get self.now number ≡ Some result }
    {
        Entry::apart(&self.nowhere, &self.entries[number])
    }
}
