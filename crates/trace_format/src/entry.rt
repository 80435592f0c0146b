//! Entries, as they lie in texts.
ghost use Rattle.std.specs.Prelude.{◌≡◌};
ghost use Rattle.trace_format.specs.Blobs.{sliced};
ghost use Rattle.trace_format.specs.Entries.{IsInside, entry_at};

use crate::blob::{Text, TextSlice};
use crate::entries::Spot;
use crate::gathered::EntryBuf;
use crate::given::Given;
use sqe_codec::Sqe;
use std::marker::Model;

/// Where a text has an entry.
#[derive(Clone, Copy)]
pub(crate) enum Stand<'a> {
    /// Its fields, and the bytes beside it behind them.
    Within(Spot),
    /// Nothing of it: it stands elsewhere.
    Apart(&'a EntryBuf),
}

/// A submitted entry, and the bytes in memory that it speaks of, as they lie in texts: neither
/// its fields nor the bytes are copied.
#[derive(Drop)]
pub struct Entry<'a> {
    text: &'a Text,
    stand: Stand<'a>,
}

impl<'a> Model for Entry<'a> {
    ghost use Rattle.trace_format.specs.Submitted.{Submitted};

    ghost Value = { Submitted };

    ghost use Rattle.trace_format.specs.Entries.{IsThere, stands_at};

    ghost view = { λ e. stands_at e.text.now.value.items e.stand };

    ghost invariant = { λ e. IsThere e.text.now.value.items e.stand };
}

impl<'a> Entry<'a> {
    /// The entry that a text has at a spot.
    #[inline(always)]
    pub(crate) fn within(text: &'a Text, spot: Spot) -> Self
        requires { IsInside text.now.value.items spot }
        ensures { result ≡ entry_at text.entry.now.value.items spot }
    {
        Entry {
            text,
            stand: Stand::Within(spot),
        }
    }

    /// An entry that stands in no text.
    #[inline(always)]
    pub(crate) fn apart(nowhere: &'a Text, entry: &'a EntryBuf) -> Self
        ensures { result ≡ entry.entry.now }
    {
        Entry {
            text: nowhere,
            stand: Stand::Apart(entry),
        }
    }

    /// The same entry. It takes no memory.
    #[inline(always)]
    pub fn again(&self) -> Self
        ensures { result ≡ self.now }
    {
        Entry {
            text: self.text,
            stand: self.stand,
        }
    }

    /// The entry's fields.
    pub fn sqe(&self) -> Sqe
        ensures { result ≡ self.now.sqe }
    {
        match self.stand {
            Stand::Within(spot) => spot.sqe(self.text),
            Stand::Apart(entry) => entry.sqe,
        }
    }

    /// The lengths of its vector, the bytes that it writes, or its paths: see [`crate::fits`].
    #[inline(always)]
    pub fn side(&self) -> &'a [u8]
        ensures { result.now ≡ self.now.side }
    {
        self.side_slice().as_slice()
    }

    /// The same bytes, with the text that they lie in.
    #[inline(always)]
    pub fn side_slice(&self) -> TextSlice<'a>
        ensures { sliced result ≡ self.now.side }
    {
        match self.stand {
            Stand::Within(spot) => spot.side(self.text),
            Stand::Apart(entry) => entry.side(self.text),
        }
    }

    /// What the trace gives of it in place of having it decided. Traces of versions 1 and 2 give
    /// nothing.
    #[inline(always)]
    pub fn given(&self) -> Option<Given>
        ensures { result ≡ self.now.given }
    {
        match self.stand {
            Stand::Within(_) => None,
            Stand::Apart(entry) => entry.given,
        }
    }
}
