//! Lists of entries that share a text.
ghost use Rattle.std.specs.Prelude.{◌≡◌, ◌<◌, [], ◌∷◌, ◌++◌, All, length, map, take, Some, None, IfOk};
ghost use Rattle.std.specs.Int.{w32, to_le_bytes};
ghost use Rattle.std.specs.List.{slice_get};
ghost use Rattle.std.specs.Prelude.{OnOk, OnErr};
ghost use Rattle.trace_format.specs.Blobs.{sliced};
ghost use Rattle.trace_format.specs.Entries.{IsInside, entry_at};

use crate::blob::{Text, TextSlice};
use crate::entry::Entry;
use sqe_codec::{Sqe, pack, unpack};
use std::alloc::{AllocError, Global};
use std::marker::Model;
use std::mem;
use std::sync::Arc;

/// How many bytes a text has of an entry before those beside it: its fields, and four more, which
/// have the length of what is beside it where that was read.
const HEAD: usize = 68;

/// Where a text has an entry, and how many bytes are beside it there.
#[derive(Clone, Copy)]
pub(crate) struct Spot {
    pub at: u32,
    pub len: u32,
}

impl Spot {
    /// The fields of the entry that a text has here.
    #[inline(always)]
    pub(crate) fn sqe(self, text: &Text) -> Sqe
        requires { IsInside text.now.value.items self }
        ensures { result ≡ (entry_at text.entry.now.value.items self).sqe }
    {
        let from = self.at as usize;
        let mut bytes = [0; 64];
        bytes.copy_from_slice(&text[from..from + 64]);
        unpack(&bytes)
    }

    /// The bytes beside the entry that a text has here.
    #[inline(always)]
    pub(crate) fn side(self, text: &Text) -> TextSlice<'_>
        requires { IsInside text.now.value.items self }
        ensures { sliced result ≡ (entry_at text.entry.now.value.items self).side }
    {
        TextSlice::of(text, self.at as usize + HEAD, self.len as usize)
    }
}

/// Entries of one io_uring_enter(2), in the order of their submission. They are ranges of a text
/// that several lists share: neither fields nor bytes are copied.
#[derive(Drop)]
pub struct Entries {
    text: Text,
    spots: Vec<Spot>,
}

impl Model for Entries {
    ghost use Rattle.std.specs.Prelude.{All, List, map};
    ghost use Rattle.trace_format.specs.Submitted.{Submitted};

    ghost Value = { List Submitted };

    ghost use Rattle.trace_format.specs.Entries.{IsInside, entry_at};

    ghost view = { λ e. map (entry_at e.text.value.items) e.spots.items };

    ghost invariant = { λ e. All (IsInside e.text.value.items) e.spots.items };
}

impl Entries {
    /// The entries at some spots of a text.
    pub(crate) fn part(text: &Text, spots: Vec<Spot>) -> Result<Self, AllocError>
        requires { All (IsInside text.now.value.items) spots.items }
        ensures { IfOk result (λ e. e ≡ map (entry_at text.now.value.items) spots.items) }
    {
        Ok(Entries {
            text: Arc::try_clone(text)?,
            spots,
        })
    }

    /// How many there are.
    pub fn len(&self) -> usize
        ensures { result ≡ length self.now }
    {
        self.spots.len()
    }

    /// The entry of a number, from 0.
    #[inline(always)]
    pub fn at(&self, number: usize) -> Entry<'_>
        requires { number < length self.now }
        ensures { slice_get self.now number ≡ Some result }
    {
        Entry::within(&self.text, self.spots[number])
    }
}

/// Entries that are put together one by one, with a text of their own.
#[derive(Drop)]
pub struct EntriesBuilder {
    text: Vec<u8>,
    spots: Vec<Spot>,
}

impl Model for EntriesBuilder {
    ghost use Rattle.std.specs.Prelude.{All, List, map};
    ghost use Rattle.trace_format.specs.Submitted.{Submitted};

    ghost Value = { List Submitted };

    ghost use Rattle.trace_format.specs.Entries.{IsInside, entry_at};

    ghost view = { λ e. map (entry_at e.text.items) e.spots.items };

    ghost invariant = { λ e. All (IsInside e.text.items) e.spots.items };
}

/// The fields of an entry, and the bytes beside it with their length, at the end of a text.
fn add_text(
    text: &mut Vec<u8>,
    fields: &[u8; 64],
    side_len: u32,
    side: &[u8],
) -> Result<(), AllocError>
    ensures added { OnOk result (text.new.items
        ≡ ((text.old.items ++ fields.now) ++ to_le_bytes w32 side_len) ++ side.now) }
    // What was there is there still, after an error too.
    ensures kept { take (length text.old.items) text.new.items ≡ text.old.items }
{
    text.extend_from_slice(fields)?;
    text.extend_from_slice(&side_len.to_le_bytes())?;
    text.extend_from_slice(side)
}

impl EntriesBuilder {
    /// No entries. It takes no memory.
    pub fn new(alloc: Global) -> Self
        ensures { result ≡ [] }
    {
        EntriesBuilder {
            text: Vec::new(alloc),
            spots: Vec::new(alloc),
        }
    }

    /// Adds an entry of these fields, with these bytes beside it.
    ///
    /// # Errors
    ///
    /// `AllocError` where an allocation was refused, or where a length is beyond a `u32`: that of
    /// the bytes beside it, or of the text of all entries before it. There is no new entry then.
    pub fn push(&mut self, sqe: &Sqe, side: &[u8]) -> Result<(), AllocError>
        ensures added { OnOk result
            (self.new ≡ self.old ++ record { sqe = sqe.now; side = side.now; given = None } ∷ []) }
        ensures kept { OnErr result (self.new ≡ self.old) }
    {
        if side.len() > u32::MAX as usize {
            return Err(AllocError);
        }
        let at = self.text.len();
        if at > u32::MAX as usize {
            return Err(AllocError);
        }
        let len = side.len() as u32;
        add_text(&mut self.text, &pack(sqe), len, side)?;
        self.spots.push(Spot { at: at as u32, len })?;
        Ok(())
    }

    /// The list of them, which are taken out: there are none here then.
    ///
    /// # Errors
    ///
    /// `AllocError` where an allocation was refused, and then they are here still.
    pub fn build(&mut self, alloc: Global) -> Result<Entries, AllocError>
        ensures list { IfOk result (λ e. e ≡ self.old) }
        ensures taken { OnOk result (self.new ≡ []) }
        ensures kept { OnErr result (self.new ≡ self.old) }
    {
        let text = mem::replace(&mut self.text, Vec::new(alloc));
        match Arc::new(alloc, text) {
            Ok(text) => Ok(Entries {
                text,
                spots: mem::replace(&mut self.spots, Vec::new(alloc)),
            }),
            Err(refused) => {
                self.text = refused.value;
                Err(AllocError)
            }
        }
    }
}
