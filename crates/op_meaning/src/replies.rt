//! The replies of many places, and one of them as it lies there.
ghost use Rattle.std.specs.Prelude.{◌≡◌, ◌<◌, ◌≤◌, ◌∷◌, ◌++◌, ◌↔◌, ℕ, List, [], length, set, take};
ghost use Rattle.std.specs.Prelude.{Some, IfOk, IsTrue, OnErr, OnOk, slice_get};
ghost use Rattle.extent_bytes.specs.Bytes.{range_of};
ghost use Rattle.op_meaning.specs.Listing.{bytes_at, bytes_here, Extends, IsFewOrMany, IsThere, reply_at};

use crate::reply::Reply;
use extent_bytes::{FRONT, ReadBytes};
use std::alloc::{AllocError, Global};
use std::marker::Model;

/// Where the bytes of a reply are.
#[derive(Clone, Copy)]
pub(crate) enum Spot {
    /// Among those that are copied: how many there are, and where they begin.
    Copied { count: u16, at: u32 },
    /// In one of the lists.
    Listed(u32),
}

/// A reply, with its bytes elsewhere.
#[derive(Clone, Copy)]
pub(crate) struct Line {
    pub res: i32,
    pub posted: bool,
    pub spot: Spot,
}

/// The replies of places, in order. The bytes of a reply lie behind those of others where they are
/// few, so that it takes 16 bytes beside them, and stay in a list of their own where they are many.
#[derive(Drop)]
pub struct Replies {
    lines: Vec<Line>,
    copied: Vec<u8>,
    lists: Vec<ReadBytes>,
}

impl Model for Replies {
    ghost use Rattle.std.specs.Prelude.{List, map};
    ghost use Rattle.op_meaning.specs.declared.reply.Reply.{Reply};
    ghost use Rattle.op_meaning.specs.Listing.{AreThere, reply_at};

    ghost Value = { List Reply };

    ghost view = { λ r. map (reply_at r.copied.items r.lists.items) r.lines.items };

    ghost invariant = { λ r. AreThere r.copied.items r.lists.items r.lines.items };
}

/// Copies few bytes behind others.
fn copy(copied: &mut Vec<u8>, few: &[u8]) -> Result<Spot, AllocError>
    requires { length few.now ≤ 2048 }
    ensures more { Extends copied.old.items copied.new.items }
    ensures there { (lists : List (List ℕ)) → IfOk result (IsThere copied.new.items lists) }
    ensures value { (lists : List (List ℕ))
        → IfOk result (λ spot. bytes_at copied.new.items lists spot ≡ few.now) }
{
    let at = u32::try_from(copied.len()).map_err(|_| AllocError)?;
    copied.extend_from_slice(few)?;
    Ok(Spot::Copied {
        count: few.len() as u16,
        at,
    })
}

/// Puts many bytes behind other lists.
fn list(lists: &mut Vec<ReadBytes>, many: ReadBytes) -> Result<Spot, AllocError>
    requires { 2048 < length many }
    ensures more { Extends lists.old.items lists.new.items }
    ensures there { (copied : List ℕ) → IfOk result (IsThere copied lists.new.items) }
    ensures value { (copied : List ℕ)
        → IfOk result (λ spot. bytes_at copied lists.new.items spot ≡ many) }
{
    let index = u32::try_from(lists.len()).map_err(|_| AllocError)?;
    lists.push(many)?;
    Ok(Spot::Listed(index))
}

/// Keeps the bytes of a reply behind those of others, and gives the line that stands for it.
#[inline(always)]
fn kept(copied: &mut Vec<u8>, lists: &mut Vec<ReadBytes>, reply: Reply) -> Result<Line, AllocError>
    ensures copied { Extends copied.old.items copied.new.items }
    ensures lists { Extends lists.old.items lists.new.items }
    ensures there { IfOk result (λ line. IsThere copied.new.items lists.new.items line.spot) }
    ensures value { IfOk result
        (λ line. reply_at copied.new.items lists.new.items line ≡ reply) }
{
    let Reply { res, bytes, posted } = reply;
    let spot = match bytes.few() {
        Some(few) => copy(copied, few)?,
        None => list(lists, bytes)?,
    };
    Ok(Line { res, posted, spot })
}

impl Replies {
    /// No replies. It takes no memory.
    pub fn new(alloc: Global) -> Self
        ensures { result ≡ [] }
    {
        Replies {
            lines: Vec::new(alloc),
            copied: Vec::new(alloc),
            lists: Vec::new(alloc),
        }
    }

    /// Forgets all replies. The memory that they took is kept for others.
    pub fn clear(&mut self)
        ensures { self.new ≡ [] }
    {
        self.lines.clear();
        self.copied.clear();
        self.lists.clear();
    }

    /// How many replies there are.
    pub fn len(&self) -> usize
        ensures { result ≡ length self.now }
    {
        self.lines.len()
    }

    /// Puts a reply behind the others.
    ///
    /// # Errors
    ///
    /// Out of memory.
    #[inline(always)]
    pub fn push(&mut self, reply: Reply) -> Result<(), AllocError>
        ensures ok { OnOk result (self.new ≡ self.old ++ reply ∷ []) }
        ensures err { OnErr result (self.new ≡ self.old) }
    {
        let line = kept(&mut self.copied, &mut self.lists, reply)?;
        self.lines.push(line)?;
        Ok(())
    }

    /// Puts a reply in the place of another.
    ///
    /// # Errors
    ///
    /// Out of memory.
    #[inline(always)]
    pub fn set(&mut self, place: usize, reply: Reply) -> Result<(), AllocError>
        requires { place < length self.old }
        ensures ok { OnOk result (self.new ≡ set self.old place reply) }
        ensures err { OnErr result (self.new ≡ self.old) }
    {
        let line = kept(&mut self.copied, &mut self.lists, reply)?;
        self.lines[place] = line;
        Ok(())
    }

    /// The reply of a place.
    pub fn get(&self, place: usize) -> ReplyRef<'_>
        requires { place < length self.now }
        ensures { slice_get self.now place ≡ Some result }
    {
        let line = self.lines[place];
        let bytes = match line.spot {
            Spot::Copied { count, at } => {
                let start = at as usize;
                BytesRef::Copied(&self.copied[start..start + usize::from(count)])
            }
            Spot::Listed(index) => BytesRef::Listed(&self.lists[index as usize]),
        };
        ReplyRef {
            res: line.res,
            posted: line.posted,
            bytes,
        }
    }
}

/// Bytes of a reply, where they lie.
#[derive(Clone, Copy)]
pub(crate) enum BytesRef<'a> {
    Copied(&'a [u8]),
    Listed(&'a ReadBytes),
}

/// A reply, as it lies among [`Replies`]. Contracts see the reply.
#[derive(Drop)]
pub struct ReplyRef<'a> {
    res: i32,
    posted: bool,
    bytes: BytesRef<'a>,
}

impl<'a> Model for ReplyRef<'a> {
    ghost use Rattle.op_meaning.specs.declared.reply.Reply.{Reply};
    ghost use Rattle.op_meaning.specs.Listing.{bytes_here, IsFewOrMany};

    ghost Value = { Reply };

    ghost view = { λ r. record { res = r.res; bytes = bytes_here r.bytes; posted = r.posted } };

    ghost invariant = { λ r. IsFewOrMany r.bytes };
}

impl<'a> ReplyRef<'a> {
    /// Its result.
    pub fn res(&self) -> i32
        ensures { result ≡ self.now.res }
    {
        self.res
    }

    /// Whether a completion is posted.
    pub fn posted(&self) -> bool
        ensures { result ≡ self.now.posted }
    {
        self.posted
    }

    /// How many bytes were read.
    pub fn len(&self) -> u64
        ensures { result ≡ length self.now.bytes }
    {
        match self.bytes {
            BytesRef::Copied(bytes) => bytes.len() as u64,
            BytesRef::Listed(bytes) => bytes.len(),
        }
    }

    /// The first bytes that were read, up to `count` of them. It takes no memory.
    pub fn front(&self, count: usize) -> &'a [u8]
        requires { count ≤ FRONT }
        ensures { result.now ≡ take count self.now.bytes }
    {
        match self.bytes {
            BytesRef::Copied(bytes) => &bytes[..count.min(bytes.len())],
            BytesRef::Listed(bytes) => bytes.front(count),
        }
    }

    /// A copy of the bytes that were read, from `lo` up to `hi`.
    ///
    /// # Errors
    ///
    /// Out of memory.
    pub fn read(&self, alloc: Global, lo: u64, hi: u64) -> Result<Vec<u8>, AllocError>
        requires forward { lo ≤ hi }
        requires inside { hi ≤ length self.now.bytes }
        ensures { IfOk result (λ bytes. bytes.items ≡ range_of self.now.bytes lo hi) }
    {
        match self.bytes {
            BytesRef::Copied(bytes) => Vec::from_slice(alloc, &bytes[lo as usize..hi as usize]),
            BytesRef::Listed(bytes) => bytes.read(alloc, lo, hi),
        }
    }

    /// Whether both are the same reply. It takes no memory.
    pub fn same(&self, other: &ReplyRef<'_>) -> bool
        ensures { IsTrue result ↔ (self.now ≡ other.now) }
    {
        self.res == other.res && self.posted == other.posted && is_same(self.bytes, other.bytes)
    }
}

/// Whether both are the same bytes.
fn is_same(one: BytesRef<'_>, other: BytesRef<'_>) -> bool
    requires { IsFewOrMany one × IsFewOrMany other }
    ensures { IsTrue result ↔ (bytes_here one.entry ≡ bytes_here other.entry) }
{
    match (one, other) {
        (BytesRef::Copied(bytes), BytesRef::Copied(others)) => bytes == others,
        (BytesRef::Listed(bytes), BytesRef::Listed(others)) => bytes.same(others),
        _ => false,
    }
}
