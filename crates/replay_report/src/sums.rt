//! The SHA-256 sums of what a world holds.
ghost use Rattle.std.specs.Prelude.{◌≡◌, ◌≤◌, [], All, IfOk, IfSome, IsSome, OnOk, Some, length};
ghost use Rattle.std.specs.Prelude.{◌++◌, map, replicate, take, unwrap_or};
ghost use Rattle.std.specs.List.{filter_map, flat_map};
ghost use Rattle.std.specs.Option.{option_map};
ghost use Rattle.extent_bytes.specs.Bytes.{range_of};
ghost use Rattle.sha2.specs.Hashers.{Holds256};
ghost use Rattle.sha2.specs.Sha256.{sha256};
ghost use Rattle.replay_report.specs.Sums.{AreSumsOf, HaveSame, IsSum, buffer_to_sum, file_to_sum};
ghost use Rattle.replay_report.specs.Sums.{held, shown};
ghost use Rattle.world_parts.specs.World.{World};

use crate::zeros::Zeros;
use sha2::{Digest, Sha256};
use std::alloc::{AllocError, Global};
use std::collections::{BTreeMap, BTreeSet};
use world_parts::{BufferEntry, Image, NameEntry, State};

/// The most bytes of a file whose sum is told.
pub const MOST_SUMMED: u64 = 16_777_216;

/// The most bytes that are read at once.
const PIECE: u64 = 1 << 16;

/// What holds bytes in a world.
#[derive(Clone, Copy, Debug, PartialEq, Eq, PartialOrd, Ord)]
pub enum Holder {
    File { node: u32 },
    Buffer { ring: u32, index: u32 },
}

/// A file or a buffer, and the sum of its bytes.
#[derive(Clone, Copy, Drop)]
pub struct Summed {
    pub holder: Holder,
    pub sum: [u8; 32],
}

/// The sums of these files and buffers, of all that are there. The zeros that they begin with take
/// one pass, over the most: they are summed in the order of how many zeros each begins with.
///
/// # Errors
///
/// Out of memory.
pub fn sums_of(alloc: Global, world: &State, holders: &[Holder]) -> Result<Vec<Summed>, AllocError>
    ensures { IfOk result (λ made. All (IsSum world.now) made.items) }
{
    let ordered = by_zeros(alloc, world, holders)?;
    let mut made = Vec::new(alloc);
    let mut zeros = Zeros::new();
    for (_, holder) in ordered.iter() {
        if let Some(len) = len_of(world, *holder) {
            let sum = sum_with(alloc, world, *holder, len, &mut zeros)?;
            made.push(Summed {
                holder: *holder,
                sum,
            })?;
        }
    }
    Ok(made)
}

/// Those of some files and buffers that are there, each behind the number of zeros that it begins
/// with.
fn by_zeros(
    alloc: Global,
    world: &State,
    holders: &[Holder],
) -> Result<BTreeSet<(u64, Holder)>, AllocError> {
    let mut ordered = BTreeSet::new(alloc);
    for holder in holders {
        if let Some(len) = len_of(world, *holder) {
            let ahead = zeros_ahead(alloc, world, *holder, len)?;
            ordered.insert((ahead, *holder))?;
        }
    }
    Ok(ordered)
}

/// The sum of the bytes of a file or a buffer, `len` of them, with the help of a hasher of zeros.
fn sum_with(
    alloc: Global,
    world: &State,
    holder: Holder,
    len: u64,
    zeros: &mut Zeros,
) -> Result<[u8; 32], AllocError>
    requires { option_map length (held world.now holder) ≡ Some len }
    ensures { IfOk result (λ sum. sum ≡ sha256 (unwrap_or (held world.now holder) [])) }
{
    let ahead = zeros_ahead(alloc, world, holder, len)?;
    let hasher = zeros.hasher(ahead)?;
    sum_from(alloc, world, holder, len, hasher, ahead)
}

/// Sums that are made before the report is written: each once, however many names a file has.
#[derive(Drop)]
pub struct Sums {
    known: BTreeMap<Holder, [u8; 32]>,
}

impl Sums {
    /// No sums.
    pub fn none(alloc: Global) -> Self
        ensures { (world : World) → AreSumsOf world result }
    {
        Sums {
            known: BTreeMap::new(alloc),
        }
    }

    /// Adds sums.
    ///
    /// # Errors
    ///
    /// Out of memory.
    pub fn add(&mut self, made: &[Summed]) -> Result<(), AllocError>
        ensures { OnOk result ((world : World) → AreSumsOf world self.old
            → All (IsSum world) made.now → AreSumsOf world self.new) }
    {
        for summed in made {
            let Summed { holder, sum } = *summed;
            self.known.insert(holder, sum)?;
        }
        Ok(())
    }

    /// The sum of the bytes of a file or a buffer, `len` of them.
    ///
    /// # Errors
    ///
    /// Out of memory.
    pub fn get(
        &self,
        alloc: Global,
        world: &State,
        holder: Holder,
        len: u64,
    ) -> Result<[u8; 32], AllocError>
        requires sums { AreSumsOf world.now self.now }
        requires len { option_map length (held world.now holder) ≡ Some len }
        ensures { IfOk result (λ sum. sum ≡ sha256 (unwrap_or (held world.now holder) [])) }
    {
        match self.known.get(&holder) {
            Some(sum) => Ok(*sum),
            None => sum_of(alloc, world, holder, len),
        }
    }
}

/// The file of a name that has a sum, behind its size.
fn file_to_sum(name: &NameEntry) -> Option<(u64, Holder)>
    ensures { result ≡ file_to_sum name.now }
{
    match name.size {
        Some(len) if len <= MOST_SUMMED => Some((len, Holder::File { node: name.node })),
        _ => None,
    }
}

/// Adds the files that have sums, by their sizes.
fn add_files(shown: &mut BTreeSet<(u64, Holder)>, names: &[NameEntry]) -> Result<(), AllocError>
    ensures { OnOk result
        (HaveSame shown.new.keys (shown.old.keys ++ filter_map file_to_sum names.now)) }
{
    for name in names {
        if let Some(file) = file_to_sum(name) {
            shown.insert(file)?;
        }
    }
    Ok(())
}

/// Adds the buffers, by their lengths.
fn add_buffers(
    shown: &mut BTreeSet<(u64, Holder)>,
    buffers: &[BufferEntry],
) -> Result<(), AllocError>
    ensures { OnOk result
        (HaveSame shown.new.keys (shown.old.keys ++ flat_map buffer_to_sum buffers.now)) }
{
    for buffer in buffers {
        let BufferEntry { ring, index, len } = *buffer;
        shown.insert((len, Holder::Buffer { ring, index }))?;
    }
    Ok(())
}

/// Adds the files and buffers that an image shows with a sum, each behind its length.
fn add_shown(set: &mut BTreeSet<(u64, Holder)>, image: &Image) -> Result<(), AllocError>
    requires { set.old.keys ≡ [] }
    ensures { OnOk result (HaveSame set.new.keys (shown image.now)) }
{
    add_files(set, image.names.as_slice())?;
    add_buffers(set, image.buffers.as_slice())
}

/// Files and buffers without their lengths, from the shortest on.
fn by_length(alloc: Global, set: &BTreeSet<(u64, Holder)>) -> Result<Vec<Holder>, AllocError>
    ensures { IfOk result (λ holders. holders.items ≡ map (λ it. it.1) set.now.keys) }
{
    let mut holders = Vec::new(alloc);
    for (_, holder) in set.iter() {
        holders.push(*holder)?;
    }
    Ok(holders)
}

/// The files and buffers that an image shows with a sum, from the shortest on.
///
/// # Errors
///
/// Out of memory.
pub fn holders_of(alloc: Global, image: &Image) -> Result<Vec<Holder>, AllocError>
    ensures { IfOk result (λ holders. HaveSame holders.items (map (λ it. it.1) (shown image.now))) }
{
    let mut set = BTreeSet::new(alloc);
    add_shown(&mut set, image)?;
    by_length(alloc, &set)
}

/// How many bytes a file or a buffer has.
pub fn len_of(world: &State, holder: Holder) -> Option<u64>
    ensures { result ≡ option_map length (held world.now holder) }
{
    match holder {
        Holder::File { node } => world.size(node),
        Holder::Buffer { ring, index } => world.buffer_len(ring, index),
    }
}

/// How many zeros a file or a buffer of `len` bytes begins with, at least: those before its first
/// stored page that has another byte.
///
/// # Errors
///
/// Out of memory.
pub fn zeros_ahead(
    alloc: Global,
    world: &State,
    holder: Holder,
    len: u64,
) -> Result<u64, AllocError>
    requires { option_map length (held world.now holder) ≡ Some len }
    ensures within { IfOk result (λ zeros. zeros ≤ len) }
    ensures zeros { IfOk result (λ zeros.
        take zeros (unwrap_or (held world.now holder) []) ≡ replicate zeros 0) }
{
    match holder {
        Holder::File { node } => zeros_of_file(alloc, world, node, len),
        Holder::Buffer { ring, index } => zeros_of_buffer(world, ring, index, len),
    }
}

/// The zeros that a file begins with. Only stored pages are looked at, up to the first that has
/// another byte.
fn zeros_of_file(alloc: Global, world: &State, node: u32, len: u64) -> Result<u64, AllocError>
    requires { option_map length (held world.now (Holder.File node)) ≡ Some len }
    ensures within { IfOk result (λ zeros. zeros ≤ len) }
    ensures zeros { IfOk result (λ zeros.
        take zeros (unwrap_or (held world.now (Holder.File node)) []) ≡ replicate zeros 0) }
{
    let bytes = world.read_shared(alloc, node, 0, len)?;
    Ok(bytes.zeros_ahead())
}

/// The same of a buffer.
fn zeros_of_buffer(world: &State, ring: u32, index: u32, len: u64) -> Result<u64, AllocError>
    requires { option_map length (held world.now (Holder.Buffer ring index)) ≡ Some len }
    ensures within { IfOk result (λ zeros. zeros ≤ len) }
    ensures zeros { IfOk result (λ zeros.
        take zeros (unwrap_or (held world.now (Holder.Buffer ring index)) []) ≡ replicate zeros 0) }
{
    let bytes = world.share_buffer(ring, index, 0, len)?;
    Ok(bytes.zeros_ahead())
}

/// The SHA-256 sum of the bytes of a file or a buffer, `len` of them.
///
/// # Errors
///
/// Out of memory.
fn sum_of(alloc: Global, world: &State, holder: Holder, len: u64) -> Result<[u8; 32], AllocError>
    requires { option_map length (held world.now holder) ≡ Some len }
    ensures { IfOk result (λ sum. sum ≡ sha256 (unwrap_or (held world.now holder) [])) }
{
    sum_from(alloc, world, holder, len, Sha256::new(), 0)
}

/// The same sum, given a hasher of the first bytes. The others are read a piece at a time.
fn sum_from(
    alloc: Global,
    world: &State,
    holder: Holder,
    len: u64,
    mut hasher: Sha256,
    mut done: u64,
) -> Result<[u8; 32], AllocError>
    requires len { option_map length (held world.now holder) ≡ Some len }
    requires within { done ≤ len }
    requires hasher { Holds256 hasher (take done (unwrap_or (held world.now holder) [])) }
    ensures { IfOk result (λ sum. sum ≡ sha256 (unwrap_or (held world.now holder) [])) }
{
    while done < len {
        let next = done + PIECE.min(len - done);
        let piece = piece_of(alloc, world, holder, done, next)?;
        hasher.update(&piece);
        done = next;
    }
    Ok(hasher.finalize())
}

/// The bytes from one offset up to another.
fn piece_of(
    alloc: Global,
    world: &State,
    holder: Holder,
    low: u64,
    high: u64,
) -> Result<Vec<u8>, AllocError>
    requires there { IsSome (held world.now holder) }
    requires forward { low ≤ high }
    requires inside { IfSome (held world.now holder) (λ all. high ≤ length all) }
    ensures { IfOk result (λ piece. piece.items
        ≡ range_of (unwrap_or (held world.now holder) []) low high) }
{
    match holder {
        Holder::File { node } => world.bytes(alloc, node, low, high),
        Holder::Buffer { ring, index } => world.buffer(ring, index, low, high),
    }
}
