//! The sums of large files, made of the sums of their pieces.
ghost use Rattle.std.specs.Prelude.{◌≡◌, ◌≤◌, ◌<◌, ◌*◌, ◌+◌, ◌-◌, ◌/◌, ◌^◌, [], IfOk, IsTrue, OnOk, Some, length, replicate};
ghost use Rattle.std.specs.Prelude.{unwrap_or};
ghost use Rattle.std.specs.List.{flat_map, range_with_len};
ghost use Rattle.std.specs.Option.{option_map};
ghost use Rattle.extent_bytes.specs.Bytes.{range_of};
ghost use Rattle.sha2.specs.Hashers.{Holds256};
ghost use Rattle.sha2.specs.Sha256.{sha256};
ghost use Rattle.world_parts.specs.World.{bytes};
ghost use Rattle.replay_report.specs.Sums.{AreTreeSums};
ghost use Rattle.replay_report.specs.TreeSum.{piece, tree_sum};

use crate::sums::MOST_SUMMED;
use crate::zeros::Zeros;
use extent_bytes::{Extents, MAX_LEN, ReadBytes};
use sha2::{Digest, Sha256};
use std::alloc::{AllocError, Global};
use std::collections::{BTreeMap, BTreeSet};
use world_parts::{Image, NameEntry, State};

/// The most bytes that are read at once.
const READ: u64 = 1 << 16;

/// Hashers of zeros: of those of full pieces, and of those that are left behind full pieces.
#[derive(Drop)]
pub(crate) struct Blanks {
    full: Zeros,
    rest: Zeros,
}

impl Blanks {
    fn new() -> Self {
        Blanks {
            full: Zeros::new(),
            rest: Zeros::new(),
        }
    }
}

/// The sums of large files by their nodes: each is made once, however many names a file has.
#[derive(Drop)]
pub(crate) struct TreeSums {
    known: BTreeMap<u32, [u8; 32]>,
}

impl TreeSums {
    /// The sums of the large files that an image shows. They are made in the order of how much is
    /// left behind their full pieces, so that zeros there take one pass, over the most.
    ///
    /// # Errors
    ///
    /// Out of memory.
    pub(crate) fn of(alloc: Global, world: &State, image: &Image) -> Result<Self, AllocError>
        ensures { IfOk result (AreTreeSums world.now) }
    {
        let files = large_files(alloc, image.names.as_slice())?;
        let mut sums = TreeSums {
            known: BTreeMap::new(alloc),
        };
        let mut blanks = Blanks::new();
        for (_, node) in files.iter() {
            sums.add(alloc, world, *node, &mut blanks)?;
        }
        Ok(sums)
    }

    /// Adds the sum of a file.
    fn add(
        &mut self,
        alloc: Global,
        world: &State,
        node: u32,
        blanks: &mut Blanks,
    ) -> Result<(), AllocError>
        ensures { OnOk result (AreTreeSums world.now self.old → AreTreeSums world.now self.new) }
    {
        let Some(len) = world.size(node) else {
            return Ok(());
        };
        let sum = tree_sum_of(alloc, world, node, len, blanks)?;
        self.known.insert(node, sum)?;
        Ok(())
    }

    /// The sum of a file of this length.
    ///
    /// # Errors
    ///
    /// Out of memory.
    pub(crate) fn get(
        &self,
        alloc: Global,
        world: &State,
        node: u32,
        len: u64,
    ) -> Result<[u8; 32], AllocError>
        requires sums { AreTreeSums world.now self.now }
        requires len { option_map length (bytes world.now node) ≡ Some len }
        ensures { IfOk result (λ sum. sum ≡ tree_sum (unwrap_or (bytes world.now node) [])) }
    {
        match self.known.get(&node) {
            Some(sum) => Ok(*sum),
            None => tree_sum_of(alloc, world, node, len, &mut Blanks::new()),
        }
    }
}

/// The large files of some names, each behind how much is left behind its full pieces.
fn large_files(alloc: Global, names: &[NameEntry]) -> Result<BTreeSet<(u64, u32)>, AllocError> {
    let mut files = BTreeSet::new(alloc);
    for name in names {
        match name.size {
            Some(len) if len > MOST_SUMMED => {
                files.insert((len % MOST_SUMMED, name.node))?;
            }
            _ => {}
        }
    }
    Ok(files)
}

/// The sum of a file of this length, made of those of its pieces.
fn tree_sum_of(
    alloc: Global,
    world: &State,
    node: u32,
    len: u64,
    blanks: &mut Blanks,
) -> Result<[u8; 32], AllocError>
    requires { option_map length (bytes world.now node) ≡ Some len }
    ensures { IfOk result (λ sum. sum ≡ tree_sum (unwrap_or (bytes world.now node) [])) }
{
    let hasher = full_pieces(alloc, world, node, len / MOST_SUMMED, &mut blanks.full)?;
    whole_sum(alloc, world, node, len, hasher, &mut blanks.rest)
}

/// The sum of a file, by a hasher of the sums of its full pieces.
fn whole_sum(
    alloc: Global,
    world: &State,
    node: u32,
    len: u64,
    mut hasher: Sha256,
    zeros: &mut Zeros,
) -> Result<[u8; 32], AllocError>
    requires len { length (unwrap_or (bytes world.now node) []) ≡ len }
    requires hasher { Holds256 hasher
        (flat_map (λ number. sha256 (piece MOST_SUMMED (unwrap_or (bytes world.now node) []) number))
        (range_with_len 0 (len / MOST_SUMMED))) }
    ensures { IfOk result (λ sum. sum ≡ tree_sum (unwrap_or (bytes world.now node) [])) }
{
    let done = len / MOST_SUMMED * MOST_SUMMED;
    if done == len {
        return Ok(hasher.finalize());
    }
    let sum = piece_sum(alloc, world, node, done, len, zeros)?;
    hasher.update(&sum);
    Ok(hasher.finalize())
}

/// A hasher of the sums of the full pieces, so many.
fn full_pieces(
    alloc: Global,
    world: &State,
    node: u32,
    count: u64,
    zeros: &mut Zeros,
) -> Result<Sha256, AllocError>
    requires inside { count * MOST_SUMMED ≤ length (unwrap_or (bytes world.now node) []) }
    requires fits { count * MOST_SUMMED < 2 ^ 64 }
    ensures { IfOk result (λ hasher. Holds256 hasher
        (flat_map (λ number. sha256 (piece MOST_SUMMED (unwrap_or (bytes world.now node) []) number))
        (range_with_len 0 count))) }
{
    let mut hasher = Sha256::new();
    for number in 0..count {
        let low = number * MOST_SUMMED;
        let sum = piece_sum(alloc, world, node, low, low + MOST_SUMMED, zeros)?;
        hasher.update(&sum);
    }
    Ok(hasher)
}

/// The sum of the bytes of a file from one offset up to another. Zeros are not read.
fn piece_sum(
    alloc: Global,
    world: &State,
    node: u32,
    low: u64,
    high: u64,
    zeros: &mut Zeros,
) -> Result<[u8; 32], AllocError>
    requires forward { low ≤ high }
    requires few { high ≤ low + MOST_SUMMED }
    requires inside { high ≤ length (unwrap_or (bytes world.now node) []) }
    ensures { IfOk result
        (λ sum. sum ≡ sha256 (range_of (unwrap_or (bytes world.now node) []) low high)) }
{
    if is_blank(alloc, world, node, low, high)? {
        Ok(zeros.hasher(high - low)?.finalize())
    } else {
        range_sum(alloc, world, node, low, high)
    }
}

/// Whether the bytes of a file from one offset up to another are zeros. Only stored pages are looked
/// at, up to the first that has another byte.
fn is_blank(
    alloc: Global,
    world: &State,
    node: u32,
    low: u64,
    high: u64,
) -> Result<bool, AllocError>
    requires forward { low ≤ high }
    requires few { high ≤ low + MOST_SUMMED }
    ensures { IfOk result (λ blank. IsTrue blank
        → range_of (unwrap_or (bytes world.now node) []) low high ≡ replicate (high - low) 0) }
{
    let zeros = zeros_of(alloc, high - low)?;
    let bytes = world.read_shared(alloc, node, low, high)?;
    Ok(bytes.same(&zeros))
}

/// So many zeros.
fn zeros_of(alloc: Global, len: u64) -> Result<ReadBytes, AllocError>
    requires { len ≤ MAX_LEN }
    ensures { IfOk result (λ zeros. zeros ≡ replicate len 0) }
{
    let mut zeros = Extents::new(alloc);
    zeros.set_len(len)?;
    ReadBytes::of(alloc, &zeros, 0, len)
}

/// The sum of the bytes of a file from one offset up to another, which are read a piece at a time.
fn range_sum(
    alloc: Global,
    world: &State,
    node: u32,
    low: u64,
    high: u64,
) -> Result<[u8; 32], AllocError>
    requires forward { low ≤ high }
    requires inside { high ≤ length (unwrap_or (bytes world.now node) []) }
    ensures { IfOk result
        (λ sum. sum ≡ sha256 (range_of (unwrap_or (bytes world.now node) []) low high)) }
{
    let mut hasher = Sha256::new();
    let mut done = low;
    while done < high {
        let next = done + READ.min(high - done);
        let piece = world.bytes(alloc, node, done, next)?;
        hasher.update(&piece);
        done = next;
    }
    Ok(hasher.finalize())
}
