//! The sums of what an image shows, made alone or on several threads.
ghost use Rattle.std.specs.Prelude.{◌<◌, ◌≤◌, All, IfOk, length, max};
ghost use Rattle.replay_report.specs.Sums.{AreSumsOf, IsSum};
ghost use Rattle.world_parts.specs.World.{World};

use crate::sums::{Holder, Summed, Sums, holders_of, len_of, sums_of, zeros_ahead};
use std::alloc::{AllocError, Global};
use std::thread;
use std::thread::Threads;
use world_parts::{Image, State};

/// How many bytes are worth a thread: hashing them takes half a millisecond, and starting a thread
/// a tenth to a third of that.
const WORTH_A_THREAD: u64 = 1 << 17;

/// What one thread sums, from the shortest on, and how many bytes that comes to.
#[derive(Drop)]
struct Share {
    holders: Vec<Holder>,
    bytes: u64,
}

impl Share {
    fn new(alloc: Global) -> Self {
        Share {
            holders: Vec::new(alloc),
            bytes: 0,
        }
    }

    fn add(&mut self, holder: Holder, bytes: u64) -> Result<(), AllocError> {
        self.holders.push(holder)?;
        self.bytes = self.bytes.saturating_add(bytes);
        Ok(())
    }
}

/// The number of the share with the fewest bytes.
fn lightest(shares: &[Share]) -> usize
    requires { 0 < length shares.now }
    ensures { result < length shares.now }
{
    let mut least = 0;
    for number in 1..shares.len() {
        if shares[number].bytes < shares[least].bytes {
            least = number;
        }
    }
    least
}

/// Gives a file or a buffer to the share with the fewest bytes, or to a new one where that has enough
/// for a thread.
fn deal(
    alloc: Global,
    shares: &mut Vec<Share>,
    workers: u32,
    holder: Holder,
    bytes: u64,
) -> Result<(), AllocError>
    requires some { 0 < length shares.old.items }
    ensures some { 0 < length shares.new.items }
    ensures few { length shares.new.items ≤ max (length shares.old.items) workers }
{
    let number = lightest(shares);
    if shares[number].bytes < WORTH_A_THREAD || shares.len() >= workers as usize {
        return shares[number].add(holder, bytes);
    }
    let mut share = Share::new(alloc);
    share.add(holder, bytes)?;
    shares.push(share)?;
    Ok(())
}

/// Deals files and buffers to up to so many shares. What begins with more zeros than there are bytes
/// behind them goes to the first one, where one pass over the most zeros serves them all.
fn dealt(
    alloc: Global,
    world: &State,
    holders: &[Holder],
    workers: u32,
) -> Result<Vec<Share>, AllocError>
    ensures few { IfOk result (λ shares. length shares.items ≤ max 1 workers) }
{
    let mut shares = Vec::new(alloc);
    shares.push(Share::new(alloc))?;
    let mut zeros = 0;
    for holder in holders {
        let Some(len) = len_of(world, *holder) else {
            continue;
        };
        let ahead = zeros_ahead(alloc, world, *holder, len)?;
        let behind = len - ahead;
        if behind <= ahead {
            shares[0].add(*holder, ahead.saturating_sub(zeros).saturating_add(behind))?;
            zeros = zeros.max(ahead);
        } else {
            deal(alloc, &mut shares, workers, *holder, len)?;
        }
    }
    Ok(shares)
}

/// All of the sums that several threads made.
fn together(alloc: Global, made: &[Result<Vec<Summed>, AllocError>]) -> Result<Sums, AllocError>
    ensures { (world : World) → All (λ each. IfOk each (λ sums. All (IsSum world) sums.items)) made.now
        → IfOk result (AreSumsOf world) }
{
    let mut all = Sums::none(alloc);
    for each in made {
        match each {
            Ok(sums) => all.add(sums.as_slice())?,
            Err(_) => return Err(AllocError),
        }
    }
    Ok(all)
}

/// The sums of the files and buffers that an image shows.
///
/// # Errors
///
/// Out of memory.
pub(crate) fn sums_alone(alloc: Global, world: &State, image: &Image) -> Result<Sums, AllocError>
    ensures { IfOk result (AreSumsOf world.now) }
{
    let holders = holders_of(alloc, image)?;
    let made = sums_of(alloc, world, holders.as_slice())?;
    let mut sums = Sums::none(alloc);
    sums.add(made.as_slice())?;
    Ok(sums)
}

/// The same sums, made on up to so many threads, of which this one is the first. Where a thread is
/// refused this one makes its sums.
///
/// # Errors
///
/// Out of memory.
pub(crate) fn sums_on_threads<R: Threads + Sync>(
    rt: &R,
    alloc: Global,
    world: &State,
    image: &Image,
    workers: u32,
) -> Result<Sums, AllocError>
    ensures { IfOk result (AreSumsOf world.now) }
{
    let holders = holders_of(alloc, image)?;
    let shares = dealt(alloc, world, holders.as_slice(), workers)?;
    let made = thread::map_indices(
        rt,
        alloc,
        shares.len(),
        &|number| { sums_of(alloc, world, shares[number].holders.as_slice()) },
    )?;
    together(alloc, made.as_slice())
}
