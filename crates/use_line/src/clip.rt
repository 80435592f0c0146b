//! The reads that are left to tell, the latest one first.
ghost use Rattle.std.specs.BinaryHeap.{heap_items, heap_len};
ghost use Rattle.std.specs.Option.{IfNone};
ghost use Rattle.std.specs.Prelude.{◌≡◌, ◌<◌, ◌≤◌, ◌+◌, ◌*◌, ◌-◌, ◌||◌, ◌&&◌, ℕ, List, [], IfSome, OnOk};
ghost use Rattle.use_line.specs.Known.{is_among, readers_at};
ghost use Rattle.use_line.specs.Queue.{AreBelow, AreFilled, IsNext, has_reader, is_due, weight, weight_of};
ghost use Rattle.use_line.specs.Spans.{within};
ghost use Rattle.use_line.specs.Steps.{AllBelow, step_at};
ghost use Rattle.use_line.specs.declared.read.Read.{Read};

use crate::steps::Steps;
use std::alloc::AllocError;
use std::collections::BinaryHeap;

/// A part of a read, by its number: what stands there is to be told, down to the oldest read.
#[derive(Clone, Copy, PartialEq, Eq, PartialOrd, Ord)]
pub(crate) struct Clip {
    pub(crate) read: u32,
    pub(crate) low: u128,
    pub(crate) high: u128,
}

/// Takes out the last clip of the latest read, together with those of that read that touch it.
pub(crate) fn next_clip(queue: &mut BinaryHeap<Clip>) -> Option<Clip>
    requires { AreFilled (heap_items queue.old) }
    ensures none { IfNone result (heap_items queue.old ≡ []) }
    ensures filled { IfSome result (λ c. (c.low < c.high) × AreFilled (heap_items queue.new)) }
    ensures below { IfSome result (λ c. (n : ℕ) → AreBelow n (heap_items queue.old)
        → (c.read < n) × AreBelow n (heap_items queue.new)) }
    ensures due { IfSome result (λ c. (all : List Read) → (b j : ℕ)
        → is_due all (heap_items queue.old) b j
        ≡ (has_reader all c b j || is_due all (heap_items queue.new) b j)) }
    ensures weight { IfSome result (λ c. weight (heap_items queue.old)
        ≡ weight_of c + weight (heap_items queue.new)) }
{
    let Some(mut clip) = queue.pop() else {
        return None;
    };
    while let Some(low) = touching(queue, &clip) {
        queue.pop();
        clip.low = low;
    }
    Some(clip)
}

/// Where the next clip begins, if it is of a clip's read and ends where that begins.
fn touching(queue: &BinaryHeap<Clip>, clip: &Clip) -> Option<u128>
    ensures some { IfSome result (λ low. 0 < heap_len queue.now) }
    ensures next { IfSome result (λ low. IsNext (heap_items queue.now) clip.now low) }
{
    match queue.peek() {
        Some(next) if next.read == clip.read && next.high == clip.low => Some(next.low),
        _ => None,
    }
}

/// Adds the reads that a read stands upon within a range, by what it has kept of them.
pub(crate) fn add_older(
    older: &Steps,
    low: u128,
    high: u128,
    queue: &mut BinaryHeap<Clip>,
) -> Result<(), AllocError>
    requires { low < high }
    ensures filled { OnOk result (AreFilled (heap_items queue.old) → AreFilled (heap_items queue.new)) }
    ensures below { OnOk result ((n : ℕ) → AllBelow older.now n → AreBelow n (heap_items queue.old)
        → AreBelow n (heap_items queue.new)) }
    ensures due { OnOk result ((all : List Read) → (b j : ℕ) → is_due all (heap_items queue.new) b j
        ≡ (is_due all (heap_items queue.old) b j
        || (within low high b && is_among (readers_at all (step_at older.now b) b) j))) }
    ensures weight { OnOk result ((n : ℕ) → AllBelow older.now n → weight (heap_items queue.new)
        ≤ weight (heap_items queue.old) + (high - low) * n) }
{
    let mut end = high;
    while low < end {
        let (start, value) = older.last_part(low, end);
        if let Some(read) = value {
            queue.push(Clip {
                read,
                low: start,
                high: end,
            })?;
        }
        end = start;
    }
    Ok(())
}
