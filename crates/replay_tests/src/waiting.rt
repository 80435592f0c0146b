//! For which place, and by which item, each place of a trace waited last.
ghost use Rattle.recording.specs.Accepted.{IsAccepted};

use crate::text::six_places;
use recording::Recording;
use replay_core::ReplayFault;
use replay_core::round_log::{RoundLog, WaitedFor, log_rounds};
use std::alloc::Global;
use std::sync::Wait;
use std::test::Fail;
use std::thread::Threads;
use world_parts::Item;

/// Whether it is this place, with these bytes of node 2.
fn is_for_bytes(wait: &Option<WaitedFor>, place: u32, low: u64, high: u64) -> bool {
    match wait {
        Some(
            WaitedFor {
                place: there,
                item: Item::Bytes(2, from, to),
            },
        ) => *there == place && *from == low && *to == high,
        _ => false,
    }
}

/// Whether it is this place, with the flag of this chain.
fn is_for_chain(wait: &Option<WaitedFor>, place: u32, chain: u32) -> bool {
    match wait {
        Some(
            WaitedFor {
                place: there,
                item: Item::Chain(number),
            },
        ) => *there == place && *number == chain,
        _ => false,
    }
}

/// Whether it is this place, with the order of ring 0.
fn is_for_ring(wait: &Option<WaitedFor>, place: u32) -> bool {
    match wait {
        Some(
            WaitedFor {
                place: there,
                item: Item::Ring(0),
            },
        ) => *there == place,
        _ => false,
    }
}

/// The log of those places with a window.
fn log_of<R: Threads + Wait + Sync>(rt: &R, alloc: Global, window: u32) -> Result<RoundLog, Fail> {
    let trace = six_places(alloc)?;
    match log_rounds(rt, alloc, &trace, window) {
        Ok(log) => Ok(log),
        Err(_) => Err(Fail::from("no log")),
    }
}

/// Whether the second write waits for the first one, by the two bytes; the second member for the
/// head of its chain, the third chain, by its flag; the last place, by the order of the ring, for
/// place 3; and no other for any.
fn are_for_latest(waits: &[Option<WaitedFor>]) -> bool {
    match waits {
        [None, second, None, member, None, drain] => {
            is_for_bytes(second, 0, 2, 4) && is_for_chain(member, 2, 2) && is_for_ring(drain, 3)
        }
        _ => false,
    }
}

/// The first round runs places 0, 2 and 4. Before it the last place waits for the latest that is
/// pending, place 4. That one has run before the second round, and the latest is place 3.
#[test]
fn places_wait_for_the_latest_that_holds_them(rt: HostRuntime) -> Result<(), Fail> {
    let log = log_of(&rt, rt.alloc(), 64)?;
    assert_eq!(rt; log.rounds.as_slice(), [0, 1, 0, 1, 0, 2].as_slice());
    assert!(rt; are_for_latest(log.waits.as_slice()));
    Ok(())
}

/// Why there is no log of a trace with a window; none where there is one.
fn fault_of<R: Threads + Wait + Sync>(
    rt: &R,
    alloc: Global,
    trace: &Recording,
    window: u32,
) -> Option<ReplayFault>
    requires { IsAccepted trace.now }
{
    log_rounds(rt, alloc, trace, window).err()
}

#[test]
fn windows_past_the_limits_have_no_log(rt: HostRuntime) -> Result<(), Fail> {
    let trace = six_places(rt.alloc())?;
    for window in [0, 4097] {
        assert_eq!(rt;
            fault_of(&rt, rt.alloc(), &trace, window),
            Some(ReplayFault::Window)
        );
    }
    Ok(())
}
