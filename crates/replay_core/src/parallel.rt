//! The replay in rounds, each on worker threads.
ghost use Rattle.std.specs.Prelude.{◌≡◌, ◌≢◌, ◌≤◌, ◌<◌, ◌⊎◌, ◌↔◌, Err, IfOk};
ghost use Rattle.replay_core.specs.Rounds.{IsReplay};
ghost use Rattle.recording.specs.Accepted.{IsAccepted};

use crate::gate::Gate;
use crate::progress::Progress;
use crate::round::RoundFault;
use crate::serial::{Replay, ReplayFault};
use recording::Recording;
use std::alloc::Global;
use std::sync::Wait;
use std::thread::Threads;

/// The most workers, and the most places that a round looks at.
const MOST_WORKERS: u32 = 64;

pub(crate) const WIDEST_WINDOW: u32 = 4096;

/// Tests the numbers of workers and of places that a round looks at.
pub(crate) fn checked(workers: u32, window: u32) -> Result<(), ReplayFault>
    ensures workers { (result ≡ Err ReplayFault.Workers) ↔ ((workers ≡ 0) ⊎ (64 < workers)) }
    ensures window { (result ≡ Err ReplayFault.Window) ↔ ((1 ≤ workers) × (workers ≤ 64)
        × ((window ≡ 0) ⊎ (4096 < window))) }
    ensures others { (result ≢ Err ReplayFault.Memory) × (result ≢ Err ReplayFault.NoThread) }
{
    if !(1..=MOST_WORKERS).contains(&workers) {
        return Err(ReplayFault::Workers);
    }
    if !(1..=WIDEST_WINDOW).contains(&window) {
        return Err(ReplayFault::Window);
    }
    Ok(())
}

/// Runs the places of a trace in rounds. Each round looks at the first `window` places that aren't
/// done, runs those that may run now, on as many workers as they are worth by the gate's weights
/// but no more than `workers`, and puts what they made together again in recorded order.
///
/// It gives the world and the replies of the sequential run, and of each place the number of its
/// round: as [`wave_pick::laws::rounds_are_numbered`] says, these rise along each chain, and a
/// barrier's lie behind those of all earlier places of its ring and before those of all later ones.
/// So links and drains hold in its rounds.
///
/// # Errors
///
/// Workers where `workers` isn't 1 to 64; else Window where `window` isn't 1 to 4,096; else Memory,
/// or NoThread where a thread was refused: not with one worker. Then nothing is given.
pub fn replay<R: Threads + Wait + Sync, G: Gate + Sync>(
    rt: &R,
    alloc: Global,
    trace: &Recording,
    workers: u32,
    window: u32,
    gate: &G,
) -> Result<Replay, ReplayFault>
    requires { IsAccepted trace.now }
    ensures replay { IfOk result (λ replay. IsReplay trace.now window replay) }
    ensures workers { (result ≡ Err ReplayFault.Workers) ↔ ((workers ≡ 0) ⊎ (64 < workers)) }
    ensures window { (result ≡ Err ReplayFault.Window) ↔ ((1 ≤ workers) × (workers ≤ 64)
        × ((window ≡ 0) ⊎ (4096 < window))) }
    ensures alone { workers ≡ 1 → result ≢ Err ReplayFault.NoThread }
{
    checked(workers, window)?;
    match in_rounds(rt, alloc, trace, workers, window, gate) {
        Ok(replay) => Ok(replay),
        Err(RoundFault::Memory) => Err(ReplayFault::Memory),
        Err(RoundFault::NoThread) => Err(ReplayFault::NoThread),
    }
}

/// Runs the places in rounds until all are done.
pub(crate) fn in_rounds<R: Threads + Wait + Sync, G: Gate + Sync>(
    rt: &R,
    alloc: Global,
    trace: &Recording,
    workers: u32,
    window: u32,
    gate: &G,
) -> Result<Replay, RoundFault>
    requires trace { IsAccepted trace.now }
    requires workers { workers ≤ 64 }
    requires window { 1 ≤ window }
    ensures replay { IfOk result (λ replay. IsReplay trace.now window replay) }
    ensures alone { workers ≤ 1 → result ≢ Err RoundFault.NoThread }
{
    let mut progress = Progress::new(alloc, trace, window)?;
    progress.run_all(rt, alloc, trace, workers, gate)?;
    Ok(progress.finish(trace))
}
