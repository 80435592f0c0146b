//! The replay in rounds where that may pay, and else in recorded order.
ghost use Rattle.std.specs.Prelude.{◌≡◌, ◌≢◌, ◌≤◌, ◌<◌, ◌⊎◌, ◌↔◌, Err, IfOk};
ghost use Rattle.std.specs.List.{range_with_len};
ghost use Rattle.op_meaning.specs.Step.{sequential_replies, sequential_world};
ghost use Rattle.recording.specs.Steps.{places};
ghost use Rattle.recording.specs.Accepted.{IsAccepted};
ghost use Rattle.wave_pick.specs.Rounds.{rounds};
ghost use Rattle.world_parts.specs.Part.{whole};

use crate::gate::{Gate, NoGate};
use crate::parallel::{checked, replay};
use crate::round::WORTH_A_THREAD;
use crate::serial::{Replay, ReplayFault, replay_serial};
use recording::Recording;
use std::alloc::Global;
use std::sync::Wait;
use std::thread::Threads;

/// How many microseconds a place has to weigh in the mean, so that rounds may pay: in them a place
/// takes 1 to 8 more, by the window and by how many it waits for, even where none run side by side.
const WORTH_ROUNDS: u64 = 16;

/// What the places of a trace weigh together.
fn weight_of<G: Gate>(trace: &Recording, gate: &G) -> u64
    requires { IsAccepted trace.now }
{
    let mut weight = 0u64;
    for place in 0..trace.places() {
        weight = weight.saturating_add(gate.weight(trace, place));
    }
    weight
}

/// Whether a run in rounds may be the quicker one: where there is a second worker, the places are
/// worth being looked at, and a full round of them is worth that worker. No answer depends on it.
fn may_rounds_pay(trace: &Recording, workers: u32, window: u32) -> bool
    requires { IsAccepted trace.now }
{
    if workers == 1 {
        return false;
    }
    let places = u64::from(trace.places());
    let mean = weight_of(trace, &NoGate) / places.max(1);
    let round = mean.saturating_mul(places.min(u64::from(window)));
    mean >= WORTH_ROUNDS && round >= 2 * WORTH_A_THREAD
}

/// Runs the places of a trace in the way that seems quicker: as [`replay`] does where its entries
/// carry so many bytes that a second thread may pay, else as [`replay_serial`] does.
///
/// It gives the world and the replies of the sequential run, and of each place the number of its
/// round in the run that was made.
///
/// # Errors
///
/// As those of [`replay`]: Workers where `workers` isn't 1 to 64; else Window where `window` isn't 1
/// to 4,096; else Memory, or NoThread where a thread was refused: not with one worker. Then nothing
/// is given.
pub fn replay_quick<R: Threads + Wait + Sync>(
    rt: &R,
    alloc: Global,
    trace: &Recording,
    workers: u32,
    window: u32,
) -> Result<Replay, ReplayFault>
    requires { IsAccepted trace.now }
    ensures world { IfOk result (λ replay. replay.world ≡ whole (sequential_world trace.now)) }
    ensures replies { IfOk result (λ replay. replay.replies ≡ sequential_replies trace.now) }
    ensures rounds { IfOk result (λ replay. (replay.rounds ≡ rounds trace.now window)
        ⊎ (replay.rounds ≡ range_with_len 0 (places trace.now))) }
    ensures workers { (result ≡ Err ReplayFault.Workers) ↔ ((workers ≡ 0) ⊎ (64 < workers)) }
    ensures window { (result ≡ Err ReplayFault.Window) ↔ ((1 ≤ workers) × (workers ≤ 64)
        × ((window ≡ 0) ⊎ (4096 < window))) }
    ensures alone { workers ≡ 1 → result ≢ Err ReplayFault.NoThread }
{
    checked(workers, window)?;
    if may_rounds_pay(trace, workers, window) {
        replay(rt, alloc, trace, workers, window, &NoGate)
    } else {
        replay_serial(alloc, trace)
    }
}
