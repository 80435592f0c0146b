//! A log of rounds: in which round each place runs, and for which place it waited last.
ghost use Rattle.std.specs.Prelude.{◌≡◌, ◌≢◌, ◌≤◌, ◌<◌, ◌⊎◌, ◌↔◌, All, Err, IfOk, OnOk, None};
ghost use Rattle.std.specs.Prelude.{length, map, replicate};
ghost use Rattle.std.specs.Option.{option_map};
ghost use Rattle.replay_core.specs.Progressing.{Stands};
ghost use Rattle.replay_core.specs.Waits.{IsRoundLog, waited_meant};
ghost use Rattle.replay_core.specs.Noted.{AreAllNoted, AreNoted, noted};
ghost use Rattle.recording.specs.Steps.{places};
ghost use Rattle.recording.specs.Accepted.{IsAccepted};
ghost use Rattle.round_scheduler.specs.Telling.{held_meant};
ghost use Rattle.wave_pick.specs.Rounds as wave_rounds;

use crate::gate::NoGate;
use crate::parallel::{WIDEST_WINDOW, in_rounds};
use crate::progress::Progress;
use crate::round::RoundFault;
use crate::serial::ReplayFault;
use chain_plan::Plan;
use recording::{Recording, Series};
use round_scheduler::Held;
use std::alloc::{AllocError, Global};
use std::sync::Wait;
use std::thread::Threads;
use world_parts::Item;

/// The place that another one waited for, and the item that both use.
#[derive(Drop)]
pub struct WaitedFor {
    pub place: u32,
    pub item: Item,
}

/// Of each place of a trace the number of its round, and what it waited for in the round before:
/// nothing where there was none, or where the window didn't show it yet.
#[derive(Drop)]
pub struct RoundLog {
    pub rounds: Series<u32>,
    pub waits: Series<Option<WaitedFor>>,
}

/// The rounds of a trace for a window, as [`crate::parallel::replay`] runs them, and for each place
/// the latest one that blocked it in the round before its own, with the item that both use.
///
/// # Errors
///
/// Window where `window` isn't 1 to 4,096; else Memory. Then nothing is given.
pub fn log_rounds<R: Threads + Wait + Sync>(
    rt: &R,
    alloc: Global,
    trace: &Recording,
    window: u32,
) -> Result<RoundLog, ReplayFault>
    requires { IsAccepted trace.now }
    ensures log { IfOk result (λ log. IsRoundLog trace.now window log) }
    ensures window { (result ≡ Err ReplayFault.Window) ↔ ((window ≡ 0) ⊎ (4096 < window)) }
    ensures others { result ≢ Err ReplayFault.Workers }
    ensures alone { result ≢ Err ReplayFault.NoThread }
{
    if !(1..=WIDEST_WINDOW).contains(&window) {
        return Err(ReplayFault::Window);
    }
    match logged(rt, alloc, trace, window) {
        Ok(log) => Ok(log),
        Err(RoundFault::Memory) => Err(ReplayFault::Memory),
        Err(RoundFault::NoThread) => Err(ReplayFault::NoThread),
    }
}

/// Runs the places in rounds until all are done, and then once more, and gives their log.
fn logged<R: Threads + Wait + Sync>(
    rt: &R,
    alloc: Global,
    trace: &Recording,
    window: u32,
) -> Result<RoundLog, RoundFault>
    requires trace { IsAccepted trace.now }
    requires window { 1 ≤ window }
    ensures log { IfOk result (λ log. IsRoundLog trace.now window log) }
    ensures alone { result ≢ Err RoundFault.NoThread }
{
    let rounds = numbered(rt, alloc, trace, window)?;
    let waits = waits_by(rt, alloc, trace, window, rounds.as_slice())?;
    Ok(RoundLog { rounds, waits })
}

/// The number of each place's round.
fn numbered<R: Threads + Wait + Sync>(
    rt: &R,
    alloc: Global,
    trace: &Recording,
    window: u32,
) -> Result<Series<u32>, RoundFault>
    requires trace { IsAccepted trace.now }
    requires window { 1 ≤ window }
    ensures rounds { IfOk result (λ rounds. rounds ≡ wave_rounds.rounds trace.now window) }
    ensures alone { result ≢ Err RoundFault.NoThread }
{
    match in_rounds(rt, alloc, trace, 1, window, &NoGate) {
        Ok(replay) => Ok(replay.rounds),
        Err(fault) => Err(fault),
    }
}

/// What each place waited for in the round before its own, by the numbers of the rounds.
fn waits_by<R: Threads + Wait + Sync>(
    rt: &R,
    alloc: Global,
    trace: &Recording,
    window: u32,
    rounds: &[u32],
) -> Result<Series<Option<WaitedFor>>, RoundFault>
    requires trace { IsAccepted trace.now }
    requires window { 1 ≤ window }
    requires rounds { rounds.now ≡ wave_rounds.rounds trace.now window }
    ensures waits { IfOk result (AreAllNoted trace.now window) }
    ensures alone { result ≢ Err RoundFault.NoThread }
{
    let mut waits = no_waits(alloc, trace)?;
    let mut progress = Progress::new(alloc, trace, window)?;
    run_noting(rt, alloc, trace, rounds, &mut progress, &mut waits)?;
    Ok(Series::from_vec(waits))
}

/// Runs rounds until all places are done, and notes in each for whom the places wait that run in
/// the round after it, by the numbers of their rounds.
fn run_noting<R: Threads + Wait + Sync>(
    rt: &R,
    alloc: Global,
    trace: &Recording,
    rounds: &[u32],
    progress: &mut Progress,
    waits: &mut Vec<Option<WaitedFor>>,
) -> Result<(), RoundFault>
    requires trace { IsAccepted trace.now }
    requires stands { Stands trace.now progress.old }
    requires rounds { rounds.now ≡ wave_rounds.rounds trace.now progress.old.window }
    requires first { progress.old.round ≡ 0 }
    requires noted { AreNoted trace.now progress.old.window 0 waits.old.items }
    ensures noted { OnOk result (AreAllNoted trace.now progress.old.window waits.new.items) }
    ensures alone { result ≢ Err RoundFault.NoThread }
{
    let plan = Plan::of(alloc, trace)?;
    for _round in 0..trace.places() {
        if progress.is_over() {
            return Ok(());
        }
        let held = progress.run_telling(rt, alloc, trace, &plan, 1, &NoGate, rounds)?;
        write_held(held, waits);
    }
    Ok(())
}

/// Before the first round no place has waited.
fn no_waits(alloc: Global, trace: &Recording) -> Result<Vec<Option<WaitedFor>>, AllocError>
    requires { IsAccepted trace.now }
    ensures { IfOk result (λ waits. map (option_map waited_meant) waits.items
        ≡ replicate (places trace.now) None) }
{
    let mut waits = Vec::new(alloc);
    for _place in 0..trace.places() {
        waits.push(None)?;
    }
    Ok(waits)
}

/// Writes what these places wait for over what is noted of them.
fn write_held(held: Series<Held>, waits: &mut Vec<Option<WaitedFor>>)
    requires { All (λ h. h.place < length waits.old.items) held }
    ensures many { length waits.new.items ≡ length waits.old.items }
    ensures noted { map (option_map waited_meant) waits.new.items
        ≡ noted (map (option_map waited_meant) waits.old.items) (map held_meant held) }
{
    for found in held.into_vec() {
        waits[found.place as usize] = Some(WaitedFor {
            place: found.holder,
            item: found.item,
        });
    }
}
