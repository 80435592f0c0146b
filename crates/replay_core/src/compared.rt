//! A comparison of what two replayers answer.
ghost use Rattle.std.specs.Prelude.{◌≤◌, IfErr, IfOk};
ghost use denote.Param.Send.{IsSync};
ghost use Rattle.replay_core.specs.Comparing.{IsVerdictOf, WantsMemoryOrThread};
ghost use Rattle.replay_core.specs.Rounds.{IsReplay};
ghost use Rattle.replay_core.specs.Serial.{IsSequential};
ghost use Rattle.recording.specs.Accepted.{IsAccepted};

use crate::comparing::verdict_on;
use crate::difference::Verdict;
use crate::eager::EagerGate;
use crate::gate::{Gate, NoGate};
use crate::parallel::replay;
use crate::serial::{Replay, ReplayFault, replay_serial};
use recording::Recording;
use std::alloc::{AllocError, Global};
use std::sync::Wait;
use std::thread::Threads;

/// What answers with a replay of its own, which may be compared with another one's.
pub trait Replayer {
    ghost use Rattle.replay_core.specs.declared.serial.Replay.{Replay};

    // When it may be asked.
    ghost can_answer: { Self → Type 0 };
    // Which replays are its answer. That those of two replayers agree is not said.
    ghost answers: { Self → Replay → Type 0 };

    /// Its answer, in a box, which is let go in one step.
    ///
    /// # Errors
    ///
    /// Memory, or NoThread.
    fn answer<R: Threads + Wait + Sync>(
        &self,
        rt: &R,
        alloc: Global,
    ) -> Result<Box<Replay>, ReplayFault>
        requires asked { can_answer self.now }
        requires shared { IsSync R.row }
        ensures ok { IfOk result (λ replay. answers self.now replay.value) }
        ensures err { IfErr result WantsMemoryOrThread };
}

/// The replay of a trace in recorded order.
#[derive(Clone, Copy)]
pub struct InOrder<'a> {
    pub trace: &'a Recording,
}

impl Replayer for InOrder<'_> {
    ghost can_answer = { λ s. IsAccepted s.trace.now };

    ghost answers = { λ s replay. IsSequential s.trace.now replay };

    fn answer<R: Threads + Wait + Sync>(
        &self,
        _rt: &R,
        alloc: Global,
    ) -> Result<Box<Replay>, ReplayFault> {
        let replay = replay_serial(alloc, self.trace)?;
        match Box::new(alloc, replay) {
            Ok(replay) => Ok(replay),
            Err(_) => Err(ReplayFault::Memory),
        }
    }
}

/// The replay of a trace in rounds, on up to so many workers and with so many places in the window;
/// where it is eager, by [`EagerGate`].
#[derive(Clone, Copy)]
pub struct InRounds<'a> {
    pub trace: &'a Recording,
    pub workers: u32,
    pub window: u32,
    pub eager: bool,
}

impl Replayer for InRounds<'_> {
    ghost can_answer = { λ s. IsAccepted s.trace.now × (1 ≤ s.workers) × (s.workers ≤ 64)
        × (1 ≤ s.window) × (s.window ≤ 4096) };

    ghost answers = { λ s replay. IsReplay s.trace.now s.window replay };

    fn answer<R: Threads + Wait + Sync>(
        &self,
        rt: &R,
        alloc: Global,
    ) -> Result<Box<Replay>, ReplayFault> {
        if self.eager {
            boxed_replay(rt, alloc, self.trace, self.workers, self.window, &EagerGate)
        } else {
            boxed_replay(rt, alloc, self.trace, self.workers, self.window, &NoGate)
        }
    }
}

/// The run in rounds by a gate, in a box.
fn boxed_replay<R: Threads + Wait + Sync, G: Gate + Sync>(
    rt: &R,
    alloc: Global,
    trace: &Recording,
    workers: u32,
    window: u32,
    gate: &G,
) -> Result<Box<Replay>, ReplayFault>
    requires trace { IsAccepted trace.now }
    requires workers { (1 ≤ workers) × (workers ≤ 64) }
    requires window { (1 ≤ window) × (window ≤ 4096) }
    ensures ok { IfOk result (λ replay. IsReplay trace.now window replay.value) }
    ensures err { IfErr result WantsMemoryOrThread }
{
    let replay = replay(rt, alloc, trace, workers, window, gate)?;
    match Box::new(alloc, replay) {
        Ok(replay) => Ok(replay),
        Err(_) => Err(ReplayFault::Memory),
    }
}

/// How the answers of two replayers compare, looked at on up to so many threads. Both are asked: the
/// verdict is that of an answer of each.
///
/// # Errors
///
/// Memory, or NoThread.
pub fn compared_by<R: Threads + Wait + Sync, F: Replayer, S: Replayer>(
    rt: &R,
    alloc: Global,
    first: &F,
    second: &S,
    workers: u32,
) -> Result<Verdict, ReplayFault>
    requires first { F.can_answer first.now }
    requires second { S.can_answer second.now }
    ensures ok { IfOk result (IsVerdictOf (F.answers first.now) (S.answers second.now)) }
    ensures err { IfErr result WantsMemoryOrThread }
{
    let one = first.answer(rt, alloc)?;
    let other = second.answer(rt, alloc)?;
    match verdict_on(rt, alloc, &one, &other, workers) {
        Ok(verdict) => Ok(verdict),
        Err(AllocError) => Err(ReplayFault::Memory),
    }
}
