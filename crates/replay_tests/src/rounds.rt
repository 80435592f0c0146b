//! Two places run at once, each once, and a gate that is refused memory leaves no replay.
ghost use Rattle.std.specs.Prelude.{IfOk};
ghost use Rattle.recording.specs.Accepted.{IsAccepted};

use crate::text::{recording_of, six_places};
use chain_plan::Role;
use op_meaning::{Reply, run_entry};
use recording::{Recording, Series};
use replay_core::comparing::verdict;
use replay_core::parallel::replay;
use replay_core::quick::replay_quick;
use replay_core::{
    EagerGate, Gate, NoGate, Replay, ReplayFault, Verdict, WORTH_A_THREAD, replay_serial,
};
use std::alloc::{AllocError, Global};
use std::sync::Wait;
use std::sync::atomic::AtomicU64;
use std::sync::atomic::Ordering::SeqCst;
use std::test::Fail;
use std::thread::Threads;
use world_parts::Part;

/// One ring without slots and buffers, and a record of two NOPs.
fn two_nops(alloc: Global) -> Result<Box<Recording>, Fail>
    ensures { IfOk result (λ trace. IsAccepted trace.value) }
{
    let mut text = [0u8; 176];
    text[..8].copy_from_slice(b"URINGTRC");
    text[8] = 1;
    text[20] = 1;
    text[24] = 1;
    text[36] = 1;
    text[38] = 2;
    recording_of(alloc, Vec::from_slice(alloc, &text)?)
}

/// Counts the runs of each place, and holds place 0 until place 1 has begun, for a number of turns.
#[derive(Drop)]
struct Meeting {
    first: AtomicU64,
    second: AtomicU64,
    met: AtomicU64,
}

impl Gate for Meeting {
    fn run(
        &self,
        alloc: Global,
        place: u32,
        trace: &Recording,
        role_there: &Role,
        part: &mut Part,
    ) -> Result<Reply, AllocError> {
        if place == 0 {
            self.first.fetch_add(1, SeqCst);
            for _ in 0..50_000_000u32 {
                if self.second.load(SeqCst) > 0 {
                    self.met.store(1, SeqCst);
                    break;
                }
            }
        } else {
            self.second.fetch_add(1, SeqCst);
        }
        run_entry(alloc, place, trace, role_there, part)
    }

    fn weight(&self, _trace: &Recording, _place: u32) -> u64 {
        WORTH_A_THREAD
    }
}

/// Has no memory for place 1.
#[derive(Drop)]
struct Refusing;

impl Gate for Refusing {
    fn run(
        &self,
        alloc: Global,
        place: u32,
        trace: &Recording,
        role_there: &Role,
        part: &mut Part,
    ) -> Result<Reply, AllocError> {
        if place == 1 {
            return Err(AllocError);
        }
        run_entry(alloc, place, trace, role_there, part)
    }

    fn weight(&self, _trace: &Recording, _place: u32) -> u64 {
        WORTH_A_THREAD
    }
}

/// The rounds in which places run on two workers by a gate.
fn rounds_by<R: Threads + Wait + Sync, G: Gate + Sync>(
    rt: &R,
    alloc: Global,
    trace: &Recording,
    gate: &G,
) -> Result<Series<u32>, ReplayFault>
    requires { IsAccepted trace.now }
{
    let replay = replay(rt, alloc, trace, 2, 2, gate)?;
    Ok(replay.rounds)
}

/// The rounds in which places run in the way that seems quicker, on some workers.
fn quick_rounds<R: Threads + Wait + Sync>(
    rt: &R,
    alloc: Global,
    trace: &Recording,
    workers: u32,
) -> Result<Series<u32>, ReplayFault>
    requires { IsAccepted trace.now }
{
    let replay = replay_quick(rt, alloc, trace, workers, 64)?;
    Ok(replay.rounds)
}

/// Why there is no replay by a gate; none where there is one.
fn fault_by<R: Threads + Wait + Sync, G: Gate + Sync>(
    rt: &R,
    alloc: Global,
    trace: &Recording,
    workers: u32,
    window: u32,
    gate: &G,
) -> Option<ReplayFault>
    requires { IsAccepted trace.now }
{
    replay(rt, alloc, trace, workers, window, gate).err()
}

/// How a replay by a gate compares with another one.
pub(crate) fn compared_with<R: Threads + Wait + Sync, G: Gate + Sync>(
    rt: &R,
    alloc: Global,
    trace: &Recording,
    workers: u32,
    gate: &G,
    serial: &Replay,
) -> Result<Verdict, ReplayFault>
    requires { IsAccepted trace.now }
{
    let parallel = replay(rt, alloc, trace, workers, 4096, gate)?;
    Ok(verdict(serial, &parallel))
}

/// How a replay by a gate compares with the serial one.
pub(crate) fn compared<R: Threads + Wait + Sync, G: Gate + Sync>(
    rt: &R,
    alloc: Global,
    trace: &Recording,
    workers: u32,
    gate: &G,
) -> Result<Verdict, ReplayFault>
    requires { IsAccepted trace.now }
{
    let serial = replay_serial(alloc, trace)?;
    compared_with(rt, alloc, trace, workers, gate, &serial)
}

/// What a gate has counted.
fn counts(gate: &Meeting) -> [u64; 3] {
    [
        gate.first.load(SeqCst),
        gate.second.load(SeqCst),
        gate.met.load(SeqCst),
    ]
}

#[test]
fn two_at_once(rt: HostRuntime) -> Result<(), Fail> {
    let trace = two_nops(rt.alloc())?;
    let gate = Meeting {
        first: AtomicU64::new(0),
        second: AtomicU64::new(0),
        met: AtomicU64::new(0),
    };
    let Ok(rounds) = rounds_by(&rt, rt.alloc(), &trace, &gate) else {
        panic!(rt; "no replay")
    };
    assert_eq!(rt; counts(&gate), [1, 1, 1]);
    assert_eq!(rt; rounds.as_slice(), [0, 0].as_slice());
    Ok(())
}

#[test]
fn places_that_carry_nothing_run_in_order(rt: HostRuntime) -> Result<(), Fail> {
    let trace = two_nops(rt.alloc())?;
    let Ok(rounds) = quick_rounds(&rt, rt.alloc(), &trace, 4) else {
        panic!(rt; "no replay")
    };
    assert_eq!(rt; rounds.as_slice(), [0, 1].as_slice());
    let refused = quick_rounds(&rt, rt.alloc(), &trace, 65);
    assert!(rt; matches!(refused, Err(ReplayFault::Workers)));
    Ok(())
}

#[test]
fn refused_memory_leaves_no_replay(rt: HostRuntime) -> Result<(), Fail> {
    let trace = two_nops(rt.alloc())?;
    for workers in [1, 2] {
        let fault = fault_by(&rt, rt.alloc(), &trace, workers, workers, &Refusing);
        assert_eq!(rt; fault, Some(ReplayFault::Memory));
    }
    Ok(())
}

#[test]
fn limits_are_tested_in_order(rt: HostRuntime) -> Result<(), Fail> {
    let trace = two_nops(rt.alloc())?;
    for (workers, window) in [(0, 0), (65, 0), (0, 1)] {
        let fault = fault_by(&rt, rt.alloc(), &trace, workers, window, &NoGate);
        assert_eq!(rt; fault, Some(ReplayFault::Workers));
    }
    for window in [0, 4097] {
        let fault = fault_by(&rt, rt.alloc(), &trace, 1, window, &NoGate);
        assert_eq!(rt; fault, Some(ReplayFault::Window));
    }
    Ok(())
}

#[test]
fn both_runs_are_equal(rt: HostRuntime) -> Result<(), Fail> {
    let trace = six_places(rt.alloc())?;
    for workers in [1, 2, 64] {
        let alone = compared(&rt, rt.alloc(), &trace, workers, &NoGate);
        assert!(rt; matches!(alone, Ok(Verdict::Equal)));
        let parallel = compared(&rt, rt.alloc(), &trace, workers, &EagerGate);
        assert!(rt; matches!(parallel, Ok(Verdict::Equal)));
    }
    Ok(())
}
