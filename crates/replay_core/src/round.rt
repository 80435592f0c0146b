//! A round: its jobs dealt to workers, and their outcomes in order.
ghost use Rattle.std.specs.Prelude.{◌≡◌, ◌+◌, ◌<◌, ◌≤◌, ◌^◌, None, true, false, length, IfOk};
ghost use Rattle.std.specs.Prelude.{All, IfSome};
ghost use Rattle.deal_desk.specs.Desks.{hand_of, jobs_of, IsSeatOf, AreValues};
ghost use Rattle.replay_core.specs.Jobs.{AreOf, IsOutcome};
ghost use Rattle.replay_core.specs.Seats.{IsWorked, Grew};
ghost use Rattle.replay_core.specs.declared.round.RoundFault.TheVariants.{Memory};
ghost use Rattle.recording.specs.Steps.{places};
ghost use Rattle.recording.specs.Accepted.{IsAccepted};

use crate::gate::Gate;
use crate::run::Run;
use crate::workers::work;
use deal_desk::{Desk, DeskFault, DeskSeat};
use op_meaning::Reply;
use recording::Recording;
use std::alloc::{AllocError, Global};
use std::snapshot::Snapshot;
use std::sync::Wait;
use std::thread;
use std::thread::{Promise, Scope, Threads};
use world_parts::Part;

/// How many microseconds of work a thread is worth. Starting one takes a tenth to a third of that.
pub const WORTH_A_THREAD: u64 = 500;

/// Why a round has no outcomes.
#[derive(Clone, Copy, Debug, Drop)]
pub(crate) enum RoundFault {
    Memory,
    NoThread,
}

impl From<DeskFault> for RoundFault {
    ghost from_gives = { λ _ fault. fault ≡ Memory };

    fn from(_: DeskFault) -> RoundFault {
        RoundFault::Memory
    }
}

impl From<AllocError> for RoundFault {
    ghost from_gives = { λ _ fault. fault ≡ Memory };

    fn from(_: AllocError) -> RoundFault {
        RoundFault::Memory
    }
}

// What comes back of a thread: a worked seat of this desk.
#[derive(Drop)]
struct SeatOf(Snapshot<Desk<Run>>);

impl Promise<DeskSeat<Run>> for SeatOf {
    ghost kept_by = { λ p seat. IsWorked p.0.value seat };
}

// Works at a seat of its own.
fn worked<G: Gate>(
    alloc: Global,
    desk: &Desk<Run>,
    mut seat: DeskSeat<Run>,
    trace: &Recording,
    gate: &G,
) -> DeskSeat<Run>
    requires desk { IsSeatOf desk.now seat }
    requires spelled { IsAccepted trace.now }
    requires trace { AreOf trace.now (jobs_of desk.now) }
    requires new { ((hand_of seat).out ≡ None) × ((hand_of seat).opens ≡ false)
        × ((hand_of seat).merged ≡ 0) }
    ensures { IsWorked desk.now result }
{
    work(alloc, desk, &mut seat, trace, gate);
    seat
}

// Starts a thread for each helper, works at the opening seat meanwhile, and merges the helpers'
// seats. False where a thread was refused; those that were started have ended then too.
fn fan_out<'s, E, R: Threads, G: Gate + Sync>(
    rt: &R,
    alloc: Global,
    scope: &Scope<'s, E>,
    desk: &'s Desk<Run>,
    opening: &mut DeskSeat<Run>,
    trace: &'s Recording,
    gate: &'s G,
    helpers: u32,
) -> bool
    requires desk { IsSeatOf desk.now opening.old }
    requires spelled { IsAccepted trace.now }
    requires trace { AreOf trace.now (jobs_of desk.now) }
    requires opening { ((hand_of opening.old).opens ≡ true) × ((hand_of opening.old).out ≡ None) }
    requires room { (hand_of opening.old).given + helpers ≤ 65536 }
    ensures desk { IsSeatOf desk.now opening.new }
    ensures merged { result ≡ true → Grew (hand_of opening.old) (hand_of opening.new) helpers }
{
    if helpers == 0 {
        work(alloc, desk, opening, trace, gate);
        return true;
    }
    let seat = desk.seat(opening);
    let promise = SeatOf(Snapshot::of(desk));
    let Ok(child) = scope.spawn_with(promise, move || worked(alloc, desk, seat, trace, gate)) else {
        return false;
    };
    let all = fan_out(rt, alloc, scope, desk, opening, trace, gate, helpers - 1);
    desk.merge(opening, child.join(rt));
    all
}

/// How many workers a round is worth: one for each [`WORTH_A_THREAD`] that its places weigh, at
/// least one, and no more than it has places, nor than `workers`.
pub(crate) fn workers_worth<G: Gate>(ran: &[u32], workers: u32, trace: &Recording, gate: &G) -> u32
    requires trace { IsAccepted trace.now }
    requires ran { All (λ k. k < places trace.now) ran.now }
    ensures few { result ≤ workers }
{
    let mut weight = 0u64;
    for place in ran {
        weight = weight.saturating_add(gate.weight(trace, *place));
    }
    let worth = (weight / WORTH_A_THREAD).min(ran.len() as u64).max(1);
    worth.min(u64::from(workers)) as u32
}

/// Deals the jobs of a round to this thread and to so many helpers, each a thread of its own, and
/// gives their outcomes in order.
pub(crate) fn run_round<R: Threads + Wait + Sync, G: Gate + Sync>(
    rt: &R,
    alloc: Global,
    jobs: Vec<Run>,
    helpers: u32,
    trace: &Recording,
    gate: &G,
) -> Result<Vec<Result<(Reply, Part), AllocError>>, RoundFault>
    requires spelled { IsAccepted trace.now }
    requires trace { AreOf trace.now jobs.items }
    requires few { length jobs.items < 2 ^ 32 }
    requires helpers { helpers < 64 }
    ensures outcomes { IfOk result (λ v. AreValues
        (λ run d. IsOutcome run.trace.value run.part d) jobs.items v.items) }
{
    let (desk, opening) = Desk::new(alloc, jobs)?;
    let shared = &desk;
    let merged = thread::scope(
        thread::scope_env(),
        rt,
        move |scope| -> Option<DeskSeat<Run>>
            requires desk { IsSeatOf shared.now opening }
            requires spelled { IsAccepted trace.now }
            requires trace { AreOf trace.now (jobs_of shared.now) }
            requires opening { ((hand_of opening).opens ≡ true) × ((hand_of opening).out ≡ None)
                × ((hand_of opening).given + helpers ≤ 65536) }
            ensures { IfSome result (λ seat. IsSeatOf shared.entry.now seat
                × Grew (hand_of opening) (hand_of seat) helpers) }
        {
            let mut opening = opening;
            fan_out(rt, alloc, scope, shared, &mut opening, trace, gate, helpers).then_some(opening)
        },
    );
    let Some(opening) = merged else {
        return Err(RoundFault::NoThread);
    };
    Ok(desk.close(alloc, opening)?)
}
