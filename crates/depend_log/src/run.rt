//! For whom the places of a trace wait, told one after another.
ghost use Rattle.std.specs.Prelude.{◌≡◌, ◌+◌, ◌-◌, ◌^◌, ◌<◌, IfOk, OnOk, if◌then◌else◌};
ghost use Rattle.chain_plan.specs.Chain.{role};
ghost use Rattle.depend_log.specs.Places.{IsPlaceWaits};
ghost use Rattle.depend_log.specs.Running.{HasRun, next_place};
ghost use Rattle.depend_log.specs.Waits.{AreWaits, above_zero, is_transfer, moved_at};
ghost use Rattle.dependencies.specs.Rule.{foot_at};
ghost use Rattle.foot_waits.specs.Told.{IsAt};
ghost use Rattle.op_meaning.specs.Step.{run_world};
ghost use Rattle.op_meaning.specs.Turns.{turn_meant};
ghost use Rattle.recording.specs.Steps.{places};
ghost use Rattle.recording.specs.Accepted.{IsAccepted};

use crate::shared::add_waits;
use crate::wait::{PlaceWaits, Wait};
use chain_plan::{Plan, Role};
use entry_checks::Op;
use foot_print::foot_in;
use foot_waits::Waits;
use op_meaning::{Turn, TurnKind, run_on_state, turn_of};
use recording::{Recording, Series};
use std::alloc::{AllocError, Global};
use world_parts::{Footprint, State};

/// What is known of the places of a trace so far: the world that they leave in the sequential run,
/// and what each of them used in it.
#[derive(Drop)]
pub struct Dependencies {
    plan: Plan,
    state: State,
    /// What each place used.
    feet: Vec<Footprint>,
    waits: Waits,
    place: u32,
}

impl Dependencies {
    /// Before the first place of a trace.
    ///
    /// # Errors
    ///
    /// Out of memory.
    pub fn new(alloc: Global, trace: &Recording) -> Result<Self, AllocError>
        requires { IsAccepted trace.now }
        ensures run { IfOk result (HasRun trace.now) }
        ensures first { IfOk result (λ known. next_place known ≡ 0) }
    {
        let plan = Plan::of(alloc, trace)?;
        let waits = Waits::new(alloc);
        match State::of(alloc, trace) {
            Ok(state) => Ok(Dependencies {
                plan,
                state,
                feet: Vec::new(alloc),
                waits,
                place: 0,
            }),
            Err(error) => Err(error),
        }
    }

    /// Runs the next place: for whom it waits directly, and how much it moves.
    ///
    /// # Errors
    ///
    /// Out of memory; what is known can then only be dropped.
    pub fn next(&mut self, alloc: Global, trace: &Recording) -> Result<PlaceWaits, AllocError>
        requires trace { IsAccepted trace.now }
        requires run { HasRun trace.now self.old }
        requires place { next_place self.old < places trace.now }
        ensures waits { IfOk result (IsPlaceWaits trace.now (next_place self.old)) }
        ensures run { OnOk result (HasRun trace.now self.new) }
        ensures place { OnOk result (next_place self.new ≡ next_place self.old + 1) }
    {
        let role_there = self.plan.role(self.place);
        let footprint = foot_in(alloc, self.place, trace, &role_there, &self.state)?;
        let waits = self.waits_for(alloc, trace, &footprint)?;
        let moved = self.run(alloc, trace, &role_there)?;
        self.feet.push(footprint)?;
        self.place += 1;
        Ok(PlaceWaits {
            moved,
            waits: Series::from_vec(waits),
        })
    }

    /// For whom the next place waits, by its access set.
    fn waits_for(
        &mut self,
        alloc: Global,
        trace: &Recording,
        footprint: &Footprint,
    ) -> Result<Vec<Wait>, AllocError>
        requires run { HasRun trace.now self.old }
        requires place { self.old.place < 2 ^ 32 - 1 }
        requires footprint { footprint.now ≡ foot_at trace.now self.old.place }
        ensures waits { IfOk result (λ waits. AreWaits trace.now self.old.place waits.items) }
        ensures known { OnOk result (IsAt self.new.waits (foot_at trace.now) (self.old.place + 1)) }
        ensures rest { OnOk result (self.new ≡ record self.old { waits = self.new.waits }) }
    {
        let found = self.waits.next(alloc, footprint)?;
        let mut waits = Vec::with_capacity(alloc, found.len())?;
        add_waits(alloc, footprint, self.feet.as_slice(), &found, &mut waits)?;
        Ok(waits)
    }

    /// Runs the next place, and tells how many bytes it moves.
    fn run(
        &mut self,
        alloc: Global,
        trace: &Recording,
        role_there: &Role,
    ) -> Result<u32, AllocError>
        requires trace { IsAccepted trace.now }
        requires place { self.old.place < places trace.now }
        requires role { role_there.now ≡ role trace.now self.old.place }
        requires state { self.old.state ≡ run_world trace.now self.old.place }
        ensures moved { IfOk result (λ moved. moved ≡ moved_at trace.now self.old.place) }
        ensures state { OnOk result (self.new.state ≡ run_world trace.now (self.old.place + 1)) }
        ensures rest { OnOk result (self.new ≡ record self.old { state = self.new.state }) }
    {
        let transfers = is_transfer(&turn_of(self.place, trace, role_there, &self.state));
        let reply = run_on_state(alloc, self.place, trace, role_there, &mut self.state)?;
        Ok(moved_by(transfers, reply.res))
    }
}

/// Whether a turn runs a transfer.
fn is_transfer(turn: &Turn<'_>) -> bool
    ensures { result ≡ is_transfer (turn_meant turn.now) }
{
    matches!(
        turn.kind,
        TurnKind::Runs {
            op: Op::Readv { .. }
                | Op::Writev { .. }
                | Op::ReadFixed { .. }
                | Op::WriteFixed { .. }
                | Op::Read { .. }
                | Op::Write { .. },
            ..
        }
    )
}

/// How many bytes a place moves by its result, if it is a transfer.
fn moved_by(transfers: bool, result_there: i32) -> u32
    ensures { result ≡ (if transfers then above_zero result_there else 0) }
{
    if transfers && result_there > 0 {
        result_there.unsigned_abs()
    } else {
        0
    }
}
