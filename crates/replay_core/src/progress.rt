//! What a replay has after some of its rounds, and one round more.
ghost use Rattle.std.specs.Prelude.{◌≡◌, ◌+◌, ◌-◌, ◌<◌, ◌≤◌, ◌⊎◌, [], ◌↔◌, IsTrue, IfOk};
ghost use Rattle.std.specs.Prelude.{◌≢◌, Err, OnOk, false, length, map, replicate, set, true};
ghost use Rattle.chain_plan.specs.Plan.{roles};
ghost use Rattle.deal_desk.specs.Desks.{AreValues};
ghost use Rattle.replay_core.specs.Jobs.{IsOutcome};
ghost use Rattle.replay_core.specs.Progressing.{AreDealt, Begins, HasChosen, HasPicked, HasRun};
ghost use Rattle.replay_core.specs.Progressing.{HasTold, IsFront, IsReady, IsSameRound, KeptAfter};
ghost use Rattle.replay_core.specs.Progressing.{Stands};
ghost use Rattle.replay_core.specs.Rounds.{IsReplay};
ghost use Rattle.recording.specs.Steps.{places};
ghost use Rattle.recording.specs.Accepted.{IsAccepted};
ghost use Rattle.wave_pick.specs.Rounds.{state_after, wave_after};
ghost use Rattle.world_parts.specs.Part.{whole};

use crate::front::{drop_ran, filled};
use crate::gate::Gate;
use crate::round::{RoundFault, run_round, workers_worth};
use crate::run::Run;
use crate::serial::Replay;
use chain_plan::Plan;
use extent_bytes::ReadBytes;
use op_meaning::{Replies, Reply};
use recording::{Recording, Series};
use round_scheduler::{Held, Scheduler};
use std::alloc::{AllocError, Global};
use std::snapshot::Snapshot;
use std::sync::Wait;
use std::thread::Threads;
use wave_pick::Wave;
use world_parts::{Part, World};

/// What a replay has after its rounds so far.
#[derive(Drop)]
pub(crate) struct Progress {
    /// How many pending places a round looks at.
    window: u32,
    /// How many rounds there have been.
    round: u32,
    world: World,
    /// Has all of the world while a round runs on it, and else nothing.
    spare: Part,
    /// The reply and the round of each place that is done.
    replies: Replies,
    rounds: Vec<u32>,
    done: Vec<bool>,
    /// The first places that aren't done, as many as the window has, and the first place behind
    /// them.
    front: Vec<u32>,
    next: u32,
    /// What is known of the places that wait.
    scheduler: Scheduler,
}

/// The places of a round, without their access sets.
fn places_of(alloc: Global, wave: &Wave) -> Result<Vec<u32>, AllocError>
    ensures { IfOk result (λ ran. ran.items ≡ map (λ chosen. chosen.place) wave.now.places) }
{
    let chosen_there = wave.places.as_slice();
    let mut ran = Vec::with_capacity(alloc, chosen_there.len())?;
    for chosen in chosen_there {
        ran.push(chosen.place)?;
    }
    Ok(ran)
}

/// A reply for each place, of which nothing is said.
fn blank_replies(alloc: Global, places: u32) -> Result<Replies, AllocError>
    ensures { IfOk result (λ replies. length replies ≡ places) }
{
    let mut replies = Replies::new(alloc);
    for _place in 0..places {
        replies.push(Reply {
            res: 0,
            bytes: ReadBytes::none(alloc),
            posted: false,
        })?;
    }
    Ok(replies)
}

fn zeros(alloc: Global, places: u32) -> Result<Vec<u32>, AllocError>
    ensures { IfOk result (λ zeros. length zeros.items ≡ places) }
{
    let mut zeros = Vec::new(alloc);
    for _place in 0..places {
        zeros.push(0)?;
    }
    Ok(zeros)
}

fn none_done(alloc: Global, places: u32) -> Result<Vec<bool>, AllocError>
    ensures { IfOk result (λ done. done.items ≡ replicate places false) }
{
    let mut done = Vec::new(alloc);
    for _place in 0..places {
        done.push(false)?;
    }
    Ok(done)
}

impl Progress {
    /// Before the first round.
    pub(crate) fn new(alloc: Global, trace: &Recording, window: u32) -> Result<Self, AllocError>
        requires trace { IsAccepted trace.now }
        requires window { 1 ≤ window }
        ensures stands { IfOk result (λ progress. Stands trace.now progress) }
        ensures first { IfOk result
            (λ progress. (progress.window ≡ window) × (progress.round ≡ 0)) }
    {
        let places = trace.places();
        let mut front = Vec::new(alloc);
        let next = filled(&mut front, 0, places, window)?;
        let rounds = zeros(alloc, places)?;
        let done = none_done(alloc, places)?;
        let replies = blank_replies(alloc, places)?;
        let world = World::of(alloc, trace)?;
        let spare = Part::nothing(alloc, 0)?;
        let scheduler = Scheduler::new(alloc, trace)?;
        Ok(Progress {
            window,
            round: 0,
            world,
            spare,
            replies,
            rounds,
            done,
            front,
            next,
            scheduler,
        })
    }

    /// Whether all places are done.
    pub(crate) fn is_over(&self) -> bool
        ensures { IsTrue result ↔ (self.now.front.items ≡ []) }
    {
        self.front.is_empty()
    }

    /// The places of the next round, each with its access set.
    fn pick(&mut self, alloc: Global, trace: &Recording, plan: &Plan) -> Result<Wave, AllocError>
        requires trace { IsAccepted trace.now }
        requires plan { plan.now ≡ roles trace.now }
        requires round { self.old.round < places trace.now }
        requires stands { Stands trace.now self.old }
        ensures wave { IfOk result (HasChosen trace.now self.old) }
        ensures picked { OnOk result (HasPicked trace.now (self.old.round + 1) self.new) }
        ensures rest { OnOk result (self.new ≡ record self.old { scheduler = self.new.scheduler }) }
    {
        self.scheduler.pick(
            alloc,
            trace,
            plan,
            &self.world,
            self.front.as_slice(),
            self.window,
        )
    }

    /// The places of the next round, each with its access set; and, of those places that it looks
    /// at and that run in the round after it, by the numbers of their rounds, those that an earlier
    /// one blocks.
    fn pick_telling(
        &mut self,
        alloc: Global,
        trace: &Recording,
        plan: &Plan,
        rounds: &[u32],
    ) -> Result<(Wave, Series<Held>), AllocError>
        requires trace { IsAccepted trace.now }
        requires plan { plan.now ≡ roles trace.now }
        requires round { self.old.round < places trace.now }
        requires stands { Stands trace.now self.old }
        ensures wave { IfOk result (λ told. HasChosen trace.now self.old told.0) }
        ensures held { IfOk result (λ told. HasTold trace.now rounds.now self.old told.1) }
        ensures picked { OnOk result (HasPicked trace.now (self.old.round + 1) self.new) }
        ensures rest { OnOk result (self.new ≡ record self.old { scheduler = self.new.scheduler }) }
    {
        // There are no more rounds than places.
        let next = trace.places().min(self.round + 1);
        self.scheduler.pick_telling(
            alloc,
            trace,
            plan,
            &self.world,
            self.front.as_slice(),
            self.window,
            rounds,
            next,
        )
    }

    /// Keeps the reply of a place that the round has run.
    #[inline(always)]
    fn keep(&mut self, place: u32, reply: Reply) -> Result<(), AllocError>
        requires replies { place < length self.old.replies }
        requires rounds { place < length self.old.rounds.items }
        requires done { place < length self.old.done.items }
        ensures replies { OnOk result (self.new.replies ≡ set self.old.replies place reply) }
        ensures rounds { OnOk result
            (self.new.rounds.items ≡ set self.old.rounds.items place self.old.round) }
        ensures done { OnOk result (self.new.done.items ≡ set self.old.done.items place true) }
        ensures worlds { (self.new.world ≡ self.old.world) × (self.new.spare ≡ self.old.spare) }
        ensures rest { IsSameRound self.old self.new }
    {
        let index = place as usize;
        self.replies.set(index, reply)?;
        self.rounds[index] = self.round;
        self.done[index] = true;
        Ok(())
    }

    /// Runs the places of a round one after another on all of the world.
    fn run_here<G: Gate>(
        &mut self,
        alloc: Global,
        trace: &Recording,
        plan: &Plan,
        gate: &G,
        ran: &[u32],
    ) -> Result<(), AllocError>
        requires trace { IsAccepted trace.now }
        requires plan { plan.now ≡ roles trace.now }
        requires round { self.old.round < places trace.now }
        requires begins { Begins trace.now self.old }
        requires ran { ran.now ≡ wave_after trace.now self.old.window self.old.round }
        ensures ran { OnOk result (HasRun trace.now self.old self.new) }
    {
        self.world.exchange(&mut self.spare);
        for place in ran {
            let reply = gate.run(alloc, *place, trace, &plan.role(*place), &mut self.spare)?;
            self.keep(*place, reply)?;
        }
        self.world.exchange(&mut self.spare);
        Ok(())
    }

    /// The jobs of a round: its places in order, each with its part, which is cut out of the world.
    fn deal(
        &mut self,
        alloc: Global,
        trace: &Recording,
        plan: &Plan,
        wave: Wave,
    ) -> Result<Vec<Run>, AllocError>
        requires trace { IsAccepted trace.now }
        requires plan { plan.now ≡ roles trace.now }
        requires begins { Begins trace.now self.old }
        requires wave { HasChosen trace.now self.old wave }
        ensures dealt { IfOk result
            (λ jobs. AreDealt trace.now self.old.window self.old.round jobs.items self.new.world) }
        ensures rest { OnOk result (self.new ≡ record self.old { world = self.new.world }) }
    {
        let mut jobs = Vec::new(alloc);
        for chosen in wave.places.into_vec() {
            let part = self.world.cut(alloc, chosen.place, chosen.footprint)?;
            jobs.push(Run {
                part,
                role: plan.role(chosen.place),
                trace: Snapshot::of(trace),
            })?;
        }
        Ok(jobs)
    }

    /// Puts the parts of a round back in order, and keeps the replies of its places.
    fn gather(
        &mut self,
        alloc: Global,
        trace: &Recording,
        jobs: Snapshot<Vec<Run>>,
        outcomes: Vec<Result<(Reply, Part), AllocError>>,
    ) -> Result<(), AllocError>
        requires trace { IsAccepted trace.now }
        requires round { self.old.round < places trace.now }
        requires keeps { KeptAfter trace.now self.old.round self.old }
        requires dealt { AreDealt trace.now self.old.window self.old.round jobs.value.items self.old.world }
        requires outcomes { AreValues
            (λ run d. IsOutcome run.trace.value run.part d) jobs.value.items outcomes.items }
        ensures ran { OnOk result (HasRun trace.now self.old self.new) }
    {
        for outcome in outcomes {
            let (reply, part) = outcome?;
            let place = part.place;
            self.world.put(alloc, part)?;
            self.keep(place, reply)?;
        }
        Ok(())
    }

    /// Runs the places of a round on parts of the world, this thread and so many helpers.
    fn run_apart<R: Threads + Wait + Sync, G: Gate + Sync>(
        &mut self,
        rt: &R,
        alloc: Global,
        trace: &Recording,
        plan: &Plan,
        gate: &G,
        wave: Wave,
        helpers: u32,
    ) -> Result<(), RoundFault>
        requires trace { IsAccepted trace.now }
        requires plan { plan.now ≡ roles trace.now }
        requires helpers { helpers < 64 }
        requires round { self.old.round < places trace.now }
        requires begins { Begins trace.now self.old }
        requires wave { HasChosen trace.now self.old wave }
        ensures ran { OnOk result (HasRun trace.now self.old self.new) }
    {
        let jobs = self.deal(alloc, trace, plan, wave)?;
        let dealt = Snapshot::of(&jobs);
        let outcomes = run_round(rt, alloc, jobs, helpers, trace, gate)?;
        self.gather(alloc, trace, dealt, outcomes)?;
        Ok(())
    }

    /// Runs the places of a round: on parts of the world where the round is worth a thread beside
    /// this one, else on all of it.
    fn run_wave<R: Threads + Wait + Sync, G: Gate + Sync>(
        &mut self,
        rt: &R,
        alloc: Global,
        trace: &Recording,
        plan: &Plan,
        workers: u32,
        gate: &G,
        wave: Wave,
        ran: &[u32],
    ) -> Result<(), RoundFault>
        requires trace { IsAccepted trace.now }
        requires plan { plan.now ≡ roles trace.now }
        requires workers { workers ≤ 64 }
        requires round { self.old.round < places trace.now }
        requires begins { Begins trace.now self.old }
        requires wave { HasChosen trace.now self.old wave }
        requires ran { ran.now ≡ wave_after trace.now self.old.window self.old.round }
        ensures ran { OnOk result (HasRun trace.now self.old self.new) }
        ensures alone { workers ≤ 1 → result ≢ Err RoundFault.NoThread }
    {
        let helpers = workers_worth(ran, workers, trace, gate).saturating_sub(1);
        if helpers == 0 {
            return Ok(self.run_here(alloc, trace, plan, gate, ran)?);
        }
        self.run_apart(rt, alloc, trace, plan, gate, wave, helpers)
    }

    /// Looks on to the places that the next round may run.
    fn advance(&mut self, trace: &Recording, ran: &[u32]) -> Result<(), AllocError>
        requires trace { IsAccepted trace.now }
        requires round { self.old.round < places trace.now }
        requires window { 1 ≤ self.old.window }
        requires world { self.old.world
            ≡ whole (state_after trace.now self.old.window (self.old.round + 1)).world }
        requires keeps { KeptAfter trace.now (self.old.round + 1) self.old }
        requires front { IsFront trace.now self.old.window (state_after trace.now self.old.window self.old.round) self.old.front.items self.old.next }
        requires picked { HasPicked trace.now (self.old.round + 1) self.old }
        requires ran { ran.now ≡ wave_after trace.now self.old.window self.old.round }
        ensures stands { OnOk result (Stands trace.now self.new) }
        ensures next { OnOk result ((self.new.window ≡ self.old.window)
            × (self.new.round ≡ self.old.round + 1)) }
    {
        drop_ran(&mut self.front, ran, self.done.as_slice());
        self.next = filled(&mut self.front, self.next, trace.places(), self.window)?;
        self.round += 1;
        Ok(())
    }

    /// Runs one round.
    pub(crate) fn run<R: Threads + Wait + Sync, G: Gate + Sync>(
        &mut self,
        rt: &R,
        alloc: Global,
        trace: &Recording,
        plan: &Plan,
        workers: u32,
        gate: &G,
    ) -> Result<(), RoundFault>
        requires trace { IsAccepted trace.now }
        requires plan { plan.now ≡ roles trace.now }
        requires workers { workers ≤ 64 }
        requires round { self.old.round < places trace.now }
        requires stands { Stands trace.now self.old }
        ensures stands { OnOk result (Stands trace.now self.new) }
        ensures next { OnOk result ((self.new.window ≡ self.old.window)
            × (self.new.round ≡ self.old.round + 1)) }
        ensures alone { workers ≤ 1 → result ≢ Err RoundFault.NoThread }
    {
        let wave = self.pick(alloc, trace, plan)?;
        self.run_picked(rt, alloc, trace, plan, workers, gate, wave)
    }

    /// Runs one round, and gives, of the places that it looks at and that run in the round after
    /// it, by the numbers of their rounds, those that an earlier one blocks.
    pub(crate) fn run_telling<R: Threads + Wait + Sync, G: Gate + Sync>(
        &mut self,
        rt: &R,
        alloc: Global,
        trace: &Recording,
        plan: &Plan,
        workers: u32,
        gate: &G,
        rounds: &[u32],
    ) -> Result<Series<Held>, RoundFault>
        requires trace { IsAccepted trace.now }
        requires plan { plan.now ≡ roles trace.now }
        requires workers { workers ≤ 64 }
        requires round { self.old.round < places trace.now }
        requires stands { Stands trace.now self.old }
        ensures held { IfOk result (HasTold trace.now rounds.now self.old) }
        ensures stands { OnOk result (Stands trace.now self.new) }
        ensures next { OnOk result ((self.new.window ≡ self.old.window)
            × (self.new.round ≡ self.old.round + 1)) }
        ensures alone { workers ≤ 1 → result ≢ Err RoundFault.NoThread }
    {
        let (wave, held) = self.pick_telling(alloc, trace, plan, rounds)?;
        self.run_picked(rt, alloc, trace, plan, workers, gate, wave)?;
        Ok(held)
    }

    /// Runs the places of a round that has been picked.
    fn run_picked<R: Threads + Wait + Sync, G: Gate + Sync>(
        &mut self,
        rt: &R,
        alloc: Global,
        trace: &Recording,
        plan: &Plan,
        workers: u32,
        gate: &G,
        wave: Wave,
    ) -> Result<(), RoundFault>
        requires trace { IsAccepted trace.now }
        requires plan { plan.now ≡ roles trace.now }
        requires workers { workers ≤ 64 }
        requires round { self.old.round < places trace.now }
        requires ready { IsReady trace.now self.old }
        requires wave { HasChosen trace.now self.old wave }
        ensures stands { OnOk result (Stands trace.now self.new) }
        ensures next { OnOk result ((self.new.window ≡ self.old.window)
            × (self.new.round ≡ self.old.round + 1)) }
        ensures alone { workers ≤ 1 → result ≢ Err RoundFault.NoThread }
    {
        let ran = places_of(alloc, &wave)?;
        self.run_wave(rt, alloc, trace, plan, workers, gate, wave, ran.as_slice())?;
        self.advance(trace, ran.as_slice())?;
        Ok(())
    }

    /// Runs rounds until all places are done.
    pub(crate) fn run_all<R: Threads + Wait + Sync, G: Gate + Sync>(
        &mut self,
        rt: &R,
        alloc: Global,
        trace: &Recording,
        workers: u32,
        gate: &G,
    ) -> Result<(), RoundFault>
        requires trace { IsAccepted trace.now }
        requires workers { workers ≤ 64 }
        requires stands { Stands trace.now self.old }
        requires first { self.old.round ≡ 0 }
        ensures stands { OnOk result (Stands trace.now self.new) }
        ensures window { OnOk result (self.new.window ≡ self.old.window) }
        ensures over { OnOk result ((self.new.front.items ≡ [])
            ⊎ (self.new.round ≡ places trace.now)) }
        ensures alone { workers ≤ 1 → result ≢ Err RoundFault.NoThread }
    {
        let plan = Plan::of(alloc, trace)?;
        for _round in 0..trace.places() {
            if self.is_over() {
                return Ok(());
            }
            self.run(rt, alloc, trace, &plan, workers, gate)?;
        }
        Ok(())
    }

    /// What the replay gives.
    pub(crate) fn finish(self, trace: &Recording) -> Replay
        requires trace { IsAccepted trace.now }
        requires stands { Stands trace.now self }
        requires over { (self.front.items ≡ []) ⊎ (self.round ≡ places trace.now) }
        ensures { IsReplay trace.now self.window result }
    {
        Replay {
            world: self.world,
            replies: self.replies,
            rounds: Series::from_vec(self.rounds),
        }
    }
}
