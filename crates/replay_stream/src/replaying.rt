//! A replay that takes a record at a time.
ghost use Rattle.std.specs.Prelude.{◌≡◌, ◌+◌, ◌-◌, ◌≤◌, [], ◌∷◌, ◌++◌, length, List, IfOk, OnOk};
ghost use Rattle.chain_plan.specs.Stretch.{IsApart, chains_ahead};
ghost use Rattle.recording.specs.Accepted.{IsAccepted};
ghost use Rattle.recording.specs.Fronts.{IsSpelledFront};
ghost use Rattle.recording.specs.Steps.{places};
ghost use Rattle.replay_stream.specs.Replayed.{HasRun, HasRunNext, HasRunSome, MayLack, MayRun};
ghost use Rattle.stream_laws.specs.Streamed.{replies_from, with_ring_of, world_from};
ghost use Rattle.trace_records.specs.declared.record.Record as three;
ghost use Rattle.trace_records.specs.declared.start.Start as three_start;

use chain_plan::Stretch;
use op_meaning::{Replies, run_on_state};
use recording::Recording;
use std::alloc::{AllocError, Global};
use trace_records::{Record, Start};
use world_parts::State;

/// The roles of so many places are found at once.
const AHEAD: u32 = 64;

/// What nothing leads to is dropped when so many nodes and open file descriptions were made, and
/// chains broken, since the last time, and as many as there was left to look at then.
const MADE: usize = 512;

/// What a replay has after each record: the world, without what nothing leads to any more, and the
/// last record with its replies. The memory that it takes does not depend on how many records were
/// run.
#[derive(Drop)]
pub struct Replaying {
    /// The recording so far. The steps before those of the last record do nothing.
    pub recording: Recording,
    /// The place of the first step of the last record.
    pub first: u32,
    /// The replies of its steps, in order.
    pub replies: Replies,
    /// The world behind it. It may lack what nothing leads to.
    pub state: State,
    /// How much may be there before what nothing leads to is dropped.
    room: usize,
}

/// How much there is that may be dropped: nodes, open file descriptions, and chains that broke.
fn made_in(state: &State) -> usize {
    let made = state.node_count().saturating_add(state.description_count());
    made.saturating_add(state.broken_count())
}

/// How much there may be before something is dropped, where so much is left to look at: a sweep
/// costs no more than what is made until the next one.
fn room_above(state: &State, left: usize) -> usize {
    made_in(state).saturating_add(left.max(MADE))
}

/// Drops what nothing leads to, where there is more than the room. Gives the room from then on.
fn sweep_if_due(
    alloc: Global,
    recording: &Recording,
    room: usize,
    state: &mut State,
) -> Result<usize, AllocError>
    requires { IsAccepted recording.now }
    ensures { OnOk result
        (MayLack (length recording.now.descriptions) state.old state.new) }
{
    if made_in(state) <= room {
        return Ok(room);
    }
    let left = state.sweep(alloc, recording.descriptions.as_slice().len() as u32)?;
    Ok(room_above(state, left))
}

/// Adds the buffers of the ring of a number, if there is one.
fn add_new_ring(recording: &Recording, ring: usize, state: &mut State) -> Result<(), AllocError>
    requires { IsAccepted recording.now }
    ensures { OnOk result (state.new ≡ with_ring_of recording.now ring state.old) }
{
    if let Some(there) = recording.rings.as_slice().get(ring) {
        state.add_ring(ring as u32, there.buffers.as_slice())?;
    }
    Ok(())
}

/// Runs the places from the first one on in recorded order, and puts their replies in the place of
/// others.
fn replies_from(
    alloc: Global,
    recording: &Recording,
    first: u32,
    state: &mut State,
    replies: &mut Replies,
) -> Result<(), AllocError>
    requires accepted { IsAccepted recording.now }
    requires within { first ≤ places recording.now }
    requires apart { IsApart recording.now first }
    requires chains { chains_ahead recording.now first ≡ first }
    ensures world { OnOk result (state.new
        ≡ world_from recording.now first (places recording.now - first) state.old) }
    ensures replies { OnOk result (replies.new
        ≡ replies_from recording.now first (places recording.now - first) state.old) }
{
    let mut plan = Stretch::ahead_of(alloc, first, first);
    replies.clear();
    for place in first..recording.places() {
        if place == plan.end() {
            plan = plan.next(recording, AHEAD)?;
        }
        replies.push(run_on_state(alloc, place, recording, &plan.role(place), state)?)?;
    }
    Ok(())
}

impl Replaying {
    /// The replay of a start, before its first record.
    ///
    /// # Errors
    ///
    /// Out of memory.
    pub fn of_start(alloc: Global, start: Start) -> Result<Self, AllocError>
        requires { IsSpelledFront start [] }
        ensures { IfOk result (HasRun start []) }
    {
        let recording = Recording::of_start(alloc, start)?;
        let mut state = State::of(alloc, &recording)?;
        state.copy_texts();
        let room = room_above(&state, made_in(&state));
        Ok(Replaying {
            recording,
            first: 0,
            replies: Replies::new(alloc),
            state,
            room,
        })
    }

    /// Lets go of the last record, whose memory the next one may be read into.
    pub fn let_go(&mut self, alloc: Global)
        ensures { (b : three_start.Start) (front : List three.Record)
            → HasRun b front self.old → HasRun b front self.new }
    {
        self.recording.let_go(alloc);
    }

    /// Lets go of the last record, and runs the places of the next one in recorded order. Then it
    /// may drop what nothing leads to, at a cost that is in proportion to what was made.
    ///
    /// # Errors
    ///
    /// Out of memory.
    pub fn next(self, alloc: Global, next: Record) -> Result<Self, AllocError>
        requires { MayRun self next }
        ensures { (b : three_start.Start) (front : List three.Record)
            → HasRun b front self → IsSpelledFront b (front ++ next ∷ [])
            → IfOk result (HasRunNext b front next) }
    {
        let ran = self.run(alloc, next)?;
        ran.swept(alloc)
    }

    /// Lets go of the last record, and runs the places of the next one.
    fn run(self, alloc: Global, next: Record) -> Result<Self, AllocError>
        requires { MayRun self next }
        ensures { (b : three_start.Start) (front : List three.Record)
            → HasRun b front self → IsSpelledFront b (front ++ next ∷ [])
            → IfOk result (HasRunNext b front next) }
    {
        let mut recording = self.recording;
        let mut state = self.state;
        recording.let_go(alloc);
        let first = recording.places();
        let rings = recording.rings.as_slice().len();
        let recording = recording.with_record(alloc, next)?;
        add_new_ring(&recording, rings, &mut state)?;
        let mut replies = self.replies;
        replies_from(alloc, &recording, first, &mut state, &mut replies)?;
        Ok(Replaying {
            recording,
            first,
            replies,
            state,
            room: self.room,
        })
    }

    /// Drops what nothing leads to, where enough was made since the last time.
    fn swept(self, alloc: Global) -> Result<Self, AllocError>
        requires { HasRunSome self }
        ensures { (b : three_start.Start) (front : List three.Record) (r : three.Record)
            → HasRunNext b front r self → IfOk result (HasRunNext b front r) }
    {
        let mut state = self.state;
        let room = sweep_if_due(alloc, &self.recording, self.room, &mut state)?;
        Ok(Replaying {
            recording: self.recording,
            first: self.first,
            replies: self.replies,
            state,
            room,
        })
    }
}
