//! The desk and its seats.
ghost use Rattle.std.specs.Prelude.{◌≡◌, ℕ, ◌<◌, ◌^◌, ◌≤◌, [], Some, slice_get};
ghost use Rattle.std.specs.Prelude.{vec_capacity, length, true, map, IfOk};
ghost use Rattle.std.specs.Mem.Slots.{slots_items, slots_len, IsFull};
ghost use mathlib.Core.Option.{some};
ghost use lib.ListN.{get_elem?};
ghost use Rattle.deal_desk.specs.declared.job.Slot.TheVariants.{Waiting, Finished};
ghost use Rattle.deal_desk.specs.Hands.{Knows};
ghost use Rattle.deal_desk.specs.Helds.{held};

use crate::hand::Hand;
use crate::job::{Job, Slot};
use crate::rule::{Dealing, Draw, Finish, Further, Look, Merged};
use atomic_table::{Closed, Refused, Seat, Table};
use std::alloc::{AllocError, Global};
use std::snapshot::Snapshot;

// The word that counts the draws.
const DRAWN: usize = 0;

// The word that counts the results that have come home.
const BACK: usize = 1;

/// A desk that deals its jobs, each once, to the seats of any number of threads.
///
/// Threads share it by reference. A desk that is dropped drops the jobs and results in its slots.
#[derive(Drop)]
pub struct Desk<J: Job> {
    table: Table<Slot<J, J::Done>, Hand<J, J::Done>, Snapshot<Vec<J>>, Dealing<J>, Global>,
    // The two counters, a slot for each job, and so few jobs that a place fits a u32.
    ghost words: { table.shared.table_id.words ≡ 2 },
    ghost slots: { table.shared.table_id.slots ≡ length table.shared.key.value.items },
    ghost few: { length table.shared.key.value.items < 2 ^ 32 },
}

/// A seat at a desk, for one thread at a time. It has at most one place out: draw, put, draw, put.
///
/// Where a seat is dropped with a place out, that place has no result, and the desk can never be
/// closed.
#[derive(Drop)]
pub struct DeskSeat<J: Job> {
    seat: Seat<Slot<J, J::Done>, Hand<J, J::Done>>,
    dry: bool,
    // No other seat has taken it in, the field says what the hand says, and the slot of the place
    // that is out is with it.
    ghost live: { seat.me.0.live ≡ true },
    ghost same: { dry ≡ seat.me.0.dry },
    ghost holds: { seat.me.1 ≡ held seat.me.0.out },
    // It has drawn no place twice, and has drawn all where it is the last seat.
    pub ghost known: { Knows seat.me.0 },
}

impl<J: Job> DeskSeat<J> {
    ghost use Rattle.std.specs.Prelude.{◌≡◌};
    ghost use Rattle.deal_desk.specs.Desks.{hand_of};

    /// Whether it has found all jobs drawn.
    pub fn is_dry(&self) -> bool
        ensures { result ≡ (hand_of self.now).dry }
    {
        self.dry
    }
}

/// Why a desk was not made, or gave no results.
#[derive(Clone, Copy, Debug, PartialEq, Eq, Drop)]
pub enum DeskFault {
    /// There was no memory.
    Memory,
}

impl From<AllocError> for DeskFault {
    fn from(_: AllocError) -> DeskFault {
        DeskFault::Memory
    }
}

// The result in a slot that has one.
fn result_in<T: Drop, D: Drop>(slot: Slot<T, D>) -> D
    requires { (d : D) × (slot ≡ Finished d) }
    ensures { slot ≡ Finished result }
{
    let Slot::Finished(done) = slot else {
        unreachable!()
    };
    done
}

// The results of a closed table, in order of place.
fn gathered<T: Drop, D: Drop>(mut closed: Closed<Slot<T, D>, Global>, mut results: Vec<D>) -> Vec<D>
    requires full { IsFull closed.words × IsFull closed.slots }
    requires done { (k : ℕ) → k < slots_len closed.slots
        → (d : D) × (get_elem? (slots_items closed.slots) k ≡ some (Finished d)) }
    requires empty { results.items ≡ [] }
    requires room { slots_len closed.slots ≤ vec_capacity results }
    ensures all { length result.items ≡ slots_len closed.slots }
    ensures each { (k : ℕ) (d : D) → slice_get result.items k ≡ Some d
        → get_elem? (slots_items closed.slots) k ≡ some (Finished d) }
{
    for place in 0..closed.slot_count() {
        results.push_reserved(result_in(closed.take(place)));
    }
    closed.free();
    results
}

// Each job in a slot of its own.
fn laid_out<J: Job>(alloc: Global, jobs: Vec<J>) -> Result<Vec<Slot<J, J::Done>>, AllocError>
    ensures { IfOk result (λ slots. slots.items ≡ map Waiting jobs.items) }
{
    let mut slots = Vec::with_capacity(alloc, jobs.len())?;
    for job in jobs {
        slots.push(Slot::Waiting(job))?;
    }
    Ok(slots)
}

impl<J: Job> Desk<J> {
    ghost use Rattle.std.specs.Prelude.{◌≡◌, ℕ, ◌<◌, ◌^◌, length, true, false, None};
    ghost use Rattle.std.specs.Prelude.{Some, IfOk, IfSome, IfNone, slice_get};
    ghost use Rattle.deal_desk.specs.Hands.{opening_hand, further_hand, gave, drew, ran_dry};
    ghost use Rattle.deal_desk.specs.Hands.{put_back, took_in, Knows, IsDeal, places_back};
    ghost use Rattle.deal_desk.specs.Desks.{jobs_of, hand_of, IsSeatOf};
    ghost use Rattle.deal_desk.specs.Desks.{IsValueAt, AreValues, WerePut};

    /// A desk with these jobs, fewer than 2^32 or none at all, and its opening seat.
    ///
    /// This is where a desk takes its memory: for the two counters and a slot for each job.
    ///
    /// # Errors
    ///
    /// `DeskFault::Memory` where memory was refused. The jobs are dropped.
    pub fn new(alloc: Global, jobs: Vec<J>) -> Result<(Desk<J>, DeskSeat<J>), DeskFault>
        requires { length jobs.items < 2 ^ 32 }
        ensures jobs { IfOk result (λ r. jobs_of r.0 ≡ jobs.items) }
        ensures seat { IfOk result
            (λ r. IsSeatOf r.0 r.1 × (hand_of r.1 ≡ opening_hand jobs.items)) }
    {
        let snapshot = Snapshot::of(&jobs);
        let slots = laid_out(alloc, jobs)?;
        match Table::new(alloc, &[0, 0], slots, &snapshot) {
            Ok((table, seat)) => Ok((Desk { table }, DeskSeat { seat, dry: false })),
            Err(Refused { slots: _ }) => Err(DeskFault::Memory),
        }
    }

    /// A further seat, which the opening seat gives. It gives at most 65,536.
    pub fn seat(&self, opening: &mut DeskSeat<J>) -> DeskSeat<J>
        requires desk { IsSeatOf self.now opening.old }
        requires opening { (hand_of opening.old).opens ≡ true }
        requires room { (hand_of opening.old).given < 65536 }
        ensures desk { IsSeatOf self.now opening.new × IsSeatOf self.now result }
        ensures given { hand_of opening.new ≡ gave (hand_of opening.old) }
        ensures new { hand_of result ≡ further_hand (jobs_of self.now) }
    {
        let seat = self.table.shared.split_seat::<Further>(&mut opening.seat);
        DeskSeat { seat, dry: false }
    }

    /// The next job that nobody has drawn, with its place, which is then out with this seat. The
    /// seat has nothing else out.
    ///
    /// `None` where all have been drawn: the seat is dry from then on, and further draws take no
    /// step.
    pub fn draw(&self, seat: &mut DeskSeat<J>) -> Option<(u32, J)>
        requires desk { IsSeatOf self.now seat.old }
        requires idle { (hand_of seat.old).out ≡ None }
        ensures desk { IsSeatOf self.now seat.new }
        ensures job { IfSome result (λ r. slice_get (jobs_of self.now) r.0 ≡ Some r.1) }
        ensures some { IfSome result (λ r. hand_of seat.new ≡ drew r.0 (hand_of seat.old)) }
        ensures none { IfNone result (hand_of seat.new ≡ ran_dry (hand_of seat.old)) }
        ensures dry { (hand_of seat.old).dry ≡ true → (result ≡ None) × (seat.new ≡ seat.old) }
        ensures known { Knows (hand_of seat.new) }
    {
        if seat.dry {
            return None;
        }
        // No other draw finds this number.
        let found = self
            .table
            .shared
            .fetch_add::<Draw>(&mut seat.seat, DRAWN, 1);
        if found >= self.table.slot_count() as u64 {
            seat.dry = true;
            return None;
        }
        let taken = self
            .table
            .shared
            .exchange(&mut seat.seat, found as usize, Slot::Taken);
        let Slot::Waiting(job) = taken else {
            unreachable!()
        };
        Some((found as u32, job))
    }

    /// Puts back the place that is out with this seat, with a value of its job.
    pub fn put(&self, seat: &mut DeskSeat<J>, place: u32, done: J::Done)
        requires desk { IsSeatOf self.now seat.old }
        requires out { (hand_of seat.old).out ≡ Some place }
        requires value { IsValueAt J.is_value (jobs_of self.now) place done }
        ensures desk { IsSeatOf self.now seat.new }
        ensures back { hand_of seat.new ≡ put_back place done (hand_of seat.old) }
        ensures known { Knows (hand_of seat.new) }
    {
        let taken = self
            .table
            .shared
            .exchange(&mut seat.seat, place as usize, Slot::Finished(done));
        drop(taken);
        self.table
            .shared
            .fetch_add::<Finish>(&mut seat.seat, BACK, 1);
    }

    /// Takes in a further seat that has nothing out: what it put back counts as put back by the
    /// first, which is dry where either was.
    ///
    /// The opening seat that has merged as many seats as it gave, is dry and has nothing out then
    /// has every place, as `close` asks.
    pub fn merge(&self, seat: &mut DeskSeat<J>, other: DeskSeat<J>)
        requires desk { IsSeatOf self.now seat.old × IsSeatOf self.now other }
        requires idle { (hand_of other).out ≡ None }
        requires further { (hand_of other).opens ≡ false }
        ensures desk { IsSeatOf self.now seat.new }
        ensures both { hand_of seat.new ≡ took_in (hand_of seat.old) (hand_of other) }
        ensures known { Knows (hand_of seat.new) }
    {
        let DeskSeat { seat: last, dry } = other;
        self.table.shared.join_seat::<Merged>(&mut seat.seat, last);
        seat.dry = seat.dry || dry;
        // A join tells nothing of the rule. By this load the seat learns what it knows.
        self.table.shared.load::<Look>(&mut seat.seat, DRAWN);
    }

    /// The results in the order of the jobs. The seat has put back or merged each place.
    ///
    /// # Errors
    ///
    /// `DeskFault::Memory` where memory was refused for the list. The desk, the seat and the
    /// results are dropped.
    pub fn close(self, alloc: Global, seat: DeskSeat<J>) -> Result<Vec<J::Done>, DeskFault>
        requires desk { IsSeatOf self seat }
        requires all { IsDeal (length (jobs_of self)) (places_back (hand_of seat)) }
        ensures values { IfOk result (λ v. AreValues J.is_value (jobs_of self) v.items) }
        ensures put { IfOk result (λ v. WerePut (hand_of seat).back v.items) }
    {
        let results = Vec::with_capacity(alloc, self.table.slot_count())?;
        let Desk { table } = self;
        let DeskSeat { seat, dry: _ } = seat;
        Ok(gathered(table.close_with(seat), results))
    }
}
