//! The next round, by what is kept of the places that wait.
ghost use Rattle.std.specs.Prelude.{◌≡◌, ◌+◌, ◌<◌, [], ℕ, List, true, false, All, IfOk, IfSome, OnOk};
ghost use Rattle.std.specs.Prelude.{Some, filter, length, map, take};
ghost use Rattle.chain_plan.specs.Plan.{roles};
ghost use Rattle.item_index.specs.Ahead.{one_at, touched, written, written_before};
ghost use Rattle.item_index.specs.Touching as touching;
ghost use Rattle.recording.specs.Steps.{places};
ghost use Rattle.recording.specs.Accepted.{IsAccepted};
ghost use Rattle.round_scheduler.specs.Grounds.{ground_holds, AddsGround, IsGround};
ghost use Rattle.round_scheduler.specs.Grounds.{RestsOnCollision, RestsOnGrounds};
ghost use Rattle.wave_pick.specs.Picking.{IsNextWave};
ghost use Rattle.wave_pick.specs.Rounds.{state_after};
ghost use Rattle.round_scheduler.specs.Scheduling.{AreFirst, Flags, Freshens, HasReach, HasRoom};
ghost use Rattle.round_scheduler.specs.Scheduling.{HaveReaches, IsBehind, IsIndex, IsSameRound, Keeps, Lists};
ghost use Rattle.round_scheduler.specs.Scheduling.{LooksOver, Passes, Releases, Remembers};
ghost use Rattle.round_scheduler.specs.Scheduling.{Renews, Sees, Wakes};
ghost use Rattle.round_scheduler.specs.Telling.{Settles, Surveys, has_number, held_among};
ghost use Rattle.round_scheduler.specs.Telling.{held_meant};
ghost use Rattle.world_parts.specs.Items as items;
ghost use Rattle.world_parts.specs.Uses.{item_meant};

use crate::telling::{Held, reach_at, told_held};
use chain_plan::{Plan, Role};
use foot_print::{Outlook, foot_in, outlook_in};
use item_index::{Ahead, Behind, writes_some};
use recording::{Recording, Series};
use std::alloc::{AllocError, Global};
use std::mem;
use wave_pick::{Chosen, Wave};
use world_parts::{Footprint, Item, World, collide, same_uses, writes_item};

/// Among so many places before one the latest on which it rests is looked for first.
const NEAR: usize = 64;

/// So many places that ran in a round are many, however many wait: then as many or more are looked
/// at in the next one, and to ask an index that is exact costs less than to ask the may-access
/// sets. So many looks in one round are many, too.
const MANY: usize = 16;

/// What is seen of a place in a round.
#[derive(Drop)]
pub(crate) struct View {
    reach: Footprint,
    rest: Option<Rest>,
    /// Whether it may run in this round; then its may-access set is its access set.
    free: bool,
}

/// On what a place rests.
#[derive(Drop)]
pub(crate) struct Rest {
    /// Places before it: while all of them wait with the may-access sets that they have, it has the
    /// may-access set that it has, and has to wait.
    on: Vec<u32>,
    /// Where the first of them lies among those before it.
    at: usize,
}

/// A place before one on which that one rests, and where it lies.
#[derive(Clone, Copy)]
struct Found {
    place: u32,
    at: usize,
}

/// Picks the rounds of a replay, one after another. Of the places that wait it looks only at those
/// again of which something may have changed.
#[derive(Drop)]
pub struct Scheduler {
    /// How many rounds there have been.
    round: u32,
    /// Of each place that waits the may-access set that it had when it was looked at last.
    reaches: Vec<Option<Footprint>>,
    /// Whether each place is to be looked at: it hasn't been yet, or something may have changed.
    again: Vec<bool>,
    /// Of each place those that were found to rest on it.
    resting: Vec<Vec<u32>>,
    /// The may-access sets of places that wait, and of some that have run.
    ahead: Ahead,
    /// Whether it has no more than the may-access sets before the place that is looked at.
    exact: bool,
    /// How many may-access sets it has, how many places wait, and how many ran in the last round.
    added: usize,
    waiting: usize,
    ran: usize,
}

impl Scheduler {
    /// Before the first round.
    ///
    /// # Errors
    ///
    /// Out of memory.
    pub fn new(alloc: Global, trace: &Recording) -> Result<Self, AllocError>
        requires { IsAccepted trace.now }
        ensures remembers { IfOk result
            (λ scheduler. (window : ℕ) → Remembers trace.now window scheduler) }
        ensures round { IfOk result (λ scheduler. scheduler.round ≡ 0) }
    {
        let reaches = no_reaches(alloc, trace.places())?;
        let again = vec![in alloc; true; trace.places() as usize]?;
        let resting = none_resting(alloc, trace.places())?;
        let ahead = Ahead::new(alloc)?;
        Ok(Scheduler {
            round: 0,
            reaches,
            again,
            resting,
            ahead,
            exact: true,
            added: 0,
            waiting: 0,
            ran: 0,
        })
    }

    /// The places of the next round, as [`wave_pick::pick`] gives them.
    ///
    /// # Errors
    ///
    /// Out of memory; the scheduler can then only be dropped.
    pub fn pick(
        &mut self,
        alloc: Global,
        trace: &Recording,
        plan: &Plan,
        world: &World,
        pending: &[u32],
        window: u32,
    ) -> Result<Wave, AllocError>
        requires trace { IsAccepted trace.now }
        requires plan { plan.now ≡ roles trace.now }
        requires round { self.old.round < places trace.now }
        requires pending { All (λ k. k < places trace.now) pending.now }
        requires remembers { Remembers trace.now window self.old }
        requires first { AreFirst trace.now window world.now.world self.old.round
            (take window pending.now) }
        ensures wave { IfOk result
            (IsNextWave trace.now window world.now.world (take window pending.now)) }
        ensures remembers { OnOk result (Remembers trace.now window self.new) }
        ensures round { OnOk result (self.new.round ≡ self.old.round + 1) }
    {
        let first = first_of(pending, window);
        let free = self.survey(alloc, trace, plan, world, first)?;
        self.settle(alloc, trace, first.len(), free.as_slice())
    }

    /// The places of the next round, as `pick` gives them; and, of those places among the first
    /// ones whose number in a list is the one that is asked for, those that an earlier place that
    /// waits blocks before the round, as [`crate::held_back`] gives them. No others are asked.
    ///
    /// # Errors
    ///
    /// Out of memory; the scheduler can then only be dropped.
    pub fn pick_telling(
        &mut self,
        alloc: Global,
        trace: &Recording,
        plan: &Plan,
        world: &World,
        pending: &[u32],
        window: u32,
        numbers: &[u32],
        number: u32,
    ) -> Result<(Wave, Series<Held>), AllocError>
        requires trace { IsAccepted trace.now }
        requires plan { plan.now ≡ roles trace.now }
        requires round { self.old.round < places trace.now }
        requires pending { All (λ k. k < places trace.now) pending.now }
        requires remembers { Remembers trace.now window self.old }
        requires first { AreFirst trace.now window world.now.world self.old.round
            (take window pending.now) }
        ensures wave { IfOk result (λ told.
            IsNextWave trace.now window world.now.world (take window pending.now) told.0) }
        ensures held { IfOk result (λ told. map held_meant told.1
            ≡ held_among trace.now (state_after trace.now window self.old.round)
            (filter (has_number numbers.now number) (take window pending.now))) }
        ensures remembers { OnOk result (Remembers trace.now window self.new) }
        ensures round { OnOk result (self.new.round ≡ self.old.round + 1) }
    {
        let first = first_of(pending, window);
        let free = self.survey(alloc, trace, plan, world, first)?;
        let reaches = self.reaches.as_slice();
        let held = told_held(alloc, trace, plan, world, first, reaches, numbers, number)?;
        let wave = self.settle(alloc, trace, first.len(), free.as_slice())?;
        Ok((wave, Series::from_vec(held)))
    }

    /// Looks over the first places that wait, before a round, and gives those that may run in it.
    fn survey(
        &mut self,
        alloc: Global,
        trace: &Recording,
        plan: &Plan,
        world: &World,
        first: &[u32],
    ) -> Result<Vec<u32>, AllocError>
        requires trace { IsAccepted trace.now }
        requires plan { plan.now ≡ roles trace.now }
        requires room { HasRoom (places trace.now) self.old }
        requires places { All (λ k. k < places trace.now) first.now }
        ensures seen { IfOk result (λ free. Surveys trace.now world.now.world first.now self.old
            self.new free.items) }
        ensures places { IfOk result (λ free. All (λ k. k < places trace.now) free.items) }
        ensures room { OnOk result (HasRoom (places trace.now) self.new) }
        ensures round { OnOk result (self.new.round ≡ self.old.round) }
    {
        self.begin(alloc)?;
        self.look_over(alloc, trace, plan, world, first)
    }

    /// The round of the places that may run, of so many first ones that have been looked over.
    fn settle(
        &mut self,
        alloc: Global,
        trace: &Recording,
        count: usize,
        free: &[u32],
    ) -> Result<Wave, AllocError>
        requires trace { IsAccepted trace.now }
        requires round { self.old.round < places trace.now }
        requires room { HasRoom (places trace.now) self.old }
        requires places { All (λ k. k < places trace.now) free.now }
        ensures settles { IfOk result (Settles trace.now free.now self.old self.new) }
        ensures round { OnOk result (self.new.round ≡ self.old.round + 1) }
    {
        let places = trace.places();
        let chosen = self.release(alloc, free)?;
        // There are no more rounds than places.
        self.round = places.min(self.round + 1);
        self.waiting = count - chosen.len().min(count);
        self.ran = chosen.len();
        Ok(Wave {
            places: Series::from_vec(chosen),
        })
    }

    /// Where the index has more may-access sets of places that have run than of places that wait,
    /// or many have run, it is made anew, from the first place on.
    fn begin(&mut self, alloc: Global) -> Result<(), AllocError>
        ensures index { OnOk result (self.new.exact ≡ true → IsIndex self.new []) }
        ensures others { OnOk result (self.new.exact ≡ false → self.new.ahead ≡ self.old.ahead) }
        ensures rest { OnOk result (self.new ≡ record self.old
            { ahead = self.new.ahead; exact = self.new.exact; added = self.new.added }) }
    {
        self.exact = self.added / 2 >= self.waiting || self.ran >= MANY.min(self.waiting / 8);
        if self.exact {
            self.ahead = Ahead::new(alloc)?;
            self.added = 0;
        }
        Ok(())
    }

    /// Looks over the first places that wait, and gives those that may run.
    fn look_over(
        &mut self,
        alloc: Global,
        trace: &Recording,
        plan: &Plan,
        world: &World,
        first: &[u32],
    ) -> Result<Vec<u32>, AllocError>
        requires trace { IsAccepted trace.now }
        requires plan { plan.now ≡ roles trace.now }
        requires room { HasRoom (places trace.now) self.old }
        requires places { All (λ k. k < places trace.now) first.now }
        ensures seen { IfOk result (λ free. LooksOver trace.now world.now.world first.now self.old
            self.new free.items) }
        ensures places { IfOk result (λ free. All (λ k. k < places trace.now) free.items) }
        ensures same { OnOk result (IsSameRound self.old self.new) }
    {
        let mut free = Vec::new(alloc);
        let mut guess = 0;
        let mut looks = 0;
        for index in 0..first.len() {
            let place = first[index];
            if self.again[place as usize] {
                let earlier = &first[..index];
                self.freshen(alloc, earlier, looks)?;
                looks = looks.saturating_add(1);
                let view = self.look(alloc, trace, plan, world, place, earlier, guess)?;
                if view.free {
                    free.push(place)?;
                }
                guess = view.at(guess);
                self.keep(alloc, place, view)?;
            } else {
                self.pass(alloc, place)?;
            }
        }
        Ok(free)
    }

    /// Where so many looks have been many, and the index has more than the may-access sets of the
    /// places before, it is made anew of these.
    fn freshen(&mut self, alloc: Global, earlier: &[u32], looks: usize) -> Result<(), AllocError>
        ensures { OnOk result (Freshens earlier.now self.old self.new) }
    {
        if self.exact || looks < MANY {
            return Ok(());
        }
        self.ahead = index_of(alloc, earlier, self.reaches.as_slice())?;
        self.added = earlier.len();
        self.exact = true;
        Ok(())
    }

    /// Passes over a place that rests: where the index is exact, its may-access set is added.
    fn pass(&mut self, alloc: Global, place: u32) -> Result<(), AllocError>
        requires { place < length self.old.reaches.items }
        ensures { OnOk result (Passes place self.old self.new) }
    {
        if !self.exact {
            return Ok(());
        }
        if let Some(reach) = &self.reaches[place as usize] {
            self.ahead.add(alloc, reach)?;
            self.added = self.added.saturating_add(1);
        }
        Ok(())
    }

    /// The may-access sets before the place that is looked at.
    fn behind<'a>(&'a self, earlier: &'a [u32]) -> Behind<'a>
        ensures { (reaches : List items.Footprint) → HaveReaches self.now earlier.now reaches
            → IsIndex self.now reaches → IsBehind reaches result }
    {
        if self.exact {
            Behind::all(&self.ahead)
        } else {
            Behind::among(&self.ahead, earlier, self.reaches.as_slice())
        }
    }

    /// A look at a place, with a guess where one on which it rests may lie.
    fn look(
        &self,
        alloc: Global,
        trace: &Recording,
        plan: &Plan,
        world: &World,
        place: u32,
        earlier: &[u32],
        guess: usize,
    ) -> Result<View, AllocError>
        requires trace { IsAccepted trace.now }
        requires plan { plan.now ≡ roles trace.now }
        requires place { place < places trace.now }
        ensures { IfOk result (Sees trace.now world.now.world place earlier.now self.now) }
    {
        let role = plan.role(place);
        let behind = self.behind(earlier);
        let footprint = foot_in(alloc, place, trace, &role, world.state())?;
        if behind.meets(&footprint) {
            let outlook = outlook_in(alloc, place, trace, &role, world.state(), &behind)?;
            let reaches = self.reaches.as_slice();
            let rest = waits_on(alloc, &outlook, &role, &behind, earlier, reaches, guess)?;
            return Ok(View {
                reach: outlook.reach,
                rest,
                free: false,
            });
        }
        if behind.collides(&footprint) {
            let reaches = self.reaches.as_slice();
            let rest = collides_on(alloc, &footprint, earlier, reaches, guess)?;
            return Ok(View {
                reach: footprint,
                rest,
                free: false,
            });
        }
        Ok(View {
            reach: footprint,
            rest: None,
            free: true,
        })
    }

    /// Keeps what is seen of a place.
    fn keep(&mut self, alloc: Global, place: u32, view: View) -> Result<(), AllocError>
        requires place { place < length self.old.reaches.items }
        requires room { HasRoom (length self.old.reaches.items) self.old }
        ensures { OnOk result (Keeps place view self.old self.new) }
    {
        self.ahead.add(alloc, &view.reach)?;
        self.added = self.added.saturating_add(1);
        self.renew(alloc, place, view.reach);
        match view.rest {
            Some(rest) => self.list(place, rest.on.as_slice()),
            None => Ok(()),
        }
    }

    /// Keeps the may-access set of a place. Where it had another one, those that rest on it are to
    /// be looked at again.
    #[tactic(auto, using(crate::proofs::Listing::renews_same, crate::proofs::Listing::renews_waking))]
    fn renew(&mut self, alloc: Global, place: u32, reach: Footprint)
        requires place { place < length self.old.reaches.items }
        requires room { HasRoom (length self.old.reaches.items) self.old }
        ensures { Renews place reach self.old self.new }
    {
        let same = self.has_reach(place, &reach);
        self.reaches[place as usize] = Some(reach);
        if !same {
            self.wake(alloc, place);
        }
    }

    /// Whether a place had this may-access set when it was looked at last.
    fn has_reach(&self, place: u32, reach: &Footprint) -> bool
        ensures { result ≡ true → HasReach self.now place reach.now }
    {
        match self.reaches.get(place as usize) {
            Some(Some(kept)) => same_uses(kept, reach),
            _ => false,
        }
    }

    /// Lists a place with those on which it rests: then it needn't be looked at.
    fn list(&mut self, place: u32, on: &[u32]) -> Result<(), AllocError>
        requires { place < length self.old.again.items }
        ensures { OnOk result (Lists place on.now self.old self.new) }
    {
        for one in on {
            let Some(listed) = self.resting.get_mut(*one as usize) else {
                return Ok(());
            };
            listed.push(place)?;
        }
        self.again[place as usize] = false;
        Ok(())
    }

    /// Those that rest on a place are to be looked at again.
    fn wake(&mut self, alloc: Global, place: u32)
        requires { place < length self.old.resting.items }
        ensures { Wakes place self.old self.new }
    {
        let woken = mem::replace(&mut self.resting[place as usize], Vec::new(alloc));
        flag(&mut self.again, woken.as_slice());
    }

    /// The places that run, each with its access set. Those that rest on them are to be looked at
    /// again.
    fn release(&mut self, alloc: Global, free: &[u32]) -> Result<Vec<Chosen>, AllocError>
        requires places { All (λ k. k < length self.old.reaches.items) free.now }
        requires room { HasRoom (length self.old.reaches.items) self.old }
        ensures { IfOk result (λ chosen. Releases free.now self.old self.new chosen.items) }
    {
        let mut chosen = Vec::new(alloc);
        for place in free {
            if let Some(footprint) = self.reaches[*place as usize].take() {
                chosen.push(Chosen {
                    place: *place,
                    footprint,
                })?;
            }
            self.wake(alloc, *place);
        }
        Ok(chosen)
    }
}

/// The first of some places, as many as a window has.
fn first_of(pending: &[u32], window: u32) -> &[u32]
    ensures { result.now ≡ take window pending.now }
{
    let count = pending.len().min(window as usize);
    &pending[..count]
}

/// Some places are to be looked at.
fn flag(again: &mut Vec<bool>, places: &[u32])
    ensures { Flags places.now again.old.items again.new.items }
{
    for place in places {
        if let Some(flag) = again.get_mut(*place as usize) {
            *flag = true;
        }
    }
}

/// The index of the may-access sets that a table has of some places.
fn index_of(
    alloc: Global,
    places: &[u32],
    reaches: &[Option<Footprint>],
) -> Result<Ahead, AllocError>
    ensures written { IfOk result (λ ahead. (x : items.Item) → written ahead x
        ≡ one_at reaches.now places.now (λ f. touching.writes_item f x)) }
    ensures touched { IfOk result (λ ahead. (x : items.Item) → touched ahead x
        ≡ one_at reaches.now places.now (λ f. touching.touches_item f x)) }
{
    let mut ahead = Ahead::new(alloc)?;
    for place in places {
        if let Some(reach) = reach_at(reaches, *place) {
            ahead.add(alloc, reach)?;
        }
    }
    Ok(ahead)
}

impl View {
    /// Where the first place lies on which this one rests; a guess, where it rests on none.
    fn at(&self, guess: usize) -> usize {
        match &self.rest {
            Some(rest) => rest.at,
            None => guess,
        }
    }
}

/// What a place before another one does so that the other rests on it, or on it and others.
#[derive(Drop)]
enum Ground<'a> {
    /// Its may-access set collides with this access set.
    Collides(&'a Footprint),
    /// It writes one of these items.
    WritesSome(&'a Footprint),
    /// It writes this item.
    Writes(&'a Item),
}

impl Ground<'_> {
    /// Whether a place with this may-access set does.
    fn holds(&self, reach: &Footprint) -> bool
        ensures { result ≡ ground_holds self.now reach.now }
    {
        match self {
            Ground::Collides(footprint) => collide(footprint, reach),
            Ground::WritesSome(items) => writes_some(reach, items.uses()),
            Ground::Writes(item) => writes_item(reach, item),
        }
    }
}

/// The latest of some places that does so that another one rests on it. Where no near one does, a
/// guess is tried before those further back.
fn latest_on(
    ground: &Ground<'_>,
    earlier: &[u32],
    reaches: &[Option<Footprint>],
    guess: usize,
) -> Option<Found>
    ensures { IfSome result (λ found.
        IsGround (ground_holds ground.now) earlier.now reaches.now found.place) }
{
    let count = earlier.len();
    let near = count.min(NEAR);
    for back in 0..near {
        let at = count - 1 - back;
        if let Some(found) = ground_at(ground, earlier, reaches, at) {
            return Some(found);
        }
    }
    if let Some(found) = ground_at(ground, earlier, reaches, guess) {
        return Some(found);
    }
    for back in near..count {
        let at = count - 1 - back;
        if let Some(found) = ground_at(ground, earlier, reaches, at) {
            return Some(found);
        }
    }
    None
}

/// The place that lies at one spot among some, if it does so that another one rests on it.
fn ground_at(
    ground: &Ground<'_>,
    earlier: &[u32],
    reaches: &[Option<Footprint>],
    at: usize,
) -> Option<Found>
    ensures { IfSome result (λ found.
        IsGround (ground_holds ground.now) earlier.now reaches.now found.place) }
{
    let place = *earlier.get(at)?;
    let reach = reach_at(reaches, place)?;
    if !ground.holds(reach) {
        return None;
    }
    Some(Found { place, at })
}

/// On which place one rests that collides with may-access sets before it and meets none.
fn collides_on(
    alloc: Global,
    footprint: &Footprint,
    earlier: &[u32],
    reaches: &[Option<Footprint>],
    guess: usize,
) -> Result<Option<Rest>, AllocError>
    ensures { IfOk result (λ rest. IfSome rest (λ r.
        RestsOnCollision footprint.now earlier.now reaches.now r.on.items)) }
{
    let ground = Ground::Collides(footprint);
    let Some(found) = latest_on(&ground, earlier, reaches, guess) else {
        return Ok(None);
    };
    let mut on = Vec::new(alloc);
    on.push(found.place)?;
    Ok(Some(Rest { on, at: found.at }))
}

/// On which places one rests that waits by some items: one that writes one of these and, so far as
/// some place before it does, one that writes the flag of its chain, and one that writes a
/// descriptor, if it takes the lowest.
fn waits_on(
    alloc: Global,
    outlook: &Outlook,
    role: &Role,
    behind: &Behind<'_>,
    earlier: &[u32],
    reaches: &[Option<Footprint>],
    guess: usize,
) -> Result<Option<Rest>, AllocError>
    ensures { IfOk result (λ rest. IfSome rest (λ r. RestsOnGrounds outlook.now role.now.chain
        (written_before behind.now) earlier.now reaches.now r.on.items)) }
{
    let Some(items) = outlook.waits_by.items(&outlook.reach) else {
        return Ok(None);
    };
    let ground = Ground::WritesSome(items);
    let Some(found) = latest_on(&ground, earlier, reaches, guess) else {
        return Ok(None);
    };
    let mut on = Vec::new(alloc);
    on.push(found.place)?;
    let flag = Item::Chain(role.chain);
    let chained = behind.writes(&flag);
    if !add_writer(&mut on, chained, &flag, earlier, reaches)? {
        return Ok(None);
    }
    let lowest = outlook.takes_lowest && behind.writes(&Item::AllDescriptors);
    if !add_writer(&mut on, lowest, &Item::AllDescriptors, earlier, reaches)? {
        return Ok(None);
    }
    Ok(Some(Rest { on, at: found.at }))
}

/// Adds the latest of some places that writes an item, if it is asked for. Tells whether there is
/// one, or none is asked for.
fn add_writer(
    on: &mut Vec<u32>,
    asked: bool,
    item: &Item,
    earlier: &[u32],
    reaches: &[Option<Footprint>],
) -> Result<bool, AllocError>
    ensures { IfOk result (λ done. done ≡ true → AddsGround asked
        (λ g. touching.writes_item g (item_meant item.now)) earlier.now reaches.now
        on.old.items on.new.items) }
{
    if !asked {
        return Ok(true);
    }
    let Some(found) = latest_on(&Ground::Writes(item), earlier, reaches, 0) else {
        return Ok(false);
    };
    on.push(found.place)?;
    Ok(true)
}

/// No place has a may-access set.
fn no_reaches(alloc: Global, places: u32) -> Result<Vec<Option<Footprint>>, AllocError>
    ensures { IfOk result (λ reaches. length reaches.items ≡ places) }
{
    let mut reaches = Vec::new(alloc);
    for _place in 0..places {
        reaches.push(None)?;
    }
    Ok(reaches)
}

/// No place rests on one.
fn none_resting(alloc: Global, places: u32) -> Result<Vec<Vec<u32>>, AllocError>
    ensures { IfOk result (λ resting. length resting.items ≡ places) }
{
    let mut resting = Vec::new(alloc);
    for _place in 0..places {
        resting.push(Vec::new(alloc))?;
    }
    Ok(resting)
}
