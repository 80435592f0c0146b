//! Which of the first places that wait, asked by number, are blocked, by the may-access sets that a
//! table has of them.
ghost use Rattle.std.specs.Prelude.{◌≡◌, ◌<◌, All, IfOk, find, reverse, slice_get};
ghost use Rattle.std.specs.Option.{option_copied, option_map};
ghost use Rattle.chain_plan.specs.Plan.{roles};
ghost use Rattle.recording.specs.Steps.{places};
ghost use Rattle.recording.specs.Accepted.{IsAccepted};
ghost use Rattle.round_scheduler.specs.Telling.{AreTold, IsTold, has_number};
ghost use Rattle.round_scheduler.specs.Telling.{collides_with, held_meant, kept_reach};

use chain_plan::Plan;
use foot_print::foot_in;
use recording::Recording;
use std::alloc::{AllocError, Global};
use wave_pick::shared_of;
use world_parts::{Footprint, Item, World, collide};

/// A pending place that an earlier one blocks, so that it isn't in the next round.
#[derive(Drop)]
pub struct Held {
    pub place: u32,
    /// The latest earlier pending place whose may-access set collides with its access set.
    pub holder: u32,
    /// What the two share.
    pub item: Item,
}

/// Of the first places that wait, those with a number that an earlier one of them blocks.
pub(crate) fn told_held(
    alloc: Global,
    trace: &Recording,
    plan: &Plan,
    world: &World,
    first: &[u32],
    reaches: &[Option<Footprint>],
    numbers: &[u32],
    number: u32,
) -> Result<Vec<Held>, AllocError>
    requires trace { IsAccepted trace.now }
    requires plan { plan.now ≡ roles trace.now }
    requires places { All (λ k. k < places trace.now) first.now }
    ensures { IfOk result (λ held. AreTold trace.now world.now.world first.now reaches.now
        (has_number numbers.now number) held.items) }
{
    let mut held = Vec::new(alloc);
    for index in 0..first.len() {
        let place = first[index];
        if has_number(numbers, place, number) {
            let footprint = foot_in(alloc, place, trace, &plan.role(place), world.state())?;
            if let Some(found) = held_at(alloc, place, &footprint, &first[..index], reaches)? {
                held.push(found)?;
            }
        }
    }
    Ok(held)
}

/// Whether a list has this number of a place.
fn has_number(numbers: &[u32], place: u32, number: u32) -> bool
    ensures { result ≡ has_number numbers.now number place }
{
    match numbers.get(place as usize) {
        Some(found) => *found == number,
        None => false,
    }
}

/// A place as blocked by the latest of some earlier ones whose may-access set collides with its
/// access set, where one does.
fn held_at(
    alloc: Global,
    place: u32,
    footprint: &Footprint,
    earlier: &[u32],
    reaches: &[Option<Footprint>],
) -> Result<Option<Held>, AllocError>
    ensures { IfOk result (λ held. IsTold place footprint.now earlier.now reaches.now
        (option_map held_meant held)) }
{
    let Some(holder) = latest_at(footprint, earlier, reaches).copied() else {
        return Ok(None);
    };
    let Some(reach) = reach_at(reaches, holder) else {
        return Ok(None);
    };
    let Some(item) = shared_of(alloc, footprint, reach)? else {
        return Ok(None);
    };
    Ok(Some(Held {
        place,
        holder,
        item,
    }))
}

/// The latest of some places whose may-access set collides with an access set.
fn latest_at<'a>(
    footprint: &Footprint,
    earlier: &'a [u32],
    reaches: &[Option<Footprint>],
) -> Option<&'a u32>
    ensures { option_copied result
        ≡ find (λ i. collides_with footprint.now (kept_reach (slice_get reaches.now i))) (reverse earlier.now) }
{
    earlier
        .iter()
        .rev()
        .find(|place| collides_at(footprint, reaches, **place))
}

/// Whether a table has a may-access set of a place, and it collides with an access set.
fn collides_at(footprint: &Footprint, reaches: &[Option<Footprint>], place: u32) -> bool
    ensures { result ≡ collides_with footprint.now (kept_reach (slice_get reaches.now place)) }
{
    match reach_at(reaches, place) {
        Some(reach) => collide(footprint, reach),
        None => false,
    }
}

/// The may-access set that a table has of a place, if it has one.
pub(crate) fn reach_at(reaches: &[Option<Footprint>], place: u32) -> Option<&Footprint>
    ensures { option_copied result ≡ kept_reach (slice_get reaches.now place) }
{
    match reaches.get(place as usize) {
        Some(Some(reach)) => Some(reach),
        _ => None,
    }
}
