//! The first round of a trace, by a look at each place of it.
ghost use Rattle.std.specs.Prelude.{◌≡◌, ◌<◌, All, IfOk};
ghost use Rattle.chain_plan.specs.Plan.{roles};
ghost use Rattle.recording.specs.Steps.{places};
ghost use Rattle.recording.specs.Accepted.{IsAccepted};

use crate::text::six_places;
use chain_plan::Plan;
use recording::Recording;
use std::alloc::{AllocError, Global};
use std::test::Fail;
use wave_pick::{Wave, pick};
use world_parts::World;

/// All places of a trace.
fn all_places(alloc: Global, trace: &Recording) -> Result<Vec<u32>, AllocError>
    ensures { IfOk result (λ all. All (λ k. k < places trace.now) all.items) }
{
    let mut all = Vec::new(alloc);
    for place in 0..trace.places() {
        all.push(place)?;
    }
    Ok(all)
}

/// Whether a round is just these places.
fn is_round(wave: &Wave, wanted: &[u32]) -> bool {
    let chosen = wave.places.as_slice();
    if chosen.len() != wanted.len() {
        return false;
    }
    for (there, place) in chosen.iter().zip(wanted) {
        if there.place != *place {
            return false;
        }
    }
    true
}

fn picks(
    alloc: Global,
    trace: &Recording,
    plan: &Plan,
    world: &World,
    wanted: &[u32],
) -> Result<bool, AllocError>
    requires trace { IsAccepted trace.now }
    requires plan { plan.now ≡ roles trace.now }
{
    let all = all_places(alloc, trace)?;
    Ok(is_round(
        &pick(alloc, trace, plan, world, all.as_slice(), 64)?,
        wanted,
    ))
}

/// Whether the first round of a trace is just these places.
fn is_first_round(alloc: Global, trace: &Recording, wanted: &[u32]) -> Result<bool, AllocError>
    requires { IsAccepted trace.now }
{
    let plan = Plan::of(alloc, trace)?;
    let world = World::of(alloc, trace)?;
    picks(alloc, trace, &plan, &world, wanted)
}

#[test]
fn the_first_round_is_what_collides_with_nothing_ahead(rt: HostRuntime) -> Result<(), Fail> {
    let trace = six_places(rt.alloc())?;
    assert!(rt; is_first_round(rt.alloc(), &trace, &[0, 2, 4])?);
    Ok(())
}
