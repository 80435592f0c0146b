//! Access sets and may-access sets of places, and which of them collide.
ghost use Rattle.std.specs.Prelude.{◌≡◌, ◌<◌};
ghost use Rattle.chain_plan.specs.Plan.{roles};
ghost use Rattle.recording.specs.Steps.{places};
ghost use Rattle.recording.specs.Accepted.{IsAccepted};

use crate::text::{Submitted, make_directory, read, remove_directory, trace_of, write};
use chain_plan::Plan;
use foot_print::{foot, reach};
use recording::Recording;
use std::alloc::{AllocError, Global};
use std::test::Fail;
use world_parts::{Footprint, Item, World, collide};

/// Whether an access set writes an item.
fn is_written(alloc: Global, footprint: &Footprint, item: Item) -> Result<bool, AllocError> {
    let mut reader = Footprint::new(alloc);
    reader.reads(item)?;
    Ok(collide(footprint, &reader))
}

/// Whether an access set that writes one item collides with one that reads another.
fn meet(alloc: Global, written: Item, read: Item) -> Result<bool, AllocError> {
    let mut writer = Footprint::new(alloc);
    writer.writes(written)?;
    is_written(alloc, &writer, read)
}

#[test]
fn ranges_that_share_a_byte_collide(rt: HostRuntime) -> Result<(), Fail> {
    for (low, high, want) in [
        (0, 10, false),
        (20, 30, false),
        (12, 12, false),
        (0, 11, true),
        (19, 30, true),
    ] {
        let met = meet(
            rt.alloc(),
            Item::Bytes(7, 10, 20),
            Item::Bytes(7, low, high),
        )?;
        assert_eq!(rt; met, want);
    }
    Ok(())
}

/// Two entries, and whether the access sets of their places collide.
#[derive(Clone, Copy)]
struct Pair<'a> {
    one: Submitted<'a>,
    other: Submitted<'a>,
    collide: bool,
}

/// The access set of each place, in the world that the trace starts with.
fn feet(alloc: Global, trace: &Recording) -> Result<Vec<Footprint>, Fail>
    requires { IsAccepted trace.now }
{
    let plan = Plan::of(alloc, trace)?;
    let world = World::of(alloc, trace)?;
    feet_in(alloc, trace, &plan, &world)
}

fn feet_in(
    alloc: Global,
    trace: &Recording,
    plan: &Plan,
    world: &World,
) -> Result<Vec<Footprint>, Fail>
    requires trace { IsAccepted trace.now }
    requires plan { plan.now ≡ roles trace.now }
{
    let mut feet = Vec::new(alloc);
    for place in 0..trace.places() {
        feet.push(foot(alloc, place, trace, plan, world)?)?;
    }
    Ok(feet)
}

fn both_collide(feet: &[Footprint]) -> Result<bool, Fail> {
    match feet {
        [one, other] => Ok(collide(one, other)),
        _ => Err(Fail::from("two places")),
    }
}

fn collides(alloc: Global, pair: &Pair<'_>) -> Result<bool, Fail> {
    let trace = trace_of(alloc, &[pair.one, pair.other])?;
    both_collide(feet(alloc, &trace)?.as_slice())
}

/// The number of the first pair that answers otherwise.
fn first_wrong(alloc: Global, pairs: &[Pair<'_>]) -> Result<Option<usize>, Fail> {
    for (number, pair) in pairs.iter().enumerate() {
        if collides(alloc, pair)? != pair.collide {
            return Ok(Some(number));
        }
    }
    Ok(None)
}

fn apart<'a>(one: Submitted<'a>, other: Submitted<'a>) -> Pair<'a> {
    Pair {
        one,
        other,
        collide: false,
    }
}

fn together<'a>(one: Submitted<'a>, other: Submitted<'a>) -> Pair<'a> {
    Pair {
        one,
        other,
        collide: true,
    }
}

#[test]
fn places_collide_on_what_one_writes(rt: HostRuntime) -> Result<(), Fail> {
    let pairs = [
        apart(write(0, 0, b"abcd"), write(0, 4, b"efgh")),
        together(write(0, 0, b"abcd"), read(0, 2, 4)),
        apart(read(0, 2, 4), read(0, 0, 3)),
        apart(read(0, 4, 4), write(0, 0, b"abcd")),
        together(remove_directory(b"/e"), make_directory(b"/e/x")),
        together(make_directory(b"/a"), make_directory(b"/b")),
        apart(make_directory(b"/a"), make_directory(b"/e/x")),
        apart(make_directory(b"/a"), write(0, 0, b"abcd")),
    ];
    assert_eq!(rt; first_wrong(rt.alloc(), &pairs)?, None);
    Ok(())
}

/// The may-access set of the first place, behind earlier may-access sets.
fn first_reach(alloc: Global, trace: &Recording, earlier: &[Footprint]) -> Result<Footprint, Fail>
    requires { IsAccepted trace.now }
{
    if trace.places() == 0 {
        return Err(Fail::from("one place"));
    }
    let plan = Plan::of(alloc, trace)?;
    let world = World::of(alloc, trace)?;
    reach_in(alloc, trace, &plan, &world, earlier)
}

fn reach_in(
    alloc: Global,
    trace: &Recording,
    plan: &Plan,
    world: &World,
    earlier: &[Footprint],
) -> Result<Footprint, Fail>
    requires trace { IsAccepted trace.now }
    requires place { 0 < places trace.now }
    requires plan { plan.now ≡ roles trace.now }
{
    Ok(reach(alloc, 0, trace, plan, world, earlier)?)
}

/// The may-access set of a read of the empty slot, behind earlier may-access sets.
fn reached(alloc: Global, earlier: &[Footprint]) -> Result<Footprint, Fail> {
    let trace = trace_of(alloc, &[read(1, 0, 4)])?;
    first_reach(alloc, &trace, earlier)
}

/// Whether that may-access set writes the first byte of the first file, as a transfer that may do
/// so does.
fn reaches_the_file(alloc: Global, earlier: &[Footprint]) -> Result<bool, Fail> {
    let reached = reached(alloc, earlier)?;
    Ok(is_written(alloc, &reached, Item::Bytes(2, 0, 1))?)
}

/// The may-access set of a place that fills the slot.
fn filling(alloc: Global) -> Result<Footprint, AllocError> {
    let mut footprint = Footprint::new(alloc);
    footprint.writes(Item::Slot(0, 1))?;
    Ok(footprint)
}

/// The same behind a place that fills the slot.
fn reaches_behind_a_filling(alloc: Global) -> Result<bool, Fail> {
    reaches_the_file(alloc, &[filling(alloc)?])
}

#[test]
fn a_read_of_a_slot_that_may_be_filled_reaches_all_bytes(rt: HostRuntime) -> Result<(), Fail> {
    assert!(rt; !reaches_the_file(rt.alloc(), &[])?);
    assert!(rt; reaches_behind_a_filling(rt.alloc())?);
    Ok(())
}
