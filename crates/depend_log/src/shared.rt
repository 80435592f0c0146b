//! The items by which a place waits.
ghost use Rattle.std.specs.Prelude.{◌≡◌, ◌++◌, ◌<◌, IfOk, OnOk, length};
ghost use Rattle.std.specs.List.{AllByRecursion};
ghost use Rattle.std.specs.Option.{option_map};
ghost use Rattle.depend_log.specs.Shared.{IsWithin, waits_of};
ghost use Rattle.foot_waits.specs.Rule.{use_at};
ghost use Rattle.wave_pick.specs.Holding as model;
ghost use Rattle.world_parts.specs.Uses.{item_meant};

use crate::wait::Wait;
use std::alloc::{AllocError, Global};
use std::collections::BTreeMap;
use wave_pick::shared_with;
use world_parts::{Footprint, Item};

/// Adds those for whom a place waits, by the number of its first use by which it does: each with the
/// item that this use shares with the first of the other's that it collides with.
pub(crate) fn add_waits(
    alloc: Global,
    footprint: &Footprint,
    feet: &[Footprint],
    found: &BTreeMap<u32, u32>,
    waits: &mut Vec<Wait>,
) -> Result<(), AllocError>
    requires { AllByRecursion (IsWithin footprint.now feet.now) found.now.entries }
    ensures { OnOk result (waits.new.items
        ≡ waits.old.items ++ waits_of footprint.now feet.now found.now.entries) }
{
    for (after, index) in found.iter() {
        let other = &feet[*after as usize];
        if let Some(on) = shared_by(alloc, footprint, *index, other)? {
            waits.push(Wait { after: *after, on })?;
        }
    }
    Ok(())
}

/// What a use of an access set, by its number, shares with the first use of another one that it
/// collides with.
fn shared_by(
    alloc: Global,
    footprint: &Footprint,
    index: u32,
    other: &Footprint,
) -> Result<Option<Item>, AllocError>
    requires { index < length footprint.now }
    ensures { IfOk result (λ found. option_map item_meant found
        ≡ model.shared_with (use_at footprint.now index) other.now) }
{
    let uses = footprint.uses();
    let used = &uses[index as usize];
    shared_with(alloc, used, other.uses())
}
