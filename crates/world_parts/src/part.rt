//! A world of which parts may be out, and its parts.
ghost use Rattle.std.specs.Prelude.{◌≡◌, IfOk};
ghost use Rattle.world_parts.specs.Copying.{nothing};

use crate::footprint::Footprint;
use crate::state::State;
use std::alloc::{AllocError, Global};
use std::collections::BTreeMap;
use std::marker::Model;

/// The world of a replay, and the access sets of the parts that are out of it, by their places.
#[derive(Drop)]
pub struct World {
    pub(crate) state: Box<State>,
    pub(crate) out: BTreeMap<u32, Footprint>,
}

impl Model for World {
    ghost use Rattle.finite_maps.specs.Table.{number_keys};
    ghost use Rattle.finite_maps.specs.Maps.{table_of};
    ghost use Rattle.world_parts.specs.Part.{Divided};

    ghost Value = { Divided };

    ghost view = { λ w. record {
      world = w.state.value;
      out = table_of number_keys.total w.out.entries;
    } };
}

/// A part of a world that was cut out for a place: a small world in which the items of the place's
/// access set have their values.
#[derive(Drop)]
pub struct Part {
    pub place: u32,
    pub state: Box<State>,
}

impl Model for Part {
    ghost use Rattle.world_parts.specs.Part.{Part};

    ghost Value = { Part };

    ghost view = { λ p. record { place = p.place; values = p.state.value } };
}

impl Part {
    /// A part for a place in which nothing is.
    ///
    /// # Errors
    ///
    /// Out of memory.
    pub fn nothing(alloc: Global, place: u32) -> Result<Self, AllocError>
        ensures { IfOk result (λ part. part ≡ record { place = place; values = nothing }) }
    {
        let state = Box::new(alloc, State::nothing(alloc))?;
        Ok(Part { place, state })
    }
}
