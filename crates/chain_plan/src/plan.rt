//! The roles of all places of a trace.
ghost use Rattle.std.specs.Prelude.{◌≡◌, ◌<◌, length, IfOk, Some};
ghost use Rattle.std.specs.List.{slice_get};
ghost use Rattle.recording.specs.Steps.{places};
ghost use Rattle.recording.specs.Accepted.{IsAccepted};
ghost use Rattle.recording.specs.declared.recording.Recording.{Recording};
ghost use Rattle.chain_plan.specs.Chain.{role};
ghost use Rattle.chain_plan.specs.Plan.{roles};

use crate::role::Role;
use crate::stretch::Stretch;
use recording::Recording;
use std::alloc::{AllocError, Global};
use std::marker::Model;

/// The roles of the places of a trace.
#[derive(Drop)]
pub struct Plan {
    /// The stretch of all places.
    all: Stretch,
}

impl Model for Plan {
    ghost use Rattle.std.specs.Prelude.{◌≡◌, List};
    ghost use Rattle.chain_plan.specs.declared.role.Role.{Role};

    ghost Value = { List Role };

    ghost view = { λ p. p.all.roles };

    ghost invariant = { λ p. p.all.first ≡ 0 };
}

impl Plan {
    /// The plan of a trace, in one walk over its places. Time and memory are linear in the places
    /// and the bytes beside their entries.
    pub fn of(alloc: Global, trace: &Recording) -> Result<Self, AllocError>
        requires { IsAccepted trace.now }
        ensures roles { IfOk result (λ p. p ≡ roles trace.now) }
        ensures places { IfOk result (λ p. length p ≡ places trace.now) }
    {
        let all = Stretch::new(alloc).next(trace, trace.places())?;
        Ok(Plan { all })
    }

    /// The role of a place, at once and without memory.
    pub fn role(&self, place: u32) -> Role
        requires { place < length self.now }
        ensures at_place { slice_get self.now place ≡ Some result }
        ensures of_trace { (t : Recording) → self.now ≡ roles t → result ≡ role t place }
    {
        self.all.role(place)
    }
}
