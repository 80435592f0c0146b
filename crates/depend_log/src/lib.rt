//! For each place of a trace, the earlier ones that it waits for directly in the sequential run, and
//! the item by which it waits for each.
//!
//! Each of these is a dependency, and to wait for all of them is to wait for all that a place
//! depends on: `dependencies::laws::direct_waits_are_enough`.
#![tactic(auto)]

mod run;
mod shared;
mod wait;

pub use run::Dependencies;
pub use wait::{PlaceWaits, Wait};
