//! The rounds of a replay, one after another, by what is kept of the places that wait.
//!
//! `wave_pick` says which places a round has, and picks them by a look at each pending place. A
//! [`Scheduler`] gives the same rounds, and looks only at those places of which something may have
//! changed.
#![tactic(auto)]

mod scheduler;
mod telling;

pub use scheduler::Scheduler;
pub use telling::Held;
