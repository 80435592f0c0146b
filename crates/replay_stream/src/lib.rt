//! A replay of a trace of version 3 that takes a record at a time, in the memory of the world and
//! one record.
//!
//! [`Replaying::of_start`] has the world of a start. [`Replaying::next`] runs the places of the
//! next record, and lets go of the record before it.
#![tactic(auto)]

mod replaying;

pub use replaying::Replaying;
