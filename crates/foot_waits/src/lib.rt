//! For each of a list of access sets, the earlier ones that it waits for directly.
#![tactic(auto)]

mod descriptors;
mod names;
mod spans;
mod waits;

pub use waits::Waits;
