//! Which earlier places each place of a trace depends on in the sequential run, for which of them it
//! waits by itself, and why that suffices.
#![tactic(auto)]

pub mod laws;
