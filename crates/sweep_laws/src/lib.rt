//! A replay may drop what nothing leads to any more: laws of worlds that lack it.
#![tactic(auto)]

pub mod laws;
