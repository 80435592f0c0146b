//! What is shown of a trace reads back: laws of the text.
#![tactic(auto)]

pub mod laws;
pub mod whole;
