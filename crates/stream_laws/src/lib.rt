//! A replay may let go of the records that it has run: laws of recordings that grow record by
//! record.
#![tactic(auto)]

pub mod laws;
