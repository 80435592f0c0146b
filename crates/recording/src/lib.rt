//! What was recorded, whatever the version of the trace that tells it.
//!
//! A [`Recording`] has the initial names and files, the open file descriptions, the table of
//! ordinary descriptors, all rings, and the steps in the order of the recording, numbered from 0
//! by their places. [`Recording::of_whole`] takes it from a trace of version 1 or 2, whose records
//! stay as they lie; [`Recording::of_records`] takes it from one of version 3, a record after
//! another.
//!
//! [`laws`] say that each trace that some bytes spell gives a recording that a replay accepts.
#![tactic(auto)]

mod growing;
mod kept;
pub mod laws;
mod record;
mod recording;
mod steps;
mod whole;

pub use kept::ring_of;
pub use recording::{Recording, Ring};
pub use steps::{Action, Step, Steps};
pub use trace_format::{Access, Blob, Buffer, Description, Entry, Series, Version};
pub use trace_records::{Content, FileAt, FullSlot, Holder, Item, Node, Range};
