//! Recorded traces of io_uring submissions, as bytes.
//!
//! A text is a header of 32 bytes (`URINGTRC`, the version, and how many items, descriptions,
//! rings, records and descriptors follow), then the initial names and files, the open file
//! descriptions, the table of ordinary descriptors, the rings with their slots and registered
//! buffers, and the records in the order of the recording. All numbers are little-endian.
//! `specs/Text.antt` has the format field by field, with the limit of each number and the fault of
//! each test.
//!
//! [`read_trace`] gives the trace that the bytes spell, or the first fault in reading order;
//! [`write_trace`] gives the bytes back. The entries and fills of the records are the trace's
//! steps, numbered from 0 by their places: [`Trace::places`], [`Trace::step`].
#![tactic(auto)]

mod blob;
mod descriptions;
mod entries;
mod entry;
mod fault;
mod gathered;
mod given;
mod header;
mod items;
pub mod laws;
mod list;
mod names;
mod paths;
mod reading;
mod records;
mod rings;
mod sides;
mod source;
mod spans;
mod steps;
mod trace;
mod version;
mod writing;

pub use blob::{Blob, Text, TextSlice};
pub use entries::{Entries, EntriesBuilder};
pub use entry::Entry;
pub use fault::{Kind, TraceFault};
pub use gathered::{EntryBuf, Gathered};
pub use given::Given;
pub use list::Series;
pub use reading::read_trace;
pub use sides::{fits, vector_total};
pub use steps::{Action, Records, Step};
pub use trace::{Access, Buffer, Description, Item, Node, Record, Ring, Trace};
pub use version::{Rules, Version};
pub use writing::write_trace;
