//! Traces of version 3, as bytes that a recorder can write, and a replay can read, a record at a
//! time.
//!
//! A text is a start, records, and a record that ends it. The start is a header of 32 bytes
//! (`URINGTRC`, the version, and how many items, descriptions and full descriptors follow), the
//! initial names and files, the open file descriptions, and the table of ordinary descriptors. A
//! record submits entries, fills a registered buffer, says what a slot or a descriptor holds or
//! where that stands, or starts or ends a ring. All numbers are little-endian. `specs/Start.antt`
//! and `specs/Records.antt` have the format field by field, with the limit of each number and the
//! fault of each test.
//!
//! [`read_start`] and [`read_record`] read one part each, by the bytes that follow and what the
//! parts before decide ([`Front`]); [`read_trace`] reads all. Each gives what the bytes spell, or
//! the first fault in reading order. No later byte changes a fault, but that the text is too short.
//! [`write_start`], [`write_record`] and [`write_end`] write the parts, [`write_trace`] all.
//!
//! Not served yet, and refused as out of range at their field: symbolic links.
#![tactic(auto)]

mod counting;
mod descriptions;
mod entries;
mod fault;
mod fills;
mod front;
mod header;
mod items;
pub mod laws;
mod names;
mod opens;
mod paths;
mod reading;
mod record;
mod records;
mod rings;
mod sets;
mod source;
mod spans;
mod start;
mod trace;
mod writing;

pub use counting::{Tally, count_trace};
pub use front::{Front, Sizes};
pub use opens::{
    ACCESS, ALLOCATED_SLOT, APPEND, CREATE, DIRECTORY, EXCLUSIVE, TRUNCATE, are_open_flags,
    check_path,
};
pub use reading::{read_record, read_start, read_trace};
pub use record::{Beside, Content, Entry, FileAt, Filling, FullSlot, Holder, Record, Ring};
pub use start::{Descriptor, Item, Node, Range, Start};
pub use trace::Trace;
pub use writing::{write_end, write_record, write_start, write_trace};
