//! Traces of any version from text. The text of version 3 is that of versions 1 and 2, with rings
//! that begin and end between the other records, files of several ranges, and zeros.
#![tactic(auto)]

mod entry;
mod make;
mod pieces;
mod records;
mod sets;
mod slots;
mod start;

pub use make::make_bytes;
