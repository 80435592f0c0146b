//! Readers and writers whose contracts tell bytes and failures, and texts that are read from one or
//! written to one.
#![tactic(auto)]

mod transfer;

pub use transfer::{
    Failed, FromStd, MOST_BYTES, Sink, Source, TextFault, read_on, read_text, write_text,
};
