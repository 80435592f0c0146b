//! Traces of version 3 as text, which people read.
//!
//! `specs/Shown.antt` has the text line by line, and `specs/Below.antt` entries below the lines of a
//! comparison. What they share with other versions is that of `trace_text`.
#![tactic(auto)]

mod below;
mod records;
mod rings;
mod sets;
mod show;
mod start;

pub use below::with_entries;
pub use show::show_text;
