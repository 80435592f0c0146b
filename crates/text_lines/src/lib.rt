//! Lines of a text that is taken from a reader: no more of it is held than is needed.
#![tactic(auto)]

mod lines;

pub use lines::TextLines;
