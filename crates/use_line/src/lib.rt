//! A line of numbers, and which places have used them last: for whom each place waits directly.
#![tactic(auto)]

mod clip;
mod line;
mod ranges;
mod read;
mod spots;
mod steps;

pub use line::{Line, Span};
