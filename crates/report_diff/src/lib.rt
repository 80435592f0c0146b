//! Two reports of one trace, line by line.
//!
//! [`compare`] takes both reports from one input and tells where they differ. A line is about its
//! *subject*, its first words; the other words are its *facts*. Two lines of one subject agree where
//! no fact of one contradicts the other: what only one of them tells is no difference. What is not
//! compared for want of a fact is counted. Both have one version. In version 2 the places of the
//! entries rise, and the second report may be cut off.
//! `specs/Differences.antt` has the rules.
#![tactic(auto)]

mod comparing;
mod counting;
mod cutting;
mod facts;
mod finishing;
mod fronts;
mod index;
mod known;
mod lines;
mod merging;
mod passed;
mod places;
mod refusal;
mod telling;
mod version;

pub use comparing::{Comparison, DiffFault, Terms, compare, compare_two};
pub use fronts::{HEADING, Merging, Offer};
pub use refusal::{Flaw, Refusal, Shown, Side};
pub use version::Version;
