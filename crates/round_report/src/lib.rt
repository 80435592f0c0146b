//! Rounds as text: in which round each place runs, for which place it waited last and by which item
//! both hang together, and what the rounds come to; as lines, or as a graph.
//!
//! `specs/Rounds.antt` has the two texts, `specs/Naming.antt` what items are called, and
//! `specs/Summary.antt` the lines at the end.
#![tactic(auto)]

mod graph;
mod lines;
mod naming;
mod summary;

pub use graph::{graph_text, push_arrow_line};
pub use lines::{push_after, rounds_text};
pub use summary::push_quotient;
