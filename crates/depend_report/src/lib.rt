//! What the places of a trace wait for as text, as lines or as a graph, and how parallel they are.
//! The places come one after another, so what they wait for need not be held all at once.
//!
//! `specs/Depends.antt` has the two texts, `specs/Paths.antt` the longest path, and
//! `specs/Whole.antt` of which places a trace has them.
#![tactic(auto)]

mod graph;
mod lines;
mod paths;
mod whole;

pub use graph::DependsGraph;
pub use lines::DependsText;
pub use whole::{depends_graph, depends_text};
