//! The report of a trace of version 3, written while the trace is read, in the memory of the world
//! and one record.
//!
//! `specs/Written.antt` says what is written, also of a trace that ends in a fault.
#![tactic(auto)]

mod ending;
mod fault;
mod lines;
mod pending;
mod report;
mod turn;

pub use ending::Asked;
pub use fault::ReportFault;
pub use report::write_report;
