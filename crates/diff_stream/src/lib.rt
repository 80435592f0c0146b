//! Two reports that are compared while they are read: they are held only as far as they are out of
//! step.
#![tactic(auto)]

mod fault;
mod held;
mod merge;
mod report;
mod side;

pub use fault::CompareFault;
pub use report::write_differences;
