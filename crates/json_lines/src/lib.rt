//! The lines of reports, rounds, dependencies, checks and differences as objects of JSON, one on a
//! line, and texts that are written as they are or as such objects.
#![tactic(auto)]

mod fields;
mod form;
mod lines;
mod stream;
mod writing;

pub use form::{Form, text_as};
pub use stream::{JsonLines, json_of};
pub use writing::{WriteFault, write_as};
