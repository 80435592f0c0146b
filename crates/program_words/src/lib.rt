//! The words of the command line, and what they ask for.
#![tactic(auto)]

mod words;

pub use json_lines::Form;
pub use words::{
    Files, Mode, Options, Request, Task, Usage, UsageKind, no_memory, not_text, read_words,
};
