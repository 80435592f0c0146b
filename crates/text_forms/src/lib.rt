//! Forms of text that people write and read: numbers, paths, strings and names of operations.
#![tactic(auto)]

mod names;
mod paths;
mod words;

pub use names::{name_at, opcode_name};
pub use paths::push_path;
pub use words::{glyph, push_bytes, push_decimal, push_hexadecimal, push_octal, push_signed};
