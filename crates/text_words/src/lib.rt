//! Words of a text that people write: numbers, paths and strings, and where a word is none.
#![tactic(auto)]

mod fault;
mod numbers;
mod paths;
mod source;
mod strings;

pub use fault::{Fault, ReadError, Reason, refused};
pub use numbers::{
    Style, count_at, decimal_of, number_at, number_in, u8_at, u16_at, u32_at, u64_at,
};
pub use paths::{letters_of, path_at};
pub use source::{
    Source, Word, behind, behind_first, behind_next, first_word, is_at_end, line_end, next_word,
    part_at, value_at, word_behind,
};
pub use strings::{add_string, is_string, strings_of};
