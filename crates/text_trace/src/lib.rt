//! Traces from text: what a text that people write means, and where it means nothing.
#![tactic(auto)]

mod draft;
mod entry;
mod fault;
mod fields;
pub mod laws;
mod lines;
mod make;

pub use entry::{Draft, add_next, empty, fields_of, mark_of, side_of};
pub use fault::{MakeFault, TextFault};
pub use fields::{Field, opcode_of};
pub use lines::{
    ItemKind, Names, begins, buffer_of, description_of, empty_slots, keyed_long, keyed_word,
    kind_of, next_number, next_path, node_at, note_name, text_end,
};
pub use make::{MOST_BYTES, make_bytes, place_of};
