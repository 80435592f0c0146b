//! Traces as text, which people read.
//!
//! `specs/Shown.antt` has the text line by line, `specs/Entry.antt` the line of an entry,
//! `specs/Fields.antt` its fields, and `specs/Names.antt` operations and flags.
//! `specs/Below.antt` has entries below the lines of a comparison. What other versions have too is
//! public: the functions `push_..` add lines and words to a text, and [`with_lines`] puts the lines
//! of any trace below those of a comparison.
#![tactic(auto)]

mod below;
mod entry;
mod fields;
mod lines;
mod look;
mod names;
mod pieces;
mod plain;
mod quoted;
mod show;

pub use below::{BRIEF, Placed, with_entries, with_lines};
pub use entry::{default_len, push_data, push_front, push_head, push_place, push_words};
pub use fields::{fd_key, len_key, off_key, push_key, push_later, push_number, push_op_flags};
pub use lines::{
    push_buffers, push_empty, push_enter, push_fill, push_item_number, push_opening,
    push_path_or_number,
};
pub use look::Look;
pub use names::{FlagSet, entry_flag_name, flag_name};
pub use show::show_text;
