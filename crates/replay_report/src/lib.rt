//! What a replay gives, as text: the report, and the line of a check.
//!
//! `specs/Report.antt` has the text of a report; `specs/Sums.antt` what is summed.
#![tactic(auto)]

mod answer;
mod dealing;
mod entries;
mod entry_line;
mod escaping;
mod in_order;
mod made;
mod names;
mod pieces;
mod report;
mod ring_texts;
mod showing;
mod sums;
mod tree_sums;
mod world_lines;
mod zeros;

pub use answer::Answer;
pub use escaping::{escaped, push_escaped};
pub use in_order::{last_lines, push_line, reports_in_order};
pub use pieces::{Piece, Pieces};
pub use report::{check_text, report_of_texts, report_on, report_text};
pub use ring_texts::RingTexts;
pub use showing::{Lines, Shown, SumsShown};
