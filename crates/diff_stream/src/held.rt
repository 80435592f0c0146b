//! The bytes that are held of two reports, and what was found of them so far.

use report_diff::Merging;
use text_lines::TextLines;

/// The bytes that are held of a report, and whether its reader was found at its end.
#[derive(Drop)]
pub(crate) struct Side {
    pub lines: TextLines,
    pub ended: bool,
}

/// Both reports, and what was found so far.
#[derive(Drop)]
pub(crate) struct Sides {
    pub first: Side,
    pub second: Side,
    pub merging: Merging,
}
