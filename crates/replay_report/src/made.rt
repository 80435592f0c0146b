//! Sums that were made before the report is written.

use crate::sums::Sums;
use crate::tree_sums::TreeSums;

/// The sums of what a report shows with a sum, as far as sums are asked for.
#[derive(Clone, Copy)]
pub(crate) enum Made<'a> {
    None,
    /// Those of buffers and of small files.
    Small(&'a Sums),
    /// Those of large files too.
    All(&'a Sums, &'a TreeSums),
}
