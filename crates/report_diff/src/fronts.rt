//! What is known of two reports whose entries are compared as they come.
ghost use Rattle.std.specs.Prelude.{◌≤◌, ◌^◌};

use crate::passed::Passed;
use crate::telling::Told;

/// The line that a report of version 2 begins with.
pub const HEADING: &str = "uring-report 2";

/// The entries that come first in two reports of version 2, compared as they come. It keeps the
/// entries that only the second has, and what was found and was not taken yet.
#[derive(Drop)]
pub struct Merging {
    pub(crate) first: Passed,
    pub(crate) second: Passed,
    // From where on the places of the first rise, where an entry of the second was passed over.
    pub(crate) from: u64,
    // The second's heading and the entries that are kept, each with its line feed.
    pub(crate) kept: Vec<u8>,
    // How many entries of the second were compared and are not kept.
    pub(crate) gone: usize,
    // The last entry of the second, and its place, where the first may have that place.
    pub(crate) line: Vec<u8>,
    pub(crate) ahead: Option<u64>,
    pub(crate) told: Told,
    ghost some: { gone ≤ 2 ^ 62 },
}

/// What becomes of the next line of the first report.
#[derive(Clone, Copy, Debug, PartialEq, Eq)]
pub enum Offer {
    /// It was compared: its next line may come.
    Taken,
    /// The next line of the second comes before it.
    Second,
    /// It is no entry, or one out of order: what is compared as it comes ends before it.
    Ended,
}
