//! How a trace is shown.

/// What a text shows beside the trace, and how much of its bytes.
#[derive(Clone, Copy, Debug, PartialEq, Eq)]
pub struct Look {
    /// Whether the place of each step stands before it, as a comment.
    pub places: bool,
    /// How many bytes of each file, entry and fill are shown at most: none, where all are. A text
    /// that leaves bytes out is for looking alone.
    pub first: Option<u32>,
}
