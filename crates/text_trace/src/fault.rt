//! What is told of a text that is refused.

use std::fmt;
use text_words::Reason;

/// Where a text is refused, and why.
#[derive(Clone, Copy, Debug, PartialEq, Eq)]
pub struct TextFault {
    /// The line, from 1.
    pub line: u64,
    /// The byte in that line, from 1.
    pub column: u64,
    pub reason: Reason,
}

/// Why no bytes are made of a text.
#[derive(Clone, Copy, Debug, PartialEq, Eq)]
pub enum MakeFault {
    /// An allocation was refused.
    Memory,
    /// The text is refused.
    Text(TextFault),
}

impl fmt::Display for TextFault {
    fn fmt<W: fmt::Write>(&self, f: &mut fmt::Formatter<W>) -> fmt::Result {
        let line = self.line;
        let column = self.column;
        let reason = self.reason;
        write!(f, "{line}:{column}: {reason}")
    }
}
