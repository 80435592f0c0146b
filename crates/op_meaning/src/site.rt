//! Where the entries of a trace stand.
use recording::Recording;

/// Where an entry stands: its trace, its place in it, and its ring.
#[derive(Clone, Copy)]
pub struct Site<'a> {
    pub trace: &'a Recording,
    pub place: u32,
    pub ring: u32,
}
