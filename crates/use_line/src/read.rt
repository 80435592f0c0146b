//! A read of some numbers.
use crate::steps::Steps;

/// A place's read of a range, and of each number of it the read that was the latest until then.
#[derive(Drop)]
pub(crate) struct Read {
    pub(crate) place: u32,
    pub(crate) older: Steps,
}
