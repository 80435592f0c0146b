//! A trace as it is recorded.
use crate::record::Record;
use crate::start::Start;
use trace_format::Series;

/// A recorded trace of version 3.
#[derive(Drop)]
pub struct Trace {
    /// What it starts with.
    pub start: Start,
    /// What was recorded, in order.
    pub records: Series<Record>,
}
