//! What a seat knows.

use std::collections::LinkedList;

/// What a seat at the desk knows. It is for the proofs alone: no value of it is made.
pub struct Hand<T, D> {
    /// The jobs that the desk was made with.
    pub jobs: LinkedList<T>,
    /// It is the seat that the desk was made with.
    pub opens: bool,
    /// No other seat has taken it in.
    pub live: bool,
    /// The place that is out with it.
    pub out: Option<u64>,
    /// The places that it has put back, each with its result.
    pub back: LinkedList<(u64, D)>,
    /// It has found all jobs drawn.
    pub dry: bool,
    /// How many seats it has given.
    pub given: u64,
    /// How many seats it has merged, with those that they had merged.
    pub merged: u64,
}
