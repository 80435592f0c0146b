//! What a desk deals.

/// A piece of work that is done once, by whichever thread draws it.
pub trait Job: Drop {
    /// What comes of it.
    type Done: Drop;

    // This is a value of that job.
    ghost is_value: { Self → Self.Done → Type 0 };
}

/// What stands at a place of the desk: the job, then nothing while a seat has it, then its result.
#[derive(Drop)]
pub enum Slot<T, D> {
    /// The job, which nobody has drawn.
    Waiting(T),
    /// Nothing: a seat has taken the job.
    Taken,
    /// The result.
    Finished(D),
}
