//! The lines of a report that were passed.
ghost use Rattle.std.specs.Prelude.{◌≤◌, ◌^◌};

/// How many lines of a report were passed, and from which place on places rise behind them.
#[derive(Clone, Copy)]
pub(crate) struct Passed {
    pub(crate) lines: usize,
    pub(crate) next: u64,
    ghost some: { lines ≤ 2 ^ 62 },
}
