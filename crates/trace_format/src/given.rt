//! Entries whose result a trace gives.

/// What a trace gives of an entry that the replay does not decide. The entry changes nothing.
#[derive(Clone, Copy, Debug, PartialEq, Eq)]
pub enum Given {
    /// It passes its tests, and has this result, which counts as a failure where `fails` says so.
    Passed {
        /// What its completion has.
        result: i32,
        /// Whether it fails, whatever its result.
        fails: bool,
    },
    /// It fails its tests.
    Refused {
        /// The error, from 1 to 4,095: its result without the minus.
        error: u16,
    },
}
