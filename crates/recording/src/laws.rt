//! Laws of recordings.
ghost use Rattle.recording.specs.Accepted.{WholeAccepted, RecordsAccepted};
ghost use Rattle.recording.specs.Fronts.{StartIsOfFront, NextIsOfFront, ForgottenIsOfFront};

/// Each trace of version 1 or 2 that some bytes spell gives a recording that a replay accepts.
pub fn whole_accepted()
    ensures { WholeAccepted }
{}

/// Each trace of version 3 that some bytes spell gives a recording that a replay accepts.
pub fn records_accepted()
    ensures { RecordsAccepted }
{}

/// The recording of a start of version 3 that some bytes spell stands for it, and a replay accepts
/// it.
pub fn start_is_of_front()
    ensures { StartIsOfFront }
{}

/// With the next record that some bytes spell it stands for that too. There is room for it.
pub fn next_is_of_front()
    ensures { NextIsOfFront }
{}

/// It still does once its steps are forgotten.
pub fn forgotten_is_of_front()
    ensures { ForgottenIsOfFront }
{}
