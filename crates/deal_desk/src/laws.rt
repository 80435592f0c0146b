//! What holds of a desk between any two steps of its seats, in whatever threads. Each law is of
//! every state that the desk's rule allows.
ghost use Rattle.std.specs.Prelude.{List};
ghost use Rattle.deal_desk.specs.Laws.{StartedThenFinished, SeatsApart};
ghost use Rattle.deal_desk.specs.Laws.{DryMeansDealt, CountersTell};

use crate::job::Job;

/// A place has been started where it is below the number of draws: it is then out with a seat, or
/// its value is back. Any other has its job.
pub fn started_then_finished<J: Job>()
    ensures { (jobs : List J) → StartedThenFinished J.is_value jobs }
{}

/// No place is with two seats.
pub fn seats_apart<J: Job>()
    ensures { (jobs : List J) → SeatsApart J.is_value jobs }
{}

/// A seat is dry only where every job has been drawn.
pub fn dry_means_dealt<J: Job>()
    ensures { (jobs : List J) → DryMeansDealt J.is_value jobs }
{}

/// The counter of draws passes the number of jobs by at most one for each seat, so it never wraps.
/// The other counter is the number of results at home.
pub fn counters_tell<J: Job>()
    ensures { (jobs : List J) → CountersTell J.is_value jobs }
{}
