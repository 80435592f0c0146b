//! Workers at the desk.
ghost use Rattle.std.specs.Prelude.{◌≡◌, None};
ghost use Rattle.deal_desk.specs.Desks.{hand_of, jobs_of, IsSeatOf};
ghost use Rattle.replay_core.specs.Jobs.{AreOf};
ghost use Rattle.replay_core.specs.Seats.{WorkedOff};
ghost use Rattle.recording.specs.Accepted.{IsAccepted};

use crate::gate::Gate;
use crate::run::Run;
use deal_desk::{Desk, DeskSeat};
use recording::Recording;
use std::alloc::Global;

/// Draws jobs, runs each by the gate, and puts its outcome back, until all have been drawn.
pub fn work<G: Gate>(
    alloc: Global,
    desk: &Desk<Run>,
    seat: &mut DeskSeat<Run>,
    trace: &Recording,
    gate: &G,
)
    requires desk { IsSeatOf desk.now seat.old }
    requires spelled { IsAccepted trace.now }
    requires trace { AreOf trace.now (jobs_of desk.now) }
    requires idle { (hand_of seat.old).out ≡ None }
    ensures desk { IsSeatOf desk.now seat.new }
    ensures done { WorkedOff (hand_of seat.old) (hand_of seat.new) }
{
    while let Some((place, run)) = desk.draw(seat) {
        desk.put(seat, place, run.by(alloc, trace, gate));
    }
}
