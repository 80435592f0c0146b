//! Laws of access sets and may-access sets: that access sets suffice, that steps keep worlds, that
//! places commute and run on parts, and that may-access sets hold what is to come.
//!
//! They are functions without effect: a call brings the law into a proof.
ghost use Rattle.foot_print.specs.Laws.{FootprintsCover, StepsCommute, StepsKeepWorlds};
ghost use Rattle.foot_print.specs.Parts.{CutThenPut, FootprintsAreNarrow};
ghost use Rattle.foot_print.specs.Parts.{HolesKeepWorlds, PartsAreOfTheWhole};
ghost use Rattle.foot_print.specs.Parts.{PlacesRunOnParts, PutIsStep, RoundIsSteps};
ghost use Rattle.foot_print.specs.Replayed.{replayed};
ghost use Rattle.interleaving.specs.Laws.{Laws};
ghost use Rattle.recording.specs.Accepted.{IsAccepted};
ghost use Rattle.recording.specs.declared.recording.Recording.{Recording};

/// In every world, and part of one, that agrees on a place's access set the place has the same
/// access set and the same reply, gives what it writes the same values, and changes nothing else.
pub fn footprints_cover()
    ensures { FootprintsCover }
{}

/// A step leaves a world of a replay, in which the numbers of other places are still unused.
#[tactic(auto, using(crate::proofs::Keep::steps_keep_worlds))]
pub fn steps_keep_worlds()
    ensures { StepsKeepWorlds }
{}

/// Two places whose access sets do not collide give the same world and the same replies in either
/// order.
#[tactic(auto, using(crate::proofs::Keep::all_commute))]
pub fn steps_commute()
    ensures { StepsCommute }
{}

/// A part that is cut out of a world and put back unchanged leaves the world as it was.
#[tactic(auto, using(world_parts::proofs::Holes::cut_then_put))]
pub fn cut_then_put()
    ensures { CutThenPut }
{}

/// A place that runs on the part that its access set cuts out gives the same reply as on the world,
/// and putting the part back leaves the world that the place's step leaves, and no other.
pub fn places_run_on_parts()
    ensures { PlacesRunOnParts }
{}

/// A world in which parts have left zeros is a world of a replay.
pub fn holes_keep_worlds()
    ensures { HolesKeepWorlds }
{}

/// The access set of a place names single items and ranges, so that a part can be cut by it.
#[tactic(auto, using(crate::proofs::Narrow::all_narrow))]
pub fn footprints_are_narrow()
    ensures { FootprintsAreNarrow }
{}

/// A part that is cut while others are out, with none of which it collides, is a part of the world
/// as it was.
#[tactic(auto, using(world_parts::proofs::Holes::part_of_whole))]
pub fn parts_are_of_the_whole()
    ensures { PartsAreOfTheWhole }
{}

/// Putting one of several parts back, after its place has run on it, is that place's step: the
/// world has the holes of the other parts left, its reply is that of the step, and the others can
/// be put back as before.
pub fn put_is_step()
    ensures { PutIsStep }
{}

/// The parts of places whose access sets do not collide, all cut out of one world, run, and put
/// back one after another, leave the world and the replies of the places' steps in order.
#[tactic(auto, using(crate::proofs::Putting::round_is_steps))]
pub fn round_is_steps()
    ensures { RoundIsSteps }
{}

/// The replay of a trace that some bytes spell keeps the laws of access sets and of may-access
/// sets: the may-access set of a place holds its access set, and its may-access set, in every world
/// that differs only where earlier unfinished places may write; it is told by what it holds; and it
/// shrinks as those places finish.
pub fn reaches_hold()
    ensures { (t : Recording) → IsAccepted t → Laws (replayed t) }
{}
