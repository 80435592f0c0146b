//! Laws of worlds that lack what nothing leads to.
//!
//! They are functions without effect: a call brings the law into a proof.
ghost use Rattle.sweep_laws.specs.Laws.{PlacesAreSame, WithinShowsSame};
ghost use Rattle.sweep_laws.specs.Swept.{SweepIsBehind, SweptBegins, SweptEnds, SweptGoesOn};
ghost use Rattle.sweep_laws.specs.Swept.{SweptReplies};

/// A place gives the same reply on a world and on one within it, and leaves one within the other.
pub fn places_are_same()
    ensures { PlacesAreSame }
{}

/// A world and one within it have one image.
pub fn within_shows_same()
    ensures { WithinShowsSame }
{}

/// A replay that lets go of each record that it has run, and drops what nothing leads to when it
/// likes, gives the replies of the sequential run of the whole trace, and ends within its world.
pub fn swept_replays_are_sequential()
    ensures begins { SweptBegins }
    ensures replies { SweptReplies }
    ensures goes_on { SweptGoesOn }
    ensures sweeps { SweepIsBehind }
    ensures ends { SweptEnds }
{}
