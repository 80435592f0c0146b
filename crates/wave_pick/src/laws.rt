//! Laws of running places out of order.
//!
//! A place starts when its access set collides with the may-access set of no earlier place that has
//! not finished, and what it does to the world happens when it finishes. They are functions without
//! effect: a call brings the law into a proof.
ghost use Rattle.foot_print.specs.Replayed.{replayed};
ghost use Rattle.interleaving.specs.Machine.{EveryOrder, ReachesHold, ReachesShrink};
ghost use Rattle.interleaving.specs.Rounds.{AnySetsOccur, RoundsAreGathered, RoundsAreLegal};
ghost use Rattle.interleaving.specs.Rounds.{RoundsAreSequential, RoundsGoOn};
ghost use Rattle.recording.specs.Accepted.{IsAccepted};
ghost use Rattle.recording.specs.declared.recording.Recording.{Recording};
ghost use Rattle.wave_pick.specs.Holders.{HoldersHoldBack, NoneIsHeldBack, SharedIsBoth};
ghost use Rattle.wave_pick.specs.Holders.{SharedWhereColliding};
ghost use Rattle.wave_pick.specs.Lawful.{covered, lawful};
ghost use Rattle.wave_pick.specs.Orders.{LinksAndDrainsHold, LinksAndDrainsPart};
ghost use Rattle.wave_pick.specs.Orders.{LinksAndDrainsRise};
ghost use Rattle.wave_pick.specs.Resting.{RestsByItems, RestsDecided, RestsOnAllStays};
ghost use Rattle.wave_pick.specs.Resting.{RestsOnStays, RestsTogether, RestsUndecided, RestsUnmet};
ghost use Rattle.wave_pick.specs.Rounds.{NoneCollide, RoundsAreNumbered};
ghost use Rattle.wave_pick.specs.Sequential.{OrdersEndAsTheModel, RoundsEndAsTheModel};
ghost use Rattle.wave_pick.specs.Sequential.{RunsAsTheModel};
ghost use Rattle.wave_pick.specs.Waiting.{CanceledUsesOrder, DecidedStays, DecidingBegins};
ghost use Rattle.wave_pick.specs.Waiting.{DecidingInRow, OrderHolds, OthersRun, RowItems, RowStays};
ghost use Rattle.wave_pick.specs.Waiting.{RowWitnessHolds, RowWitnessStays, TurnStays, WideStays};
ghost use Rattle.wave_pick.specs.Waiting.{WitnessHolds};

use interleaving::{
    Footprinted, Foreseen, every_legal_order_is_sequential, reaches_foresee, rounds_are_sequential,
};

/// The replays of accepted recordings, as systems of numbered steps.
struct Replays;

impl Footprinted for Replays {
    ghost Trace = { (t : Recording) × IsAccepted t };

    ghost system = { λ x. replayed x.0 };

    ghost cover = { λ x. covered x.0 x.1 };
}

impl Foreseen for Replays {
    ghost laws = { λ x. lawful x.0 x.1 };
}

/// The run of a trace's places one at a time, with which the laws of orders and rounds compare, is
/// the model's sequential run: it goes through the same worlds, and each place has the reply that
/// the model keeps for it.
pub fn sequential_run_is_the_models()
    ensures { (t : Recording) → RunsAsTheModel t }
{}

/// May-access sets foresee, in every state that legal starts and finishes lead to: the may-access
/// set of an unfinished place holds its access set in each world that some of the earlier
/// unfinished places, or none, leave when they run; and no legal start or finish makes a may-access
/// set hold what it didn't hold before.
pub fn reaches_hold_and_shrink()
    ensures hold { (t : Recording) → IsAccepted t → ReachesHold (replayed t) }
    ensures shrink { (t : Recording) → IsAccepted t → ReachesShrink (replayed t) }
{
    reaches_foresee::<Replays>();
}

/// Every legal and complete list of starts and finishes of a trace's places gives the world and the
/// replies of the sequential run, which are the model's; and the members of a chain, and a barrier
/// and the other places of its queue, keep their order.
pub fn legal_orders_are_sequential()
    ensures sequential { (t : Recording) → IsAccepted t → EveryOrder (replayed t) }
    ensures model { (t : Recording) → IsAccepted t → OrdersEndAsTheModel t }
    ensures order { (t : Recording) → IsAccepted t → LinksAndDrainsHold t }
{
    every_legal_order_is_sequential::<Replays>();
}

/// Rounds, in which those of the first pending places start that are free, are legal in whatever
/// order the places of each start and finish; each round has a place, and all rounds together give
/// the world and the replies of the sequential run, which are the model's, gathered from places
/// that run side by side and do not collide. Members of a chain, and a barrier and the other places
/// of its queue, run in different rounds, in order.
pub fn rounds_are_legal()
    ensures legal { (t : Recording) → IsAccepted t → RoundsAreLegal (replayed t) }
    ensures sequential { (t : Recording) → IsAccepted t → RoundsAreSequential (replayed t) }
    ensures model { (t : Recording) → IsAccepted t → RoundsEndAsTheModel t }
    ensures gathered { (t : Recording) → IsAccepted t → RoundsAreGathered (replayed t) }
    ensures apart { (t : Recording) → IsAccepted t → NoneCollide t }
    ensures go_on { (t : Recording) → IsAccepted t → RoundsGoOn (replayed t) }
    ensures order { (t : Recording) → IsAccepted t → LinksAndDrainsPart t }
    ensures sets { (t : Recording) → IsAccepted t → AnySetsOccur (replayed t) }
{
    rounds_are_sequential::<Replays>();
}

/// The list of rounds has the number of each place's round: the round in which the places are
/// chosen that this one is among. Along a chain the numbers rise; a barrier's lies behind those of
/// all earlier places of its queue, and before those of all later ones.
pub fn rounds_are_numbered()
    ensures numbered { (t : Recording) → IsAccepted t → RoundsAreNumbered t }
    ensures rise { (t : Recording) → IsAccepted t → LinksAndDrainsRise t }
{}

/// What is known of a place stays so while it waits, from round to round: where no may-access set
/// before it writes an item of its access set, that access set, which is also its may-access set;
/// where none writes the flag of its chain, whether it runs or is canceled; and while it may run,
/// where none writes an item that decides its others, what it looks up. Of a place that may run,
/// the items that decide stay up to the first one that a may-access set before it writes; and where
/// it stays the same whether a may-access set before it writes a descriptor, so do its wide row
/// and, once it is decided, its row as accepted.
pub fn waiting_places_stay_known()
    ensures row { (t : Recording) → IsAccepted t → RowStays t }
    ensures turn { (t : Recording) → IsAccepted t → TurnStays t }
    ensures canceled { (t : Recording) → CanceledUsesOrder t }
    ensures look { (t : Recording) → IsAccepted t → DecidedStays t }
    ensures deciding { (t : Recording) → IsAccepted t → DecidingBegins t }
    ensures wide { (t : Recording) → IsAccepted t → WideStays t }
{}

/// A waiting place whose may-access set collides with the access set of a later one keeps that one
/// out of the next round: so does each earlier member of its chain, and a barrier and the other
/// places of its queue. Of the first pending places, as many as the window has, those run in the
/// next round that no place keeps out so.
pub fn witnesses_hold_back()
    ensures hold { (t : Recording) → WitnessHolds t }
    ensures order { (t : Recording) → OrderHolds t }
    ensures others { (t : Recording) → OthersRun t }
{}

/// What two items share has just the atoms of both, and two access sets share an item exactly where
/// they collide. After each number of rounds, the holder of a place holds it back by such an item,
/// and no later place does; and where it has no holder, nothing holds it back.
pub fn holders_hold_back()
    ensures both { SharedIsBoth }
    ensures colliding { SharedWhereColliding }
    ensures hold { (t : Recording) → HoldersHoldBack t }
    ensures none { (t : Recording) → NoneIsHeldBack t }
{}

/// With the same look, the rows of a place in two worlds meet the same may-access sets, apart from
/// what the place makes. So a waiting place whose may-access set writes an item that decides or
/// another one of the row of a later place keeps that one out of the next round, unless it is
/// canceled; and while the later one looks up the same, a may-access set that writes an item of its
/// row as it was writes its row.
pub fn rows_meet_the_same()
    ensures items { (t : Recording) → RowItems t }
    ensures deciding { (t : Recording) → DecidingInRow t }
    ensures hold { (t : Recording) → RowWitnessHolds t }
    ensures stay { (t : Recording) → IsAccepted t → RowWitnessStays t }
{}

/// A waiting place may rest on one earlier place: while that one waits with the same may-access
/// set, it blocks the other, whose may-access set stays the same, so that the other needn't be
/// looked at. One whose access set no may-access set before it writes rests on any that holds it
/// back. One that may run rests on a place whose may-access set writes one of the items by which it
/// waits: those of its row where it is decided, else those that decide, up to the first one that is
/// written. That place's may-access set must also write the flag of its chain and, where it takes
/// the lowest free descriptor, some descriptor, if any may-access set before it does. What rests so
/// in one round rests so in the next. A place may also rest on some earlier ones together, of which
/// one writes an item by which it waits, one the flag of its chain and one a descriptor: while all
/// of them wait with the same may-access sets, one of them holds it back, and its may-access set
/// stays the same.
pub fn waiting_places_rest()
    ensures unmet { (t : Recording) → IsAccepted t → RestsUnmet t }
    ensures decided { (t : Recording) → IsAccepted t → RestsDecided t }
    ensures undecided { (t : Recording) → IsAccepted t → RestsUndecided t }
    ensures items { (t : Recording) → IsAccepted t → RestsByItems t }
    ensures stay { (t : Recording) → RestsOnStays t }
    ensures together { (t : Recording) → IsAccepted t → RestsTogether t }
    ensures stay_together { (t : Recording) → RestsOnAllStays t }
{}
