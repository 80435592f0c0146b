//! Which orders of running many small steps give what one at a time gives.
//!
//! # A system
//!
//! A world is changed by numbered *places*. Each place has one *step*, which takes a world to a
//! world and gives a *reply*; to run all places in order, one at a time, is the *sequential* run. A
//! world is seen as *atoms*, each with a value: the least parts that are read or written by
//! themselves. The *access set* of a place in a world says which atoms its step touches there, and
//! which of them it writes. It may depend on the world: a step may look up what to touch.
//!
//! So an access set can change while earlier places are still to run. The *may-access set* of a
//! place is an access set that it can't outgrow: given the may-access sets of the earlier places
//! that are unfinished, it has all that the place may come to touch.
//!
//! # What an operation owes
//!
//! `Cover`, for the laws on access sets: a world is what its atoms hold; two worlds that agree on
//! an access set give the same access set, the same reply and the same values written, and all
//! other atoms stay; access sets that don't `collide` are apart, which means that neither writes
//! what the other touches. `Laws`, for looking ahead, says besides that a may-access set holds the
//! access set and the may-access set to come, in each world that differs only by what earlier
//! may-access sets write, and that it is told by what it touches itself. Each is a fact of one
//! place in one or two worlds: nothing in them speaks of two places that run, of orders or of
//! rounds.
//!
//! `RowLaws` is a way to `Laws`: may-access sets made by *rows*, which are wide where an earlier
//! place may change what the place looks up, and the access set itself where none can change it.
//!
//! # What follows
//!
//! - [`apart_places_commute`]: two places that are apart give the same world and replies in either
//!   order;
//! - [`gathering_is_in_order`]: places that are apart, run side by side from one world and
//!   gathered, give what they give in order;
//! - [`prefix_rounds_are_sequential`]: rounds that never overtake are sequential;
//! - [`rows_foresee`]: may-access sets by rows keep the laws on may-access sets;
//! - [`reaches_foresee`]: while places start and finish, may-access sets hold what is to come, and
//!   only shrink;
//! - [`every_legal_order_is_sequential`]: so every legal and complete list of starts and finishes
//!   is sequential;
//! - [`rounds_are_sequential`]: rounds that overtake are legal, go on, end, and are sequential.
//!
//! # An instance
//!
//! A system is the ghost member `system` of an impl of [`Footprinted`]; its laws are the members
//! `cover` and, in an impl of [`Foreseen`], `laws`. A call of a law function then gives the law for
//! that system. The functions do nothing when they run.
#![tactic(auto)]

ghost use Rattle.interleaving.specs.System.{System};
ghost use Rattle.interleaving.specs.Laws.{Cover, Laws};
ghost use Rattle.interleaving.specs.Rows.{Rows, RowLaws, RowsForesee};
ghost use Rattle.interleaving.specs.Commuting.{ApartCommute};
ghost use Rattle.interleaving.specs.Machine.{EveryOrder, KeepsOrder, ReachesHold, ReachesShrink};
ghost use Rattle.interleaving.specs.Dependencies.{DependenciesSuffice};
ghost use Rattle.interleaving.specs.Gather.{GatherIsInOrder, PutIsStep, PutFills};
ghost use Rattle.interleaving.specs.Gather.{PutsAreInOrder, OrderIsFree};
ghost use Rattle.interleaving.specs.Prefix.{PrefixRoundsAreSequential, PrefixesAreSideBySide};
ghost use Rattle.interleaving.specs.Rounds.{RoundsAreLegal, RoundsAreSequential, RoundsAreGathered};
ghost use Rattle.interleaving.specs.Rounds.{RoundsGoOn, RoundsKeepOrder, AnySetsOccur};

/// Systems whose steps keep to their access sets: one system for each trace.
///
/// A trace is what tells the places of a system apart from those of another, as the list of what
/// they are to do. Where laws need facts of a trace, it may be a pair of the two.
pub trait Footprinted {
    /// What there is one system for each of.
    ghost Trace: { Type 0 };

    /// Worlds, steps, replies, atoms and access sets.
    ghost system: { Trace → System };

    /// Access sets cover their steps.
    ghost cover: { (trace : Trace) → Cover (system trace) };
}

/// Systems whose may-access sets hold what is to come.
pub trait Foreseen: Footprinted {
    /// May-access sets hold access sets and may-access sets to come, and are told by what they
    /// touch.
    ghost laws: { (trace : Self.Trace) → Laws (Self.system trace) };
}

/// Systems with rows, of which may-access sets can be made.
pub trait Rowed {
    /// What there is one system for each of.
    ghost Trace: { Type 0 };

    /// Worlds, steps, replies, atoms and access sets.
    ghost system: { Trace → System };

    /// For each place the access sets that it has by what is known of it.
    ghost rows: { (trace : Trace) → Rows (system trace) };

    /// The few facts that each operation owes of its rows.
    ghost row_laws: { (trace : Trace) → RowLaws (system trace) (rows trace) };
}

/// Two places whose access sets are apart commute: their steps give the same world in either order,
/// and each gives the reply that it gives without the other before it.
pub fn apart_places_commute<S: Footprinted>()
    ensures { (trace : S.Trace) → ApartCommute (S.system trace) }
{}

/// Places whose access sets are apart may run side by side.
///
/// - `gather`: let each run from the same world. Their replies are those of running them in order,
///   and the one world that has what each wrote, and all else as before, is the world that running
///   them in order gives.
/// - `put`: to put one part more back, over what the others left, is one step more.
/// - `fills`: this also holds of a world with holes, from which the parts that are still out have
///   been taken: putting a part back fills its hole.
/// - `puts`: so to cut out all parts, step each by itself and put each back gives the world of
///   running them in order.
/// - `order`: that world is the same for any order of the places.
pub fn gathering_is_in_order<S: Footprinted>()
    ensures gather { (trace : S.Trace) → GatherIsInOrder (S.system trace) }
    ensures put { (trace : S.Trace) → PutIsStep (S.system trace) }
    ensures fills { (trace : S.Trace) → PutFills (S.system trace) }
    ensures puts { (trace : S.Trace) → PutsAreInOrder (S.system trace) }
    ensures order { (trace : S.Trace) → OrderIsFree (S.system trace) }
{}

/// Prefix rounds never overtake: each runs the longest beginning of the first `w` pending places in
/// which no two access sets collide, for a window `w` of 1 or more.
///
/// - `sequential`: as many rounds as there are places run them all, and the world and the replies
///   are those of one place at a time.
/// - `side_by_side`: the places of each round are apart in the world that the round begins in, so
///   they may run side by side.
pub fn prefix_rounds_are_sequential<S: Footprinted>()
    ensures sequential { (trace : S.Trace) → PrefixRoundsAreSequential (S.system trace) }
    ensures side_by_side { (trace : S.Trace) → PrefixesAreSideBySide (S.system trace) }
{}

/// A may-access set by rows holds the access set and the may-access set to come, and both it and
/// what the place knows are told by what it touches: the laws on may-access sets, from a few facts
/// of each row.
///
/// These are the fields of `Laws` of the same names, for a system whose `reach`, `foot` and `Known`
/// are `reach_by_rows`, `foot_by_rows` and `known_by_rows`.
pub fn rows_foresee<S: Rowed>()
    ensures { (trace : S.Trace) → RowsForesee (S.system trace) (S.rows trace) }
{}

/// May-access sets foresee, in every state that legal starts and finishes lead to.
///
/// - `hold`: the may-access set of an unfinished place holds its access set in each world that some
///   of the earlier unfinished places, or none, leave when they run.
/// - `shrink`: no legal start or finish makes a may-access set hold what it didn't hold before.
pub fn reaches_foresee<S: Foreseen>()
    ensures hold { (trace : S.Trace) → ReachesHold (S.system trace) }
    ensures shrink { (trace : S.Trace) → ReachesShrink (S.system trace) }
{}

/// Places may start and finish in many orders. A start is legal where the access set of the place
/// collides with the may-access set of no earlier unfinished place, and a finish where the place
/// has started.
///
/// - `sequential`: a legal list of starts and finishes after which all places are finished gives
///   the world and the replies of one place at a time.
/// - `order`: where the access set of a place always collides with the may-access set of an earlier
///   place, it starts only once that one has finished.
pub fn every_legal_order_is_sequential<S: Foreseen>()
    ensures sequential { (trace : S.Trace) → EveryOrder (S.system trace) }
    ensures order { (trace : S.Trace) → KeepsOrder (S.system trace) }
{}

/// Look-ahead rounds overtake: each runs those of the first `w` pending places whose access sets
/// collide with the may-access set of no earlier pending place, for a window `w` of 1 or more.
///
/// - `legal`: the starts and finishes of rounds are legal, whatever their order within each round,
///   and as many rounds as there are places run them all.
/// - `sequential`: they give the world and the replies of one place at a time.
/// - `gathered`: a round begins in a world; its places may run side by side there, no two collide,
///   the round gives the world of running them in order, and their replies in that first world are
///   those of one place at a time.
/// - `go_on`: while a place is pending, a round has at least one.
/// - `order`: a place that always collides with the may-access set of an earlier place runs in a
///   later round.
/// - `sets`: any places of a round can be those that have started, and any of these those that have
///   finished, at some point of a legal order of the round.
pub fn rounds_are_sequential<S: Foreseen>()
    ensures legal { (trace : S.Trace) → RoundsAreLegal (S.system trace) }
    ensures sequential { (trace : S.Trace) → RoundsAreSequential (S.system trace) }
    ensures gathered { (trace : S.Trace) → RoundsAreGathered (S.system trace) }
    ensures go_on { (trace : S.Trace) → RoundsGoOn (S.system trace) }
    ensures order { (trace : S.Trace) → RoundsKeepOrder (S.system trace) }
    ensures sets { (trace : S.Trace) → AnySetsOccur (S.system trace) }
{}

/// What each place has to wait for is told by the sequential run alone: the earlier places with
/// whose access sets its own collides, each access set taken where its place runs in that run.
/// Whatever waits at least so, by itself or through others that it waits for, may start and finish
/// in any order: the world and the replies are those of one place at a time.
pub fn dependencies_suffice<S: Footprinted>()
    ensures { (trace : S.Trace) → DependenciesSuffice (S.system trace) }
{}
