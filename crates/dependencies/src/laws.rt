//! Laws of what places depend on.
//!
//! They are functions without effect: a call brings the law into a proof.
ghost use Rattle.foot_print.specs.Replayed.{replayed};
ghost use Rattle.interleaving.specs.Dependencies.{DependenciesSuffice};
ghost use Rattle.recording.specs.Accepted.{IsAccepted};
ghost use Rattle.recording.specs.declared.recording.Recording.{Recording};
ghost use Rattle.dependencies.specs.Orders.{DueOrdersEndAsTheModel};
ghost use Rattle.dependencies.specs.Rule.{WaitsAreDependencies, WaitsSuffice};
ghost use Rattle.wave_pick.specs.Lawful.{covered};

use interleaving::{Footprinted, dependencies_suffice};

/// The replays of accepted recordings, as systems of numbered steps.
struct Replays;

impl Footprinted for Replays {
    ghost Trace = { (t : Recording) × IsAccepted t };

    ghost system = { λ x. replayed x.0 };

    ghost cover = { λ x. covered x.0 x.1 };
}

/// Two places depend on each other where the access sets collide that they have in the sequential
/// run. Whatever makes each place wait for all earlier ones that it depends on, by itself or
/// through others that it waits for: every complete list of starts and finishes in which a place
/// starts only when all that it waits for have finished gives the world and the replies of the
/// sequential run, which are the model's.
pub fn dependencies_are_enough()
    ensures suffice { (t : Recording) → IsAccepted t → DependenciesSuffice (replayed t) }
    ensures model { (t : Recording) → IsAccepted t → DueOrdersEndAsTheModel t }
{
    dependencies_suffice::<Replays>();
}

/// A place waits directly for an earlier one where both use an atom of one part of the world that one
/// of them writes, and no place between them does so with both. All descriptors are one part, and
/// every other atom is one. Each place for which one waits directly is one that it depends on; and to
/// wait for all of these is to wait for all that it depends on.
pub fn direct_waits_are_enough()
    ensures each { (t : Recording) → WaitsAreDependencies t }
    ensures suffice { (t : Recording) → WaitsSuffice t }
{}
