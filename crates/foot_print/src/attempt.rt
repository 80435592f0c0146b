//! Operations as their uses are taken.
ghost use Rattle.std.specs.Prelude.{◌≡◌};
ghost use Rattle.foot_print.specs.Attempts.{taken_meant};
ghost use Rattle.foot_print.specs.Footprint as rows;

use op_meaning::Site;

/// How the uses of an operation are taken.
#[derive(Clone, Copy)]
pub(crate) enum Taken {
    /// As tried in a world, which accepts it or doesn't.
    Tried { accepted: bool },
    /// As foreseen of an accepted one, without its room and what it makes.
    Foreseen,
}

impl Taken {
    /// Whether the uses have what an accepted operation makes.
    pub(crate) fn is_accepted(self) -> bool
        ensures { result ≡ rows.is_accepted (taken_meant self) }
    {
        match self {
            Taken::Tried { accepted } => accepted,
            Taken::Foreseen => false,
        }
    }

    /// Whether it isn't known yet which files become longer.
    pub(crate) fn is_foreseen(self) -> bool
        ensures { result ≡ rows.is_foreseen (taken_meant self) }
    {
        matches!(self, Taken::Foreseen)
    }
}

/// An operation's site, and how its uses are taken.
#[derive(Clone, Copy)]
pub(crate) struct Attempt<'a> {
    pub site: Site<'a>,
    pub taken: Taken,
}
