//! Chains that broke.
use std::marker::Model;

/// How a chain broke: whether its canceled members post a completion.
#[derive(Clone, Copy, Debug, PartialEq, Eq)]
pub enum Broken {
    /// Canceled members post.
    Loud,
    /// Canceled members don't post.
    Quiet,
}

/// The flag of a chain that broke.
#[derive(Drop)]
pub(crate) struct Flag {
    pub broken: Broken,
}

impl Model for Flag {
    ghost use Rattle.world_parts.specs.World.{Broken};
    ghost use Rattle.world_parts.specs.Uses.{broken_meant};
    ghost use Rattle.world_parts.specs.Codes.{broken_code};

    ghost Value = { Broken };

    ghost coded = { broken_code };

    ghost view = { λ f. broken_meant f.broken };
}

impl PartialEq for Flag {
    ghost use Rattle.world_parts.specs.Flags.{same_flag, same_flag_laws};

    ghost eq = { same_flag };

    ghost laws = { same_flag_laws };

    fn eq(&self, other: &Flag) -> bool {
        self.broken == other.broken
    }
}
