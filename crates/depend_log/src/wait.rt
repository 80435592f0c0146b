//! What a place waits for.

use std::marker::Model;
use trace_format::Series;
use world_parts::Item;

/// An earlier place that a place waits for, and the item that both use.
#[derive(Drop)]
pub struct Wait {
    pub after: u32,
    pub on: Item,
}

impl Model for Wait {
    ghost use Rattle.depend_log.specs.Waits.{Waited};
    ghost use Rattle.world_parts.specs.Uses.{item_meant};

    ghost Value = { Waited };

    ghost view = { λ w. record { after = w.after; on = item_meant w.on } };
}

/// What a place waits for directly, and how much it moves.
#[derive(Drop)]
pub struct PlaceWaits {
    /// The bytes that its transfer moved; 0 of any other place.
    pub moved: u32,
    /// Rising by `after`.
    pub waits: Series<Wait>,
}
