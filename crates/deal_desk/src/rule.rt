//! The rule that the desk's table keeps, and what each kind of step tells the seat that takes it.
//! These types are for the proofs alone.
ghost use Rattle.deal_desk.specs.Hands.{opening_hand, further_hand, gave, took_in, spent_hand};
ghost use Rattle.deal_desk.specs.Steps.{draws, finishes, looks};

use crate::hand::Hand;
use crate::job::{Job, Slot};
use atomic_table::{Join, Play, Split, TableRule};
use std::marker::PhantomData;
use std::snapshot::Snapshot;

/// The rule: the places drawn are those below word 0, each with one seat, and the others have their
/// jobs.
pub struct Dealing<J> {
    marker: PhantomData<J>,
}

impl<J: Job> TableRule<Slot<J, J::Done>, Hand<J, J::Done>, Snapshot<Vec<J>>> for Dealing<J> {
    ghost use Rattle.deal_desk.specs.Rule.{Dealing};

    ghost holds = { λ key. Dealing J.is_value key.value.items };

    ghost first = { λ key. opening_hand key.value.items };
}

/// The opening seat gives a further seat.
pub struct Further;

impl<T, D> Split<Hand<T, D>> for Further {
    ghost left = { gave };

    ghost right = { λ v. further_hand v.jobs };
}

/// A seat takes in another.
pub struct Merged;

impl<T, D> Join<Hand<T, D>> for Merged {
    ghost both = { took_in };

    ghost spent = { spent_hand };
}

/// A place goes out to the seat, or the seat finds all jobs drawn.
pub struct Draw;

impl<T, D> Play<Slot<T, D>, Hand<T, D>> for Draw {
    ghost then = { draws };
}

/// The place that is out comes home with its result.
pub struct Finish;

impl<T, D> Play<Slot<T, D>, Hand<T, D>> for Finish {
    ghost then = { finishes };
}

/// Nothing changes, and the seat learns what the rule says of it.
pub struct Look;

impl<T, D> Play<Slot<T, D>, Hand<T, D>> for Look {
    ghost then = { looks };
}
