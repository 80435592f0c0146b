//! Sets of numbers as ranges.
ghost use Rattle.std.specs.Prelude.{◌≡◌, ◌||◌, ◌<◌, ◌⊎◌, ℕ, List, [], ◌∷◌, ◌++◌, IfSome, MatchOption, OnOk};
ghost use Rattle.std.specs.List.{AllByRecursion};
ghost use Rattle.item_index.specs.Spans.{AreApart, covers, crosses, has_some, begun};
ghost use Rattle.world_parts.specs.Items.{within};

use std::alloc::{AllocError, Global};
use std::collections::BTreeMap;
use std::marker::Model;

/// A set of numbers. Ranges that overlap or touch are kept as one piece.
#[derive(Drop)]
pub(crate) struct Spans {
    /// The end of each piece, by its first number.
    ends: BTreeMap<u64, u64>,
}

impl Model for Spans {
    ghost use Rattle.std.specs.Prelude.{ℕ, List};
    ghost use Rattle.item_index.specs.Spans.{AreApart};

    ghost Value = { List (ℕ × ℕ) };

    ghost view = { λ s. s.ends.entries };

    ghost invariant = { λ s. AreApart s.ends.entries };
}

impl Spans {
    pub(crate) fn new(alloc: Global) -> Self
        ensures { result ≡ [] }
    {
        Spans {
            ends: BTreeMap::new(alloc),
        }
    }

    /// Adds a range that isn't empty.
    pub(crate) fn insert(&mut self, low: u64, high: u64) -> Result<(), AllocError>
        requires { low < high }
        ensures { OnOk result ((p : ℕ)
            → covers self.new p ≡ (covers self.old p || within low high p)) }
    {
        if let Some((start, end)) = absorb(&mut self.ends, low, high) {
            self.ends.insert(start, end)?;
        }
        Ok(())
    }

    /// Whether it has a number of a range.
    pub(crate) fn crosses(&self, from: u64, to: u64) -> bool
        ensures { result ≡ crosses self.now from to }
    {
        if from >= to {
            return false;
        }
        match last_up_to(&self.ends, to - 1) {
            Some((_, end)) => from < end,
            None => false,
        }
    }

    /// Whether it has a number.
    pub(crate) fn has_some(&self) -> bool
        ensures { result ≡ has_some self.now }
    {
        !self.ends.is_empty()
    }
}

/// The last piece that begins at a number or before it.
fn last_up_to(ends: &BTreeMap<u64, u64>, limit: u64) -> Option<(u64, u64)>
    ensures { MatchOption result (begun limit ends.now.entries ≡ []) (λ piece.
        (before : List (ℕ × ℕ)) × (begun limit ends.now.entries ≡ before ++ piece ∷ [])) }
{
    match ends.range(..=limit).next_back() {
        Some((first, end)) => Some((*first, *end)),
        None => None,
    }
}

/// Takes out the pieces that overlap or touch a range, and gives the range that they make with it;
/// none where one piece has it already.
fn absorb(ends: &mut BTreeMap<u64, u64>, low: u64, high: u64) -> Option<(u64, u64)>
    requires range { low < high }
    requires pieces { AreApart ends.old.entries }
    ensures range { IfSome result (λ r. r.0 < r.1) }
    ensures same { MatchOption result
        ((p : ℕ) → covers ends.new.entries p
        ≡ (covers ends.old.entries p || within low high p))
        (λ r. (p : ℕ) → (covers ends.new.entries p || within r.0 r.1 p)
        ≡ (covers ends.old.entries p || within low high p)) }
    ensures rest { AreApart ends.new.entries }
    ensures apart { IfSome result (λ s. AllByRecursion (λ r. (r.1 < s.0) ⊎ (s.1 < r.0))
        ends.new.entries) }
{
    let mut start = low;
    let mut end = high;
    while let Some((first, last)) = last_up_to(ends, end) {
        if last < start {
            break;
        }
        if first <= start && end <= last {
            return None;
        }
        ends.remove(&first);
        start = start.min(first);
        end = end.max(last);
    }
    Some((start, end))
}
