//! The heaviest paths of places each of which waits for the one before it.
ghost use Rattle.std.specs.Prelude.{◌≡◌, ◌≤◌, ◌<◌, ◌+◌, ◌-◌, ◌^◌, ◌++◌, ◌∷◌, [], OnErr, OnOk, length};
ghost use Rattle.std.specs.Prelude.{◌==◌, position, slice_index_or};
ghost use Rattle.depend_report.specs.Paths.{heaviest_before, heaviest_place};
ghost use Rattle.round_report.specs.Summary.{greatest};

use depend_log::Wait;
use std::alloc::{AllocError, Global};
use std::marker::Model;

/// Of each place so far the weight of the heaviest path that ends with it.
#[derive(Drop)]
pub(crate) struct Paths {
    weights: Vec<u64>,
}

impl Model for Paths {
    ghost use Rattle.std.specs.Prelude.{ℕ, ◌≤◌, ◌*◌, List, All, length};

    ghost Value = { List ℕ };

    ghost view = { λ p. p.weights.items };

    ghost invariant = { λ p. All (λ n. n ≤ length p.weights.items * 4294967295) p.weights.items };
}

impl Paths {
    /// No place yet.
    pub(crate) fn new(alloc: Global) -> Self
        ensures { result ≡ [] }
    {
        Paths {
            weights: Vec::new(alloc),
        }
    }

    /// How many places there are.
    pub(crate) fn len(&self) -> usize
        ensures { result ≡ length self.now }
    {
        self.weights.len()
    }

    /// One place more, of a weight of its own.
    pub(crate) fn push(&mut self, waits: &[Wait], weight: u32) -> Result<(), AllocError>
        requires { length self.old < 2 ^ 32 - 1 }
        ensures ok { OnOk result
            (self.new ≡ self.old ++ (weight + heaviest_before self.old waits.now) ∷ []) }
        ensures err { OnErr result (self.new ≡ self.old) }
    {
        let before = heaviest_before(self.weights.as_slice(), waits);
        self.weights.push(u64::from(weight) + before)?;
        Ok(())
    }

    /// The greatest weight, 0 where there is no place.
    pub(crate) fn greatest(&self) -> u64
        ensures { result ≡ greatest self.now }
    {
        greatest(self.weights.as_slice())
    }

    /// The first place with which a path of the greatest weight ends; none where no path has any.
    pub(crate) fn heaviest_place(&self) -> Option<usize>
        ensures { result ≡ heaviest_place self.now }
    {
        heaviest_place(self.weights.as_slice())
    }
}

/// The weight of the heaviest path that ends with one of the places that are waited for.
fn heaviest_before(weights: &[u64], waits: &[Wait]) -> u64
    ensures { result ≡ heaviest_before weights.now waits.now }
{
    let mut most = 0;
    for wait in waits {
        most = most.max(weight_of(weights, wait.after));
    }
    most
}

fn weight_of(weights: &[u64], place: u32) -> u64
    ensures { result ≡ slice_index_or weights.now place 0 }
{
    weights.get(place as usize).copied().unwrap_or(0)
}

fn greatest(weights: &[u64]) -> u64
    ensures { result ≡ greatest weights.now }
{
    let mut most = 0;
    for weight in weights {
        most = most.max(*weight);
    }
    most
}

fn heaviest_place(weights: &[u64]) -> Option<usize>
    ensures { result ≡ heaviest_place weights.now }
{
    let most = greatest(weights);
    if most == 0 {
        None
    } else {
        place_of(weights, most)
    }
}

/// The first place with which a path of a weight ends.
fn place_of(weights: &[u64], weight: u64) -> Option<usize>
    ensures { result ≡ position (λ n. n == weight) weights.now }
{
    weights.iter().position(|n| *n == weight)
}
