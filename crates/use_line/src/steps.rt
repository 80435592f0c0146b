//! A value for each number, kept by the numbers at which it changes.
ghost use Rattle.std.specs.Prelude.{◌≡◌, ◌<◌, ◌≤◌, ℕ, [], true, false, None, IfOk, OnOk, MatchOption};
ghost use Rattle.std.specs.Result.{OnErr};
ghost use Rattle.use_line.specs.Spans.{within};
ghost use Rattle.use_line.specs.Steps.{HasSet, IsCopy, IsLevel, NoneInside, has_key, step_at};

use std::alloc::{AllocError, Global};
use std::collections::BTreeMap;
use std::marker::Model;

/// A value for each number, or none: what stands at the last key up to it.
#[derive(Drop)]
pub(crate) struct Steps {
    entries: BTreeMap<u128, Option<u32>>,
}

impl Model for Steps {
    ghost use Rattle.std.specs.Prelude.{ℕ, List, Option};
    ghost use Rattle.use_line.specs.Steps.{Rises};

    ghost Value = { List (ℕ × Option ℕ) };

    ghost view = { λ s. s.entries.entries };

    ghost invariant = { λ s. Rises s.entries.entries };
}

impl Steps {
    /// No number has a value.
    pub(crate) fn new(alloc: Global) -> Self
        ensures { result ≡ [] }
    {
        Steps {
            entries: BTreeMap::new(alloc),
        }
    }

    /// The last key up to a number, and what stands there.
    fn last_up_to(&self, at: u128) -> Option<(u128, Option<u32>)>
        ensures { MatchOption result
            ((b : ℕ) → b ≤ at → (has_key self.now b ≡ false) × (step_at self.now b ≡ None))
            (λ e. (e.0 ≤ at) × (has_key self.now e.0 ≡ true)
            × ((b : ℕ) → e.0 < b → b ≤ at → has_key self.now b ≡ false)
            × ((b : ℕ) → e.0 ≤ b → b ≤ at → step_at self.now b ≡ e.1)) }
    {
        match self.entries.range(..=at).next_back() {
            Some((key, value)) => Some((*key, *value)),
            None => None,
        }
    }

    /// The last key from one number on up to another.
    fn last_between(&self, low: u128, high: u128) -> Option<u128>
        requires { 0 < high }
        ensures { MatchOption result
            ((k : ℕ) → low ≤ k → k < high → has_key self.now k ≡ false)
            (λ key. (low ≤ key) × (key < high) × (has_key self.now key ≡ true)
            × NoneInside key high self.now) }
    {
        let (key, _) = self.last_up_to(high - 1)?;
        if low <= key { Some(key) } else { None }
    }

    /// From where on all numbers of a range up to its end have one value, and which.
    pub(crate) fn last_part(&self, low: u128, high: u128) -> (u128, Option<u32>)
        requires { low < high }
        ensures from { low ≤ result.0 }
        ensures to { result.0 < high }
        ensures level { IsLevel self.now result.0 high }
        ensures value { result.1 ≡ step_at self.now result.0 }
    {
        match self.last_up_to(high - 1) {
            Some((key, value)) => (key.max(low), value),
            None => (low, None),
        }
    }

    /// The value of a number, unless a key begins there, and a number behind which none does up to it.
    fn value_between(&self, at: u128) -> Option<(u128, Option<u32>)>
        ensures { MatchOption result (has_key self.now at ≡ true)
            (λ e. (has_key self.now at ≡ false) × (e.1 ≡ step_at self.now at)
            × NoneInside e.0 at self.now) }
    {
        match self.last_up_to(at) {
            Some((key, _)) if key == at => None,
            Some(last) => Some(last),
            None => Some((0, None)),
        }
    }

    /// Begins a key at a number, and tells whether there may be one before it, behind another number.
    fn split_at(&mut self, low: u128, at: u128) -> Result<bool, AllocError>
        ensures same { OnOk result ((b : ℕ) → step_at self.new b ≡ step_at self.old b) }
        ensures key { OnOk result (has_key self.new at ≡ true) }
        ensures none { IfOk result (λ more. more ≡ false → NoneInside low at self.new) }
    {
        let Some((start, value)) = self.value_between(at) else {
            return Ok(true);
        };
        self.entries.insert(at, value)?;
        Ok(low < start)
    }

    /// Takes out the keys within a range.
    fn remove_within(&mut self, low: u128, high: u128)
        requires some { low < high }
        requires last { has_key self.old high ≡ true }
        ensures last { has_key self.new high ≡ true }
        ensures outside { (b : ℕ) → within low high b ≡ false
            → step_at self.new b ≡ step_at self.old b }
        ensures none { NoneInside low high self.new }
    {
        while let Some(key) = self.last_between(low + 1, high) {
            self.entries.remove(&key);
        }
    }

    /// Begins a key at the end of a range, and takes out those within.
    fn part_at(&mut self, low: u128, high: u128) -> Result<(), AllocError>
        requires { low < high }
        ensures last { OnOk result (has_key self.new high ≡ true) }
        ensures outside { OnOk result ((b : ℕ) → within low high b ≡ false
            → step_at self.new b ≡ step_at self.old b) }
        ensures none { OnOk result (NoneInside low high self.new) }
    {
        if self.split_at(low, high)? {
            self.remove_within(low, high);
            return Ok(());
        }
        Ok(())
    }

    /// Sets the value of the numbers of a range.
    ///
    /// # Errors
    ///
    /// Out of memory: then no number has a value.
    pub(crate) fn set(
        &mut self,
        low: u128,
        high: u128,
        value: Option<u32>,
    ) -> Result<(), AllocError>
        requires { low < high }
        ensures set { OnOk result (HasSet self.old self.new low high value) }
        ensures none { OnErr result (self.new ≡ []) }
    {
        let result = self.put(low, high, value);
        if result.is_err() {
            self.entries.clear();
        }
        result
    }

    /// Sets the value of the numbers of a range, and may have begun to, where memory is out.
    fn put(&mut self, low: u128, high: u128, value: Option<u32>) -> Result<(), AllocError>
        requires { low < high }
        ensures { OnOk result (HasSet self.old self.new low high value) }
    {
        self.part_at(low, high)?;
        self.entries.insert(low, value)?;
        Ok(())
    }

    /// Takes the values of the numbers of a range away.
    pub(crate) fn clear(&mut self, low: u128, high: u128) -> Result<(), AllocError>
        requires { low < high }
        ensures set { OnOk result (HasSet self.old self.new low high None) }
        ensures none { OnErr result (self.new ≡ []) }
    {
        let (start, value) = self.last_part(low, high);
        if start == low && value.is_none() {
            return Ok(());
        }
        self.set(low, high, None)
    }

    /// The values of the numbers of a range: no other number has one.
    pub(crate) fn copied(&self, alloc: Global, low: u128, high: u128) -> Result<Self, AllocError>
        requires { low < high }
        ensures { IfOk result (λ copy. IsCopy self.now copy low high) }
    {
        let mut copy = Steps::new(alloc);
        let mut end = high;
        while low < end {
            let (start, value) = self.last_part(low, end);
            if value.is_some() {
                copy.set(start, end, value)?;
            }
            end = start;
        }
        Ok(copy)
    }
}
