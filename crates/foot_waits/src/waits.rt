//! For whom each of a list of access sets waits directly.
ghost use Rattle.std.specs.Prelude.{◌≡◌, ◌==◌, Some, if◌then◌else◌, suc, ◌<◌, ◌^◌, ◌-◌, ℕ, IfOk, OnOk, length, map, slice_index_or};
ghost use Rattle.std.specs.BTreeMap.{get};
ghost use Rattle.std.specs.Ordering.{nat_cmp};
ghost use Rattle.foot_waits.specs.Told.{IsAt, IsFirst, TellsAll, with_told};
ghost use Rattle.foot_waits.specs.Rule.{IsFirstUse};
ghost use Rattle.foot_waits.specs.Rule as rule;
ghost use Rattle.world_parts.specs.Items as items;
ghost use Rattle.world_parts.specs.Uses.{use_meant};
ghost use Rattle.foot_waits.specs.Spots.{no_span};
ghost use Rattle.use_line.specs.Known.{AddsTold};

use crate::descriptors::{Descriptors, descriptor_uses};
use crate::names::Names;
use crate::spans::spans_of;
use std::alloc::{AllocError, Global};
use std::collections::BTreeMap;
use use_line::{Line, Span};
use world_parts::{Footprint, Use};

/// What is known of the places so far.
#[derive(Drop)]
pub struct Waits {
    names: Names,
    line: Line,
    descriptors: Descriptors,
    place: u32,
}

impl Waits {
    /// Before the first of a list of access sets.
    pub fn new(alloc: Global) -> Self
        ensures { (foot : ℕ → items.Footprint) → IsAt result foot 0 }
    {
        Waits {
            names: Names::new(alloc),
            line: Line::new(alloc),
            descriptors: Descriptors::new(alloc),
            place: 0,
        }
    }

    /// For whom the next access set waits directly: of each, the number of the first use by which
    /// it does.
    ///
    /// # Errors
    ///
    /// Out of memory: then what is known is of no use any more.
    pub fn next(
        &mut self,
        alloc: Global,
        footprint: &Footprint,
    ) -> Result<BTreeMap<u32, u32>, AllocError>
        requires { self.old.place < 2 ^ 32 - 1 }
        ensures at { OnOk result ((foot : ℕ → items.Footprint) → foot self.old.place ≡ footprint.now
            → IsAt self.old foot self.old.place → IsAt self.new foot (suc self.old.place)) }
        ensures first { IfOk result (λ found. (foot : ℕ → items.Footprint)
            → foot self.old.place ≡ footprint.now → IsAt self.old foot self.old.place
            → (j : ℕ) → IsFirstUse foot self.old.place j (get nat_cmp found j)) }
    {
        let spans = spans_of(alloc, &mut self.names, footprint)?;
        if spans.len() >= 4_294_967_296 {
            return Err(AllocError);
        }
        self.names.are_apart();
        let own = descriptor_uses(alloc, footprint)?;
        let found = first_told(
            alloc,
            &self.line,
            &self.descriptors,
            footprint.uses(),
            &own,
            spans.as_slice(),
        )?;
        self.line.add(alloc, self.place, spans.as_slice())?;
        self.descriptors.add(alloc, self.place, own)?;
        self.place += 1;
        Ok(found)
    }
}

/// Of each earlier place for which one waits by some use, the number of the first of these. The
/// uses come from the last to the first, so that a later one gives way.
fn first_told(
    alloc: Global,
    line: &Line,
    descriptors: &Descriptors,
    uses: &[Use],
    own: &Footprint,
    spans: &[Span],
) -> Result<BTreeMap<u32, u32>, AllocError>
    requires own { own.now ≡ rule.descriptor_uses (map use_meant uses.now) }
    requires each { length uses.now ≡ length spans.now }
    requires few { length spans.now < 2 ^ 32 }
    ensures { IfOk result (λ found. (j : ℕ) → IsFirst (line.now, descriptors.now)
        (map use_meant uses.now) spans.now (length spans.now) j (get nat_cmp found j)) }
{
    let mut found = BTreeMap::new(alloc);
    let mut told = Vec::new(alloc);
    let mut index = spans.len();
    while index > 0 {
        index -= 1;
        tell_by(alloc, line, descriptors, uses, own, spans, index, &mut told)?;
        add_told(&mut found, told.as_slice(), index as u32)?;
    }
    Ok(found)
}

/// Makes a list those for whom a place waits by one of its uses.
fn tell_by(
    alloc: Global,
    line: &Line,
    descriptors: &Descriptors,
    uses: &[Use],
    own: &Footprint,
    spans: &[Span],
    index: usize,
    told: &mut Vec<u32>,
) -> Result<(), AllocError>
    requires own { own.now ≡ rule.descriptor_uses (map use_meant uses.now) }
    requires each { length uses.now ≡ length spans.now }
    requires within { index < length spans.now }
    ensures { OnOk result (TellsAll (line.now, descriptors.now) (map use_meant uses.now)
        spans.now index told.new.items) }
{
    told.clear();
    tell_line(alloc, line, spans, index, told)?;
    descriptors.tell(&uses[index], own, told)
}

/// Adds those for whom a place waits by one of its ranges.
fn tell_line(
    alloc: Global,
    line: &Line,
    spans: &[Span],
    index: usize,
    told: &mut Vec<u32>,
) -> Result<(), AllocError>
    requires within { index < length spans.now }
    ensures { OnOk result (let s = slice_index_or spans.now index no_span in
        AddsTold line.now spans.now s.written s.low s.high told.old.items told.new.items) }
{
    let span = spans[index];
    if span.low < span.high {
        return line.tell(alloc, &span, spans, told);
    }
    Ok(())
}

/// Gives some places a number, whether they have one or not.
fn add_told(found: &mut BTreeMap<u32, u32>, told: &[u32], index: u32) -> Result<(), AllocError>
    ensures { OnOk result ((j : ℕ) → get nat_cmp found.new j
        ≡ with_told (get nat_cmp found.old j) told.now index j) }
{
    for place in told {
        add_one(found, *place, index)?;
    }
    Ok(())
}

/// Gives a place a number.
fn add_one(found: &mut BTreeMap<u32, u32>, place: u32, index: u32) -> Result<(), AllocError>
    ensures { OnOk result ((j : ℕ) → get nat_cmp found.new j
        ≡ (if place == j then Some index else get nat_cmp found.old j)) }
{
    found.insert(place, index)?;
    Ok(())
}
