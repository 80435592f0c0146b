//! How many lines were found equal, different, unchecked and given, by section.
ghost use Rattle.std.specs.Prelude.{◌≡◌, ◌==◌, ◌&&◌, ◌||◌, ◌∷◌, ◌+◌, ◌++◌, List, IfOk, OnOk, [], if◌then◌else◌};
ghost use Rattle.std.specs.Prelude.{string_bytes};
ghost use Rattle.report_diff.specs.Differences.{AreCounts, IsTally, counts_text};
ghost use Rattle.report_diff.specs.Differences.{is_complete, is_of, lacks_line, lacks_text};
ghost use Rattle.report_diff.specs.Differences.{no_difference, passes, section_name, tally_line};
ghost use Rattle.report_diff.specs.declared.telling.Finding.{Finding};

use crate::lines::Section;
use crate::telling::{Finding, Outcome};
use std::alloc::{AllocError, Global};

/// How many lines of a section are equal, different, unchecked and given.
#[derive(Clone, Copy)]
pub(crate) struct Tally {
    equal: u64,
    different: u64,
    unchecked: u64,
    given: u64,
}

/// The counts of all sections.
#[derive(Clone, Copy)]
pub(crate) struct Counts {
    entries: Tally,
    tree: Tally,
    slots: Tally,
    buffers: Tally,
    /// How many entries read bytes that are not compared.
    bytes: u64,
    /// How many sums are not compared.
    sums: u64,
    /// How many large files have bytes that are not compared.
    large: u64,
}

/// A count, with one more or as it was. More lines than 64 bits count are taken for too many to
/// hold.
fn grown(count: u64, one_more: bool) -> Result<u64, AllocError>
    ensures { IfOk result (λ n. n ≡ count + (if one_more then 1 else 0)) }
{
    match count.checked_add(u64::from(one_more)) {
        Some(count) => Ok(count),
        None => Err(AllocError),
    }
}

impl Finding {
    fn is_of(self, section: Section, outcome: Outcome) -> bool
        ensures { result ≡ is_of section outcome self }
    {
        self.section == section && self.outcome == outcome
    }
}

impl Tally {
    fn none() -> Tally
        ensures { (section : Section) → IsTally section [] result }
    {
        Tally {
            equal: 0,
            different: 0,
            unchecked: 0,
            given: 0,
        }
    }

    /// The counts of a section with one finding more, of any section.
    fn with(self, section: Section, finding: Finding) -> Result<Tally, AllocError>
        ensures { (all : List Finding) → IsTally section all self
            → IfOk result (IsTally section (all ++ finding ∷ [])) }
    {
        Ok(Tally {
            equal: grown(self.equal, finding.is_of(section, Outcome::Equal))?,
            different: grown(self.different, finding.is_of(section, Outcome::Different))?,
            unchecked: grown(self.unchecked, finding.is_of(section, Outcome::Unchecked))?,
            given: grown(self.given, finding.is_of(section, Outcome::Given))?,
        })
    }
}

impl Counts {
    pub(crate) fn none() -> Counts
        ensures { AreCounts [] result }
    {
        Counts {
            entries: Tally::none(),
            tree: Tally::none(),
            slots: Tally::none(),
            buffers: Tally::none(),
            bytes: 0,
            sums: 0,
            large: 0,
        }
    }

    /// Adds a finding.
    pub(crate) fn add(&mut self, finding: Finding) -> Result<(), AllocError>
        ensures { (all : List Finding) → AreCounts all self.old
            → OnOk result (AreCounts (all ++ finding ∷ []) self.new) }
    {
        self.entries = self.entries.with(Section::Entries, finding)?;
        self.tree = self.tree.with(Section::Tree, finding)?;
        self.slots = self.slots.with(Section::Slots, finding)?;
        self.buffers = self.buffers.with(Section::Buffers, finding)?;
        self.bytes = grown(self.bytes, finding.bytes)?;
        self.sums = grown(self.sums, finding.sum)?;
        self.large = grown(self.large, finding.large)?;
        Ok(())
    }

    /// Whether no line differs and, in a strict comparison, nothing is left that is not compared.
    #[tactic(auto, unfolding(crate::specs::Differences::passes))]
    pub(crate) fn pass(&self, strict: bool) -> bool
        ensures { (all : List Finding) → AreCounts all self.now → result ≡ passes strict all }
    {
        self.no_difference() && (!strict || self.is_complete())
    }

    /// Whether nothing is left that is not compared.
    #[tactic(auto, unfolding(crate::specs::Differences::is_complete))]
    fn is_complete(&self) -> bool
        ensures { (all : List Finding) → AreCounts all self.now → result ≡ is_complete all }
    {
        self.bytes == 0 && self.sums == 0 && self.large == 0
    }

    /// Whether no line differs.
    fn no_difference(&self) -> bool
        ensures { (all : List Finding) → AreCounts all self.now → result ≡ no_difference all }
    {
        are_none(
            self.entries.different,
            self.tree.different,
            self.slots.different,
            self.buffers.different,
        )
    }
}

fn are_none(entries: u64, tree: u64, slots: u64, buffers: u64) -> bool
    ensures { result ≡ (entries == 0 && (tree == 0 && (slots == 0 && buffers == 0))) }
{
    entries == 0 && tree == 0 && slots == 0 && buffers == 0
}

fn section_name(section: Section) -> &'static str
    ensures { result.now ≡ section_name section }
{
    match section {
        Section::Entries => "entries",
        Section::Tree => "tree",
        Section::Slots => "slots",
        Section::Buffers => "buffers",
    }
}

/// The line of a section's counts.
fn push_counts(text: &mut String, section: Section, tally: Tally) -> Result<(), AllocError>
    ensures { OnOk result (string_bytes text.new ≡ string_bytes text.old
        ++ tally_line section tally.equal tally.different tally.unchecked tally.given) }
{
    let name = section_name(section);
    let (equal, different) = (tally.equal, tally.different);
    let (unchecked, given) = (tally.unchecked, tally.given);
    writeln!(
        text,
        "{name} {equal} equal, {different} different, {unchecked} unchecked, {given} given"
    )
}

/// The line of what is not compared.
fn push_lacks(text: &mut String, bytes: u64, sums: u64, large: u64) -> Result<(), AllocError>
    ensures { OnOk result (string_bytes text.new ≡ string_bytes text.old
        ++ lacks_line bytes sums large) }
{
    writeln!(
        text,
        "not compared: data {bytes} entries, sums {sums}, large {large}"
    )
}

/// The same, where there is something.
fn push_incomplete(text: &mut String, counts: Counts) -> Result<(), AllocError>
    ensures { (all : List Finding) → AreCounts all counts
        → OnOk result (string_bytes text.new ≡ string_bytes text.old ++ lacks_text all) }
{
    if counts.is_complete() {
        return Ok(());
    }
    push_lacks(text, counts.bytes, counts.sums, counts.large)
}

/// The counts of each section.
pub(crate) fn counts_text(alloc: Global, counts: Counts) -> Result<String, AllocError>
    ensures { (all : List Finding) → AreCounts all counts
        → IfOk result (λ text. string_bytes text ≡ counts_text all) }
{
    let mut text = String::new(alloc);
    push_counts(&mut text, Section::Entries, counts.entries)?;
    push_counts(&mut text, Section::Tree, counts.tree)?;
    push_counts(&mut text, Section::Slots, counts.slots)?;
    push_counts(&mut text, Section::Buffers, counts.buffers)?;
    push_incomplete(&mut text, counts)?;
    Ok(text)
}
