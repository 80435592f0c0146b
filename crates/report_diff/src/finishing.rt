//! Two reports of version 2 whose entries were compared as they came, to their ends.
ghost use Rattle.std.specs.Prelude.{◌≡◌, ◌∷◌, ◌++◌, List, ℕ, IfErr, IfOk, OnOk, false};
ghost use Rattle.std.specs.List.{list_any};
ghost use Rattle.report_diff.specs.Inputs.{TellsOfLines};
ghost use Rattle.report_diff.specs.Lines.{lines, texts};
ghost use Rattle.report_diff.specs.Merging.{AwaitsText, ComparesBehind, Merges, ahead_lines};
ghost use Rattle.report_diff.specs.Merging.{heading, is_feed, taken_rest, text_of};

use crate::comparing::{Comparison, DiffFault, Terms, body_in, compared};
use crate::cutting::{closed_behind, entries_end, is_cut_behind};
use crate::fronts::{HEADING, Merging};
use crate::index::Index;
use crate::lines::lines;
use crate::refusal::Side;
use crate::version::Version;
use std::alloc::{AllocError, Global};

impl Merging {
    /// Compares what is left of both texts, and tells it behind what was not taken yet.
    ///
    /// # Errors
    ///
    /// Refused where the texts are not two reports, with the first reason; else out of memory.
    pub fn finish<'a>(
        &'a self,
        alloc: Global,
        terms: Terms,
        first: &'a [u8],
        second: &'a [u8],
    ) -> Result<Comparison, DiffFault>
        ensures ok { (one other : List (List ℕ)) → (taken : List ℕ) → Merges self.now one other taken
            → AwaitsText self.now (lines first.now) → IfOk result (ComparesBehind terms taken
            (heading ∷ one ++ lines first.now) (heading ∷ other ++ lines second.now)) }
        ensures err { (one other : List (List ℕ)) → (taken : List ℕ) → Merges self.now one other taken
            → AwaitsText self.now (lines first.now) → IfErr result (TellsOfLines terms
            (heading ∷ one ++ lines first.now) (heading ∷ other ++ lines second.now)) }
    {
        let first = lines(alloc, first)?;
        let second = lines(alloc, second)?;
        let cut = is_cut_behind(terms, second.as_slice());
        let second = taken_rest(alloc, cut, second)?;
        let one = body_in(Side::First, Version::Two, self.first, first.as_slice())?;
        let other = body_in(Side::Second, Version::Two, self.second, second.as_slice())?;
        let first_end = entries_end(cut, self.first.next, one);
        let second_end = entries_end(cut, self.second.next, other);
        let one = behind_heading(alloc, one)?;
        let (kept, line) = (self.kept.as_slice(), self.line.as_slice());
        let other = behind_kept(alloc, kept, self.ahead, line, other)?;
        let skipped = self.first.lines.saturating_sub(1);
        let one = Index::of(alloc, Side::First, skipped, first_end, one.as_slice())?;
        let other = Index::of(alloc, Side::Second, self.gone, second_end, other.as_slice())?;
        let told = self.told.copied(alloc)?;
        Ok(compared(alloc, terms.strict, told, &one, &other)?)
    }
}

/// What is left of the second text, with the end that it is taken to have where it was cut off.
fn taken_rest<'a>(
    alloc: Global,
    cut: bool,
    rest: Vec<&'a [u8]>,
) -> Result<Vec<&'a [u8]>, AllocError>
    ensures { IfOk result (λ all. texts all.items ≡ taken_rest cut (texts rest.entry.items)) }
{
    if cut {
        closed_behind(alloc, &[], rest.as_slice())
    } else {
        Ok(rest)
    }
}

/// The lines of a report behind its heading, and that.
fn behind_heading<'a>(alloc: Global, report: &[&'a [u8]]) -> Result<Vec<&'a [u8]>, AllocError>
    ensures { IfOk result (λ all. texts all.items ≡ heading ∷ texts report.now) }
{
    let mut all = Vec::new(alloc);
    all.push(HEADING.as_bytes())?;
    all.extend_from_slice(report)?;
    Ok(all)
}

/// The lines that are kept, the one that is ahead, and those of a report behind them.
fn behind_kept<'a>(
    alloc: Global,
    kept: &'a [u8],
    ahead: Option<u64>,
    line: &'a [u8],
    report: &[&'a [u8]],
) -> Result<Vec<&'a [u8]>, AllocError>
    ensures { (before : List (List ℕ)) → kept.now ≡ text_of before
        → list_any (list_any is_feed) before ≡ false → IfOk result (λ all. texts all.items
        ≡ before ++ (ahead_lines ahead line.now ++ texts report.now)) }
{
    let parts = lines(alloc, kept)?;
    let count = parts.len().saturating_sub(1);
    let mut all = Vec::new(alloc);
    all.extend_from_slice(&parts[..count])?;
    push_ahead(&mut all, ahead, line)?;
    all.extend_from_slice(report)?;
    Ok(all)
}

/// Adds the line that is ahead, if one is.
fn push_ahead<'a>(
    all: &mut Vec<&'a [u8]>,
    ahead: Option<u64>,
    line: &'a [u8],
) -> Result<(), AllocError>
    ensures { OnOk result (texts all.new.items ≡ texts all.old.items ++ ahead_lines ahead line.now) }
{
    match ahead {
        Some(_) => Ok(all.push(line)?),
        None => Ok(()),
    }
}
