//! Two reports, in one text or in two.
ghost use Rattle.std.specs.Prelude.{◌≡◌, ◌≤◌, ◌++◌, IfErr, IfOk, List, None, OnOk, Some, length, ℕ};
ghost use Rattle.std.specs.List.{flat_map, position_or_len};
ghost use Rattle.report_diff.specs.Differences.{Adds, Found, found};
ghost use Rattle.report_diff.specs.Differences.{of_first, of_second};
ghost use Rattle.report_diff.specs.Inputs.{Compares, ComparesLines, ComparesTexts, ComparesTwo};
ghost use Rattle.report_diff.specs.Inputs.{TellsFlaw, TellsVersions};
ghost use Rattle.report_diff.specs.Inputs.{TellsOfInput, TellsOfLines, TellsOfTexts, TellsOfTwo};
ghost use Rattle.report_diff.specs.Merging.{ComparesFound, HoldsBehind, IsPassed, ends_at, order_behind};
ghost use Rattle.report_diff.specs.Refusals.{refusal_text};
ghost use Rattle.report_diff.specs.Inputs.{flaw_behind, flaw_of, is_end, is_nothing, report_in, version_of, versions_flaw};
ghost use Rattle.report_diff.specs.declared.comparing.DiffFault.TheVariants.{Memory, Refused};
ghost use Rattle.report_diff.specs.Lines.{texts};
ghost use Rattle.report_diff.specs.Repeats.{IsIndex};

use crate::counting::counts_text;
use crate::cutting::{closed, entries_end, is_cut};
use crate::index::Index;
use crate::lines::lines;
use crate::passed::Passed;
use crate::places::in_order;
use crate::refusal::{Flaw, Refusal, Side};
use crate::telling::Told;
use crate::version::Version;
use std::alloc::{AllocError, Global};

/// What is asked of a comparison.
#[derive(Clone, Copy, Debug, PartialEq, Eq)]
pub struct Terms {
    /// Whether two reports pass only where nothing is left that is not compared.
    pub strict: bool,
    /// Whether the second report may be cut off: a recording that was killed has no line `end`.
    pub truncated: bool,
}

/// How two reports compare.
#[derive(Debug, Drop)]
pub struct Comparison {
    /// The lines that differ or are unchecked, and the counts of each section.
    pub text: Vec<u8>,
    /// Whether no line differs and, in a strict comparison, nothing is left that is not compared.
    pub passes: bool,
}

/// Why there is no comparison.
#[derive(Clone, Copy, Debug, PartialEq, Eq)]
pub enum DiffFault {
    /// The texts are not two reports.
    Refused(Refusal),
    /// Memory ran out.
    Memory,
}

impl From<AllocError> for DiffFault {
    ghost from_gives = { λ _ fault. fault ≡ Memory };

    fn from(_: AllocError) -> DiffFault {
        DiffFault::Memory
    }
}

impl From<Refusal> for DiffFault {
    ghost from_gives = { λ why fault. fault ≡ Refused why };

    fn from(why: Refusal) -> DiffFault {
        DiffFault::Refused(why)
    }
}

/// Compares the two reports of an input, one after another: the first goes to its first line `end`.
///
/// # Errors
///
/// Refused where the input is not two reports, with the first reason; else out of memory.
pub fn compare(alloc: Global, terms: Terms, input: &[u8]) -> Result<Comparison, DiffFault>
    ensures ok { IfOk result (Compares terms input.now) }
    ensures err { IfErr result (TellsOfInput terms input.now) }
{
    let lines = lines(alloc, input)?;
    let lines = lines.as_slice();
    let second = lines.len().min(end_of(lines) + 1);
    compare_lines(alloc, terms, &lines[..second], &lines[second..])
}

/// Compares two reports that are given apart.
///
/// # Errors
///
/// Refused where one of the texts is no report, with the first reason; else out of memory.
pub fn compare_two(
    alloc: Global,
    terms: Terms,
    first: &[u8],
    second: &[u8],
) -> Result<Comparison, DiffFault>
    ensures ok { IfOk result (ComparesTwo terms first.now second.now) }
    ensures err { IfErr result (TellsOfTwo terms first.now second.now) }
{
    let first = lines(alloc, first)?;
    let second = lines(alloc, second)?;
    compare_lines(alloc, terms, first.as_slice(), second.as_slice())
}

/// Compares the reports of two texts, by their lines.
#[tactic(auto, unfolding(crate::specs::Inputs::refusal_of, crate::specs::Inputs::found_of, crate::specs::Inputs::differences_of, crate::specs::Inputs::passes_of, crate::specs::Inputs::taken_as))]
fn compare_lines(
    alloc: Global,
    terms: Terms,
    first: &[&[u8]],
    second: &[&[u8]],
) -> Result<Comparison, DiffFault>
    ensures ok { IfOk result (ComparesLines terms (texts first.now) (texts second.now)) }
    ensures err { IfErr result (TellsOfLines terms (texts first.now) (texts second.now)) }
{
    if !is_cut(terms, second) {
        return compare_texts(alloc, terms.strict, false, first, second);
    }
    let closed = closed(alloc, second)?;
    compare_texts(alloc, terms.strict, true, first, closed.as_slice())
}

/// Compares the reports of two texts, the second of which may be cut off.
#[tactic(auto, unfolding(crate::specs::Inputs::refusal_of_texts, crate::specs::Inputs::found_of_texts))]
fn compare_texts(
    alloc: Global,
    strict: bool,
    cut: bool,
    first: &[&[u8]],
    second: &[&[u8]],
) -> Result<Comparison, DiffFault>
    ensures ok { IfOk result (ComparesTexts strict cut (texts first.now) (texts second.now)) }
    ensures err { IfErr result (TellsOfTexts (texts first.now) (texts second.now)) }
{
    let one = report_in(Side::First, first)?;
    let other = report_in(Side::Second, second)?;
    of_one_version(first, second)?;
    let one = Index::of(alloc, Side::First, 0, entries_end(cut, 0, one), one)?;
    let other = Index::of(alloc, Side::Second, 0, entries_end(cut, 0, other), other)?;
    Ok(compared(alloc, strict, Told::nothing(alloc), &one, &other)?)
}

/// Refuses two reports of different versions.
fn of_one_version(first: &[&[u8]], second: &[&[u8]]) -> Result<(), Refusal>
    ensures ok { OnOk result
        (versions_flaw (version_of (texts first.now)) (version_of (texts second.now)) ≡ None) }
    ensures err { IfErr result (TellsVersions (texts first.now) (texts second.now)) }
{
    let (first, second) = match (Version::of(first), Version::of(second)) {
        (Some(first), Some(second)) if first != second => (first, second),
        _ => return Ok(()),
    };
    Err(Refusal {
        side: Side::Second,
        flaw: Flaw::Versions { first, second },
    })
}

/// The lines of a text up to its first line `end`, behind which nothing may stand, in their order.
#[tactic(auto, unfolding(crate::specs::Inputs::flaw_of))]
fn report_in<'t, 'a>(side: Side, text: &'t [&'a [u8]]) -> Result<&'t [&'a [u8]], Refusal>
    ensures report { IfOk result (λ report. texts report.now ≡ report_in (texts text.now)) }
    ensures whole { OnOk result (flaw_of side (texts text.now) ≡ None) }
    ensures err { IfErr result (λ why. TellsFlaw side (texts text.now) (Refused why)) }
{
    match Version::of(text) {
        Some(version) => body_in(side, version, Passed::none(), text),
        None => Err(Refusal {
            side,
            flaw: Flaw::Heading,
        }),
    }
}

/// The same of a text of which some lines were passed.
pub(crate) fn body_in<'t, 'a>(
    side: Side,
    version: Version,
    passed: Passed,
    text: &'t [&'a [u8]],
) -> Result<&'t [&'a [u8]], Refusal>
    ensures report { IfOk result (λ report. texts report.now ≡ report_in (texts text.now)) }
    ensures orderly { (earlier : List (List ℕ)) → IsPassed passed earlier
        → IfOk result (λ report. order_behind side version earlier (texts report.now) ≡ None) }
    ensures whole { (earlier : List (List ℕ)) → IsPassed passed earlier
        → OnOk result (flaw_behind side (earlier ++ texts text.now) (Some version) ≡ None) }
    ensures err { (earlier : List (List ℕ)) → IsPassed passed earlier → IfErr result
        (λ why. flaw_behind side (earlier ++ texts text.now) (Some version) ≡ Some (refusal_text why)) }
{
    let end = end_of(text);
    if end == text.len() {
        return Err(Refusal {
            side,
            flaw: Flaw::End,
        });
    }
    if !is_nothing(&text[end + 1..]) {
        return Err(Refusal {
            side,
            flaw: Flaw::GoesOn,
        });
    }
    in_order(side, version, passed, &text[..end])?;
    Ok(&text[..end])
}

/// Whether nothing stands behind a line but its line feed.
fn is_nothing(lines: &[&[u8]]) -> bool
    ensures { result ≡ is_nothing (texts lines.now) }
{
    match lines {
        [] => true,
        [line] => line.is_empty(),
        _ => false,
    }
}

/// The place of the first line `end`, or how many lines there are.
pub(crate) fn end_of(lines: &[&[u8]]) -> usize
    ensures place { result ≡ position_or_len is_end (texts lines.now) }
    ensures bound { result ≤ length lines.now }
{
    for (place, line) in lines.iter().enumerate() {
        if *line == b"end".as_slice() {
            return place;
        }
    }
    lines.len()
}

/// How two reports compare, behind what was found before.
pub(crate) fn compared(
    alloc: Global,
    strict: bool,
    told: Told,
    first: &Index<'_>,
    second: &Index<'_>,
) -> Result<Comparison, AllocError>
    ensures { (one other : List (List ℕ)) → (taken : List ℕ) → (before : List Found)
        → IsIndex first.now one → IsIndex second.now other → HoldsBehind taken told before
        → IfOk result (ComparesFound strict taken
        (before ++ found (ends_at first.now second.now) one other)) }
{
    let mut told = told;
    add_all(alloc, &mut told, first, second)?;
    let counts = counts_text(alloc, told.counts)?;
    let passes = told.counts.pass(strict);
    let mut text = told.text;
    text.extend_from_slice(counts.as_bytes())?;
    Ok(Comparison { text, passes })
}

/// Adds what the lines of two reports tell: those of the first, then those that only the second has.
#[tactic(auto, unfolding(crate::specs::Differences::found))]
fn add_all(
    alloc: Global,
    told: &mut Told,
    first: &Index<'_>,
    second: &Index<'_>,
) -> Result<(), AllocError>
    ensures { (one other : List (List ℕ)) → IsIndex first.now one → IsIndex second.now other
        → OnOk result (Adds told.old told.new (found (ends_at first.now second.now) one other)) }
{
    add_firsts(alloc, told, second, first.lines())?;
    add_seconds(alloc, told, first, second.lines())?;
    Ok(())
}

fn add_firsts(
    alloc: Global,
    told: &mut Told,
    second: &Index<'_>,
    lines: &[&[u8]],
) -> Result<(), AllocError>
    ensures { (text : List (List ℕ)) → IsIndex second.now text
        → OnOk result (Adds told.old told.new
        (flat_map (of_first second.now.end text) (texts lines.now))) }
{
    for line in lines {
        told.add_first(alloc, second, line)?;
    }
    Ok(())
}

fn add_seconds(
    alloc: Global,
    told: &mut Told,
    first: &Index<'_>,
    lines: &[&[u8]],
) -> Result<(), AllocError>
    ensures { (text : List (List ℕ)) → IsIndex first.now text
        → OnOk result (Adds told.old told.new
        (flat_map (of_second first.now.end text) (texts lines.now))) }
{
    for line in lines {
        told.add_second(alloc, first, line)?;
    }
    Ok(())
}
