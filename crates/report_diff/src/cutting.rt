//! A report that was cut off, and where the entries of two reports end then.
ghost use Rattle.std.specs.Prelude.{◌≡◌, ◌&&◌, ◌∷◌, ◌++◌, [], IfOk, None, Some, codes, if◌then◌else◌, max};
ghost use Rattle.std.specs.Prelude.{not};
ghost use Rattle.std.specs.List.{list_any};
ghost use Rattle.report_diff.specs.Differences.{is_past};
ghost use Rattle.report_diff.specs.Inputs.{closed, entries_end, entries_in, is_cut, is_end, is_two};
ghost use Rattle.report_diff.specs.Inputs.{place_end, whole};
ghost use Rattle.report_diff.specs.Lines.{texts};
ghost use Rattle.report_diff.specs.Places.{line_place};

use crate::comparing::{Terms, end_of};
use crate::lines::line_kind;
use crate::places::line_place;
use crate::version::Version;
use std::alloc::{AllocError, Global};

/// Whether a text is a report of version 2 that was cut off, where that is asked for.
#[tactic(auto, unfolding(crate::specs::Inputs::is_cut))]
pub(crate) fn is_cut(terms: Terms, text: &[&[u8]]) -> bool
    ensures { result ≡ is_cut terms (texts text.now) }
{
    is_cut_behind(terms, text) && is_two(Version::of(whole(text)))
}

/// The same of what is left of a report of version 2.
pub(crate) fn is_cut_behind(terms: Terms, rest: &[&[u8]]) -> bool
    ensures { result ≡ (terms.truncated && not (list_any is_end (texts rest.now))) }
{
    terms.truncated && !has_end(rest)
}

fn is_two(version: Option<Version>) -> bool
    ensures { result ≡ is_two version }
{
    match version {
        Some(Version::Two) => true,
        _ => false,
    }
}

/// Whether a text has a line `end`.
fn has_end(text: &[&[u8]]) -> bool
    ensures { result ≡ list_any is_end (texts text.now) }
{
    end_of(text) < text.len()
}

/// The lines of a text that end in a line feed.
fn whole<'t, 'a>(text: &'t [&'a [u8]]) -> &'t [&'a [u8]]
    ensures { texts result.now ≡ whole (texts text.now) }
{
    &text[..text.len().saturating_sub(1)]
}

/// Those that are of entries, up to any other.
fn entries_in<'t, 'a>(text: &'t [&'a [u8]]) -> &'t [&'a [u8]]
    ensures { texts result.now ≡ entries_in (texts text.now) }
{
    let text = whole(text);
    for (place, line) in text.iter().enumerate() {
        if !line_kind(line).is_entry() {
            return &text[..place];
        }
    }
    text
}

/// The lines of a text that was cut off, with the end that it is taken to have.
#[tactic(auto, unfolding(crate::specs::Inputs::closed))]
pub(crate) fn closed<'a>(alloc: Global, text: &[&'a [u8]]) -> Result<Vec<&'a [u8]>, AllocError>
    ensures { IfOk result (λ all. texts all.items ≡ closed (texts text.now)) }
{
    let behind = text.len().min(1);
    closed_behind(alloc, &text[..behind], &text[behind..])
}

/// The same of a text by its first lines and the others.
pub(crate) fn closed_behind<'a>(
    alloc: Global,
    first: &[&'a [u8]],
    rest: &[&'a [u8]],
) -> Result<Vec<&'a [u8]>, AllocError>
    ensures { IfOk result (λ all. texts all.items
        ≡ texts first.now ++ (entries_in (texts rest.now) ++ codes "end" ∷ [])) }
{
    let mut all = Vec::from_slice(alloc, first)?;
    all.extend_from_slice(entries_in(rest))?;
    all.push(b"end")?;
    Ok(all)
}

/// Where the entries of a report end, of two of which one was cut off. Those that were passed end
/// before `next`.
pub(crate) fn entries_end(cut: bool, next: u64, report: &[&[u8]]) -> Option<u64>
    ensures { result
        ≡ (if cut then Some (max next (entries_end (texts report.now))) else None) }
{
    if !cut {
        return None;
    }
    let mut end = next;
    for line in report {
        end = end.max(place_end(line));
    }
    Some(end)
}

/// The place behind that of a line, if it has one.
fn place_end(line: &[u8]) -> u64
    ensures { result ≡ place_end (line_place line.now) }
{
    match line_place(line) {
        Some(place) => place + 1,
        None => 0,
    }
}

/// Whether a line is of an entry behind the end of the other report's entries.
#[tactic(auto, unfolding(crate::specs::Differences::is_past))]
pub(crate) fn is_past(end: Option<u64>, line: &[u8]) -> bool
    ensures { result ≡ is_past end line.now }
{
    let Some(end) = end else {
        return false;
    };
    match line_place(line) {
        Some(place) => end <= place,
        None => false,
    }
}
