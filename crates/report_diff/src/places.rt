//! The entries of a report in the order of their places.
ghost use Rattle.std.specs.Prelude.{◌≡◌, ◌<◌, ◌^◌, ◌∷◌, ◌++◌, IfErr, IfSome, List, OnOk, [], ℕ};
ghost use Rattle.std.specs.Prelude.{◌+◌, ◌≤◌, IfOk, MatchOption, None, Some, false, true};
ghost use Rattle.report_diff.specs.Lines.{line_kind, texts};
ghost use Rattle.report_diff.specs.Merging.{IsPassed, goes_on, heading, order_behind};
ghost use Rattle.report_diff.specs.Places.{RisesFrom, falls, is_entry, line_place, number_of};
ghost use Rattle.report_diff.specs.Places.{place_of};
ghost use Rattle.report_diff.specs.Refusals.{refusal_text};
ghost use Rattle.report_diff.specs.declared.version.Version.TheVariants.{Two};

use crate::lines::{line_kind, subject};
use crate::passed::Passed;
use crate::refusal::{Flaw, Refusal, Side, shown};
use crate::version::Version;
use std::alloc::AllocError;

/// The greatest place that can be told.
const MOST: u64 = 4_294_967_295;

/// More lines than this are taken for too many.
const MOST_LINES: usize = 4_611_686_018_427_387_904;

/// The number of 32 bits that digits write.
fn number_of(digits: &[u8]) -> Option<u64>
    ensures value { result ≡ number_of digits.now }
    ensures bound { IfSome result (λ number. number < 2 ^ 32) }
{
    let mut number = 0;
    for byte in digits {
        if !byte.is_ascii_digit() {
            return None;
        }
        number = number * 10 + u64::from(*byte - b'0');
        if number > MOST {
            return None;
        }
    }
    Some(number)
}

/// The place that a word is in decimal.
fn place_of(word: &[u8]) -> Option<u64>
    ensures value { result ≡ place_of word.now }
    ensures bound { IfSome result (λ place. place < 2 ^ 32) }
{
    if word.is_empty() {
        return None;
    }
    if word[0] == b'0' && word.len() > 1 {
        return None;
    }
    number_of(word)
}

/// The place of a line, if it is of an entry that has one.
#[tactic(auto, unfolding(crate::specs::Places::line_place))]
pub(crate) fn line_place(line: &[u8]) -> Option<u64>
    ensures value { result ≡ line_place line.now }
    ensures bound { IfSome result (λ place. place < 2 ^ 32) }
{
    if line_kind(line).is_entry() {
        place_of(subject(line))
    } else {
        None
    }
}

/// From which place on places rise behind a line, if it does not fall behind lines where they rise
/// from `next` on.
#[tactic(auto, unfolding(crate::specs::Places::falls, crate::specs::Places::line_place))]
fn next_behind(next: u64, line: &[u8]) -> Option<u64>
    ensures { (earlier : List (List ℕ)) → RisesFrom next earlier
        → MatchOption result (falls earlier line.now ≡ true)
        (λ after. (falls earlier line.now ≡ false) × RisesFrom after (earlier ++ line.now ∷ [])) }
{
    if !line_kind(line).is_entry() {
        return Some(next);
    }
    let place = place_of(subject(line))?;
    if place < next { None } else { Some(place + 1) }
}

/// The place of a line, where it is of an entry whose place is not below `next`.
pub(crate) fn place_on(next: u64, line: &[u8]) -> Option<u64>
    ensures { MatchOption result ((earlier : List (List ℕ)) → RisesFrom next earlier
        → goes_on earlier line.now ≡ false)
        (λ place. (is_entry (line_kind line.now) ≡ true) × (line_place line.now ≡ Some place)
        × (next ≤ place) × (place < 2 ^ 32)) }
{
    if !line_kind(line).is_entry() {
        return None;
    }
    match place_of(subject(line)) {
        Some(place) if next <= place => Some(place),
        _ => None,
    }
}

impl Passed {
    /// No line was passed.
    pub(crate) fn none() -> Passed
        ensures { IsPassed result [] }
    {
        Passed { lines: 0, next: 0 }
    }

    /// The heading of a report of version 2 was passed.
    pub(crate) fn heading() -> Passed
        ensures passed { IsPassed result (heading ∷ []) }
        ensures next { result.next ≡ 0 }
    {
        Passed { lines: 1, next: 0 }
    }

    /// An entry of this place was passed.
    pub(crate) fn on(&mut self, place: u64) -> Result<(), AllocError>
        requires { place < 2 ^ 32 }
        ensures lines { OnOk result (self.new.lines ≡ self.old.lines + 1) }
        ensures next { OnOk result (self.new.next ≡ place + 1) }
    {
        self.lines = one_more(self.lines)?;
        self.next = place + 1;
        Ok(())
    }
}

/// A count of lines and one. More lines than can be told are taken for too many to hold.
pub(crate) fn one_more(count: usize) -> Result<usize, AllocError>
    ensures { IfOk result (λ n. (n ≡ count + 1) × (n ≤ 2 ^ 62)) }
{
    if count < MOST_LINES {
        Ok(count + 1)
    } else {
        Err(AllocError)
    }
}

/// Refuses a report whose places do not rise, by its first line that falls, behind the lines of it
/// that were passed.
fn all_rise(side: Side, passed: Passed, report: &[&[u8]]) -> Result<(), Refusal>
    ensures ok { (earlier : List (List ℕ)) → IsPassed passed earlier
        → OnOk result (order_behind side Two earlier (texts report.now) ≡ None) }
    ensures err { (earlier : List (List ℕ)) → IsPassed passed earlier → IfErr result
        (λ why. order_behind side Two earlier (texts report.now) ≡ Some (refusal_text why)) }
{
    let mut next = passed.next;
    for (place, line) in report.iter().enumerate() {
        match next_behind(next, line) {
            Some(after) => next = after,
            None => {
                let flaw = Flaw::Order {
                    line: passed.lines + place + 1,
                    subject: shown(subject(line)),
                };
                return Err(Refusal { side, flaw });
            }
        }
    }
    Ok(())
}

/// Refuses a report whose lines are not in the order of its version, behind those that were passed.
pub(crate) fn in_order(
    side: Side,
    version: Version,
    passed: Passed,
    report: &[&[u8]],
) -> Result<(), Refusal>
    ensures ok { (earlier : List (List ℕ)) → IsPassed passed earlier
        → OnOk result (order_behind side version earlier (texts report.now) ≡ None) }
    ensures err { (earlier : List (List ℕ)) → IsPassed passed earlier → IfErr result
        (λ why. order_behind side version earlier (texts report.now) ≡ Some (refusal_text why)) }
{
    match version {
        Version::One => Ok(()),
        Version::Two => all_rise(side, passed, report),
    }
}
