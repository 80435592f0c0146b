//! What lines say, and whether their facts agree.
ghost use Rattle.std.specs.Prelude.{◌≡◌, ◌==◌, IfOk, List, filter, not, ℕ};
ghost use Rattle.std.specs.List.{list_all, list_any, position_or_len};
ghost use Rattle.std.specs.Str.{bytes_eq};
ghost use Rattle.report_diff.specs.Differences.{fits, has_name, is_compared, is_unchecked};
ghost use Rattle.report_diff.specs.Differences.{is_whole_data, lacks_bytes, lacks_large, lacks_sum};
ghost use Rattle.report_diff.specs.Differences.{lone_outcome, pair_finding, pair_outcome};
ghost use Rattle.report_diff.specs.Lines.{fact_name, facts, is_time, texts};
ghost use Rattle.report_diff.specs.Repeats.{all_among, have_same_facts};

use crate::cutting::is_past;
use crate::known::Known;
use crate::lines::{Section, line_kind, words};
use crate::telling::{Finding, Outcome};
use std::alloc::{AllocError, Global};
/// So few facts are looked through: that is quicker than sets of them.
const FEW: usize = 16;

/// The place of the first byte of this value, or the length.
fn first_place(bytes: &[u8], wanted: u8) -> usize
    ensures { result ≡ position_or_len (λ b. b == wanted) bytes.now }
{
    for (place, byte) in bytes.iter().enumerate() {
        if *byte == wanted {
            return place;
        }
    }
    bytes.len()
}

/// The name of a fact; that of a bare word is empty.
#[tactic(auto, unfolding(crate::specs::Lines::fact_name))]
pub(crate) fn fact_name(fact: &[u8]) -> &[u8]
    ensures { result.now ≡ fact_name fact.now }
{
    let place = first_place(fact, b'=');
    if place == fact.len() {
        &fact[..0]
    } else {
        &fact[..place]
    }
}

/// Whether a word tells when an entry was submitted or its completion seen.
fn is_time(word: &[u8]) -> bool
    ensures { result ≡ is_time word.now }
{
    let name = fact_name(word);
    name == b"submitted".as_slice() || name == b"completed".as_slice()
}

/// What a line says of its subject: its words behind those, but for times.
#[tactic(auto, unfolding(crate::specs::Lines::facts))]
fn facts(alloc: Global, line: &[u8]) -> Result<Vec<&[u8]>, AllocError>
    ensures { IfOk result (λ found. texts found.items ≡ facts line.now) }
{
    let words = words(alloc, line)?;
    let about = line_kind(line).subject_words().min(words.len());
    without_times(alloc, &words[about..])
}

fn without_times<'a>(alloc: Global, words: &[&'a [u8]]) -> Result<Vec<&'a [u8]>, AllocError>
    ensures { IfOk result
        (λ left. texts left.items ≡ filter (λ word. not (is_time word)) (texts words.now)) }
{
    let mut facts = Vec::new(alloc);
    for word in words {
        if !is_time(word) {
            facts.push(*word)?;
        }
    }
    Ok(facts)
}

/// Whether some facts have one of a name.
fn has_name(facts: &[&[u8]], name: &[u8]) -> bool
    ensures { result ≡ has_name name.now (texts facts.now) }
{
    for fact in facts {
        if name == fact_name(fact) {
            return true;
        }
    }
    false
}

fn is_among(facts: &[&[u8]], fact: &[u8]) -> bool
    ensures { result ≡ list_any (bytes_eq fact.now) (texts facts.now) }
{
    for other in facts {
        if fact == *other {
            return true;
        }
    }
    false
}

/// Whether a fact is one of the others, or none of them has its name.
#[tactic(auto, unfolding(crate::specs::Differences::fits))]
fn fits(others: &[&[u8]], fact: &[u8]) -> bool
    ensures { result ≡ fits (texts others.now) fact.now }
{
    is_among(others, fact) || !has_name(others, fact_name(fact))
}

/// Whether each fact fits the others, of which there are few.
fn all_fit_few(facts: &[&[u8]], others: &[&[u8]]) -> bool
    ensures { result ≡ list_all (fits (texts others.now)) (texts facts.now) }
{
    for fact in facts {
        if !fits(others, fact) {
            return false;
        }
    }
    true
}

/// Whether each fact fits the others.
fn all_fit(alloc: Global, facts: &[&[u8]], others: &[&[u8]]) -> Result<bool, AllocError>
    ensures { IfOk result
        (λ fit. fit ≡ list_all (fits (texts others.now)) (texts facts.now)) }
{
    if others.len() <= FEW {
        return Ok(all_fit_few(facts, others));
    }
    let others = Known::of(alloc, others)?;
    Ok(others.all_fit(facts))
}

/// Whether two lines have the same facts.
#[tactic(auto, unfolding(crate::specs::Repeats::have_same_facts))]
pub(crate) fn have_same_facts(alloc: Global, one: &[u8], other: &[u8]) -> Result<bool, AllocError>
    ensures { IfOk result (λ same. same ≡ have_same_facts one.now other.now) }
{
    let one = facts(alloc, one)?;
    let other = facts(alloc, other)?;
    Ok(all_among(alloc, &one, &other)? && all_among(alloc, &other, &one)?)
}

/// Whether each fact is one of the others.
fn all_among(alloc: Global, facts: &[&[u8]], others: &[&[u8]]) -> Result<bool, AllocError>
    ensures { IfOk result (λ all. all ≡ all_among (texts facts.now) (texts others.now)) }
{
    let others = Known::of(alloc, others)?;
    Ok(others.has_all(facts))
}

/// What is found of two lines of one subject.
pub(crate) fn pair_finding(
    alloc: Global,
    section: Section,
    one: &[u8],
    other: &[u8],
) -> Result<Finding, AllocError>
    ensures { IfOk result (λ finding. finding ≡ pair_finding section one.now other.now) }
{
    let one = facts(alloc, one)?;
    let other = facts(alloc, other)?;
    let (one, other) = (one.as_slice(), other.as_slice());
    let outcome = outcome_of(alloc, one, other)?;
    let compared = is_compared(outcome);
    Ok(Finding {
        section,
        outcome,
        bytes: compared && lack_bytes(one, other),
        sum: compared && lack_sum(one, other),
        large: compared && lack_large(one, other),
    })
}

/// How two lines with these facts compare.
#[tactic(auto, unfolding(crate::specs::Differences::pair_outcome, crate::specs::Differences::agree))]
fn outcome_of(
    alloc: Global,
    one_facts: &[&[u8]],
    other_facts: &[&[u8]],
) -> Result<Outcome, AllocError>
    ensures { (one other : List ℕ) → texts one_facts.now ≡ facts one
        → texts other_facts.now ≡ facts other
        → IfOk result (λ outcome. outcome ≡ pair_outcome one other) }
{
    if are_unchecked(one_facts) || are_unchecked(other_facts) {
        Ok(Outcome::Unchecked)
    } else if !all_fit(alloc, one_facts, other_facts)? || !all_fit(alloc, other_facts, one_facts)? {
        Ok(Outcome::Different)
    } else if is_among(one_facts, b"given=1") || is_among(other_facts, b"given=1") {
        Ok(Outcome::Given)
    } else {
        Ok(Outcome::Equal)
    }
}

/// Whether a line with these facts is unchecked.
#[tactic(auto, unfolding(crate::specs::Differences::is_unchecked))]
fn are_unchecked(line_facts: &[&[u8]]) -> bool
    ensures { (line : List ℕ) → texts line_facts.now ≡ facts line → result ≡ is_unchecked line }
{
    has_name(line_facts, b"unchecked") || is_among(line_facts, b"completion=unseen")
}

/// Whether lines of this outcome are claimed to be equal or different.
fn is_compared(outcome: Outcome) -> bool
    ensures { result ≡ is_compared outcome }
{
    match outcome {
        Outcome::Equal | Outcome::Different => true,
        Outcome::Unchecked | Outcome::Given => false,
    }
}

/// Whether the bytes that an entry read are not compared by these facts.
#[tactic(auto, unfolding(crate::specs::Differences::lacks_bytes))]
fn lack_bytes(one_facts: &[&[u8]], other_facts: &[&[u8]]) -> bool
    ensures { (one other : List ℕ) → texts one_facts.now ≡ facts one
        → texts other_facts.now ≡ facts other → result ≡ lacks_bytes one other }
{
    let sums = (
        has_name(one_facts, b"data-sum"),
        has_name(other_facts, b"data-sum"),
    );
    (has_name(one_facts, b"data") || sums.0 || has_name(other_facts, b"data") || sums.1)
        && !(sums.0 && sums.1)
        && !(show_data(one_facts) && show_data(other_facts))
}

/// Whether all bytes that an entry read are shown.
fn show_data(facts: &[&[u8]]) -> bool
    ensures { result ≡ list_any is_whole_data (texts facts.now) }
{
    for fact in facts {
        if is_whole_data(fact) {
            return true;
        }
    }
    false
}

fn is_whole_data(fact: &[u8]) -> bool
    ensures { result ≡ is_whole_data fact.now }
{
    b"data".as_slice() == fact_name(fact) && !fact.ends_with(b"+")
}

/// Whether one of them alone has a sum.
#[tactic(auto, unfolding(crate::specs::Differences::lacks_sum))]
fn lack_sum(one_facts: &[&[u8]], other_facts: &[&[u8]]) -> bool
    ensures { (one other : List ℕ) → texts one_facts.now ≡ facts one
        → texts other_facts.now ≡ facts other → result ≡ lacks_sum one other }
{
    if has_name(one_facts, b"sum") {
        !has_name(other_facts, b"sum")
    } else {
        has_name(other_facts, b"sum")
    }
}

/// Whether the bytes of a large file are not compared.
#[tactic(auto, unfolding(crate::specs::Differences::lacks_large))]
fn lack_large(one_facts: &[&[u8]], other_facts: &[&[u8]]) -> bool
    ensures { (one other : List ℕ) → texts one_facts.now ≡ facts one
        → texts other_facts.now ≡ facts other → result ≡ lacks_large one other }
{
    is_among(one_facts, b"sum=large")
        && is_among(other_facts, b"sum=large")
        && !(has_name(one_facts, b"tree-sum") && has_name(other_facts, b"tree-sum"))
}

/// How a line compares whose subject the other text lacks, whose entries end there.
#[tactic(auto, unfolding(crate::specs::Differences::lone_outcome))]
pub(crate) fn lone_outcome(
    alloc: Global,
    end: Option<u64>,
    line: &[u8],
) -> Result<Outcome, AllocError>
    ensures { IfOk result (λ outcome. outcome ≡ lone_outcome end line.now) }
{
    let facts = facts(alloc, line)?;
    if are_unchecked(facts.as_slice()) || is_past(end, line) {
        Ok(Outcome::Unchecked)
    } else {
        Ok(Outcome::Different)
    }
}
