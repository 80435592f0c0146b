//! What the rounds come to.
ghost use Rattle.std.specs.Prelude.{◌≡◌, ◌++◌, [], IfOk, OnOk, codes, map};
ghost use Rattle.std.specs.Prelude.{◌==◌, position, replicate, string_bytes};
ghost use Rattle.std.specs.List.{range_with_len};
ghost use Rattle.std.specs.Option.{option_map};
ghost use Rattle.replay_core.specs.Waits.{waited_meant};
ghost use Rattle.round_report.specs.Summary.{greatest, length_before, longest_line, path_lengths};
ghost use Rattle.round_report.specs.Summary.{quotient_line, round_count, summary, widest, width};

use replay_core::round_log::{RoundLog, WaitedFor};
use std::alloc::{AllocError, Global};

/// The lines at the end: how many rounds there are, how many places the widest has and the mean,
/// and the longest path.
pub(crate) fn push_summary(
    alloc: Global,
    text: &mut String,
    log: &RoundLog,
) -> Result<(), AllocError>
    ensures { OnOk result (string_bytes text.new ≡ string_bytes text.old
        ++ summary log.now.rounds (map (option_map waited_meant) log.now.waits)) }
{
    let rounds = log.rounds.as_slice();
    let count = round_count(rounds);
    let most = widest(alloc, rounds, count)?;
    writeln!(text, "rounds {count}")?;
    writeln!(text, "widest {most}")?;
    push_mean(text, rounds.len(), count)?;
    push_longest(alloc, text, log.waits.as_slice())
}

/// How many rounds there are.
fn round_count(rounds: &[u32]) -> usize
    ensures { result ≡ round_count rounds.now }
{
    let mut count = 0;
    for round in rounds {
        count = count.max(*round as usize + 1);
    }
    count
}

/// How many places the widest round has.
fn widest(alloc: Global, rounds: &[u32], count: usize) -> Result<usize, AllocError>
    requires { count ≡ round_count rounds.now }
    ensures { IfOk result (λ most. most ≡ widest rounds.now) }
{
    let widths = widths(alloc, rounds, count)?;
    Ok(greatest(widths.as_slice()))
}

/// How many places each round has.
fn widths(alloc: Global, rounds: &[u32], count: usize) -> Result<Vec<usize>, AllocError>
    requires { count ≡ round_count rounds.now }
    ensures { IfOk result (λ widths. widths.items
        ≡ map (width rounds.now) (range_with_len 0 count)) }
{
    let mut widths = no_places(alloc, count)?;
    for round in rounds {
        widths[*round as usize] += 1;
    }
    Ok(widths)
}

/// No place in any round yet.
fn no_places(alloc: Global, count: usize) -> Result<Vec<usize>, AllocError>
    ensures { IfOk result (λ widths. widths.items ≡ replicate count 0) }
{
    let mut widths = Vec::with_capacity(alloc, count)?;
    for _round in 0..count {
        widths.push(0)?;
    }
    Ok(widths)
}

/// The greatest of some numbers, 0 where there is none.
fn greatest(numbers: &[usize]) -> usize
    ensures { result ≡ greatest numbers.now }
{
    let mut most = 0;
    for number in numbers {
        most = most.max(*number);
    }
    most
}

/// The line of how many places a round has in the mean.
fn push_mean(text: &mut String, places: usize, count: usize) -> Result<(), AllocError>
    ensures { OnOk result (string_bytes text.new ≡ string_bytes text.old
        ++ quotient_line (codes "mean") places count) }
{
    push_quotient(text, "mean", places as u64, count as u64)
}

/// A line with how often one number holds another, in hundredths, rounded down; with 0.00 where the
/// other is 0.
///
/// # Errors
///
/// Out of memory.
pub fn push_quotient(text: &mut String, name: &str, whole: u64, part: u64) -> Result<(), AllocError>
    ensures { OnOk result (string_bytes text.new ≡ string_bytes text.old
        ++ quotient_line name.now whole part) }
{
    let quotient = if part == 0 {
        0
    } else {
        whole as u128 * 100 / part as u128
    };
    let units = quotient / 100;
    let tenths = quotient / 10 % 10;
    let last = quotient % 10;
    writeln!(text, "{name} {units}.{tenths}{last}")
}

/// The line of the longest path: how many places it has, and with which it ends.
fn push_longest(
    alloc: Global,
    text: &mut String,
    waits: &[Option<WaitedFor>],
) -> Result<(), AllocError>
    ensures { OnOk result (string_bytes text.new ≡ string_bytes text.old
        ++ longest_line (path_lengths [] (map (option_map waited_meant) waits.now))) }
{
    let lengths = path_lengths(alloc, waits)?;
    let longest = greatest(lengths.as_slice());
    match place_of(lengths.as_slice(), longest) {
        Some(place) => writeln!(text, "longest {longest} to place {place}"),
        None => writeln!(text, "longest {longest}"),
    }
}

/// The first place that has a length.
fn place_of(lengths: &[usize], longest: usize) -> Option<usize>
    ensures { result ≡ position (λ n. n == longest) lengths.now }
{
    lengths.iter().position(|length| *length == longest)
}

/// How many places the longest path has that ends with each place.
fn path_lengths(alloc: Global, waits: &[Option<WaitedFor>]) -> Result<Vec<usize>, AllocError>
    ensures { IfOk result (λ lengths. lengths.items
        ≡ path_lengths [] (map (option_map waited_meant) waits.now)) }
{
    let mut lengths = Vec::with_capacity(alloc, waits.len())?;
    for wait in waits {
        let length = length_before(lengths.as_slice(), wait) + 1;
        lengths.push(length)?;
    }
    Ok(lengths)
}

/// How many places the longest path has that ends with the one that was waited for.
fn length_before(lengths: &[usize], wait: &Option<WaitedFor>) -> usize
    ensures { result ≡ length_before lengths.now (option_map waited_meant wait.now) }
{
    match wait {
        Some(wait) => lengths.get(wait.place as usize).copied().unwrap_or(0),
        None => 0,
    }
}
