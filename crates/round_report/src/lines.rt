//! The rounds as lines.
ghost use Rattle.std.specs.Prelude.{◌≡◌, ◌++◌, IfOk, OnOk, length};
ghost use Rattle.std.specs.List.{flat_map, range_with_len};
ghost use Rattle.std.specs.Option.{option_map};
ghost use Rattle.replay_core.specs.Waits.{waited_meant};
ghost use Rattle.round_report.specs.Rounds.{log_meant, logged_line, place_line, rounds_text};
ghost use Rattle.round_report.specs.Rounds.{after_text, wait_text};
ghost use Rattle.world_parts.specs.Uses.{item_meant};

use crate::naming::{push_item, push_numbered};
use crate::summary::push_summary;
use recording::Recording;
use replay_core::round_log::{RoundLog, WaitedFor};
use std::alloc::{AllocError, Global};
use text_forms::{push_bytes, push_decimal};
use world_parts::Item;

/// The rounds of a trace as text: of each place its round and, where it had to wait, the place that
/// it waited for last and what both use; then how many rounds there are, how many places the widest
/// has and the mean, and the longest path of places that waited for each other. It takes time and
/// memory linear in the text.
///
/// # Errors
///
/// Out of memory.
pub fn rounds_text(alloc: Global, trace: &Recording, log: &RoundLog) -> Result<Vec<u8>, AllocError>
    requires { length log.now.waits ≡ length log.now.rounds }
    ensures { IfOk result (λ text. text.items ≡ rounds_text trace.now (log_meant log.now)) }
{
    let mut text = Vec::from_slice(alloc, b"uring-rounds 1\n")?;
    push_places(&mut text, trace, log)?;
    let mut ending = String::new(alloc);
    push_summary(alloc, &mut ending, log)?;
    push_bytes(&mut text, ending.as_bytes())?;
    push_bytes(&mut text, b"end\n")?;
    Ok(text)
}

/// The lines of all places.
fn push_places(text: &mut Vec<u8>, trace: &Recording, log: &RoundLog) -> Result<(), AllocError>
    requires { length log.now.waits ≡ length log.now.rounds }
    ensures { OnOk result (text.new.items ≡ text.old.items
        ++ flat_map (logged_line trace.now (log_meant log.now))
        (range_with_len 0 (length log.now.rounds))) }
{
    let rounds = log.rounds.as_slice();
    let waits = log.waits.as_slice();
    for place in 0..rounds.len() {
        push_place(text, trace, place, rounds[place], &waits[place])?;
    }
    Ok(())
}

/// The line of a place.
fn push_place(
    text: &mut Vec<u8>,
    trace: &Recording,
    place: usize,
    round: u32,
    wait: &Option<WaitedFor>,
) -> Result<(), AllocError>
    ensures { OnOk result (text.new.items ≡ text.old.items
        ++ place_line trace.now place round (option_map waited_meant wait.now)) }
{
    push_decimal(text, place as u64)?;
    push_numbered(text, b" round=", u64::from(round))?;
    push_wait(text, trace, wait)?;
    push_bytes(text, b"\n")
}

/// For which place one had to wait, if it had to, and what both use.
fn push_wait(
    text: &mut Vec<u8>,
    trace: &Recording,
    wait: &Option<WaitedFor>,
) -> Result<(), AllocError>
    ensures { OnOk result (text.new.items ≡ text.old.items
        ++ wait_text trace.now (option_map waited_meant wait.now)) }
{
    match wait {
        Some(wait) => push_after(text, trace, wait.place, &wait.item),
        None => Ok(()),
    }
}

/// For which place one waits, and what both use: the end of its line.
///
/// # Errors
///
/// Out of memory.
pub fn push_after(
    text: &mut Vec<u8>,
    trace: &Recording,
    place: u32,
    item: &Item,
) -> Result<(), AllocError>
    ensures { OnOk result (text.new.items ≡ text.old.items
        ++ after_text trace.now place (item_meant item.now)) }
{
    push_numbered(text, b" after=", u64::from(place))?;
    push_bytes(text, b" on=")?;
    push_item(text, trace, item)
}
