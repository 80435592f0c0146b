//! The parts of a report whose lines stand in the order of places, as they come.
ghost use Rattle.std.specs.Prelude.{◌≡◌, ◌++◌, IfOk, OnOk};
ghost use Rattle.recording.specs.Steps.{step_meant};
ghost use Rattle.replay_report.specs.InOrder.{LinesAreShown, ReportsInOrder, last_lines, line_of};

use crate::answer::Answer;
use crate::entries::push_entry;
use crate::report::{world_alone, world_on};
use crate::showing::{Lines, Shown};
use recording::{Action, Recording, Step};
use std::alloc::{AllocError, Global};
use std::thread::Threads;
use world_parts::State;

/// Puts the line of a place that has run behind a text, if it submitted an entry.
///
/// # Errors
///
/// Out of memory.
#[inline(always)]
pub fn push_line(
    text: &mut Vec<u8>,
    place: u32,
    step: &Step<'_>,
    answer: &Answer<'_>,
    lines: Lines,
) -> Result<(), AllocError>
    ensures { OnOk result (text.new.items
        ≡ text.old.items ++ line_of lines place (step_meant step.now) answer.now) }
{
    match &step.action {
        Action::Submit(entry) => push_entry(text, place, step.ring, entry, answer, lines),
        _ => Ok(()),
    }
}

/// What a report shows behind the lines of entries: the world at the end, and the last line. Sums
/// are made on up to so many threads. A thread that is refused only makes it take longer.
///
/// # Errors
///
/// Out of memory.
pub fn last_lines<R: Threads + Sync>(
    rt: &R,
    alloc: Global,
    trace: &Recording,
    state: &State,
    shown: Shown,
    workers: u32,
) -> Result<Vec<u8>, AllocError>
    ensures { IfOk result (λ text. text.items ≡ last_lines trace.now state.now shown) }
{
    let rings = trace.rings.as_slice();
    if workers > 1 {
        world_on(rt, alloc, rings, state, shown.sums, workers)
    } else {
        world_alone(alloc, rings, state, shown.sums)
    }
}

/// A report in place order is its first line, the lines of all places, and the last ones. What is
/// shown of a reply makes the line of the reply.
pub fn reports_in_order()
    ensures parts { ReportsInOrder }
    ensures shown { LinesAreShown }
{}
