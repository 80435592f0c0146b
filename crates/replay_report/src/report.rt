//! The report of a replay, and the line of a check.
ghost use Rattle.std.specs.Prelude.{◌≡◌, ◌≢◌, ◌++◌, IfOk, codes, length};
ghost use Rattle.replay_report.specs.Report.{check_line, line, lines_of, report_of, title, world_lines};
ghost use Rattle.std.specs.List.{concat};
ghost use Rattle.replay_report.specs.Sums.{AreMade, AreSumsOf, shown_of};
ghost use Rattle.recording.specs.Steps.{places};
ghost use Rattle.world_parts.specs.Image.{image_of};

use crate::dealing::{sums_alone, sums_on_threads};
use crate::made::Made;
use crate::pieces::Pieces;
use crate::ring_texts::RingTexts;
use crate::showing::{Lines, Shown, SumsShown};
use crate::sums::Sums;
use crate::tree_sums::TreeSums;
use crate::world_lines::push_world;
use op_meaning::Replies;
use recording::{Recording, Ring};
use std::alloc::{AllocError, Global};
use std::thread::Threads;
use world_parts::{Image, State};

/// The text of the report: the entries of each ring with their replies, and what the maps of the
/// world show at the end, with the sums and the names that are asked for.
///
/// # Errors
///
/// Out of memory.
pub fn report_text(
    alloc: Global,
    trace: &Recording,
    state: &State,
    replies: &Replies,
    shown: Shown,
) -> Result<Vec<u8>, AllocError>
    requires replies { length replies.now ≡ places trace.now }
    ensures { IfOk result (λ text. text.items
        ≡ report_of trace.now state.now replies.now shown) }
{
    let texts = RingTexts::of(alloc, trace, replies, Lines::of(trace, shown.names))?;
    report_of_texts(alloc, trace, texts, state, shown)?.joined(alloc)
}

/// The same text in pieces, whose sums are made on up to so many threads where they are worth them.
/// A thread that is refused only makes it take longer.
///
/// # Errors
///
/// Out of memory.
pub fn report_on<R: Threads + Sync>(
    rt: &R,
    alloc: Global,
    trace: &Recording,
    state: &State,
    replies: &Replies,
    shown: Shown,
    workers: u32,
) -> Result<Pieces, AllocError>
    requires replies { length replies.now ≡ places trace.now }
    ensures { IfOk result (λ text. text ≡ report_of trace.now state.now replies.now shown) }
{
    let lines = Lines::of(trace, shown.names);
    let texts = RingTexts::of(alloc, trace, replies, lines)?;
    let world = world_on(
        rt,
        alloc,
        trace.rings.as_slice(),
        state,
        shown.sums,
        workers,
    )?;
    texts.with_world(alloc, lines, world)
}

/// The report of the texts of a recording's lists, and of what the maps of the world show at the
/// end.
///
/// # Errors
///
/// Out of memory.
pub fn report_of_texts(
    alloc: Global,
    trace: &Recording,
    texts: RingTexts,
    state: &State,
    shown: Shown,
) -> Result<Pieces, AllocError>
    ensures { IfOk result (λ text. text ≡ title (lines_of trace.now shown.names) ++ concat texts
        ++ world_lines trace.now.rings state.now shown.sums ++ line (codes "end")) }
{
    let world = world_alone(alloc, trace.rings.as_slice(), state, shown.sums)?;
    texts.with_world(alloc, Lines::of(trace, shown.names), world)
}

/// What a report shows of the world, whose sums are made on up to so many threads.
pub(crate) fn world_on<R: Threads + Sync>(
    rt: &R,
    alloc: Global,
    rings: &[Ring],
    state: &State,
    asked: SumsShown,
    workers: u32,
) -> Result<Vec<u8>, AllocError>
    ensures { IfOk result (λ text. text.items
        ≡ world_lines rings.now state.now asked ++ line (codes "end")) }
{
    let image = Box::new(alloc, state.image(alloc)?)?;
    match asked {
        SumsShown::None => world_text(alloc, rings, state, &image, Made::None),
        SumsShown::Small | SumsShown::All => {
            let sums = sums_on_threads(rt, alloc, state, &image, workers)?;
            world_with(alloc, rings, state, &image, &sums, asked)
        }
    }
}

/// What a report shows of the world, whose sums are made one after another.
pub(crate) fn world_alone(
    alloc: Global,
    rings: &[Ring],
    state: &State,
    asked: SumsShown,
) -> Result<Vec<u8>, AllocError>
    ensures { IfOk result (λ text. text.items
        ≡ world_lines rings.now state.now asked ++ line (codes "end")) }
{
    let image = Box::new(alloc, state.image(alloc)?)?;
    match asked {
        SumsShown::None => world_text(alloc, rings, state, &image, Made::None),
        SumsShown::Small | SumsShown::All => {
            let sums = sums_alone(alloc, state, &image)?;
            world_with(alloc, rings, state, &image, &sums, asked)
        }
    }
}

/// What a report shows of the world with these sums, and with those of large files where they are
/// asked for.
fn world_with(
    alloc: Global,
    rings: &[Ring],
    state: &State,
    image: &Image,
    sums: &Sums,
    asked: SumsShown,
) -> Result<Vec<u8>, AllocError>
    requires image { image.now ≡ image_of state.now }
    requires sums { AreSumsOf state.now sums.now }
    requires some { asked ≢ SumsShown.None }
    ensures { IfOk result (λ text. text.items
        ≡ world_lines rings.now state.now asked ++ line (codes "end")) }
{
    if asked == SumsShown::All {
        let trees = TreeSums::of(alloc, state, image)?;
        return world_text(alloc, rings, state, image, Made::All(sums, &trees));
    }
    world_text(alloc, rings, state, image, Made::Small(sums))
}

/// What a report shows of the world, with sums where they were made, and its last line.
fn world_text(
    alloc: Global,
    rings: &[Ring],
    state: &State,
    image: &Image,
    made: Made<'_>,
) -> Result<Vec<u8>, AllocError>
    requires image { image.now ≡ image_of state.now }
    requires made { AreMade state.now made }
    ensures { IfOk result (λ text. text.items
        ≡ world_lines rings.now state.now (shown_of made.entry) ++ line (codes "end")) }
{
    let mut text = Vec::new(alloc);
    push_world(alloc, &mut text, rings, state, image, made)?;
    text.extend_from_slice(b"end\n")?;
    Ok(text)
}

/// The line of a check: how many places and rings a trace has.
///
/// # Errors
///
/// Out of memory.
pub fn check_text(alloc: Global, trace: &Recording) -> Result<Vec<u8>, AllocError>
    ensures { IfOk result (λ text. text.items ≡ check_line trace.now) }
{
    let places = trace.places();
    let rings = trace.rings.as_slice().len();
    let text = format!(in alloc; "ok {places} places {rings} rings\n")?;
    Ok(text.into_bytes())
}
