//! The texts of a whole trace.
ghost use Rattle.std.specs.Prelude.{◌≡◌, List, [], IfOk, OnOk, true, false};
ghost use Rattle.depend_log.specs.Running.{HasRun, next_place};
ghost use Rattle.depend_log.specs.declared.wait.PlaceWaits.{PlaceWaits};
ghost use Rattle.depend_report.specs.Told.{drawn, told};
ghost use Rattle.depend_report.specs.Whole.{AreFirst, IsTextOf};
ghost use Rattle.recording.specs.Steps.{places};
ghost use Rattle.recording.specs.Accepted.{IsAccepted};

use crate::graph::DependsGraph;
use crate::lines::DependsText;
use depend_log::Dependencies;
use recording::Recording;
use std::alloc::{AllocError, Global};

/// What each place of a trace waits for directly in the sequential run, as text: a line for each
/// pair, then how many places and pairs there are, and the longest path of places each of which
/// waits for the one before it, in places and in bytes.
///
/// # Errors
///
/// Out of memory.
pub fn depends_text(alloc: Global, trace: &Recording) -> Result<Vec<u8>, AllocError>
    requires { IsAccepted trace.now }
    ensures { IfOk result (λ text. IsTextOf false trace.now text.items) }
{
    let mut known = Box::new(alloc, Dependencies::new(alloc, trace)?)?;
    let mut text = DependsText::new(alloc)?;
    push_lines(alloc, trace, &mut known, &mut text)?;
    text.finish(alloc)
}

/// The same as a graph in the language of graphviz's dot(1), with the places as nodes and an arrow
/// for each pair.
///
/// # Errors
///
/// Out of memory.
pub fn depends_graph(alloc: Global, trace: &Recording) -> Result<Vec<u8>, AllocError>
    requires { IsAccepted trace.now }
    ensures { IfOk result (λ text. IsTextOf true trace.now text.items) }
{
    let mut known = Box::new(alloc, Dependencies::new(alloc, trace)?)?;
    let mut graph = DependsGraph::new(alloc)?;
    push_nodes(alloc, trace, &mut known, &mut graph)?;
    graph.finish()
}

/// The lines of all places.
fn push_lines(
    alloc: Global,
    trace: &Recording,
    known: &mut Dependencies,
    text: &mut DependsText,
) -> Result<(), AllocError>
    requires trace { IsAccepted trace.now }
    requires run { HasRun trace.now known.old }
    requires first { next_place known.old ≡ 0 }
    requires head { text.old ≡ told trace.now [] }
    ensures { OnOk result ((ps : List PlaceWaits) × (AreFirst trace.now ps (places trace.now)
        × (text.new ≡ told trace.now ps))) }
{
    for _place in 0..trace.places() {
        let place = known.next(alloc, trace)?;
        text.push_place(trace, &place)?;
    }
    Ok(())
}

/// The nodes of all places, and the arrows.
fn push_nodes(
    alloc: Global,
    trace: &Recording,
    known: &mut Dependencies,
    graph: &mut DependsGraph,
) -> Result<(), AllocError>
    requires trace { IsAccepted trace.now }
    requires run { HasRun trace.now known.old }
    requires first { next_place known.old ≡ 0 }
    requires head { graph.old ≡ drawn trace.now [] }
    ensures { OnOk result ((ps : List PlaceWaits) × (AreFirst trace.now ps (places trace.now)
        × (graph.new ≡ drawn trace.now ps))) }
{
    for _place in 0..trace.places() {
        let place = known.next(alloc, trace)?;
        graph.push_place(alloc, trace, &place)?;
    }
    Ok(())
}
