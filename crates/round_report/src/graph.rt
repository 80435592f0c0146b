//! The rounds as a graph.
ghost use Rattle.std.specs.Prelude.{◌≡◌, ◌++◌, IfOk, OnOk, length};
ghost use Rattle.std.specs.List.{flat_map, range_with_len};
ghost use Rattle.std.specs.Option.{option_map};
ghost use Rattle.replay_core.specs.Waits.{waited_meant};
ghost use Rattle.round_report.specs.Rounds.{arrow, arrow_line, graph_text, log_meant, logged_node};
ghost use Rattle.round_report.specs.Rounds.{place_node, quoted, quoted_byte};
ghost use Rattle.world_parts.specs.Uses.{item_meant};

use crate::naming::push_item;
use recording::Recording;
use replay_core::round_log::{RoundLog, WaitedFor};
use std::alloc::{AllocError, Global};
use text_forms::push_bytes;
use world_parts::Item;

/// The rounds of a trace as a graph in the language of graphviz's dot(1): a node for each place
/// with its round, and an arrow from the place that it waited for last, with what both use. It
/// takes time and memory linear in the text.
///
/// # Errors
///
/// Out of memory.
pub fn graph_text(alloc: Global, trace: &Recording, log: &RoundLog) -> Result<Vec<u8>, AllocError>
    requires { length log.now.waits ≡ length log.now.rounds }
    ensures { IfOk result (λ text. text.items ≡ graph_text trace.now (log_meant log.now)) }
{
    let mut text = Vec::from_slice(alloc, b"digraph rounds {\n")?;
    push_nodes(alloc, &mut text, trace, log)?;
    push_bytes(&mut text, b"}\n")?;
    Ok(text)
}

/// The nodes of all places, each followed by the arrow that leads to it.
fn push_nodes(
    alloc: Global,
    text: &mut Vec<u8>,
    trace: &Recording,
    log: &RoundLog,
) -> Result<(), AllocError>
    requires { length log.now.waits ≡ length log.now.rounds }
    ensures { OnOk result (text.new.items ≡ text.old.items
        ++ flat_map (logged_node trace.now (log_meant log.now))
        (range_with_len 0 (length log.now.rounds))) }
{
    let rounds = log.rounds.as_slice();
    let waits = log.waits.as_slice();
    for place in 0..rounds.len() {
        push_node(alloc, text, trace, place, rounds[place], &waits[place])?;
    }
    Ok(())
}

/// The node of a place, and the arrow that leads to it.
fn push_node(
    alloc: Global,
    text: &mut Vec<u8>,
    trace: &Recording,
    place: usize,
    round: u32,
    wait: &Option<WaitedFor>,
) -> Result<(), AllocError>
    ensures { OnOk result (text.new.items ≡ text.old.items
        ++ place_node trace.now place round (option_map waited_meant wait.now)) }
{
    let node = format!(in alloc; "  {place} [label=\"{place} in round {round}\"];\n")?;
    push_bytes(text, node.as_bytes())?;
    push_arrow(alloc, text, trace, place, wait)
}

/// The arrow from the place that one had to wait for, if it had to.
fn push_arrow(
    alloc: Global,
    text: &mut Vec<u8>,
    trace: &Recording,
    place: usize,
    wait: &Option<WaitedFor>,
) -> Result<(), AllocError>
    ensures { OnOk result (text.new.items ≡ text.old.items
        ++ arrow trace.now place (option_map waited_meant wait.now)) }
{
    match wait {
        Some(wait) => push_arrow_line(alloc, text, trace, wait.place, place, &wait.item),
        None => Ok(()),
    }
}

/// The arrow from a place to one that waits for it, with what both use.
///
/// # Errors
///
/// Out of memory.
pub fn push_arrow_line(
    alloc: Global,
    text: &mut Vec<u8>,
    trace: &Recording,
    earlier: u32,
    place: usize,
    item: &Item,
) -> Result<(), AllocError>
    ensures { OnOk result (text.new.items ≡ text.old.items
        ++ arrow_line trace.now earlier place (item_meant item.now)) }
{
    let mut name = Vec::new(alloc);
    push_item(&mut name, trace, item)?;
    let head = format!(in alloc; "  {earlier} -> {place} [label=\"")?;
    push_bytes(text, head.as_bytes())?;
    push_quoted(text, name.as_slice())?;
    push_bytes(text, b"\"];\n")
}

/// A text inside quotation marks: those that it has, and backslashes, stand behind a backslash.
fn push_quoted(text: &mut Vec<u8>, item: &[u8]) -> Result<(), AllocError>
    ensures { OnOk result (text.new.items ≡ text.old.items ++ quoted item.now) }
{
    for byte in item {
        push_quoted_byte(text, *byte)?;
    }
    Ok(())
}

fn push_quoted_byte(text: &mut Vec<u8>, byte: u8) -> Result<(), AllocError>
    ensures { OnOk result (text.new.items ≡ text.old.items ++ quoted_byte byte) }
{
    if byte == b'"' || byte == b'\\' {
        push_bytes(text, &[b'\\', byte])
    } else {
        text.push(byte)?;
        Ok(())
    }
}
