//! Recordings of traces of version 1 and 2.
ghost use Rattle.std.specs.Prelude.{◌≡◌, ◌≤◌, length, map, IfOk};
ghost use Rattle.recording.specs.Whole as meant;
ghost use Rattle.trace_format.specs.Text.{IsSpelled};

use crate::recording::{Recording, Ring};
use crate::steps::Steps;
use std::alloc::{AllocError, Global};
use trace_format::{Series, Trace};
use trace_records::{Item, Node, Range};

/// What an initial name leads to: the stored bytes of a file are its first.
fn node_of(alloc: Global, node: trace_format::Node) -> Result<Node, AllocError>
    ensures { IfOk result (λ n. n ≡ meant.node_of node) }
{
    match node {
        trace_format::Node::Directory => Ok(Node::Directory),
        trace_format::Node::File { size, stored } => {
            let mut ranges = Vec::with_capacity(alloc, 1)?;
            ranges.push(Range {
                offset: 0,
                bytes: stored,
            })?;
            Ok(Node::File {
                size,
                ranges: Series::from_vec(ranges),
            })
        }
        trace_format::Node::OtherName { number } => Ok(Node::OtherName { number }),
    }
}

/// The initial names.
fn items_of(alloc: Global, items: Vec<trace_format::Item>) -> Result<Vec<Item>, AllocError>
    ensures { IfOk result (λ v. v.items ≡ map meant.item_of items.items) }
{
    let mut made = Vec::with_capacity(alloc, items.len())?;
    for item in items {
        let node = node_of(alloc, item.node)?;
        made.push(Item {
            path: item.path,
            node,
        })?;
    }
    Ok(made)
}

/// The rings, each with a queue of its own.
fn rings_of(alloc: Global, rings: Vec<trace_format::Ring>) -> Result<Vec<Ring>, AllocError>
    requires { length rings.items ≤ 64 }
    ensures { IfOk result (λ v. v.items ≡ meant.rings_from 0 rings.items) }
{
    let mut made = Vec::with_capacity(alloc, rings.len())?;
    for ring in rings {
        let queue = made.len() as u32;
        made.push(Ring {
            slots: ring.slots,
            spare: 0,
            buffers: ring.buffers,
            queue,
            ended: false,
        })?;
    }
    Ok(made)
}

impl Recording {
    /// The recording of a trace of version 1 or 2. Its records stay as they lie.
    ///
    /// # Errors
    ///
    /// Out of memory.
    pub fn of_whole(alloc: Global, trace: Trace) -> Result<Self, AllocError>
        requires { IsSpelled trace }
        ensures { IfOk result (λ r. r ≡ meant.of_whole trace) }
    {
        let items = items_of(alloc, trace.items.into_vec())?;
        let rings = rings_of(alloc, trace.rings.into_vec())?;
        Ok(Recording {
            version: trace.version,
            in_place_order: false,
            items: Series::from_vec(items),
            descriptions: trace.descriptions,
            descriptors: trace.descriptors,
            rings: Series::from_vec(rings),
            steps: Steps::of_whole(alloc, trace.records),
        })
    }
}
