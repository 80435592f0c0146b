//! Replays of what traces of version 3 record, in order and on four workers: rings whose slots get
//! what others hold, a queue that goes on in a later ring, and a file of ranges.
ghost use Rattle.std.specs.Prelude.{IfOk};
ghost use Rattle.recording.specs.Accepted.{IsAccepted};

use crate::rounds::compared_with;
use crate::text::{Submitted, nop, read};
use op_meaning::Replies;
use recording::Recording;
use replay_core::parallel::replay;
use replay_core::{EagerGate, ReplayFault, Verdict, replay_serial};
use sqe_codec::IO_DRAIN;
use std::alloc::{AllocError, Global};
use std::sync::Wait;
use std::test::Fail;
use std::thread::Threads;
use trace_format::{Access, Blob, Description, Series};
use trace_records::{
    Beside, Descriptor, Entry, FullSlot, Holder, Item, Node, Range, Record, Ring, Start, Trace,
    read_trace, write_trace,
};

/// The offset of a read that starts at the position of its description.
const HERE: u64 = u64::MAX;

/// Bytes of a file, from an offset on.
fn range(alloc: Global, offset: u64, bytes: &[u8]) -> Result<Range, AllocError> {
    Ok(Range {
        offset,
        bytes: Blob::from_vec(alloc, Vec::from_slice(alloc, bytes)?)?,
    })
}

/// A file of ten bytes at a path, that has these ranges.
fn file(alloc: Global, path: &[u8], ranges: Vec<Range>) -> Result<Item, AllocError> {
    Ok(Item {
        path: Blob::from_vec(alloc, Vec::from_slice(alloc, path)?)?,
        node: Node::File {
            size: 10,
            ranges: Series::from_vec(ranges),
        },
    })
}

/// The file `/a`, whose bytes stand in one range.
fn whole_file(alloc: Global) -> Result<Item, AllocError> {
    file(
        alloc,
        b"/a",
        vec![in alloc; range(alloc, 0, b"0123456789")?]?,
    )
}

/// The file `/b`, whose bytes stand in two ranges, with holes before, between and behind them.
fn file_with_holes(alloc: Global) -> Result<Item, AllocError> {
    let mut ranges = Vec::with_capacity(alloc, 2)?;
    ranges.push(range(alloc, 1, b"ab")?)?;
    ranges.push(range(alloc, 6, b"xyz")?)?;
    file(alloc, b"/b", ranges)
}

/// A file that is open to read and write.
fn description(node: u32) -> Description {
    Description {
        node,
        access: Access::Both,
        append: false,
        position: 0,
    }
}

/// Both files, each open by the description of its index. The second one is held by descriptor 1 of
/// two.
fn start(alloc: Global) -> Result<Start, AllocError> {
    let mut items = Vec::with_capacity(alloc, 2)?;
    items.push(whole_file(alloc)?)?;
    items.push(file_with_holes(alloc)?)?;
    let held = Descriptor {
        number: 1,
        description: 1,
    };
    let descriptions = Vec::from_slice(alloc, &[description(1), description(2)])?;
    Ok(Start {
        items: Series::from_vec(items),
        descriptions: Series::from_vec(descriptions),
        table_size: 2,
        descriptors: Series::from_vec(Vec::from_slice(alloc, &[held])?),
    })
}

/// A new ring of four slots, with its queue and its slots that are not empty.
fn new_ring(alloc: Global, queue: Option<u32>, full: &[FullSlot]) -> Result<Record, AllocError> {
    Ok(Record::RingStarts {
        ring: Ring {
            queue,
            slots: 4,
            full: Series::from_vec(Vec::from_slice(alloc, full)?),
            buffers: Series::from_vec(Vec::new(alloc)),
        },
    })
}

fn slot(number: u32, holds: Holder) -> FullSlot {
    FullSlot { number, holds }
}

/// An entry of a ring, in a record of its own.
fn enter(alloc: Global, ring: u32, submitted: Submitted<'_>) -> Result<Record, AllocError> {
    let bytes = Blob::from_vec(alloc, Vec::from_slice(alloc, submitted.side)?)?;
    let entry = Entry {
        sqe: submitted.sqe,
        beside: Beside::Stored { bytes },
    };
    Ok(Record::Enter {
        ring,
        entries: Series::from_vec(vec![in alloc; entry]?),
    })
}

/// What is recorded by a text of version 3.
fn recording_in(alloc: Global, text: &[u8]) -> Result<Box<Recording>, Fail>
    ensures { IfOk result (λ trace. IsAccepted trace.value) }
{
    let trace = read_trace(alloc, text)?;
    Ok(Box::new(alloc, Recording::of_records(alloc, trace)?)?)
}

/// What is recorded by that start and these records, once they are written and read again.
fn recorded(alloc: Global, records: Vec<Record>) -> Result<Box<Recording>, Fail>
    ensures { IfOk result (λ trace. IsAccepted trace.value) }
{
    let trace = Trace {
        start: start(alloc)?,
        records: Series::from_vec(records),
    };
    let text = write_trace(alloc, &trace)?;
    recording_in(alloc, text.as_slice())
}

/// What a place replies: its result, and its bytes.
#[derive(Clone, Copy)]
struct Wanted<'a> {
    res: i32,
    bytes: &'a [u8],
}

fn gives(bytes: &[u8; 3]) -> Wanted<'_> {
    Wanted { res: 3, bytes }
}

/// No result and no bytes, as a new ring and a NOP reply.
const NONE: Wanted<'static> = Wanted { res: 0, bytes: &[] };

fn are_replies(replies: &Replies, wanted: &[Wanted<'_>]) -> bool {
    if replies.len() != wanted.len() {
        return false;
    }
    for (place, reply) in wanted.iter().enumerate() {
        let there = replies.get(place);
        if there.res() != reply.res || there.front(16) != reply.bytes {
            return false;
        }
    }
    true
}

/// Whether the places reply so, one after another, and give the same world and replies on four
/// workers.
fn replies_on_workers<R: Threads + Wait + Sync>(
    rt: &R,
    alloc: Global,
    trace: &Recording,
    wanted: &[Wanted<'_>],
) -> Result<bool, ReplayFault>
    requires { IsAccepted trace.now }
{
    let serial = replay_serial(alloc, trace)?;
    let verdict = compared_with(rt, alloc, trace, 4, &EagerGate, &serial)?;
    Ok(verdict == Verdict::Equal && are_replies(&serial.replies, wanted))
}

/// A ring with the first file, of which three bytes are read, and a ring with what its slot, the
/// second descriptor, the first one and the first description hold, of which each slot is read.
fn copies(alloc: Global) -> Result<Vec<Record>, AllocError> {
    let first = slot(0, Holder::Description { number: 0 });
    let copied = [
        slot(0, Holder::Slot { ring: 0, number: 0 }),
        slot(1, Holder::Descriptor { number: 1 }),
        slot(2, Holder::Descriptor { number: 0 }),
        slot(3, Holder::Description { number: 0 }),
    ];
    let mut records = Vec::with_capacity(alloc, 7)?;
    records.push(new_ring(alloc, None, &[first])?)?;
    records.push(enter(alloc, 0, read(0, HERE, 3))?)?;
    records.push(new_ring(alloc, None, &copied)?)?;
    for number in 0..4 {
        records.push(enter(alloc, 1, read(number, HERE, 3))?)?;
    }
    Ok(records)
}

/// The slots that hold the first description share its position, and that of the empty descriptor is
/// empty.
#[test]
fn slots_get_what_others_hold(rt: HostRuntime) -> Result<(), Fail> {
    let trace = recorded(rt.alloc(), copies(rt.alloc())?)?;
    let bad_file = Wanted {
        res: -9,
        bytes: &[],
    };
    let wanted = [
        NONE,
        gives(b"012"),
        NONE,
        gives(b"345"),
        gives(b"\0ab"),
        bad_file,
        gives(b"678"),
    ];
    let done = replies_on_workers(&rt, rt.alloc(), &trace, &wanted);
    assert!(rt; matches!(done, Ok(true)));
    Ok(())
}

/// Two rings of one queue, the second with a NOP that drains and another one, and a ring with a queue
/// of its own that has a NOP.
fn queues(alloc: Global) -> Result<Vec<Record>, AllocError> {
    let mut records = Vec::with_capacity(alloc, 7)?;
    records.push(new_ring(alloc, None, &[])?)?;
    records.push(enter(alloc, 0, nop(0))?)?;
    records.push(new_ring(alloc, Some(0), &[])?)?;
    records.push(enter(alloc, 1, nop(IO_DRAIN))?)?;
    records.push(enter(alloc, 1, nop(0))?)?;
    records.push(new_ring(alloc, None, &[])?)?;
    records.push(enter(alloc, 2, nop(0))?)?;
    Ok(records)
}

/// Whether these are the rounds on four workers.
fn are_rounds<R: Threads + Wait + Sync>(
    rt: &R,
    alloc: Global,
    trace: &Recording,
    wanted: &[u32],
) -> Result<bool, ReplayFault>
    requires { IsAccepted trace.now }
{
    let replay = replay(rt, alloc, trace, 4, 64, &EagerGate)?;
    Ok(replay.rounds.as_slice() == wanted)
}

/// The drain waits for the places of the ring whose queue its own continues, and the place behind it
/// for the drain.
#[test]
fn a_drain_waits_for_all_rings_of_its_queue(rt: HostRuntime) -> Result<(), Fail> {
    let trace = recorded(rt.alloc(), queues(rt.alloc())?)?;
    let done = are_rounds(&rt, rt.alloc(), &trace, &[0, 0, 0, 1, 2, 0, 0]);
    assert!(rt; matches!(done, Ok(true)));
    let done = replies_on_workers(&rt, rt.alloc(), &trace, &[NONE; 7]);
    assert!(rt; matches!(done, Ok(true)));
    Ok(())
}

/// The second file is read whole.
fn holes(alloc: Global) -> Result<Vec<Record>, AllocError> {
    let opened = slot(0, Holder::Description { number: 1 });
    let mut records = Vec::with_capacity(alloc, 2)?;
    records.push(new_ring(alloc, None, &[opened])?)?;
    records.push(enter(alloc, 0, read(0, 0, 16))?)?;
    Ok(records)
}

#[test]
fn a_file_has_zeros_between_its_ranges(rt: HostRuntime) -> Result<(), Fail> {
    let trace = recorded(rt.alloc(), holes(rt.alloc())?)?;
    let all = Wanted {
        res: 10,
        bytes: b"\0ab\0\0\0xyz\0",
    };
    let done = replies_on_workers(&rt, rt.alloc(), &trace, &[NONE, all]);
    assert!(rt; matches!(done, Ok(true)));
    Ok(())
}
