//! What a comparison says of replayers of two traces, and the lines of that.
ghost use Rattle.recording.specs.Accepted.{IsAccepted};

use crate::examples::READ_FOUR_BYTES;
use crate::text::recording_of;
use recording::Recording;
use replay_core::{InOrder, InRounds, Verdict, compared_by};
use replay_program::{FromStd, RunFault, told};
use std::alloc::Global;
use std::process::Abort;
use std::sync::Wait;
use std::test::Fail;
use std::thread::Threads;

/// Where the length of the one entry of the example stands, and where a second item of its tree and
/// the number of its items would.
const LENGTH: usize = 133;

const ITEMS: usize = 12;

const ITEMS_END: usize = 59;

/// The bytes of the example, which reads four bytes.
fn four_bytes(alloc: Global) -> Result<Vec<u8>, Fail> {
    Ok(hex::decode(alloc, READ_FOUR_BYTES.trace)?)
}

/// The example, with a read of three bytes.
fn three_bytes(alloc: Global) -> Result<Vec<u8>, Fail> {
    let mut text = four_bytes(alloc)?;
    if text.len() > LENGTH {
        text[LENGTH] = 3;
    }
    Ok(text)
}

/// The example, with an empty file `/b` besides.
fn one_file_more(alloc: Global) -> Result<Vec<u8>, Fail> {
    let mut text = four_bytes(alloc)?;
    if text.len() > ITEMS {
        text[ITEMS] = 2;
    }
    let front = text.as_slice().get(..ITEMS_END).ok_or("the items")?;
    let behind = text.as_slice().get(ITEMS_END..).ok_or("what follows")?;
    let mut more = Vec::from_slice(alloc, front)?;
    more.extend_from_slice(b"\x02\x02\0/b\0\0\0\0\0\0\0\0\0\0\0\0")?;
    more.extend_from_slice(behind)?;
    Ok(more)
}

/// How the replay in order of one trace compares with that in rounds of another, and what is written
/// of it.
fn line_of<R: Abort + AllocGlobal + Threads + Wait + Sync>(
    rt: &R,
    one: &Recording,
    other: &Recording,
    line: &str,
) -> Verdict
    requires one { IsAccepted one.now }
    requires other { IsAccepted other.now }
{
    let alloc = rt.alloc();
    let first = InOrder { trace: one };
    let second = InRounds {
        trace: other,
        workers: 2,
        window: 4,
        eager: true,
    };
    let verdict = compared_by(rt, alloc, &first, &second, 2).expect(rt, "a verdict");
    let mut writer = FromStd::new(Vec::new(alloc));
    let done = told(alloc, &mut writer, verdict);
    assert_eq!(rt; done.is_ok(), verdict == Verdict::Equal);
    assert!(rt; matches!(done, Ok(()) | Err(RunFault::Different)));
    assert_eq!(rt; writer.stream.as_slice(), line.as_bytes());
    verdict
}

#[test]
fn compares_replays_of_two_traces(rt: HostRuntime) -> Result<(), Fail> {
    let alloc = rt.alloc();
    let four = recording_of(alloc, four_bytes(alloc)?)?;
    let three = recording_of(alloc, three_bytes(alloc)?)?;
    let more = recording_of(alloc, one_file_more(alloc)?)?;
    assert_eq!(rt; line_of(&rt, &four, &four, "equal\n"), Verdict::Equal);
    assert_eq!(rt;
        line_of(&rt, &four, &three, "different reply 0\n"),
        Verdict::Reply(0)
    );
    assert_eq!(rt;
        line_of(&rt, &four, &more, "different world\n"),
        Verdict::World
    );
    Ok(())
}
