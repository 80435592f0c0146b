//! A report that is written while its trace is read.
ghost use Rattle.std.specs.Prelude.{◌≡◌, ◌+◌, ◌-◌, ◌<◌, ◌^◌, [], false, None, IfErr, IfOk};
ghost use Rattle.byte_transfer.specs.Transfer.{Takes};
ghost use Rattle.recording.specs.Fronts.{IsSpelledFront};
ghost use Rattle.replay_stream.specs.Replayed.{HasRun};
ghost use Rattle.report_stream.specs.Steps.{reads_failed, writes_failed};
ghost use Rattle.report_stream.specs.Written.{Writes, WritesUpTo};

use crate::ending::{Asked, end_at_cut, write_end};
use crate::fault::{ReportFault, told_of};
use crate::lines::lines_in;
use crate::turn::{Pending, Turn, take_turn};
use byte_transfer::{Sink, Source};
use replay_stream::Replaying;
use std::alloc::{AllocError, Global};
use std::mem;
use std::thread::Threads;
use trace_records::Start;
use trace_stream::Stream;

/// Writes the report of the trace of version 3 whose first bytes were read ahead, and whose others
/// the reader has left, as text or as objects. The lines of a record are written before the reader
/// is asked for the bytes behind it. The answer is at which byte the trace is cut off, where that
/// may be, and none where it is whole.
///
/// # Errors
///
/// Trace with the first fault of the trace, behind the first line and the lines of all whole
/// records before it; Memory, Read and Write behind a beginning of what was to be written. Behind a
/// start, bytes that end too early are no fault where they may be cut off.
pub fn write_report<T: Threads + Sync, R: Source, W: Sink>(
    rt: &T,
    alloc: Global,
    ahead: Vec<u8>,
    reader: &mut R,
    writer: &mut W,
    asked: Asked,
) -> Result<Option<u64>, ReportFault>
    requires reader { R.failures reader.old < 2 ^ 64 - 1 }
    requires writer { W.failures writer.old < 2 ^ 64 - 1 }
    ensures ok { IfOk result (λ cut. Writes cut ahead.items asked.shown asked.form
        (R.left reader.old) (R.left reader.new) (W.written writer.old) (W.written writer.new)) }
    ensures whole { asked.may_be_cut ≡ false → IfOk result (λ cut. cut ≡ None) }
    ensures err { IfErr result (WritesUpTo asked.may_be_cut ahead.items asked.shown asked.form
        (R.left reader.old) (R.left reader.new) (W.written writer.old) (W.written writer.new)) }
    ensures taken { Takes (R.left reader.old) (R.left reader.new) }
    ensures reads { R.failures reader.new ≡ R.failures reader.old + reads_failed result }
    ensures writes { W.failures writer.new ≡ W.failures writer.old + writes_failed result }
{
    let (start, stream) = match Stream::open(alloc, ahead, reader) {
        Ok(opened) => opened,
        Err(fault) => return Err(told_of(fault)),
    };
    let mut pending = Pending {
        stream,
        text: Vec::from_slice(alloc, lines_in(asked.shown).title().as_bytes())?,
    };
    let mut replaying = begun(alloc, start)?;
    loop {
        match take_turn(alloc, &mut pending, replaying, reader, writer, asked)? {
            Turn::Next(next) => replaying = next,
            Turn::Last(last) => {
                let ended = write_end(rt, alloc, &mut pending.text, &last, writer, asked);
                // The program ends behind its report, and the system takes the world back.
                mem::forget(last);
                return ended;
            }
            Turn::Cut(front, at, fault) => {
                return end_at_cut(rt, alloc, &front, (at, fault), writer, asked);
            }
        }
    }
}

/// The replay of a start, in a box: its owners let it go in one step.
fn begun(alloc: Global, start: Start) -> Result<Box<Replaying>, AllocError>
    requires { IsSpelledFront start [] }
    ensures { IfOk result (λ p. HasRun start [] p.value) }
{
    let replaying = Replaying::of_start(alloc, start)?;
    match Box::new(alloc, replaying) {
        Ok(replaying) => Ok(replaying),
        Err(_) => Err(AllocError),
    }
}
