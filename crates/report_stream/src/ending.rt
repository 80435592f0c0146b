//! The end of a report.
ghost use Rattle.std.specs.Prelude.{◌≡◌, ◌+◌, ◌-◌, ◌<◌, ◌^◌, ◌++◌, ℕ, false, None, IfErr, IfOk};
ghost use Rattle.std.specs.Prelude.{List, OnOk, Option};
ghost use Rattle.std.specs.Io.KnownBytes.{Appends};
ghost use Rattle.json_lines.specs.Forms.{written_as};
ghost use Rattle.replay_report.specs.InOrder.{last_lines};
ghost use Rattle.report_stream.specs.Steps.{AtCut, EndsEarly, reads_failed, writes_failed};
ghost use Rattle.report_stream.specs.Written.{Writes, WritesUpTo};

use crate::fault::ReportFault;
use crate::pending::flush;
use byte_transfer::Sink;
use json_lines::Form;
use replay_report::{Shown, last_lines};
use replay_stream::Replaying;
use std::alloc::Global;
use std::thread::Threads;
use trace_format::TraceFault;

/// What a report shows, in which form it is written, on how many threads at most its sums are made,
/// and whether its trace may be cut off.
#[derive(Clone, Copy, Debug)]
pub struct Asked {
    pub shown: Shown,
    pub form: Form,
    pub workers: u32,
    /// Bytes that end behind the start, but before the trace does, are taken as a trace that ends
    /// behind their last whole record.
    pub may_be_cut: bool,
}

/// Writes what a report shows behind the lines of entries.
fn write_last<T: Threads + Sync, W: Sink>(
    rt: &T,
    alloc: Global,
    replaying: &Replaying,
    writer: &mut W,
    asked: Asked,
) -> Result<(), ReportFault>
    requires { W.failures writer.old < 2 ^ 64 - 1 }
    ensures ok { OnOk result (Appends (W.written writer.old) (W.written writer.new)
        (written_as asked.form
        (last_lines replaying.now.recording replaying.now.state asked.shown))) }
    ensures err { IfErr result (EndsEarly (W.written writer.old) (W.written writer.new)
        (written_as asked.form
        (last_lines replaying.now.recording replaying.now.state asked.shown))) }
    ensures reads { reads_failed result ≡ 0 }
    ensures writes { W.failures writer.new ≡ W.failures writer.old + writes_failed result }
{
    let Replaying {
        recording,
        state,
        ..
    } = replaying;
    let mut last = last_lines(rt, alloc, recording, state, asked.shown, asked.workers)?;
    flush(alloc, writer, asked.form, &mut last)
}

/// Writes the lines that wait, and what a report shows behind them. Its trace is not cut off.
pub(crate) fn write_end<T: Threads + Sync, W: Sink>(
    rt: &T,
    alloc: Global,
    text: &mut Vec<u8>,
    replaying: &Replaying,
    writer: &mut W,
    asked: Asked,
) -> Result<Option<u64>, ReportFault>
    requires { W.failures writer.old < 2 ^ 64 - 1 }
    ensures ok { OnOk result (Appends (W.written writer.old) (W.written writer.new)
        (written_as asked.form text.old.items ++ written_as asked.form
        (last_lines replaying.now.recording replaying.now.state asked.shown))) }
    ensures err { IfErr result (EndsEarly (W.written writer.old) (W.written writer.new)
        (written_as asked.form text.old.items ++ written_as asked.form
        (last_lines replaying.now.recording replaying.now.state asked.shown))) }
    ensures whole { IfOk result (λ cut. cut ≡ None) }
    ensures reads { reads_failed result ≡ 0 }
    ensures writes { W.failures writer.new ≡ W.failures writer.old + writes_failed result }
{
    flush(alloc, writer, asked.form, text)?;
    write_last(rt, alloc, replaying, writer, asked)?;
    Ok(None)
}

/// Ends a report whose trace is cut off at this byte, with this fault: behind the lines of the
/// records before it, where that may be, else by the fault.
pub(crate) fn end_at_cut<T: Threads + Sync, W: Sink>(
    rt: &T,
    alloc: Global,
    front: &Replaying,
    cut: (u64, TraceFault),
    writer: &mut W,
    asked: Asked,
) -> Result<Option<u64>, ReportFault>
    requires { W.failures writer.old < 2 ^ 64 - 1 }
    ensures ok { (ahead : List ℕ) (a c w : Option (List ℕ))
        → AtCut ahead a c w (W.written writer.old) front.now asked.shown asked.form
        cut.0 cut.1
        → IfOk result (λ at. Writes at ahead asked.shown asked.form a c w
        (W.written writer.new)) }
    ensures err { (ahead : List ℕ) (a c w : Option (List ℕ))
        → AtCut ahead a c w (W.written writer.old) front.now asked.shown asked.form
        cut.0 cut.1
        → IfErr result (WritesUpTo asked.may_be_cut ahead asked.shown asked.form a c w
        (W.written writer.new)) }
    ensures whole { asked.may_be_cut ≡ false → IfOk result (λ at. at ≡ None) }
    ensures reads { reads_failed result ≡ 0 }
    ensures writes { W.failures writer.new ≡ W.failures writer.old + writes_failed result }
{
    let (at, fault) = cut;
    if !asked.may_be_cut {
        return Err(ReportFault::Trace(fault));
    }
    write_last(rt, alloc, front, writer, asked)?;
    Ok(Some(at))
}
