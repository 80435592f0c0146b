//! A report that is written while its trace is read, where that is of version 3.
ghost use Rattle.std.specs.Prelude.{◌≡◌, ◌+◌, ◌-◌, ◌^◌, ◌<◌, false, None, IfErr, IfOk};
ghost use Rattle.report_stream.specs.Steps.{reads_of, writes_of};
ghost use Rattle.program_words.specs.Limits.{IsServed};
ghost use Rattle.replay_program.specs.Runs.{TakesTrace, read_failures, reads_failed};
ghost use Rattle.replay_program.specs.Runs.{write_failures, writes_failed};
ghost use Rattle.replay_program.specs.Taking.{IsReportOf, TellsOfReport};
ghost use Rattle.replay_program.specs.Streaming.{IsStreamed, ReportUpTo, WritesReportUpTo, report_told};

use crate::fault::RunFault;
use crate::recordings::{Taken, recording_of_whole, taken_text};
use crate::session::{no_memory, output_in_rounds, written_pieces};
use byte_transfer::{Sink, Source};
use json_lines::Form;
use program_words::{Mode, Options};
use replay_report::Pieces;
use report_stream::{Asked, ReportFault, write_report};
use std::alloc::Global;
use std::sync::Wait;
use std::thread::Threads;

/// Reads the trace and writes its report, as text or as objects. Of version 3 each record is run as
/// it comes, and its lines are written before more is read, in the memory of the world and one
/// record. One of version 1 or 2 is run as the options say, and nothing is written before the whole
/// report is there.
///
/// One of version 3 that is cut off is taken as one that ends behind its last whole record, where it
/// may be cut off. The answer is at which byte that ends, and none where the trace is whole.
///
/// # Errors
///
/// Trace where the input is none: of version 3 behind the lines of the records before the fault.
/// Replay when out of memory or threads, Read and Write at a call that failed.
pub fn run_report<T: Threads + Wait + Sync, R: Source, W: Sink>(
    rt: &T,
    alloc: Global,
    reader: &mut R,
    writer: &mut W,
    options: &Options,
    form: Form,
    may_be_cut: bool,
) -> Result<Option<u64>, RunFault>
    requires mode { IsServed options.now.mode }
    requires streamed { IsStreamed options.now.mode }
    requires reader { R.failures reader.old < 2 ^ 64 - 1 }
    requires writer { W.failures writer.old < 2 ^ 64 - 1 }

    // The report is the one of the trace that the reader's bytes spell, in the form.
    ensures done { IfOk result (λ cut. WritesReportUpTo cut options.now.shown form
        (R.left reader.old) (R.left reader.new) (W.written writer.old) (W.written writer.new)) }
    ensures whole { may_be_cut ≡ false → IfOk result (λ cut. cut ≡ None) }
    ensures fault { IfErr result (ReportUpTo may_be_cut options.now.shown form
        (R.left reader.old) (R.left reader.new) (W.written writer.old) (W.written writer.new)) }

    ensures taken { TakesTrace (R.left reader.old) (R.left reader.new) }
    ensures read { R.failures reader.new ≡ R.failures reader.old + read_failures result }
    ensures write { W.failures writer.new ≡ W.failures writer.old + write_failures result }
{
    match taken_text(alloc, reader)? {
        Taken::Head(head) => match write_report(
            rt,
            alloc,
            head,
            reader,
            writer,
            asked_of(options, form, may_be_cut),
        ) {
            Ok(cut) => Ok(cut),
            Err(fault) => Err(report_told(fault)),
        },
        Taken::Whole(text) => {
            let report = report_of_whole(rt, alloc, text, options, form)?;
            written_pieces(writer, &report)?;
            Ok(None)
        }
    }
}

/// What the options ask of a report. One that is made in recorded order has one thread.
fn asked_of(options: &Options, form: Form, may_be_cut: bool) -> Asked
    ensures shown { result.shown ≡ options.now.shown }
    ensures form { result.form ≡ form }
    ensures cut { result.may_be_cut ≡ may_be_cut }
{
    let workers = match options.mode {
        Mode::Run { workers, .. } => workers,
        _ => 1,
    };
    Asked {
        shown: options.shown,
        form,
        workers,
        may_be_cut,
    }
}

/// The report of a text of version 1 or 2, in the form.
fn report_of_whole<T: Threads + Wait + Sync>(
    rt: &T,
    alloc: Global,
    text: Vec<u8>,
    options: &Options,
    form: Form,
) -> Result<Pieces, RunFault>
    requires mode { IsServed options.now.mode }
    requires streamed { IsStreamed options.now.mode }
    ensures ok { IfOk result (IsReportOf text.items options.now.shown form) }
    ensures err { IfErr result (TellsOfReport text.items) }
    ensures read { read_failures result ≡ 0 }
    ensures write { write_failures result ≡ 0 }
{
    let trace = recording_of_whole(alloc, text)?;
    output_in_rounds(rt, alloc, &trace, options, form)
}

/// How the program tells of a report that was not written whole.
fn report_told(fault: ReportFault) -> RunFault
    ensures told { result ≡ report_told fault }
    ensures reads { reads_failed result ≡ reads_of fault }
    ensures writes { writes_failed result ≡ writes_of fault }
{
    match fault {
        ReportFault::Trace(fault) => RunFault::Trace(fault),
        ReportFault::Memory => RunFault::Trace(no_memory()),
        ReportFault::Read => RunFault::Read,
        ReportFault::Write => RunFault::Write,
    }
}
