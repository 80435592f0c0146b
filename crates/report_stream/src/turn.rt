//! One turn of a report: the next record runs, and its lines come behind those that wait.
ghost use Rattle.std.specs.Prelude.{◌≡◌, ◌+◌, ◌-◌, ◌<◌, ◌^◌, [], ◌∷◌, ◌++◌, ℕ, IfErr, IfOk, List};
ghost use Rattle.std.specs.Prelude.{Bool, Option};
ghost use Rattle.byte_transfer.specs.Transfer.{Takes};
ghost use Rattle.recording.specs.Fronts.{IsSpelledFront};
ghost use Rattle.recording.specs.Steps.{places};
ghost use Rattle.replay_stream.specs.Replayed.{HasRun, HasRunNext, MayRun};
ghost use Rattle.report_stream.specs.Steps.{AddsLines, GoesTo, IsNotShort, IsOn, IsUnderWay};
ghost use Rattle.report_stream.specs.Steps.{RanLast, StopsAt, UnderWay};
ghost use Rattle.report_stream.specs.Steps.{reads_failed, reads_of, writes_failed, writes_of};
ghost use Rattle.report_stream.specs.Written.{IsTextTo, WritesUpTo};
ghost use Rattle.trace_records.specs.declared.record.Record as three;
ghost use Rattle.trace_records.specs.declared.start.Start as three_start;

use crate::ending::Asked;
use crate::fault::ReportFault;
use crate::lines::push_lines;
use crate::pending::{flush, next_record};
use byte_transfer::{Sink, Source};
use replay_stream::Replaying;
use std::alloc::{AllocError, Global};
use trace_format::{Kind, TraceFault};
use trace_records::Record;
use trace_stream::Stream;

/// So many bytes of lines are written at once, where more are read without a wait.
const FULL: usize = 65_536;

/// What there is beside the replay: the records to come, and the lines that are not written yet.
#[derive(Drop)]
pub(crate) struct Pending {
    pub stream: Stream,
    pub text: Vec<u8>,
}

/// The replay after a turn.
#[derive(Drop)]
pub(crate) enum Turn {
    /// A record more has run.
    Next(Box<Replaying>),
    /// There was none.
    Last(Box<Replaying>),
    /// The bytes end behind the records so far, at this byte, or within the next one, with this
    /// fault.
    Cut(Box<Replaying>, u64, TraceFault),
}

/// Runs the next record.
fn run_next(
    alloc: Global,
    replaying: Box<Replaying>,
    next: Record,
) -> Result<Box<Replaying>, AllocError>
    requires { MayRun replaying.value next }
    ensures { (b : three_start.Start) (front : List three.Record)
        → HasRun b front replaying.value → IsSpelledFront b (front ++ next ∷ [])
        → IfOk result (λ q. HasRunNext b front next q.value) }
{
    let ran = Box::into_inner(replaying).next(alloc, next)?;
    match Box::new(alloc, ran) {
        Ok(ran) => Ok(ran),
        Err(_) => Err(AllocError),
    }
}

/// Adds the lines of the record that has just run, and writes a text that is full.
fn tell<W: Sink>(
    alloc: Global,
    writer: &mut W,
    text: &mut Vec<u8>,
    replaying: &Replaying,
    asked: Asked,
) -> Result<(), ReportFault>
    requires ran { RanLast replaying.now }
    requires writer { W.failures writer.old < 2 ^ 64 - 1 }
    ensures ok { (b : three_start.Start) → (front : List three.Record) → (r : three.Record)
        → (before : List ℕ) → HasRunNext b front r replaying.now
        → IsTextTo b (front ++ r ∷ []) asked.shown replaying.now.first (before ++ text.old.items)
        → AddsLines result b (front ++ r ∷ []) asked.shown asked.form
        (places replaying.now.recording) (W.written writer.old) (W.written writer.new)
        before text.new.items }
    ensures reads { reads_failed result ≡ 0 }
    ensures writes { W.failures writer.new ≡ W.failures writer.old + writes_failed result }
{
    push_lines(text, replaying, asked.shown)?;
    if text.len() >= FULL {
        flush(alloc, writer, asked.form, text)?;
    }
    Ok(())
}

/// The turn of a fault: the bytes end before the trace does, or else the turn fails.
fn stopped(replaying: Box<Replaying>, at: u64, fault: ReportFault) -> Result<Turn, ReportFault>
    ensures ok { IfOk result (StopsAt replaying.value at fault) }
    ensures err { IfErr result (λ e. (e ≡ fault) × IsNotShort fault) }
    ensures reads { reads_failed result ≡ reads_of fault }
    ensures writes { writes_failed result ≡ writes_of fault }
{
    match fault {
        ReportFault::Trace(cut) if cut.kind == Kind::Short => Ok(Turn::Cut(replaying, at, cut)),
        _ => Err(fault),
    }
}

/// Runs the next record and adds its lines. The lines that wait are written before the reader is
/// asked for more bytes.
pub(crate) fn take_turn<R: Source, W: Sink>(
    alloc: Global,
    pending: &mut Pending,
    replaying: Box<Replaying>,
    reader: &mut R,
    writer: &mut W,
    asked: Asked,
) -> Result<Turn, ReportFault>
    requires under_way { IsUnderWay (R.left reader.old) (W.written writer.old) pending.old.stream
        replaying.value pending.old.text.items asked.shown asked.form }
    requires reader { R.failures reader.old < 2 ^ 64 - 1 }
    requires writer { W.failures writer.old < 2 ^ 64 - 1 }
    ensures ok { (ahead : List ℕ) (a w : Option (List ℕ)) → UnderWay ahead a (R.left reader.old) w
        (W.written writer.old) pending.old.stream replaying.value pending.old.text.items
        asked.shown asked.form
        → IfOk result (GoesTo ahead a (R.left reader.new) w (W.written writer.new)
        pending.new.stream pending.new.text.items asked.shown asked.form) }
    ensures err { (ahead : List ℕ) (a w : Option (List ℕ)) → UnderWay ahead a (R.left reader.old) w
        (W.written writer.old) pending.old.stream replaying.value pending.old.text.items
        asked.shown asked.form
        → (may_be_cut : Bool) → IfErr result
        (WritesUpTo may_be_cut ahead asked.shown asked.form a (R.left reader.new) w (W.written writer.new)) }
    ensures on { IfOk result (IsOn pending.old.stream pending.new.stream) }
    ensures taken { Takes (R.left reader.old) (R.left reader.new) }
    ensures reads { R.failures reader.new ≡ R.failures reader.old + reads_failed result }
    ensures writes { W.failures writer.new ≡ W.failures writer.old + writes_failed result }
{
    let at = pending.stream.place();
    let found = next_record(
        alloc,
        &mut pending.stream,
        reader,
        writer,
        asked.form,
        &mut pending.text,
    );
    let found = match found {
        Ok(found) => found,
        Err(fault) => return stopped(replaying, at, fault),
    };
    let Some(next) = found else {
        return Ok(Turn::Last(replaying));
    };
    let mut replaying = run_next(alloc, replaying, next)?;
    tell(alloc, writer, &mut pending.text, &replaying, asked)?;
    replaying.let_go(alloc);
    Ok(Turn::Next(replaying))
}
