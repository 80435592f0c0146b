//! The lines that are not written yet.
ghost use Rattle.std.specs.Prelude.{◌≡◌, ◌+◌, ◌-◌, ◌<◌, ◌^◌, [], IfErr, IfOk, IfSome, OnOk};
ghost use Rattle.std.specs.Io.KnownBytes.{Appends};
ghost use Rattle.byte_transfer.specs.Transfer.{Takes};
ghost use Rattle.json_lines.specs.Forms.{written_as};
ghost use Rattle.trace_stream.specs.Streams.{Gives};
ghost use Rattle.report_stream.specs.Steps.{IsNotWritten, Moves, StopsWith};
ghost use Rattle.report_stream.specs.Steps.{reads_failed, writes_failed};

use crate::fault::{ReportFault, told_of};
use byte_transfer::{Sink, Source};
use json_lines::{Form, WriteFault, write_as};
use std::alloc::Global;
use trace_records::Record;
use trace_stream::Stream;

/// Writes the text in the form that is asked for, and leaves none.
pub(crate) fn flush<W: Sink>(
    alloc: Global,
    writer: &mut W,
    form: Form,
    text: &mut Vec<u8>,
) -> Result<(), ReportFault>
    requires { W.failures writer.old < 2 ^ 64 - 1 }
    ensures ok { OnOk result (Appends (W.written writer.old) (W.written writer.new)
        (written_as form text.old.items)) }
    ensures empty { OnOk result (text.new.items ≡ []) }
    ensures err { IfErr result (IsNotWritten (W.written writer.old) (W.written writer.new)
        (written_as form text.old.items)) }
    ensures reads { reads_failed result ≡ 0 }
    ensures writes { W.failures writer.new ≡ W.failures writer.old + writes_failed result }
{
    match write_as(alloc, text.as_slice(), writer, form) {
        Ok(()) => {
            text.clear();
            Ok(())
        }
        Err(WriteFault::Memory) => Err(ReportFault::Memory),
        Err(WriteFault::Write) => Err(ReportFault::Write),
    }
}

/// The next record. The text is written before more is read, so that no line waits for bytes.
pub(crate) fn next_record<R: Source, W: Sink>(
    alloc: Global,
    stream: &mut Stream,
    reader: &mut R,
    writer: &mut W,
    form: Form,
    text: &mut Vec<u8>,
) -> Result<Option<Record>, ReportFault>
    requires reader { R.failures reader.old < 2 ^ 64 - 1 }
    requires writer { W.failures writer.old < 2 ^ 64 - 1 }
    ensures ok { IfOk result
        (Gives (R.left reader.old) (R.left reader.new) stream.old stream.new) }
    ensures moves { IfOk result (λ _. Moves form
        (W.written writer.old) (W.written writer.new) text.old.items text.new.items) }
    ensures err { IfErr result (StopsWith form (R.left reader.old) (R.left reader.new)
        (W.written writer.old) (W.written writer.new) stream.old text.old.items) }
    ensures on { IfOk result (λ x. IfSome x (λ _. (stream.old.held.place < stream.new.held.place)
        × (stream.new.held.place < 2 ^ 63))) }
    ensures taken { Takes (R.left reader.old) (R.left reader.new) }
    ensures reads { R.failures reader.new ≡ R.failures reader.old + reads_failed result }
    ensures writes { W.failures writer.new ≡ W.failures writer.old + writes_failed result }
{
    match stream.next_held(alloc) {
        Ok(Some(record)) => return Ok(Some(record)),
        Ok(None) => flush(alloc, writer, form, text)?,
        Err(fault) => {
            flush(alloc, writer, form, text)?;
            return Err(told_of(fault));
        }
    }
    match stream.next(alloc, reader) {
        Ok(record) => Ok(record),
        Err(fault) => Err(told_of(fault)),
    }
}
