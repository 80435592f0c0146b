//! One of the reports: the bytes that are held of it.
ghost use Rattle.std.specs.Prelude.{◌≡◌, ◌+◌, ◌-◌, ◌<◌, ◌^◌, [], IfErr, IfOk, OnOk, true};
ghost use Rattle.std.specs.Io.KnownBytes.{IsAtEnd};
ghost use Rattle.byte_transfer.specs.Transfer.{Takes};
ghost use Rattle.diff_stream.specs.Faults.{IsOutside, writes_failed};
ghost use Rattle.diff_stream.specs.Steps.{HasLine, LeavesAll, Moves, StopsAt};

use crate::fault::CompareFault;
use crate::held::Side;
use byte_transfer::{Sink, Source};
use json_lines::{Form, write_as};
use report_diff::Merging;
use std::alloc::Global;

/// Writes what was found and is not written yet.
pub(crate) fn write_found<W: Sink>(
    alloc: Global,
    merging: &mut Merging,
    writer: &mut W,
    form: Form,
) -> Result<(), CompareFault>
    requires { W.failures writer.old < 2 ^ 64 - 1 }
    ensures ok { OnOk result
        (Moves form merging.old merging.new (W.written writer.old) (W.written writer.new)) }
    ensures empty { OnOk result (merging.new.told.text.items ≡ []) }
    ensures err { IfErr result
        (λ _. StopsAt form merging.old (W.written writer.old) (W.written writer.new)) }
    ensures outside { IfErr result IsOutside }
    ensures failures { W.failures writer.new ≡ W.failures writer.old + writes_failed result }
{
    write_as(alloc, merging.text(), writer, form)?;
    merging.take();
    Ok(())
}

/// Whether a line of a report is held whole, or comes. What was found is written before the reader
/// is asked for more bytes, so that no line waits for them.
pub(crate) fn has_line<R: Source, W: Sink>(
    alloc: Global,
    side: &mut Side,
    reader: &mut R,
    merging: &mut Merging,
    writer: &mut W,
    form: Form,
) -> Result<bool, CompareFault>
    requires reader { R.failures reader.old < 2 ^ 64 - 1 }
    requires writer { W.failures writer.old < 2 ^ 64 - 1 }
    ensures line { IfOk result
        (λ some. HasLine some side.old side.new (R.left reader.old) (R.left reader.new)) }
    ensures moves { OnOk result
        (Moves form merging.old merging.new (W.written writer.old) (W.written writer.new)) }
    ensures err { IfErr result
        (λ _. StopsAt form merging.old (W.written writer.old) (W.written writer.new)) }
    ensures outside { IfErr result IsOutside }
    ensures taken { Takes (R.left reader.old) (R.left reader.new) }
    ensures reads { OnOk result (R.failures reader.new ≡ R.failures reader.old) }
    ensures writes { W.failures writer.new ≡ W.failures writer.old + writes_failed result }
{
    if side.lines.line().is_some() {
        return Ok(true);
    }
    if side.ended {
        return Ok(false);
    }
    write_found(alloc, merging, writer, form)?;
    if side.lines.read_line(alloc, reader)? {
        return Ok(true);
    }
    side.ended = true;
    Ok(false)
}

/// All that is left of a report.
pub(crate) fn rest_of<R: Source>(
    alloc: Global,
    side: Side,
    reader: &mut R,
) -> Result<Vec<u8>, CompareFault>
    requires { R.failures reader.old < 2 ^ 64 - 1 }
    ensures ok { (side.ended ≡ true → IsAtEnd (R.left reader.old)) → IfOk result
        (λ all. LeavesAll side (R.left reader.old) (R.left reader.new) all.items) }
    ensures outside { IfErr result IsOutside }
    ensures taken { Takes (R.left reader.old) (R.left reader.new) }
    ensures writes { writes_failed result ≡ 0 }
    ensures reads { OnOk result (R.failures reader.new ≡ R.failures reader.old) }
{
    if side.ended {
        return Ok(Vec::from_slice(alloc, side.lines.rest())?);
    }
    Ok(side.lines.into_rest(alloc, reader)?)
}
