//! A comparison of two reports, from a reader to a writer.
ghost use Rattle.std.specs.Prelude.{◌≡◌, ◌≢◌, ◌+◌, ◌-◌, ◌^◌, ◌<◌, IfErr, IfOk, OnOk, false, true};
ghost use Rattle.std.specs.Io.KnownBytes.{Keeps};
ghost use Rattle.replay_program.specs.Diffs.{ComparesReports, TellsOfReports, WritesDifferences};
ghost use Rattle.replay_program.specs.Diffs.{ComparesTwoReports, ReadsAll, TellsOfText};
ghost use Rattle.replay_program.specs.Diffs.{TellsOfTwoReports, WritesDifferencesPart};
ghost use Rattle.replay_program.specs.Runs.{most_taken, read_failures, write_failures};
ghost use Rattle.json_lines.specs.Forms.{written_as};
ghost use Rattle.byte_transfer.specs.Transfer.{ConsumesUpTo};

use crate::fault::{ReportsFault, RunFault};
use crate::session::written;
use byte_transfer::{MOST_BYTES, Sink, Source, TextFault, read_text};
use json_lines::{Form, text_as};
use report_diff::{Comparison, DiffFault, Terms, compare, compare_two};
use std::alloc::{AllocError, Global};

/// Reads two reports, one after another, compares them and writes where they differ. Nothing is
/// written before the whole text is there, and the run ends at the first failure of either side.
///
/// # Errors
///
/// Different where they differ, with the whole text written; Reports where they are refused, or when
/// out of memory; Read and Write at a call that failed.
pub fn run_diff<R: Source, W: Sink>(
    alloc: Global,
    reader: &mut R,
    writer: &mut W,
    form: Form,
    terms: Terms,
) -> Result<(), RunFault>
    requires reader { R.failures reader.old < 2 ^ 64 - 1 }
    requires writer { W.failures writer.old < 2 ^ 64 - 1 }

    // The text is the one of the two reports that the reader's bytes are.
    ensures alike { OnOk result (WritesDifferences form terms true (R.left reader.old)
        (R.left reader.new) (W.written writer.old) (W.written writer.new)) }
    ensures different { result ≡ Err RunFault.Different
        → WritesDifferences form terms false (R.left reader.old)
        (R.left reader.new) (W.written writer.old) (W.written writer.new) }
    ensures part { result ≡ Err RunFault.Write → WritesDifferencesPart form terms (R.left reader.old)
        (R.left reader.new) (W.written writer.old) (W.written writer.new) }
    ensures nothing { IfErr result (λ fault. fault ≢ RunFault.Write → fault ≢ RunFault.Different
        → Keeps (W.written writer.old) (W.written writer.new)) }

    ensures taken { ConsumesUpTo most_taken (R.left reader.old) (R.left reader.new) }
    ensures reading { IfErr result (TellsOfReports terms (R.left reader.old) (R.left reader.new)) }
    ensures read { R.failures reader.new ≡ R.failures reader.old + read_failures result }
    ensures write { W.failures writer.new ≡ W.failures writer.old + write_failures result }
{
    let comparison = taken_comparison(alloc, reader, form, terms)?;
    written(writer, comparison.text.as_slice())?;
    if comparison.passes {
        Ok(())
    } else {
        Err(RunFault::Different)
    }
}

/// How the two reports that the reader has left compare, with the text in the form that is asked
/// for.
pub(crate) fn taken_comparison<R: Source>(
    alloc: Global,
    reader: &mut R,
    form: Form,
    terms: Terms,
) -> Result<Comparison, RunFault>
    requires { R.failures reader.old < 2 ^ 64 - 1 }
    ensures ok { IfOk result
        (λ comparison. ComparesReports form terms (R.left reader.old) (R.left reader.new) comparison) }
    ensures taken { ConsumesUpTo most_taken (R.left reader.old) (R.left reader.new) }
    ensures err { IfErr result (TellsOfReports terms (R.left reader.old) (R.left reader.new)) }
    ensures read { R.failures reader.new ≡ R.failures reader.old + read_failures result }
    ensures write { write_failures result ≡ 0 }
    ensures neither { IfErr result
        (λ fault. (fault ≢ RunFault.Write) × (fault ≢ RunFault.Different)) }
{
    let input = match read_text(alloc, reader) {
        Ok(input) => input,
        Err(TextFault::Read) => return Err(RunFault::Read),
        Err(TextFault::Memory) => return Err(RunFault::Reports(ReportsFault::Memory)),
    };
    if input.len() == MOST_BYTES {
        return Err(RunFault::Reports(ReportsFault::TooLong));
    }
    match compare(alloc, terms, input.as_slice()) {
        Ok(comparison) => comparison_as(alloc, form, comparison),
        Err(DiffFault::Refused(why)) => Err(RunFault::Reports(ReportsFault::Refused(why))),
        Err(DiffFault::Memory) => Err(RunFault::Reports(ReportsFault::Memory)),
    }
}

/// A comparison with its text in the form that is asked for.
fn comparison_as(alloc: Global, form: Form, comparison: Comparison) -> Result<Comparison, RunFault>
    ensures text { IfOk result
        (λ found. found.text.items ≡ written_as form comparison.text.items) }
    ensures alike { IfOk result (λ found. found.passes ≡ comparison.passes) }
    ensures err { IfErr result (λ fault. fault ≡ RunFault.Reports ReportsFault.Memory) }
{
    match text_as(alloc, form, comparison.text) {
        Ok(text) => Ok(Comparison {
            text,
            passes: comparison.passes,
        }),
        Err(AllocError) => Err(RunFault::Reports(ReportsFault::Memory)),
    }
}

/// How the reports that two readers have left compare.
pub(crate) fn comparison_of_two<R: Source, S: Source>(
    alloc: Global,
    first: &mut R,
    second: &mut S,
    terms: Terms,
) -> Result<Comparison, RunFault>
    requires first { R.failures first.old < 2 ^ 64 - 1 }
    requires second { S.failures second.old < 2 ^ 64 - 1 }
    ensures ok { IfOk result (ComparesTwoReports terms (R.left first.old) (R.left first.new)
        (S.left second.old) (S.left second.new)) }
    ensures taken { ConsumesUpTo most_taken (R.left first.old) (R.left first.new)
        × ConsumesUpTo most_taken (S.left second.old) (S.left second.new) }
    ensures err { IfErr result (TellsOfTwoReports terms (R.left first.old) (R.left first.new)
        (S.left second.old) (S.left second.new)) }
    ensures read { R.failures first.new + S.failures second.new
        ≡ R.failures first.old + S.failures second.old + read_failures result }
    ensures write { write_failures result ≡ 0 }
    ensures neither { IfErr result
        (λ fault. (fault ≢ RunFault.Write) × (fault ≢ RunFault.Different)) }
{
    let one = report_text(alloc, first)?;
    let other = report_text(alloc, second)?;
    match compare_two(alloc, terms, one.as_slice(), other.as_slice()) {
        Ok(comparison) => Ok(comparison),
        Err(DiffFault::Refused(why)) => Err(RunFault::Reports(ReportsFault::Refused(why))),
        Err(DiffFault::Memory) => Err(RunFault::Reports(ReportsFault::Memory)),
    }
}

/// All that a reader has left, where it is not too long for reports.
fn report_text<R: Source>(alloc: Global, reader: &mut R) -> Result<Vec<u8>, RunFault>
    requires { R.failures reader.old < 2 ^ 64 - 1 }
    ensures ok { IfOk result (λ text. ReadsAll (R.left reader.old) (R.left reader.new) text.items) }
    ensures taken { ConsumesUpTo most_taken (R.left reader.old) (R.left reader.new) }
    ensures err { IfErr result (TellsOfText (R.left reader.old) (R.left reader.new)) }
    ensures read { R.failures reader.new ≡ R.failures reader.old + read_failures result }
{
    let text = match read_text(alloc, reader) {
        Ok(text) => text,
        Err(TextFault::Read) => return Err(RunFault::Read),
        Err(TextFault::Memory) => return Err(RunFault::Reports(ReportsFault::Memory)),
    };
    if text.len() == MOST_BYTES {
        return Err(RunFault::Reports(ReportsFault::TooLong));
    }
    Ok(text)
}
