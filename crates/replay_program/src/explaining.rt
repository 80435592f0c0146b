//! A comparison of two reports, with the entries of a trace, from readers to a writer.
ghost use Rattle.std.specs.Prelude.{◌≡◌, ◌≢◌, ◌+◌, ◌-◌, ◌^◌, ◌<◌, IfErr, IfOk, OnOk, false, true};
ghost use Rattle.std.specs.Io.KnownBytes.{Keeps};
ghost use Rattle.replay_program.specs.Runs.{TakesTrace, most_taken, read_failures, write_failures};
ghost use Rattle.replay_program.specs.ShownDiffs.{ComparesShown, ComparesShownTwo, TellsOfShown};
ghost use Rattle.replay_program.specs.ShownDiffs.{TellsOfShownTwo, WritesShownDifferences};
ghost use Rattle.replay_program.specs.ShownDiffs.{WritesShownDifferencesOfTwo};
ghost use Rattle.replay_program.specs.ShownDiffs.{WritesShownDifferencesPart, WritesShownPartOfTwo};
ghost use Rattle.replay_program.specs.ShownDiffs.{with_entries};
ghost use Rattle.byte_transfer.specs.Transfer.{ConsumesUpTo};

use crate::any_trace::{AnyTrace, taken_any};
use crate::differing::{comparison_of_two, taken_comparison};
use crate::fault::{ReportsFault, RunFault};
use crate::session::written;
use byte_transfer::{Sink, Source};
use json_lines::Form;
use report_diff::{Comparison, Terms};
use std::alloc::{AllocError, Global};

/// Reads a trace of any version, then two reports, one after another, and writes where these
/// differ, with the entry below each line that differs and is of one. Nothing is written before the
/// whole text is there, and the run ends at the first failure of a side.
///
/// # Errors
///
/// Trace where the first input is none; else as those of [`crate::run_diff`].
pub fn run_diff_shown<T: Source, R: Source, W: Sink>(
    alloc: Global,
    trace: &mut T,
    reader: &mut R,
    writer: &mut W,
    terms: Terms,
) -> Result<(), RunFault>
    requires trace { T.failures trace.old < 2 ^ 64 - 1 }
    requires reader { R.failures reader.old < 2 ^ 64 - 1 }
    requires writer { W.failures writer.old < 2 ^ 64 - 1 }

    // The text is the one of the trace and the two reports that the readers' bytes are.
    ensures alike { OnOk result (WritesShownDifferences terms true (T.left trace.old) (T.left trace.new)
        (R.left reader.old) (R.left reader.new) (W.written writer.old) (W.written writer.new)) }
    ensures different { result ≡ Err RunFault.Different
        → WritesShownDifferences terms false (T.left trace.old) (T.left trace.new)
        (R.left reader.old) (R.left reader.new) (W.written writer.old) (W.written writer.new) }
    ensures part { result ≡ Err RunFault.Write
        → WritesShownDifferencesPart terms (T.left trace.old) (T.left trace.new)
        (R.left reader.old) (R.left reader.new) (W.written writer.old) (W.written writer.new) }
    ensures nothing { IfErr result (λ fault. fault ≢ RunFault.Write → fault ≢ RunFault.Different
        → Keeps (W.written writer.old) (W.written writer.new)) }

    ensures taken { TakesTrace (T.left trace.old) (T.left trace.new)
        × ConsumesUpTo most_taken (R.left reader.old) (R.left reader.new) }
    ensures reading { IfErr result (TellsOfShown terms (T.left trace.old) (T.left trace.new)
        (R.left reader.old) (R.left reader.new)) }
    ensures read { T.failures trace.new + R.failures reader.new
        ≡ T.failures trace.old + R.failures reader.old + read_failures result }
    ensures write { W.failures writer.new ≡ W.failures writer.old + write_failures result }
{
    let comparison = shown_comparison(alloc, trace, reader, terms)?;
    written(writer, comparison.text.as_slice())?;
    if comparison.passes {
        Ok(())
    } else {
        Err(RunFault::Different)
    }
}

/// How the two reports that a reader has left compare, with the entries of the trace that another
/// one has left.
fn shown_comparison<T: Source, R: Source>(
    alloc: Global,
    trace: &mut T,
    reader: &mut R,
    terms: Terms,
) -> Result<Comparison, RunFault>
    requires trace { T.failures trace.old < 2 ^ 64 - 1 }
    requires reader { R.failures reader.old < 2 ^ 64 - 1 }
    ensures ok { IfOk result (ComparesShown terms (T.left trace.old) (T.left trace.new)
        (R.left reader.old) (R.left reader.new)) }
    ensures taken { TakesTrace (T.left trace.old) (T.left trace.new)
        × ConsumesUpTo most_taken (R.left reader.old) (R.left reader.new) }
    ensures err { IfErr result (TellsOfShown terms (T.left trace.old) (T.left trace.new)
        (R.left reader.old) (R.left reader.new)) }
    ensures read { T.failures trace.new + R.failures reader.new
        ≡ T.failures trace.old + R.failures reader.old + read_failures result }
    ensures write { write_failures result ≡ 0 }
    ensures neither { IfErr result
        (λ fault. (fault ≢ RunFault.Write) × (fault ≢ RunFault.Different)) }
{
    let trace = taken_any(alloc, trace)?;
    let comparison = taken_comparison(alloc, reader, Form::Text, terms)?;
    comparison_shown(alloc, &trace, comparison)
}

/// A text of differences with the entries of a trace, by its version.
fn with_entries(alloc: Global, trace: &AnyTrace, text: &[u8]) -> Result<Vec<u8>, AllocError>
    ensures { IfOk result (λ shown. shown.items ≡ with_entries trace.now text.now) }
{
    match trace {
        AnyTrace::Whole(trace) => trace_text::with_entries(alloc, trace, text),
        AnyTrace::Records(trace) => records_text::with_entries(alloc, trace, text),
    }
}

/// A comparison, with the entries of a trace in its text.
fn comparison_shown(
    alloc: Global,
    trace: &AnyTrace,
    comparison: Comparison,
) -> Result<Comparison, RunFault>
    ensures text { IfOk result
        (λ shown. shown.text.items ≡ with_entries trace.now comparison.text.items) }
    ensures alike { IfOk result (λ shown. shown.passes ≡ comparison.passes) }
    ensures err { IfErr result (λ fault. fault ≡ RunFault.Reports ReportsFault.Memory) }
{
    match with_entries(alloc, trace, comparison.text.as_slice()) {
        Ok(text) => Ok(Comparison {
            text,
            passes: comparison.passes,
        }),
        Err(AllocError) => Err(RunFault::Reports(ReportsFault::Memory)),
    }
}

/// The same of two reports, each from a reader of its own.
///
/// # Errors
///
/// As those of [`run_diff_shown`].
pub fn run_diff_of_two_shown<T: Source, R: Source, S: Source, W: Sink>(
    alloc: Global,
    trace: &mut T,
    first: &mut R,
    second: &mut S,
    writer: &mut W,
    terms: Terms,
) -> Result<(), RunFault>
    requires trace { T.failures trace.old < 2 ^ 64 - 1 }
    requires first { R.failures first.old < 2 ^ 64 - 1 }
    requires second { S.failures second.old < 2 ^ 64 - 1 }
    requires writer { W.failures writer.old < 2 ^ 64 - 1 }

    // The text is the one of the trace and the two reports that the readers' bytes are.
    ensures alike { OnOk result (WritesShownDifferencesOfTwo terms true
        (T.left trace.old) (T.left trace.new) (R.left first.old) (R.left first.new)
        (S.left second.old) (S.left second.new) (W.written writer.old) (W.written writer.new)) }
    ensures different { result ≡ Err RunFault.Different → WritesShownDifferencesOfTwo terms false
        (T.left trace.old) (T.left trace.new) (R.left first.old) (R.left first.new)
        (S.left second.old) (S.left second.new) (W.written writer.old) (W.written writer.new) }
    ensures part { result ≡ Err RunFault.Write → WritesShownPartOfTwo terms
        (T.left trace.old) (T.left trace.new) (R.left first.old) (R.left first.new)
        (S.left second.old) (S.left second.new) (W.written writer.old) (W.written writer.new) }
    ensures nothing { IfErr result (λ fault. fault ≢ RunFault.Write → fault ≢ RunFault.Different
        → Keeps (W.written writer.old) (W.written writer.new)) }

    ensures taken { TakesTrace (T.left trace.old) (T.left trace.new)
        × (ConsumesUpTo most_taken (R.left first.old) (R.left first.new)
        × ConsumesUpTo most_taken (S.left second.old) (S.left second.new)) }
    ensures reading { IfErr result (TellsOfShownTwo terms (T.left trace.old) (T.left trace.new)
        (R.left first.old) (R.left first.new) (S.left second.old) (S.left second.new)) }
    ensures read { T.failures trace.new + (R.failures first.new + S.failures second.new)
        ≡ T.failures trace.old + (R.failures first.old + S.failures second.old) + read_failures result }
    ensures write { W.failures writer.new ≡ W.failures writer.old + write_failures result }
{
    let comparison = shown_comparison_of_two(alloc, trace, first, second, terms)?;
    written(writer, comparison.text.as_slice())?;
    if comparison.passes {
        Ok(())
    } else {
        Err(RunFault::Different)
    }
}

/// How the reports that two readers have left compare, with the entries of a trace.
fn shown_comparison_of_two<T: Source, R: Source, S: Source>(
    alloc: Global,
    trace: &mut T,
    first: &mut R,
    second: &mut S,
    terms: Terms,
) -> Result<Comparison, RunFault>
    requires trace { T.failures trace.old < 2 ^ 64 - 1 }
    requires first { R.failures first.old < 2 ^ 64 - 1 }
    requires second { S.failures second.old < 2 ^ 64 - 1 }
    ensures ok { IfOk result (ComparesShownTwo terms (T.left trace.old) (T.left trace.new)
        (R.left first.old) (R.left first.new) (S.left second.old) (S.left second.new)) }
    ensures taken { TakesTrace (T.left trace.old) (T.left trace.new)
        × (ConsumesUpTo most_taken (R.left first.old) (R.left first.new)
        × ConsumesUpTo most_taken (S.left second.old) (S.left second.new)) }
    ensures err { IfErr result (TellsOfShownTwo terms (T.left trace.old) (T.left trace.new)
        (R.left first.old) (R.left first.new) (S.left second.old) (S.left second.new)) }
    ensures read { T.failures trace.new + (R.failures first.new + S.failures second.new)
        ≡ T.failures trace.old + (R.failures first.old + S.failures second.old) + read_failures result }
    ensures write { write_failures result ≡ 0 }
    ensures neither { IfErr result
        (λ fault. (fault ≢ RunFault.Write) × (fault ≢ RunFault.Different)) }
{
    let trace = taken_any(alloc, trace)?;
    let comparison = comparison_of_two(alloc, first, second, terms)?;
    comparison_shown(alloc, &trace, comparison)
}
