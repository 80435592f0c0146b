//! Two reports that are read side by side, from two readers to a writer.
ghost use Rattle.std.specs.Prelude.{◌≡◌, ◌+◌, ◌-◌, ◌^◌, ◌<◌, IfErr, OnOk, true};
ghost use Rattle.byte_transfer.specs.Transfer.{Takes};
ghost use Rattle.diff_stream.specs.Compared.{WritesComparison};
ghost use Rattle.diff_stream.specs.Faults.{writes_of};
ghost use Rattle.replay_program.specs.Beside.{DiffUpTo, compare_told};
ghost use Rattle.replay_program.specs.Runs.{write_failures, writes_failed};

use crate::fault::{ReportsFault, RunFault};
use byte_transfer::{Sink, Source};
use diff_stream::{CompareFault, write_differences};
use json_lines::Form;
use report_diff::Terms;
use std::alloc::Global;

/// Compares two reports, each from a reader of its own, and writes where they differ, in the form
/// that is asked for. Both are held only as far as they are out of step.
///
/// # Errors
///
/// Different where they differ, with the whole text written; Reports where they are refused, behind
/// what is told of the entries that come first, or when out of memory; Read and Write at a call that
/// failed.
pub fn run_diff_beside<R: Source, S: Source, W: Sink>(
    alloc: Global,
    first: &mut R,
    second: &mut S,
    writer: &mut W,
    form: Form,
    terms: Terms,
) -> Result<(), RunFault>
    requires first { R.failures first.old < 2 ^ 64 - 1 }
    requires second { S.failures second.old < 2 ^ 64 - 1 }
    requires writer { W.failures writer.old < 2 ^ 64 - 1 }
    ensures alike { OnOk result (WritesComparison form terms (R.left first.old) (R.left first.new)
        (S.left second.old) (S.left second.new) (W.written writer.old) (W.written writer.new) true) }
    ensures err { IfErr result (DiffUpTo form terms (R.left first.old) (R.left first.new)
        (S.left second.old) (S.left second.new) (W.written writer.old) (W.written writer.new)) }
    ensures taken { Takes (R.left first.old) (R.left first.new)
        × Takes (S.left second.old) (S.left second.new) }
    ensures write { W.failures writer.new ≡ W.failures writer.old + write_failures result }
{
    match write_differences(alloc, first, second, writer, form, terms) {
        Ok(true) => Ok(()),
        Ok(false) => Err(RunFault::Different),
        Err(fault) => Err(told_as(fault)),
    }
}

/// How the program tells of a comparison that was not written whole.
fn told_as(fault: CompareFault) -> RunFault
    ensures told { result ≡ compare_told fault }
    ensures writes { writes_failed result ≡ writes_of fault }
{
    match fault {
        CompareFault::Refused(why) => RunFault::Reports(ReportsFault::Refused(why)),
        CompareFault::Memory => RunFault::Reports(ReportsFault::Memory),
        CompareFault::Read => RunFault::Read,
        CompareFault::Write => RunFault::Write,
    }
}
