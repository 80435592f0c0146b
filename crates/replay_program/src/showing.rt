//! A trace as text, from a reader to a writer.
ghost use Rattle.std.specs.Prelude.{◌≡◌, ◌≢◌, ◌+◌, ◌-◌, ◌^◌, ◌<◌, IfErr, IfOk, OnOk};
ghost use Rattle.std.specs.Io.KnownBytes.{Keeps};
ghost use Rattle.replay_program.specs.Runs.{TakesTrace, read_failures, write_failures};
ghost use Rattle.replay_program.specs.AnyTraces.{HasFewPlaces, TellsOfAny};
ghost use Rattle.replay_program.specs.Shows.{WritesShown, WritesShownPart, text_of};

use crate::any_trace::{AnyTrace, taken_any};
use crate::fault::RunFault;
use crate::session::written;
use byte_transfer::{Sink, Source};
use replay_core::ReplayFault;
use std::alloc::{AllocError, Global};
use trace_text::Look;

/// Reads a trace of any version and writes it as text. Nothing is written before the whole text is there, and the
/// run ends at the first failure of either side.
///
/// # Errors
///
/// Trace where the input is none, Replay when out of memory, Read and Write at a call that failed.
pub fn run_show<R: Source, W: Sink>(
    alloc: Global,
    reader: &mut R,
    writer: &mut W,
    look: Look,
) -> Result<(), RunFault>
    requires reader { R.failures reader.old < 2 ^ 64 - 1 }
    requires writer { W.failures writer.old < 2 ^ 64 - 1 }

    // The text is the one of the trace that the reader's bytes spell.
    ensures done { OnOk result (WritesShown look (R.left reader.old) (R.left reader.new)
        (W.written writer.old) (W.written writer.new)) }
    ensures part { result ≡ Err RunFault.Write → WritesShownPart look (R.left reader.old)
        (R.left reader.new) (W.written writer.old) (W.written writer.new) }
    ensures nothing { IfErr result (λ fault. fault ≢ RunFault.Write
        → Keeps (W.written writer.old) (W.written writer.new)) }

    ensures taken { TakesTrace (R.left reader.old) (R.left reader.new) }
    ensures reading { IfErr result (TellsOfAny (R.left reader.old) (R.left reader.new)) }
    ensures read { R.failures reader.new ≡ R.failures reader.old + read_failures result }
    ensures write { W.failures writer.new ≡ W.failures writer.old + write_failures result }
{
    let trace = taken_any(alloc, reader)?;
    let text = shown_text(alloc, &trace, look)?;
    written(writer, text.as_slice())
}

fn shown_text(alloc: Global, trace: &AnyTrace, look: Look) -> Result<Vec<u8>, RunFault>
    requires { HasFewPlaces trace.now }
    ensures ok { IfOk result (λ text. text.items ≡ text_of look trace.now) }
    ensures err { IfErr result (λ fault. fault ≡ RunFault.Replay ReplayFault.Memory) }
{
    match text_of(alloc, trace, look) {
        Ok(text) => Ok(text),
        Err(AllocError) => Err(RunFault::Replay(ReplayFault::Memory)),
    }
}

/// The text of a trace, by its version.
fn text_of(alloc: Global, trace: &AnyTrace, look: Look) -> Result<Vec<u8>, AllocError>
    requires { HasFewPlaces trace.now }
    ensures { IfOk result (λ text. text.items ≡ text_of look trace.now) }
{
    match trace {
        AnyTrace::Whole(trace) => trace_text::show_text(alloc, trace, look),
        AnyTrace::Records(trace) => records_text::show_text(alloc, trace, look),
    }
}
