//! What the trace of a reader recorded.
ghost use Rattle.std.specs.Prelude.{◌≡◌, ◌⊎◌, ◌≤◌, ◌+◌, ◌-◌, ◌^◌, ◌<◌, IfErr, IfOk, OnOk, false};
ghost use Rattle.std.specs.Prelude.{length, true};
ghost use Rattle.recording.specs.Accepted.{IsAccepted};
ghost use Rattle.trace_format.specs.Grammar.{fault};
ghost use Rattle.trace_format.specs.Text.{longest};
ghost use Rattle.trace_format.specs.declared.fault.Kind.TheVariants.{Memory};
ghost use Rattle.trace_stream.specs.Streams.{ReadsAll};
ghost use Rattle.replay_program.specs.Recordings.{SpellsRecording, has_version_3};
ghost use Rattle.replay_program.specs.Runs.{ReadsTrace, TakesTrace, TellsOfReading};
ghost use Rattle.replay_program.specs.Runs.{read_failures, write_failures};
ghost use Rattle.replay_program.specs.Taking.{TakesText, TellsOfStream, TellsOfText, told_of};
ghost use Rattle.byte_transfer.specs.Transfer.{Takes};

use crate::fault::RunFault;
use crate::session::no_memory;
use byte_transfer::{MOST_BYTES, Source, TextFault, read_on};
use recording::Recording;
use std::alloc::Global;
use trace_format::read_trace;
use trace_stream::{StreamFault, read_stream};

/// So many bytes tell whether a text is of version 3.
const HEAD: usize = 12;

/// What was taken from a reader.
#[derive(Drop)]
pub(crate) enum Taken {
    /// The first bytes of a text of version 3.
    Head(Vec<u8>),
    /// A text of another version, whole, or its first `MOST_BYTES` bytes.
    Whole(Vec<u8>),
}

/// Whether a text begins as one of version 3.
fn has_version_3(text: &[u8]) -> bool
    ensures { result ≡ has_version_3 text.now }
{
    text.starts_with(b"URINGTRC\x03\0\0\0")
}

/// Takes what tells the version of a text, and all of one that is read whole.
pub(crate) fn taken_text<R: Source>(alloc: Global, reader: &mut R) -> Result<Taken, RunFault>
    requires { R.failures reader.old < 2 ^ 64 - 1 }
    ensures ok { IfOk result (TakesText (R.left reader.old) (R.left reader.new)) }
    ensures taken { TakesTrace (R.left reader.old) (R.left reader.new) }
    ensures err { IfErr result
        (λ f. (f ≡ RunFault.Trace (fault Memory 0)) ⊎ (f ≡ RunFault.Read)) }
    ensures read { R.failures reader.new ≡ R.failures reader.old + read_failures result }
{
    match text_on(alloc, reader) {
        Ok(taken) => Ok(taken),
        Err(TextFault::Read) => Err(RunFault::Read),
        Err(TextFault::Memory) => Err(RunFault::Trace(no_memory())),
    }
}

fn text_on<R: Source>(alloc: Global, reader: &mut R) -> Result<Taken, TextFault>
    requires { R.failures reader.old < 2 ^ 64 - 1 }
    ensures ok { IfOk result (TakesText (R.left reader.old) (R.left reader.new)) }
    ensures taken { TakesTrace (R.left reader.old) (R.left reader.new) }
    ensures well { OnOk result (R.failures reader.new ≡ R.failures reader.old) }
    ensures read { result ≡ Err TextFault.Read → R.failures reader.new ≡ R.failures reader.old + 1 }
    ensures memory { result ≡ Err TextFault.Memory → R.failures reader.new ≡ R.failures reader.old }
{
    let head = read_on(alloc, reader, Vec::new(alloc), HEAD)?;
    if head.len() < HEAD {
        return Ok(Taken::Whole(head));
    }
    if has_version_3(head.as_slice()) {
        return Ok(Taken::Head(head));
    }
    let text = read_on(alloc, reader, head, MOST_BYTES)?;
    Ok(Taken::Whole(text))
}

/// A fault of a stream, as the program tells it.
pub(crate) fn told_of(fault: StreamFault) -> RunFault
    ensures { result ≡ told_of fault }
{
    match fault {
        StreamFault::Trace(fault) => RunFault::Trace(fault),
        StreamFault::Read => RunFault::Read,
    }
}

/// What the trace that the reader has left recorded, in a box: its owners let it go in one step.
pub(crate) fn taken_recording<R: Source>(
    alloc: Global,
    reader: &mut R,
) -> Result<Box<Recording>, RunFault>
    requires { R.failures reader.old < 2 ^ 64 - 1 }
    ensures ok { IfOk result (λ trace. ReadsTrace (R.left reader.old) (R.left reader.new) trace.value) }
    ensures accepted { IfOk result (λ trace. IsAccepted trace.value) }
    ensures taken { TakesTrace (R.left reader.old) (R.left reader.new) }
    ensures err { IfErr result (TellsOfReading (R.left reader.old) (R.left reader.new)) }
    ensures read { R.failures reader.new ≡ R.failures reader.old + read_failures result }
    ensures write { write_failures result ≡ 0 }
{
    match taken_text(alloc, reader)? {
        Taken::Head(head) => recording_on(alloc, head, reader),
        Taken::Whole(text) => recording_of_whole(alloc, text),
    }
}

/// The recording of a text of version 1 or 2.
#[tactic(auto, using(recording::proofs::WholeAccepted::whole_accepted))]
pub(crate) fn recording_of_whole(alloc: Global, text: Vec<u8>) -> Result<Box<Recording>, RunFault>
    ensures ok { IfOk result (λ t. (length text.items ≤ longest)
        × SpellsRecording false text.items t.value) }
    ensures accepted { IfOk result (λ t. IsAccepted t.value) }
    ensures err { IfErr result (TellsOfText text.items) }
    ensures read { read_failures result ≡ 0 }
    ensures write { write_failures result ≡ 0 }
{
    let trace = match read_trace(alloc, text) {
        Ok(trace) => trace,
        Err(fault) => return Err(RunFault::Trace(fault)),
    };
    let Ok(recording) = Recording::of_whole(alloc, trace) else {
        return Err(RunFault::Trace(no_memory()));
    };
    match Box::new(alloc, recording) {
        Ok(recording) => Ok(recording),
        Err(_) => Err(RunFault::Trace(no_memory())),
    }
}

/// The recording of a text of version 3, whose first bytes were taken.
fn recording_on<R: Source>(
    alloc: Global,
    head: Vec<u8>,
    reader: &mut R,
) -> Result<Box<Recording>, RunFault>
    requires { R.failures reader.old < 2 ^ 64 - 1 }
    ensures ok { IfOk result (λ t. ReadsAll head.items (R.left reader.old) (R.left reader.new)
        (λ text. SpellsRecording true text t.value)) }
    ensures accepted { IfOk result (λ t. IsAccepted t.value) }
    ensures taken { Takes (R.left reader.old) (R.left reader.new) }
    ensures err { IfErr result
        (TellsOfStream head.items (R.left reader.old) (R.left reader.new)) }
    ensures read { R.failures reader.new ≡ R.failures reader.old + read_failures result }
    ensures write { write_failures result ≡ 0 }
{
    let trace = match read_stream(alloc, head, reader) {
        Ok(trace) => trace,
        Err(fault) => return Err(told_of(fault)),
    };
    let Ok(recording) = Recording::of_records(alloc, trace) else {
        return Err(RunFault::Trace(no_memory()));
    };
    match Box::new(alloc, recording) {
        Ok(recording) => Ok(recording),
        Err(_) => Err(RunFault::Trace(no_memory())),
    }
}
