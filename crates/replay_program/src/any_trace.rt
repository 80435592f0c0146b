//! The trace of any version that a reader has, as it was written down.
ghost use Rattle.std.specs.Prelude.{◌≡◌, ◌≤◌, ◌+◌, ◌-◌, ◌^◌, ◌<◌, IfErr, IfOk, length};
ghost use Rattle.byte_transfer.specs.Transfer.{Takes};
ghost use Rattle.trace_format.specs.Text.{longest};
ghost use Rattle.trace_stream.specs.Streams.{ReadsAll};
ghost use Rattle.replay_program.specs.AnyTraces.{HasFewPlaces, ReadsAny, SpellsAny, TellsOfAny};
ghost use Rattle.replay_program.specs.Runs.{TakesTrace, read_failures, write_failures};
ghost use Rattle.replay_program.specs.Taking.{TellsOfStream, TellsOfText};

use crate::fault::RunFault;
use crate::recordings::{Taken, taken_text, told_of};
use crate::session::no_memory;
use byte_transfer::Source;
use std::alloc::Global;
use trace_format::read_trace;
use trace_stream::read_stream;

/// A trace of any version.
#[derive(Drop)]
pub enum AnyTrace {
    /// Of version 1 or 2.
    Whole(trace_format::Trace),
    /// Of version 3.
    Records(trace_records::Trace),
}

/// The trace that the reader has left, in a box: its owners let it go in one step.
pub(crate) fn taken_any<R: Source>(alloc: Global, reader: &mut R) -> Result<Box<AnyTrace>, RunFault>
    requires { R.failures reader.old < 2 ^ 64 - 1 }
    ensures ok { IfOk result (λ trace. ReadsAny (R.left reader.old) (R.left reader.new) trace.value) }
    ensures few { IfOk result (λ trace. HasFewPlaces trace.value) }
    ensures taken { TakesTrace (R.left reader.old) (R.left reader.new) }
    ensures err { IfErr result (TellsOfAny (R.left reader.old) (R.left reader.new)) }
    ensures read { R.failures reader.new ≡ R.failures reader.old + read_failures result }
    ensures write { write_failures result ≡ 0 }
{
    match taken_text(alloc, reader)? {
        Taken::Head(head) => records_on(alloc, head, reader),
        Taken::Whole(text) => whole_of(alloc, text),
    }
}

/// The trace of a text of version 1 or 2.
fn whole_of(alloc: Global, text: Vec<u8>) -> Result<Box<AnyTrace>, RunFault>
    ensures ok { IfOk result (λ t. (length text.items ≤ longest)
        × SpellsAny text.items t.value) }
    ensures few { IfOk result (λ t. HasFewPlaces t.value) }
    ensures err { IfErr result (TellsOfText text.items) }
    ensures read { read_failures result ≡ 0 }
    ensures write { write_failures result ≡ 0 }
{
    let trace = match read_trace(alloc, text) {
        Ok(trace) => trace,
        Err(fault) => return Err(RunFault::Trace(fault)),
    };
    match Box::new(alloc, AnyTrace::Whole(trace)) {
        Ok(trace) => Ok(trace),
        Err(_) => Err(RunFault::Trace(no_memory())),
    }
}

/// The trace of a text of version 3, whose first bytes were taken.
fn records_on<R: Source>(
    alloc: Global,
    head: Vec<u8>,
    reader: &mut R,
) -> Result<Box<AnyTrace>, RunFault>
    requires { R.failures reader.old < 2 ^ 64 - 1 }
    ensures ok { IfOk result (λ t. ReadsAll head.items (R.left reader.old) (R.left reader.new)
        (λ text. SpellsAny text t.value)) }
    ensures few { IfOk result (λ t. HasFewPlaces t.value) }
    ensures taken { Takes (R.left reader.old) (R.left reader.new) }
    ensures err { IfErr result
        (TellsOfStream head.items (R.left reader.old) (R.left reader.new)) }
    ensures read { R.failures reader.new ≡ R.failures reader.old + read_failures result }
    ensures write { write_failures result ≡ 0 }
{
    let trace = match read_stream(alloc, head, reader) {
        Ok(trace) => trace,
        Err(fault) => return Err(told_of(fault)),
    };
    match Box::new(alloc, AnyTrace::Records(trace)) {
        Ok(trace) => Ok(trace),
        Err(_) => Err(RunFault::Trace(no_memory())),
    }
}
