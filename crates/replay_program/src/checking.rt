//! A check of a trace of any version, from a reader to a writer.
ghost use Rattle.std.specs.Prelude.{◌≡◌, ◌≢◌, ◌≤◌, ◌+◌, ◌-◌, ◌^◌, ◌<◌, IfErr, IfOk, OnOk};
ghost use Rattle.std.specs.Prelude.{false, length, true};
ghost use Rattle.std.specs.Io.KnownBytes.{Keeps};
ghost use Rattle.trace_format.specs.Grammar.{fault};
ghost use Rattle.trace_format.specs.Text.{longest};
ghost use Rattle.trace_format.specs.declared.fault.Kind.TheVariants.{Memory};
ghost use Rattle.replay_program.specs.Checks.{IsAnswer, ReadsAnswer, TellsOfCheck};
ghost use Rattle.replay_program.specs.Checks.{WritesAnswer, WritesAnswerPart, ok_line};
ghost use Rattle.trace_stream.specs.Streams.{ReadsAll};
ghost use Rattle.json_lines.specs.Forms.{written_as};
ghost use Rattle.replay_program.specs.Runs.{TakesTrace, read_failures, write_failures};
ghost use Rattle.replay_program.specs.Taking.{TellsOfStream, TellsOfText};
ghost use Rattle.byte_transfer.specs.Transfer.{Takes};

use crate::fault::RunFault;
use crate::recordings::{Taken, taken_text, told_of};
use crate::session::{no_memory, trace_in, written};
use byte_transfer::{Sink, Source};
use json_lines::{Form, text_as};
use std::alloc::{AllocError, Global};
use trace_records::Tally;
use trace_stream::count_stream;

/// Reads a trace of any version and writes how many places and rings it has. Nothing is written
/// before the whole answer is there, and the run ends at the first failure of either side.
///
/// # Errors
///
/// Trace where the input is none, or when out of memory; Read and Write at a call that failed.
pub fn run_check<R: Source, W: Sink>(
    alloc: Global,
    reader: &mut R,
    writer: &mut W,
    form: Form,
) -> Result<(), RunFault>
    requires reader { R.failures reader.old < 2 ^ 64 - 1 }
    requires writer { W.failures writer.old < 2 ^ 64 - 1 }

    // The answer is the one of the trace that the reader's bytes spell.
    ensures done { OnOk result (WritesAnswer form (R.left reader.old)
        (R.left reader.new) (W.written writer.old) (W.written writer.new)) }
    ensures part { result ≡ Err RunFault.Write → WritesAnswerPart form (R.left reader.old)
        (R.left reader.new) (W.written writer.old) (W.written writer.new) }
    ensures nothing { IfErr result (λ fault. fault ≢ RunFault.Write
        → Keeps (W.written writer.old) (W.written writer.new)) }

    ensures taken { TakesTrace (R.left reader.old) (R.left reader.new) }
    ensures reading { IfErr result (TellsOfCheck (R.left reader.old) (R.left reader.new)) }
    ensures read { R.failures reader.new ≡ R.failures reader.old + read_failures result }
    ensures write { W.failures writer.new ≡ W.failures writer.old + write_failures result }
{
    let answer = taken_answer(alloc, reader)?;
    let text = answer_as(alloc, form, answer)?;
    written(writer, text.as_slice())
}

/// An answer in the form that is asked for.
fn answer_as(alloc: Global, form: Form, answer: Vec<u8>) -> Result<Vec<u8>, RunFault>
    ensures ok { IfOk result (λ text. text.items ≡ written_as form answer.items) }
    ensures err { IfErr result (λ f. f ≡ RunFault.Trace (fault Memory 0)) }
{
    match text_as(alloc, form, answer) {
        Ok(text) => Ok(text),
        Err(AllocError) => Err(RunFault::Trace(no_memory())),
    }
}

/// The answer to what the reader has left.
fn taken_answer<R: Source>(alloc: Global, reader: &mut R) -> Result<Vec<u8>, RunFault>
    requires { R.failures reader.old < 2 ^ 64 - 1 }
    ensures ok { IfOk result
        (λ answer. ReadsAnswer (R.left reader.old) (R.left reader.new) answer.items) }
    ensures taken { TakesTrace (R.left reader.old) (R.left reader.new) }
    ensures err { IfErr result (TellsOfCheck (R.left reader.old) (R.left reader.new)) }
    ensures read { R.failures reader.new ≡ R.failures reader.old + read_failures result }
    ensures write { write_failures result ≡ 0 }
{
    match taken_text(alloc, reader)? {
        Taken::Head(head) => answer_on(alloc, head, reader),
        Taken::Whole(text) => answer_of_whole(alloc, text),
    }
}

/// The answer to a text of version 1 or 2.
fn answer_of_whole(alloc: Global, text: Vec<u8>) -> Result<Vec<u8>, RunFault>
    ensures ok { IfOk result (λ answer. (length text.items ≤ longest)
        × IsAnswer false text.items answer.items) }
    ensures err { IfErr result (TellsOfText text.items) }
    ensures read { read_failures result ≡ 0 }
    ensures write { write_failures result ≡ 0 }
{
    let trace = match trace_in(alloc, text) {
        Ok(trace) => trace,
        Err(fault) => return Err(RunFault::Trace(fault)),
    };
    let tally = Tally {
        places: trace.places(),
        rings: trace.rings.as_slice().len(),
    };
    match ok_text(alloc, tally) {
        Ok(answer) => Ok(answer),
        Err(AllocError) => Err(RunFault::Trace(no_memory())),
    }
}

/// The answer to a text of version 3, whose first bytes were taken.
#[tactic(auto, using(crate::proofs::Taking::answers_tally, crate::proofs::Taking::no_memory_tells))]
fn answer_on<R: Source>(alloc: Global, head: Vec<u8>, reader: &mut R) -> Result<Vec<u8>, RunFault>
    requires { R.failures reader.old < 2 ^ 64 - 1 }
    ensures ok { IfOk result (λ answer. ReadsAll head.items (R.left reader.old) (R.left reader.new)
        (λ text. IsAnswer true text answer.items)) }
    ensures taken { Takes (R.left reader.old) (R.left reader.new) }
    ensures err { IfErr result
        (TellsOfStream head.items (R.left reader.old) (R.left reader.new)) }
    ensures read { R.failures reader.new ≡ R.failures reader.old + read_failures result }
    ensures write { write_failures result ≡ 0 }
{
    let tally = match count_stream(alloc, head, reader) {
        Ok(tally) => tally,
        Err(fault) => return Err(told_of(fault)),
    };
    match ok_text(alloc, tally) {
        Ok(answer) => Ok(answer),
        Err(AllocError) => Err(RunFault::Trace(no_memory())),
    }
}

fn ok_text(alloc: Global, tally: Tally) -> Result<Vec<u8>, AllocError>
    ensures { IfOk result (λ text. text.items ≡ ok_line tally.places tally.rings) }
{
    let Tally { places, rings } = tally;
    let text = format!(in alloc; "ok {places} places {rings} rings\n")?;
    Ok(text.into_bytes())
}
