//! A run of the program, from a reader to a writer.
ghost use Rattle.std.specs.Prelude.{◌≡◌, ◌≢◌, ◌⊎◌, ◌≤◌, ◌+◌, ◌-◌, ◌^◌, ◌<◌, IfOk, IfErr, OnOk};
ghost use Rattle.std.specs.Prelude.{OnErr, string_bytes};
ghost use Rattle.std.specs.Io.KnownBytes.{Appends, Keeps};
ghost use Rattle.op_meaning.specs.Step.{sequential_replies, sequential_world};
ghost use Rattle.trace_format.specs.Grammar.{fault};
ghost use Rattle.recording.specs.Accepted.{IsAccepted};
ghost use Rattle.trace_format.specs.Text.{IsRefusal, SpellsTrace};
ghost use Rattle.trace_format.specs.declared.fault.Kind.TheVariants.{Memory};
ghost use Rattle.world_parts.specs.Part.{whole};
ghost use Rattle.replay_program.specs.Runs.{IsAlone, IsModeOutput, IsNoComparison, TakesTrace};
ghost use Rattle.replay_program.specs.Runs.{ReplayWantsMemoryOrThread, TellsOfReading};
ghost use Rattle.replay_core.specs.Comparing.{WantsMemoryOrThread};
ghost use Rattle.depend_report.specs.Whole.{IsTextOf};
ghost use Rattle.replay_report.specs.Report.{check_line};
ghost use Rattle.replay_program.specs.Runs.{IsOutputOf, WritesOutput, WritesPart};
ghost use Rattle.replay_program.specs.Runs.{read_failures, rounds_output, sequential_report};
ghost use Rattle.replay_program.specs.Runs.{verdict_line, write_failures};
ghost use Rattle.byte_transfer.specs.Transfer.{AppendsPart};
ghost use Rattle.program_words.specs.Limits.{IsServed, IsWindow};

use crate::fault::RunFault;
use crate::forms::pieces_as;
use crate::in_turn::serial_report;
use crate::recordings::taken_recording;
use byte_transfer::{Sink, Source, write_text};
use depend_report::{depends_graph, depends_text};
use json_lines::Form;
use program_words::{Mode, Options};
use recording::Recording;
use replay_core::parallel::replay;
use replay_core::quick::replay_quick;
use replay_core::round_log::log_rounds;
use replay_core::{EagerGate, InOrder, InRounds, Replay, ReplayFault, Verdict, compared_by};
use replay_report::{Pieces, Shown, check_text, report_on as pieces_on};
use round_report::{graph_text, rounds_text};
use std::alloc::{AllocError, Global};
use std::sync::Wait;
use std::thread::Threads;
use trace_format::{Kind, Trace, TraceFault, read_trace};

/// Reads the trace, runs it as the options say and writes the output, with no thread. Nothing is
/// written before the whole output is there, and the run ends at the first failure of either side.
pub fn run_alone<R: Source, W: Sink>(
    alloc: Global,
    reader: &mut R,
    writer: &mut W,
    options: &Options,
    form: Form,
) -> Result<(), RunFault>
    requires mode { IsAlone options.now.mode }
    requires reader { R.failures reader.old < 2 ^ 64 - 1 }
    requires writer { W.failures writer.old < 2 ^ 64 - 1 }

    // The output is the one of the trace that the reader's bytes spell.
    ensures done { OnOk result (WritesOutput options.now form (R.left reader.old)
        (R.left reader.new) (W.written writer.old) (W.written writer.new)) }
    ensures part { result ≡ Err RunFault.Write → WritesPart options.now form (R.left reader.old)
        (R.left reader.new) (W.written writer.old) (W.written writer.new) }
    ensures nothing { IfErr result (λ fault. fault ≢ RunFault.Write
        → Keeps (W.written writer.old) (W.written writer.new)) }

    ensures taken { TakesTrace (R.left reader.old) (R.left reader.new) }
    ensures reading { IfErr result (TellsOfReading (R.left reader.old) (R.left reader.new)) }
    ensures read { R.failures reader.new ≡ R.failures reader.old + read_failures result }
    ensures write { W.failures writer.new ≡ W.failures writer.old + write_failures result }
{
    let trace = taken_recording(alloc, reader)?;
    let output = output_alone(alloc, &trace, options, form)?;
    written_pieces(writer, &output)
}

/// The same in every mode: those that ask for workers run in rounds on threads.
pub fn run<T: Threads + Wait + Sync, R: Source, W: Sink>(
    rt: &T,
    alloc: Global,
    reader: &mut R,
    writer: &mut W,
    options: &Options,
    form: Form,
) -> Result<(), RunFault>
    requires mode { IsServed options.now.mode }
    requires reader { R.failures reader.old < 2 ^ 64 - 1 }
    requires writer { W.failures writer.old < 2 ^ 64 - 1 }

    // The output is the one of the trace that the reader's bytes spell.
    ensures done { OnOk result (WritesOutput options.now form (R.left reader.old)
        (R.left reader.new) (W.written writer.old) (W.written writer.new)) }
    ensures part { result ≡ Err RunFault.Write → WritesPart options.now form (R.left reader.old)
        (R.left reader.new) (W.written writer.old) (W.written writer.new) }
    ensures nothing { IfErr result (λ fault. fault ≢ RunFault.Write → fault ≢ RunFault.Different
        → Keeps (W.written writer.old) (W.written writer.new)) }

    ensures taken { TakesTrace (R.left reader.old) (R.left reader.new) }
    ensures reading { IfErr result (TellsOfReading (R.left reader.old) (R.left reader.new)) }
    ensures read { R.failures reader.new ≡ R.failures reader.old + read_failures result }
    ensures write { W.failures writer.new ≡ W.failures writer.old + write_failures result }
    ensures same { result ≢ Err RunFault.Different }
{
    let trace = taken_recording(alloc, reader)?;
    if let Mode::Compare {
        workers,
        window,
        eager,
    } = options.mode
    {
        let verdict = comparison(rt, alloc, &trace, workers, window, eager)?;
        return told(alloc, writer, verdict);
    }
    let output = output_in_rounds(rt, alloc, &trace, options, form)?;
    written_pieces(writer, &output)
}

/// The output of any mode but a comparison, in the form that is asked for.
pub(crate) fn output_in_rounds<T: Threads + Wait + Sync>(
    rt: &T,
    alloc: Global,
    trace: &Recording,
    options: &Options,
    form: Form,
) -> Result<Pieces, RunFault>
    requires trace { IsAccepted trace.now }
    requires mode { IsServed options.now.mode }
    requires report { IsNoComparison options.now.mode }
    ensures ok { IfOk result (λ output. IsOutputOf options.now form trace.now output) }
    ensures err { IfErr result ReplayWantsMemoryOrThread }
{
    let text = text_in_rounds(rt, alloc, trace, options)?;
    pieces_as(alloc, form, text)
}

/// The text of any mode but a comparison.
fn text_in_rounds<T: Threads + Wait + Sync>(
    rt: &T,
    alloc: Global,
    trace: &Recording,
    options: &Options,
) -> Result<Pieces, RunFault>
    requires trace { IsAccepted trace.now }
    requires mode { IsServed options.now.mode }
    requires report { IsNoComparison options.now.mode }
    ensures ok { IfOk result
        (λ text. IsModeOutput options.now.mode options.now.shown trace.now text) }
    ensures err { IfErr result ReplayWantsMemoryOrThread }
{
    match options.mode {
        Mode::Run {
            workers,
            window,
            eager,
        } => {
            parallel_report(rt, alloc, trace, workers, window, eager, options.shown).map_err(
                RunFault::Replay,
            )
        }
        Mode::Rounds { window, dot } => {
            rounds_output(rt, alloc, trace, window, dot).map_err(RunFault::Replay)
        }
        _ => text_alone(alloc, trace, options),
    }
}

/// The rounds of a trace and what its places wait for, as lines or as a graph.
fn rounds_output<T: Threads + Wait + Sync>(
    rt: &T,
    alloc: Global,
    trace: &Recording,
    window: u32,
    dot: bool,
) -> Result<Pieces, ReplayFault>
    requires trace { IsAccepted trace.now }
    requires window { IsWindow window }
    ensures ok { IfOk result (λ text. text ≡ rounds_output dot trace.now window) }
    ensures err { IfErr result WantsMemoryOrThread }
{
    let log = log_rounds(rt, alloc, trace, window)?;
    let text = if dot {
        graph_text(alloc, trace, &log)
    } else {
        rounds_text(alloc, trace, &log)
    };
    match text {
        Ok(text) => in_one_piece(alloc, text),
        Err(AllocError) => Err(ReplayFault::Memory),
    }
}

/// The report of the run in rounds, or of that in recorded order where rounds can't pay; of one that
/// is eager always of that in rounds.
fn parallel_report<T: Threads + Wait + Sync>(
    rt: &T,
    alloc: Global,
    trace: &Recording,
    workers: u32,
    window: u32,
    eager: bool,
    shown: Shown,
) -> Result<Pieces, ReplayFault>
    requires trace { IsAccepted trace.now }
    requires workers { (1 ≤ workers) × (workers ≤ 64) }
    requires window { (1 ≤ window) × (window ≤ 4096) }
    ensures ok { IfOk result (λ text. text ≡ sequential_report trace.now shown) }
    ensures err { IfErr result WantsMemoryOrThread }
{
    if eager {
        let replay = replay(rt, alloc, trace, workers, window, &EagerGate)?;
        report_on(rt, alloc, trace, &replay, shown, workers)
    } else {
        let replay = replay_quick(rt, alloc, trace, workers, window)?;
        report_on(rt, alloc, trace, &replay, shown, workers)
    }
}

/// The report of what the run in recorded order gives, whose sums are made on up to so many threads.
fn report_on<T: Threads + Sync>(
    rt: &T,
    alloc: Global,
    trace: &Recording,
    replay: &Replay,
    shown: Shown,
    workers: u32,
) -> Result<Pieces, ReplayFault>
    requires trace { IsAccepted trace.now }
    requires world { replay.now.world ≡ whole (sequential_world trace.now) }
    requires replies { replay.now.replies ≡ sequential_replies trace.now }
    ensures ok { IfOk result (λ text. text ≡ sequential_report trace.now shown) }
    ensures err { IfErr result (λ fault. fault ≡ ReplayFault.Memory) }
{
    let state = replay.world.state();
    match pieces_on(rt, alloc, trace, state, &replay.replies, shown, workers) {
        Ok(text) => Ok(text),
        Err(AllocError) => Err(ReplayFault::Memory),
    }
}

/// How the run in rounds compares with the one in recorded order.
fn comparison<T: Threads + Wait + Sync>(
    rt: &T,
    alloc: Global,
    trace: &Recording,
    workers: u32,
    window: u32,
    eager: bool,
) -> Result<Verdict, RunFault>
    requires trace { IsAccepted trace.now }
    requires workers { (1 ≤ workers) × (workers ≤ 64) }
    requires window { (1 ≤ window) × (window ≤ 4096) }
    ensures ok { IfOk result (λ verdict. verdict ≡ Verdict.Equal) }
    ensures err { IfErr result ReplayWantsMemoryOrThread }
{
    let in_order = InOrder { trace };
    let in_rounds = InRounds {
        trace,
        workers,
        window,
        eager,
    };
    match compared_by(rt, alloc, &in_order, &in_rounds, workers) {
        Ok(verdict) => Ok(verdict),
        Err(fault) => Err(RunFault::Replay(fault)),
    }
}

/// Writes what a comparison found.
pub fn told<W: Sink>(alloc: Global, writer: &mut W, verdict: Verdict) -> Result<(), RunFault>
    requires { W.failures writer.old < 2 ^ 64 - 1 }
    ensures equal { verdict ≡ Verdict.Equal → result ≢ Err RunFault.Different }
    ensures different { OnOk result (verdict ≡ Verdict.Equal) }
    ensures whole { (result ≡ Ok tt) ⊎ (result ≡ Err RunFault.Different)
        → Appends (W.written writer.old) (W.written writer.new) (verdict_line verdict) }
    ensures part { result ≡ Err RunFault.Write
        → AppendsPart (W.written writer.old) (W.written writer.new) (verdict_line verdict) }
    ensures memory { IfErr result (λ fault. fault ≢ RunFault.Write → fault ≢ RunFault.Different
        → fault ≡ RunFault.Replay ReplayFault.Memory) }
    ensures nothing { result ≡ Err (RunFault.Replay ReplayFault.Memory)
        → Keeps (W.written writer.old) (W.written writer.new) }
    ensures write { W.failures writer.new ≡ W.failures writer.old + write_failures result }
{
    let Ok(line) = told_line(alloc, verdict) else {
        return Err(RunFault::Replay(ReplayFault::Memory));
    };
    written(writer, line.as_bytes())?;
    match verdict {
        Verdict::Equal => Ok(()),
        Verdict::Reply(_) | Verdict::World => Err(RunFault::Different),
    }
}

/// The line of a comparison.
fn told_line(alloc: Global, verdict: Verdict) -> Result<String, AllocError>
    ensures { IfOk result (λ line. string_bytes line ≡ verdict_line verdict) }
{
    match verdict {
        Verdict::Equal => String::from_str(alloc, "equal\n"),
        Verdict::Reply(place) => format!(in alloc; "different reply {place}\n"),
        Verdict::World => String::from_str(alloc, "different world\n"),
    }
}

/// Memory ran out before the trace was there.
pub(crate) fn no_memory() -> TraceFault
    ensures { result ≡ fault Memory 0 }
{
    TraceFault {
        kind: Kind::Memory,
        at: 0,
    }
}

/// The trace of a text, in a box: its owners let it go in one step.
pub(crate) fn trace_in(alloc: Global, text: Vec<u8>) -> Result<Box<Trace>, TraceFault>
    ensures trace { IfOk result (λ t. SpellsTrace text.items t.value) }
    ensures fault { IfErr result (λ f. (f ≡ fault Memory 0) ⊎ IsRefusal text.items f) }
{
    match Box::new(alloc, read_trace(alloc, text)?) {
        Ok(trace) => Ok(trace),
        Err(_) => Err(no_memory()),
    }
}

/// The output of a mode that needs no thread, in the form that is asked for.
fn output_alone(
    alloc: Global,
    trace: &Recording,
    options: &Options,
    form: Form,
) -> Result<Pieces, RunFault>
    requires trace { IsAccepted trace.now }
    requires mode { IsAlone options.now.mode }
    ensures ok { IfOk result (λ output. IsOutputOf options.now form trace.now output) }
    ensures err { IfErr result (λ fault. fault ≡ RunFault.Replay ReplayFault.Memory) }
{
    let text = text_alone(alloc, trace, options)?;
    pieces_as(alloc, form, text)
}

/// The text of a mode that needs no thread.
fn text_alone(alloc: Global, trace: &Recording, options: &Options) -> Result<Pieces, RunFault>
    requires trace { IsAccepted trace.now }
    requires mode { IsAlone options.now.mode }
    ensures ok { IfOk result
        (λ text. IsModeOutput options.now.mode options.now.shown trace.now text) }
    ensures err { IfErr result (λ fault. fault ≡ RunFault.Replay ReplayFault.Memory) }
{
    match options.mode {
        Mode::Serial => serial_report(alloc, trace, options.shown).map_err(RunFault::Replay),
        Mode::Depends { dot } => depends_output(alloc, trace, dot).map_err(RunFault::Replay),
        _ => check_output(alloc, trace).map_err(RunFault::Replay),
    }
}

/// The line of a check.
fn check_output(alloc: Global, trace: &Recording) -> Result<Pieces, ReplayFault>
    ensures ok { IfOk result (λ text. text ≡ check_line trace.now) }
    ensures err { IfErr result (λ fault. fault ≡ ReplayFault.Memory) }
{
    match check_text(alloc, trace) {
        Ok(text) => in_one_piece(alloc, text),
        Err(AllocError) => Err(ReplayFault::Memory),
    }
}

/// What the places of a trace wait for, as lines or as a graph.
fn depends_output(alloc: Global, trace: &Recording, dot: bool) -> Result<Pieces, ReplayFault>
    requires { IsAccepted trace.now }
    ensures ok { IfOk result (λ text. IsTextOf dot trace.now text) }
    ensures err { IfErr result (λ fault. fault ≡ ReplayFault.Memory) }
{
    let text = if dot {
        depends_graph(alloc, trace)
    } else {
        depends_text(alloc, trace)
    };
    match text {
        Ok(text) => in_one_piece(alloc, text),
        Err(AllocError) => Err(ReplayFault::Memory),
    }
}

/// A text that is there in one piece.
fn in_one_piece(alloc: Global, text: Vec<u8>) -> Result<Pieces, ReplayFault>
    ensures ok { IfOk result (λ pieces. pieces ≡ text.items) }
    ensures err { IfErr result (λ fault. fault ≡ ReplayFault.Memory) }
{
    match Pieces::of_text(alloc, text) {
        Ok(pieces) => Ok(pieces),
        Err(AllocError) => Err(ReplayFault::Memory),
    }
}

/// Writes the whole output, piece by piece.
pub(crate) fn written_pieces<W: Sink>(writer: &mut W, output: &Pieces) -> Result<(), RunFault>
    requires { W.failures writer.old < 2 ^ 64 - 1 }
    ensures ok { OnOk result (Appends (W.written writer.old) (W.written writer.new) output.now) }
    ensures part { OnErr result (AppendsPart (W.written writer.old) (W.written writer.new) output.now) }
    ensures err { IfErr result (λ fault. fault ≡ RunFault.Write) }
    ensures write { W.failures writer.new ≡ W.failures writer.old + write_failures result }
{
    for piece in output.pieces() {
        written(writer, piece.bytes())?;
    }
    Ok(())
}

/// Writes the whole output.
pub fn written<W: Sink>(writer: &mut W, output: &[u8]) -> Result<(), RunFault>
    requires { W.failures writer.old < 2 ^ 64 - 1 }
    ensures ok { OnOk result (Appends (W.written writer.old) (W.written writer.new) output.now) }
    ensures part { OnErr result (AppendsPart (W.written writer.old) (W.written writer.new) output.now) }
    ensures err { IfErr result (λ fault. fault ≡ RunFault.Write) }
    ensures write { W.failures writer.new ≡ W.failures writer.old + write_failures result }
{
    match write_text(writer, output) {
        Ok(()) => Ok(()),
        Err(_) => Err(RunFault::Write),
    }
}
