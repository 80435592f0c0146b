//! The report of a run in recorded order, whose lines are made as its places run.
ghost use Rattle.std.specs.Prelude.{◌≡◌, IfErr, IfOk, OnOk};
ghost use Rattle.op_meaning.specs.Step.{sequential_reply, sequential_world};
ghost use Rattle.replay_program.specs.Runs.{sequential_report};
ghost use Rattle.replay_report.specs.RingTexts.{texts_below};
ghost use Rattle.recording.specs.Steps.{places};
ghost use Rattle.recording.specs.Accepted.{IsAccepted};
ghost use Rattle.world_parts.specs.Start.{start};

use chain_plan::Stretch;
use op_meaning::run_step;
use recording::Recording;
use replay_core::ReplayFault;
use replay_report::{Answer, Lines, Pieces, RingTexts, Shown, report_of_texts};
use std::alloc::{AllocError, Global};
use std::mem;
use world_parts::State;

/// The roles of so many places are found at once: what these wait for from memory then comes at once.
const AHEAD: u32 = 64;

/// The report of the run in recorded order. No reply is kept behind its line.
pub(crate) fn serial_report(
    alloc: Global,
    trace: &Recording,
    shown: Shown,
) -> Result<Pieces, ReplayFault>
    requires { IsAccepted trace.now }
    ensures ok { IfOk result (λ text. text ≡ sequential_report trace.now shown) }
    ensures err { IfErr result (λ fault. fault ≡ ReplayFault.Memory) }
{
    match report_in_turn(alloc, trace, shown) {
        Ok(text) => Ok(text),
        Err(AllocError) => Err(ReplayFault::Memory),
    }
}

fn report_in_turn(alloc: Global, trace: &Recording, shown: Shown) -> Result<Pieces, AllocError>
    requires { IsAccepted trace.now }
    ensures { IfOk result (λ text. text ≡ sequential_report trace.now shown) }
{
    let mut state = State::of(alloc, trace)?;
    let lines = Lines::of(trace, shown.names);
    let texts = texts_in_turn(alloc, trace, &mut state, lines)?;
    let report = report_of_texts(alloc, trace, texts, &state, shown);
    // The program ends behind its report, and the system takes the world back faster than
    // destructors would.
    mem::forget(state);
    report
}

/// Runs the places of a trace in recorded order on the world that it starts with, and gives the
/// texts of its lists of entries.
fn texts_in_turn(
    alloc: Global,
    trace: &Recording,
    state: &mut State,
    lines: Lines,
) -> Result<RingTexts, AllocError>
    requires trace { IsAccepted trace.now }
    requires state { state.old ≡ start trace.now }
    ensures world { OnOk result (state.new ≡ sequential_world trace.now) }
    ensures texts { IfOk result (λ texts. texts
        ≡ texts_below trace.now (sequential_reply trace.now) lines (places trace.now)) }
{
    let mut plan = Stretch::new(alloc);
    let mut texts = RingTexts::new(alloc, trace, lines)?;
    for place in 0..trace.places() {
        if place == plan.end() {
            plan = plan.next(trace, AHEAD)?;
        }
        let step = trace.step(place);
        let reply = run_step(alloc, place, trace, &step, &plan.role(place), state)?;
        texts.push(place, &step, &Answer::of(&reply), lines)?;
    }
    Ok(texts)
}
