//! A place of a trace, run on a part of the world.
ghost use Rattle.std.specs.Prelude.{◌≡◌, ◌<◌, ◌≤◌, ◌^◌, [], map, IfOk, IfSome};
ghost use Rattle.std.specs.Prelude.{OnOk, Some, false, pos, true};
ghost use Rattle.chain_plan.specs.Chain.{role};
ghost use Rattle.entry_checks.specs.Meant.{meant};
ghost use Rattle.entry_checks.specs.Operation.{asked, told};
ghost use Rattle.op_meaning.specs.Outcomes.{answered, fails_as, reply_with};
ghost use Rattle.op_meaning.specs.Runs.{run_on};
ghost use Rattle.op_meaning.specs.Site.{IsSite};
ghost use Rattle.op_meaning.specs.Step.{breaks, error_reply, filled_slot, held_by};
ghost use Rattle.op_meaning.specs.Step.{reply_of, step_reply, step_world};
ghost use Rattle.op_meaning.specs.Step as step;
ghost use Rattle.op_meaning.specs.Turns.{call_meant, turn_world};
ghost use Rattle.trace_format.specs.Sides.{most_moved};
ghost use Rattle.trace_records.specs.declared.record.FullSlot as full;
ghost use Rattle.recording.specs.Steps.{places, step_at, step_meant};
ghost use Rattle.recording.specs.Accepted.{IsAccepted};
ghost use Rattle.world_parts.specs.World.{apply_all};

use crate::limits::MOST_MOVED;
use crate::outcome::Outcome;
use crate::reply::Reply;
use crate::rows::run_operation;
use crate::site::Site;
use crate::turn::{Call, Turn, TurnKind, turn_in};
use chain_plan::Role;
use entry_checks::Op;
use extent_bytes::ReadBytes;
use recording::{Entry, FullSlot, Holder, Recording, Step};
use sqe_codec::{CQE_SKIP_SUCCESS, Errno, IO_HARDLINK};
use std::alloc::{AllocError, Global};
use world_parts::{Broken, Part, State};

/// Runs the step at a place of a trace on a part of the world.
///
/// # Errors
///
/// Out of memory; the part can then only be dropped.
pub fn run_entry(
    alloc: Global,
    place: u32,
    trace: &Recording,
    role_there: &Role,
    part: &mut Part,
) -> Result<Reply, AllocError>
    requires trace { IsAccepted trace.now }
    requires place { place < places trace.now }
    requires role { role_there.now ≡ role trace.now place }
    ensures reply { IfOk result (λ reply. Some reply ≡ step_reply trace.now place part.old.values) }
    ensures values { OnOk result (part.new ≡ run_on trace.now place part.old) }
{
    run_on_state(alloc, place, trace, role_there, &mut part.state)
}

/// Runs the step at a place of a trace on the maps of a world.
///
/// # Errors
///
/// Out of memory; the state can then only be dropped.
#[inline(always)]
pub fn run_on_state(
    alloc: Global,
    place: u32,
    trace: &Recording,
    role_there: &Role,
    state: &mut State,
) -> Result<Reply, AllocError>
    requires trace { IsAccepted trace.now }
    requires place { place < places trace.now }
    requires role { role_there.now ≡ role trace.now place }
    ensures reply { IfOk result (λ reply. Some reply ≡ step_reply trace.now place state.old) }
    ensures state { OnOk result (state.new ≡ step_world trace.now place state.old) }
{
    run_step(alloc, place, trace, &trace.step(place), role_there, state)
}

/// The same, by the step of the place, for who has it at hand.
///
/// # Errors
///
/// Out of memory; the state can then only be dropped.
#[inline(always)]
pub fn run_step(
    alloc: Global,
    place: u32,
    trace: &Recording,
    there: &Step<'_>,
    role_there: &Role,
    state: &mut State,
) -> Result<Reply, AllocError>
    requires trace { IsAccepted trace.now }
    requires there { step_at trace.now place ≡ Some (step_meant there.now) }
    requires role { role_there.now ≡ role trace.now place }
    ensures reply { IfOk result (λ reply. Some reply ≡ step_reply trace.now place state.old) }
    ensures state { OnOk result (state.new ≡ step_world trace.now place state.old) }
{
    let Turn { ring, kind } = turn_in(place, trace, there, role_there, state);
    match &kind {
        TurnKind::Fills {
            buffer,
            offset,
            bytes,
        } => {
            let buffer = u32::from(*buffer);
            state.fill_from_blob(ring, buffer, u64::from(*offset), bytes)?;
            Ok(silent(alloc))
        }
        TurnKind::Registers(slots) => {
            register(alloc, ring, slots.as_slice(), state)?;
            Ok(silent(alloc))
        }
        TurnKind::Calls { call: made } => {
            let site = Site { trace, place, ring };
            call(alloc, site, *made, state)
        }
        TurnKind::Refused { error, posted } => Ok(refused(alloc, *error, *posted)),
        TurnKind::Canceled { posted } => Ok(refused(alloc, Errno::ECANCELED, *posted)),
        TurnKind::Runs { entry, op } => {
            let site = Site { trace, place, ring };
            run(alloc, site, entry, *op, role_there, state)
        }
    }
}

/// Does what a call of the program did.
#[inline(never)]
fn call(
    alloc: Global,
    site: Site<'_>,
    made: Call<'_>,
    state: &mut State,
) -> Result<Reply, AllocError>
    requires site { IsSite site }
    ensures reply { IfOk result (λ reply. reply
        ≡ reply_of site.entry.trace.now site.entry.place state.old
        (step.called site.entry.ring (call_meant made.entry))) }
    ensures state { OnOk result (state.new
        ≡ turn_world site.entry.trace.now site.entry.place state.old
        (step.called site.entry.ring (call_meant made.entry))) }
{
    let _ = run_operation(alloc, site, made.op(), state)?;
    Ok(silent(alloc))
}

/// What a slot of a new ring gets.
fn held_by(holder: Holder, state: &State) -> Option<u32>
    ensures { result ≡ held_by state.now holder }
{
    match holder {
        Holder::Slot { ring, number } => state.slot(ring, number),
        Holder::Descriptor { number } => state.descriptor(number),
        Holder::Description { number } => state.description(number).map(|_| number),
    }
}

/// What the slots of a new ring get.
fn all_held(
    alloc: Global,
    slots: &[FullSlot],
    state: &State,
) -> Result<Vec<Option<u32>>, AllocError>
    ensures { IfOk result (λ held. held.items
        ≡ map (λ (x : full.FullSlot). held_by state.now x.holds) slots.now) }
{
    let mut held = Vec::with_capacity(alloc, slots.len())?;
    for slot in slots {
        held.push(held_by(slot.holds, state))?;
    }
    Ok(held)
}

/// Fills the slots of a new ring with what others hold.
#[inline(never)]
fn register(
    alloc: Global,
    ring: u32,
    slots: &[FullSlot],
    state: &mut State,
) -> Result<(), AllocError>
    ensures { OnOk result
        (state.new ≡ apply_all (map (filled_slot ring state.old) slots.now) state.old) }
{
    let held = all_held(alloc, slots, state)?;
    for (i, slot) in slots.iter().enumerate() {
        state.set_slot(ring, slot.number, held[i])?;
    }
    Ok(())
}

/// Runs an operation, and breaks its chain where it fails.
#[inline(always)]
fn run(
    alloc: Global,
    site: Site<'_>,
    entry: &Entry<'_>,
    op: Op<'_>,
    role_there: &Role,
    state: &mut State,
) -> Result<Reply, AllocError>
    requires site { IsSite site }
    requires role { role_there.now ≡ role site.trace.now site.place }
    requires short { IfSome (asked (meant op)) (λ n. n ≤ most_moved) }
    ensures reply { IfOk result (λ reply. reply
        ≡ reply_of site.entry.trace.now site.entry.place state.old
        (step.runs site.entry.ring entry.now (meant op.entry))) }
    ensures state { OnOk result (state.new
        ≡ turn_world site.entry.trace.now site.entry.place state.old
        (step.runs site.entry.ring entry.now (meant op.entry))) }
{
    let told = told(&op);
    let asked = asked(&op);
    let outcome = run_operation(alloc, site, op, state)?;
    let fails = failed(told, asked, &outcome);
    break_chain(role_there, entry, fails, state)?;
    let posted = !entry.sqe().has(CQE_SKIP_SUCCESS) || fails;
    Ok(reply_to(alloc, told, outcome, posted))
}

/// The result that the trace gives, and whether the operation fails; of other operations it gives
/// none.
fn told(op: &Op<'_>) -> Option<(i32, bool)>
    ensures { result ≡ told (meant op.now) }
{
    match op {
        Op::Given { result, fails } => Some((*result, *fails)),
        _ => None,
    }
}

/// How many bytes a transfer asks for; other operations ask for none.
fn asked(op: &Op<'_>) -> Option<u64>
    ensures { result ≡ asked (meant op.now) }
{
    let most = u64::from(MOST_MOVED);
    match op {
        Op::Readv { total, .. } => Some((*total).min(most)),
        Op::Read { total, .. } => Some(u64::from(*total).min(most)),
        Op::ReadFixed { span, .. } | Op::WriteFixed { span, .. } => {
            Some(u64::from(span.length).min(most))
        }
        Op::Writev { bytes, .. } | Op::Write { bytes, .. } => Some(bytes.len() as u64),
        _ => None,
    }
}

/// Whether an operation failed: where its result is given as that says, a transfer where it moved
/// other than was asked for, any other where it was refused.
fn failed(told: Option<(i32, bool)>, asked: Option<u64>, outcome: &Outcome) -> bool
    ensures { result ≡ fails_as told asked (answered outcome.now) }
{
    match (told, asked, outcome) {
        (_, _, Err(_)) => true,
        (Some((_, fails)), _, Ok(_)) => fails,
        (None, Some(asked), Ok(done)) => asked != u64::from(done.count),
        (None, None, Ok(_)) => false,
    }
}

/// Breaks the chain of an entry that fails, unless it has a hard link or stands last.
fn break_chain(
    role_there: &Role,
    entry: &Entry<'_>,
    fails: bool,
    state: &mut State,
) -> Result<(), AllocError>
    ensures { OnOk result
        (state.new ≡ apply_all (breaks role_there.now entry.now fails) state.old) }
{
    let is_last = role_there.length.saturating_sub(1) <= role_there.member;
    if !fails || is_last || entry.sqe().has(IO_HARDLINK) {
        return Ok(());
    }
    let broken = if entry.sqe().has(CQE_SKIP_SUCCESS) {
        Broken::Quiet
    } else {
        Broken::Loud
    };
    state.break_chain(role_there.chain, broken)
}

/// The reply to an operation that ran. It takes no memory.
fn reply_to(alloc: Global, told: Option<(i32, bool)>, outcome: Outcome, posted: bool) -> Reply
    requires { IfOk outcome (λ d. d.count < 2 ^ 31) }
    ensures { result ≡ reply_with told posted (answered outcome) }
{
    match outcome {
        Ok(done) => Reply {
            res: match told {
                Some((given, _)) => given,
                None => done.count as i32,
            },
            bytes: done.bytes,
            posted,
        },
        Err(error) => refused(alloc, error, posted),
    }
}

/// The reply to an entry that is refused or canceled. It takes no memory.
fn refused(alloc: Global, error: Errno, posted: bool) -> Reply
    ensures { result ≡ error_reply error posted }
{
    Reply {
        res: -error.code(),
        bytes: ReadBytes::none(alloc),
        posted,
    }
}

/// The reply to a fill or a new ring, which is not posted. It takes no memory.
fn silent(alloc: Global) -> Reply
    ensures { result ≡ record { res = pos 0; bytes = []; posted = false } }
{
    Reply {
        res: 0,
        bytes: ReadBytes::none(alloc),
        posted: false,
    }
}
