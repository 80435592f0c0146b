//! The table of the operations: what each does, or why the world refuses it.
ghost use Rattle.std.specs.Prelude.{◌≡◌, ◌≤◌, ℕ, IfOk, IfSome, None, is_ok, OnOk};
ghost use Rattle.entry_checks.specs.Meant.{meant};
ghost use Rattle.entry_checks.specs.Operation.{asked};
ghost use Rattle.op_meaning.specs.Deciding.{Decides};
ghost use Rattle.op_meaning.specs.Decision.{effect_of, IsWithinLimits};
ghost use Rattle.op_meaning.specs.Shape.{look};
ghost use Rattle.op_meaning.specs.Lookups.{Finds, Tells};
ghost use Rattle.op_meaning.specs.Meaning as model;
ghost use Rattle.op_meaning.specs.Meaning.{meaning, shape};
ghost use Rattle.op_meaning.specs.NameChanges.{decision_meant};
ghost use Rattle.op_meaning.specs.Outcomes.{Answers, world_after};
ghost use Rattle.op_meaning.specs.Site.{IsSite, site_meant};
ghost use Rattle.trace_format.specs.Sides.{most_moved};
ghost use Rattle.recording.specs.Accepted.{IsAccepted};
ghost use Rattle.world_parts.specs.World.{World};

use crate::allocating::AllocationRequest;
use crate::decision::{Decision, carry_out};
use crate::holding::{held_in, holding_path, seeking};
use crate::lookup::Lookup;
use crate::measuring::{measuring, measuring_open};
use crate::names::NameChanges;
use crate::naming::{linking, making, renaming, unlinking};
use crate::open_files::{advising, allocating, closing, resizing, syncing, syncing_range};
use crate::opening::find_opening;
use crate::outcome::Outcome;
use crate::site::Site;
use crate::transfers::{reading, reading_fixed, writing, writing_fixed};
use entry_checks::Op;
use sqe_codec::Errno;
use std::alloc::{AllocError, Global};
use world_parts::State;

/// What an operation does that changes names alone.
fn changing<'a>(changes: Result<NameChanges<'a>, Errno>) -> Result<Decision<'a>, Errno>
    ensures meaning { (site : model.Site) (s : World)
        → Decides (decision_meant s.nodes changes.entry) (effect_of site s) result }
    ensures limits { (s : World) (r : ℕ) → IfOk result (IsWithinLimits s r) }
{
    Ok(Decision::ChangeNames(changes?))
}

/// What an operation that moves no bytes does where an entry stands: see [`decide`]. It is a
/// function of its own, so that a transfer, of which there are most, has no room to fill for the
/// others.
#[inline(never)]
fn decide_on_rest<'a>(
    site: Site<'_>,
    op: Op<'a>,
    lookup: &Lookup<'a>,
    state: &State,
) -> Result<Decision<'a>, Errno>
    requires rest { asked (meant op) ≡ None }
    requires spelled { IsAccepted site.trace.now }
    requires lookup { Tells lookup.now
        (Finds (site_meant site) state.now (look (shape (meant op))) lookup.now) }
    ensures meaning { Decides
        (meaning (site_meant site.entry) state.now (meant op.entry))
        (effect_of (site_meant site.entry) state.now) result }
    ensures limits { IfOk result (IsWithinLimits state.now site.entry.ring) }
{
    match op {
        Op::Fsync { file } => syncing(site, file, state),
        Op::Fallocate {
            file,
            offset,
            size,
            mode,
        } => {
            let request = AllocationRequest { offset, size, mode };
            allocating(site, file, lookup, request, state)
        }
        Op::Openat { path, flags, slot } => find_opening(site, path, lookup, flags, slot, state),
        Op::Close { file } => closing(site, file, state),
        Op::Renameat { old, new, flags } => changing(renaming(old, new, lookup, flags, state)),
        Op::Unlinkat {
            path,
            removes_directory,
        } => changing(unlinking(path, lookup, removes_directory, state)),
        Op::Mkdirat { path } => making(site, path, lookup, state),
        Op::Linkat { old, new } => changing(linking(old, new, lookup, state)),
        Op::Ftruncate { file, size } => resizing(site, file, lookup, size, state),
        Op::SyncFileRange {
            file,
            offset,
            size,
            flags,
        } => syncing_range(site, file, offset, size, flags, state),
        Op::Fadvise { file, size, advice } => advising(site, file, size, advice, state),
        Op::Statx { path } => measuring(site, path, lookup, state),
        Op::StatxFile { file } => measuring_open(site, file, lookup, state),
        Op::StatxRoot => Ok(Decision::Tell { kind: 1, size: 0 }),
        Op::HoldNothing { file } => Ok(Decision::Hold { file, holds: None }),
        Op::HoldPath {
            file,
            path,
            flags,
            position,
        } => Ok(holding_path(site, file, path, lookup, flags, position, state)),
        Op::HoldCopy { file, ring, source } => Ok(Decision::Hold {
            file,
            holds: held_in(ring, source, state),
        }),
        Op::HoldOther { file } => Ok(Decision::HoldOther(file)),
        Op::Seek { file, position } => Ok(seeking(site, file, lookup, position, state)),
        // A NOP or one whose result is given, since transfers don't come here.
        _ => Ok(Decision::Nothing),
    }
}

/// What an operation does where an entry stands, by look-ups alone, those of which something is found
/// already left out. It takes no memory.
///
/// # Errors
///
/// That of the first test that fails.
#[inline(always)]
fn decide<'a>(
    site: Site<'_>,
    op: Op<'a>,
    lookup: &Lookup<'a>,
    state: &State,
) -> Result<Decision<'a>, Errno>
    requires spelled { IsAccepted site.trace.now }
    requires lookup { Tells lookup.now
        (Finds (site_meant site) state.now (look (shape (meant op))) lookup.now) }
    ensures meaning { Decides
        (meaning (site_meant site.entry) state.now (meant op.entry))
        (effect_of (site_meant site.entry) state.now) result }
    ensures limits { IfSome (asked (meant op.entry)) (λ n. n ≤ most_moved)
        → IfOk result (IsWithinLimits state.now site.entry.ring) }
{
    match op {
        Op::Readv {
            file,
            offset,
            total,
        } => reading(site, file, lookup, offset, total, state),
        Op::Writev {
            file,
            offset,
            bytes,
        } => writing(site, file, lookup, offset, bytes, state),
        Op::ReadFixed { file, offset, span } => {
            reading_fixed(site, file, lookup, offset, span, state)
        }
        Op::WriteFixed { file, offset, span } => {
            writing_fixed(site, file, lookup, offset, span, state)
        }
        Op::Read {
            file,
            offset,
            total,
        } => reading(site, file, lookup, offset, u64::from(total), state),
        Op::Write {
            file,
            offset,
            bytes,
        } => writing(site, file, lookup, offset, bytes, state),
        _ => decide_on_rest(site, op, lookup, state),
    }
}

/// Runs an operation where an entry stands.
///
/// # Errors
///
/// Out of memory; the state can then only be dropped.
#[inline(always)]
pub(crate) fn run_operation(
    alloc: Global,
    site: Site<'_>,
    op: Op<'_>,
    state: &mut State,
) -> Result<Outcome, AllocError>
    requires site { IsSite site }
    requires short { IfSome (asked (meant op)) (λ n. n ≤ most_moved) }
    ensures answer { IfOk result
        (Answers (meaning (site_meant site.entry) state.old
        (meant op.entry))) }
    ensures state { OnOk result (state.new ≡ world_after state.old
        (meaning (site_meant site.entry) state.old
        (meant op.entry))) }
{
    match decide(site, op, &Lookup::Nothing, state) {
        Ok(decision) => Ok(Ok(carry_out(alloc, site, decision, state)?)),
        Err(error) => Ok(Err(error)),
    }
}

/// Whether the world accepts an operation where an entry stands, by what its file number or its
/// paths lead to: whether it is done without an error. It takes no memory.
pub fn accepts<'a>(site: Site<'_>, op: Op<'a>, lookup: &Lookup<'a>, state: &State) -> bool
    requires spelled { IsAccepted site.trace.now }
    requires lookup { Finds (site_meant site) state.now (look (shape (meant op))) lookup.now }
    ensures { result ≡ is_ok (meaning (site_meant site.entry) state.now (meant op.entry)) }
{
    decide(site, op, lookup, state).is_ok()
}
