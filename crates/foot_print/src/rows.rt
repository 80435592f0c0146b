//! What each operation uses.
ghost use Rattle.std.specs.Prelude.{◌≡◌, ◌++◌, OnOk};
ghost use Rattle.entry_checks.specs.Meant.{meant};
ghost use Rattle.foot_print.specs.Attempts.{taken_meant};
ghost use Rattle.foot_print.specs.Shapes.{shape_meant};
ghost use Rattle.foot_print.specs.Footprint.{foreseen, row_in, uses, uses_in};
ghost use Rattle.op_meaning.specs.Shape.{look};
ghost use Rattle.op_meaning.specs.Lookups.{found_meant};
ghost use Rattle.op_meaning.specs.Meaning.{found, shape};
ghost use Rattle.op_meaning.specs.Site.{IsSite, site_meant};

use crate::attempt::{Attempt, Taken};
use crate::file_rows::{
    FileRange, allocated_uses, file_item, file_reads, file_writes, moved_uses, position_sought,
    resized_uses, span_use,
};
use crate::path_rows::{
    description_taken, freed_at, made_at, measured_at, opened_at, room_taken, written_at,
};
use crate::seen::shape_seen;
use crate::shape::{Shape, shape_of};
use entry_checks::Op;
use op_meaning::{Lookup, Site, accepts};
use std::alloc::{AllocError, Global};
use world_parts::{Footprint, Item, State};

/// What an operation at a place of a ring uses in a world. Where the world refuses it, it only
/// reads.
///
/// # Errors
///
/// Out of memory.
pub(crate) fn operation_uses(
    alloc: Global,
    site: Site<'_>,
    op: Op<'_>,
    state: &State,
    footprint: &mut Footprint,
) -> Result<(), AllocError>
    requires site { IsSite site }
    ensures { OnOk result (footprint.new ≡ footprint.old ++ row_in (site_meant site.entry) state.now
        (meant op.entry)) }
{
    let lookup = shape_seen(alloc, site, shape_of(op), state, footprint)?;
    uses_behind(alloc, site, op, lookup, state, footprint)
}

/// What an operation uses beside what decides it, by what that leads to. Where the world refuses it,
/// it only reads.
pub(crate) fn uses_behind<'a>(
    alloc: Global,
    site: Site<'_>,
    op: Op<'a>,
    lookup: Lookup<'a>,
    state: &State,
    footprint: &mut Footprint,
) -> Result<(), AllocError>
    requires site { IsSite site }
    requires lookup { found_meant state.now lookup
        ≡ found (site_meant site) state.now (look (shape (meant op))) }
    ensures { OnOk result (footprint.new ≡ footprint.old ++ uses_in
        (site_meant site.entry) state.now (meant op.entry)
        (found_meant state.now lookup.entry)) }
{
    let known = footprint.len();
    let accepted = accepts(site, op, &lookup, state);
    let attempt = Attempt {
        site,
        taken: Taken::Tried { accepted },
    };
    push_uses(alloc, attempt, shape_of(op), lookup, state, footprint)?;
    if !accepted {
        footprint.make_read_only(known);
    }
    Ok(())
}

/// What an operation of a shape uses as accepted, beside what decides it, by what that leads to, while
/// it isn't known yet which files become longer.
pub(crate) fn uses_foreseen(
    alloc: Global,
    site: Site<'_>,
    shape: Shape<'_>,
    lookup: Lookup<'_>,
    state: &State,
    footprint: &mut Footprint,
) -> Result<(), AllocError>
    requires site { IsSite site }
    ensures { OnOk result (footprint.new ≡ footprint.old ++ uses
        (site_meant site.entry) state.now foreseen (shape_meant shape.entry)
        (found_meant state.now lookup.entry)) }
{
    let attempt = Attempt {
        site,
        taken: Taken::Foreseen,
    };
    push_uses(alloc, attempt, shape, lookup, state, footprint)
}

/// What an operation of a shape uses beside what decides it, by what that leads to, with what it
/// writes where it is accepted.
fn push_uses(
    alloc: Global,
    attempt: Attempt<'_>,
    shape: Shape<'_>,
    lookup: Lookup<'_>,
    state: &State,
    footprint: &mut Footprint,
) -> Result<(), AllocError>
    requires site { IsSite attempt.site }
    ensures { OnOk result (footprint.new ≡ footprint.old ++ uses
        (site_meant attempt.entry.site) state.now
        (taken_meant attempt.entry.taken) (shape_meant shape.entry)
        (found_meant state.now lookup.entry)) }
{
    let Attempt { site, taken } = attempt;
    match shape {
        Shape::Idle => Ok(()),
        Shape::Looking { file } => file_reads(site, file, footprint),
        Shape::Moving {
            into_file,
            offset,
            count,
            span,
            ..
        } => {
            let range = FileRange { offset, count };
            moved_uses(taken, into_file, lookup.file(), range, state, footprint)?;
            match span {
                Some(span) => span_use(site, span, !into_file, footprint),
                None => Ok(()),
            }
        }
        Shape::Allocating {
            offset,
            size,
            mode,
            ..
        } => {
            let range = FileRange {
                offset,
                count: size,
            };
            allocated_uses(taken, lookup.file(), range, mode, state, footprint)
        }
        Shape::Resizing { size, .. } => resized_uses(lookup.file(), size, state, footprint),
        Shape::Closing { file } => file_writes(site, file, footprint),
        Shape::Opening { flags, slot, .. } => {
            room_taken(attempt, slot, state, footprint)?;
            description_taken(attempt, footprint)?;
            opened_at(alloc, attempt, flags, lookup.place(), state, footprint)
        }
        Shape::Measuring { .. } => measured_at(lookup.place(), state, footprint),
        Shape::Making { .. } => made_at(alloc, attempt, lookup.place(), state, footprint),
        Shape::Freeing {
            removes_directory,
            ..
        } => {
            let found = lookup.place();
            freed_at(alloc, found, removes_directory, state, footprint)
        }
        Shape::Linking { .. } => written_at(alloc, lookup.new_place(), footprint),
        Shape::Renaming { .. } => {
            written_at(alloc, lookup.place(), footprint)?;
            freed_at(alloc, lookup.new_place(), true, state, footprint)
        }
        Shape::Holding { file } => footprint.writes(file_item(site.ring, file)),
        Shape::HoldingPath { file, flags, .. } => {
            footprint.writes(file_item(site.ring, file))?;
            description_taken(attempt, footprint)?;
            opened_at(alloc, attempt, flags, lookup.place(), state, footprint)
        }
        Shape::HoldingCopy { file, ring, source } => {
            footprint.reads(file_item(ring, source))?;
            footprint.writes(file_item(site.ring, file))
        }
        Shape::HoldingOther { file } => {
            footprint.reads(Item::Names(0))?;
            footprint.writes(file_item(site.ring, file))?;
            description_taken(attempt, footprint)
        }
        Shape::Seeking { .. } => position_sought(lookup.file(), state, footprint),
    }
}
