//! What operations do that are accepted, decided on before it is done.
ghost use Rattle.std.specs.Prelude.{◌≡◌, IfOk, OnOk};
ghost use Rattle.op_meaning.specs.Decision.{effect_of, IsWithinLimits};
ghost use Rattle.op_meaning.specs.Outcomes.{Gives};
ghost use Rattle.op_meaning.specs.Site.{IsSite, site_meant};
ghost use Rattle.world_parts.specs.World.{apply_all};

use crate::allocating::RangeAllocation;
use crate::holding::{hold_other, hold_path, put};
use crate::measuring::tell;
use crate::names::{NameChanges, change_names};
use crate::naming::make_directory;
use crate::open_files::{allocate, empty};
use crate::opening::{Opening, open};
use crate::outcome::{Done, finished, finished_after};
use crate::site::Site;
use crate::transferring::{read, read_fixed, write, write_fixed};
use crate::transfers::{BufferRead, BufferWrite, FileRead, FileWrite};
use entry_checks::FileNumber;
use file_tree::Place;
use std::alloc::{AllocError, Global};
use world_parts::State;

/// What an operation does that is accepted, with all that its tests found out. It borrows the bytes
/// and the names of its entry.
#[derive(Clone, Copy)]
pub(crate) enum Decision<'a> {
    Nothing,
    Tell {
        kind: u8,
        size: u64,
    },
    Read(FileRead),
    Write(FileWrite<'a>),
    ReadFixed(BufferRead),
    WriteFixed(BufferWrite),
    Allocate(RangeAllocation),
    Resize {
        node: u32,
        size: u64,
    },
    Open(Opening<'a>),
    Empty(FileNumber),
    MakeDirectory(Place<'a>),
    ChangeNames(NameChanges<'a>),
    Hold {
        file: FileNumber,
        holds: Option<u32>,
    },
    HoldPath {
        opening: Opening<'a>,
        position: u64,
    },
    HoldOther(FileNumber),
    Seek {
        description: u32,
        position: u64,
    },
}

/// Does what was decided on where an entry stands.
///
/// # Errors
///
/// Out of memory; the state can then only be dropped.
#[inline(always)]
pub(crate) fn carry_out(
    alloc: Global,
    site: Site<'_>,
    decision: Decision<'_>,
    state: &mut State,
) -> Result<Done, AllocError>
    requires site { IsSite site }
    requires limits { IsWithinLimits state.old site.ring decision }
    ensures answer { IfOk result (Gives (effect_of (site_meant site.entry) state.old
        decision.entry)) }
    ensures state { OnOk result (state.new ≡ apply_all (effect_of
        (site_meant site.entry) state.old decision.entry).changes state.old) }
{
    match decision {
        Decision::Nothing => Ok(finished(alloc)),
        Decision::Tell { kind, size } => tell(alloc, kind, size),
        Decision::Read(asked) => read(alloc, asked, state),
        Decision::Write(asked) => write(alloc, asked, state),
        Decision::ReadFixed(asked) => read_fixed(alloc, site.ring, asked, state),
        Decision::WriteFixed(asked) => write_fixed(alloc, site.ring, asked, state),
        Decision::Allocate(range) => finished_after(alloc, allocate(range, state)),
        Decision::Resize { node, size } => finished_after(alloc, state.set_size(node, size)),
        Decision::Open(opening) => open(alloc, site, opening, state),
        Decision::Empty(file) => finished_after(alloc, empty(site.ring, file, state)),
        Decision::MakeDirectory(place) => {
            finished_after(alloc, make_directory(alloc, site, place, state))
        }
        Decision::ChangeNames(changes) => {
            finished_after(alloc, change_names(alloc, changes, state))
        }
        Decision::Hold { file, holds } => {
            finished_after(alloc, put(site.ring, file, holds, state))
        }
        Decision::HoldPath { opening, position } => {
            finished_after(alloc, hold_path(alloc, site, opening, position, state))
        }
        Decision::HoldOther(file) => finished_after(alloc, hold_other(site, file, state)),
        Decision::Seek {
            description,
            position,
        } => {
            state.set_position(description, position);
            Ok(finished(alloc))
        }
    }
}
