//! What slots and descriptors hold from a record on, and the positions of what they hold.
ghost use Rattle.std.specs.Prelude.{◌≡◌, OnOk, Ok};
ghost use Rattle.entry_checks.specs.Meant.{file_meant, flags_meant, path_meant};
ghost use Rattle.file_tree.specs.Walk.{walk};
ghost use Rattle.op_meaning.specs.Decision.{effect_of, IsWithinLimits};
ghost use Rattle.op_meaning.specs.Lookups.{FindsFile, FindsPlace, Tells};
ghost use Rattle.op_meaning.specs.Meaning as meaning;
ghost use Rattle.op_meaning.specs.Opening.{opened_as};
ghost use Rattle.op_meaning.specs.Site.{IsSite, site_meant};
ghost use Rattle.recording.specs.Accepted.{IsAccepted};
ghost use Rattle.world_parts.specs.World.{apply, apply_all};

use crate::decision::Decision;
use crate::lookup::Lookup;
use crate::made::made_description;
use crate::opening::{Opening, open, opening_in};
use crate::site::Site;
use entry_checks::{FileNumber, OpenAtFlags, PathAt};
use recording::{Access, Description};
use std::alloc::{AllocError, Global};
use world_parts::State;

/// A slot of a ring, or a descriptor, gets a description, or becomes empty.
pub(crate) fn put(
    ring: u32,
    file: FileNumber,
    description: Option<u32>,
    state: &mut State,
) -> Result<(), AllocError>
    ensures { OnOk result
        (state.new ≡ apply (meaning.put ring (file_meant file) description) state.old) }
{
    match file {
        FileNumber::Slot(number) => state.set_slot(ring, number, description),
        FileNumber::Descriptor(number) => state.set_descriptor(number, description),
    }
}

/// What it holds.
pub(crate) fn held_in(ring: u32, file: FileNumber, state: &State) -> Option<u32>
    ensures { result ≡ meaning.held_in state.now ring (file_meant file) }
{
    match file {
        FileNumber::Slot(number) => state.slot(ring, number),
        FileNumber::Descriptor(number) => state.descriptor(number),
    }
}

/// What a slot or a descriptor holds that gets a new description of a path: nothing, where openat
/// refuses the path.
pub(crate) fn holding_path<'a>(
    site: Site<'_>,
    file: FileNumber,
    path: PathAt<'a>,
    lookup: &Lookup<'a>,
    flags: OpenAtFlags,
    position: u64,
    state: &State,
) -> Decision<'a>
    requires spelled { IsAccepted site.trace.now }
    requires lookup { Tells lookup.now (FindsPlace state.now (path_meant path) lookup.now) }
    ensures meaning { effect_of (site_meant site.entry) state.now result
        ≡ meaning.held_path (site_meant site.entry) (file_meant file) position
        (meaning.opened_in (site_meant site.entry) (flags_meant flags) (Ok (file_meant file))
        (walk state.now.nodes (path_meant path.entry))) }
    ensures limits { IsWithinLimits state.now site.entry.ring result }
{
    match opening_in(site, file, path, lookup, flags, state) {
        Ok(opening) => Decision::HoldPath { opening, position },
        Err(_) => Decision::Hold { file, holds: None },
    }
}

/// The position of what is open at a file number.
pub(crate) fn seeking<'a>(
    site: Site<'_>,
    file: FileNumber,
    lookup: &Lookup<'a>,
    position: u64,
    state: &State,
) -> Decision<'a>
    requires spelled { IsAccepted site.trace.now }
    requires lookup { Tells lookup.now
        (FindsFile (site_meant site) state.now (file_meant file) lookup.now) }
    ensures meaning { effect_of (site_meant site.entry) state.now result
        ≡ meaning.sought position
        (meaning.handle (site_meant site.entry) state.now (file_meant file)) }
    ensures limits { IsWithinLimits state.now site.entry.ring result }
{
    match lookup.file_at(site, file, state) {
        Some(opened) => Decision::Seek {
            description: opened.number,
            position,
        },
        None => Decision::Nothing,
    }
}

/// Opens a file, and gives its new description a position.
pub(crate) fn hold_path(
    alloc: Global,
    site: Site<'_>,
    opening: Opening<'_>,
    position: u64,
    state: &mut State,
) -> Result<(), AllocError>
    requires { IsSite site }
    ensures { OnOk result (state.new ≡ apply_all (meaning.held_path (site_meant site.entry)
        (file_meant opening.entry.room) position
        (Ok (opened_as (site_meant site.entry) state.old.nodes opening.entry))).changes state.old) }
{
    let _ = open(alloc, site, opening, state)?;
    state.set_position(made_description(site.trace, site.place), position);
    Ok(())
}

/// A slot or a descriptor gets what is no file of the tree: a description of the root, which only
/// takes the number.
pub(crate) fn hold_other(
    site: Site<'_>,
    file: FileNumber,
    state: &mut State,
) -> Result<(), AllocError>
    requires { IsSite site }
    ensures { OnOk result (state.new ≡ apply_all
        (meaning.held_other (site_meant site.entry) (file_meant file)).changes state.old) }
{
    let number = made_description(site.trace, site.place);
    let description = Description {
        node: 0,
        access: Access::Read,
        append: false,
        position: 0,
    };
    state.add_description(number, description)?;
    put(site.ring, file, Some(number), state)
}
