//! The operation that opens files: OPENAT.
ghost use Rattle.std.specs.Prelude.{◌≡◌, IfOk, Ok, OnOk};
ghost use Rattle.std.specs.Option.{option_map};
ghost use Rattle.entry_checks.specs.Meant.{file_meant, flags_meant, path_meant};
ghost use Rattle.file_tree.specs.Found.{place_meant};
ghost use Rattle.file_tree.specs.Tree.{target};
ghost use Rattle.file_tree.specs.Walk.{walk};
ghost use Rattle.op_meaning.specs.Meaning as meaning;
ghost use Rattle.op_meaning.specs.Deciding.{Decides};
ghost use Rattle.op_meaning.specs.Decision.{effect_of, IsWithinLimits};
ghost use Rattle.op_meaning.specs.Lookups.{FindsPlace, Tells};
ghost use Rattle.op_meaning.specs.Meaning.{found_or_made, opened_in, openat_meaning};
ghost use Rattle.op_meaning.specs.Opening.{changes_at, opened_as, room_found};
ghost use Rattle.op_meaning.specs.Outcomes.{Gives};
ghost use Rattle.op_meaning.specs.Site.{IsSite, in_ring, site_meant};
ghost use Rattle.recording.specs.Accepted.{IsAccepted};
ghost use Rattle.world_parts.specs.World.{apply_all};

use crate::decision::Decision;
use crate::handles::{is_directory, slot_count};
use crate::lookup::Lookup;
use crate::made::{descriptor_count, made_description, made_node};
use crate::outcome::{Done, counted, finished};
use crate::site::Site;
use entry_checks::{FileNumber, OpenAtFlags, PathAt};
use file_tree::{Kind, Place};
use recording::{Access, Description, Recording};
use sqe_codec::Errno;
use std::alloc::{AllocError, Global};
use world_parts::State;

/// What OPENAT opens, how, and where the description goes.
#[derive(Clone, Copy)]
pub(crate) struct Opening<'a> {
    pub place: Place<'a>,
    pub flags: OpenAtFlags,
    pub room: FileNumber,
}

/// The room for a description: the slot that is asked for, or where none is the lowest free
/// descriptor.
fn find_room(
    trace: &Recording,
    ring: u32,
    asked: Option<u32>,
    state: &State,
) -> Result<FileNumber, Errno>
    requires { IsAccepted trace.now }
    ensures { room_found result ≡ meaning.room (in_ring trace.now ring) state.now asked }
{
    match asked {
        Some(slot) if slot as usize >= slot_count(trace, ring) => Err(Errno::EINVAL),
        Some(slot) => Ok(FileNumber::Slot(slot)),
        None => match state.lowest_free(descriptor_count(trace)) {
            Some(number) => Ok(FileNumber::Descriptor(number)),
            None => Err(Errno::EMFILE),
        },
    }
}

/// The tests of an opening on a node that is there.
fn may_open_node(state: &State, flags: OpenAtFlags, node: u32) -> Result<(), Errno>
    ensures { result ≡ meaning.may_open (flags_meant flags) (Some (target state.now.nodes node)) }
{
    let is_directory = is_directory(node, state);
    if flags.create && flags.exclusive {
        return Err(Errno::EEXIST);
    }
    if is_directory && (flags.create || flags.truncate || flags.access != 0) {
        return Err(Errno::EISDIR);
    }
    if !is_directory && flags.directory {
        return Err(Errno::ENOTDIR);
    }
    Ok(())
}

/// The tests of an opening on what a path leads to.
fn may_open(state: &State, flags: OpenAtFlags, node: Option<u32>) -> Result<(), Errno>
    ensures { result
        ≡ meaning.may_open (flags_meant flags) (option_map (target state.now.nodes) node) }
{
    match node {
        Some(node) => may_open_node(state, flags, node),
        None if flags.create => Ok(()),
        None => Err(Errno::ENOENT),
    }
}

/// What opens where there is room for its description, after open(2).
///
/// # Errors
///
/// That of the first test that fails: those of the walk, ENOENT, EEXIST, EISDIR, ENOTDIR.
pub(crate) fn opening_in<'a>(
    site: Site<'_>,
    room: FileNumber,
    path: PathAt<'a>,
    lookup: &Lookup<'a>,
    flags: OpenAtFlags,
    state: &State,
) -> Result<Opening<'a>, Errno>
    requires { Tells lookup.now (FindsPlace state.now (path_meant path) lookup.now) }
    ensures { Decides
        (opened_in (site_meant site.entry) (flags_meant flags) (Ok (file_meant room))
        (walk state.now.nodes (path_meant path.entry)))
        (opened_as (site_meant site.entry) state.now.nodes) result }
{
    let place = lookup.place_at(path, state)?;
    may_open(state, flags, place.node)?;
    Ok(Opening { place, flags, room })
}

/// What OPENAT opens, after open(2), and where the description goes: into the slot that is asked
/// for, or where none is to the lowest free descriptor.
///
/// # Errors
///
/// That of the first test that fails: EMFILE, EINVAL, those of the walk, ENOENT, EEXIST, EISDIR,
/// ENOTDIR.
pub(crate) fn find_opening<'a>(
    site: Site<'_>,
    path: PathAt<'a>,
    lookup: &Lookup<'a>,
    flags: OpenAtFlags,
    asked: Option<u32>,
    state: &State,
) -> Result<Decision<'a>, Errno>
    requires spelled { IsAccepted site.trace.now }
    requires lookup { Tells lookup.now (FindsPlace state.now (path_meant path) lookup.now) }
    ensures meaning { Decides
        (openat_meaning (site_meant site.entry) state.now (flags_meant flags) asked
        (walk state.now.nodes (path_meant path.entry)))
        (effect_of (site_meant site.entry) state.now) result }
    ensures limits { IfOk result (IsWithinLimits state.now site.entry.ring) }
{
    let room = find_room(site.trace, site.ring, asked, state)?;
    let opening = opening_in(site, room, path, lookup, flags, state)?;
    Ok(Decision::Open(opening))
}

/// The access that the flags of open(2) ask for: 0 to read, 1 to write, 2 for both.
fn access_of(number: u8) -> Access
    ensures { result ≡ meaning.access_of number }
{
    match number {
        0 => Access::Read,
        1 => Access::Write,
        _ => Access::Both,
    }
}

/// Makes the file that is opened where it is missing, and else cuts it to nothing where it
/// `truncates`. Answers its node.
fn open_node(
    alloc: Global,
    made: u32,
    place: Place<'_>,
    flags: OpenAtFlags,
    state: &mut State,
) -> Result<u32, AllocError>
    ensures node { IfOk result (λ node. node
        ≡ (found_or_made made (option_map (target state.old.nodes) place.entry.node)).node) }
    ensures state { OnOk result (state.new ≡ apply_all
        (changes_at (flags_meant flags) made (place_meant state.old.nodes place.entry)) state.old) }
{
    let Some(node) = place.node else {
        state.add_node(alloc, made, Kind::File)?;
        state.set_name(alloc, place.parent, place.name, Some(made))?;
        return Ok(made);
    };
    if flags.truncate {
        state.set_size(node, 0)?;
    }
    Ok(node)
}

/// Puts a description into its room. Answers the number of the descriptor.
fn fill(
    alloc: Global,
    ring: u32,
    room: FileNumber,
    description: u32,
    state: &mut State,
) -> Result<Done, AllocError>
    ensures answer { IfOk result (Gives (meaning.filled ring (file_meant room) description)) }
    ensures state { OnOk result (state.new
        ≡ apply_all (meaning.filled ring (file_meant room) description).changes state.old) }
{
    match room {
        FileNumber::Slot(slot) => {
            state.set_slot(ring, slot, Some(description))?;
            Ok(finished(alloc))
        }
        FileNumber::Descriptor(number) => {
            state.set_descriptor(number, Some(description))?;
            Ok(counted(alloc, number))
        }
    }
}

/// Opens a file: makes a description of it and puts that into its room. Answers the number of the
/// descriptor.
///
/// # Errors
///
/// Out of memory.
pub(crate) fn open(
    alloc: Global,
    site: Site<'_>,
    opening: Opening<'_>,
    state: &mut State,
) -> Result<Done, AllocError>
    requires site { IsSite site }
    ensures answer { IfOk result (Gives (opened_as (site_meant site.entry) state.old.nodes
        opening.entry)) }
    ensures state { OnOk result (state.new ≡ apply_all (opened_as
        (site_meant site.entry) state.old.nodes opening.entry).changes state.old) }
{
    let Opening { place, flags, room } = opening;
    let made = made_node(site.trace, site.place);
    let node = open_node(alloc, made, place, flags, state)?;
    let number = made_description(site.trace, site.place);
    let description = Description {
        node,
        access: access_of(flags.access),
        append: flags.append,
        position: 0,
    };
    state.add_description(number, description)?;
    fill(alloc, site.ring, room, number, state)
}
