//! The operations on names: UNLINKAT, MKDIRAT, LINKAT and RENAMEAT.
ghost use Rattle.std.specs.Prelude.{◌≡◌, IfOk, OnOk};
ghost use Rattle.std.specs.Option.{option_map};
ghost use Rattle.entry_checks.specs.Meant.{path_meant};
ghost use Rattle.file_tree.specs.Found.{place_meant};
ghost use Rattle.file_tree.specs.Tree.{Tree, target};
ghost use Rattle.file_tree.specs.Walk.{walk};
ghost use Rattle.op_meaning.specs.Deciding.{Decides};
ghost use Rattle.op_meaning.specs.Decision.{effect_of, IsWithinLimits};
ghost use Rattle.op_meaning.specs.Lookups.{FindsPlace, FindsPlaces, Tells};
ghost use Rattle.op_meaning.specs.Meaning as meaning;
ghost use Rattle.op_meaning.specs.Meaning.{linkat_meaning, mkdirat_meaning};
ghost use Rattle.op_meaning.specs.Meaning.{renameat_meaning, unlinkat_meaning};
ghost use Rattle.op_meaning.specs.NameChanges.{changes_meant, decision_meant, directory_effect};
ghost use Rattle.op_meaning.specs.NameChanges.{move_meant, exchange_meant};
ghost use Rattle.op_meaning.specs.Site.{IsSite, site_meant};
ghost use Rattle.world_parts.specs.World.{apply_all};

use crate::decision::Decision;
use crate::handles::is_directory;
use crate::lookup::Lookup;
use crate::made::made_node;
use crate::names::{NameChange, NameChanges};
use crate::site::Site;
use entry_checks::PathAt;
use file_tree::{Kind, Place};
use sqe_codec::Errno;
use std::alloc::{AllocError, Global};
use world_parts::State;

/// The flag of renameat2(2) that refuses a new name that is there (`RENAME_NOREPLACE`).
const NO_REPLACE: u32 = 1;

/// The flag of renameat2(2) that exchanges two names (`RENAME_EXCHANGE`).
const EXCHANGE: u32 = 2;

/// The tests of a removal of a file, or of a directory.
fn may_remove(state: &State, removes_directory: bool, node: u32) -> Result<(), Errno>
    ensures { result
        ≡ meaning.may_remove state.now removes_directory (target state.now.nodes node) }
{
    match (removes_directory, is_directory(node, state)) {
        (false, true) => Err(Errno::EISDIR),
        (true, false) => Err(Errno::ENOTDIR),
        (true, true) if !state.is_empty(node) => Err(Errno::ENOTEMPTY),
        _ => Ok(()),
    }
}

/// The name that UNLINKAT takes away, after unlink(2) and rmdir(2): that of a directory without
/// names where it `removes_directory`, that of a file where it doesn't.
///
/// # Errors
///
/// That of the first test that fails: those of the walk, ENOENT, EISDIR, ENOTDIR, ENOTEMPTY.
pub(crate) fn unlinking<'a>(
    path: PathAt<'a>,
    lookup: &Lookup<'a>,
    removes_directory: bool,
    state: &State,
) -> Result<NameChanges<'a>, Errno>
    requires { Tells lookup.now (FindsPlace state.now (path_meant path) lookup.now) }
    ensures { decision_meant state.now.nodes result
        ≡ unlinkat_meaning state.now removes_directory (walk state.now.nodes
        (path_meant path.entry)) }
{
    let place = lookup.place_at(path, state)?;
    let Some(node) = place.node else {
        return Err(Errno::ENOENT);
    };
    may_remove(state, removes_directory, node)?;
    Ok(NameChanges::One(NameChange {
        directory: place.parent,
        name: place.name,
        node: None,
    }))
}

/// What MKDIRAT does, after mkdir(2): it makes a directory where its path leads.
///
/// # Errors
///
/// That of the first test that fails: those of the walk, EEXIST.
pub(crate) fn making<'a>(
    site: Site<'_>,
    path: PathAt<'a>,
    lookup: &Lookup<'a>,
    state: &State,
) -> Result<Decision<'a>, Errno>
    requires { Tells lookup.now (FindsPlace state.now (path_meant path) lookup.now) }
    ensures meaning { Decides
        (mkdirat_meaning (site_meant site.entry)
        (walk state.now.nodes (path_meant path.entry)))
        (effect_of (site_meant site.entry) state.now) result }
    ensures limits { IfOk result (IsWithinLimits state.now site.entry.ring) }
{
    let place = lookup.place_at(path, state)?;
    if place.node.is_some() {
        return Err(Errno::EEXIST);
    }
    Ok(Decision::MakeDirectory(place))
}

/// Makes a directory without names where a path leads.
pub(crate) fn make_directory(
    alloc: Global,
    site: Site<'_>,
    place: Place<'_>,
    state: &mut State,
) -> Result<(), AllocError>
    requires site { IsSite site }
    ensures { OnOk result (state.new ≡ apply_all
        (directory_effect (site_meant site.entry) place.entry).changes state.old) }
{
    let node = made_node(site.trace, site.place);
    state.add_node(alloc, node, Kind::Directory)?;
    state.set_name(alloc, place.parent, place.name, Some(node))
}

/// The second name that LINKAT gives a file, after link(2).
///
/// # Errors
///
/// That of the first test that fails: those of the walks, ENOENT, EEXIST, EPERM.
pub(crate) fn linking<'a>(
    old: PathAt<'a>,
    new: PathAt<'a>,
    lookup: &Lookup<'a>,
    state: &State,
) -> Result<NameChanges<'a>, Errno>
    requires { Tells lookup.now
        (FindsPlaces state.now (path_meant old) (path_meant new) lookup.now) }
    ensures { decision_meant state.now.nodes result
        ≡ linkat_meaning (walk state.now.nodes (path_meant old.entry))
        (walk state.now.nodes (path_meant new.entry)) }
{
    let from = lookup.place_at(old, state)?;
    let to = lookup.new_place_at(new, state)?;
    let Some(node) = from.node else {
        return Err(Errno::ENOENT);
    };
    if to.node.is_some() {
        return Err(Errno::EEXIST);
    }
    if is_directory(node, state) {
        return Err(Errno::EPERM);
    }
    Ok(NameChanges::One(NameChange {
        directory: to.parent,
        name: to.name,
        node: Some(node),
    }))
}

/// The tests of a rename onto a name that is there.
fn may_replace(state: &State, old: u32, new: u32) -> Result<(), Errno>
    ensures { result
        ≡ meaning.may_replace state.now (target state.now.nodes old) (target state.now.nodes new) }
{
    match (is_directory(old, state), is_directory(new, state)) {
        (true, false) => Err(Errno::ENOTDIR),
        (false, true) => Err(Errno::EISDIR),
        (true, true) if !state.is_empty(new) => Err(Errno::ENOTEMPTY),
        _ => Ok(()),
    }
}

/// Whether a path leads below a node.
fn goes_below(state: &State, node: u32, path: PathAt<'_>) -> bool
    ensures { result
        ≡ meaning.goes_below state.now (target state.now.nodes node) (path_meant path.entry) }
{
    is_directory(node, state) && state.is_above(node, path.directory, path.text)
}

/// The move of a name to another, which takes the place of one that is there.
fn moving<'a>(
    state: &State,
    from: Place<'a>,
    to: Place<'a>,
    node: u32,
) -> Result<NameChanges<'a>, Errno>
    ensures { decision_meant state.now.nodes result
        ≡ move_meant state.now from.entry to.entry node }
{
    if let Some(there) = to.node {
        if there == node {
            return Ok(NameChanges::Nothing);
        }
        may_replace(state, node, there)?;
    }
    Ok(NameChanges::Two(
        NameChange {
            directory: from.parent,
            name: from.name,
            node: None,
        },
        NameChange {
            directory: to.parent,
            name: to.name,
            node: Some(node),
        },
    ))
}

/// The exchange of two names. Where both lead to one node nothing changes.
fn exchanged<'a>(from: Place<'a>, to: Place<'a>, node: u32, there: u32) -> NameChanges<'a>
    ensures { (tree : Tree)
        → changes_meant tree result ≡ exchange_meant tree from.entry to.entry node there }
{
    if node == there {
        return NameChanges::Nothing;
    }
    NameChanges::Two(
        NameChange {
            directory: from.parent,
            name: from.name,
            node: Some(there),
        },
        NameChange {
            directory: to.parent,
            name: to.name,
            node: Some(node),
        },
    )
}

/// The exchange of two names that RENAMEAT asks for, each of which leads to a node, and neither below
/// the other.
fn exchanging<'a>(
    state: &State,
    old: PathAt<'_>,
    new: PathAt<'_>,
    from: Place<'a>,
    to: Place<'a>,
    node: u32,
) -> Result<NameChanges<'a>, Errno>
    ensures { decision_meant state.now.nodes result
        ≡ meaning.exchange_meaning state.now (path_meant old.entry) (path_meant new.entry)
        (place_meant state.now.nodes from.entry) (place_meant state.now.nodes to.entry)
        (target state.now.nodes node) (option_map (target state.now.nodes) to.entry.node) }
{
    let Some(there) = to.node else {
        return Err(Errno::ENOENT);
    };
    if goes_below(state, node, new) || goes_below(state, there, old) {
        return Err(Errno::EINVAL);
    }
    Ok(exchanged(from, to, node, there))
}

/// What RENAMEAT does to two names, after renameat2(2), by where its paths lead: it moves one, or
/// exchanges both.
///
/// # Errors
///
/// That of the first test that fails: those of the walks, ENOENT, EEXIST, EINVAL, ENOTDIR, EISDIR,
/// ENOTEMPTY.
pub(crate) fn renaming<'a>(
    old: PathAt<'a>,
    new: PathAt<'a>,
    lookup: &Lookup<'a>,
    flags: u32,
    state: &State,
) -> Result<NameChanges<'a>, Errno>
    requires { Tells lookup.now
        (FindsPlaces state.now (path_meant old) (path_meant new) lookup.now) }
    ensures { decision_meant state.now.nodes result
        ≡ renameat_meaning state.now (path_meant old.entry) (path_meant new.entry) flags
        (walk state.now.nodes (path_meant old.entry)) (walk state.now.nodes
        (path_meant new.entry)) }
{
    let from = lookup.place_at(old, state)?;
    let to = lookup.new_place_at(new, state)?;
    let Some(node) = from.node else {
        return Err(Errno::ENOENT);
    };
    if flags == EXCHANGE {
        return exchanging(state, old, new, from, to, node);
    }
    if flags == NO_REPLACE && to.node.is_some() {
        return Err(Errno::EEXIST);
    }
    if goes_below(state, node, new) {
        return Err(Errno::EINVAL);
    }
    moving(state, from, to, node)
}
