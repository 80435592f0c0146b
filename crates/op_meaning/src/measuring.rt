//! STATX.
ghost use Rattle.std.specs.Prelude.{◌≡◌, ℕ, IfOk};
ghost use Rattle.entry_checks.specs.Meant.{file_meant, path_meant};
ghost use Rattle.file_tree.specs.Tree.{target};
ghost use Rattle.file_tree.specs.Walk.{walk};
ghost use Rattle.op_meaning.specs.Deciding.{Decides};
ghost use Rattle.op_meaning.specs.Decision.{effect_of, IsWithinLimits};
ghost use Rattle.op_meaning.specs.Lookups.{FindsFile, FindsPlace, Tells};
ghost use Rattle.op_meaning.specs.Meaning.{handle, measured, node_told};
ghost use Rattle.op_meaning.specs.Meaning.{statx_file_meaning, statx_meaning};
ghost use Rattle.op_meaning.specs.Meaning as model;
ghost use Rattle.op_meaning.specs.Outcomes.{Gives};
ghost use Rattle.op_meaning.specs.Site.{site_meant};
ghost use Rattle.world_parts.specs.World.{World};

use crate::decision::Decision;
use crate::handles::{is_directory, size};
use crate::lookup::Lookup;
use crate::outcome::Done;
use crate::site::Site;
use entry_checks::{FileNumber, PathAt};
use extent_bytes::ReadBytes;
use sqe_codec::Errno;
use std::alloc::{AllocError, Global};
use world_parts::State;

/// The kinds of nodes, as STATX answers them.
const A_DIRECTORY: u8 = 1;

const A_FILE: u8 = 2;

/// The kind of a node, and the size of a file.
fn measured<'a>(node: u32, state: &State) -> Decision<'a>
    ensures meaning { (site : model.Site) (s : World)
        → effect_of site s result ≡ measured state.now (target state.now.nodes node) }
    ensures limits { (s : World) (r : ℕ) → IsWithinLimits s r result }
{
    if is_directory(node, state) {
        return Decision::Tell {
            kind: A_DIRECTORY,
            size: 0,
        };
    }
    Decision::Tell {
        kind: A_FILE,
        size: size(node, state),
    }
}

/// What STATX tells of the node that its path leads to, after statx(2).
///
/// # Errors
///
/// That of the first test that fails: those of the walk, ENOENT.
pub(crate) fn measuring<'a>(
    site: Site<'_>,
    path: PathAt<'a>,
    lookup: &Lookup<'a>,
    state: &State,
) -> Result<Decision<'a>, Errno>
    requires { Tells lookup.now (FindsPlace state.now (path_meant path) lookup.now) }
    ensures meaning { Decides
        (statx_meaning state.now (walk state.now.nodes (path_meant path.entry)))
        (effect_of (site_meant site.entry) state.now) result }
    ensures limits { IfOk result (IsWithinLimits state.now site.entry.ring) }
{
    let place = lookup.place_at(path, state)?;
    match place.node {
        Some(node) => Ok(measured(node, state)),
        None => Err(Errno::ENOENT),
    }
}

/// What STATX tells of what is open at a file number.
///
/// # Errors
///
/// EBADF where no file is open.
pub(crate) fn measuring_open<'a>(
    site: Site<'_>,
    file: FileNumber,
    lookup: &Lookup<'a>,
    state: &State,
) -> Result<Decision<'a>, Errno>
    requires { Tells lookup.now
        (FindsFile (site_meant site) state.now (file_meant file) lookup.now) }
    ensures meaning { Decides
        (statx_file_meaning state.now
        (handle (site_meant site.entry) state.now (file_meant file)))
        (effect_of (site_meant site.entry) state.now) result }
    ensures limits { IfOk result (IsWithinLimits state.now site.entry.ring) }
{
    let file = lookup.file_at(site, file, state).ok_or(Errno::EBADF)?;
    Ok(measured(file.description.node, state))
}

/// The bytes of a kind and a size.
///
/// # Errors
///
/// Out of memory.
pub(crate) fn tell(alloc: Global, kind: u8, size: u64) -> Result<Done, AllocError>
    ensures { IfOk result (Gives (node_told kind size)) }
{
    let mut bytes = Vec::from_slice(alloc, &[kind])?;
    bytes.extend_from_slice(&size.to_le_bytes())?;
    Ok(Done {
        count: 0,
        bytes: ReadBytes::plain(bytes),
    })
}
