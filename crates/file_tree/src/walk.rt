//! Where a path leads, after path_resolution(7).
ghost use Rattle.std.specs.Prelude.{◌≡◌};
ghost use Rattle.file_tree.specs.Found.{walk_meant};
ghost use Rattle.file_tree.specs.Tree as tree;
ghost use Rattle.file_tree.specs.Walk as walk;

use crate::node::Kind;
use crate::tree::Tree;
use sqe_codec::Errno;

/// The directory that stands for the working directory: `AT_FDCWD` of openat(2).
const WORKING_DIRECTORY: i32 = -100;

/// The most bytes that a name has: `NAME_MAX` of linux/limits.h.
pub const LONGEST_NAME: usize = 255;

/// Where a path leads: the directory that has its last name, that name, and the node that it leads
/// to.
#[derive(Clone, Copy, Debug)]
pub struct Place<'a> {
    pub parent: u32,
    pub name: &'a [u8],
    /// None where the directory has no such name.
    pub node: Option<u32>,
}

/// Whether a path starts at the root: an absolute one, or a relative one at the working directory.
pub(crate) fn starts_at_root(directory: i32, path: &[u8]) -> bool
    ensures { result ≡ walk.starts_at_root (record { directory = directory; text = path.now }) }
{
    path.starts_with(b"/") || directory == WORKING_DIRECTORY
}

impl Tree {
    /// Where a path leads.
    ///
    /// An absolute path starts at the root, and so does a relative one at the working directory
    /// (`AT_FDCWD`). No other directory is served.
    ///
    /// # Errors
    ///
    /// EBADF for a relative path at another directory. Then name by name: ENAMETOOLONG for one of
    /// more than 255 bytes, and but for the last one ENOENT where it is missing and ENOTDIR where
    /// it leads to a file. ENOENT for a path without names.
    pub fn walk<'a>(&self, directory: i32, path: &'a [u8]) -> Result<Place<'a>, Errno>
        ensures { walk_meant self.now result
            ≡ walk.walk self.now (record { directory = directory; text = path.now }) }
    {
        self.steps(directory, path)
            .last()
            .unwrap_or(Err(Errno::ENOENT))
    }

    /// Whether a node is one of the directories in which the walk of a path looks a name up: the
    /// parent of what the path leads to, or one above it.
    pub fn is_above(&self, node: u32, directory: i32, path: &[u8]) -> bool
        ensures { result
            ≡ walk.is_above self.now node (record { directory = directory; text = path.now }) }
    {
        let mut steps = self.steps(directory, path);
        steps.any(|step| step.is_ok_and(|place| place.parent == node))
    }

    /// The directory that a name of a directory leads to.
    ///
    /// # Errors
    ///
    /// ENOENT where the name is missing, ENOTDIR where it leads to a file.
    pub fn directory_at(&self, directory: u32, name: &[u8]) -> Result<u32, Errno>
        ensures { result ≡ walk.directory_at (tree.name self.now directory name.now) }
    {
        let Some(node) = self.name(directory, name) else {
            return Err(Errno::ENOENT);
        };
        match self.kind(node) {
            Some(Kind::Directory) => Ok(node),
            _ => Err(Errno::ENOTDIR),
        }
    }
}
