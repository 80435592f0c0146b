//! Names in directories that are known, so that a path isn't walked again for each item below it.
ghost use Rattle.std.specs.Prelude.{◌≡◌, ◌==◌, ◌≤◌, ◌-◌, ◌∷◌, ◌++◌, All, IfSome, OnOk};
ghost use Rattle.std.specs.Prelude.{drop, false, get_or, length};
ghost use Rattle.file_tree.specs.Kinds.{kind_meant};
ghost use Rattle.world_parts.specs.Known.{IsLastName, IsNewPlace, Knows};
ghost use Rattle.world_parts.specs.Known as is;
ghost use Rattle.world_parts.specs.Start as initial;
ghost use Rattle.world_parts.specs.World.{apply};
ghost use Rattle.world_parts.specs.World as change;

use crate::state::State;
use file_tree::{Kind, LONGEST_NAME};
use std::alloc::{AllocError, Global};
use std::collections::BTreeMap;

/// The directory that stands for the working directory, which is the root: `AT_FDCWD` of openat(2).
const WORKING_DIRECTORY: i32 = -100;

/// Directories by paths that lead to them. The root, to which the empty path leads, isn't among
/// them.
pub(crate) type Known<'a> = BTreeMap<&'a [u8], u32>;

/// Where the last name of a path starts: behind its last slash.
fn name_start(path: &[u8]) -> usize
    ensures bound { result ≤ length path.now }
    ensures slash { ¬ (result ≡ 0) → get_or path.now (result - 1) 0 ≡ 47 }
    ensures name { All (λ b. (b == 47) ≡ false) (drop result path.now) }
{
    let mut start = path.len();
    while start > 0 && path[start - 1] != b'/' {
        start -= 1;
    }
    start
}

/// What stands before the last slash of a path, and the name behind it; none where there is no
/// slash, or no name that a directory can have.
fn parted(path: &[u8]) -> Option<(&[u8], &[u8])>
    ensures whole { IfSome result (λ x. path.now ≡ x.0.now ++ 47 ∷ x.1.now) }
    ensures name { IfSome result (λ x. IsLastName x.1.now) }
{
    let start = name_start(path);
    if start == 0 || start == path.len() || path.len() - start > LONGEST_NAME {
        return None;
    }
    Some((&path[..start - 1], &path[start..]))
}

/// The directory that a path is known to lead to.
fn directory_of(known: &Known<'_>, path: &[u8]) -> Option<u32>
    ensures { result ≡ is.directory_of known.now path.now }
{
    if path.is_empty() {
        return Some(0);
    }
    known.get(path).copied()
}

impl State {
    /// The directory and the name that a path leads to, where that directory is known and hasn't
    /// the name.
    fn new_place<'a>(&self, known: &Known<'_>, path: &'a [u8]) -> Option<(u32, &'a [u8])>
        requires { Knows self.now.nodes known.now }
        ensures { IfSome result (λ x. IsNewPlace self.now.nodes path.now x.0 x.1.now) }
    {
        let (directory, name) = parted(path)?;
        let parent = directory_of(known, directory)?;
        match self.name(parent, name) {
            Some(_) => None,
            None => Some((parent, name)),
        }
    }

    /// Gives a directory the new name that a path leads to. Where the node is a directory too, it
    /// is known from then on.
    fn add_name<'a>(
        &mut self,
        alloc: Global,
        known: &mut Known<'a>,
        path: &'a [u8],
        parent: u32,
        name: &[u8],
        node: u32,
    ) -> Result<(), AllocError>
        requires place { IsNewPlace self.old.nodes path.now parent name.now }
        requires known { Knows self.old.nodes known.old }
        ensures named { OnOk result (self.new ≡ initial.name_at self.old path.now node) }
        ensures known { OnOk result (Knows self.new.nodes known.new) }
    {
        self.set_name(alloc, parent, name, Some(node))?;
        if let Ok(directory) = self.directory_at(parent, name) {
            known.insert(path, directory)?;
        }
        Ok(())
    }

    /// Makes a node. Where one had the number, no directory is known any more.
    pub(crate) fn make_node(
        &mut self,
        alloc: Global,
        known: &mut Known<'_>,
        number: u32,
        kind: Kind,
    ) -> Result<(), AllocError>
        requires { Knows self.old.nodes known.old }
        ensures made { OnOk result
            (self.new ≡ apply (change.make_node number (kind_meant kind)) self.old) }
        ensures known { OnOk result (Knows self.new.nodes known.new) }
    {
        if self.kind(number).is_some() {
            known.clear();
        }
        self.add_node(alloc, number, kind)
    }

    /// Names a node by a path, with one look-up where its directory is known; nothing changes where
    /// the path's parent isn't there.
    pub(crate) fn name_item<'a>(
        &mut self,
        alloc: Global,
        known: &mut Known<'a>,
        path: &'a [u8],
        node: u32,
    ) -> Result<(), AllocError>
        requires { Knows self.old.nodes known.old }
        ensures named { OnOk result (self.new ≡ initial.name_at self.old path.now node) }
        ensures known { OnOk result (Knows self.new.nodes known.new) }
    {
        match self.new_place(known, path) {
            Some((parent, name)) => self.add_name(alloc, known, path, parent, name, node),
            None => {
                known.clear();
                self.name_node(alloc, path, node)
            }
        }
    }

    /// Names a node by a path; nothing changes where the path's parent isn't there.
    fn name_node(&mut self, alloc: Global, path: &[u8], node: u32) -> Result<(), AllocError>
        ensures { OnOk result (self.new ≡ initial.name_at self.old path.now node) }
    {
        match self.walk(WORKING_DIRECTORY, path) {
            Ok(place) => self.set_name(alloc, place.parent, place.name, Some(node)),
            Err(_) => Ok(()),
        }
    }
}
