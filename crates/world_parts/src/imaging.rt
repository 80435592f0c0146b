//! What the report shows of a world.
ghost use Rattle.std.specs.Prelude.{◌≡◌, ◌+◌, ◌≤◌, ◌↔◌, [], ◌∷◌, ◌++◌, length, take, drop, unwrap_or};
ghost use Rattle.std.specs.Prelude.{IfOk, IsTrue, OnOk};
ghost use Rattle.extent_bytes.specs.Bytes.{range_of};
ghost use Rattle.finite_maps.specs.Table.{number_keys, text_keys};
ghost use Rattle.finite_maps.specs.Maps.{seen_table, table_of};
ghost use Rattle.world_parts.specs.Image.{all_paths, image_of, paths_below};
ghost use Rattle.world_parts.specs.Pending.{AddsInSomeOrder, AddsPaths, Rise, paths_at, paths_listed};
ghost use Rattle.file_tree.specs.Tree.{Tree};
ghost use Rattle.world_parts.specs.World.{buffer, bytes};

use crate::broken::Flag;
use crate::full_path::{FullPath, order_of};
use crate::image::{BufferEntry, DescriptorEntry, Image, NameEntry, SlotEntry};
use crate::state::State;
use indexmap::IndexMap;
use std::alloc::{AllocError, Global};
use std::collections::BTreeMap;
use trace_format::Series;

/// A name that is still to be listed: its full path, of which so many bytes are the path of its
/// directory, its node, and how many levels below it are listed too.
#[derive(Drop)]
struct Pending {
    path: Vec<u8>,
    front: usize,
    node: u32,
    levels: usize,
}

/// The lists of an image while they are filled.
#[derive(Drop)]
struct Lists {
    names: Vec<NameEntry>,
    slots: Vec<SlotEntry>,
    descriptors: Vec<DescriptorEntry>,
    buffers: Vec<BufferEntry>,
}

/// The full path of a name of a directory.
fn joined(alloc: Global, directory: &[u8], name: &[u8]) -> Result<Vec<u8>, AllocError>
    ensures { IfOk result (λ path. path.items ≡ directory.now ++ 47 ∷ name.now) }
{
    let mut path = Vec::with_capacity(alloc, directory.len() + 1 + name.len())?;
    path.extend_from_slice(directory)?;
    path.push(b'/')?;
    path.extend_from_slice(name)?;
    Ok(path)
}

/// Puts a name of a directory on top of those that are pending.
fn push_name(
    alloc: Global,
    pending: &mut Vec<Pending>,
    directory: &[u8],
    name: &[u8],
    node: u32,
    levels: usize,
) -> Result<(), AllocError>
    ensures { OnOk result ((tree : Tree) → AddsPaths tree pending.old.items pending.new.items
        (paths_at levels tree directory.now (name.now, node))) }
{
    let path = joined(alloc, directory, name)?;
    let front = directory.len();
    pending.push(Pending {
        path,
        front,
        node,
        levels,
    })?;
    Ok(())
}

/// Whether a name comes before those below another name of its directory that was listed: it is that
/// name with more behind it, and the first byte of this comes before a slash.
fn comes_between(name: &Pending, listed: &Pending) -> bool {
    if name.front != listed.front {
        return false;
    }
    let (Some(own), Some(other)) = (listed.path.get(listed.front..), name.path.get(name.front..))
    else {
        return false;
    };
    match other.strip_prefix(own) {
        Some(more) => matches!(more.first(), Some(byte) if *byte < b'/'),
        None => false,
    }
}

/// Where those of the pending names begin that come before the names below a listed one.
fn first_between(pending: &[Pending], listed: &Pending) -> usize
    ensures { result ≤ length pending.now }
{
    let mut first = pending.len();
    while first > 0 {
        if !comes_between(&pending[first - 1], listed) {
            break;
        }
        first -= 1;
    }
    first
}

/// Turns the names from one on, so that so many of them come last.
fn turn(pending: &mut [Pending], first: usize, last: usize)
    requires { first + last ≤ length pending.old }
    ensures turned { pending.new ≡ take first pending.old
        ++ (drop last (drop first pending.old) ++ take last (drop first pending.old)) }
    ensures len { length pending.new ≡ length pending.old }
{
    pending[first..].rotate_left(last);
}

/// Whether paths that rise still do with this one behind them.
fn rises(listed: &[NameEntry], path: &[u8], node: u32) -> bool
    ensures { IsTrue result → Rise (paths_listed listed.now)
        → Rise (paths_listed listed.now ++ (path.now, node) ∷ []) }
{
    match listed.last() {
        Some(last) => order_of(last.path.as_slice(), path).is_lt(),
        None => true,
    }
}

/// Whether the same chains broke, and in the same way.
fn same_chains(chains: &IndexMap<u32, Flag>, others: &IndexMap<u32, Flag>) -> bool
    ensures { IsTrue result ↔ (table_of number_keys.total chains.now.entries
        ≡ table_of number_keys.total others.now.entries) }
{
    chains == others
}

impl State {
    /// What the report shows of the state.
    ///
    /// # Errors
    ///
    /// Out of memory.
    pub fn image(&self, alloc: Global) -> Result<Image, AllocError>
        ensures { IfOk result (λ image. image ≡ image_of self.now) }
    {
        let mut lists = Lists {
            names: Vec::new(alloc),
            slots: Vec::new(alloc),
            descriptors: Vec::new(alloc),
            buffers: Vec::new(alloc),
        };
        match self.list(alloc, &mut lists) {
            Ok(()) => Ok(Image {
                names: Series::from_vec(lists.names),
                slots: Series::from_vec(lists.slots),
                descriptors: Series::from_vec(lists.descriptors),
                buffers: Series::from_vec(lists.buffers),
            }),
            Err(refused) => {
                drop(lists);
                Err(refused)
            }
        }
    }

    /// Fills the lists of an image, which are empty.
    fn list(&self, alloc: Global, lists: &mut Lists) -> Result<(), AllocError>
        requires names { lists.old.names.items ≡ [] }
        requires slots { lists.old.slots.items ≡ [] }
        requires descriptors { lists.old.descriptors.items ≡ [] }
        requires buffers { lists.old.buffers.items ≡ [] }
        ensures names { OnOk result (lists.new.names.items ≡ (image_of self.now).names) }
        ensures slots { OnOk result (lists.new.slots.items ≡ (image_of self.now).slots) }
        ensures descriptors { OnOk result
            (lists.new.descriptors.items ≡ (image_of self.now).descriptors) }
        ensures buffers { OnOk result (lists.new.buffers.items ≡ (image_of self.now).buffers) }
    {
        self.list_names(alloc, &mut lists.names)?;
        self.list_slots(&mut lists.slots)?;
        self.list_descriptors(&mut lists.descriptors)?;
        self.list_buffers(&mut lists.buffers)
    }

    /// The bytes of a file from one offset up to another, as far as it has them; none where the
    /// node is no file.
    ///
    /// # Errors
    ///
    /// Out of memory.
    pub fn file_bytes(
        &self,
        alloc: Global,
        node: u32,
        low: u64,
        high: u64,
    ) -> Result<Series<u8>, AllocError>
        ensures { IfOk result
            (λ taken. taken ≡ range_of (unwrap_or (bytes self.now node) []) low high) }
    {
        Ok(Series::from_vec(self.bytes(alloc, node, low, high)?))
    }

    /// The bytes of a registered buffer; none where there is no such buffer.
    ///
    /// # Errors
    ///
    /// Out of memory.
    pub fn buffer_bytes(
        &self,
        alloc: Global,
        ring: u32,
        index: u32,
    ) -> Result<Series<u8>, AllocError>
        ensures { IfOk result (λ taken. taken ≡ unwrap_or (buffer self.now ring index) []) }
    {
        let Some(len) = self.buffer_len(ring, index) else {
            return Ok(Series::from_vec(Vec::new(alloc)));
        };
        Ok(Series::from_vec(self.buffer(ring, index, 0, len)?))
    }

    /// Whether both are the same. It takes no memory.
    pub fn same(&self, other: &State) -> bool
        ensures { IsTrue result ↔ (self.now ≡ other.now) }
    {
        self.nodes.same(&other.nodes)
            && self.descriptions.same(&other.descriptions)
            && self.slots.same(&other.slots)
            && self.descriptors.same(&other.descriptors)
            && self.buffers.same(&other.buffers)
            && same_chains(&self.broken, &other.broken)
    }

    /// Puts the names of a directory on top of those that are pending, the first one uppermost;
    /// none where no levels are left.
    fn push_names(
        &self,
        alloc: Global,
        pending: &mut Vec<Pending>,
        path: &[u8],
        directory: u32,
        levels: usize,
    ) -> Result<(), AllocError>
        ensures { OnOk result (AddsPaths self.now.nodes pending.old.items pending.new.items
            (paths_below levels self.now.nodes path.now directory)) }
    {
        let Some(below) = levels.checked_sub(1) else {
            return Ok(());
        };
        let Some(names) = self.nodes.names(directory) else {
            return Ok(());
        };
        for (name, node) in names.descending() {
            push_name(alloc, pending, path, name, node, below)?;
        }
        Ok(())
    }

    /// All names by their full paths, each with its node.
    fn paths(&self, alloc: Global) -> Result<BTreeMap<FullPath, u32>, AllocError>
        ensures { IfOk result (λ paths. seen_table text_keys.total (λ path. path) paths.entries
            ≡ all_paths self.now.nodes) }
    {
        let mut paths = BTreeMap::new(alloc);
        let mut pending = Vec::new(alloc);
        // No path has more directories than there are nodes.
        self.push_names(alloc, &mut pending, &[], 0, self.nodes.node_count())?;
        while let Some(next) = pending.pop() {
            self.push_names(alloc, &mut pending, &next.path, next.node, next.levels)?;
            paths.insert(FullPath::new(next.path), next.node)?;
        }
        Ok(paths)
    }

    /// Makes the names below a listed one pending, beneath those that come before them.
    fn push_below(
        &self,
        alloc: Global,
        pending: &mut Vec<Pending>,
        listed: &Pending,
    ) -> Result<(), AllocError>
        ensures { OnOk result (AddsInSomeOrder self.now.nodes pending.old.items pending.new.items
            (paths_below listed.now.levels self.now.nodes listed.now.path.items listed.now.node)) }
    {
        let others = pending.len();
        self.push_names(alloc, pending, &listed.path, listed.node, listed.levels)?;
        if pending.len() > others {
            let first = first_between(&pending[..others], listed);
            turn(pending, first, others - first);
        }
        Ok(())
    }

    /// Lists the names by a walk that comes to their paths in order, and no two long paths are
    /// compared but one with the next. Whether the paths rise: they do unless a name has a slash.
    fn walk_names(&self, alloc: Global, entries: &mut Vec<NameEntry>) -> Result<bool, AllocError>
        requires { entries.old.items ≡ [] }
        ensures { IfOk result
            (λ rise. IsTrue rise → entries.new.items ≡ (image_of self.now).names) }
    {
        let mut pending = Vec::new(alloc);
        self.push_names(alloc, &mut pending, &[], 0, self.nodes.node_count())?;
        while let Some(next) = pending.pop() {
            if !rises(entries.as_slice(), &next.path, next.node) {
                return Ok(false);
            }
            self.push_below(alloc, &mut pending, &next)?;
            entries.push(NameEntry {
                path: Series::from_vec(next.path),
                node: next.node,
                size: self.size(next.node),
            })?;
        }
        Ok(true)
    }

    /// Lists the names.
    fn list_names(&self, alloc: Global, entries: &mut Vec<NameEntry>) -> Result<(), AllocError>
        requires { entries.old.items ≡ [] }
        ensures { OnOk result (entries.new.items ≡ (image_of self.now).names) }
    {
        if self.walk_names(alloc, entries)? {
            return Ok(());
        }
        entries.clear();
        self.sort_names(alloc, entries)
    }

    /// Lists the names by a map of their paths.
    fn sort_names(&self, alloc: Global, entries: &mut Vec<NameEntry>) -> Result<(), AllocError>
        requires { entries.old.items ≡ [] }
        ensures { OnOk result (entries.new.items ≡ (image_of self.now).names) }
    {
        for (path, node) in self.paths(alloc)? {
            entries.push(NameEntry {
                path: Series::from_vec(path.into_bytes()),
                node,
                size: self.size(node),
            })?;
        }
        Ok(())
    }

    /// Lists the full slots.
    fn list_slots(&self, entries: &mut Vec<SlotEntry>) -> Result<(), AllocError>
        requires { entries.old.items ≡ [] }
        ensures { OnOk result (entries.new.items ≡ (image_of self.now).slots) }
    {
        for (&(ring, slot), &description) in self.slots.iter() {
            if let Some(opened) = self.description(description) {
                entries.push(SlotEntry {
                    ring,
                    slot,
                    description,
                    node: opened.node,
                    position: opened.position,
                })?;
            }
        }
        Ok(())
    }

    /// Lists the full descriptors.
    fn list_descriptors(&self, entries: &mut Vec<DescriptorEntry>) -> Result<(), AllocError>
        requires { entries.old.items ≡ [] }
        ensures { OnOk result (entries.new.items ≡ (image_of self.now).descriptors) }
    {
        for (&number, &description) in self.descriptors.iter() {
            if let Some(opened) = self.description(description) {
                entries.push(DescriptorEntry {
                    number,
                    description,
                    node: opened.node,
                    position: opened.position,
                })?;
            }
        }
        Ok(())
    }

    /// Lists the buffers.
    fn list_buffers(&self, entries: &mut Vec<BufferEntry>) -> Result<(), AllocError>
        requires { entries.old.items ≡ [] }
        ensures { OnOk result (entries.new.items ≡ (image_of self.now).buffers) }
    {
        for (&(ring, index), buffer) in self.buffers.iter() {
            entries.push(BufferEntry {
                ring,
                index,
                len: buffer.len(),
            })?;
        }
        Ok(())
    }
}
