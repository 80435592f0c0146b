//! What the report shows of a world.

use trace_format::Series;

/// A name of the tree, by its full path, with the node that it leads to. A file has a size in
/// bytes, a directory none.
#[derive(Debug, Drop)]
pub struct NameEntry {
    pub path: Series<u8>,
    pub node: u32,
    pub size: Option<u64>,
}

/// A full slot of a ring: the description in it, and that description's node and position.
#[derive(Clone, Copy, Debug)]
pub struct SlotEntry {
    pub ring: u32,
    pub slot: u32,
    pub description: u32,
    pub node: u32,
    pub position: u64,
}

/// A full number of the table of descriptors: the description there, and that description's node
/// and position.
#[derive(Clone, Copy, Debug)]
pub struct DescriptorEntry {
    pub number: u32,
    pub description: u32,
    pub node: u32,
    pub position: u64,
}

/// A registered buffer that is no empty entry, with its length in bytes.
#[derive(Clone, Copy, Debug)]
pub struct BufferEntry {
    pub ring: u32,
    pub index: u32,
    pub len: u64,
}

/// The names of a world in the order of their paths, its full slots and its buffers by ring and
/// number, and its full descriptors by number.
#[derive(Debug, Drop)]
pub struct Image {
    pub names: Series<NameEntry>,
    pub slots: Series<SlotEntry>,
    pub descriptors: Series<DescriptorEntry>,
    pub buffers: Series<BufferEntry>,
}
