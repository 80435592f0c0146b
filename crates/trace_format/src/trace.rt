//! A trace as it is recorded.
ghost use Rattle.std.specs.Prelude.{◌≡◌, ◌<◌, ◌≤◌, Some};
ghost use Rattle.trace_format.specs.Counts.{places_limit};
ghost use Rattle.trace_format.specs.Steps.{places, step_at, step_meant};

use crate::blob::Blob;
use crate::entries::Entries;
use crate::list::Series;
use crate::steps::{Records, Step};
use crate::version::Version;

/// What an initial name leads to.
#[derive(Drop)]
pub enum Node {
    /// A new directory.
    Directory,
    /// A new file of this size in bytes, at most 2^40: the stored bytes, and zeros up to it.
    File { size: u64, stored: Blob },
    /// The file that the item of this number made. Items are numbered from 1.
    OtherName { number: u32 },
}

/// An initial name.
#[derive(Drop)]
pub struct Item {
    /// The path from the root: a slash before each name, at most 4,095 bytes.
    pub path: Blob,
    /// What it leads to.
    pub node: Node,
}

/// What a description lets its holder do.
#[derive(Clone, Copy, Debug, PartialEq, Eq)]
pub enum Access {
    /// Read alone (`O_RDONLY`).
    Read,
    /// Write alone (`O_WRONLY`).
    Write,
    /// Read and write (`O_RDWR`).
    Both,
}

/// An initial open file description, as open(2) has them.
#[derive(Clone, Copy, Debug, PartialEq)]
pub struct Description {
    /// The number of the item that made its file or directory, 0 for the root directory.
    pub node: u32,
    /// What it may be used for.
    pub access: Access,
    /// Whether writes go to the end of the file (`O_APPEND`).
    pub append: bool,
    /// The offset in bytes at which a transfer without one starts, below 2^63.
    pub position: u64,
}

/// A registered buffer, as io_uring_register(2) has them. One of length 0 is an empty entry.
#[derive(Clone, Copy, Debug)]
pub struct Buffer {
    /// The address of its first byte.
    pub address: u64,
    /// Its length in bytes, at most 2^30.
    pub len: u32,
}

/// The registered files and buffers of a ring.
#[derive(Drop)]
pub struct Ring {
    /// Its slots for files: 0 for an empty one, else the number of a description and 1.
    pub slots: Series<u32>,
    /// Its buffers. No two share an address.
    pub buffers: Series<Buffer>,
}

/// What was recorded in one step of the recording.
#[derive(Drop)]
pub enum Record {
    /// The entries of one io_uring_enter(2), on a ring.
    Enter {
        ring: u8,
        entries: Entries,
    },
    /// Bytes that the program put into a registered buffer of a ring, from an offset in it on.
    Fill {
        ring: u8,
        buffer: u16,
        offset: u32,
        bytes: Blob,
    },
}

/// A recorded trace.
#[derive(Drop)]
pub struct Trace {
    /// The version of its text.
    pub version: Version,
    /// The initial names. The item at index i has the number i + 1.
    pub items: Series<Item>,
    /// The initial open file descriptions, numbered from 0.
    pub descriptions: Series<Description>,
    /// The table of ordinary descriptors, each written as a slot of a ring is. Version 1 has none.
    pub descriptors: Series<u32>,
    /// The rings, numbered from 0.
    pub rings: Series<Ring>,
    /// What was recorded, in order.
    pub records: Records,
}

impl Trace {
    /// How many steps the trace has, at most 1,048,576. Their numbers from 0 on are their places.
    pub fn places(&self) -> u32
        ensures places { result ≡ places self.now }
        ensures limit { result ≤ places_limit }
    {
        self.records.places()
    }

    /// The step at a place, in constant time.
    pub fn step(&self, place: u32) -> Step<'_>
        requires { place < places self.now }
        ensures { step_at self.now place ≡ Some (step_meant result) }
    {
        self.records.step(place)
    }
}
