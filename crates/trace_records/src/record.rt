//! What was recorded after the start.
use sqe_codec::Sqe;
use trace_format::{Blob, Buffer, Given, Series};

/// What stands beside an entry: the bytes in memory that it speaks of, which are the lengths of its
/// vector, the bytes that it writes, or its paths, as [`trace_format::fits`] has them; or what is
/// given of it.
#[derive(Drop)]
pub enum Beside {
    /// Form 0: these.
    Stored { bytes: Blob },
    /// Form 1, of WRITE and WRITEV: the lengths of its vector, and zeros, `len` bytes in all.
    Zeros { lengths: Blob, len: u32 },
    /// Forms 2 and 3: no bytes, and its result.
    Given { given: Given },
}

/// A submitted entry.
#[derive(Drop)]
pub struct Entry {
    /// Its 64 bytes.
    pub sqe: Sqe,
    /// The bytes in memory that it speaks of, or what is given of it.
    pub beside: Beside,
}

/// What the program puts into a part of a registered buffer.
#[derive(Drop)]
pub enum Filling {
    /// Form 0: these bytes.
    Stored { bytes: Blob },
    /// Form 1: so many zeros.
    Zeros { len: u32 },
}

/// Where a new ring gets the content of a slot from.
#[derive(Clone, Copy, Debug)]
pub enum Holder {
    /// What a slot of an earlier ring holds.
    Slot { ring: u32, number: u32 },
    /// What an ordinary descriptor holds.
    Descriptor { number: u32 },
    /// A description of the start.
    Description { number: u32 },
}

/// A slot of a new ring that is not empty.
#[derive(Clone, Copy, Debug)]
pub struct FullSlot {
    /// Its number, below the count of slots.
    pub number: u32,
    /// Where its content comes from.
    pub holds: Holder,
}

/// A new ring with its registered files and buffers.
#[derive(Drop)]
pub struct Ring {
    /// The ring whose queue it continues, which may have ended. None for a queue of its own.
    pub queue: Option<u32>,
    /// How many slots it has, at most 1,048,576.
    pub slots: u32,
    /// The slots that are not empty, by rising number.
    pub full: Series<FullSlot>,
    /// Its buffers, at most 16,384. No two share an address.
    pub buffers: Series<Buffer>,
}

/// Where a file may be open: a slot of a ring, or an ordinary descriptor.
#[derive(Clone, Copy, Debug)]
pub enum FileAt {
    /// A slot of a ring that is there.
    Slot { ring: u32, number: u32 },
    /// An ordinary descriptor.
    Descriptor { number: u32 },
}

/// What a set leaves at a slot or a descriptor.
#[derive(Drop)]
pub enum Content {
    /// Nothing, as close(2).
    Nothing,
    /// A new description of a path, as open(2) makes it with these flags, and its position.
    Path {
        flags: u32,
        position: u64,
        path: Blob,
    },
    /// What another slot or descriptor holds, as dup2(2).
    Copy {
        of: FileAt,
    },
    /// Something that is no file of the tree, a pipe or a socket say.
    Taken,
}

/// What was recorded in one step of the recording.
#[derive(Drop)]
pub enum Record {
    /// Kind 1: the entries of one io_uring_enter(2), or of a part of it that ends where a chain
    /// ends. Each is a place.
    Enter {
        ring: u32,
        entries: Series<Entry>,
    },
    /// Kind 2: bytes for a part of a registered buffer of a ring, from an offset in it on. A place.
    Fill {
        ring: u32,
        buffer: u16,
        offset: u32,
        filling: Filling,
    },
    /// Kind 3: what a slot or a descriptor holds from here on. A place.
    Set {
        file: FileAt,
        content: Content,
    },
    /// Kind 4: the position of what a slot or a descriptor holds, as lseek(2). A place.
    Seek {
        file: FileAt,
        position: u64,
    },
    /// Kind 5: a new ring. Its number is how many rings there were. A place.
    RingStarts {
        ring: Ring,
    },
    /// Kind 6: a ring ends, and nothing can name it from here on.
    RingEnds {
        ring: u32,
    },
}
