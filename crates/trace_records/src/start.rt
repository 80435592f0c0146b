//! What a trace has before its records.
use trace_format::{Blob, Description, Series};

/// Bytes of a file, which are not all zeros elsewhere.
#[derive(Drop)]
pub struct Range {
    /// Where they begin in the file.
    pub offset: u64,
    /// The bytes, at least one.
    pub bytes: Blob,
}

/// What an initial name leads to.
#[derive(Drop)]
pub enum Node {
    /// A new directory.
    Directory,
    /// A new file of this size in bytes, at most 2^40. It has the bytes of the ranges, which rise
    /// and do not overlap, and zeros elsewhere.
    File { size: u64, ranges: Series<Range> },
    /// The file that the item of this number made. Items are numbered from 1.
    OtherName { number: u32 },
}

/// An initial name.
#[derive(Drop)]
pub struct Item {
    /// The path from the root: a slash before each name, at most 4,095 bytes.
    pub path: Blob,
    /// What it leads to.
    pub node: Node,
}

/// A full entry of the table of ordinary descriptors.
#[derive(Clone, Copy, Debug)]
pub struct Descriptor {
    /// Its number, below the size of the table.
    pub number: u32,
    /// The number of the description that it holds.
    pub description: u32,
}

/// What a trace has before its records.
#[derive(Drop)]
pub struct Start {
    /// The initial names. The item at index i has the number i + 1.
    pub items: Series<Item>,
    /// The initial open file descriptions, numbered from 0.
    pub descriptions: Series<Description>,
    /// The size of the table of ordinary descriptors, at most 1,048,576.
    pub table_size: u32,
    /// Its full entries, by rising number.
    pub descriptors: Series<Descriptor>,
}
