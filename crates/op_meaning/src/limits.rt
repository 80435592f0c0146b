//! Limits of the calls.

/// The most bytes that one call moves (`MAX_RW_COUNT`).
pub const MOST_MOVED: u32 = 0x7fff_f000;

/// The largest size of a file.
pub const LARGEST: u64 = 1 << 40;

/// The least offset or size that no call takes: from there on a signed one is negative.
pub(crate) const REFUSED: u64 = 1 << 63;

/// The offset by which a transfer uses the position of its open file description.
pub(crate) const AT_POSITION: u64 = u64::MAX;
