//! Modes of fallocate(2).
ghost use Rattle.std.specs.Prelude.{◌≡◌};
ghost use Rattle.std.specs.Option.{option_map};
ghost use Rattle.op_meaning.specs.Handles.{allocation_meant};
ghost use Rattle.op_meaning.specs.Meaning.{allocation};

/// What a mode of fallocate(2) asks for.
#[derive(Clone, Copy, Debug, PartialEq, Eq)]
pub enum Allocation {
    /// Room, and a file that is as long as the range's end at least.
    Extend,
    /// Room alone (`FALLOC_FL_KEEP_SIZE`).
    Reserve,
    /// A hole of the range within the file (`FALLOC_FL_PUNCH_HOLE`).
    Punch,
    /// Zeros in the range, and a file that is as long as its end at least (`FALLOC_FL_ZERO_RANGE`).
    ZeroExtend,
    /// Zeros in the range within the file.
    ZeroWithin,
}

/// What FALLOCATE is asked for: so many bytes from an offset on, and a mode.
#[derive(Clone, Copy)]
pub(crate) struct AllocationRequest {
    pub offset: u64,
    pub size: u64,
    pub mode: u32,
}

/// A range of a file that is allocated: from an offset up to an end.
#[derive(Clone, Copy)]
pub(crate) struct RangeAllocation {
    pub node: u32,
    pub offset: u64,
    pub end: u64,
    pub allocation: Allocation,
}

/// What a mode asks for; none where the mode isn't served.
pub fn allocation_of(mode: u32) -> Option<Allocation>
    ensures { option_map allocation_meant result ≡ allocation mode }
{
    match mode {
        0 => Some(Allocation::Extend),
        1 => Some(Allocation::Reserve),
        3 => Some(Allocation::Punch),
        16 => Some(Allocation::ZeroExtend),
        17 => Some(Allocation::ZeroWithin),
        _ => None,
    }
}
