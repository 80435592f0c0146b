//! The versions of the format, and what they differ in.
ghost use Rattle.std.specs.Prelude.{◌≡◌};
ghost use Rattle.trace_format.specs.Versions.{rules, version_of};

/// The version of the format.
#[derive(Clone, Copy, Debug, PartialEq, Eq)]
pub enum Version {
    /// Without ordinary descriptors.
    One,
    /// With a table of ordinary descriptors, and the exchange of two names.
    Two,
    /// With flags of transfers that ask for stored data, and with more opcodes. Its traces have a
    /// form of their own, which [`crate::read_trace`] does not read.
    Three,
}

/// What a version has of its own.
#[derive(Clone, Copy, Debug)]
pub struct Rules {
    /// The number that the header names it by.
    pub number: u32,
    /// How many ordinary descriptors a trace has at most.
    pub most_descriptors: u32,
    /// The greatest flags that RENAMEAT takes, as renameat2(2) has them.
    pub most_rename_flags: u32,
    /// The flags that a transfer takes, of those of preadv2(2) and pwritev2(2).
    pub transfer_flags: u32,
    /// Whether it has SYNC_FILE_RANGE, STATX and FADVISE.
    pub has_later_opcodes: bool,
}

impl Version {
    /// The version that a number names, of those that this crate reads.
    pub(crate) fn of(number: u32) -> Option<Version>
        ensures { result ≡ version_of number }
    {
        match number {
            1 => Some(Version::One),
            2 => Some(Version::Two),
            _ => None,
        }
    }

    /// What the version has of its own.
    pub fn rules(self) -> Rules
        ensures { result ≡ rules self }
    {
        match self {
            Version::One => Rules {
                number: 1,
                most_descriptors: 0,
                most_rename_flags: 1,
                transfer_flags: 0,
                has_later_opcodes: false,
            },
            Version::Two => Rules {
                number: 2,
                most_descriptors: 1_024,
                most_rename_flags: 2,
                transfer_flags: 0,
                has_later_opcodes: false,
            },
            Version::Three => Rules {
                number: 3,
                most_descriptors: 1_048_576,
                most_rename_flags: 2,
                transfer_flags: 6,
                has_later_opcodes: true,
            },
        }
    }
}
