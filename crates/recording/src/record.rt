//! Records of version 3, as steps are found in them.
ghost use Rattle.std.specs.Prelude.{◌≡◌};
ghost use Rattle.recording.specs.Records.{step_count};

use trace_format::{Blob, Gathered, Series};
use trace_records::{Content, FileAt, FullSlot};

/// A record that has steps.
#[derive(Drop)]
pub enum Record {
    /// Entries of a ring, a step each.
    Enter {
        ring: u32,
        entries: Gathered,
    },
    /// Bytes for a part of a registered buffer of a ring, a step.
    Fill {
        ring: u32,
        buffer: u16,
        offset: u32,
        bytes: Blob,
    },
    /// A new ring, whose slots get what others hold, a step.
    Register {
        ring: u32,
        slots: Series<FullSlot>,
    },
    /// What a slot or a descriptor holds from there on, a step.
    Set {
        file: FileAt,
        content: Content,
    },
    /// The position of what a slot or a descriptor holds, a step.
    Seek {
        file: FileAt,
        position: u64,
    },
}

/// How many steps a record has.
pub(crate) fn step_count(item: &Record) -> usize
    ensures { result ≡ step_count item.now }
{
    match item {
        Record::Enter { ring: _, entries } => entries.len(),
        _ => 1,
    }
}
