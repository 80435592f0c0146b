//! The header.
ghost use Rattle.trace_records.specs.Read.{Gives};
ghost use Rattle.trace_records.specs.Sources.{counts_meant, reading_from, with_rest};
ghost use Rattle.trace_records.specs.Start.{header};

use crate::fault::{ReadError, refused};
use crate::source::{Source, bytes_of, u32_of, u32_to};
use trace_format::Kind;

/// How many of each there are, and the size of the table of descriptors.
#[derive(Clone, Copy)]
pub(crate) struct Counts {
    pub items: u32,
    pub descriptions: u32,
    pub table_size: u32,
    pub descriptors: u32,
}

#[tactic(auto, unfolding(crate::specs::Start::header))]
pub(crate) fn counts_of(source: Source<'_>) -> Result<(Counts, Source<'_>), ReadError>
    ensures { Gives (λ x. with_rest (counts_meant x.0, x.1)) result
        (reading_from source.entry header) }
{
    let (magic, source) = bytes_of(source, 8)?;
    if magic != b"URINGTRC".as_slice() {
        return Err(refused(Kind::Magic, 0));
    }
    let place = source.place;
    let (version, source) = u32_of(source)?;
    if version != 3 {
        return Err(refused(Kind::Version, place));
    }
    let (items, source) = u32_to(source, 16_777_216)?;
    let (descriptions, source) = u32_to(source, 1_048_576)?;
    let (table_size, source) = u32_to(source, 1_048_576)?;
    let (descriptors, source) = u32_to(source, table_size)?;
    let (_, source) = u32_to(source, 0)?;
    Ok((
        Counts {
            items,
            descriptions,
            table_size,
            descriptors,
        },
        source,
    ))
}
