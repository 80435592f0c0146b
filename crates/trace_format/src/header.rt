//! The header.
ghost use Rattle.std.specs.Prelude.{◌≤◌, IfOk};
ghost use Rattle.trace_format.specs.Counts.{places_limit};
ghost use Rattle.trace_format.specs.Read.{Gives};
ghost use Rattle.trace_format.specs.Sources.{counts_meant, reading_from, sizes, with_rest};
ghost use Rattle.trace_format.specs.Text.{header};

use crate::fault::{Kind, ReadError, refused};
use crate::source::{Source, bytes_of, u32_of, u32_to};
use crate::version::Version;

/// The version, and how many of each there are.
#[derive(Clone, Copy)]
pub(crate) struct Counts {
    pub version: Version,
    pub items: u32,
    pub descriptions: u32,
    pub rings: u32,
    pub records: u32,
    pub descriptors: u32,
}

/// The counts behind the version.
fn sizes_of(version: Version, source: Source<'_>) -> Result<(Counts, Source<'_>), ReadError>
    ensures read { Gives (λ x. with_rest (counts_meant x.0, x.1)) result
        (reading_from source.entry (sizes version)) }
    ensures records { IfOk result (λ x. x.0.records ≤ places_limit) }
{
    let (items, source) = u32_to(source, 65_535)?;
    let (descriptions, source) = u32_to(source, 65_535)?;
    let (rings, source) = u32_to(source, 64)?;
    let (records, source) = u32_to(source, 1_048_576)?;
    let (descriptors, source) = u32_to(source, version.rules().most_descriptors)?;
    Ok((
        Counts {
            version,
            items,
            descriptions,
            rings,
            records,
            descriptors,
        },
        source,
    ))
}

#[tactic(auto, unfolding(crate::specs::Text::header))]
pub(crate) fn counts_of(source: Source<'_>) -> Result<(Counts, Source<'_>), ReadError>
    ensures read { Gives (λ x. with_rest (counts_meant x.0, x.1)) result
        (reading_from source.entry header) }
    ensures records { IfOk result (λ x. x.0.records ≤ places_limit) }
{
    let (magic, source) = bytes_of(source, 8)?;
    if magic != b"URINGTRC".as_slice() {
        return Err(refused(Kind::Magic, 0));
    }
    let place = source.place;
    let (number, source) = u32_of(source)?;
    match Version::of(number) {
        Some(version) => sizes_of(version, source),
        None => Err(refused(Kind::Version, place)),
    }
}
