//! Bytes of a text, with the text that they lie in.

use sqe_codec::unpack;
use std::alloc::{AllocError, Global};
use std::sync::Arc;
use trace_format::{Blob, EntriesBuilder, EntryBuf, Gathered, Given, TextSlice};

/// Whether they are the six bytes `abcdef` at this place of their text, and so are their parts.
fn is_the_word(bytes: TextSlice<'_>, from: usize) -> bool {
    bytes.len() == 6
        && bytes.from == from
        && bytes.as_slice() == b"abcdef".as_slice()
        && bytes.first(4).behind(1).as_slice() == b"bcd".as_slice()
        && bytes.behind(6).is_empty()
        && bytes.text.len() == from + 6
}

/// Whether a blob of the word has it, and one of no bytes has none.
fn is_in_a_blob(alloc: Global) -> Result<bool, AllocError> {
    let blob = Blob::from_vec(alloc, Vec::from_slice(alloc, b"abcdef")?)?;
    let found = match blob.slice() {
        Some(bytes) => is_the_word(bytes, 0),
        None => false,
    };
    Ok(found && Blob::empty().slice().is_none())
}

/// Whether the second of two entries has the word beside it: behind two bytes beside the first
/// one, and the 68 that an entry takes without what is beside it, twice.
fn is_beside_an_entry(alloc: Global) -> Result<bool, AllocError> {
    let sqe = unpack(&[0; 64]);
    let mut builder = EntriesBuilder::new(alloc);
    builder.push(&sqe, b"xy")?;
    builder.push(&sqe, b"abcdef")?;
    let entries = builder.build(alloc)?;
    Ok(entries.len() == 2 && is_the_word(entries.at(1).side_slice(), 138))
}

/// Whether entries that are gathered have beside them the bytes of their blobs, where those lie,
/// and what is given of them. The second has the word behind two bytes of a text, the first and
/// the third have none.
fn is_gathered(alloc: Global) -> Result<bool, AllocError> {
    let sqe = unpack(&[0; 64]);
    let failed = Given::Passed {
        result: 4,
        fails: true,
    };
    let text = Arc::new(alloc, Vec::from_slice(alloc, b"xyabcdef")?)?;
    let mut entries = Vec::with_capacity(alloc, 3)?;
    entries.push(EntryBuf::new(sqe, Blob::empty(), Some(failed)))?;
    entries.push(EntryBuf::new(sqe, Blob::part(&text, 2, 6)?, None))?;
    entries.push(EntryBuf::new(sqe, Blob::empty(), None))?;
    let entries = Gathered::new(alloc, entries)?;
    Ok(
        entries.len() == 3
            && entries.at(0).given() == Some(failed)
            && entries.at(0).side().is_empty()
            && entries.at(1).given().is_none()
            && is_the_word(entries.at(1).side_slice(), 2)
            && entries.at(2).given().is_none()
            && entries.at(2).side().is_empty(),
    )
}

#[test]
fn slices_of_a_text(rt: HostRuntime) {
    let alloc = rt.alloc();
    assert!(rt;
        matches!(is_in_a_blob(alloc), Ok(true))
            && matches!(is_beside_an_entry(alloc), Ok(true))
            && matches!(is_gathered(alloc), Ok(true))
    );
}
