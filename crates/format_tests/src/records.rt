//! Traces of version 3 as bytes, whole and a part at a time.

use std::alloc::{AllocError, Global};
use std::sync::Arc;
use std::test::Fail;
use trace_format::{Kind, Text, TextSlice};
use trace_records::{
    Beside, Front, Record, read_record, read_start, read_trace, write_end, write_record,
    write_start, write_trace,
};

/// One file `/a` of ten bytes, a ring with it in slot 0, and one READ of it.
///
/// The item is at 32, its range at 49, the description at 71, the ring at 85, the entries at 125,
/// the entry at 132, its form at 196, the length of the bytes beside it at 197, the end at 201.
const READ_FOUR_BYTES: [u8; 202] = [
    0x55, 0x52, 0x49, 0x4e, 0x47, 0x54, 0x52, 0x43, 0x03, 0x00, 0x00, 0x00, 0x01, 0x00, 0x00, 0x00,
    0x01, 0x00, 0x00, 0x00, 0x00, 0x00, 0x00, 0x00, 0x00, 0x00, 0x00, 0x00, 0x00, 0x00, 0x00, 0x00,
    0x02, 0x02, 0x00, 0x2f, 0x61, 0x0a, 0x00, 0x00, 0x00, 0x00, 0x00, 0x00, 0x00, 0x01, 0x00, 0x00,
    0x00, 0x00, 0x00, 0x00, 0x00, 0x00, 0x00, 0x00, 0x00, 0x0a, 0x00, 0x00, 0x00, 0x30, 0x31, 0x32,
    0x33, 0x34, 0x35, 0x36, 0x37, 0x38, 0x39, 0x01, 0x00, 0x00, 0x00, 0x02, 0x00, 0x00, 0x00, 0x00,
    0x00, 0x00, 0x00, 0x00, 0x00, 0x05, 0xff, 0xff, 0xff, 0xff, 0x04, 0x00, 0x00, 0x00, 0x01, 0x00,
    0x00, 0x00, 0x00, 0x00, 0x00, 0x00, 0x02, 0x00, 0x00, 0x00, 0x00, 0x00, 0x00, 0x00, 0x00, 0x01,
    0x00, 0x00, 0x10, 0x00, 0x00, 0x00, 0x00, 0x00, 0x00, 0x10, 0x00, 0x00, 0x00, 0x01, 0x00, 0x00,
    0x00, 0x00, 0x01, 0x00, 0x16, 0x01, 0x00, 0x00, 0x00, 0x00, 0x00, 0x00, 0x02, 0x00, 0x00, 0x00,
    0x00, 0x00, 0x00, 0x00, 0x00, 0x00, 0x00, 0x00, 0x00, 0x00, 0x00, 0x00, 0x04, 0x00, 0x00, 0x00,
    0x00, 0x00, 0x00, 0x00, 0x07, 0x00, 0x00, 0x00, 0x00, 0x00, 0x00, 0x00, 0x00, 0x00, 0x00, 0x00,
    0x00, 0x00, 0x00, 0x00, 0x00, 0x00, 0x00, 0x00, 0x00, 0x00, 0x00, 0x00, 0x00, 0x00, 0x00, 0x00,
    0x00, 0x00, 0x00, 0x00, 0x00, 0x00, 0x00, 0x00, 0x00, 0x07,
];

/// Where a text is refused for this, and none where it is taken or has another fault.
pub(crate) fn told_at(alloc: Global, text: &[u8], kind: Kind) -> Option<u64> {
    match read_trace(alloc, text) {
        Ok(_) => None,
        Err(fault) => (fault.kind == kind).then_some(fault.at),
    }
}

fn is_written_whole(alloc: Global, bytes: &[u8]) -> Result<bool, AllocError> {
    match read_trace(alloc, bytes) {
        Ok(trace) => {
            let text = write_trace(alloc, &trace)?;
            Ok(text.as_slice() == bytes)
        }
        Err(_) => Ok(false),
    }
}

/// Whether the parts that are read, one after another, are written as they stand there: the start,
/// and so many records, each with one place but the last, which is the end.
fn is_written_by_parts(alloc: Global, bytes: &[u8], records: u32) -> Result<bool, AllocError> {
    let Ok((start, mut at)) = read_start(alloc, bytes) else {
        return Ok(false);
    };
    let mut text = Vec::new(alloc);
    write_start(&mut text, &start)?;
    let mut front = Front::new(alloc);
    let buffer = Arc::new(alloc, Vec::from_slice(alloc, bytes)?)?;
    for _ in 0..records {
        if at > buffer.len() {
            return Ok(false);
        }
        let bytes = TextSlice::of(&buffer, at, buffer.len() - at);
        let Ok((made, used)) = read_record(alloc, &start, &front, bytes, at as u64) else {
            return Ok(false);
        };
        at = at.saturating_add(used);
        match made {
            Some(made) => {
                write_record(&mut text, &made)?;
                front.add(alloc, &made)?;
            }
            None => write_end(&mut text)?,
        }
    }
    Ok(front.places().saturating_add(1) == records && text.as_slice() == bytes)
}

/// Whether a trace with so many records is written as it stands there, whole and by parts.
pub(crate) fn is_written(alloc: Global, bytes: &[u8], records: u32) -> Result<bool, AllocError> {
    Ok(is_written_whole(alloc, bytes)? && is_written_by_parts(alloc, bytes, records)?)
}

#[test]
fn parts_of_a_trace(rt: HostRuntime) -> Result<(), Fail> {
    assert!(rt; is_written(rt.alloc(), READ_FOUR_BYTES.as_slice(), 3)?);
    Ok(())
}

/// A file, a ring and a WRITE of the four bytes `abcd`, which begin at 201.
fn a_write(alloc: Global) -> Result<Text, AllocError> {
    let mut text = Vec::from_slice(alloc, &READ_FOUR_BYTES[..132])?;
    text.push(23)?;
    text.extend_from_slice(&READ_FOUR_BYTES[133..197])?;
    text.extend_from_slice(b"\x04\0\0\0abcd\x07")?;
    Ok(Arc::new(alloc, text)?)
}

/// Whether the first entry has the bytes `abcd` beside it, which lie in the buffer at 201.
fn is_in_the_buffer(record: &Record) -> bool {
    if let Record::Enter { entries, .. } = record
        && let Some(entry) = entries.as_slice().first()
        && let Beside::Stored { bytes } = &entry.beside
        && let Some(bytes) = bytes.slice()
    {
        return bytes.from == 201 && bytes.as_slice() == b"abcd".as_slice();
    }
    false
}

/// Whether the bytes beside an entry that is read share the buffer.
fn shares_the_buffer(alloc: Global, buffer: &Text) -> Result<bool, AllocError> {
    let Ok((start, at)) = read_start(alloc, buffer.as_slice()) else {
        return Ok(false);
    };
    let mut front = Front::new(alloc);
    let bytes = TextSlice::of(buffer, at, buffer.len() - at);
    let Ok((ring, used)) = read_record(alloc, &start, &front, bytes, at as u64) else {
        return Ok(false);
    };
    if let Some(ring) = ring {
        front.add(alloc, &ring)?;
    }
    let bytes = bytes.behind(used);
    match read_record(alloc, &start, &front, bytes, (at + used) as u64) {
        Ok((Some(record), _)) => Ok(is_in_the_buffer(&record) && Arc::strong_count(buffer) == 2),
        _ => Ok(false),
    }
}

#[test]
fn bytes_that_are_shared(rt: HostRuntime) -> Result<(), Fail> {
    let buffer = a_write(rt.alloc())?;
    assert!(rt; shares_the_buffer(rt.alloc(), &buffer)?);
    Ok(())
}

/// Whether every beginning is too short, and no fault of another kind comes before.
fn beginnings_are_short(alloc: Global) -> bool {
    for len in 0..202 {
        if told_at(alloc, &READ_FOUR_BYTES[..len], Kind::Short) != Some(len as u64) {
            return false;
        }
    }
    true
}

#[test]
fn a_trace_without_its_end(rt: HostRuntime) {
    assert!(rt; beginnings_are_short(rt.alloc()));
}

/// A place, the byte that is put there, and the fault that the trace has then.
const CASES: [(usize, u8, Kind, u64); 17] = [
    (8, 2, Kind::Version, 8),
    (28, 1, Kind::Limit, 28),
    (32, 4, Kind::Limit, 32),
    (49, 11, Kind::Limit, 49),
    (57, 0, Kind::Limit, 57),
    (57, 11, Kind::Limit, 57),
    (71, 2, Kind::Reference, 71),
    (85, 3, Kind::Limit, 86),
    (85, 4, Kind::Limit, 86),
    (85, 8, Kind::Limit, 85),
    (89, 0, Kind::Reference, 86),
    (98, 4, Kind::Limit, 98),
    (126, 1, Kind::Reference, 126),
    (196, 1, Kind::Limit, 196),
    (196, 2, Kind::Limit, 201),
    (196, 3, Kind::Limit, 197),
    (196, 4, Kind::Limit, 196),
];

fn just_these_faults(alloc: Global) -> bool {
    for (place, byte, kind, at) in CASES {
        let mut text = READ_FOUR_BYTES;
        if let Some(cell) = text.get_mut(place) {
            *cell = byte;
        }
        if told_at(alloc, &text, kind) != Some(at) {
            return false;
        }
    }
    true
}

#[test]
fn faults_of_fields(rt: HostRuntime) {
    assert!(rt; just_these_faults(rt.alloc()));
}

/// Where the trace is refused if its ring ends before the entries.
fn ended_at(alloc: Global) -> Result<Option<u64>, AllocError> {
    let mut text = Vec::from_slice(alloc, &READ_FOUR_BYTES[..125])?;
    text.extend_from_slice(&[6, 0, 0, 0, 0])?;
    text.extend_from_slice(&READ_FOUR_BYTES[125..])?;
    Ok(told_at(alloc, &text, Kind::Reference))
}

#[test]
fn a_ring_that_ended(rt: HostRuntime) -> Result<(), Fail> {
    assert!(rt; ended_at(rt.alloc())? == Some(131));
    Ok(())
}
