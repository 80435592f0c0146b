//! How many bytes a start or a record has at least, by those that are there.
//!
//! What is read of a stream is tried again and again until it is whole. These lengths say when a
//! try is worth its time. Nothing rests on them: a part is whole where its reader says so.

/// How many bytes stand in front of the items of a start.
const HEADER: usize = 32;

/// How many bytes an entry has before those beside it, with its form.
const ENTRY: usize = 65;

/// The number of two bytes at a place.
fn u16_at(bytes: &[u8], at: usize) -> Option<u16> {
    let mut number = [0; 2];
    number.copy_from_slice(bytes.get(at..)?.get(..2)?);
    Some(u16::from_le_bytes(number))
}

/// The number of four bytes at a place.
fn u32_at(bytes: &[u8], at: usize) -> Option<u32> {
    let mut number = [0; 4];
    number.copy_from_slice(bytes.get(at..)?.get(..4)?);
    Some(u32::from_le_bytes(number))
}

/// A place so many bytes behind another.
fn behind(at: usize, count: usize) -> usize {
    at.saturating_add(count)
}

/// Where so many fields of one length end that begin at a place.
fn behind_fields(at: usize, count: u32, len: usize) -> usize {
    at.saturating_add((count as usize).saturating_mul(len))
}

/// How many bytes stand beside an entry, by its form.
fn beside_len(bytes: &[u8], at: usize, form: u8) -> Option<usize> {
    match form {
        0 => Some(behind(4, u32_at(bytes, behind(at, ENTRY))? as usize)),
        // Zeros of a WRITEV have its lengths.
        1 if bytes.get(at) == Some(&2) => {
            let lengths = u32_at(bytes, behind(at, 24))?.min(1_024) * 8;
            let len = u32_at(bytes, behind(at, ENTRY))?;
            Some(behind(4, lengths.min(len) as usize))
        }
        1 | 3 => Some(4),
        2 => Some(5),
        _ => Some(0),
    }
}

/// Where an entry ends at the earliest.
fn behind_entry(bytes: &[u8], at: usize) -> usize {
    let Some(form) = bytes.get(behind(at, ENTRY - 1)) else {
        return behind(at, ENTRY);
    };
    match beside_len(bytes, at, *form) {
        Some(len) => behind(behind(at, ENTRY), len),
        None => behind(behind(at, ENTRY), 4),
    }
}

/// The length of a record of entries, or that of its first ones where these are not all there.
fn entries_len(bytes: &[u8]) -> usize {
    let mut end = 7;
    for _ in 0..u16_at(bytes, 5).unwrap_or(0) {
        if end > bytes.len() {
            return end;
        }
        end = behind_entry(bytes, end);
    }
    end
}

/// That of a fill.
fn fill_len(bytes: &[u8]) -> usize {
    match bytes.get(7) {
        Some(0) => behind(16, u32_at(bytes, 12).unwrap_or(0) as usize),
        _ => 16,
    }
}

/// That of a set.
fn set_len(bytes: &[u8]) -> usize {
    match bytes.get(10) {
        Some(1) => behind(25, u16_at(bytes, 23).unwrap_or(0) as usize),
        Some(2) => 20,
        _ => 11,
    }
}

/// That of a new ring.
fn ring_len(bytes: &[u8]) -> usize {
    let end = behind_fields(13, u32_at(bytes, 9).unwrap_or(0), 13);
    let buffers = u16_at(bytes, end).unwrap_or(0);
    behind_fields(behind(end, 2), u32::from(buffers), 12)
}

/// How many bytes the record that begins these bytes has at least.
pub(crate) fn record_len(bytes: &[u8]) -> usize {
    match bytes.first() {
        Some(1) => entries_len(bytes),
        Some(2) => fill_len(bytes),
        Some(3) => set_len(bytes),
        Some(4) => 18,
        Some(5) => ring_len(bytes),
        _ => 1,
    }
}

/// How far a start was walked: the place of the next item or range, and how many of each are left.
#[derive(Clone, Copy)]
pub(crate) struct StartWalk {
    at: usize,
    items: u32,
    ranges: u32,
}

impl StartWalk {
    /// The walk before the first byte.
    pub(crate) fn new() -> Self {
        StartWalk {
            at: 0,
            items: 0,
            ranges: 0,
        }
    }

    /// Goes past an item, and to the ranges of a file. None where it is not all there.
    fn past_item(&mut self, bytes: &[u8]) -> Option<()> {
        let kind = *bytes.get(self.at)?;
        let end = behind(self.at, 3 + u16_at(bytes, behind(self.at, 1))? as usize);
        let more = match kind {
            2 => 12,
            3 => 4,
            _ => 0,
        };
        if kind == 2 {
            self.ranges = u32_at(bytes, behind(end, 8))?;
        }
        self.at = behind(end, more);
        self.items = self.items.saturating_sub(1);
        Some(())
    }

    /// Goes past a range.
    fn past_range(&mut self, bytes: &[u8]) -> Option<()> {
        let len = u32_at(bytes, behind(self.at, 8))?;
        self.at = behind(self.at, 12 + len as usize);
        self.ranges = self.ranges.saturating_sub(1);
        Some(())
    }

    /// Goes past what stands next, while all of it is there. None where it is not.
    fn past_next(&mut self, bytes: &[u8]) -> Option<()> {
        if self.at == 0 {
            self.items = u32_at(bytes, 12)?;
            self.at = HEADER;
            Some(())
        } else if self.ranges > 0 {
            self.past_range(bytes)
        } else {
            self.past_item(bytes)
        }
    }

    /// How many bytes the start has at least that begins these bytes. What was walked before is not
    /// walked again.
    pub(crate) fn len(&mut self, bytes: &[u8]) -> usize {
        for _ in 0..bytes.len() {
            if self.at > bytes.len() {
                return self.at;
            }
            if self.at > 0 && self.items == 0 && self.ranges == 0 {
                let descriptions = u32_at(bytes, 16).unwrap_or(0);
                let descriptors = u32_at(bytes, 24).unwrap_or(0);
                return behind_fields(behind_fields(self.at, descriptions, 14), descriptors, 8);
            }
            if self.past_next(bytes).is_none() {
                break;
            }
        }
        behind(bytes.len(), 1)
    }
}
