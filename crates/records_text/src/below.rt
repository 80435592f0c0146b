//! A text of differences, with the entries of a trace of version 3.
ghost use Rattle.std.specs.Prelude.{◌≡◌, ◌++◌, IfOk, OnOk, map};
ghost use Rattle.std.specs.List.{flat_map};
ghost use Rattle.records_text.specs.Below.{kept_lines, place_lines, with_entries};
ghost use Rattle.records_text.specs.Shown.{submitted_words};
ghost use Rattle.trace_text.specs.Below.{brief};

use crate::records::push_submitted;
use std::alloc::{AllocError, Global};
use trace_records::{Entry, Record, Trace};
use trace_text::{BRIEF, Placed, with_lines};

/// The places of a trace, each with its entry where it has one.
#[derive(Drop)]
struct Places<'t> {
    entries: Vec<Option<&'t Entry>>,
}

impl Placed for Places<'_> {
    ghost lines = { λ places. kept_lines places.entries.items };

    fn count(&self) -> usize {
        self.entries.len()
    }

    fn push_line(&self, text: &mut Vec<u8>, place: usize) -> Result<(), AllocError> {
        match self.entries[place] {
            Some(entry) => push_submitted(text, BRIEF, entry),
            None => Ok(()),
        }
    }
}

/// The places of entries.
fn add_entries<'t>(
    places: &mut Vec<Option<&'t Entry>>,
    entries: &'t [Entry],
) -> Result<(), AllocError>
    ensures { OnOk result (kept_lines places.new.items
        ≡ kept_lines places.old.items ++ map (submitted_words brief) entries.now) }
{
    for entry in entries {
        places.push(Some(entry))?;
    }
    Ok(())
}

/// The places of a record.
fn add_record<'t>(places: &mut Vec<Option<&'t Entry>>, made: &'t Record) -> Result<(), AllocError>
    ensures { OnOk result (kept_lines places.new.items
        ≡ kept_lines places.old.items ++ place_lines made.now) }
{
    match made {
        Record::Enter { ring: _, entries } => add_entries(places, entries.as_slice()),
        Record::RingEnds { ring: _ } => Ok(()),
        _ => {
            places.push(None)?;
            Ok(())
        }
    }
}

/// The places of records, in time linear in these.
fn places_of<'t>(alloc: Global, records: &'t [Record]) -> Result<Vec<Option<&'t Entry>>, AllocError>
    ensures { IfOk result (λ places. kept_lines places.items ≡ flat_map place_lines records.now) }
{
    let mut places = Vec::new(alloc);
    for made in records {
        add_record(&mut places, made)?;
    }
    Ok(places)
}

/// The text of a comparison of two reports, with the entry below each line that differs and is of
/// one of the trace: as `show` writes it, in one line of the first 32 bytes.
///
/// # Errors
///
/// Out of memory.
pub fn with_entries(alloc: Global, trace: &Trace, text: &[u8]) -> Result<Vec<u8>, AllocError>
    ensures { IfOk result (λ shown. shown.items ≡ with_entries trace.now text.now) }
{
    let places = Places {
        entries: places_of(alloc, trace.records.as_slice())?,
    };
    with_lines(alloc, &places, text)
}
