//! Bytes from text.
ghost use Rattle.std.specs.Prelude.{◌≡◌, ◌⊎◌, IfErr, IfOk, OnOk, false, true};
ghost use Rattle.trace_format.specs.Grammar.{fault};
ghost use Rattle.trace_format.specs.declared.fault.Kind.TheVariants.{Memory};
ghost use Rattle.trace_records.specs.Spelling.{trace_bytes};
ghost use Rattle.text_words.specs.Read.{Gives, rest_of};
ghost use Rattle.text_trace.specs.Whole.{whole};
ghost use Rattle.text_records.specs.Whole.{HasFault, IsFaultOfBytes, IsFaultOfThree, IsTold};
ghost use Rattle.text_records.specs.Whole.{IsTrace, MeansBytes, MeansThree, OnFault};
ghost use Rattle.text_records.specs.Whole.{has_version_3, told_of, trace_meant};

use crate::pieces::{Piece, Pieces, left_at};
use crate::records::records_of;
use crate::start::{descriptions_of, items_of, table_of};
use std::alloc::Global;
use std::collections::BTreeMap;
use text_trace::{MOST_BYTES, MakeFault, place_of, text_end};
use text_words::{
    Fault, ReadError, Reason, Source, behind_first, behind_next, first_word, line_end, next_word,
};
use trace_format::{Kind, Series, TraceFault};
use trace_records::{Start, Trace, read_trace, write_trace};

/// A whole text.
fn whole(text: &[u8]) -> Source<'_>
    ensures { rest_of result ≡ whole text.entry.now }
{
    Source {
        rest: text,
        room: MOST_BYTES,
    }
}

/// Whether the first line names version 3.
fn has_version_3(text: &[u8]) -> bool
    ensures { result ≡ has_version_3 text.now }
{
    let source = whole(text);
    first_word(source).bytes == b"uring-trace".as_slice()
        && next_word(behind_first(source)).bytes == b"3".as_slice()
}

/// The trace that a text of version 3 means, and which of its lines made which bytes.
#[tactic(auto, unfolding(crate::specs::Whole::trace_meant))]
fn trace_of(alloc: Global, text: &[u8]) -> Result<(Trace, Pieces), ReadError>
    ensures { Gives (λ x. (x.0, x.1.items)) result (trace_meant text.now) }
{
    let source = line_end(behind_next(behind_first(whole(text))))?;
    let mut pieces = Vec::new(alloc);
    let mut names = BTreeMap::new(alloc);
    let (items, source) = items_of(alloc, &mut names, &mut pieces, source)?;
    let (descriptions, source) = descriptions_of(alloc, &names, &mut pieces, source)?;
    let (table_size, descriptors, source) = table_of(alloc, &mut pieces, source)?;
    let (records, source) = records_of(alloc, &mut pieces, source)?;
    text_end(source)?;
    let start = Start {
        items: Series::from_vec(items),
        descriptions: Series::from_vec(descriptions),
        table_size,
        descriptors: Series::from_vec(descriptors),
    };
    let records = Series::from_vec(records);
    Ok((Trace { start, records }, pieces))
}

/// Refuses bytes that are no trace, or more than are read.
fn check_bytes(alloc: Global, bytes: &[u8]) -> Result<(), TraceFault>
    ensures trace { OnOk result (IsTrace bytes.now) }
    ensures fault { IfErr result (λ f. (f ≡ fault Memory 0) ⊎ HasFault bytes.now f) }
{
    if bytes.len() as u64 > MOST_BYTES {
        return Err(TraceFault {
            kind: Kind::Limit,
            at: MOST_BYTES,
        });
    }
    read_trace(alloc, bytes)?;
    Ok(())
}

/// The fault of a text whose bytes have one, at the line that made the byte.
fn line_fault(text: &[u8], pieces: &[Piece], fault: TraceFault) -> Fault
    ensures { result ≡ told_of text.now pieces.now fault }
{
    let left = left_at(pieces, fault.at.saturating_sub(32)).unwrap_or(text.len());
    Fault {
        reason: Reason::Trace(fault.kind),
        left,
    }
}

/// The bytes of a trace, where they are those of one, or their fault at the line that made it.
fn checked(
    alloc: Global,
    text: &[u8],
    trace: &Trace,
    pieces: &[Piece],
) -> Result<Vec<u8>, ReadError>
    ensures bytes { IfOk result (λ bytes. bytes.items ≡ trace_bytes trace.now) }
    ensures trace { IfOk result (λ bytes. IsTrace bytes.items) }
    ensures fault { IfErr result
        (λ e. OnFault e (IsFaultOfBytes text.now (trace.now, pieces.now))) }
{
    let bytes = write_trace(alloc, trace)?;
    match check_bytes(alloc, bytes.as_slice()) {
        Ok(()) => Ok(bytes),
        Err(fault) if fault.kind == Kind::Memory => Err(ReadError::OutOfMemory),
        Err(fault) => Err(ReadError::Fault(line_fault(text, pieces, fault))),
    }
}

/// The bytes that a text of version 3 means.
fn bytes_of(alloc: Global, text: &[u8]) -> Result<Vec<u8>, ReadError>
    ensures bytes { IfOk result (λ bytes. MeansThree text.now bytes.items) }
    ensures fault { IfErr result (λ e. OnFault e (IsFaultOfThree text.now)) }
{
    let (trace, pieces) = match trace_of(alloc, text) {
        Ok(read) => read,
        Err(error) => return Err(error),
    };
    match checked(alloc, text, &trace, pieces.as_slice()) {
        Ok(bytes) => Ok(bytes),
        Err(error) => Err(error),
    }
}

/// The bytes that a text of version 3 means, or its fault by line and column.
fn make_three(alloc: Global, text: &[u8]) -> Result<Vec<u8>, MakeFault>
    ensures bytes { IfOk result (λ bytes. MeansBytes true text.now bytes.items) }
    ensures fault { IfErr result (IsTold true text.now) }
{
    match bytes_of(alloc, text) {
        Ok(bytes) => Ok(bytes),
        Err(ReadError::OutOfMemory) => Err(MakeFault::Memory),
        Err(ReadError::Fault(fault)) => Err(MakeFault::Text(place_of(text, fault))),
    }
}

/// The bytes that a text of version 1 or 2 means, or its fault by line and column.
fn make_two(alloc: Global, text: &[u8]) -> Result<Vec<u8>, MakeFault>
    ensures bytes { IfOk result (λ bytes. MeansBytes false text.now bytes.items) }
    ensures fault { IfErr result (IsTold false text.now) }
{
    text_trace::make_bytes(alloc, text)
}

/// The bytes of the trace that a text means, of any version. It takes time linear in the text and
/// the bytes, but for look-ups of paths.
///
/// # Errors
///
/// Text with the first place at which the text is none, or the line that makes bytes that are no
/// part of a trace; Memory where an allocation was refused.
pub fn make_bytes(alloc: Global, text: &[u8]) -> Result<Vec<u8>, MakeFault>
    ensures bytes { IfOk result (λ bytes. MeansBytes (has_version_3 text.now) text.now bytes.items) }
    ensures fault { IfErr result (IsTold (has_version_3 text.now) text.now) }
{
    if has_version_3(text) {
        make_three(alloc, text)
    } else {
        make_two(alloc, text)
    }
}
