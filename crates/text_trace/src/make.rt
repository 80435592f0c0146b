//! Bytes from text.
ghost use Rattle.std.specs.Prelude.{◌≡◌, IfErr, IfOk};
ghost use Rattle.trace_format.specs.declared.trace.Trace.{Trace as TraceOf};
ghost use Rattle.trace_format.specs.Read.{reading_trace};
ghost use Rattle.trace_format.specs.Spelling.{trace_bytes};
ghost use Rattle.trace_format.specs.Text.{SpellsTrace};
ghost use Rattle.text_words.specs.Read.{Gives, rest_of};
ghost use Rattle.text_trace.specs.Places.{IsTold, fault_told};
ghost use Rattle.text_trace.specs.Whole.{bytes_read, descriptors_of, meaning, trace_meant};

use crate::draft::line_of_byte;
use crate::fault::{MakeFault, TextFault};
use crate::lines::{
    Lines, descriptions_of, items_of, records_of, rings_of, slots_behind, text_end, version_of,
};
use std::alloc::Global;
use std::collections::BTreeMap;
use text_words::{Fault, ReadError, Reason, Source, refused};
use trace_format::{Kind, Series, Trace, Version, read_trace, write_trace};

/// How many bytes the strings of a text may mean.
pub const MOST_BYTES: u64 = 1_073_741_824;

/// The trace that a text means, and of each line that makes bytes, how many bytes of the text are
/// left from it on.
#[tactic(auto, unfolding(crate::specs::Whole::trace_meant))]
fn trace_of(alloc: Global, text: &[u8]) -> Result<(Trace, Lines), ReadError>
    ensures { Gives (λ x. (x.0, x.1.items)) result (trace_meant text.now) }
{
    let source = Source {
        rest: text,
        room: MOST_BYTES,
    };
    let mut lines = Vec::new(alloc);
    let mut names = BTreeMap::new(alloc);
    let (version, source) = version_of(source)?;
    let (items, source) = items_of(alloc, &mut names, &mut lines, source)?;
    let (descriptions, source) = descriptions_of(alloc, &names, &mut lines, source)?;
    let (descriptors, source) = descriptors_of(alloc, version, &mut lines, source)?;
    let (rings, source) = rings_of(alloc, &mut lines, source)?;
    let (records, source) = records_of(alloc, &mut lines, source)?;
    text_end(source)?;
    let trace = Trace {
        version,
        items: Series::from_vec(items),
        descriptions: Series::from_vec(descriptions),
        descriptors: Series::from_vec(descriptors),
        rings: Series::from_vec(rings),
        records,
    };
    Ok((trace, lines))
}

/// The table of descriptors: a line of it can stand where the version has one.
#[tactic(auto, unfolding(crate::specs::Whole::descriptors_of))]
fn descriptors_of<'a>(
    alloc: Global,
    version: Version,
    lines: &mut Lines,
    source: Source<'a>,
) -> Result<(Vec<u32>, Source<'a>), ReadError>
    ensures { Gives (λ x. (x.0.items, lines.new.items, rest_of x.1)) result
        (descriptors_of version lines.old.items (rest_of source.entry)) }
{
    if version.rules().most_descriptors == 0 {
        return Ok((Vec::new(alloc), source));
    }
    slots_behind(alloc, b"descriptors", lines, source)
}

/// Where so many bytes of a text are left.
pub fn place_of(text: &[u8], fault: Fault) -> TextFault
    ensures { result ≡ fault_told text.now fault }
{
    let before = &text[..text.len() - fault.left.min(text.len())];
    let mut line: u64 = 1;
    let mut column: u64 = 1;
    for byte in before {
        if *byte == b'\n' {
            line += 1;
            column = 1;
        } else {
            column += 1;
        }
    }
    TextFault {
        line,
        column,
        reason: fault.reason,
    }
}

/// The bytes of a trace, where reading them gives one, or their fault at the line that made it.
fn bytes_read(
    alloc: Global,
    text: &[u8],
    trace: &Trace,
    lines: &[usize],
) -> Result<Vec<u8>, ReadError>
    ensures read { Gives (λ bytes. bytes.items) result
        (bytes_read text.now (trace.now, lines.now) (reading_trace (trace_bytes trace.now))) }
    ensures trace { IfOk result (λ bytes. (t : TraceOf) × SpellsTrace bytes.items t) }
{
    let bytes = write_trace(alloc, trace)?;
    match read_trace(alloc, bytes.clone()?) {
        Ok(_) => Ok(bytes),
        Err(fault) if fault.kind == Kind::Memory => Err(ReadError::OutOfMemory),
        Err(fault) => {
            let left = line_of_byte(trace, lines, fault.at).unwrap_or(text.len());
            Err(refused(Reason::Trace(fault.kind), left))
        }
    }
}

/// The bytes that a text means, where they are those of a trace.
#[tactic(auto, unfolding(crate::specs::Whole::meaning))]
fn made(alloc: Global, text: &[u8]) -> Result<Vec<u8>, ReadError>
    ensures read { Gives (λ bytes. bytes.items) result (meaning text.now) }
    ensures trace { IfOk result (λ bytes. (t : TraceOf) × SpellsTrace bytes.items t) }
{
    let (trace, lines) = trace_of(alloc, text)?;
    bytes_read(alloc, text, &trace, lines.as_slice())
}

/// The bytes of the trace that a text means. It takes time linear in the text and the bytes, but
/// for look-ups of paths.
///
/// # Errors
///
/// Text with the first place at which the text is none, or the line that makes bytes that are no
/// part of a trace; Memory where an allocation was refused.
pub fn make_bytes(alloc: Global, text: &[u8]) -> Result<Vec<u8>, MakeFault>
    ensures bytes { IfOk result (λ bytes. meaning text.now ≡ Ok bytes.items) }
    ensures trace { IfOk result (λ bytes. (t : TraceOf) × SpellsTrace bytes.items t) }
    ensures fault { IfErr result (IsTold text.now) }
{
    match made(alloc, text) {
        Ok(bytes) => Ok(bytes),
        Err(ReadError::OutOfMemory) => Err(MakeFault::Memory),
        Err(ReadError::Fault(fault)) => Err(MakeFault::Text(place_of(text, fault))),
    }
}
