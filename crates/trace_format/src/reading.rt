//! Reading a trace.
ghost use Rattle.std.specs.Prelude.{◌≡◌, ◌⊎◌, ◌≤◌, IfOk, IfErr, length};
ghost use Rattle.trace_format.specs.Grammar.{fault};
ghost use Rattle.trace_format.specs.Read.{Gives, reading_trace, fault_of};
ghost use Rattle.trace_format.specs.Sources.{reading_from, with_rest};
ghost use Rattle.trace_format.specs.Text.{trace, longest, SpellsTrace, IsRefusal};
ghost use Rattle.trace_format.specs.declared.fault.Kind.TheVariants.{Memory};

use crate::blob::Text;
use crate::descriptions::descriptions_of;
use crate::fault::{Kind, ReadError, TraceFault, refused};
use crate::header::counts_of;
use crate::items::items_of;
use crate::list::Series;
use crate::records::records_of;
use crate::rings::{rings_of, slots_of};
use crate::source::Source;
use crate::trace::Trace;
use std::alloc::Global;
use std::sync::Arc;

/// How many bytes the text of a trace has at most.
const LONGEST: usize = 1_073_741_824;

#[tactic(auto, unfolding(crate::specs::Text::trace))]
fn trace_of(alloc: Global, source: Source<'_>) -> Result<(Trace, Source<'_>), ReadError>
    ensures { Gives with_rest result (reading_from source.entry trace) }
{
    let (counts, source) = counts_of(source)?;
    let (items, source) = items_of(alloc, counts.items, source)?;
    let (descriptions, source) = descriptions_of(alloc, counts.descriptions, &items, source)?;
    let (descriptors, source) = slots_of(alloc, counts.descriptors, counts.descriptions, source)?;
    let (rings, source) = rings_of(alloc, counts.rings, counts.descriptions, source)?;
    let (records, source) = records_of(alloc, counts.records, &rings, source)?;
    Ok((
        Trace {
            version: counts.version,
            items: Series::from_vec(items),
            descriptions: Series::from_vec(descriptions),
            descriptors: Series::from_vec(descriptors),
            rings: Series::from_vec(rings),
            records,
        },
        source,
    ))
}

#[tactic(auto, unfolding(crate::specs::Read::reading_trace))]
fn read_text(alloc: Global, text: &Text) -> Result<Trace, ReadError>
    requires { length text.now.value.items ≤ longest }
    ensures { Gives (λ x. x) result (reading_trace text.now.value.items) }
{
    let source = Source {
        text,
        rest: text.as_slice(),
        place: 0,
    };
    let (trace, source) = trace_of(alloc, source)?;
    if !source.rest.is_empty() {
        return Err(refused(Kind::Trailing, source.place));
    }
    Ok(trace)
}

#[tactic(auto, unfolding(crate::specs::Read::reading_trace))]
fn read(alloc: Global, bytes: Vec<u8>) -> Result<Trace, ReadError>
    ensures { Gives (λ x. x) result (reading_trace bytes.items) }
{
    if bytes.len() > LONGEST {
        return Err(refused(Kind::Limit, LONGEST as u64));
    }
    let text = Arc::new(alloc, bytes)?;
    read_text(alloc, &text)
}

fn as_fault(error: ReadError) -> TraceFault
    ensures { result ≡ fault_of error }
{
    match error {
        ReadError::OutOfMemory => TraceFault {
            kind: Kind::Memory,
            at: 0,
        },
        ReadError::Fault(fault) => fault,
    }
}

/// The trace that the bytes spell. It keeps the bytes, and copies none of them.
///
/// # Errors
///
/// The first fault in reading order, and [`Kind::Memory`] at 0 where an allocation was refused. A
/// text of more than 1,073,741,824 bytes is [`Kind::Limit`] there before all else.
pub fn read_trace(alloc: Global, bytes: Vec<u8>) -> Result<Trace, TraceFault>
    // What is read is spelled so.
    ensures trace { IfOk result (λ t. SpellsTrace bytes.items t) }
    // A fault is one of the bytes, which then spell no trace, unless memory ran out.
    ensures fault { IfErr result (λ f. (f ≡ fault Memory 0) ⊎ IsRefusal bytes.items f) }
{
    match read(alloc, bytes) {
        Ok(trace) => Ok(trace),
        Err(error) => Err(as_fault(error)),
    }
}
