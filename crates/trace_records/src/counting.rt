//! How many places and rings a trace has.
ghost use Rattle.std.specs.Prelude.{◌≡◌, ◌⊎◌, ◌+◌, ◌≤◌, IfOk, IfErr, OnOk, List};
ghost use Rattle.trace_format.specs.Grammar.{fault};
ghost use Rattle.trace_format.specs.declared.fault.Kind.TheVariants.{Memory};
ghost use Rattle.trace_records.specs.Front.{after, no_records, places_limit, places_of};
ghost use Rattle.trace_records.specs.Read.{OnFault};
ghost use Rattle.trace_records.specs.Tallies.{IsTallyOf};
ghost use Rattle.trace_records.specs.Whole.{Behind, Ends, HasFault, HasMore, NextBreaks};
ghost use Rattle.trace_records.specs.Whole.{IsRefusal, SpellsTrace};
ghost use Rattle.trace_records.specs.declared.record.Record as records;
ghost use Rattle.trace_records.specs.declared.trace.Trace as traces;

use crate::fault::{ReadError, as_fault, refused};
use crate::front::Front;
use crate::reading::start_of;
use crate::record::Record;
use crate::records::next_of;
use crate::source::Source;
use crate::start::Start;
use std::alloc::{AllocError, Global};
use trace_format::{Kind, TraceFault};

/// How many places and rings a trace has.
#[derive(Clone, Copy, Debug, PartialEq, Eq)]
pub struct Tally {
    /// Its places, at most 2^31.
    pub places: u32,
    /// Its rings, those that ended too.
    pub rings: usize,
}

/// Adds a record to the front, and lets it go.
fn add_one(alloc: Global, front: &mut Front, made: Record) -> Result<(), AllocError>
    requires { front.old.places + places_of made ≤ places_limit }
    ensures { OnOk result (front.new ≡ after front.old made) }
{
    front.add(alloc, &made)
}

/// Those of the records of a trace, to its end.
fn tally_of(alloc: Global, start: &Start, source: Source<'_>) -> Result<Tally, ReadError>
    ensures records { IfOk result (λ tally. (rs : List records.Record)
        × Behind (Ends start.now)
        start.now no_records source.entry.place source.entry.rest.now rs
        × IsTallyOf tally rs) }
    ensures fault { IfErr result (λ e. OnFault e (λ f. (rs : List records.Record)
        × (Behind (NextBreaks f start.now)
        start.now no_records source.entry.place source.entry.rest.now rs
        ⊎ Behind (HasMore f start.now)
        start.now no_records source.entry.place source.entry.rest.now rs))) }
{
    let mut front = Front::new(alloc);
    let mut source = source;
    loop {
        let (next, after) = next_of(alloc, start, &front, source)?;
        let Some(made) = next else {
            if after.rest.is_empty() {
                return Ok(Tally {
                    places: front.places(),
                    rings: front.rings(),
                });
            }
            return Err(refused(Kind::Trailing, after.place));
        };
        add_one(alloc, &mut front, made)?;
        source = after;
    }
}

fn trace_tally(alloc: Global, bytes: &[u8]) -> Result<Tally, ReadError>
    ensures trace { IfOk result (λ tally. (t : traces.Trace) × SpellsTrace bytes.now t
        × IsTallyOf tally t.records) }
    ensures fault { IfErr result (λ e. OnFault e (HasFault bytes.now)) }
{
    let source = Source {
        shared: None,
        rest: bytes,
        place: 0,
    };
    let (start, source) = start_of(alloc, source)?;
    tally_of(alloc, &start, source)
}

/// How many places and rings the trace has that the bytes spell. Of its records it keeps one at a
/// time.
///
/// # Errors
///
/// As those of [`crate::read_trace`].
pub fn count_trace(alloc: Global, bytes: &[u8]) -> Result<Tally, TraceFault>
    // They are those of a trace that is spelled so.
    ensures trace { IfOk result (λ tally. (t : traces.Trace) × SpellsTrace bytes.now t
        × IsTallyOf tally t.records) }
    // A fault is one of the bytes, which then spell no trace, unless memory ran out.
    ensures fault { IfErr result (λ f. (f ≡ fault Memory 0) ⊎ IsRefusal bytes.now f) }
{
    match trace_tally(alloc, bytes) {
        Ok(tally) => Ok(tally),
        Err(error) => Err(as_fault(error)),
    }
}
