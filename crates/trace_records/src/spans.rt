//! The buffers so far of a ring.
ghost use Rattle.std.specs.Prelude.{◌≡◌, ◌+◌, ◌<◌, ◌^◌, OnOk, List};
ghost use Rattle.std.specs.List.{list_any};
ghost use Rattle.trace_format.specs.declared.trace.Buffer.{Buffer};
ghost use Rattle.trace_format.specs.Spans.{AddsSpan, KnowsSpans};
ghost use Rattle.trace_format.specs.Text.{overlap};

use std::alloc::AllocError;
use std::collections::BTreeMap;
use trace_format::Buffer;

/// The lengths of buffers that aren't empty, by address.
pub(crate) type Spans = BTreeMap<u64, u32>;

/// Whether a buffer shares an address with one of those before it. No two of these overlap, so
/// only the last one that begins before its end can.
pub(crate) fn overlaps_any(spans: &Spans, buffer: &Buffer) -> bool
    requires { buffer.now.address + buffer.now.len < 2 ^ 64 }
    ensures { (earlier : List Buffer) → KnowsSpans spans.now earlier
        → result ≡ list_any (λ b. overlap b buffer.now) earlier }
{
    if buffer.len == 0 {
        return false;
    }
    let end = buffer.address + u64::from(buffer.len);
    match spans.range(..end).next_back() {
        None => false,
        Some((start, len)) => buffer.address.saturating_sub(*start) < u64::from(*len),
    }
}

/// One buffer more.
pub(crate) fn add_span(spans: &mut Spans, buffer: &Buffer) -> Result<(), AllocError>
    ensures { OnOk result (AddsSpan spans.old spans.new buffer.now) }
{
    if buffer.len > 0 {
        spans.insert(buffer.address, buffer.len)?;
    }
    Ok(())
}
