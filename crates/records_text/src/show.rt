//! A trace of version 3 as text.
ghost use Rattle.std.specs.Prelude.{◌≡◌, ◌≤◌, IfOk};
ghost use Rattle.trace_records.specs.Front.{places_limit};
ghost use Rattle.trace_records.specs.Tallies.{places};
ghost use Rattle.records_text.specs.Shown.{text_of};

use crate::records::push_records;
use crate::rings::push_descriptors;
use crate::start::{push_descriptions, push_items};
use std::alloc::{AllocError, Global};
use text_forms::push_bytes;
use trace_records::Trace;
use trace_text::Look;

/// The text of a trace: a line for each of its items and descriptions, for its table of
/// descriptors, and for each ring, buffer, entry and fill. It takes time and memory linear in the
/// text.
///
/// # Errors
///
/// Out of memory.
#[tactic(auto, unfolding(crate::specs::Shown::text_of))]
pub fn show_text(alloc: Global, trace: &Trace, look: Look) -> Result<Vec<u8>, AllocError>
    requires { places trace.now.records ≤ places_limit }
    ensures { IfOk result (λ text. text.items ≡ text_of look trace.now) }
{
    let start = &trace.start;
    let mut text = Vec::new(alloc);
    push_bytes(&mut text, b"uring-trace 3\n")?;
    push_items(&mut text, look, start.items.as_slice())?;
    push_descriptions(
        &mut text,
        start.items.as_slice(),
        start.descriptions.as_slice(),
    )?;
    push_descriptors(&mut text, start)?;
    push_records(&mut text, look, trace.records.as_slice())?;
    Ok(text)
}
