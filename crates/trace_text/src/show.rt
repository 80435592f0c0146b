//! A trace as text.
ghost use Rattle.std.specs.Prelude.{◌≡◌, ◌++◌, IfOk, OnOk, codes};
ghost use Rattle.std.specs.Fmt.{decimal};
ghost use Rattle.trace_text.specs.Shown.{text_of};

use crate::lines::{push_descriptions, push_items, push_records, push_rings, push_slots};
use crate::look::Look;
use std::alloc::{AllocError, Global};
use text_forms::{push_bytes, push_decimal};
use trace_format::Trace;

/// The first line: the version.
fn push_version(text: &mut Vec<u8>, number: u32) -> Result<(), AllocError>
    ensures { OnOk result (text.new.items
        ≡ text.old.items ++ (codes "uring-trace " ++ decimal number ++ codes "\n")) }
{
    push_bytes(text, b"uring-trace ")?;
    push_decimal(text, number as u64)?;
    push_bytes(text, b"\n")
}

/// The text of a trace: a line for each of its items, descriptions, slots and buffers, entries and
/// fills. It takes time and memory linear in the text.
///
/// # Errors
///
/// Out of memory.
#[tactic(auto, unfolding(crate::specs::Shown::text_of))]
pub fn show_text(alloc: Global, trace: &Trace, look: Look) -> Result<Vec<u8>, AllocError>
    ensures { IfOk result (λ text. text.items ≡ text_of look trace.now) }
{
    // The trace counts its steps, so there are few enough for the numbers of their places.
    let _places = trace.places();
    let mut text = Vec::new(alloc);
    push_version(&mut text, trace.version.rules().number)?;
    push_items(&mut text, look, trace.items.as_slice())?;
    push_descriptions(
        &mut text,
        trace.items.as_slice(),
        trace.descriptions.as_slice(),
    )?;
    push_slots(&mut text, b"descriptors", trace.descriptors.as_slice())?;
    push_rings(&mut text, trace.rings.as_slice())?;
    push_records(&mut text, look, trace.records.as_slice())?;
    Ok(text)
}
