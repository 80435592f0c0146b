//! The table of descriptors, and the lines of a new ring.
ghost use Rattle.std.specs.Prelude.{◌≡◌, ◌-◌, ◌++◌, OnOk, codes};
ghost use Rattle.trace_text.specs.Shown.{empty_slots};
ghost use Rattle.records_text.specs.Shown.{descriptor_word, descriptors_line, full_slot_word};
ghost use Rattle.records_text.specs.Shown.{holder_text, queue_word, ring_lines, table_from};
ghost use Rattle.records_text.specs.Shown.{table_line};

use crate::sets::push_file;
use std::alloc::AllocError;
use text_forms::{push_bytes, push_decimal};
use trace_records::{Descriptor, FileAt, FullSlot, Holder, Ring, Start};
use trace_text::{push_buffers, push_empty, push_key};

/// The empty slots before one that is full.
fn push_gap(text: &mut Vec<u8>, next: usize, number: u32) -> Result<(), AllocError>
    ensures { OnOk result (text.new.items
        ≡ text.old.items ++ (empty_slots (number - next) ++ codes " ")) }
{
    push_empty(text, (number as usize).saturating_sub(next))?;
    push_bytes(text, b" ")
}

/// A full entry of the table of descriptors.
fn push_descriptor(
    text: &mut Vec<u8>,
    next: usize,
    descriptor: &Descriptor,
) -> Result<(), AllocError>
    ensures { OnOk result (text.new.items ≡ text.old.items
        ++ (empty_slots (descriptor.now.number - next) ++ codes " "
        ++ descriptor_word descriptor.now)) }
{
    push_gap(text, next, descriptor.number)?;
    push_decimal(text, u64::from(descriptor.description))
}

fn push_table(text: &mut Vec<u8>, size: u32, full: &[Descriptor]) -> Result<(), AllocError>
    ensures { OnOk result (text.new.items ≡ text.old.items
        ++ table_from (λ d. d.number) descriptor_word size 0 full.now) }
{
    let mut next = 0;
    for descriptor in full {
        push_descriptor(text, next, descriptor)?;
        next = descriptor.number as usize + 1;
    }
    push_empty(text, (size as usize).saturating_sub(next))
}

/// The line of the table of ordinary descriptors, where there is one.
pub(crate) fn push_descriptors(text: &mut Vec<u8>, start: &Start) -> Result<(), AllocError>
    ensures { OnOk result (text.new.items ≡ text.old.items ++ descriptors_line start.now) }
{
    if start.table_size == 0 {
        return Ok(());
    }
    push_bytes(text, b"descriptors")?;
    push_table(text, start.table_size, start.descriptors.as_slice())?;
    push_bytes(text, b"\n")
}

/// What a slot of a new ring gets.
fn push_holder(text: &mut Vec<u8>, holder: Holder) -> Result<(), AllocError>
    ensures { OnOk result (text.new.items ≡ text.old.items ++ holder_text holder) }
{
    match holder {
        Holder::Slot { ring, number } => push_file(text, FileAt::Slot { ring, number }),
        Holder::Descriptor { number } => push_file(text, FileAt::Descriptor { number }),
        Holder::Description { number } => push_decimal(text, u64::from(number)),
    }
}

/// A full slot.
fn push_slot(text: &mut Vec<u8>, next: usize, slot: &FullSlot) -> Result<(), AllocError>
    ensures { OnOk result (text.new.items ≡ text.old.items
        ++ (empty_slots (slot.now.number - next) ++ codes " " ++ full_slot_word slot.now)) }
{
    push_gap(text, next, slot.number)?;
    push_holder(text, slot.holds)
}

fn push_full_slots(text: &mut Vec<u8>, size: u32, full: &[FullSlot]) -> Result<(), AllocError>
    ensures { OnOk result (text.new.items ≡ text.old.items
        ++ table_from (λ s. s.number) full_slot_word size 0 full.now) }
{
    let mut next = 0;
    for slot in full {
        push_slot(text, next, slot)?;
        next = slot.number as usize + 1;
    }
    push_empty(text, (size as usize).saturating_sub(next))
}

/// The line of the slots of a new ring, where it has some.
fn push_slots(text: &mut Vec<u8>, size: u32, full: &[FullSlot]) -> Result<(), AllocError>
    ensures { OnOk result (text.new.items ≡ text.old.items
        ++ table_line (codes "  slots") (λ s. s.number) full_slot_word size full.now) }
{
    if size == 0 {
        return Ok(());
    }
    push_bytes(text, b"  slots")?;
    push_full_slots(text, size, full)?;
    push_bytes(text, b"\n")
}

/// The queue that a ring continues.
fn push_queue(text: &mut Vec<u8>, queue: Option<u32>) -> Result<(), AllocError>
    ensures { OnOk result (text.new.items ≡ text.old.items ++ queue_word queue) }
{
    match queue {
        None => Ok(()),
        Some(ring) => {
            push_key(text, b"queue")?;
            push_decimal(text, u64::from(ring))
        }
    }
}

/// A new ring, by its number.
pub(crate) fn push_ring(text: &mut Vec<u8>, number: usize, ring: &Ring) -> Result<(), AllocError>
    ensures { OnOk result (text.new.items ≡ text.old.items ++ ring_lines number ring.now) }
{
    push_bytes(text, b"ring ")?;
    push_decimal(text, number as u64)?;
    push_queue(text, ring.queue)?;
    push_bytes(text, b"\n")?;
    push_slots(text, ring.slots, ring.full.as_slice())?;
    push_buffers(text, ring.buffers.as_slice())
}
