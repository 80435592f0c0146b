//! The lines of slots and descriptors.
ghost use Rattle.text_words.specs.Read.{Gives, rest_of, word_of};
ghost use Rattle.text_records.specs.Slots.{add_full, add_slots, all_slots, description_at};
ghost use Rattle.text_records.specs.Slots.{descriptor_at, held_at, holder_at, next_slots};
ghost use Rattle.text_records.specs.Slots.{slot_at, slots_line, slots_of};

use std::alloc::Global;
use text_trace::empty_slots;
use text_words::{
    ReadError, Reason, Source, Word, behind_first, behind_next, is_at_end, line_end, next_word,
    part_at, refused, u32_at, word_behind,
};
use trace_records::{FullSlot, Holder};

/// How many slots a ring has at most, and descriptors a trace.
const MOST_SLOTS: u32 = 1_048_576;

/// What a line lists the entries of.
#[derive(Clone, Copy)]
pub(crate) enum Table {
    /// The ordinary descriptors.
    Descriptors,
    /// The slots of a ring.
    Slots,
}

/// The entries of a table.
#[derive(Drop)]
pub(crate) struct Slots {
    /// How many there are.
    pub count: u32,
    /// Those that are not empty, by rising number.
    pub full: Vec<FullSlot>,
}

/// What descriptor N holds, by `fd:N`.
#[tactic(auto, unfolding(crate::specs::Slots::descriptor_at))]
fn descriptor_at(word: Word<'_>) -> Result<Holder, ReadError>
    ensures { Gives (λ h. h) result (descriptor_at (word_of word.entry)) }
{
    let number = u32_at(word_behind(3, word))?;
    Ok(Holder::Descriptor { number })
}

/// What slot N of ring R holds, by `R:N`, the ring being the first part.
#[tactic(auto, unfolding(crate::specs::Slots::slot_at))]
fn slot_at(word: Word<'_>) -> Result<Holder, ReadError>
    ensures { Gives (λ h. h) result (slot_at (word_of word.entry)) }
{
    let part = part_at(b':', word.bytes);
    let ring = u32_at(Word {
        bytes: part,
        left: word.left,
    })?;
    let number = u32_at(word_behind(part.len() + 1, word))?;
    Ok(Holder::Slot { ring, number })
}

/// A description of the start, by its number.
#[tactic(auto, unfolding(crate::specs::Slots::description_at))]
fn description_at(word: Word<'_>) -> Result<Holder, ReadError>
    ensures { Gives (λ h. h) result (description_at (word_of word.entry)) }
{
    let number = u32_at(word)?;
    Ok(Holder::Description { number })
}

/// What a slot of a ring gets.
#[tactic(auto, unfolding(crate::specs::Slots::holder_at))]
pub(crate) fn holder_at(word: Word<'_>) -> Result<Holder, ReadError>
    ensures { Gives (λ h. h) result (holder_at (word_of word.entry)) }
{
    if word.bytes.starts_with(b"fd:") {
        descriptor_at(word)
    } else if part_at(b':', word.bytes).len() < word.bytes.len() {
        slot_at(word)
    } else {
        description_at(word)
    }
}

/// What a full entry of a table gets.
fn held_at(table: Table, word: Word<'_>) -> Result<Holder, ReadError>
    ensures { Gives (λ h. h) result (held_at table (word_of word.entry)) }
{
    match table {
        Table::Descriptors => description_at(word),
        Table::Slots => holder_at(word),
    }
}

/// Adds a full entry.
#[tactic(auto, unfolding(crate::specs::Slots::add_full))]
fn add_full(table: Table, slots: &mut Slots, word: Word<'_>) -> Result<(), ReadError>
    ensures { Gives (λ _. slots_of slots.new) result
        (add_full table (slots_of slots.old) (word_of word.entry)) }
{
    let holds = held_at(table, word)?;
    if slots.count >= MOST_SLOTS {
        return Err(refused(Reason::TooMany, word.left));
    }
    slots.full.push(FullSlot {
        number: slots.count,
        holds,
    })?;
    slots.count += 1;
    Ok(())
}

/// Adds the entries of a word.
#[tactic(auto, unfolding(crate::specs::Slots::add_slots))]
fn add_slots(table: Table, slots: &mut Slots, word: Word<'_>) -> Result<(), ReadError>
    ensures { Gives (λ _. slots_of slots.new) result
        (add_slots table (slots_of slots.old) (word_of word.entry)) }
{
    let Some(count) = empty_slots(word)? else {
        return add_full(table, slots, word);
    };
    if slots.count > MOST_SLOTS || count > u64::from(MOST_SLOTS - slots.count) {
        return Err(refused(Reason::TooMany, word.left));
    }
    slots.count += count as u32;
    Ok(())
}

/// Adds the entries of the next word.
#[tactic(auto, unfolding(crate::specs::Slots::next_slots))]
fn next_slots<'a>(
    table: Table,
    slots: &mut Slots,
    source: Source<'a>,
) -> Result<Source<'a>, ReadError>
    ensures { Gives (λ s. (slots_of slots.new, rest_of s)) result
        (next_slots table (slots_of slots.old) (rest_of source.entry)) }
{
    add_slots(table, slots, next_word(source))?;
    Ok(behind_next(source))
}

/// All entries of a line.
fn all_slots<'a>(
    alloc: Global,
    table: Table,
    source: Source<'a>,
) -> Result<(Slots, Source<'a>), ReadError>
    ensures { Gives (λ x. (slots_of x.0, rest_of x.1)) result
        (all_slots table (rest_of source.entry)) }
{
    let mut slots = Slots {
        count: 0,
        full: Vec::new(alloc),
    };
    let mut source = source;
    for _ in 0..source.rest.len() {
        if is_at_end(source) {
            break;
        }
        source = next_slots(table, &mut slots, source)?;
    }
    Ok((slots, source))
}

/// The line of a table.
#[tactic(auto, unfolding(crate::specs::Slots::slots_line))]
pub(crate) fn slots_line<'a>(
    alloc: Global,
    table: Table,
    source: Source<'a>,
) -> Result<(Slots, Source<'a>), ReadError>
    ensures { Gives (λ x. (slots_of x.0, rest_of x.1)) result
        (slots_line table (rest_of source.entry)) }
{
    let source = behind_first(source);
    if is_at_end(source) {
        return Err(refused(Reason::Slot, next_word(source).left));
    }
    let (slots, source) = all_slots(alloc, table, source)?;
    let source = line_end(source)?;
    Ok((slots, source))
}
