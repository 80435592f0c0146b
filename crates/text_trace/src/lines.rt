//! The lines of a text, but those of entries.
ghost use Rattle.std.specs.Prelude.{◌≡◌, ◌≤◌, ◌+◌, ◌-◌, ℕ, List, [], ◌∷◌, ◌++◌, false, IfOk};
ghost use Rattle.std.specs.Prelude.{OnOk, length, min};
ghost use Rattle.trace_format.specs.Counts.{places_in, places_limit, step_count};
ghost use Rattle.text_words.specs.Numbers.{number_in};
ghost use Rattle.text_words.specs.declared.numbers.Style.TheVariants.{Plain};
ghost use Rattle.text_words.specs.Read.{Gives, rest_of, word_of};
ghost use Rattle.text_trace.specs.Lines.{access_of, add_slots, all_slots, buffer_of};
ghost use Rattle.text_trace.specs.Lines.{description_of, directory_of, empty_slots, enter_line};
ghost use Rattle.text_trace.specs.Lines.{file_of, fill_buffer, fill_of, full_slot, is_number};
ghost use Rattle.text_trace.specs.Lines.{is_ordered, keyed, kind_of, next_access, next_node};
ghost use Rattle.text_trace.specs.Lines.{next_slots};
ghost use Rattle.text_trace.specs.Lines.{next_number, next_path, node_at, node_of, other_of};
ghost use Rattle.text_trace.specs.Lines.{ring_line, slots_of, stray, text_end, version_named};
ghost use Rattle.text_trace.specs.Lines.{version_of};
ghost use Rattle.text_trace.specs.Items.{items_of, number_of, one_item};
ghost use Rattle.text_trace.specs.Named.{KnowsOneMore, named};
ghost use Rattle.text_trace.specs.Parts.{begins, buffers_of, descriptions_of, one_buffer};
ghost use Rattle.text_trace.specs.Parts.{one_description, one_ring, ring_of, rings_of};
ghost use Rattle.text_trace.specs.Parts.{slots_behind};
ghost use Rattle.text_trace.specs.Records.{enter_of, entries_of, one_entry, one_fill, one_record};
ghost use Rattle.text_trace.specs.Records.{record_of, records_of, step_of};

use crate::entry::entry_of;
use crate::fields::opcode_of;
use std::alloc::{AllocError, Global};
use std::collections::BTreeMap;
use text_words::{
    ReadError, Reason, Source, Style, Word, behind_first, behind_next, count_at, first_word,
    is_at_end, line_end, next_word, number_in, path_at, refused, strings_of, u8_at, u16_at, u32_at,
    u64_at, value_at, word_behind,
};
use trace_format::{
    Access, Blob, Buffer, Description, Entries, EntriesBuilder, Item, Node, Record, Records, Ring,
    Series, Version,
};

/// How many items, and how many descriptions, a trace has at most.
const MOST_ITEMS: usize = 65_535;

/// How many slots and buffers a ring has at most, and descriptors a trace.
const MOST_SLOTS: usize = 1_024;

/// How many rings a trace has at most.
const MOST_RINGS: usize = 64;

/// How many entries are handed over at once at most.
const MOST_ENTRIES: usize = 32_768;

/// How many steps, and how many records, a trace has at most.
const MOST_PLACES: usize = 1_048_576;

/// The numbers of items by their paths.
pub type Names = BTreeMap<Vec<u8>, u32>;

/// Of each line that makes bytes, how many bytes of the text are left from it on.
pub(crate) type Lines = Vec<usize>;

/// The version that a word names.
fn version_named(word: &[u8]) -> Option<Version>
    ensures { result ≡ version_named word.now }
{
    if word == b"1".as_slice() {
        Some(Version::One)
    } else if word == b"2".as_slice() {
        Some(Version::Two)
    } else {
        None
    }
}

/// The first line: the version.
#[tactic(auto, unfolding(crate::specs::Lines::version_of))]
pub(crate) fn version_of(source: Source<'_>) -> Result<(Version, Source<'_>), ReadError>
    ensures { Gives (λ x. (x.0, rest_of x.1)) result (version_of (rest_of source.entry)) }
{
    let word = first_word(source);
    if word.bytes != b"uring-trace".as_slice() {
        return Err(refused(Reason::FirstLine, word.left));
    }
    let source = behind_first(source);
    let word = next_word(source);
    let Some(version) = version_named(word.bytes) else {
        return Err(refused(Reason::FirstLine, word.left));
    };
    Ok((version, line_end(behind_next(source))?))
}

/// Whether the next line begins with a word.
pub fn begins(word: &[u8], source: Source<'_>) -> bool
    ensures { result ≡ begins word.now (rest_of source.entry) }
{
    first_word(source).bytes == word
}

/// Adds a line.
fn add_line(lines: &mut Lines, word: Word<'_>) -> Result<(), AllocError>
    ensures { OnOk result (lines.new.items ≡ lines.old.items ++ word.entry.left ∷ []) }
{
    lines.push(word.left)?;
    Ok(())
}

/// The next word, which is a path.
#[tactic(auto, unfolding(crate::specs::Lines::next_path))]
pub fn next_path(alloc: Global, source: Source<'_>) -> Result<(Vec<u8>, Source<'_>), ReadError>
    ensures { Gives (λ x. (x.0.items, rest_of x.1)) result (next_path (rest_of source.entry)) }
{
    if is_at_end(source) {
        return Err(refused(Reason::Path, next_word(source).left));
    }
    let path = path_at(alloc, next_word(source))?;
    Ok((path, behind_next(source)))
}

/// The number of an item by its path.
fn named_node(names: &Names, path: &[u8]) -> Option<u32>
    ensures { result ≡ named names.now path.now }
{
    names.get(path).copied()
}

/// The number of an item, 0 for the root.
#[tactic(auto, unfolding(crate::specs::Lines::node_at))]
pub fn node_at(alloc: Global, names: &Names, word: Word<'_>) -> Result<u32, ReadError>
    ensures { Gives (λ n. n) result (node_at (named names.now) (word_of word.entry)) }
{
    if word.bytes.starts_with(b"@") {
        return u32_at(word_behind(1, word));
    }
    let path = path_at(alloc, word)?;
    if path.as_slice() == b"/".as_slice() {
        return Ok(0);
    }
    match named_node(names, path.as_slice()) {
        Some(number) => Ok(number),
        None => Err(refused(Reason::Node, word.left)),
    }
}

/// A number of 64 bits behind a key, if the next word has it.
#[tactic(auto, unfolding(crate::specs::Lines::keyed))]
pub fn keyed_long<'a>(
    key: &[u8],
    source: Source<'a>,
) -> Result<(Option<u64>, Source<'a>), ReadError>
    ensures { Gives (λ x. (x.0, rest_of x.1)) result (keyed 64 key.now (rest_of source.entry)) }
{
    match value_at(next_word(source), key) {
        None => Ok((None, source)),
        Some(value) => Ok((Some(u64_at(value)?), behind_next(source))),
    }
}

/// The same of 32 bits.
#[tactic(auto, unfolding(crate::specs::Lines::keyed))]
pub fn keyed_word<'a>(
    key: &[u8],
    source: Source<'a>,
) -> Result<(Option<u32>, Source<'a>), ReadError>
    ensures { Gives (λ x. (x.0, rest_of x.1)) result (keyed 32 key.now (rest_of source.entry)) }
{
    match value_at(next_word(source), key) {
        None => Ok((None, source)),
        Some(value) => Ok((Some(u32_at(value)?), behind_next(source))),
    }
}

/// What a file has.
#[tactic(auto, unfolding(crate::specs::Lines::file_of))]
fn file_of(alloc: Global, source: Source<'_>) -> Result<(Node, Source<'_>), ReadError>
    ensures { Gives (λ x. (x.0, rest_of x.1)) result (file_of (rest_of source.entry)) }
{
    let (size, source) = keyed_long(b"size", source)?;
    let (stored, source) = strings_of(alloc, source)?;
    let source = line_end(source)?;
    let size = size.unwrap_or(stored.len() as u64);
    let stored = Blob::from_vec(alloc, stored)?;
    Ok((Node::File { size, stored }, source))
}

/// The file that another name leads to.
#[tactic(auto, unfolding(crate::specs::Lines::other_of))]
fn other_of<'a>(
    alloc: Global,
    names: &Names,
    source: Source<'a>,
) -> Result<(Node, Source<'a>), ReadError>
    ensures { Gives (λ x. (x.0, rest_of x.1)) result
        (other_of (named names.now) (rest_of source.entry)) }
{
    let word = next_word(source);
    let Some(value) = value_at(word, b"of") else {
        return Err(refused(Reason::Of, word.left));
    };
    let number = node_at(alloc, names, value)?;
    let source = line_end(behind_next(source))?;
    Ok((Node::OtherName { number }, source))
}

/// A directory has nothing.
#[tactic(auto, unfolding(crate::specs::Lines::directory_of))]
fn directory_of(source: Source<'_>) -> Result<(Node, Source<'_>), ReadError>
    ensures { Gives (λ x. (x.0, rest_of x.1)) result (directory_of (rest_of source.entry)) }
{
    let source = line_end(source)?;
    Ok((Node::Directory, source))
}

/// What the first word of the line of an item is.
#[derive(Clone, Copy)]
pub enum ItemKind {
    Directory,
    File,
    Name,
}

/// The same of a word, none where it begins no line of an item.
pub fn kind_of(word: &[u8]) -> Option<ItemKind>
    ensures { result ≡ kind_of word.now }
{
    if word == b"dir".as_slice() {
        Some(ItemKind::Directory)
    } else if word == b"file".as_slice() {
        Some(ItemKind::File)
    } else if word == b"name".as_slice() {
        Some(ItemKind::Name)
    } else {
        None
    }
}

/// What a name leads to.
fn node_of<'a>(
    alloc: Global,
    names: &Names,
    kind: ItemKind,
    source: Source<'a>,
) -> Result<(Node, Source<'a>), ReadError>
    ensures { Gives (λ x. (x.0, rest_of x.1)) result
        (node_of (named names.now) kind (rest_of source.entry)) }
{
    match kind {
        ItemKind::Directory => directory_of(source),
        ItemKind::File => file_of(alloc, source),
        ItemKind::Name => other_of(alloc, names, source),
    }
}

/// Notes the number of an item by its path, unless an earlier one has the path.
pub fn note_name(names: &mut Names, path: &Vec<u8>, number: u32) -> Result<(), AllocError>
    ensures { OnOk result (KnowsOneMore names.old names.new path.now.items number) }
{
    if names.contains_key(path) {
        return Ok(());
    }
    names.insert(path.clone()?, number)?;
    Ok(())
}

/// Adds the item of a line.
#[tactic(auto, unfolding(crate::specs::Items::one_item))]
fn add_item<'a>(
    alloc: Global,
    names: &mut Names,
    items: &mut Vec<Item>,
    lines: &mut Lines,
    kind: ItemKind,
    source: Source<'a>,
) -> Result<Source<'a>, ReadError>
    requires { named names.old ≡ number_of items.old.items }
    ensures read { Gives (λ s. (items.new.items, lines.new.items, rest_of s)) result
        (one_item (items.old.items, lines.old.items, rest_of source.entry) kind) }
    ensures names { OnOk result (named names.new ≡ number_of items.new.items) }
{
    let word = first_word(source);
    if items.len() >= MOST_ITEMS {
        return Err(refused(Reason::TooMany, word.left));
    }
    let (path, after) = next_path(alloc, behind_first(source))?;
    let (node, after) = node_of(alloc, names, kind, after)?;
    note_name(names, &path, items.len() as u32 + 1)?;
    let path = Blob::from_vec(alloc, path)?;
    add_line(lines, word)?;
    items.push(Item { path, node })?;
    Ok(after)
}

/// All items, and their numbers by their paths.
pub(crate) fn items_of<'a>(
    alloc: Global,
    names: &mut Names,
    lines: &mut Lines,
    source: Source<'a>,
) -> Result<(Vec<Item>, Source<'a>), ReadError>
    requires { named names.old ≡ number_of [] }
    ensures read { Gives (λ x. (x.0.items, lines.new.items, rest_of x.1)) result
        (items_of lines.old.items (rest_of source.entry)) }
    ensures names { IfOk result (λ x. named names.new ≡ number_of x.0.items) }
{
    let mut items = Vec::new(alloc);
    let mut source = source;
    for _ in 0..source.rest.len() {
        let Some(kind) = kind_of(first_word(source).bytes) else {
            break;
        };
        source = add_item(alloc, names, &mut items, lines, kind, source)?;
    }
    Ok((items, source))
}

/// Whether a word is a number of 64 bits.
fn is_number(number: usize, word: &[u8]) -> bool
    ensures { result ≡ is_number number (number_in Plain word.now 64) }
{
    match number_in(Style::Plain, word, 64) {
        Ok(told) => told == number as u64,
        Err(_) => false,
    }
}

/// The next number of a line, which counts up.
#[tactic(auto, unfolding(crate::specs::Lines::next_number))]
pub fn next_number(number: usize, source: Source<'_>) -> Result<Source<'_>, ReadError>
    ensures { Gives rest_of result (next_number number (rest_of source.entry)) }
{
    let word = next_word(source);
    if !is_number(number, word.bytes) {
        return Err(refused(Reason::Next(number as u64), word.left));
    }
    Ok(behind_next(source))
}

/// What a description lets its holder do.
fn access_of(word: &[u8]) -> Option<(Access, bool)>
    ensures { result ≡ access_of word.now }
{
    if word == b"O_RDONLY".as_slice() {
        Some((Access::Read, false))
    } else if word == b"O_WRONLY".as_slice() {
        Some((Access::Write, false))
    } else if word == b"O_RDWR".as_slice() {
        Some((Access::Both, false))
    } else if word == b"O_RDONLY|O_APPEND".as_slice() {
        Some((Access::Read, true))
    } else if word == b"O_WRONLY|O_APPEND".as_slice() {
        Some((Access::Write, true))
    } else if word == b"O_RDWR|O_APPEND".as_slice() {
        Some((Access::Both, true))
    } else {
        None
    }
}

/// The next word, which is an item.
#[tactic(auto, unfolding(crate::specs::Lines::next_node))]
fn next_node<'a>(
    alloc: Global,
    names: &Names,
    source: Source<'a>,
) -> Result<(u32, Source<'a>), ReadError>
    ensures { Gives (λ x. (x.0, rest_of x.1)) result
        (next_node (named names.now) (rest_of source.entry)) }
{
    if is_at_end(source) {
        return Err(refused(Reason::Path, next_word(source).left));
    }
    let node = node_at(alloc, names, next_word(source))?;
    Ok((node, behind_next(source)))
}

/// The next word, which is an access.
#[tactic(auto, unfolding(crate::specs::Lines::next_access))]
fn next_access(source: Source<'_>) -> Result<(Access, bool, Source<'_>), ReadError>
    ensures { Gives (λ x. (x.0, x.1, rest_of x.2)) result (next_access (rest_of source.entry)) }
{
    let word = next_word(source);
    match access_of(word.bytes) {
        Some((access, append)) => Ok((access, append, behind_next(source))),
        None => Err(refused(Reason::Access, word.left)),
    }
}

/// A description, behind so many.
#[tactic(auto, unfolding(crate::specs::Lines::description_of))]
pub fn description_of<'a>(
    alloc: Global,
    names: &Names,
    number: usize,
    source: Source<'a>,
) -> Result<(Description, Source<'a>), ReadError>
    ensures { Gives (λ x. (x.0, rest_of x.1)) result
        (description_of (named names.now) number (rest_of source.entry)) }
{
    let source = next_number(number, behind_first(source))?;
    let (node, source) = next_node(alloc, names, source)?;
    let (access, append, source) = next_access(source)?;
    let (position, source) = keyed_long(b"pos", source)?;
    let source = line_end(source)?;
    Ok((
        Description {
            node,
            access,
            append,
            position: position.unwrap_or(0),
        },
        source,
    ))
}

/// Adds a description.
#[tactic(auto, unfolding(crate::specs::Parts::one_description))]
fn add_description<'a>(
    alloc: Global,
    names: &Names,
    descriptions: &mut Vec<Description>,
    lines: &mut Lines,
    source: Source<'a>,
) -> Result<Source<'a>, ReadError>
    ensures { Gives (λ s. (descriptions.new.items, lines.new.items, rest_of s)) result
        (one_description (named names.now) (
          descriptions.old.items,
          lines.old.items,
          rest_of source.entry,
        )) }
{
    let number = descriptions.len();
    if number >= MOST_ITEMS {
        return Err(refused(Reason::TooMany, first_word(source).left));
    }
    let (description, after) = description_of(alloc, names, number, source)?;
    add_line(lines, first_word(source))?;
    descriptions.push(description)?;
    Ok(after)
}

/// All descriptions.
pub(crate) fn descriptions_of<'a>(
    alloc: Global,
    names: &Names,
    lines: &mut Lines,
    source: Source<'a>,
) -> Result<(Vec<Description>, Source<'a>), ReadError>
    ensures { Gives (λ x. (x.0.items, lines.new.items, rest_of x.1)) result
        (descriptions_of (named names.now) lines.old.items (rest_of source.entry)) }
{
    let mut descriptions = Vec::new(alloc);
    let mut source = source;
    for _ in 0..source.rest.len() {
        if !begins(b"open", source) {
            break;
        }
        source = add_description(alloc, names, &mut descriptions, lines, source)?;
    }
    Ok((descriptions, source))
}

/// How many empty slots a word is, if it is some.
#[tactic(auto, unfolding(crate::specs::Lines::empty_slots))]
pub fn empty_slots(word: Word<'_>) -> Result<Option<u64>, ReadError>
    ensures { Gives (λ n. n) result (empty_slots (word_of word.entry)) }
{
    if word.bytes == b"-".as_slice() {
        return Ok(Some(1));
    }
    if !word.bytes.starts_with(b"-*") {
        return Ok(None);
    }
    Ok(Some(count_at(word_behind(2, word))?))
}

/// Adds a slot with a description.
#[tactic(auto, unfolding(crate::specs::Lines::full_slot))]
fn add_full_slot(slots: &mut Vec<u32>, word: Word<'_>) -> Result<(), ReadError>
    ensures { Gives (λ _. slots.new.items) result
        (full_slot slots.old.items (word_of word.entry)) }
{
    let number = u32_at(word)?;
    if number == u32::MAX {
        return Err(refused(Reason::Bits(32), word.left));
    }
    if slots.len() >= MOST_SLOTS {
        return Err(refused(Reason::TooMany, word.left));
    }
    slots.push(number + 1)?;
    Ok(())
}

/// Adds the slots of a word.
#[tactic(auto, unfolding(crate::specs::Lines::add_slots))]
fn add_slots(slots: &mut Vec<u32>, word: Word<'_>) -> Result<(), ReadError>
    ensures { Gives (λ _. slots.new.items) result
        (add_slots slots.old.items (word_of word.entry)) }
{
    let Some(count) = empty_slots(word)? else {
        return add_full_slot(slots, word);
    };
    let len = slots.len();
    if len > MOST_SLOTS || count > (MOST_SLOTS - len) as u64 {
        return Err(refused(Reason::TooMany, word.left));
    }
    slots.resize(len + count as usize, 0)?;
    Ok(())
}

/// Adds the slots of the next word.
#[tactic(auto, unfolding(crate::specs::Lines::next_slots))]
fn next_slots<'a>(slots: &mut Vec<u32>, source: Source<'a>) -> Result<Source<'a>, ReadError>
    ensures { Gives (λ s. (slots.new.items, rest_of s)) result
        (next_slots slots.old.items (rest_of source.entry)) }
{
    add_slots(slots, next_word(source))?;
    Ok(behind_next(source))
}

/// Adds all slots of a line.
fn all_slots<'a>(alloc: Global, source: Source<'a>) -> Result<(Vec<u32>, Source<'a>), ReadError>
    ensures { Gives (λ x. (x.0.items, rest_of x.1)) result (all_slots (rest_of source.entry)) }
{
    let mut slots = Vec::new(alloc);
    let mut source = source;
    for _ in 0..source.rest.len() {
        if is_at_end(source) {
            break;
        }
        source = next_slots(&mut slots, source)?;
    }
    Ok((slots, source))
}

/// The slots of a line.
#[tactic(auto, unfolding(crate::specs::Lines::slots_of))]
fn slots_of<'a>(alloc: Global, source: Source<'a>) -> Result<(Vec<u32>, Source<'a>), ReadError>
    ensures { Gives (λ x. (x.0.items, rest_of x.1)) result (slots_of (rest_of source.entry)) }
{
    let source = behind_first(source);
    if is_at_end(source) {
        return Err(refused(Reason::Slot, next_word(source).left));
    }
    let (slots, source) = all_slots(alloc, source)?;
    let source = line_end(source)?;
    Ok((slots, source))
}

/// The slots of a line that begins with a word, none where the line is another.
#[tactic(auto, unfolding(crate::specs::Parts::slots_behind))]
pub(crate) fn slots_behind<'a>(
    alloc: Global,
    name: &[u8],
    lines: &mut Lines,
    source: Source<'a>,
) -> Result<(Vec<u32>, Source<'a>), ReadError>
    ensures { Gives (λ x. (x.0.items, lines.new.items, rest_of x.1)) result
        (slots_behind name.now lines.old.items (rest_of source.entry)) }
{
    if !begins(name, source) {
        return Ok((Vec::new(alloc), source));
    }
    add_line(lines, first_word(source))?;
    slots_of(alloc, source)
}

/// A registered buffer, behind so many.
#[tactic(auto, unfolding(crate::specs::Lines::buffer_of))]
pub fn buffer_of(number: usize, source: Source<'_>) -> Result<(Buffer, Source<'_>), ReadError>
    ensures { Gives (λ x. (x.0, rest_of x.1)) result (buffer_of number (rest_of source.entry)) }
{
    let source = next_number(number, behind_first(source))?;
    let address = u64_at(next_word(source))?;
    let source = behind_next(source);
    let len = u32_at(next_word(source))?;
    let source = line_end(behind_next(source))?;
    Ok((Buffer { address, len }, source))
}

/// Adds a buffer.
#[tactic(auto, unfolding(crate::specs::Parts::one_buffer))]
fn add_buffer<'a>(
    buffers: &mut Vec<Buffer>,
    lines: &mut Lines,
    source: Source<'a>,
) -> Result<Source<'a>, ReadError>
    ensures { Gives (λ s. (buffers.new.items, lines.new.items, rest_of s)) result
        (one_buffer (buffers.old.items, lines.old.items, rest_of source.entry)) }
{
    let number = buffers.len();
    if number >= MOST_SLOTS {
        return Err(refused(Reason::TooMany, first_word(source).left));
    }
    let (buffer, after) = buffer_of(number, source)?;
    add_line(lines, first_word(source))?;
    buffers.push(buffer)?;
    Ok(after)
}

/// The buffers of a ring.
fn buffers_of<'a>(
    alloc: Global,
    lines: &mut Lines,
    source: Source<'a>,
) -> Result<(Vec<Buffer>, Source<'a>), ReadError>
    ensures { Gives (λ x. (x.0.items, lines.new.items, rest_of x.1)) result
        (buffers_of lines.old.items (rest_of source.entry)) }
{
    let mut buffers = Vec::new(alloc);
    let mut source = source;
    for _ in 0..source.rest.len() {
        if !begins(b"buffer", source) {
            break;
        }
        source = add_buffer(&mut buffers, lines, source)?;
    }
    Ok((buffers, source))
}

/// The line of a ring, behind so many.
#[tactic(auto, unfolding(crate::specs::Lines::ring_line))]
fn ring_line(number: usize, source: Source<'_>) -> Result<Source<'_>, ReadError>
    ensures { Gives rest_of result (ring_line number (rest_of source.entry)) }
{
    let source = next_number(number, behind_first(source))?;
    line_end(source)
}

/// A ring, behind so many.
#[tactic(auto, unfolding(crate::specs::Parts::ring_of))]
fn ring_of<'a>(
    alloc: Global,
    number: usize,
    lines: &mut Lines,
    source: Source<'a>,
) -> Result<(Ring, Source<'a>), ReadError>
    ensures { Gives (λ x. (x.0, lines.new.items, rest_of x.1)) result
        (ring_of number lines.old.items (rest_of source.entry)) }
{
    let source = ring_line(number, source)?;
    let (slots, source) = slots_behind(alloc, b"slots", lines, source)?;
    let (buffers, source) = buffers_of(alloc, lines, source)?;
    let slots = Series::from_vec(slots);
    let buffers = Series::from_vec(buffers);
    Ok((Ring { slots, buffers }, source))
}

/// Adds a ring.
#[tactic(auto, unfolding(crate::specs::Parts::one_ring))]
fn add_ring<'a>(
    alloc: Global,
    rings: &mut Vec<Ring>,
    lines: &mut Lines,
    source: Source<'a>,
) -> Result<Source<'a>, ReadError>
    ensures { Gives (λ s. (rings.new.items, lines.new.items, rest_of s)) result
        (one_ring (rings.old.items, lines.old.items, rest_of source.entry)) }
{
    let number = rings.len();
    if number >= MOST_RINGS {
        return Err(refused(Reason::TooMany, first_word(source).left));
    }
    add_line(lines, first_word(source))?;
    let (ring, after) = ring_of(alloc, number, lines, source)?;
    rings.push(ring)?;
    Ok(after)
}

/// All rings.
pub(crate) fn rings_of<'a>(
    alloc: Global,
    lines: &mut Lines,
    source: Source<'a>,
) -> Result<(Vec<Ring>, Source<'a>), ReadError>
    ensures { Gives (λ x. (x.0.items, lines.new.items, rest_of x.1)) result
        (rings_of lines.old.items (rest_of source.entry)) }
{
    let mut rings = Vec::new(alloc);
    let mut source = source;
    for _ in 0..source.rest.len() {
        if !begins(b"ring", source) {
            break;
        }
        source = add_ring(alloc, &mut rings, lines, source)?;
    }
    Ok((rings, source))
}

/// Adds the entry of a line behind so many, where there may be as many as `most`.
#[tactic(auto, unfolding(crate::specs::Records::one_entry))]
fn add_entry<'a>(
    alloc: Global,
    entries: &mut EntriesBuilder,
    count: &mut usize,
    most: usize,
    lines: &mut Lines,
    opcode: u8,
    source: Source<'a>,
) -> Result<Source<'a>, ReadError>
    requires { count.old ≡ length entries.old }
    ensures read { Gives (λ s. (entries.new, lines.new.items, rest_of s)) result
        (one_entry most (entries.old, lines.old.items, rest_of source.entry) opcode) }
    ensures count { OnOk result (count.new ≡ length entries.new) }
    ensures within { OnOk result (count.new ≤ most) }
{
    let word = first_word(source);
    if *count >= most {
        return Err(refused(Reason::TooMany, word.left));
    }
    let (sqe, side, after) = entry_of(alloc, opcode, behind_first(source))?;
    add_line(lines, word)?;
    entries.push(&sqe, side.as_slice())?;
    *count += 1;
    Ok(after)
}

/// How many entries one `enter` has at most, behind so many steps.
fn most_entries(used: usize) -> usize
    requires { used ≤ places_limit }
    ensures { result ≡ min 32768 (places_limit - used) }
{
    MOST_ENTRIES.min(MOST_PLACES - used)
}

/// The entries of one `enter`, behind so many steps.
fn entries_of<'a>(
    alloc: Global,
    used: usize,
    lines: &mut Lines,
    source: Source<'a>,
) -> Result<(Entries, Source<'a>), ReadError>
    requires { used ≤ places_limit }
    ensures read { Gives (λ x. (x.0, lines.new.items, rest_of x.1)) result
        (entries_of used lines.old.items (rest_of source.entry)) }
    ensures within { IfOk result (λ x. used + length x.0 ≤ places_limit) }
{
    let mut entries = EntriesBuilder::new(alloc);
    let mut count = 0;
    let most = most_entries(used);
    let mut source = source;
    for _ in 0..source.rest.len() {
        let Some(opcode) = opcode_of(first_word(source).bytes) else {
            break;
        };
        source = add_entry(alloc, &mut entries, &mut count, most, lines, opcode, source)?;
    }
    Ok((entries.build(alloc)?, source))
}

/// The ring that entries were handed to.
#[tactic(auto, unfolding(crate::specs::Lines::enter_line))]
fn enter_line(source: Source<'_>) -> Result<(u8, Source<'_>), ReadError>
    ensures { Gives (λ x. (x.0, rest_of x.1)) result (enter_line (rest_of source.entry)) }
{
    let source = behind_first(source);
    let ring = u8_at(next_word(source))?;
    let source = line_end(behind_next(source))?;
    Ok((ring, source))
}

/// The entries that a ring was handed at once.
#[tactic(auto, unfolding(crate::specs::Records::enter_of))]
fn enter_of<'a>(
    alloc: Global,
    used: usize,
    lines: &mut Lines,
    source: Source<'a>,
) -> Result<(Record, Source<'a>), ReadError>
    requires { used ≤ places_limit }
    ensures read { Gives (λ x. (x.0, lines.new.items, rest_of x.1)) result
        (enter_of used lines.old.items (rest_of source.entry)) }
    ensures within { IfOk result (λ x. used + places_in (x.0 ∷ []) ≤ places_limit) }
{
    let (ring, source) = enter_line(source)?;
    let (entries, source) = entries_of(alloc, used, lines, source)?;
    Ok((Record::Enter { ring, entries }, source))
}

/// The buffer of a ring that a fill puts bytes into.
#[tactic(auto, unfolding(crate::specs::Lines::fill_buffer))]
fn fill_buffer(source: Source<'_>) -> Result<(u8, u16, Source<'_>), ReadError>
    ensures { Gives (λ x. (x.0, x.1, rest_of x.2)) result (fill_buffer (rest_of source.entry)) }
{
    let source = behind_first(source);
    let ring = u8_at(next_word(source))?;
    let source = behind_next(source);
    let word = next_word(source);
    let Some(value) = value_at(word, b"buffer") else {
        return Err(refused(Reason::Buffer, word.left));
    };
    let buffer = u16_at(value)?;
    Ok((ring, buffer, behind_next(source)))
}

/// Bytes for a part of a registered buffer.
#[tactic(auto, unfolding(crate::specs::Lines::fill_of))]
fn fill_of<'a>(alloc: Global, source: Source<'a>) -> Result<(Record, Source<'a>), ReadError>
    ensures read { Gives (λ x. (x.0, rest_of x.1)) result (fill_of (rest_of source.entry)) }
    ensures one { IfOk result (λ x. places_in (x.0 ∷ []) ≡ 1) }
{
    let (ring, buffer, source) = fill_buffer(source)?;
    let (offset, source) = keyed_word(b"at", source)?;
    let (bytes, source) = strings_of(alloc, source)?;
    let source = line_end(source)?;
    let bytes = Blob::from_vec(alloc, bytes)?;
    let offset = offset.unwrap_or(0);
    Ok((
        Record::Fill {
            ring,
            buffer,
            offset,
            bytes,
        },
        source,
    ))
}

/// The same, behind so many steps.
#[tactic(auto, unfolding(crate::specs::Records::one_fill))]
fn one_fill<'a>(
    alloc: Global,
    used: usize,
    source: Source<'a>,
) -> Result<(Record, Source<'a>), ReadError>
    ensures read { (lines : List ℕ) → Gives (λ x. (x.0, lines, rest_of x.1)) result
        (one_fill used lines (rest_of source.entry)) }
    ensures within { IfOk result (λ x. used + places_in (x.0 ∷ []) ≤ places_limit) }
{
    if used >= MOST_PLACES {
        return Err(refused(Reason::TooMany, first_word(source).left));
    }
    let (record, after) = fill_of(alloc, source)?;
    Ok((record, after))
}

/// How many steps a record has.
fn step_count(made: &Record) -> usize
    ensures { result ≡ step_count made.now }
{
    match made {
        Record::Enter { ring: _, entries } => entries.len(),
        Record::Fill { .. } => 1,
    }
}

/// What the first word of the line of a record is.
#[derive(Clone, Copy)]
enum Step {
    Enter,
    Fill,
}

fn step_of(word: &[u8]) -> Option<Step>
    ensures { result ≡ step_of word.now }
{
    if word == b"enter".as_slice() {
        Some(Step::Enter)
    } else if word == b"fill".as_slice() {
        Some(Step::Fill)
    } else {
        None
    }
}

/// A record, behind so many steps.
fn record_of<'a>(
    alloc: Global,
    step: Step,
    used: usize,
    lines: &mut Lines,
    source: Source<'a>,
) -> Result<(Record, Source<'a>), ReadError>
    requires { used ≤ places_limit }
    ensures read { Gives (λ x. (x.0, lines.new.items, rest_of x.1)) result
        (record_of step used lines.old.items (rest_of source.entry)) }
    ensures within { IfOk result (λ x. used + places_in (x.0 ∷ []) ≤ places_limit) }
{
    match step {
        Step::Enter => enter_of(alloc, used, lines, source),
        Step::Fill => one_fill(alloc, used, source),
    }
}

/// Adds a record, and how many steps it has.
#[tactic(auto, unfolding(crate::specs::Records::one_record))]
fn add_record<'a>(
    alloc: Global,
    records: &mut Vec<Record>,
    used: &mut usize,
    lines: &mut Lines,
    step: Step,
    source: Source<'a>,
) -> Result<Source<'a>, ReadError>
    requires used { used.old ≡ places_in records.old.items }
    requires within { used.old ≤ places_limit }
    ensures read { Gives (λ s. (records.new.items, lines.new.items, rest_of s)) result
        (one_record (records.old.items, lines.old.items, rest_of source.entry) step) }
    ensures used { OnOk result (used.new ≡ places_in records.new.items) }
    ensures within { OnOk result (used.new ≤ places_limit) }
    ensures few { OnOk result (length records.new.items ≤ places_limit) }
{
    let word = first_word(source);
    if records.len() >= MOST_PLACES {
        return Err(refused(Reason::TooMany, word.left));
    }
    add_line(lines, word)?;
    let (record, after) = record_of(alloc, step, *used, lines, source)?;
    *used += step_count(&record);
    records.push(record)?;
    Ok(after)
}

/// All records.
pub(crate) fn records_of<'a>(
    alloc: Global,
    lines: &mut Lines,
    source: Source<'a>,
) -> Result<(Records, Source<'a>), ReadError>
    ensures { Gives (λ x. (x.0, lines.new.items, rest_of x.1)) result
        (records_of lines.old.items (rest_of source.entry)) }
{
    let mut records = Vec::new(alloc);
    let mut used = 0;
    let mut source = source;
    for _ in 0..source.rest.len() {
        let Some(step) = step_of(first_word(source).bytes) else {
            break;
        };
        source = add_record(alloc, &mut records, &mut used, lines, step, source)?;
    }
    Ok((Records::from_vec(alloc, records)?, source))
}

/// Whether a word begins a line that stands in a fixed order.
fn is_ordered(word: &[u8]) -> bool
    ensures { result ≡ is_ordered word.now }
{
    word == b"dir".as_slice()
        || word == b"file".as_slice()
        || word == b"name".as_slice()
        || word == b"open".as_slice()
        || word == b"descriptors".as_slice()
        || word == b"ring".as_slice()
        || word == b"slots".as_slice()
        || word == b"buffer".as_slice()
}

/// Why a line cannot stand where it does, by its first word.
fn stray(word: &[u8]) -> Reason
    ensures { result ≡ stray word.now }
{
    if is_ordered(word) {
        Reason::Order
    } else if opcode_of(word).is_some() {
        Reason::Entry
    } else {
        Reason::Line
    }
}

/// The end of the text, where nothing but the lines of a trace stands before it.
#[tactic(auto, unfolding(crate::specs::Lines::text_end))]
pub fn text_end(source: Source<'_>) -> Result<(), ReadError>
    ensures { Gives (λ _. false) result (text_end (rest_of source.entry)) }
{
    let word = first_word(source);
    if word.bytes.is_empty() {
        return Ok(());
    }
    Err(refused(stray(word.bytes), word.left))
}
