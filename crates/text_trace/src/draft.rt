//! Which line made a byte of a trace.
ghost use Rattle.std.specs.Prelude.{◌≡◌, List, ℕ, ◌∷◌, ◌++◌, length, map};
ghost use Rattle.std.specs.List.{flat_map};
ghost use Rattle.trace_format.specs.Spelling.{buffer_bytes, description_bytes, entry_text};
ghost use Rattle.trace_format.specs.Spelling.{item_bytes};
ghost use Rattle.text_trace.specs.Found.{found_in};
ghost use Rattle.text_trace.specs.Made.{line_of_byte, record_lines, ring_lines, slots_lines};
ghost use Rattle.text_trace.specs.Made.{table_lines};

use trace_format::{Buffer, Description, Entries, Entry, Item, Node, Record, Ring, Trace};

/// Where the line of a byte is looked for: how many bytes stand before it, the lines that are
/// left, and the line, if it is found.
#[derive(Clone, Copy)]
struct Search<'a> {
    at: u64,
    lines: &'a [usize],
    found: Option<usize>,
}

/// A line of so many bytes.
fn passed<'a>(search: Search<'a>, len: u128) -> Search<'a>
    ensures { (bytes : List ℕ) (more : List (List ℕ)) → length bytes ≡ len
        → found_in result more ≡ found_in search.entry (bytes ∷ more) }
{
    if search.found.is_some() || search.lines.is_empty() {
        return search;
    }
    if u128::from(search.at) < len {
        return Search {
            found: Some(search.lines[0]),
            ..search
        };
    }
    Search {
        at: search.at - len as u64,
        lines: &search.lines[1..],
        ..search
    }
}

/// How many bytes an item has.
fn item_len(item: &Item) -> u128
    ensures { result ≡ length (item_bytes item.now) }
{
    let node: u128 = match &item.node {
        Node::Directory => 0,
        Node::File { size: _, stored } => stored.as_slice().len() as u128 + 12,
        Node::OtherName { number: _ } => 4,
    };
    item.path.as_slice().len() as u128 + 3 + node
}

fn in_items<'a>(search: Search<'a>, items: &[Item]) -> Search<'a>
    ensures { (more : List (List ℕ)) → found_in result more
        ≡ found_in search.entry (map item_bytes items.now ++ more) }
{
    let mut search = search;
    for item in items {
        search = passed(search, item_len(item));
    }
    search
}

/// How many bytes a description has.
fn description_len(_description: Description) -> u128
    ensures { result ≡ length (description_bytes _description) }
{
    14
}

fn in_descriptions<'a>(search: Search<'a>, descriptions: &[Description]) -> Search<'a>
    ensures { (more : List (List ℕ)) → found_in result more
        ≡ found_in search.entry (map description_bytes descriptions.now ++ more) }
{
    let mut search = search;
    for description in descriptions {
        search = passed(search, description_len(*description));
    }
    search
}

/// The line of the table of descriptors, if there is one.
fn in_table<'a>(search: Search<'a>, table: &[u32]) -> Search<'a>
    ensures { (more : List (List ℕ)) → found_in result more
        ≡ found_in search.entry (table_lines table.now ++ more) }
{
    if table.is_empty() {
        return search;
    }
    passed(search, table.len() as u128 * 4)
}

/// The lines of a ring and of its slots, with two bytes behind the slots.
fn in_slots<'a>(search: Search<'a>, slots: &[u32]) -> Search<'a>
    ensures { (count : List ℕ) (more : List (List ℕ)) → length count ≡ 2
        → found_in result more ≡ found_in search.entry (slots_lines slots.now count ++ more) }
{
    if slots.is_empty() {
        return passed(search, 4);
    }
    passed(passed(search, 2), slots.len() as u128 * 4 + 2)
}

/// How many bytes a buffer has.
fn buffer_len(_buffer: Buffer) -> u128
    ensures { result ≡ length (buffer_bytes _buffer) }
{
    12
}

fn in_buffers<'a>(search: Search<'a>, buffers: &[Buffer]) -> Search<'a>
    ensures { (more : List (List ℕ)) → found_in result more
        ≡ found_in search.entry (map buffer_bytes buffers.now ++ more) }
{
    let mut search = search;
    for buffer in buffers {
        search = passed(search, buffer_len(*buffer));
    }
    search
}

fn in_ring<'a>(search: Search<'a>, ring: &Ring) -> Search<'a>
    ensures { (more : List (List ℕ)) → found_in result more
        ≡ found_in search.entry (ring_lines ring.now ++ more) }
{
    let search = in_slots(search, ring.slots.as_slice());
    in_buffers(search, ring.buffers.as_slice())
}

fn in_rings<'a>(search: Search<'a>, rings: &[Ring]) -> Search<'a>
    ensures { (more : List (List ℕ)) → found_in result more
        ≡ found_in search.entry (flat_map ring_lines rings.now ++ more) }
{
    let mut search = search;
    for ring in rings {
        search = in_ring(search, ring);
    }
    search
}

/// How many bytes an entry has.
fn entry_len(entry: &Entry<'_>) -> u128
    ensures { result ≡ length (entry_text entry.now) }
{
    entry.side().len() as u128 + 68
}

fn in_entries<'a>(search: Search<'a>, entries: &Entries) -> Search<'a>
    ensures { (more : List (List ℕ)) → found_in result more
        ≡ found_in search.entry (map entry_text entries.now ++ more) }
{
    let mut search = search;
    for number in 0..entries.len() {
        search = passed(search, entry_len(&entries.at(number)));
    }
    search
}

fn in_record<'a>(search: Search<'a>, made: &Record) -> Search<'a>
    ensures { (more : List (List ℕ)) → found_in result more
        ≡ found_in search.entry (record_lines made.now ++ more) }
{
    match made {
        Record::Enter { ring: _, entries } => in_entries(passed(search, 4), entries),
        Record::Fill {
            ring: _,
            buffer: _,
            offset: _,
            bytes,
        } => passed(search, bytes.as_slice().len() as u128 + 12),
    }
}

fn in_records<'a>(search: Search<'a>, records: &[Record]) -> Search<'a>
    ensures { (more : List (List ℕ)) → found_in result more
        ≡ found_in search.entry (flat_map record_lines records.now ++ more) }
{
    let mut search = search;
    for made in records {
        search = in_record(search, made);
    }
    search
}

/// The line that made a byte of a trace, among those that make some.
#[tactic(auto, unfolding(crate::specs::Made::line_of_byte))]
pub(crate) fn line_of_byte(trace: &Trace, lines: &[usize], at: u64) -> Option<usize>
    ensures { result ≡ line_of_byte trace.now lines.now at }
{
    let search = Search {
        at: at.saturating_sub(32),
        lines,
        found: None,
    };
    let search = in_items(search, trace.items.as_slice());
    let search = in_descriptions(search, trace.descriptions.as_slice());
    let search = in_table(search, trace.descriptors.as_slice());
    let search = in_rings(search, trace.rings.as_slice());
    in_records(search, trace.records.as_slice()).found
}
