//! What places wait for, as lines.
ghost use Rattle.std.specs.Prelude.{◌≡◌, ◌<◌, ◌-◌, ◌^◌, ◌++◌, ◌∷◌, [], List, IfOk, OnOk, length};
ghost use Rattle.std.specs.Prelude.{string_bytes};
ghost use Rattle.depend_log.specs.declared.wait.PlaceWaits.{PlaceWaits};
ghost use Rattle.depend_report.specs.Depends.{count_line, depends_text, path_lines, place_lines};
ghost use Rattle.depend_report.specs.Depends.{wait_line};
ghost use Rattle.depend_report.specs.Paths.{path_line};
ghost use Rattle.depend_report.specs.Told.{ending, told};
ghost use Rattle.recording.specs.declared.recording.Recording.{Recording};

use crate::paths::Paths;
use depend_log::{PlaceWaits, Wait};
use recording::Recording;
use round_report::{push_after, push_quotient};
use std::alloc::{AllocError, Global};
use std::marker::Model;
use text_forms::{push_bytes, push_decimal};

/// What the places of a trace so far wait for, as lines. It takes memory for the text, and for two
/// numbers a place.
#[derive(Drop)]
pub struct DependsText {
    text: Vec<u8>,
    /// Of each place how many places the longest path has that ends with it.
    spans: Paths,
    /// Of each place how many bytes the path moves that moves most and ends with it.
    loads: Paths,
    pairs: u128,
    bytes: u64,
}

impl Model for DependsText {
    ghost use Rattle.std.specs.Prelude.{◌≤◌, ◌*◌, length};
    ghost use Rattle.depend_report.specs.Told.{Told};

    ghost Value = { Told };

    ghost view = { λ d. record {
      text = d.text.items;
      spans = d.spans;
      loads = d.loads;
      pairs = d.pairs;
      bytes = d.bytes;
    } };

    ghost invariant = { λ d. (length d.loads ≤ length d.spans)
        × (d.pairs ≤ length d.spans * 18446744073709551616)
        × (d.bytes ≤ length d.spans * 4294967295) };
}

impl DependsText {
    /// The head of the text.
    ///
    /// # Errors
    ///
    /// Out of memory.
    pub fn new(alloc: Global) -> Result<Self, AllocError>
        ensures { (trace : Recording) → IfOk result (λ text. text ≡ told trace []) }
    {
        Ok(DependsText {
            text: Vec::from_slice(alloc, b"uring-depends 1\n")?,
            spans: Paths::new(alloc),
            loads: Paths::new(alloc),
            pairs: 0,
            bytes: 0,
        })
    }

    /// The lines of one place more. After an error the text is of no use.
    ///
    /// # Errors
    ///
    /// Out of memory.
    pub fn push_place(&mut self, trace: &Recording, place: &PlaceWaits) -> Result<(), AllocError>
        requires { length self.old.spans < 2 ^ 32 - 1 }
        ensures { (places : List PlaceWaits) → self.old ≡ told trace.now places
            → OnOk result (self.new ≡ told trace.now (places ++ place.now ∷ [])) }
    {
        let waits = place.waits.as_slice();
        push_lines(&mut self.text, trace, self.spans.len(), waits)?;
        self.spans.push(waits, 1)?;
        self.loads.push(waits, place.moved)?;
        self.pairs += waits.len() as u128;
        self.bytes += u64::from(place.moved);
        Ok(())
    }

    /// The whole text of these places.
    ///
    /// # Errors
    ///
    /// Out of memory.
    pub fn finish(self, alloc: Global) -> Result<Vec<u8>, AllocError>
        ensures { (trace : Recording) (places : List PlaceWaits) → self ≡ told trace places
            → IfOk result (λ text. text.items ≡ depends_text trace places) }
    {
        let DependsText {
            mut text,
            spans,
            loads,
            pairs,
            bytes,
        } = self;
        let mut ending = String::new(alloc);
        push_summary(&mut ending, &spans, &loads, pairs, bytes)?;
        push_bytes(&mut text, ending.as_bytes())?;
        push_bytes(&mut text, b"end\n")?;
        Ok(text)
    }
}

/// The lines of a place: one for each that it waits for, or its number alone.
fn push_lines(
    text: &mut Vec<u8>,
    trace: &Recording,
    place: usize,
    waits: &[Wait],
) -> Result<(), AllocError>
    ensures { OnOk result (text.new.items ≡ text.old.items
        ++ place_lines trace.now place waits.now) }
{
    if waits.is_empty() {
        push_decimal(text, place as u64)?;
        return push_bytes(text, b"\n");
    }
    for wait in waits {
        push_line(text, trace, place, wait)?;
    }
    Ok(())
}

/// The line of a place with one that it waits for.
fn push_line(
    text: &mut Vec<u8>,
    trace: &Recording,
    place: usize,
    wait: &Wait,
) -> Result<(), AllocError>
    ensures { OnOk result (text.new.items ≡ text.old.items
        ++ wait_line trace.now place wait.now) }
{
    push_decimal(text, place as u64)?;
    push_after(text, trace, wait.after, &wait.on)?;
    push_bytes(text, b"\n")
}

/// The lines at the end.
fn push_summary(
    text: &mut String,
    spans: &Paths,
    loads: &Paths,
    pairs: u128,
    bytes: u64,
) -> Result<(), AllocError>
    ensures { OnOk result (string_bytes text.new ≡ string_bytes text.old
        ++ ending spans.now loads.now pairs bytes) }
{
    let places = spans.len();
    push_count(text, "places", places as u128)?;
    push_count(text, "pairs", pairs)?;
    push_path_lines(text, "span", "parallelism", places as u64, spans)?;
    push_count(text, "bytes", u128::from(bytes))?;
    push_path_lines(text, "span-bytes", "parallelism-bytes", bytes, loads)
}

/// The line of a number.
fn push_count(text: &mut String, name: &str, count: u128) -> Result<(), AllocError>
    ensures { OnOk result (string_bytes text.new ≡ string_bytes text.old
        ++ count_line name.now count) }
{
    writeln!(text, "{name} {count}")
}

/// The lines of the heaviest path, and of how many times its weight all places have.
fn push_path_lines(
    text: &mut String,
    span: &str,
    parallelism: &str,
    whole: u64,
    paths: &Paths,
) -> Result<(), AllocError>
    ensures { OnOk result (string_bytes text.new ≡ string_bytes text.old
        ++ path_lines span.now parallelism.now whole paths.now) }
{
    push_path(text, span, paths)?;
    push_quotient(text, parallelism, whole, paths.greatest())
}

/// The line of the heaviest path: its weight, and with which place it ends.
fn push_path(text: &mut String, name: &str, paths: &Paths) -> Result<(), AllocError>
    ensures { OnOk result (string_bytes text.new ≡ string_bytes text.old
        ++ path_line name.now paths.now) }
{
    let weight = paths.greatest();
    match paths.heaviest_place() {
        Some(place) => writeln!(text, "{name} {weight} to place {place}"),
        None => writeln!(text, "{name} {weight}"),
    }
}
