//! What places wait for, as a graph.
ghost use Rattle.std.specs.Prelude.{◌≡◌, ◌<◌, ◌-◌, ◌^◌, ◌++◌, ◌∷◌, [], List, IfOk, OnOk};
ghost use Rattle.std.specs.List.{flat_map};
ghost use Rattle.depend_log.specs.declared.wait.PlaceWaits.{PlaceWaits};
ghost use Rattle.depend_report.specs.Depends.{depends_graph, place_node};
ghost use Rattle.depend_report.specs.Told.{drawn};
ghost use Rattle.round_report.specs.Rounds.{arrow_line};
ghost use Rattle.recording.specs.declared.recording.Recording.{Recording};

use depend_log::{PlaceWaits, Wait};
use recording::Recording;
use round_report::push_arrow_line;
use std::alloc::{AllocError, Global};
use std::marker::Model;

/// What the places of a trace so far wait for, as a graph in the language of graphviz's dot(1). It
/// takes memory for the text alone.
#[derive(Drop)]
pub struct DependsGraph {
    text: Vec<u8>,
    places: usize,
}

impl Model for DependsGraph {
    ghost use Rattle.depend_report.specs.Told.{Drawn};

    ghost Value = { Drawn };

    ghost view = { λ d. record { text = d.text.items; places = d.places } };
}

impl DependsGraph {
    /// The head of the graph.
    ///
    /// # Errors
    ///
    /// Out of memory.
    pub fn new(alloc: Global) -> Result<Self, AllocError>
        ensures { (trace : Recording) → IfOk result (λ graph. graph ≡ drawn trace []) }
    {
        Ok(DependsGraph {
            text: Vec::from_slice(alloc, b"digraph depends {\n")?,
            places: 0,
        })
    }

    /// The node of one place more, and the arrows that lead to it. After an error the graph is of no
    /// use.
    ///
    /// # Errors
    ///
    /// Out of memory.
    pub fn push_place(
        &mut self,
        alloc: Global,
        trace: &Recording,
        place: &PlaceWaits,
    ) -> Result<(), AllocError>
        requires { self.old.places < 2 ^ 64 - 1 }
        ensures { (places : List PlaceWaits) → self.old ≡ drawn trace.now places
            → OnOk result (self.new ≡ drawn trace.now (places ++ place.now ∷ [])) }
    {
        let waits = place.waits.as_slice();
        push_node(alloc, &mut self.text, trace, self.places, waits)?;
        self.places += 1;
        Ok(())
    }

    /// The whole graph of these places.
    ///
    /// # Errors
    ///
    /// Out of memory.
    pub fn finish(self) -> Result<Vec<u8>, AllocError>
        ensures { (trace : Recording) (places : List PlaceWaits) → self ≡ drawn trace places
            → IfOk result (λ text. text.items ≡ depends_graph trace places) }
    {
        let mut text = self.text;
        text.extend_from_slice(b"}\n")?;
        Ok(text)
    }
}

/// The node of a place, and the arrows that lead to it.
fn push_node(
    alloc: Global,
    text: &mut Vec<u8>,
    trace: &Recording,
    place: usize,
    waits: &[Wait],
) -> Result<(), AllocError>
    ensures { OnOk result (text.new.items ≡ text.old.items
        ++ place_node trace.now place waits.now) }
{
    let node = format!(in alloc; "  {place} [label=\"{place}\"];\n")?;
    text.extend_from_slice(node.as_bytes())?;
    push_arrows(alloc, text, trace, place, waits)
}

/// The arrows that lead to a place.
fn push_arrows(
    alloc: Global,
    text: &mut Vec<u8>,
    trace: &Recording,
    place: usize,
    waits: &[Wait],
) -> Result<(), AllocError>
    ensures { OnOk result (text.new.items ≡ text.old.items
        ++ flat_map (λ w. arrow_line trace.now w.after place w.on) waits.now) }
{
    for wait in waits {
        push_arrow(alloc, text, trace, place, wait)?;
    }
    Ok(())
}

/// The arrow from one that a place waits for.
fn push_arrow(
    alloc: Global,
    text: &mut Vec<u8>,
    trace: &Recording,
    place: usize,
    wait: &Wait,
) -> Result<(), AllocError>
    ensures { OnOk result (text.new.items ≡ text.old.items
        ++ arrow_line trace.now wait.now.after place wait.now.on) }
{
    push_arrow_line(alloc, text, trace, wait.after, place, &wait.on)
}
