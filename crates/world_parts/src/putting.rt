//! Putting parts back into a world.
ghost use Rattle.std.specs.Prelude.{◌≡◌, [], unwrap_or, IfSome, IsSome, None, OnOk, T};
ghost use Rattle.std.specs.Option.{is_some};
ghost use Rattle.finite_maps.specs.Table.{adjust_number, assign, get, number_keys};
ghost use Rattle.file_tree.specs.Tree.{rewritten_node};
ghost use Rattle.file_tree.specs.Tree as tree;
ghost use Rattle.ring_tables.specs.Contents.{bytes_at, rewritten_at};
ghost use Rattle.world_parts.specs.Cutting.{PutsTo, is_narrow};
ghost use Rattle.world_parts.specs.Putting.{listed, pasted, redescribed, repositioned};
ghost use Rattle.world_parts.specs.Putting.{sized, with_bytes, with_item};
ghost use Rattle.world_parts.specs.Putting.{with_items, with_node, with_nodes};
ghost use Rattle.world_parts.specs.World.{IsWorld};
ghost use Rattle.world_parts.specs.World as world;

use crate::footprint::{Item, Use};
use crate::part::{Part, World};
use crate::state::State;
use file_tree::{Kind, Tree};
use ring_tables::{Buffers, Descriptions};
use std::alloc::{AllocError, Global};
use trace_format::Description;

// Makes a node a file of the size that it has in a part, or none where it is none there.
fn put_size(nodes: &mut Tree, alloc: Global, part: &Tree, node: u32) -> Result<(), AllocError>
    ensures { OnOk result (nodes.new ≡ assign number_keys.total nodes.old node
        (sized (tree.size part.now node) (get nodes.old node))) }
{
    let Some(size) = part.size(node) else {
        if nodes.size(node).is_some() {
            nodes.remove_node(node);
        }
        return Ok(());
    };
    if nodes.size(node).is_none() {
        nodes.add_node(alloc, node, Kind::File)?;
    }
    nodes.set_size(node, size)
}

// Makes a node a directory where it is one in a part, or none where it is none there.
fn put_listing(nodes: &mut Tree, alloc: Global, part: &Tree, node: u32) -> Result<(), AllocError>
    ensures { OnOk result (nodes.new ≡ assign number_keys.total nodes.old node
        (listed (is_some (tree.names part.now node)) (get nodes.old node))) }
{
    if part.names(node).is_none() {
        if nodes.names(node).is_some() {
            nodes.remove_node(node);
        }
        return Ok(());
    }
    if nodes.names(node).is_none() {
        nodes.add_node(alloc, node, Kind::Directory)?;
    }
    Ok(())
}

// Puts the bytes of a range of a part's file over those of the file, as far as both go.
fn paste(nodes: &mut Tree, part: &Tree, node: u32, low: u64, high: u64) -> Result<(), AllocError>
    ensures { OnOk result (nodes.new ≡ adjust_number (rewritten_node
        (λ bs. pasted bs (unwrap_or (tree.bytes part.now node) []) low high)) nodes.old node) }
{
    let Some(size) = nodes.size(node) else {
        return Ok(());
    };
    let end = high.min(size).min(part.size(node).unwrap_or(0));
    let start = low.min(end);
    nodes.copy_range(part, node, start, end)
}

// Makes a file show the bytes of a part's in a range: zeros where the part's file has ended.
fn put_bytes(
    nodes: &mut Tree,
    part: &Tree,
    node: u32,
    low: u64,
    high: u64,
) -> Result<(), AllocError>
    ensures { OnOk result (nodes.new ≡ with_bytes node low high part.now nodes.old) }
{
    let size = part.size(node).unwrap_or(0);
    nodes.zero(node, low.max(size), high)?;
    paste(nodes, part, node, low, high)
}

// Puts the bytes of a range of a part's buffer over those of the buffer, as far as both go.
fn put_buffer(
    buffers: &mut Buffers,
    part: &Buffers,
    ring: u32,
    index: u32,
    low: u64,
    high: u64,
) -> Result<(), AllocError>
    ensures { OnOk result (buffers.new ≡ rewritten_at
        (λ bs. pasted bs (bytes_at part.now ring index) low high) buffers.old ring index) }
{
    let Some(size) = buffers.len(ring, index) else {
        return Ok(());
    };
    let end = high.min(size).min(part.len(ring, index).unwrap_or(0));
    let start = low.min(end);
    buffers.copy_range(part, ring, index, start, end)
}

// Sets all but the position of a description to what a part says; one that is new takes its
// position too.
fn put_description(
    descriptions: &mut Descriptions,
    part: &Descriptions,
    number: u32,
) -> Result<(), AllocError>
    ensures { OnOk result (descriptions.new ≡ assign number_keys.total descriptions.old number
        (redescribed (get part.now number) (get descriptions.old number))) }
{
    let Some(theirs) = part.get(number) else {
        descriptions.remove(number);
        return Ok(());
    };
    let Some(mine) = descriptions.get(number) else {
        return descriptions.set(number, theirs);
    };
    descriptions.set(
        number,
        Description {
            position: mine.position,
            ..theirs
        },
    )
}

// Sets the position of a description to what a part says; one that is new is taken whole.
fn put_position(
    descriptions: &mut Descriptions,
    part: &Descriptions,
    number: u32,
) -> Result<(), AllocError>
    ensures { OnOk result (descriptions.new ≡ assign number_keys.total descriptions.old number
        (repositioned (get part.now number) (get descriptions.old number))) }
{
    let Some(theirs) = part.get(number) else {
        descriptions.remove(number);
        return Ok(());
    };
    let Some(mine) = descriptions.get(number) else {
        return descriptions.set(number, theirs);
    };
    descriptions.set(
        number,
        Description {
            position: theirs.position,
            ..mine
        },
    )
}

impl State {
    // Breaks a chain as it broke in a part, or lets it run.
    fn put_chain(&mut self, part: &State, chain: u32) -> Result<(), AllocError>
        ensures { OnOk result (self.new ≡ record self.old {
          broken = assign number_keys.total self.old.broken chain (world.broken part.now chain);
        }) }
    {
        let Some(broken) = part.broken(chain) else {
            self.broken.swap_remove(&chain);
            return Ok(());
        };
        self.break_chain(chain, broken)
    }

    // Makes the node of an item be there, or not, as in a part.
    fn put_node(&mut self, alloc: Global, part: &State, item: &Item) -> Result<(), AllocError>
        ensures { OnOk result (self.new ≡ with_node item.now part.now self.old) }
    {
        match item {
            Item::Size(node) => put_size(&mut self.nodes, alloc, &part.nodes, *node),
            Item::Names(node) => put_listing(&mut self.nodes, alloc, &part.nodes, *node),
            _ => Ok(()),
        }
    }

    // Gives an item the value that it has in a part. The nodes are there already.
    fn put_item(&mut self, alloc: Global, part: &State, item: &Item) -> Result<(), AllocError>
        ensures { OnOk result (self.new ≡ with_item item.now part.now self.old) }
    {
        match item {
            Item::Chain(chain) => self.put_chain(part, *chain),
            Item::Slot(ring, number) => self.set_slot(*ring, *number, part.slot(*ring, *number)),
            Item::Descriptor(number) => self.set_descriptor(*number, part.descriptor(*number)),
            Item::Description(number) => {
                put_description(&mut self.descriptions, &part.descriptions, *number)
            }
            Item::Position(number) => {
                put_position(&mut self.descriptions, &part.descriptions, *number)
            }
            Item::Bytes(node, low, high) => {
                put_bytes(&mut self.nodes, &part.nodes, *node, *low, *high)
            }
            Item::Name(directory, name) => {
                self.set_name(alloc, *directory, name, part.name(*directory, name))
            }
            Item::Buffer(ring, index, low, high) => {
                put_buffer(&mut self.buffers, &part.buffers, *ring, *index, *low, *high)
            }
            _ => Ok(()),
        }
    }

    // Makes the nodes of all written items be there, or not, as in a part.
    fn put_nodes(&mut self, alloc: Global, part: &State, uses: &[Use]) -> Result<(), AllocError>
        ensures { OnOk result (self.new ≡ with_nodes uses.now part.now self.old) }
    {
        for written in uses {
            if written.written {
                self.put_node(alloc, part, &written.item)?;
            }
        }
        Ok(())
    }

    // Gives all written items the values that they have in a part. The nodes are there already.
    fn put_items(&mut self, alloc: Global, part: &State, uses: &[Use]) -> Result<(), AllocError>
        ensures { OnOk result (self.new ≡ with_items uses.now part.now self.old) }
    {
        for written in uses {
            if written.written {
                self.put_item(alloc, part, &written.item)?;
            }
        }
        Ok(())
    }

    // Gives all written items the values that they have in a part, and makes their nodes be there
    // first.
    fn put_uses(&mut self, alloc: Global, part: &State, uses: &[Use]) -> Result<(), AllocError>
        ensures { OnOk result (self.new
            ≡ with_items uses.now part.now (with_nodes uses.now part.now self.old)) }
    {
        self.put_nodes(alloc, part, uses)?;
        self.put_items(alloc, part, uses)
    }
}

impl World {
    /// Puts a part back: the world has its values where its access set writes. It costs by the
    /// access set and the part, and bytes move as whole pages, but for those within one page.
    ///
    /// # Errors
    ///
    /// Out of memory; the world can then only be dropped.
    pub fn put(&mut self, alloc: Global, part: Part) -> Result<(), AllocError>
        requires world { IsWorld self.old.world }
        requires out { IsSome (get self.old.out part.place) }
        requires narrow { IfSome (get self.old.out part.place) (λ f. T (is_narrow f)) }
        requires fits { IfSome (get self.old.out part.place)
            (λ f. (w : world.World) × IsWorld w × PutsTo f self.old.world part.values w) }
        ensures world { IfSome (get self.old.out part.place) (λ f. (w : world.World)
            → PutsTo f self.old.world part.values w → OnOk result (self.new.world ≡ w)) }
        ensures home { OnOk result
            (self.new.out ≡ assign number_keys.total self.old.out part.place None) }
    {
        let Some(footprint) = self.out.remove(&part.place) else {
            return Ok(());
        };
        self.state.put_uses(alloc, &part.state, &footprint.uses)
    }
}
