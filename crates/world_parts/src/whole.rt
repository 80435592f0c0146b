//! A world as a whole.
ghost use Rattle.std.specs.Prelude.{◌≡◌, ◌↔◌, [], unwrap_or, IfOk, IsTrue};
ghost use Rattle.extent_bytes.specs.Bytes.{range_of};
ghost use Rattle.recording.specs.Accepted.{IsAccepted};
ghost use Rattle.world_parts.specs.Image.{image_of};
ghost use Rattle.world_parts.specs.Part.{whole};
ghost use Rattle.world_parts.specs.Start.{start};
ghost use Rattle.world_parts.specs.World.{buffer, bytes};

use crate::image::Image;
use crate::part::{Part, World};
use crate::state::State;
use recording::{Recording, Series};
use std::alloc::{AllocError, Global};
use std::collections::BTreeMap;
use std::mem;

impl World {
    /// A world of which no part is out.
    ///
    /// # Errors
    ///
    /// Out of memory.
    pub fn new(alloc: Global, state: State) -> Result<Self, AllocError>
        ensures { IfOk result (λ world. world ≡ whole state) }
    {
        let state = Box::new(alloc, state)?;
        Ok(World {
            state,
            out: BTreeMap::new(alloc),
        })
    }

    /// The world that a trace starts with.
    ///
    /// # Errors
    ///
    /// Out of memory.
    pub fn of(alloc: Global, trace: &Recording) -> Result<Self, AllocError>
        requires { IsAccepted trace.now }
        ensures { IfOk result (λ world. world ≡ whole (start trace.now)) }
    {
        World::new(alloc, State::of(alloc, trace)?)
    }

    /// The maps of the world, with zeros where parts have taken bytes out.
    pub fn state(&self) -> &State
        ensures { result.now ≡ self.now.world }
    {
        &self.state
    }

    /// Gives the world the values of a part, and the part those of the world; nothing is copied.
    /// Places that run one after another on all of the world do so on a part that has all of it,
    /// for which nothing is cut out and put back.
    pub fn exchange(&mut self, part: &mut Part)
        ensures world { self.new ≡ record self.old { world = part.old.values } }
        ensures part { part.new ≡ record part.old { values = self.old.world } }
    {
        mem::swap(&mut self.state, &mut part.state);
    }

    /// What the report shows of the world.
    ///
    /// # Errors
    ///
    /// Out of memory.
    pub fn image(&self, alloc: Global) -> Result<Image, AllocError>
        ensures { IfOk result (λ image. image ≡ image_of self.now.world) }
    {
        self.state.image(alloc)
    }

    /// The bytes of a file from one offset up to another, as far as it has them; none where the
    /// node is no file.
    ///
    /// # Errors
    ///
    /// Out of memory.
    pub fn file_bytes(
        &self,
        alloc: Global,
        node: u32,
        low: u64,
        high: u64,
    ) -> Result<Series<u8>, AllocError>
        ensures { IfOk result
            (λ taken. taken ≡ range_of (unwrap_or (bytes self.now.world node) []) low high) }
    {
        self.state.file_bytes(alloc, node, low, high)
    }

    /// The bytes of a registered buffer; none where there is no such buffer.
    ///
    /// # Errors
    ///
    /// Out of memory.
    pub fn buffer_bytes(
        &self,
        alloc: Global,
        ring: u32,
        index: u32,
    ) -> Result<Series<u8>, AllocError>
        ensures { IfOk result (λ taken. taken ≡ unwrap_or (buffer self.now.world ring index) []) }
    {
        self.state.buffer_bytes(alloc, ring, index)
    }

    /// Whether both worlds are the same, apart from the parts that are out. It takes no memory.
    pub fn same(&self, other: &World) -> bool
        ensures { IsTrue result ↔ (self.now.world ≡ other.now.world) }
    {
        self.state.same(&other.state)
    }
}
