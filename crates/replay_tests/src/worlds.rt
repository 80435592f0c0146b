//! Worlds: what they start with, what is shown of them, and what is cut out.
ghost use Rattle.std.specs.Prelude.{◌≡◌, IfOk};
ghost use Rattle.finite_maps.specs.Table.{empty};

use crate::text::trace_of;
use std::alloc::Global;
use std::test::Fail;
use world_parts::{Broken, Footprint, Image, Item, Part, State, World};

/// A name that an image shows, with its node and the size of a file.
#[derive(Clone, Copy)]
struct Shown<'a> {
    path: &'a [u8],
    node: u32,
    size: Option<u64>,
}

/// Whether an image shows these names and no others.
fn shows(image: &Image, names: &[Shown<'_>]) -> bool {
    let entries = image.names.as_slice();
    if entries.len() != names.len() {
        return false;
    }
    for (entry, name) in entries.iter().zip(names) {
        if entry.path.as_slice() != name.path
            || entry.node != name.node
            || entry.size != name.size
        {
            return false;
        }
    }
    true
}

/// The world that the trace without entries starts with.
fn start(alloc: Global) -> Result<World, Fail>
    ensures { IfOk result (λ world. world.out ≡ empty) }
{
    let trace = trace_of(alloc, &[])?;
    Ok(World::of(alloc, &trace)?)
}

/// The names of that world.
fn start_names() -> [Shown<'static>; 5] {
    [
        Shown {
            path: b"/d",
            node: 1,
            size: None,
        },
        Shown {
            path: b"/d.x",
            node: 3,
            size: Some(6),
        },
        Shown {
            path: b"/d/f",
            node: 2,
            size: Some(10),
        },
        Shown {
            path: b"/e",
            node: 5,
            size: None,
        },
        Shown {
            path: b"/g",
            node: 3,
            size: Some(6),
        },
    ]
}

/// How many slots, descriptors and buffers an image shows.
fn counts(image: &Image) -> [usize; 3] {
    [
        image.slots.as_slice().len(),
        image.descriptors.as_slice().len(),
        image.buffers.as_slice().len(),
    ]
}

#[test]
fn an_image_has_paths_in_order(rt: HostRuntime) -> Result<(), Fail> {
    let image = start(rt.alloc())?.image(rt.alloc())?;
    assert!(rt; shows(&image, &start_names()));
    assert_eq!(rt; counts(&image), [2, 0, 1]);
    Ok(())
}

#[test]
fn bytes_are_taken_from_files_and_buffers(rt: HostRuntime) -> Result<(), Fail> {
    let world = start(rt.alloc())?;
    let bytes = world.file_bytes(rt.alloc(), 3, 1, 9)?;
    assert_eq!(rt; bytes.as_slice(), b"yz\0\0\0".as_slice());
    let bytes = world.buffer_bytes(rt.alloc(), 0, 0)?;
    assert_eq!(rt; bytes.as_slice(), [0u8; 16].as_slice());
    Ok(())
}

/// A part with bytes 3, 4 and 5 of node 2, taken out of a world of which no part is out.
fn taken_out(alloc: Global, world: &mut World) -> Result<Part, Fail>
    requires { world.old.out ≡ empty }
{
    let mut footprint = Footprint::new(alloc);
    footprint.writes(Item::Bytes(2, 3, 6))?;
    Ok(world.cut(alloc, 7, footprint)?)
}

/// The bytes of that part.
fn taken_bytes(alloc: Global, world: &mut World) -> Result<Vec<u8>, Fail>
    requires { world.old.out ≡ empty }
{
    let part = taken_out(alloc, world)?;
    Ok(part.state.bytes(alloc, 2, 3, 6)?)
}

#[test]
fn a_part_has_the_bytes_that_it_takes_out(rt: HostRuntime) -> Result<(), Fail> {
    let mut world = start(rt.alloc())?;
    let taken = taken_bytes(rt.alloc(), &mut world)?;
    assert_eq!(rt; taken.as_slice(), b"345".as_slice());
    let left = world.file_bytes(rt.alloc(), 2, 0, 10)?;
    assert_eq!(rt; left.as_slice(), b"012\0\0\x006789".as_slice());
    Ok(())
}

/// The world of a state in which a chain breaks.
fn with_a_broken_chain(alloc: Global, mut state: State) -> Result<World, Fail> {
    match state.break_chain(7, Broken::Quiet) {
        Ok(()) => Ok(World::new(alloc, state)?),
        Err(error) => {
            drop(state);
            Err(Fail::from(error))
        }
    }
}

/// The world of the trace in which a chain broke.
fn broken(alloc: Global) -> Result<World, Fail> {
    let trace = trace_of(alloc, &[])?;
    match State::of(alloc, &trace) {
        Ok(state) => with_a_broken_chain(alloc, state),
        Err(error) => Err(Fail::from(error)),
    }
}

#[test]
fn a_broken_chain_tells_worlds_apart(rt: HostRuntime) -> Result<(), Fail> {
    let other = start(rt.alloc())?;
    assert!(rt; !other.same(&broken(rt.alloc())?));
    assert!(rt; other.same(&start(rt.alloc())?));
    Ok(())
}
