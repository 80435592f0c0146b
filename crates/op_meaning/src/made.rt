//! The numbers of what the places of a trace make.
ghost use Rattle.std.specs.Prelude.{◌≡◌, ◌<◌, length};
ghost use Rattle.op_meaning.specs.Meaning as meaning;
ghost use Rattle.recording.specs.Steps.{places};
ghost use Rattle.recording.specs.Accepted.{IsAccepted};

use recording::Recording;

/// The number of the node that a place makes.
pub fn made_node(trace: &Recording, place: u32) -> u32
    requires trace { IsAccepted trace.now }
    requires place { place < places trace.now }
    ensures { result ≡ meaning.made_node trace.now place }
{
    trace.items.as_slice().len() as u32 + 1 + place
}

/// The number of the open file description that a place makes.
pub fn made_description(trace: &Recording, place: u32) -> u32
    requires trace { IsAccepted trace.now }
    requires place { place < places trace.now }
    ensures { result ≡ meaning.made_description trace.now place }
{
    trace.descriptions.as_slice().len() as u32 + place
}

/// How many descriptors of the process there is room for.
pub fn descriptor_count(trace: &Recording) -> u32
    requires { IsAccepted trace.now }
    ensures { result ≡ length trace.now.descriptors }
{
    trace.descriptors.as_slice().len() as u32
}
