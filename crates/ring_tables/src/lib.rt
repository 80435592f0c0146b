//! What the rings and the process hold: registered files and buffers, open file descriptions and
//! descriptors, each as a finite map with an entry for what is there alone.
#![tactic(auto)]

mod buffers;
mod descriptions;
mod descriptors;
mod slots;

pub use buffers::Buffers;
pub use descriptions::Descriptions;
pub use descriptors::Descriptors;
pub use slots::Slots;
