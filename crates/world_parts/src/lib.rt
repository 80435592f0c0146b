//! The world that a replay changes, the items of an access set, and the parts that access sets cut
//! out.
#![tactic(auto)]

mod broken;
mod changing;
mod copying;
mod cutting;
mod footprint;
mod full_path;
mod image;
mod imaging;
mod known;
pub mod laws;
mod laying;
mod moving;
mod part;
mod putting;
mod start;
mod state;
mod sweeping;
mod whole;

pub use broken::Broken;
pub use footprint::{
    Footprint, Item, Use, any_writes_some, collide, same_uses, share, touches_item, writes_item,
};
pub use image::{BufferEntry, DescriptorEntry, Image, NameEntry, SlotEntry};
pub use part::{Part, World};
pub use state::State;
