//! Traces of version 3 that are read from a reader, a record at a time. Records share the buffers
//! that they were read into. A count takes the memory of the start and one record, and reading that
//! of the trace with these buffers.
#![tactic(auto)]

mod counting;
mod fault;
mod held;
mod lengths;
mod parts;
mod reading;
mod stream;

pub use counting::count_stream;
pub use fault::StreamFault;
pub use reading::read_stream;
pub use stream::Stream;
