//! What operations answer.
ghost use Rattle.std.specs.Prelude.{◌≡◌, [], IfOk, is_ok, Ok};
ghost use Rattle.op_meaning.specs.Outcomes.{answered};

use extent_bytes::ReadBytes;
use sqe_codec::Errno;
use std::alloc::{AllocError, Global};

/// What an accepted operation answers: its count, and the bytes that it read.
#[derive(Drop)]
pub(crate) struct Done {
    pub count: u32,
    pub bytes: ReadBytes,
}

/// What an operation answers: that it is done, or the error of the first test that fails.
pub(crate) type Outcome = Result<Done, Errno>;

/// What answers a count and no bytes. It takes no memory.
pub(crate) fn counted(alloc: Global, count: u32) -> Done
    ensures { answered (Ok result) ≡ Ok (count, []) }
{
    Done {
        count,
        bytes: ReadBytes::none(alloc),
    }
}

/// What is done and moved nothing. It takes no memory.
pub(crate) fn finished(alloc: Global) -> Done
    ensures { answered (Ok result) ≡ Ok (0, []) }
{
    counted(alloc, 0)
}

/// The answer of a change that moves nothing, once it is made. It takes no memory.
///
/// # Errors
///
/// That of the change.
pub(crate) fn finished_after(
    alloc: Global,
    change: Result<(), AllocError>,
) -> Result<Done, AllocError>
    ensures answer { IfOk result (λ done. answered (Ok done) ≡ Ok (0, [])) }
    ensures made { is_ok result ≡ is_ok change }
{
    change?;
    Ok(finished(alloc))
}
