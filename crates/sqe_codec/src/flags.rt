//! The flags of an entry.
ghost use Rattle.std.specs.Prelude.{◌≡◌, true};
ghost use Rattle.sqe_codec.specs.Flags.{has, is_bit_below};

use crate::sqe::Sqe;

/// `IOSQE_FIXED_FILE`: the entry's file is a registered one.
pub const FIXED_FILE: u32 = 0x01;

/// `IOSQE_IO_DRAIN`: the entry starts when all earlier ones are done, and the later ones after it.
pub const IO_DRAIN: u32 = 0x02;

/// `IOSQE_IO_LINK`: the next entry follows this one; a failure of this one cancels what follows.
pub const IO_LINK: u32 = 0x04;

/// `IOSQE_IO_HARDLINK`: the next entry follows this one, whatever becomes of it.
pub const IO_HARDLINK: u32 = 0x08;

/// `IOSQE_BUFFER_SELECT`: the kernel chooses the buffer.
pub const BUFFER_SELECT: u32 = 0x20;

/// `IOSQE_CQE_SKIP_SUCCESS`: no completion is posted for a success.
pub const CQE_SKIP_SUCCESS: u32 = 0x40;

/// Whether a word of flags has a flag, which is a single bit.
#[tactic(auto, using(crate::proofs::Bits::has_masked))]
pub fn has_flag(word: u32, flag: u32) -> bool
    requires { is_bit_below 32 flag ≡ true }
    ensures { result ≡ has word flag }
{
    word & flag != 0
}

impl Sqe {
    /// Whether the entry has one of the flags above.
    pub fn has(&self, flag: u32) -> bool
        requires { is_bit_below 32 flag ≡ true }
        ensures { result ≡ has self.now.flags flag }
    {
        has_flag(u32::from(self.flags), flag)
    }
}
