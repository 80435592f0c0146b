//! The SHA-256 hasher of zeros.
ghost use Rattle.std.specs.Prelude.{◌≡◌, ◌≤◌, IfOk, replicate};
ghost use Rattle.sha2.specs.Hashers.{Holds256};

use sha2::{Digest, Sha256};
use std::alloc::AllocError;
use std::marker::Model;

/// The most zeros that are hashed at once.
const PIECE: usize = 4_096;

/// A hasher of so many zeros. Those that are asked for in the order of their counts take one pass,
/// over the most.
#[derive(Drop)]
pub struct Zeros {
    hasher: Sha256,
    count: u64,
}

impl Model for Zeros {
    ghost use Rattle.std.specs.Prelude.{ℕ, replicate};
    ghost use Rattle.sha2.specs.Hashers.{Holds256};

    ghost Value = { ℕ };

    ghost view = { λ z. z.count };

    ghost invariant = { λ z. Holds256 z.hasher (replicate z.count 0) };
}

impl Zeros {
    /// A hasher of no zeros.
    pub fn new() -> Self
        ensures { result ≡ 0 }
    {
        Zeros {
            hasher: Sha256::new(),
            count: 0,
        }
    }

    /// A hasher of `count` zeros, to which more may be added.
    ///
    /// # Errors
    ///
    /// Out of memory.
    pub fn hasher(&mut self, count: u64) -> Result<Sha256, AllocError>
        ensures { IfOk result (λ hasher. Holds256 hasher (replicate count 0)) }
    {
        if count < self.count {
            *self = Zeros::new();
        }
        self.grow(count);
        self.hasher.clone()
    }

    /// Adds zeros, so that there are `count`.
    fn grow(&mut self, count: u64)
        requires { self.old ≤ count }
        ensures { self.new ≡ count }
    {
        let zeros = [0u8; PIECE];
        while self.count < count {
            let more = (PIECE as u64).min(count - self.count);
            let piece = &zeros[..more as usize];
            self.hasher.update(piece);
            self.count += more;
        }
    }
}
