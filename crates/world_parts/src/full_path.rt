//! Full paths as keys.
ghost use Rattle.std.specs.Prelude.{◌≡◌};
ghost use Rattle.std.specs.Ordering.{nat_cmp};
ghost use Rattle.std.specs.Cmp.Lexicographic.{slice_cmp};

use std::cmp::Ordering;
use std::marker::Model;

/// So many bytes are compared at once.
const BLOCK: usize = 256;

/// A full path. Two of them are compared a block at a time: those of a deep tree have long fronts in
/// common.
#[derive(Drop)]
pub(crate) struct FullPath {
    bytes: Vec<u8>,
}

impl Model for FullPath {
    ghost use Rattle.std.specs.Prelude.{ℕ, List};

    ghost Value = { List ℕ };

    ghost view = { λ p. p.bytes.items };
}

/// The order of two byte strings.
pub(crate) fn order_of(bytes: &[u8], others: &[u8]) -> Ordering
    ensures { result ≡ slice_cmp nat_cmp bytes.now others.now }
{
    let both = bytes.len().min(others.len());
    let mut same = 0;
    while both - same >= BLOCK {
        if &bytes[same..same + BLOCK] != &others[same..same + BLOCK] {
            break;
        }
        same += BLOCK;
    }
    let rest = &bytes[same..];
    rest.cmp(&others[same..])
}

impl FullPath {
    /// The path with these bytes.
    pub(crate) fn new(bytes: Vec<u8>) -> FullPath
        ensures { result ≡ bytes.items }
    {
        FullPath { bytes }
    }

    /// Its bytes.
    pub(crate) fn into_bytes(self) -> Vec<u8>
        ensures { result.items ≡ self }
    {
        self.bytes
    }

    /// The order of two paths.
    fn order(&self, other: &FullPath) -> Ordering
        ensures { result ≡ slice_cmp nat_cmp self.now other.now }
    {
        order_of(&self.bytes, &other.bytes)
    }
}

impl PartialEq for FullPath {
    ghost use Rattle.std.specs.Prelude.{nat_eq};
    ghost use Rattle.std.specs.Cmp.{partial_equiv_from_equiv};
    ghost use Rattle.std.specs.Cmp.Lexicographic.{pointwise, nat_list_eq_equiv};

    ghost eq = { pointwise nat_eq };

    ghost laws = { partial_equiv_from_equiv nat_list_eq_equiv };

    fn eq(&self, other: &FullPath) -> bool {
        self.bytes == other.bytes
    }
}

impl Eq for FullPath {
    ghost use Rattle.std.specs.Cmp.Lexicographic.{nat_list_eq_equiv};

    ghost laws = { nat_list_eq_equiv };
}

impl PartialOrd for FullPath {
    ghost use Rattle.std.specs.Prelude.{Some};
    ghost use Rattle.std.specs.Ordering.{nat_cmp};
    ghost use Rattle.std.specs.Cmp.Lexicographic.{slice_cmp, texts_po};

    ghost partial_cmp = { λ a b. Some (slice_cmp nat_cmp a b) };

    ghost laws = { texts_po };

    fn partial_cmp(&self, other: &FullPath) -> Option<Ordering> {
        Some(self.order(other))
    }
}

impl Ord for FullPath {
    ghost use Rattle.std.proofs.Common.{refl};
    ghost use Rattle.std.specs.Ordering.{nat_cmp};
    ghost use Rattle.std.specs.Cmp.Lexicographic.{slice_cmp, nat_list_cmp_total, texts_ties};

    ghost cmp = { slice_cmp nat_cmp };

    ghost total = { nat_list_cmp_total };

    ghost matches_partial_cmp = { λ a b. refl };

    ghost matches_eq = { texts_ties };

    fn cmp(&self, other: &FullPath) -> Ordering {
        self.order(other)
    }
}
