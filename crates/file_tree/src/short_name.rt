//! Names of few bytes.
ghost use Rattle.std.specs.Prelude.{◌≡◌, ◌≤◌, ◌<◌, length, MatchOption};
ghost use Rattle.std.specs.Ordering.{nat_cmp};
ghost use Rattle.std.specs.Cmp.Lexicographic.{slice_cmp};

use std::cmp::Ordering;
use std::marker::Model;

/// The most bytes that a short name has.
pub(crate) const LONGEST: usize = 15;

/// A name of at most fifteen bytes: these, filled up with zeros, and how many they are. Read as
/// numbers, these sixteen bytes are in the order of the names.
#[derive(Drop)]
pub(crate) struct ShortName {
    bytes: [u8; 16],
}

impl Model for ShortName {
    ghost use Rattle.std.specs.Prelude.{ℕ, List};
    ghost use Rattle.file_tree.specs.Short.{name_in, AreFilled};

    ghost Value = { List ℕ };

    ghost view = { λ s. name_in s.bytes };

    ghost invariant = { λ s. AreFilled s.bytes };
}

/// The order of sixteen bytes, which are compared as one number.
fn order_of(bytes: &[u8; 16], others: &[u8; 16]) -> Ordering
    ensures { result ≡ slice_cmp nat_cmp bytes.now others.now }
{
    u128::from_be_bytes(*bytes).cmp(&u128::from_be_bytes(*others))
}

impl ShortName {
    /// The name with these bytes, if it is short.
    pub(crate) fn new(name: &[u8]) -> Option<ShortName>
        ensures { MatchOption result (15 < length name.now)
            (λ short. (length name.now ≤ 15) × (short ≡ name.now)) }
    {
        if name.len() > LONGEST {
            return None;
        }
        let mut bytes = [0; 16];
        bytes[..name.len()].copy_from_slice(name);
        bytes[LONGEST] = name.len() as u8;
        Some(ShortName { bytes })
    }

    /// Its bytes.
    pub(crate) fn as_slice(&self) -> &[u8]
        ensures { result.now ≡ self.now }
    {
        &self.bytes[..self.bytes[LONGEST] as usize]
    }

    /// The order of two names.
    fn order(&self, other: &ShortName) -> Ordering
        ensures { result ≡ slice_cmp nat_cmp self.now other.now }
    {
        order_of(&self.bytes, &other.bytes)
    }
}

impl PartialEq for ShortName {
    ghost use Rattle.std.specs.Prelude.{nat_eq};
    ghost use Rattle.std.specs.Cmp.{partial_equiv_from_equiv};
    ghost use Rattle.std.specs.Cmp.Lexicographic.{pointwise, nat_list_eq_equiv};

    ghost eq = { pointwise nat_eq };

    ghost laws = { partial_equiv_from_equiv nat_list_eq_equiv };

    fn eq(&self, other: &ShortName) -> bool {
        self.order(other).is_eq()
    }
}

impl Eq for ShortName {
    ghost use Rattle.std.specs.Cmp.Lexicographic.{nat_list_eq_equiv};

    ghost laws = { nat_list_eq_equiv };
}

impl PartialOrd for ShortName {
    ghost use Rattle.std.specs.Prelude.{Some};
    ghost use Rattle.std.specs.Ordering.{nat_cmp};
    ghost use Rattle.std.specs.Cmp.Lexicographic.{slice_cmp, texts_po};

    ghost partial_cmp = { λ a b. Some (slice_cmp nat_cmp a b) };

    ghost laws = { texts_po };

    fn partial_cmp(&self, other: &ShortName) -> Option<Ordering> {
        Some(self.order(other))
    }
}

impl Ord for ShortName {
    ghost use Rattle.std.proofs.Common.{refl};
    ghost use Rattle.std.specs.Ordering.{nat_cmp};
    ghost use Rattle.std.specs.Cmp.Lexicographic.{slice_cmp, nat_list_cmp_total, texts_ties};

    ghost cmp = { slice_cmp nat_cmp };

    ghost total = { nat_list_cmp_total };

    ghost matches_partial_cmp = { λ a b. refl };

    ghost matches_eq = { texts_ties };

    fn cmp(&self, other: &ShortName) -> Ordering {
        self.order(other)
    }
}
