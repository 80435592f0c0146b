//! Look-ups in maps by number, and maps of which some numbers are kept.
ghost use Rattle.std.specs.Prelude.{◌≡◌, ℕ, None, cond, nat_eq};
ghost use Rattle.std.specs.Option.{option_copied};
ghost use Rattle.indexmap.specs.IndexMap.{get};
ghost use Rattle.indexmap.specs.IndexSet.{contains};

use indexmap::{IndexMap, IndexSet};

/// The value at a number. It is looked for first at the index that it has as long as the numbers
/// are those from 0 on, in that order, and by its hash where it isn't there.
pub fn value_at<V>(map: &IndexMap<u32, V>, number: u32) -> Option<&V>
    ensures { option_copied result ≡ get nat_eq map.now number }
{
    match map.get_index(number as usize) {
        Some((at, value)) if *at == number => Some(value),
        _ => map.get(&number),
    }
}

/// Keeps the entries of the numbers that a set has. It takes no memory.
pub fn keep_only<V: Drop>(map: &mut IndexMap<u32, V>, numbers: &IndexSet<u32>)
    ensures { (q : ℕ) → get nat_eq map.new q
        ≡ cond (contains nat_eq numbers.now q) (get nat_eq map.old q) None }
{
    map.retain(
        |number: &u32, value: &mut V| -> bool
            ensures { (result ≡ contains nat_eq numbers.entry.now number.now)
                × (value.new ≡ value.old) }
        { numbers.contains(number) },
    );
}
