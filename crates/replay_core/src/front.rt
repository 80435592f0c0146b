//! The front of a replay: the first places that aren't done, as many as the window has.
ghost use Rattle.std.specs.Prelude.{◌≡◌, ◌-◌, ◌≤◌, ◌⊎◌, ◌++◌, IfOk};
ghost use Rattle.std.specs.Prelude.{OnOk, filter, length, not, slice_index_or};
ghost use Rattle.std.specs.Prelude.{◌==◌, ℕ, false, true};
ghost use Rattle.std.specs.List.{range_with_len};
ghost use Rattle.std.specs.List.Sorted.{IsStrictlyIncreasing};
ghost use Rattle.interleaving.specs.Machine.{has};

use std::alloc::AllocError;

/// A round of at most so many places has each of them looked for in the front.
const FEW: usize = 8;

/// Drops the places that are done.
fn drop_done(front: &mut Vec<u32>, done: &[bool])
    ensures { front.new.items ≡ filter (λ k. not (slice_index_or done.now k false)) front.old.items }
{
    front.retain(|place| done.get(*place as usize) != Some(&true));
}

/// Drops one place.
fn drop_place(front: &mut Vec<u32>, place: u32)
    requires { IsStrictlyIncreasing front.old.items }
    ensures { front.new.items ≡ filter (λ k. not (k == place)) front.old.items }
{
    if let Ok(index) = front.binary_search(&place) {
        front.remove(index);
    }
}

/// Drops some places.
fn drop_each(front: &mut Vec<u32>, places: &[u32])
    requires { IsStrictlyIncreasing front.old.items }
    ensures { front.new.items ≡ filter (λ k. not (has places.now k)) front.old.items }
{
    for place in places {
        drop_place(front, *place);
    }
}

/// Drops the places that are done, which are those of the front that a round ran.
pub(crate) fn drop_ran(front: &mut Vec<u32>, ran: &[u32], done: &[bool])
    requires rises { IsStrictlyIncreasing front.old.items }
    requires ran { (k : ℕ) → has front.old.items k ≡ true
        → slice_index_or done.now k false ≡ has ran.now k }
    ensures { front.new.items ≡ filter (λ k. not (slice_index_or done.now k false)) front.old.items }
{
    if ran.len() <= FEW {
        drop_each(front, ran);
    } else {
        drop_done(front, done);
    }
}

/// Fills a front of places up to the window, and gives the first place behind it.
pub(crate) fn filled(
    front: &mut Vec<u32>,
    next: u32,
    places: u32,
    window: u32,
) -> Result<u32, AllocError>
    requires next { next ≤ places }
    requires few { length front.old.items ≤ window }
    ensures within { IfOk result (λ behind. (next ≤ behind) × (behind ≤ places)) }
    ensures more { IfOk result (λ behind. front.new.items ≡ front.old.items
        ++ range_with_len next (behind - next)) }
    ensures few { OnOk result (length front.new.items ≤ window) }
    ensures full { IfOk result (λ behind. (length front.new.items ≡ window) ⊎ (behind ≡ places)) }
{
    for place in next..places {
        if front.len() >= window as usize {
            return Ok(place);
        }
        front.push(place)?;
    }
    Ok(places)
}
