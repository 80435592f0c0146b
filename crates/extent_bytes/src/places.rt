// Places of a leaf, each with a page or none. Behind the last there is none.
ghost use Rattle.std.specs.Prelude.{◌≡◌, ℕ, ◌+◌, ◌-◌, ◌<◌, ◌≤◌, ◌≢◌, ◌++◌, length, slice_get};
ghost use Rattle.std.specs.Prelude.{max, None, Some, IsSome, IfSome, IfNone, IfOk, OnOk, OnErr};
ghost use Rattle.extent_bytes.specs.Pages.{stored_at, place_joined, IsRewritten};

use crate::page::{PAGE_SIZE, Page};
use std::alloc::{AllocError, Global};

// The first page from the place `from` on and below `to`, with its place.
pub(crate) fn next_in(places: &[Option<Page>], from: u64, to: u64) -> Option<(u64, &Page)>
    requires { from ≤ to }
    ensures page { IfSome result (λ e. stored_at (slice_get places.now e.0) ≡ Some e.1.now) }
    ensures within { IfSome result (λ e. (from ≤ e.0) × (e.0 < to)) }
    ensures least { IfSome result (λ e. (j : ℕ) → from ≤ j → j < to →
        IsSome (stored_at (slice_get places.now j)) → e.0 ≤ j) }
    ensures none { IfNone result ((j : ℕ) → from ≤ j → j < to →
        stored_at (slice_get places.now j) ≡ None) }
{
    for place in from..to.min(places.len() as u64) {
        if let Some(page) = &places[place as usize] {
            return Some((place, page));
        }
    }
    None
}

// Makes so many places at least, with none behind the last.
fn grow(places: &mut Vec<Option<Page>>, len: usize) -> Result<(), AllocError>
    ensures same { (j : ℕ) →
        stored_at (slice_get places.new.items j) ≡ stored_at (slice_get places.old.items j) }
    ensures len { OnOk result (length places.new.items ≡ max len (length places.old.items)) }
{
    while places.len() < len {
        places.push(None)?;
    }
    Ok(())
}

// Puts a page at a place, which may lie behind the others.
pub(crate) fn put_in(
    places: &mut Vec<Option<Page>>,
    place: usize,
    page: Page,
) -> Result<(), AllocError>
    ensures put { OnOk result (stored_at (slice_get places.new.items place) ≡ Some page) }
    ensures others { OnOk result ((j : ℕ) → j ≢ place →
        stored_at (slice_get places.new.items j) ≡ stored_at (slice_get places.old.items j)) }
    ensures err { OnErr result ((j : ℕ) →
        stored_at (slice_get places.new.items j) ≡ stored_at (slice_get places.old.items j)) }
{
    grow(places, place)?;
    if places.len() == place {
        places.push(Some(page))?;
    } else {
        places[place] = Some(page);
    }
    Ok(())
}

// Takes the page at a place, where there is one.
fn taken_from(places: &mut Vec<Option<Page>>, place: usize) -> Option<Page>
    ensures taken { result ≡ stored_at (slice_get places.old.items place) }
    ensures others { (j : ℕ) → j ≢ place →
        slice_get places.new.items j ≡ slice_get places.old.items j }
{
    match places.get_mut(place) {
        Some(page) => page.take(),
        None => None,
    }
}

// Writes the bytes into the page at a place, if there is one.
pub(crate) fn rewrite_in(
    places: &mut Vec<Option<Page>>,
    alloc: Global,
    place: usize,
    at: usize,
    bytes: &[u8],
) -> Result<bool, AllocError>
    requires { at + length bytes.now ≤ PAGE_SIZE }
    ensures ok { IfOk result (λ is_there.
        IsRewritten is_there (stored_at (slice_get places.old.items place))
        (stored_at (slice_get places.new.items place)) at bytes.now) }
    ensures others { OnOk result ((j : ℕ) → j ≢ place →
        stored_at (slice_get places.new.items j) ≡ stored_at (slice_get places.old.items j)) }
    ensures err { OnErr result ((j : ℕ) →
        stored_at (slice_get places.new.items j) ≡ stored_at (slice_get places.old.items j)) }
{
    if place < places.len()
        && let Some(page) = &mut places[place]
    {
        page.write(alloc, at, bytes)?;
        return Ok(true);
    }
    Ok(false)
}

// Puts others in place of those from `first` up to `end`, which may lie behind the last.
pub(crate) fn put_all_in(
    places: &mut Vec<Option<Page>>,
    first: usize,
    end: usize,
    mut others: Vec<Option<Page>>,
) -> Result<(), AllocError>
    requires { first ≤ end }
    ensures taken { OnOk result ((j : ℕ) → first + j < end →
        stored_at (slice_get places.new.items (first + j)) ≡ stored_at (slice_get others.items j)) }
    ensures below { OnOk result ((j : ℕ) → j < first →
        stored_at (slice_get places.new.items j) ≡ stored_at (slice_get places.old.items j)) }
    ensures above { OnOk result ((j : ℕ) → end ≤ j →
        stored_at (slice_get places.new.items j) ≡ stored_at (slice_get places.old.items j)) }
    ensures err { OnErr result ((j : ℕ) →
        stored_at (slice_get places.new.items j) ≡ stored_at (slice_get places.old.items j)) }
{
    grow(places, end)?;
    for place in first..end {
        places[place] = taken_from(&mut others, place - first);
    }
    Ok(())
}

// Appends places, whose pages get one more owner.
fn append(places: &mut Vec<Option<Page>>, others: &[Option<Page>]) -> Result<(), AllocError>
    ensures { OnOk result (places.new.items ≡ places.old.items ++ others.now) }
{
    for place in others {
        places.push(place.clone()?)?;
    }
    Ok(())
}

// The same places, whose pages get one more owner.
pub(crate) fn copied(
    alloc: Global,
    places: &[Option<Page>],
) -> Result<Vec<Option<Page>>, AllocError>
    ensures { IfOk result (λ copy. copy.items ≡ places.now) }
{
    let mut copy = Vec::with_capacity(alloc, places.len())?;
    append(&mut copy, places)?;
    Ok(copy)
}

// The first places, up to a width, and behind them others.
pub(crate) fn one_leaf(
    alloc: Global,
    first: &[Option<Page>],
    width: usize,
    second: &[Option<Page>],
) -> Result<Vec<Option<Page>>, AllocError>
    ensures { IfOk result (λ places. (j : ℕ) → stored_at (slice_get places.items j)
        ≡ place_joined first.now width second.now j) }
{
    let mut places = copied(alloc, &first[..width.min(first.len())])?;
    grow(&mut places, width)?;
    append(&mut places, second)?;
    Ok(places)
}
