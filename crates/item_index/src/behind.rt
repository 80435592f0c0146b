//! The may-access sets that come before a place, of those that an index has.
ghost use Rattle.std.specs.Prelude.{◌≡◌, ◌<◌, ◌&&◌, IfSome, false, if◌then◌else◌, slice_get};
ghost use Rattle.std.specs.Prelude.{length, true};
ghost use Rattle.std.specs.List.{list_any, position_from};
ghost use Rattle.item_index.specs.Ahead.{at_place, one_at, touched, touched_before, written};
ghost use Rattle.item_index.specs.Ahead.{written_before};
ghost use Rattle.item_index.specs.Touching as touching;
ghost use Rattle.world_parts.specs.Items as items;
ghost use Rattle.world_parts.specs.Uses.{item_meant};

use crate::ahead::Ahead;
use world_parts::{Footprint, Item, Use, any_writes_some, touches_item, writes_item};

/// Of no more uses each is asked for one by one.
const MANY: usize = 64;

/// To ask for so few one by one costs no more than to walk the may-access sets for all of them.
const FEW: usize = 4;

/// The may-access sets that a place is behind.
#[derive(Clone, Copy)]
pub struct Behind<'a> {
    pub(crate) ahead: &'a Ahead,
    /// Those of the may-access sets in the index that are meant; with none, all of them.
    pub(crate) among: Option<Among<'a>>,
}

/// The may-access sets that a table has of some places.
#[derive(Clone, Copy)]
pub(crate) struct Among<'a> {
    pub(crate) places: &'a [u32],
    pub(crate) reaches: &'a [Option<Footprint>],
}

impl<'a> Behind<'a> {
    /// All that were added.
    #[tactic(auto, unfolding(crate::specs::Ahead::written_before, crate::specs::Ahead::touched_before))]
    pub fn all(ahead: &'a Ahead) -> Self
        ensures written { (x : items.Item) → written_before result x ≡ written ahead.now x }
        ensures touched { (x : items.Item) → touched_before result x ≡ touched ahead.now x }
    {
        Behind { ahead, among: None }
    }

    /// Of those that were added, the ones that a table has of these places.
    #[tactic(auto, unfolding(crate::specs::Ahead::written_before, crate::specs::Ahead::touched_before))]
    pub fn among(ahead: &'a Ahead, places: &'a [u32], reaches: &'a [Option<Footprint>]) -> Self
        ensures written { (x : items.Item) → written_before result x ≡ (written ahead.now x
            && one_at reaches.now places.now (λ f. touching.writes_item f x)) }
        ensures touched { (x : items.Item) → touched_before result x ≡ (touched ahead.now x
            && one_at reaches.now places.now (λ f. touching.touches_item f x)) }
    {
        Behind {
            ahead,
            among: Some(Among { places, reaches }),
        }
    }

    /// Whether one of the may-access sets writes a part of an item.
    #[tactic(auto, unfolding(crate::specs::Ahead::written_before))]
    pub fn writes(&self, item: &Item) -> bool
        ensures { result ≡ written_before self.now (item_meant item.now) }
    {
        if !self.ahead.writes(item) {
            return false;
        }
        match self.among {
            Some(among) => among.writes(item),
            None => true,
        }
    }

    /// Whether one of the may-access sets has a part of an item.
    #[tactic(auto, unfolding(crate::specs::Ahead::touched_before))]
    fn touches(&self, item: &Item) -> bool
        ensures { result ≡ touched_before self.now (item_meant item.now) }
    {
        if !self.ahead.touches(item) {
            return false;
        }
        match self.among {
            Some(among) => among.touches(item),
            None => true,
        }
    }

    /// Whether one of the may-access sets writes a part of some item of an access set.
    pub fn meets(&self, footprint: &Footprint) -> bool
        ensures { result ≡ list_any (λ u. written_before self.now u.item) footprint.now }
    {
        self.meets_one(footprint.uses())
    }

    fn meets_one(&self, uses: &[Use]) -> bool
        ensures { result ≡ list_any (λ u. written_before self.now (item_meant u.item)) uses.now }
    {
        self.first_of(uses).is_some()
    }

    /// How many uses of an access set come before the first whose item one of the may-access sets
    /// writes, if there is one.
    pub fn first_met(&self, footprint: &Footprint) -> Option<usize>
        ensures first { result
            ≡ position_from (λ u. written_before self.now u.item) 0 footprint.now }
        ensures fits { IfSome result (λ n. n < usize.MAX) }
    {
        self.first_of(footprint.uses())
    }

    fn first_of(&self, uses: &[Use]) -> Option<usize>
        ensures first { result
            ≡ position_from (λ u. written_before self.now (item_meant u.item)) 0 uses.now }
        ensures fits { IfSome result (λ n. n < usize.MAX) }
    {
        if self.has_many(uses) {
            self.first_by_halves(uses)
        } else {
            self.first_one_by_one(uses)
        }
    }

    /// Whether there are many uses, and some may-access set in the index writes the items of more
    /// than a few. Then it costs least to walk the may-access sets for all of these uses at once.
    fn has_many(&self, uses: &[Use]) -> bool {
        let written = uses.iter().filter(|used| self.ahead.writes(&used.item));
        self.among.is_some() && uses.len() > MANY && written.count() > FEW
    }

    /// The same by walks over the may-access sets: where they write something of some uses, each
    /// half of these is looked at by itself.
    fn first_by_halves(&self, uses: &[Use]) -> Option<usize>
        ensures first { result
            ≡ position_from (λ u. written_before self.now (item_meant u.item)) 0 uses.now }
        ensures fits { IfSome result (λ n. n < length uses.now) }
    {
        if uses.len() <= FEW {
            return self.first_one_by_one(uses);
        }
        if self.are_clear(uses) {
            return None;
        }
        let (first, rest) = uses.split_at(uses.len() / 2);
        if let Some(index) = self.first_by_halves(first) {
            return Some(index);
        }
        let index = self.first_by_halves(rest)?;
        Some(first.len() + index)
    }

    /// Whether a walk over the may-access sets shows that none writes a part of the item of one of
    /// some uses.
    fn are_clear(&self, uses: &[Use]) -> bool
        ensures { result ≡ true
            → list_any (λ u. written_before self.now (item_meant u.item)) uses.now ≡ false }
    {
        match self.among {
            Some(among) => !among.writes_some(uses),
            None => false,
        }
    }

    fn first_one_by_one(&self, uses: &[Use]) -> Option<usize>
        ensures first { result
            ≡ position_from (λ u. written_before self.now (item_meant u.item)) 0 uses.now }
        ensures fits { IfSome result (λ n. n < length uses.now) }
    {
        uses.iter().position(|used| self.writes(&used.item))
    }

    /// Whether an access set collides with one of the may-access sets.
    pub fn collides(&self, footprint: &Footprint) -> bool
        ensures { result ≡ list_any (λ u. if u.written then touched_before self.now u.item
            else written_before self.now u.item) footprint.now }
    {
        self.collides_one(footprint.uses())
    }

    fn collides_one(&self, uses: &[Use]) -> bool
        ensures { result ≡ list_any (λ u. if u.written
            then touched_before self.now (item_meant u.item)
            else written_before self.now (item_meant u.item)) uses.now }
    {
        if self.meets_one(uses) {
            uses.iter().any(|used| self.collides_at(used))
        } else {
            self.any_written_meets(uses)
        }
    }

    /// Whether one of the may-access sets has a part of the item of a written one of some uses.
    fn any_written_meets(&self, uses: &[Use]) -> bool
        ensures { result ≡ list_any (λ u. u.written
            && touched_before self.now (item_meant u.item)) uses.now }
    {
        uses.iter()
            .any(|used| used.written && self.touches(&used.item))
    }

    fn collides_at(&self, used: &Use) -> bool
        ensures { result ≡ (if used.now.written
            then touched_before self.now (item_meant used.now.item)
            else written_before self.now (item_meant used.now.item)) }
    {
        if used.written {
            self.touches(&used.item)
        } else {
            self.writes(&used.item)
        }
    }
}

impl Among<'_> {
    /// Whether one of the may-access sets writes a part of the item of one of some uses.
    fn writes_some(&self, uses: &[Use]) -> bool
        ensures { result ≡ one_at self.now.reaches.now self.now.places.now
            (λ f. list_any (λ u. touching.writes_item f (item_meant u.item)) uses.now) }
    {
        one_writes_some(self.places, self.reaches, uses)
    }

    /// Whether one of the may-access sets writes a part of an item: most often the latest does.
    fn writes(&self, item: &Item) -> bool
        ensures { result ≡ one_at self.now.reaches.now self.now.places.now
            (λ f. touching.writes_item f (item_meant item.now)) }
    {
        one_writes(self.places, self.reaches, item)
    }

    /// Whether one of the may-access sets has a part of an item: most often the latest does.
    fn touches(&self, item: &Item) -> bool
        ensures { result ≡ one_at self.now.reaches.now self.now.places.now
            (λ f. touching.touches_item f (item_meant item.now)) }
    {
        one_touches(self.places, self.reaches, item)
    }
}

fn one_writes(places: &[u32], reaches: &[Option<Footprint>], item: &Item) -> bool
    ensures { result ≡ one_at reaches.now places.now
        (λ f. touching.writes_item f (item_meant item.now)) }
{
    places
        .iter()
        .rev()
        .any(|place| writes_at(reaches, *place, item))
}

fn one_writes_some(places: &[u32], reaches: &[Option<Footprint>], uses: &[Use]) -> bool
    ensures { result ≡ one_at reaches.now places.now
        (λ f. list_any (λ u. touching.writes_item f (item_meant u.item)) uses.now) }
{
    places
        .iter()
        .rev()
        .any(|place| writes_some_at(reaches, *place, uses))
}

fn one_touches(places: &[u32], reaches: &[Option<Footprint>], item: &Item) -> bool
    ensures { result ≡ one_at reaches.now places.now
        (λ f. touching.touches_item f (item_meant item.now)) }
{
    places
        .iter()
        .rev()
        .any(|place| touches_at(reaches, *place, item))
}

/// Whether the may-access set of a place writes a part of an item.
fn writes_at(reaches: &[Option<Footprint>], place: u32, item: &Item) -> bool
    ensures { result ≡ at_place (λ f. touching.writes_item f (item_meant item.now))
        (slice_get reaches.now place) }
{
    match reaches.get(place as usize) {
        Some(Some(reach)) => writes_item(reach, item),
        _ => false,
    }
}

/// Whether the may-access set of a place writes a part of the item of one of some uses.
fn writes_some_at(reaches: &[Option<Footprint>], place: u32, uses: &[Use]) -> bool
    ensures { result ≡ at_place (λ f. list_any (λ u.
        touching.writes_item f (item_meant u.item)) uses.now) (slice_get reaches.now place) }
{
    match reaches.get(place as usize) {
        Some(Some(reach)) => writes_some(reach, uses),
        _ => false,
    }
}

/// Whether an access set writes a part of the item of one of some uses. It takes no memory.
pub fn writes_some(footprint: &Footprint, uses: &[Use]) -> bool
    ensures { result ≡ list_any (λ u. touching.writes_item footprint.now (item_meant u.item))
        uses.now }
{
    any_writes_some(footprint.uses(), uses)
}

/// Whether the may-access set of a place has a part of an item.
fn touches_at(reaches: &[Option<Footprint>], place: u32, item: &Item) -> bool
    ensures { result ≡ at_place (λ f. touching.touches_item f (item_meant item.now))
        (slice_get reaches.now place) }
{
    match reaches.get(place as usize) {
        Some(Some(reach)) => touches_item(reach, item),
        _ => false,
    }
}
