//! Which places have used descriptors, in groups that have used them alike.
ghost use Rattle.std.specs.Prelude.{◌≡◌, ◌<◌, ◌&&◌, ◌||◌, ◌++◌, ◌∷◌, ℕ, [], IfOk, MatchOption, OnOk, if◌then◌else◌, length, max, slice_index_or, true};
ghost use Rattle.foot_waits.specs.Groups.{BeginsAt, IsAdded, from_on, latest_between, meets, nothing, told_among, told_in, with_place};
ghost use Rattle.foot_waits.specs.Rule.{descriptor_uses, is_of_descriptors};
ghost use Rattle.use_line.specs.Known.{is_among};
ghost use Rattle.world_parts.specs.Items.{collide};
ghost use Rattle.world_parts.specs.Uses.{item_meant, use_meant};

use std::alloc::{AllocError, Global};
use std::marker::Model;
use world_parts::{Footprint, Item, Use, collide, same_uses, touches_item, writes_item};

/// Places that have used descriptors in one way.
#[derive(Drop)]
struct Group {
    uses: Footprint,
    latest: u32,
    places: Vec<u32>,
}

impl Model for Group {
    ghost use Rattle.foot_waits.specs.Groups.{Grouped};

    ghost Value = { Grouped };

    ghost view = { λ g. (g.uses, g.latest, g.places.items) };
}

impl Group {
    /// A first place that uses descriptors so.
    fn new(alloc: Global, uses: Footprint, place: u32) -> Result<Self, AllocError>
        ensures { IfOk result (λ group. group ≡ (uses, place, place ∷ [])) }
    {
        let mut places = Vec::new(alloc);
        places.push(place)?;
        Ok(Group {
            uses,
            latest: place,
            places,
        })
    }

    /// Adds a place.
    fn add(&mut self, place: u32) -> Result<(), AllocError>
        ensures { OnOk result (self.new ≡ with_place self.old place) }
    {
        self.places.push(place)?;
        self.latest = place;
        Ok(())
    }

    /// Whether a use meets one of the group's where one of both writes.
    fn meets(&self, used: &Use) -> bool
        ensures { result ≡ meets (use_meant used.now) self.now.0 }
    {
        if used.written {
            touches_item(&self.uses, &used.item)
        } else {
            writes_item(&self.uses, &used.item)
        }
    }

    /// The later of a place and the group's latest, where this counts if the group clashes with
    /// both of two access sets.
    fn latest_with(&self, so_far: u32, own: &Footprint, uses: &Footprint) -> u32
        ensures { result ≡ max so_far (if collide own.now self.now.0 && collide self.now.0 uses.now
            then self.now.1 else 0) }
    {
        if self.latest > so_far && collide(own, &self.uses) && collide(&self.uses, uses) {
            self.latest
        } else {
            so_far
        }
    }

    /// Where the last places begin that are all at least a number.
    fn first_from(&self, since: u32) -> usize
        ensures { BeginsAt since self.now.2 result }
    {
        let mut first = self.places.len();
        while first > 0 && self.places[first - 1] >= since {
            first -= 1;
        }
        first
    }

    /// Adds the last places that are all at least a number.
    fn tell(&self, since: u32, told: &mut Vec<u32>) -> Result<(), AllocError>
        ensures { OnOk result ((j : ℕ) → is_among told.new.items j
            ≡ (is_among told.old.items j || is_among (from_on since self.now.2) j)) }
    {
        let first = self.first_from(since);
        told.extend_from_slice(&self.places.as_slice()[first..])?;
        Ok(())
    }
}

/// Who has used descriptors.
///
/// There are few groups, however many places: for each descriptor those that use it, those that
/// close it and those that take it, and one of those that look in vain for a free one. The group
/// with the latest place comes first. A place that takes one clashes with all that take, close or
/// look in vain before it. So it soon tells that none of these are waited for.
#[derive(Drop)]
pub(crate) struct Descriptors {
    groups: Vec<Group>,
}

impl Model for Descriptors {
    ghost use Rattle.std.specs.Prelude.{List};
    ghost use Rattle.foot_waits.specs.Groups.{Grouped};

    ghost Value = { List Grouped };

    ghost view = { λ d. d.groups.items };
}

impl Descriptors {
    /// No place has used any.
    pub(crate) fn new(alloc: Global) -> Self
        ensures { result ≡ [] }
    {
        Descriptors {
            groups: Vec::new(alloc),
        }
    }

    /// The number of a group with such uses.
    fn group_of(&self, uses: &Footprint) -> Option<usize>
        ensures { MatchOption result (Unit {0}) (λ index. (index < length self.now)
            × ((slice_index_or self.now index nothing).0 ≡ uses.now)) }
    {
        for index in 0..self.groups.len() {
            if same_uses(&self.groups[index].uses, uses) {
                return Some(index);
            }
        }
        None
    }

    /// Adds a place that uses descriptors so. The group that it stands in comes first.
    pub(crate) fn add(
        &mut self,
        alloc: Global,
        place: u32,
        uses: Footprint,
    ) -> Result<(), AllocError>
        ensures { OnOk result (IsAdded self.old self.new uses place) }
    {
        if uses.len() == 0 {
            return Ok(());
        }
        match self.group_of(&uses) {
            Some(index) => {
                let mut group = self.groups.remove(index);
                group.add(place)?;
                self.groups.insert(0, group)?;
            }
            None => self.groups.insert(0, Group::new(alloc, uses, place)?)?,
        }
        Ok(())
    }

    /// The latest place that clashes with both of two access sets.
    fn latest_between(&self, own: &Footprint, uses: &Footprint) -> u32
        ensures { result ≡ latest_between own.now uses.now self.now }
    {
        let mut latest = 0;
        for group in &self.groups {
            latest = group.latest_with(latest, own, uses);
        }
        latest
    }

    /// Adds those for whom an access set waits by one of its uses, if that is one of descriptors,
    /// where `own` is all that it uses of them.
    pub(crate) fn tell(
        &self,
        used: &Use,
        own: &Footprint,
        told: &mut Vec<u32>,
    ) -> Result<(), AllocError>
        ensures { OnOk result ((j : ℕ) → is_among told.new.items j ≡ (is_among told.old.items j
            || (is_of_descriptors (item_meant used.now.item)
            && told_among self.now own.now (use_meant used.now) j self.now))) }
    {
        if is_of_descriptors(&used.item) {
            return self.tell_groups(used, own, told);
        }
        Ok(())
    }

    fn tell_groups(
        &self,
        used: &Use,
        own: &Footprint,
        told: &mut Vec<u32>,
    ) -> Result<(), AllocError>
        ensures { OnOk result ((j : ℕ) → is_among told.new.items j ≡ (is_among told.old.items j
            || told_among self.now own.now (use_meant used.now) j self.now)) }
    {
        for group in &self.groups {
            self.tell_group(group, used, own, told)?;
        }
        Ok(())
    }

    /// Whether a group that clashes with an access set and with another group has a later place
    /// than all of that one: then none of these is told. It passes over the rest of the groups.
    fn is_cut(&self, own: &Footprint, group: &Group) -> bool
        ensures { result ≡ true → from_on (latest_between own.now group.now.0 self.now) group.now.2 ≡ [] }
    {
        let Some(last) = group.places.last() else {
            return false;
        };
        let last = *last;
        for other in &self.groups {
            if other.latest_with(last, own, &group.uses) > last {
                return true;
            }
        }
        false
    }

    /// Adds those of one group.
    fn tell_group(
        &self,
        group: &Group,
        used: &Use,
        own: &Footprint,
        told: &mut Vec<u32>,
    ) -> Result<(), AllocError>
        ensures { OnOk result ((j : ℕ) → is_among told.new.items j ≡ (is_among told.old.items j
            || told_in self.now own.now (use_meant used.now) j group.now)) }
    {
        if group.meets(used) && !self.is_cut(own, group) {
            let latest = self.latest_between(own, &group.uses);
            return group.tell(latest, told);
        }
        Ok(())
    }
}

/// What an access set uses of descriptors.
pub(crate) fn descriptor_uses(alloc: Global, footprint: &Footprint) -> Result<Footprint, AllocError>
    ensures { IfOk result (λ uses. uses ≡ descriptor_uses footprint.now) }
{
    let mut uses = Footprint::new(alloc);
    for used in footprint.uses() {
        add_descriptors(&mut uses, used)?;
    }
    Ok(uses)
}

/// Adds a use, if it is one of descriptors.
fn add_descriptors(uses: &mut Footprint, used: &Use) -> Result<(), AllocError>
    ensures { OnOk result (uses.new ≡ uses.old ++ descriptor_uses (use_meant used.now ∷ [])) }
{
    let written = used.written;
    match &used.item {
        Item::Descriptor(number) => uses.push(Use {
            item: Item::Descriptor(*number),
            written,
        }),
        Item::AllDescriptors => uses.push(Use {
            item: Item::AllDescriptors,
            written,
        }),
        _ => Ok(()),
    }
}

/// Whether an item is a descriptor, or all of them.
fn is_of_descriptors(item: &Item) -> bool
    ensures { result ≡ is_of_descriptors (item_meant item.now) }
{
    matches!(item, Item::Descriptor(_) | Item::AllDescriptors)
}
