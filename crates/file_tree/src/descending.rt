//! The names of a directory from the last one back.
ghost use Rattle.std.specs.Prelude.{◌≡◌, [], ◌++◌, map, IfNone};
ghost use Rattle.file_tree.specs.Listed.{as_name, comes_behind, listed, names_in, AreListed};

use crate::short_name::ShortName;
use std::collections::btree_map::Iter;
use std::marker::Model;

/// The names of a directory from the last one back, in the order of their bytes, each with the
/// number of its node. Contracts see those that are left.
#[derive(Drop)]
pub struct Descending<'a> {
    shorts: Iter<'a, ShortName, u32>,
    longs: Iter<'a, Vec<u8>, u32>,
    /// The last short name, which `shorts` has given.
    short: Option<(&'a [u8], u32)>,
    /// The last long name, which `longs` has given.
    long: Option<(&'a [u8], u32)>,
}

impl<'a> Model for Descending<'a> {
    ghost use Rattle.std.specs.Prelude.{◌++◌, map};
    ghost use Rattle.file_tree.specs.Tree.{Names};
    ghost use Rattle.file_tree.specs.Codes.{names_code};
    ghost use Rattle.file_tree.specs.Listed.{as_name, listed, names_in, AreLeft};

    ghost Value = { Names };

    ghost coded = { names_code };

    ghost view = { λ d. names_in (d.shorts ++ listed d.short) (map as_name d.longs ++ listed d.long) };

    ghost invariant = { λ d. AreLeft d.shorts d.short (map as_name d.longs) d.long };
}

/// Takes the last short name.
fn last_short<'a>(names: &mut Iter<'a, ShortName, u32>) -> Option<(&'a [u8], u32)>
    ensures taken { names.old ≡ names.new ++ listed result }
    ensures none { IfNone result (names.new ≡ []) }
{
    let (name, node) = names.next_back()?;
    Some((name.as_slice(), *node))
}

/// Takes the last long name.
fn last_long<'a>(names: &mut Iter<'a, Vec<u8>, u32>) -> Option<(&'a [u8], u32)>
    ensures taken { map as_name names.old ≡ map as_name names.new ++ listed result }
    ensures none { IfNone result (map as_name names.new ≡ []) }
{
    let (name, node) = names.next_back()?;
    Some((name.as_slice(), *node))
}

/// Whether the first of two names is there, and comes behind the second or alone.
fn comes_behind(name: Option<(&[u8], u32)>, other: Option<(&[u8], u32)>) -> bool
    ensures { result ≡ comes_behind name.entry other.entry }
{
    match (name, other) {
        (Some((name, _)), Some((other, _))) => name.cmp(other).is_gt(),
        (name, _) => name.is_some(),
    }
}

impl<'a> Descending<'a> {
    /// The names of both maps.
    pub(crate) fn new(
        mut shorts: Iter<'a, ShortName, u32>,
        mut longs: Iter<'a, Vec<u8>, u32>,
    ) -> Descending<'a>
        requires { AreListed shorts (map as_name longs) }
        ensures { result ≡ names_in shorts.entry (map as_name longs.entry) }
    {
        let short = last_short(&mut shorts);
        let long = last_long(&mut longs);
        Descending {
            shorts,
            longs,
            short,
            long,
        }
    }
}

impl<'a> Iterator for Descending<'a> {
    ghost use Rattle.std.specs.Iterator.{at_most};
    ghost use Rattle.finite_maps.specs.Table.{count};
    ghost use Rattle.file_tree.specs.Listed.{TakesLast};

    type Item = (&'a [u8], u32);

    ghost next_gives = { TakesLast };

    ghost remaining = { λ names. at_most (count names) };

    fn next(&mut self) -> Option<(&'a [u8], u32)> {
        if comes_behind(self.short, self.long) {
            let given = self.short;
            self.short = last_short(&mut self.shorts);
            given
        } else {
            let given = self.long;
            self.long = last_long(&mut self.longs);
            given
        }
    }
}
