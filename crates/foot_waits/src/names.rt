//! Numbers of names.
ghost use Rattle.std.specs.Prelude.{◌≡◌, ℕ, List, [], IfOk, OnOk, None, Some};
ghost use Rattle.foot_waits.specs.Names.{AreApart, KeepsNumbers, name_key, number_at};

use indexmap::IndexMap;
use std::alloc::{AllocError, Global};
use std::marker::Model;

/// A number for each of some names of directories.
#[derive(Drop)]
pub(crate) struct Names {
    numbers: IndexMap<Vec<u8>, u64>,
    next: u64,
}

impl Model for Names {
    ghost use Rattle.std.specs.Prelude.{ℕ, List, map};
    ghost use Rattle.foot_waits.specs.Names.{AreNumbered};

    ghost Value = { List (List ℕ × ℕ) };

    ghost view = { λ n. map (λ e. (e.0.items, e.1)) n.numbers.entries };

    ghost invariant = { λ n. AreNumbered (map (λ e. (e.0.items, e.1)) n.numbers.entries) n.next };
}

impl Names {
    pub(crate) fn new(alloc: Global) -> Self
        ensures { result ≡ [] }
    {
        Names {
            numbers: IndexMap::new(alloc),
            next: 0,
        }
    }

    /// The number of a name of a directory, which it gets if it has none.
    pub(crate) fn number(
        &mut self,
        alloc: Global,
        directory: u32,
        name: &[u8],
    ) -> Result<u64, AllocError>
        ensures number { IfOk result (λ number. number_at self.new (name_key directory name.now)
            ≡ Some number) }
        ensures kept { OnOk result (KeepsNumbers self.old self.new) }
    {
        let key = name_key(alloc, directory, name)?;
        match self.number_of(key.as_slice()) {
            Some(number) => Ok(number),
            None => self.add(key),
        }
    }

    /// Gives a key without a number the next one.
    fn add(&mut self, key: Vec<u8>) -> Result<u64, AllocError>
        requires { number_at self.old key.items ≡ None }
        ensures number { IfOk result (λ number. number_at self.new key.items ≡ Some number) }
        ensures kept { OnOk result (KeepsNumbers self.old self.new) }
    {
        let number = self.next;
        let Some(after) = number.checked_add(1) else {
            return Err(AllocError);
        };
        self.numbers.insert(key, number)?;
        self.next = after;
        Ok(number)
    }

    /// The number of a key.
    fn number_of(&self, key: &[u8]) -> Option<u64>
        ensures { result ≡ number_at self.now key.now }
    {
        self.numbers.get(key).copied()
    }

    /// No two names have one number.
    pub(crate) fn are_apart(&self)
        ensures { AreApart self.now }
    {
        let _ = &self.numbers;
    }
}

/// A directory's number in four bytes, and a name.
fn name_key(alloc: Global, directory: u32, name: &[u8]) -> Result<Vec<u8>, AllocError>
    ensures { IfOk result (λ key. key.items ≡ name_key directory name.now) }
{
    let mut key = Vec::with_capacity(alloc, 4)?;
    key.push((directory / 16_777_216) as u8)?;
    key.push((directory / 65_536 % 256) as u8)?;
    key.push((directory / 256 % 256) as u8)?;
    key.push((directory % 256) as u8)?;
    key.extend_from_slice(name)?;
    Ok(key)
}
