//! The steps of a walk, after path_resolution(7).
ghost use Rattle.std.specs.Prelude.{◌≡◌, ◌∷◌, [], Err, IfErr, IfOk, Ok};
ghost use Rattle.std.specs.Option.{option_copied, option_map_or};
ghost use Rattle.trace_format.specs.Paths.{components};
ghost use Rattle.file_tree.specs.Found.{walk_meant};
ghost use Rattle.file_tree.specs.Steps.{come_to, step, steps_left};
ghost use Rattle.file_tree.specs.Steps as steps;
ghost use Rattle.file_tree.specs.Tree as tree;

use crate::names::Names;
use crate::tree::Tree;
use crate::walk::{LONGEST_NAME, Place, starts_at_root};
use sqe_codec::Errno;

/// Where a walk has come to.
#[derive(Clone, Copy)]
pub(crate) enum Reached {
    /// Nowhere: its path does not start at the root.
    Nowhere,
    Root,
    /// What its last name leads to, if there is such a name.
    Node(Option<u32>),
}

/// The steps of a walk: for each name of a path in turn the place that it leads to, as far as the
/// walk gets.
///
/// # Errors
///
/// Those of path_resolution(7), the last that is yielded: EBADF for a relative path at a directory
/// that is not served, ENOENT behind a name that is missing, ENOTDIR behind one that leads to a
/// file, and ENAMETOOLONG for a name of more than 255 bytes.
#[derive(Drop)]
pub struct Steps<'a, 't> {
    tree: &'t Tree,
    reached: Reached,
    rest: &'a [u8],
}

impl Tree {
    /// The steps of the walk of a path, as [`Tree::walk`] says.
    pub fn steps<'a, 't>(&'t self, directory: i32, path: &'a [u8]) -> Steps<'a, 't>
        ensures same { result.tree.now ≡ self.now }
        ensures left { steps_left result
            ≡ steps.steps self.now (record { directory = directory; text = path.now }) }
    {
        let reached = if starts_at_root(directory, path) {
            Reached::Root
        } else {
            Reached::Nowhere
        };
        Steps {
            tree: self,
            reached,
            rest: path,
        }
    }
}

/// The first name of a path, and what comes behind it.
fn first_name(path: &[u8]) -> Option<(&[u8], &[u8])>
    ensures { components path.now
        ≡ option_map_or (λ p. p.0.now ∷ components p.1.now) result [] }
{
    let start = path.iter().position(|b| *b != b'/')?;
    let (_, named) = path.split_at(start);
    let end = named.iter().position(|b| *b == b'/').unwrap_or(named.len());
    Some(named.split_at(end))
}

impl<'a, 't> Steps<'a, 't> {
    /// The directory that the walk has come to, with its names, which only the root may lack.
    fn directory(&self) -> Result<(u32, Option<&'t Names>), Errno>
        ensures number { IfOk result (λ d. Ok d.0 ≡ come_to self.now.tree.now self.now.reached) }
        ensures names { IfOk result (λ d. option_copied d.1 ≡ tree.names self.now.tree.now d.0) }
        ensures error { IfErr result (λ e. Err e ≡ come_to self.now.tree.now self.now.reached) }
    {
        let node = match self.reached {
            Reached::Nowhere => return Err(Errno::EBADF),
            Reached::Root => return Ok((0, self.tree.names(0))),
            Reached::Node(None) => return Err(Errno::ENOENT),
            Reached::Node(Some(node)) => node,
        };
        match self.tree.names(node) {
            Some(names) => Ok((node, Some(names))),
            None => Err(Errno::ENOTDIR),
        }
    }

    /// Looks a name up in the directory that the walk has come to.
    fn look_up(&self, name: &'a [u8]) -> Result<Place<'a>, Errno>
        ensures { walk_meant self.now.tree.now result
            ≡ step self.now.tree.now (come_to self.now.tree.now self.now.reached) name.now }
    {
        let (parent, names) = self.directory()?;
        if name.len() > LONGEST_NAME {
            return Err(Errno::ENAMETOOLONG);
        }
        let node = names.and_then(|names| names.get(name));
        Ok(Place { parent, name, node })
    }

    /// No further step is to come.
    fn end(&mut self)
        ensures none { steps_left self.new ≡ [] }
        ensures same { self.new.tree.now ≡ self.old.tree.now }
    {
        self.reached = Reached::Root;
        self.rest = &self.rest[..0];
    }
}

impl<'a, 't> Iterator for Steps<'a, 't> {
    ghost use Rattle.std.specs.Iterator.{item_count};
    ghost use Rattle.file_tree.specs.Steps.{steps_left, GivesStep};

    type Item = Result<Place<'a>, Errno>;

    ghost next_gives = { GivesStep };

    ghost remaining = { item_count steps_left };

    fn next(&mut self) -> Option<Result<Place<'a>, Errno>> {
        if let Reached::Nowhere = self.reached {
            self.end();
            return Some(Err(Errno::EBADF));
        }
        let (name, rest) = first_name(self.rest)?;
        match self.look_up(name) {
            Ok(place) => {
                self.reached = Reached::Node(place.node);
                self.rest = rest;
                Some(Ok(place))
            }
            Err(error) => {
                self.end();
                Some(Err(error))
            }
        }
    }
}
