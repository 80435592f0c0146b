//! What the file number or the paths of an operation lead to.
ghost use Rattle.std.specs.Prelude.{◌≡◌};
ghost use Rattle.entry_checks.specs.Meant.{file_meant, path_meant};
ghost use Rattle.file_tree.specs.Found.{walk_meant};
ghost use Rattle.file_tree.specs.Walk.{walk};
ghost use Rattle.op_meaning.specs.Handles.{opened_meant};
ghost use Rattle.op_meaning.specs.Site.{site_meant};
ghost use Rattle.op_meaning.specs.Lookups.{file_found, FindsFile, FindsNewPlace, FindsPlace};
ghost use Rattle.op_meaning.specs.Lookups.{new_place_found, place_found, Tells};
ghost use Rattle.op_meaning.specs.Meaning.{handle};

use crate::handles::{OpenFile, open_file};
use crate::site::Site;
use entry_checks::{FileNumber, PathAt};
use file_tree::Place;
use sqe_codec::Errno;
use world_parts::State;

/// What the file number or the paths of an operation lead to in a world, looked up once: what the
/// operation decides by, and uses.
#[derive(Clone, Copy)]
pub enum Lookup<'a> {
    /// Nothing was looked up.
    Nothing,
    /// What is open at its file number, if a file is.
    File(Option<OpenFile>),
    /// Where its path leads, or why nowhere.
    Path(Result<Place<'a>, Errno>),
    /// Where its old path leads, and where its new one.
    Paths(Result<Place<'a>, Errno>, Result<Place<'a>, Errno>),
}

impl<'a> Lookup<'a> {
    /// What is open at a file number, if a file is: what was found there, or where nothing was looked
    /// up what is found now.
    #[inline(always)]
    pub(crate) fn file_at(
        &self,
        site: Site<'_>,
        file: FileNumber,
        state: &State,
    ) -> Option<OpenFile>
        requires { Tells self.now
            (FindsFile (site_meant site) state.now (file_meant file) self.now) }
        ensures { opened_meant state.now result
            ≡ handle (site_meant site.entry) state.now (file_meant file) }
    {
        match self {
            Lookup::File(opened) => *opened,
            _ => open_file(site.trace, site.ring, file, state),
        }
    }

    /// Where a path leads, the old one of two, in the same way.
    ///
    /// # Errors
    ///
    /// Those of the walk.
    #[inline(always)]
    pub(crate) fn place_at(&self, path: PathAt<'a>, state: &State) -> Result<Place<'a>, Errno>
        requires { Tells self.now (FindsPlace state.now (path_meant path) self.now) }
        ensures { walk_meant state.now.nodes result ≡ walk state.now.nodes (path_meant path.entry) }
    {
        match self {
            Lookup::Path(place) | Lookup::Paths(place, _) => *place,
            _ => state.walk(path.directory, path.text),
        }
    }

    /// Where the new path of two leads, in the same way.
    ///
    /// # Errors
    ///
    /// Those of the walk.
    #[inline(always)]
    pub(crate) fn new_place_at(&self, path: PathAt<'a>, state: &State) -> Result<Place<'a>, Errno>
        requires { Tells self.now (FindsNewPlace state.now (path_meant path) self.now) }
        ensures { walk_meant state.now.nodes result ≡ walk state.now.nodes (path_meant path.entry) }
    {
        match self {
            Lookup::Paths(_, place) => *place,
            _ => state.walk(path.directory, path.text),
        }
    }

    /// The file that is open, where one was looked up and is.
    #[inline(always)]
    pub fn file(&self) -> Option<OpenFile>
        ensures { result ≡ file_found self.now }
    {
        match self {
            Lookup::File(opened) => *opened,
            _ => None,
        }
    }

    /// Where the path leads, the old one of two.
    ///
    /// # Errors
    ///
    /// Those of the walk; ENOENT where no path was looked up, as for one without names.
    #[inline(always)]
    pub fn place(&self) -> Result<Place<'a>, Errno>
        ensures { result ≡ place_found self.now }
    {
        match self {
            Lookup::Path(place) | Lookup::Paths(place, _) => *place,
            _ => Err(Errno::ENOENT),
        }
    }

    /// Where the new path of two leads.
    ///
    /// # Errors
    ///
    /// Those of the walk; ENOENT where no two paths were looked up, as for one without names.
    #[inline(always)]
    pub fn new_place(&self) -> Result<Place<'a>, Errno>
        ensures { result ≡ new_place_found self.now }
    {
        match self {
            Lookup::Paths(_, place) => *place,
            _ => Err(Errno::ENOENT),
        }
    }
}
