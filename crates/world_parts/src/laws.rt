//! Laws of worlds and of access sets.
ghost use Rattle.world_parts.specs.Laws.{AtomsMakeTheWorld, CollideDecides};
ghost use Rattle.world_parts.specs.Paths.{ListsEachPathOnce, ListsItsPaths, StartsHaveFileNames};

/// Two worlds in which all items have equal values are equal.
pub fn values_make_the_world()
    ensures { AtomsMakeTheWorld }
{}

/// Two access sets collide exactly where they share an item, of a range a byte, that one of them
/// writes.
pub fn collide_decides()
    ensures { CollideDecides }
{}

/// An image lists each path once.
pub fn paths_are_listed_once()
    ensures { ListsEachPathOnce }
{}

/// An image lists a path with a node exactly where the path is full and its walk leads to that
/// node.
pub fn image_lists_its_paths()
    ensures { ListsItsPaths }
{}

/// The world that a trace starts with has names of files alone.
pub fn starts_have_file_names()
    ensures { StartsHaveFileNames }
{}
