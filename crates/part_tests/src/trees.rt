//! Directories and files.

use file_tree::{Kind, Tree};
use indexmap::IndexSet;
use std::alloc::{AllocError, Global};
use std::test::Fail;

/// The file `/a` is node 1, the directories `/d` and `/d/e` are nodes 2 and 3, and the file `/d/f`
/// is node 4. The tree is in a box: a test that owns one is proved in less time.
fn small_tree(alloc: Global) -> Result<Box<Tree>, AllocError> {
    let mut tree = Box::new(alloc, Tree::new(alloc)?)?;
    add_small_tree(alloc, &mut tree)?;
    Ok(tree)
}

fn add_small_tree(alloc: Global, tree: &mut Tree) -> Result<(), AllocError> {
    tree.add_node(alloc, 1, Kind::File)?;
    tree.add_node(alloc, 2, Kind::Directory)?;
    tree.add_node(alloc, 3, Kind::Directory)?;
    tree.add_node(alloc, 4, Kind::File)?;
    tree.set_name(alloc, 0, b"a", Some(1))?;
    tree.set_name(alloc, 0, b"d", Some(2))?;
    tree.set_name(alloc, 2, b"e", Some(3))?;
    tree.set_name(alloc, 2, b"f", Some(4))
}

/// Whether a read of a file's bytes up to one gives these.
fn reads(
    alloc: Global,
    tree: &Tree,
    node: u32,
    end: u64,
    bytes: &[u8],
) -> Result<bool, AllocError> {
    Ok(tree.read(alloc, node, 0, end)?.as_slice() == bytes)
}

/// Whether what is shared of a file is what is cut out of it, and a directory has no bytes to cut.
fn shares_what_is_cut(alloc: Global, tree: &mut Tree) -> Result<bool, AllocError> {
    tree.write(2, 0, b"abcdef")?;
    tree.write(1, 0, b"abcdef")?;
    let of_directory = tree.cut(alloc, 2, 1, 4)?.len();
    let shared = tree.share(alloc, 1, 1, 4)?;
    let alike = tree.cut(alloc, 1, 1, 4)?.same(&shared);
    Ok(alike && of_directory == 0)
}

/// Whether a part that is cut out leaves zeros, and can be put back elsewhere.
fn part_moves(alloc: Global, tree: &mut Tree) -> Result<bool, AllocError> {
    let part = tree.cut(alloc, 1, 4, 9)?;
    let zeros_left = reads(alloc, tree, 1, 9, b"a\0\0\0\0\0")?;
    if 1 + part.len() > tree.size(1).unwrap_or(0) {
        return Ok(false);
    }
    tree.put_back(1, 1, part)?;
    Ok(zeros_left && reads(alloc, tree, 1, 6, b"aef\0\0\0")?)
}

/// Whether parts of a file are shared, cut out and put back.
fn parts_are_taken(alloc: Global, tree: &mut Tree) -> Result<bool, AllocError> {
    Ok(shares_what_is_cut(alloc, tree)? && part_moves(alloc, tree)?)
}

#[test]
fn parts_of_files(rt: HostRuntime) -> Result<(), Fail> {
    let mut tree = small_tree(rt.alloc())?;
    assert!(rt; parts_are_taken(rt.alloc(), &mut tree)?);
    Ok(())
}

/// Names that begin alike, from the last one back: one, of 17 bytes down to 14, of two and one.
const ALIKE: [(&[u8], u32); 7] = [
    (b"b", 6),
    (b"aaaaaaaaaaaaaaaaa", 5),
    (b"aaaaaaaaaaaaaaaa", 4),
    (b"aaaaaaaaaaaaaaa", 3),
    (b"aaaaaaaaaaaaaa", 2),
    (b"a\0", 1),
    (b"a", 0),
];

/// Whether a directory lists these names in that order, and a file none.
fn lists_alike(tree: &Tree) -> bool {
    let Some(names) = tree.names(3) else {
        return false;
    };
    let mut listed = names.descending();
    for name in ALIKE {
        if listed.next() != Some(name) {
            return false;
        }
    }
    listed.next().is_none() && names.len() == 7 && tree.names(1).is_none()
}

/// Whether a directory that is given these names lists them, but for one that goes.
fn alike_are_listed(alloc: Global, tree: &mut Tree) -> Result<bool, AllocError> {
    for (name, node) in ALIKE {
        tree.set_name(alloc, 3, name, Some(node))?;
    }
    tree.set_name(alloc, 3, b"aaa", Some(7))?;
    tree.set_name(alloc, 3, b"aaa", None)?;
    Ok(lists_alike(tree))
}

#[test]
fn names_that_begin_alike(rt: HostRuntime) -> Result<(), Fail> {
    let mut tree = small_tree(rt.alloc())?;
    assert!(rt; alike_are_listed(rt.alloc(), &mut tree)?);
    Ok(())
}

/// Whether nodes are found whose numbers lie far apart, also where one has gone and come again: a
/// node goes without its name, and a directory with the names in it.
fn finds_far_nodes(alloc: Global, tree: &mut Tree) -> Result<bool, AllocError> {
    tree.add_node(alloc, 4_000_000_000, Kind::Directory)?;
    tree.remove_node(1);
    tree.remove_node(9);
    let gone = tree.kind(1).is_none() && tree.name(0, b"a") == Some(1) && tree.node_count() == 5;
    tree.add_node(alloc, 1, Kind::Directory)?;
    let far = tree.kind(4_000_000_000) == Some(Kind::Directory);
    let again = tree.kind(1) == Some(Kind::Directory) && tree.kind(4) == Some(Kind::File);
    tree.remove_node(2);
    let with_names = tree.name(2, b"f").is_none() && tree.kind(3) == Some(Kind::Directory);
    Ok(gone && far && again && with_names && tree.node_count() == 5)
}

#[test]
fn nodes_far_apart(rt: HostRuntime) -> Result<(), Fail> {
    let mut tree = small_tree(rt.alloc())?;
    assert!(rt; finds_far_nodes(rt.alloc(), &mut tree)?);
    Ok(())
}

/// Whether trees are equal just where their bytes and names are, and where a directory lists as
/// many names that aren't shown.
fn changes_tell(alloc: Global, tree: &mut Tree, other: &Tree) -> Result<bool, AllocError> {
    let alike = tree.same(other);
    tree.write(4, 0, b"x")?;
    let unlike_bytes = !tree.same(other);
    tree.set_size(4, 0)?;
    let alike_again = tree.same(other);
    tree.set_name(alloc, 3, b"g", Some(4))?;
    let unlike_names = !tree.same(other);
    tree.add_listing(alloc, 3, 1)?;
    let unlike_listings = !tree.same(other);
    tree.add_listing(alloc, 3, 0)?;
    let told_apart = unlike_bytes && unlike_names && unlike_listings;
    Ok(alike && alike_again && told_apart && tree.same(other))
}

/// Whether the middle of one tree's file lies over that of the other's in the same place.
fn copies_the_middle(
    alloc: Global,
    source: &mut Tree,
    tree: &mut Tree,
) -> Result<bool, AllocError> {
    source.write(1, 0, b"abcdef")?;
    tree.write(1, 0, b"ABCDEF")?;
    if source.size(1) != Some(6) || tree.size(1) != Some(6) {
        return Ok(false);
    }
    tree.copy_range(source, 1, 2, 4)?;
    reads(alloc, tree, 1, 6, b"ABcdEF")
}

/// Both of two trees that are the same.
fn told_and_copied(alloc: Global, tree: &mut Tree, other: &mut Tree) -> Result<bool, AllocError> {
    Ok(changes_tell(alloc, tree, other)? && copies_the_middle(alloc, other, tree)?)
}

#[test]
fn same_trees_and_copied_ranges(rt: HostRuntime) -> Result<(), Fail> {
    let mut tree = small_tree(rt.alloc())?;
    let mut other = small_tree(rt.alloc())?;
    assert!(rt; told_and_copied(rt.alloc(), &mut tree, &mut other)?);
    Ok(())
}

/// Whether the names of directories are counted, also those that aren't shown, as far as there are
/// numbers.
fn names_are_counted(alloc: Global, tree: &mut Tree) -> Result<bool, AllocError> {
    let of_these = tree.name_count(2)? == Some(2) && tree.name_count(4)?.is_none();
    tree.add_listing(alloc, 6, usize::MAX)?;
    tree.set_name(alloc, 6, b"b", Some(1))?;
    let too_many = tree.name_count(6).is_err();
    tree.add_listing(alloc, 5, 2)?;
    let is_full = tree.kind(5) == Some(Kind::Directory) && !tree.is_empty(5);
    Ok(of_these && too_many && is_full && tree.name_count(5)? == Some(2))
}

/// Whether two names of a directory are shown without being added, and it is empty without both.
fn shown_names_go(alloc: Global, tree: &mut Tree) -> Result<bool, AllocError> {
    tree.show_name(alloc, 5, b"b", 1)?;
    tree.show_name(alloc, 5, b"c", 4)?;
    let shown = tree.name(5, b"b") == Some(1) && tree.name_count(5)? == Some(2);
    tree.set_name(alloc, 5, b"b", None)?;
    let one_left = !tree.is_empty(5);
    tree.set_name(alloc, 5, b"c", None)?;
    Ok(shown && one_left && tree.is_empty(5))
}

/// Both of the small tree.
fn listings_are_counted(alloc: Global, tree: &mut Tree) -> Result<bool, AllocError> {
    Ok(names_are_counted(alloc, tree)? && shown_names_go(alloc, tree)?)
}

#[test]
fn counts_of_names(rt: HostRuntime) -> Result<(), Fail> {
    let mut tree = small_tree(rt.alloc())?;
    assert!(rt; listings_are_counted(rt.alloc(), &mut tree)?);
    Ok(())
}

/// Whether the three nodes that a name leads to are marked, once a fourth lost its name, and these
/// and the root stay alone.
fn named_nodes_stay(alloc: Global, tree: &mut Tree) -> Result<bool, AllocError> {
    tree.set_name(alloc, 2, b"f", None)?;
    let mut marks = IndexSet::new(alloc);
    tree.mark_named(&mut marks)?;
    let three = marks.contains(&1) && marks.contains(&2) && marks.contains(&3);
    let no_other = !marks.contains(&0) && !marks.contains(&4);
    marks.insert(0)?;
    tree.keep_only(&marks);
    let stay = tree.kind(0).is_some() && tree.name(2, b"e") == Some(3) && tree.kind(3).is_some();
    Ok(three && no_other && stay && tree.kind(4).is_none() && tree.node_count() == 4)
}

#[test]
fn nodes_without_names_go(rt: HostRuntime) -> Result<(), Fail> {
    let mut tree = small_tree(rt.alloc())?;
    assert!(rt; named_nodes_stay(rt.alloc(), &mut tree)?);
    Ok(())
}
