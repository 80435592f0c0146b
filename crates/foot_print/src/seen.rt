//! What decides which items an operation uses, and what that leads to.
ghost use Rattle.std.specs.Prelude.{◌≡◌, ◌++◌, IfOk, None, OnOk};
ghost use Rattle.file_tree.specs.Walk.{walk};
ghost use Rattle.entry_checks.specs.Meant.{path_meant};
ghost use Rattle.foot_print.specs.Shapes.{shape_meant};
ghost use Rattle.foot_print.specs.Footprint.{look_reads, path_reads};
ghost use Rattle.op_meaning.specs.Site.{site_meant};
ghost use Rattle.op_meaning.specs.Lookups.{found_meant};
ghost use Rattle.op_meaning.specs.Meaning.{found};
ghost use Rattle.op_meaning.specs.Shape.{look};

use crate::file_rows::file_seen;
use crate::path_rows::names_seen;
use crate::shape::Shape;
use entry_checks::PathAt;
use op_meaning::{Lookup, Site};
use std::alloc::{AllocError, Global};
use world_parts::{Footprint, State};

/// Looks up what decides which items an operation of a shape uses, and reads it: slots,
/// descriptors, open file descriptions and names. Gives what they lead to.
pub(crate) fn shape_seen<'a>(
    alloc: Global,
    site: Site<'_>,
    shape: Shape<'a>,
    state: &State,
    footprint: &mut Footprint,
) -> Result<Lookup<'a>, AllocError>
    ensures seen { OnOk result (footprint.new ≡ footprint.old
        ++ look_reads (site_meant site.entry) state.now
        (look (shape_meant shape.entry))) }
    ensures found { IfOk result (λ x. found_meant state.now x ≡ found
        (site_meant site.entry) state.now (look (shape_meant shape.entry))) }
{
    match shape {
        Shape::Idle
        | Shape::Looking { .. }
        | Shape::Closing { .. }
        | Shape::Holding { .. }
        | Shape::HoldingCopy { .. }
        | Shape::HoldingOther { .. } => Ok(Lookup::Nothing),
        Shape::Moving { file, .. }
        | Shape::Allocating { file, .. }
        | Shape::Resizing { file, .. }
        | Shape::Seeking { file } => { Ok(Lookup::File(file_seen(site, file, state, footprint)?)) }
        Shape::Opening { path, .. }
        | Shape::Measuring { path }
        | Shape::Making { path }
        | Shape::Freeing { path, .. }
        | Shape::HoldingPath { path, .. } => {
            Ok(Lookup::Path(names_seen(alloc, path, state, footprint)?))
        }
        Shape::Linking { old, new } => paths_seen(alloc, old, new, state, footprint),
        Shape::Renaming { old, new } => paths_seen(alloc, old, new, state, footprint),
    }
}

/// Reads the names that the walks of two paths look up. Gives where both lead.
fn paths_seen<'a>(
    alloc: Global,
    old: PathAt<'a>,
    new: PathAt<'a>,
    state: &State,
    footprint: &mut Footprint,
) -> Result<Lookup<'a>, AllocError>
    ensures seen { OnOk result (footprint.new ≡ footprint.old
        ++ path_reads state.now (path_meant old.entry)
        ++ path_reads state.now (path_meant new.entry)) }
    ensures found { IfOk result (λ x. found_meant state.now x ≡ record {
      file = None;
      place = walk state.now.nodes (path_meant old.entry);
      new_place = walk state.now.nodes (path_meant new.entry);
    }) }
{
    let from = names_seen(alloc, old, state, footprint)?;
    let to = names_seen(alloc, new, state, footprint)?;
    Ok(Lookup::Paths(from, to))
}
