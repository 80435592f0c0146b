//! The names so far.
ghost use Rattle.std.specs.Prelude.{◌≡◌, ◌==◌, ◌||◌, OnOk, IfOk, is_some};
ghost use Rattle.std.specs.Prelude.{unwrap_or, false, length, List};
ghost use Rattle.trace_format.specs.Names.{kind_at, AddsName};
ghost use Rattle.trace_records.specs.declared.start.Item.{Item};
ghost use Rattle.trace_records.specs.Names.{KnowsNames};
ghost use Rattle.trace_records.specs.Read.{Gives};
ghost use Rattle.trace_records.specs.Sources.{reading_from, with_rest};
ghost use Rattle.trace_records.specs.Start.{new_path};

use crate::fault::{ReadError, refused};
use crate::paths::{is_path, parent_of};
use crate::source::{Source, bytes_of, copied, u16_of};
use std::alloc::{AllocError, Global};
use std::collections::BTreeMap;
use trace_format::{Blob, Kind};

/// Names, as bytes of the text, and whether each is a directory's.
pub(crate) type Names<'a> = BTreeMap<&'a [u8], bool>;

fn has_name(names: &Names<'_>, path: &[u8]) -> bool
    ensures { result ≡ is_some (kind_at names.now path.now) }
{
    names.contains_key(path)
}

/// Whether the directory is there, the root with the empty path too.
fn has_directory(names: &Names<'_>, path: &[u8]) -> bool
    ensures { result ≡ (length path.now == 0 || unwrap_or (kind_at names.now path.now) false) }
{
    path.is_empty() || names.get(path).copied().unwrap_or(false)
}

/// One name more.
pub(crate) fn add_name<'a>(
    names: &mut Names<'a>,
    path: &'a [u8],
    is_directory: bool,
) -> Result<(), AllocError>
    ensures { OnOk result (AddsName names.old names.new path.now is_directory) }
{
    names.insert(path, is_directory)?;
    Ok(())
}

/// A new name in a directory that is there, and its bytes in the text.
#[tactic(auto, unfolding(crate::specs::Start::new_path))]
pub(crate) fn path_of<'a>(
    alloc: Global,
    names: &Names<'_>,
    source: Source<'a>,
) -> Result<(Blob, &'a [u8], Source<'a>), ReadError>
    ensures read { (items : List Item) → KnowsNames names.now items
        → Gives (λ x. with_rest (x.0, x.2)) result
        (reading_from source.entry (new_path items)) }
    ensures bytes { IfOk result (λ x. x.0 ≡ x.1.now) }
    ensures fresh { IfOk result (λ x. is_some (kind_at names.now x.1.now) ≡ false) }
{
    let (len, source) = u16_of(source)?;
    let place = source.place;
    let (bytes, source) = bytes_of(source, len as usize)?;
    if !is_path(bytes) {
        return Err(refused(Kind::Path, place));
    }
    if !has_directory(names, parent_of(bytes)) {
        return Err(refused(Kind::NoParent, place));
    }
    if has_name(names, bytes) {
        return Err(refused(Kind::Exists, place));
    }
    Ok((copied(alloc, bytes)?, bytes, source))
}
