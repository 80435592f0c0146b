//! Two reports from readers, and where they differ to a writer.
ghost use Rattle.std.specs.Prelude.{◌≡◌, ◌+◌, ◌-◌, ◌<◌, ◌^◌, ◌⊎◌, ℕ, IfErr, IfOk, List, OnOk};
ghost use Rattle.std.specs.Prelude.{[], Option, false};
ghost use Rattle.byte_transfer.specs.Transfer.{Takes};
ghost use Rattle.diff_stream.specs.Compared.{WritesComparison, WritesUpTo};
ghost use Rattle.diff_stream.specs.Faults.{IsOutside, writes_failed};
ghost use Rattle.diff_stream.specs.Steps.{AtEnds, Begins, Begun, HoldsAll, IsOther};

use crate::fault::CompareFault;
use crate::held::{Side, Sides};
use crate::merge::merge;
use crate::side::{rest_of, write_found};
use byte_transfer::{Sink, Source};
use json_lines::{Form, write_as};
use report_diff::{HEADING, Merging, Terms, compare_two};
use std::alloc::{AllocError, Global};
use text_lines::TextLines;

/// Compares two reports that the readers have left, writes where they differ, in the form that is
/// asked for, and tells whether they pass.
///
/// Where both have version 2, the entries that come first in both are compared as they are read:
/// what is told of one is written before a reader is asked for more bytes. Entries that only the
/// second has are told behind all others, and are kept so long.
///
/// # Errors
///
/// Refused where the texts are not two reports, with the first reason, behind what is told of the
/// entries that come first; Memory, Read and Write behind a beginning of what was to be written.
pub fn write_differences<R: Source, S: Source, W: Sink>(
    alloc: Global,
    first: &mut R,
    second: &mut S,
    writer: &mut W,
    form: Form,
    terms: Terms,
) -> Result<bool, CompareFault>
    requires first { R.failures first.old < 2 ^ 64 - 1 }
    requires second { S.failures second.old < 2 ^ 64 - 1 }
    requires writer { W.failures writer.old < 2 ^ 64 - 1 }
    ensures ok { IfOk result (WritesComparison form terms (R.left first.old) (R.left first.new)
        (S.left second.old) (S.left second.new) (W.written writer.old) (W.written writer.new)) }
    ensures err { IfErr result (WritesUpTo form terms (R.left first.old) (R.left first.new)
        (S.left second.old) (S.left second.new) (W.written writer.old) (W.written writer.new)) }
    ensures taken { Takes (R.left first.old) (R.left first.new)
        × Takes (S.left second.old) (S.left second.new) }
    ensures writes { W.failures writer.new ≡ W.failures writer.old + writes_failed result }
{
    let mut sides = started(alloc)?;
    if !begins(alloc, &mut sides.first, first)? {
        return compare_whole(alloc, sides, first, second, writer, form, terms);
    }
    if !begins(alloc, &mut sides.second, second)? {
        return compare_whole(alloc, sides, first, second, writer, form, terms);
    }
    sides.first.lines.pass();
    sides.second.lines.pass();
    merge(alloc, &mut sides, first, second, writer, form)?;
    compare_rest(alloc, sides, first, second, writer, form, terms)
}

/// Nothing was read.
fn started(alloc: Global) -> Result<Sides, AllocError>
    ensures { IfOk result Begun }
{
    Ok(Sides {
        first: unread(alloc),
        second: unread(alloc),
        merging: Merging::new(alloc)?,
    })
}

fn unread(alloc: Global) -> Side
    ensures { (result.lines ≡ []) × (result.ended ≡ false) }
{
    Side {
        lines: TextLines::new(alloc),
        ended: false,
    }
}

/// Whether a report begins with the heading of version 2, which is then held.
fn begins<R: Source>(alloc: Global, side: &mut Side, reader: &mut R) -> Result<bool, CompareFault>
    requires { R.failures reader.old < 2 ^ 64 - 1 }
    ensures ok { IfOk result
        (λ is. Begins is side.old side.new (R.left reader.old) (R.left reader.new)) }
    ensures outside { IfErr result IsOutside }
    ensures taken { Takes (R.left reader.old) (R.left reader.new) }
    ensures writes { writes_failed result ≡ 0 }
    ensures reads { OnOk result (R.failures reader.new ≡ R.failures reader.old) }
{
    if !side.lines.read_line(alloc, reader)? {
        side.ended = true;
        return Ok(false);
    }
    match side.lines.line() {
        Some(line) => Ok(line == HEADING.as_bytes()),
        None => Ok(false),
    }
}

/// Compares what is left of both reports behind the entries that were compared.
fn compare_rest<R: Source, S: Source, W: Sink>(
    alloc: Global,
    sides: Sides,
    first: &mut R,
    second: &mut S,
    writer: &mut W,
    form: Form,
    terms: Terms,
) -> Result<bool, CompareFault>
    requires first { R.failures first.old < 2 ^ 64 - 1 }
    requires second { S.failures second.old < 2 ^ 64 - 1 }
    requires writer { W.failures writer.old < 2 ^ 64 - 1 }
    ensures ok { (l r w : Option (List ℕ))
        → AtEnds form sides.first sides.second sides.merging l (R.left first.old) r
        (S.left second.old) w (W.written writer.old)
        → IfOk result (WritesComparison form terms l (R.left first.new) r (S.left second.new) w
        (W.written writer.new)) }
    ensures err { (l r w : Option (List ℕ))
        → AtEnds form sides.first sides.second sides.merging l (R.left first.old) r
        (S.left second.old) w (W.written writer.old)
        → IfErr result (WritesUpTo form terms l (R.left first.new) r (S.left second.new) w
        (W.written writer.new)) }
    ensures taken { Takes (R.left first.old) (R.left first.new)
        × Takes (S.left second.old) (S.left second.new) }
    ensures writes { W.failures writer.new ≡ W.failures writer.old + writes_failed result }
{
    let mut merging = sides.merging;
    write_found(alloc, &mut merging, writer, form)?;
    let one = rest_of(alloc, sides.first, first)?;
    let other = rest_of(alloc, sides.second, second)?;
    let comparison = merging.finish(alloc, terms, one.as_slice(), other.as_slice())?;
    write_as(alloc, comparison.text.as_slice(), writer, form)?;
    Ok(comparison.passes)
}

/// Compares two texts of which one does not begin as a report of version 2.
fn compare_whole<R: Source, S: Source, W: Sink>(
    alloc: Global,
    sides: Sides,
    first: &mut R,
    second: &mut S,
    writer: &mut W,
    form: Form,
    terms: Terms,
) -> Result<bool, CompareFault>
    requires first { R.failures first.old < 2 ^ 64 - 1 }
    requires second { S.failures second.old < 2 ^ 64 - 1 }
    requires writer { W.failures writer.old < 2 ^ 64 - 1 }
    ensures ok { (l r : Option (List ℕ)) → HoldsAll sides.first l (R.left first.old)
        → HoldsAll sides.second r (S.left second.old)
        → IfOk result (WritesComparison form terms l (R.left first.new) r (S.left second.new)
        (W.written writer.old) (W.written writer.new)) }
    ensures err { (l r : Option (List ℕ)) → HoldsAll sides.first l (R.left first.old)
        → HoldsAll sides.second r (S.left second.old)
        → IsOther sides.first ⊎ IsOther sides.second
        → IfErr result (WritesUpTo form terms l (R.left first.new) r (S.left second.new)
        (W.written writer.old) (W.written writer.new)) }
    ensures taken { Takes (R.left first.old) (R.left first.new)
        × Takes (S.left second.old) (S.left second.new) }
    ensures writes { W.failures writer.new ≡ W.failures writer.old + writes_failed result }
{
    let one = rest_of(alloc, sides.first, first)?;
    let other = rest_of(alloc, sides.second, second)?;
    let comparison = compare_two(alloc, terms, one.as_slice(), other.as_slice())?;
    write_as(alloc, comparison.text.as_slice(), writer, form)?;
    Ok(comparison.passes)
}
