//! The entries that come first in both reports, compared as they come.
ghost use Rattle.std.specs.Prelude.{◌≡◌, ◌+◌, ◌-◌, ◌<◌, ◌^◌, ℕ, IfErr, IfOk, List, None, Ok, OnOk};
ghost use Rattle.std.specs.Prelude.{Option, Some, true};
ghost use Rattle.byte_transfer.specs.Transfer.{Takes};
ghost use Rattle.report_diff.specs.Merging.{IsAwaited, passed_lines};
ghost use Rattle.text_lines.specs.Lines.{first_line};
ghost use Rattle.diff_stream.specs.Compared.{WritesSome};
ghost use Rattle.diff_stream.specs.Faults.{IsOutside, writes_failed};
ghost use Rattle.diff_stream.specs.Steps.{AtEnds, GoesTo, IsUnderWay, Stands};

use crate::fault::CompareFault;
use crate::held::Sides;
use crate::side::has_line;
use byte_transfer::{Sink, Source};
use json_lines::Form;
use report_diff::{Offer, Terms};
use std::alloc::Global;

/// Takes the next line of the second report, where that of the first waits for it, and tells
/// whether it goes on.
fn turn_of_second<S: Source, W: Sink>(
    alloc: Global,
    sides: &mut Sides,
    second: &mut S,
    writer: &mut W,
    form: Form,
) -> Result<bool, CompareFault>
    requires ahead { sides.old.merging.ahead ≡ None }
    requires second { S.failures second.old < 2 ^ 64 - 1 }
    requires writer { W.failures writer.old < 2 ^ 64 - 1 }
    ensures ok { (l left r w : Option (List ℕ)) → (line : List ℕ)
        → Stands form sides.old.first sides.old.second sides.old.merging l left r
        (S.left second.old) w (W.written writer.old)
        → first_line sides.old.first.lines ≡ Some line → IsAwaited sides.old.merging.from line
        → IfOk result (λ on. GoesTo form on sides.new.first sides.new.second sides.new.merging l left r
        (S.left second.new) w (W.written writer.new)) }
    ensures err { (terms : Terms) → (l left r w : Option (List ℕ))
        → Stands form sides.old.first sides.old.second sides.old.merging l left r
        (S.left second.old) w (W.written writer.old)
        → IfErr result (λ _. WritesSome form terms l left r (S.left second.new) w
        (W.written writer.new)) }
    ensures outside { IfErr result IsOutside }
    ensures lines { result ≡ Ok true
        → passed_lines sides.new.merging ≡ passed_lines sides.old.merging + 1 }
    ensures taken { Takes (S.left second.old) (S.left second.new) }
    ensures reads { OnOk result (S.failures second.new ≡ S.failures second.old) }
    ensures writes { W.failures writer.new ≡ W.failures writer.old + writes_failed result }
{
    if !has_line(
        alloc,
        &mut sides.second,
        second,
        &mut sides.merging,
        writer,
        form,
    )? {
        return Ok(false);
    }
    let Some(line) = sides.second.lines.line() else {
        return Ok(false);
    };
    if !sides.merging.offer_second(line)? {
        return Ok(false);
    }
    sides.second.lines.pass();
    Ok(true)
}

/// Compares the next line of the first report, or takes one of the second before that, and tells
/// whether the fronts of both go on.
fn turn<R: Source, S: Source, W: Sink>(
    alloc: Global,
    sides: &mut Sides,
    first: &mut R,
    second: &mut S,
    writer: &mut W,
    form: Form,
) -> Result<bool, CompareFault>
    requires under_way { IsUnderWay form sides.old.first sides.old.second sides.old.merging
        (R.left first.old) (S.left second.old) (W.written writer.old) }
    requires first { R.failures first.old < 2 ^ 64 - 1 }
    requires second { S.failures second.old < 2 ^ 64 - 1 }
    requires writer { W.failures writer.old < 2 ^ 64 - 1 }
    ensures ok { (l r w : Option (List ℕ))
        → Stands form sides.old.first sides.old.second sides.old.merging l (R.left first.old) r
        (S.left second.old) w (W.written writer.old)
        → IfOk result (λ on. GoesTo form on sides.new.first sides.new.second sides.new.merging l
        (R.left first.new) r (S.left second.new) w (W.written writer.new)) }
    ensures err { (terms : Terms) → (l r w : Option (List ℕ))
        → Stands form sides.old.first sides.old.second sides.old.merging l (R.left first.old) r
        (S.left second.old) w (W.written writer.old)
        → IfErr result (λ _. WritesSome form terms l (R.left first.new) r (S.left second.new) w
        (W.written writer.new)) }
    ensures outside { IfErr result IsOutside }
    ensures lines { result ≡ Ok true
        → passed_lines sides.new.merging ≡ passed_lines sides.old.merging + 1 }
    ensures taken { Takes (R.left first.old) (R.left first.new)
        × Takes (S.left second.old) (S.left second.new) }
    ensures reads { OnOk result (R.failures first.new ≡ R.failures first.old) }
    ensures more { OnOk result (S.failures second.new ≡ S.failures second.old) }
    ensures writes { W.failures writer.new ≡ W.failures writer.old + writes_failed result }
{
    if !has_line(
        alloc,
        &mut sides.first,
        first,
        &mut sides.merging,
        writer,
        form,
    )? {
        return Ok(false);
    }
    let Some(line) = sides.first.lines.line() else {
        return Ok(false);
    };
    match sides.merging.offer_first(alloc, line)? {
        Offer::Taken => {
            sides.first.lines.pass();
            Ok(true)
        }
        Offer::Second => turn_of_second(alloc, sides, second, writer, form),
        Offer::Ended => Ok(false),
    }
}

/// Compares the entries that come first in both reports, as they come.
pub(crate) fn merge<R: Source, S: Source, W: Sink>(
    alloc: Global,
    sides: &mut Sides,
    first: &mut R,
    second: &mut S,
    writer: &mut W,
    form: Form,
) -> Result<(), CompareFault>
    requires under_way { IsUnderWay form sides.old.first sides.old.second sides.old.merging
        (R.left first.old) (S.left second.old) (W.written writer.old) }
    requires first { R.failures first.old < 2 ^ 64 - 1 }
    requires second { S.failures second.old < 2 ^ 64 - 1 }
    requires writer { W.failures writer.old < 2 ^ 64 - 1 }
    ensures ok { (l r w : Option (List ℕ))
        → Stands form sides.old.first sides.old.second sides.old.merging l (R.left first.old) r
        (S.left second.old) w (W.written writer.old)
        → OnOk result (AtEnds form sides.new.first sides.new.second sides.new.merging l
        (R.left first.new) r (S.left second.new) w (W.written writer.new)) }
    ensures err { (terms : Terms) → (l r w : Option (List ℕ))
        → Stands form sides.old.first sides.old.second sides.old.merging l (R.left first.old) r
        (S.left second.old) w (W.written writer.old)
        → IfErr result (λ _. WritesSome form terms l (R.left first.new) r (S.left second.new) w
        (W.written writer.new)) }
    ensures outside { IfErr result IsOutside }
    ensures taken { Takes (R.left first.old) (R.left first.new)
        × Takes (S.left second.old) (S.left second.new) }
    ensures reads { OnOk result (R.failures first.new ≡ R.failures first.old) }
    ensures more { OnOk result (S.failures second.new ≡ S.failures second.old) }
    ensures writes { W.failures writer.new ≡ W.failures writer.old + writes_failed result }
{
    loop {
        if !turn(alloc, sides, first, second, writer, form)? {
            return Ok(());
        }
    }
}
