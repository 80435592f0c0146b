//! The line of an entry.
ghost use Rattle.std.specs.Prelude.{◌≡◌, ◌++◌, OnOk};
ghost use Rattle.replay_report.specs.Report.{entry_line, error_text, given_fact};
ghost use Rattle.replay_report.specs.Report.{named_fact, names_text};

use crate::answer::Answer;
use crate::entry_line::{Head, push_facts};
use crate::names::errno_name;
use crate::showing::Lines;
use std::alloc::AllocError;
use text_forms::opcode_name;
use trace_format::{Entry, Given};

/// Puts the line of an entry behind a text.
#[inline(always)]
pub(crate) fn push_entry(
    text: &mut Vec<u8>,
    place: u32,
    ring: u32,
    entry: &Entry<'_>,
    answer: &Answer<'_>,
    lines: Lines,
) -> Result<(), AllocError>
    ensures { OnOk result (text.new.items ≡ text.old.items
        ++ entry_line lines place ring entry.now answer.now) }
{
    let sqe = entry.sqe();
    let head = Head {
        place,
        ring: if lines.in_order { Some(ring) } else { None },
        user_data: sqe.user_data,
        res: answer.res,
    };
    push_facts(text, head, answer.posted, answer.front)?;
    push_names(text, sqe.opcode, answer.res, lines.names)?;
    push_given(text, entry.given())?;
    text.push(b'\n')?;
    Ok(())
}

/// That the trace gives the result of an entry, where it does.
fn push_given(text: &mut Vec<u8>, given: Option<Given>) -> Result<(), AllocError>
    ensures { OnOk result (text.new.items ≡ text.old.items ++ given_fact given) }
{
    match given {
        None => Ok(()),
        Some(_) => text.extend_from_slice(b" given=1"),
    }
}

/// The names of the operation of an entry and of its error, where names are asked for.
fn push_names(text: &mut Vec<u8>, opcode: u8, res: i32, names: bool) -> Result<(), AllocError>
    ensures { OnOk result (text.new.items ≡ text.old.items ++ names_text names opcode res) }
{
    if !names {
        return Ok(());
    }
    push_named(text, b" name=", opcode_name(opcode))?;
    push_error(text, res)
}

/// The name of the error that a result is, where it is negative.
fn push_error(text: &mut Vec<u8>, res: i32) -> Result<(), AllocError>
    ensures { OnOk result (text.new.items ≡ text.old.items ++ error_text res) }
{
    if res >= 0 {
        return Ok(());
    }
    push_named(text, b" errno=", errno_name(res.unsigned_abs()))
}

/// A fact with a name, where there is one.
fn push_named(text: &mut Vec<u8>, label: &[u8], name: &str) -> Result<(), AllocError>
    ensures { OnOk result (text.new.items ≡ text.old.items ++ named_fact label.now name.now) }
{
    if name.is_empty() {
        return Ok(());
    }
    text.extend_from_slice(label)?;
    text.extend_from_slice(name.as_bytes())
}
