//! A text that is written in the form that is asked for.
ghost use Rattle.std.specs.Prelude.{◌≡◌, ◌+◌, ◌-◌, ◌<◌, ◌^◌, IfErr, OnOk};
ghost use Rattle.std.specs.Io.KnownBytes.{Appends};
ghost use Rattle.json_lines.specs.Forms.{written_as};
ghost use Rattle.json_lines.specs.Writing.{IsNotWritten, writes_failed};
ghost use Rattle.json_lines.specs.declared.writing.WriteFault.TheVariants.{Memory, Write};

use crate::form::Form;
use crate::stream::json_of;
use byte_transfer::{Failed, Sink, write_text};
use std::alloc::{AllocError, Global};

/// Why a text is not written whole.
#[derive(Clone, Copy, Debug, PartialEq, Eq)]
pub enum WriteFault {
    /// Memory ran out.
    Memory,
    /// A call of the writer failed, or took no bytes.
    Write,
}

impl From<AllocError> for WriteFault {
    ghost from_gives = { λ _ e. e ≡ Memory };

    fn from(_e: AllocError) -> WriteFault {
        WriteFault::Memory
    }
}

impl From<Failed> for WriteFault {
    ghost from_gives = { λ _ e. e ≡ Write };

    fn from(_e: Failed) -> WriteFault {
        WriteFault::Write
    }
}

/// Writes a text in the form that is asked for, or stops at the first failure.
///
/// # Errors
///
/// Memory before anything is written; Write behind a part of what was to be written.
pub fn write_as<W: Sink>(
    alloc: Global,
    text: &[u8],
    writer: &mut W,
    form: Form,
) -> Result<(), WriteFault>
    requires { W.failures writer.old < 2 ^ 64 - 1 }
    ensures ok { OnOk result
        (Appends (W.written writer.old) (W.written writer.new) (written_as form text.now)) }
    ensures err { IfErr result
        (IsNotWritten (W.written writer.old) (W.written writer.new) (written_as form text.now)) }
    ensures failures { W.failures writer.new ≡ W.failures writer.old + writes_failed result }
{
    match form {
        Form::Text => Ok(write_text(writer, text)?),
        Form::Json => {
            let json = json_of(alloc, text)?;
            Ok(write_text(writer, json.as_slice())?)
        }
    }
}
