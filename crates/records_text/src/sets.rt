//! The lines of sets and seeks.
ghost use Rattle.std.specs.Prelude.{◌≡◌, ◌++◌, OnOk};
ghost use Rattle.records_text.specs.Shown.{content_words, file_text, seek_line, set_line};
ghost use Rattle.trace_records.specs.declared.record.Content.TheVariants as contents;

use std::alloc::AllocError;
use text_forms::{push_bytes, push_decimal, push_path};
use trace_records::{Content, FileAt};
use trace_text::{push_key, push_number, push_op_flags};

/// The opcode of OPENAT, which names its flags.
const OPENAT: u8 = 18;

/// A slot or a descriptor.
pub(crate) fn push_file(text: &mut Vec<u8>, file: FileAt) -> Result<(), AllocError>
    ensures { OnOk result (text.new.items ≡ text.old.items ++ file_text file) }
{
    match file {
        FileAt::Slot { ring, number } => {
            push_decimal(text, u64::from(ring))?;
            push_bytes(text, b":")?;
            push_decimal(text, u64::from(number))
        }
        FileAt::Descriptor { number } => {
            push_bytes(text, b"fd:")?;
            push_decimal(text, u64::from(number))
        }
    }
}

/// A new description of a path.
fn push_opened(text: &mut Vec<u8>, flags: u32, position: u64, path: &[u8]) -> Result<(), AllocError>
    ensures { OnOk result (text.new.items
        ≡ text.old.items ++ content_words (contents.Path flags position path.now)) }
{
    push_key(text, b"path")?;
    push_path(text, path)?;
    push_op_flags(text, OPENAT, flags)?;
    push_number(text, b"pos", position)
}

/// What a slot or a descriptor holds from then on.
fn push_content(text: &mut Vec<u8>, content: &Content) -> Result<(), AllocError>
    ensures { OnOk result (text.new.items ≡ text.old.items ++ content_words content.now) }
{
    match content {
        Content::Nothing => push_bytes(text, b" nothing"),
        Content::Path {
            flags,
            position,
            path,
        } => push_opened(text, *flags, *position, path.as_slice()),
        Content::Copy { of } => {
            push_key(text, b"of")?;
            push_file(text, *of)
        }
        Content::Taken => push_bytes(text, b" taken"),
    }
}

/// The line of a set.
pub(crate) fn push_set(
    text: &mut Vec<u8>,
    file: FileAt,
    content: &Content,
) -> Result<(), AllocError>
    ensures { OnOk result (text.new.items ≡ text.old.items ++ set_line file content.now) }
{
    push_bytes(text, b"set ")?;
    push_file(text, file)?;
    push_content(text, content)?;
    push_bytes(text, b"\n")
}

/// The line of a seek.
pub(crate) fn push_seek(text: &mut Vec<u8>, file: FileAt, position: u64) -> Result<(), AllocError>
    ensures { OnOk result (text.new.items ≡ text.old.items ++ seek_line file position) }
{
    push_bytes(text, b"seek ")?;
    push_file(text, file)?;
    push_key(text, b"pos")?;
    push_decimal(text, position)?;
    push_bytes(text, b"\n")
}
