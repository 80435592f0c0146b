//! Operations and flags by their names.
ghost use Rattle.std.specs.Prelude.{◌≡◌, ◌<◌, ◌++◌, OnOk};
ghost use Rattle.trace_text.specs.Names.{bar, entry_flag, entry_flag_name, entry_flags, flag};
ghost use Rattle.trace_text.specs.Names.{flag_name, flag_text};
ghost use Rattle.trace_text.specs.Names.{flags_text, opcode_text};

use std::alloc::AllocError;
use text_forms::{name_at, opcode_name, push_bytes, push_decimal, push_hexadecimal};

/// The flags of an entry by their bits.
const ENTRY_FLAGS: [&str; 8] = [
    "FIXED_FILE",
    "IO_DRAIN",
    "IO_LINK",
    "IO_HARDLINK",
    "ASYNC",
    "BUFFER_SELECT",
    "CQE_SKIP_SUCCESS",
    "0x80",
];

/// Fields whose flags have names.
#[derive(Clone, Copy)]
pub enum FlagSet {
    /// `open_flags`, those of open(2).
    Open,
    /// `rw_flags`.
    Transfer,
    /// `fsync_flags`.
    Sync,
    /// `rename_flags`.
    Rename,
    /// `unlink_flags`.
    Unlink,
    /// `hardlink_flags`.
    Link,
    /// The mode of fallocate(2).
    Allocate,
}

const OPEN: [&str; 22] = [
    "O_WRONLY",
    "O_RDWR",
    "",
    "",
    "",
    "",
    "O_CREAT",
    "O_EXCL",
    "O_NOCTTY",
    "O_TRUNC",
    "O_APPEND",
    "O_NONBLOCK",
    "O_DSYNC",
    "",
    "O_DIRECT",
    "O_LARGEFILE",
    "O_DIRECTORY",
    "O_NOFOLLOW",
    "O_NOATIME",
    "O_CLOEXEC",
    "",
    "O_PATH",
];

const TRANSFER: [&str; 5] = [
    "RWF_HIPRI",
    "RWF_DSYNC",
    "RWF_SYNC",
    "RWF_NOWAIT",
    "RWF_APPEND",
];

const SYNC: [&str; 1] = ["IORING_FSYNC_DATASYNC"];

const UNLINK: [&str; 10] = ["", "", "", "", "", "", "", "", "", "AT_REMOVEDIR"];

const RENAME: [&str; 3] = ["RENAME_NOREPLACE", "RENAME_EXCHANGE", "RENAME_WHITEOUT"];

const LINK: [&str; 13] = [
    "",
    "",
    "",
    "",
    "",
    "",
    "",
    "",
    "",
    "",
    "AT_SYMLINK_FOLLOW",
    "",
    "AT_EMPTY_PATH",
];

const ALLOCATE: [&str; 6] = [
    "FALLOC_FL_KEEP_SIZE",
    "FALLOC_FL_PUNCH_HOLE",
    "",
    "FALLOC_FL_COLLAPSE_RANGE",
    "FALLOC_FL_ZERO_RANGE",
    "FALLOC_FL_INSERT_RANGE",
];

/// An operation: its name, or its number where it has none.
pub(crate) fn push_opcode(text: &mut Vec<u8>, opcode: u8) -> Result<(), AllocError>
    ensures { OnOk result (text.new.items ≡ text.old.items ++ opcode_text opcode) }
{
    let name = opcode_name(opcode);
    if name.is_empty() {
        push_bytes(text, b"OP_")?;
        push_decimal(text, opcode as u64)
    } else {
        push_bytes(text, name.as_bytes())
    }
}

/// The name of a flag of an entry by its bit: nothing past the eighth.
pub fn entry_flag_name(bit: usize) -> &'static str
    ensures { result.now ≡ entry_flag_name bit }
{
    name_at(&ENTRY_FLAGS, bit)
}

/// A flag of an entry behind a space, where it is set.
fn push_entry_flag(text: &mut Vec<u8>, is_set: bool, bit: usize) -> Result<(), AllocError>
    ensures { OnOk result (text.new.items ≡ text.old.items ++ entry_flag is_set bit) }
{
    if !is_set {
        return Ok(());
    }
    push_bytes(text, b" ")?;
    push_bytes(text, entry_flag_name(bit).as_bytes())
}

/// The flags of an entry, each behind a space.
pub(crate) fn push_entry_flags(text: &mut Vec<u8>, flags: u8) -> Result<(), AllocError>
    ensures { OnOk result (text.new.items ≡ text.old.items ++ entry_flags flags) }
{
    let mut rest = flags;
    for bit in 0..8 {
        push_entry_flag(text, rest % 2 == 1, bit)?;
        rest = rest / 2;
    }
    Ok(())
}

/// The name of a flag: nothing for a bit that has none.
pub fn flag_name(set: FlagSet, bit: usize) -> &'static str
    ensures { result.now ≡ flag_name set bit }
{
    match set {
        FlagSet::Open => name_at(&OPEN, bit),
        FlagSet::Transfer => name_at(&TRANSFER, bit),
        FlagSet::Sync => name_at(&SYNC, bit),
        FlagSet::Rename => name_at(&RENAME, bit),
        FlagSet::Unlink => name_at(&UNLINK, bit),
        FlagSet::Link => name_at(&LINK, bit),
        FlagSet::Allocate => name_at(&ALLOCATE, bit),
    }
}

/// A bit: its name, or its value where it has none.
fn push_flag(text: &mut Vec<u8>, set: FlagSet, bit: usize) -> Result<(), AllocError>
    requires { bit < 32 }
    ensures { OnOk result (text.new.items ≡ text.old.items ++ flag_text set bit) }
{
    let name = flag_name(set, bit);
    if name.is_empty() {
        push_hexadecimal(text, 1 << bit)
    } else {
        push_bytes(text, name.as_bytes())
    }
}

/// A flag behind a bar where some came before, where it is set.
fn push_flag_if(
    text: &mut Vec<u8>,
    set: FlagSet,
    is_set: bool,
    some: bool,
    bit: usize,
) -> Result<(), AllocError>
    requires { bit < 32 }
    ensures { OnOk result (text.new.items ≡ text.old.items ++ flag set is_set some bit) }
{
    if !is_set {
        return Ok(());
    }
    push_bar(text, some)?;
    push_flag(text, set, bit)
}

fn push_bar(text: &mut Vec<u8>, some: bool) -> Result<(), AllocError>
    ensures { OnOk result (text.new.items ≡ text.old.items ++ bar some) }
{
    if some { push_bytes(text, b"|") } else { Ok(()) }
}

/// Flags with bars between them.
pub(crate) fn push_flags(text: &mut Vec<u8>, set: FlagSet, flags: u32) -> Result<(), AllocError>
    ensures { OnOk result (text.new.items ≡ text.old.items ++ flags_text set flags) }
{
    let mut some = false;
    let mut rest = flags;
    for bit in 0..32 {
        let is_set = rest % 2 == 1;
        push_flag_if(text, set, is_set, some, bit)?;
        some = some | is_set;
        rest = rest / 2;
    }
    Ok(())
}
