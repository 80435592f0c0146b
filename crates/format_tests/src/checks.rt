//! What an entry asks for.

use entry_checks::{Op, check};
use sqe_codec::Sqe;
use std::alloc::{AllocError, Global};
use trace_format::{EntriesBuilder, Entry, Version, fits};

/// LINKAT with the working directory beside both paths.
const LINK: Sqe = Sqe {
    opcode: 39,
    flags: 0,
    ioprio: 0,
    fd: -100,
    off: 0,
    addr: 0,
    len: 0xffff_ff9c,
    op_flags: 0,
    user_data: 0,
    buf_index: 0,
    personality: 0,
    file_index: 0,
    addr3: 0,
    last: 0,
};

/// Whether an entry asks for `/bc` as another name of `/a`.
fn is_the_link(entry: &Entry<'_>) -> bool {
    if !fits(&entry.sqe(), entry.side()) {
        return false;
    }
    match check(entry, Version::One) {
        Ok(Op::Linkat { old, new }) => {
            old.directory == -100
                && new.directory == -100
                && old.text == b"/a".as_slice()
                && new.text == b"/bc".as_slice()
        }
        _ => false,
    }
}

fn link_is_read(alloc: Global) -> Result<bool, AllocError> {
    let mut builder = EntriesBuilder::new(alloc);
    builder.push(&LINK, b"\x02\x00/b/cd")?;
    builder.push(&LINK, b"\x02\x00/a/bc")?;
    let entries = builder.build(alloc)?;
    Ok(entries.len() == 2 && !is_the_link(&entries.at(0)) && is_the_link(&entries.at(1)))
}

#[test]
fn operation_of_a_link(rt: HostRuntime) {
    assert!(rt; matches!(link_is_read(rt.alloc()), Ok(true)));
}
