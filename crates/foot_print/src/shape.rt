//! The shapes of operations.
ghost use Rattle.std.specs.Prelude.{◌≡◌};
ghost use Rattle.entry_checks.specs.Meant.{meant};
ghost use Rattle.op_meaning.specs.Meaning.{shape};
ghost use Rattle.foot_print.specs.Shapes.{shape_meant};

use entry_checks::{BufferSpan, FileNumber, Op, OpenAtFlags, PathAt};
use op_meaning::MOST_MOVED;

/// What the uses of an operation depend on. A transfer moves so many bytes into its file or out of
/// it, through a span of a buffer or none.
#[derive(Clone, Copy)]
pub(crate) enum Shape<'a> {
    Idle,
    Looking {
        file: FileNumber,
    },
    Moving {
        into_file: bool,
        file: FileNumber,
        offset: u64,
        count: u64,
        span: Option<BufferSpan>,
    },
    Allocating {
        file: FileNumber,
        offset: u64,
        size: u64,
        mode: u32,
    },
    Resizing {
        file: FileNumber,
        size: u64,
    },
    Closing {
        file: FileNumber,
    },
    Opening {
        path: PathAt<'a>,
        flags: OpenAtFlags,
        slot: Option<u32>,
    },
    Measuring {
        path: PathAt<'a>,
    },
    Making {
        path: PathAt<'a>,
    },
    Freeing {
        path: PathAt<'a>,
        removes_directory: bool,
    },
    Linking {
        old: PathAt<'a>,
        new: PathAt<'a>,
    },
    Renaming {
        old: PathAt<'a>,
        new: PathAt<'a>,
    },
    Holding {
        file: FileNumber,
    },
    HoldingPath {
        file: FileNumber,
        path: PathAt<'a>,
        flags: OpenAtFlags,
    },
    HoldingCopy {
        file: FileNumber,
        ring: u32,
        source: FileNumber,
    },
    HoldingOther {
        file: FileNumber,
    },
    Seeking {
        file: FileNumber,
    },
}

/// The shape of an operation.
pub(crate) fn shape_of(op: Op<'_>) -> Shape<'_>
    ensures { shape_meant result ≡ shape (meant op.entry) }
{
    match op {
        Op::Nop => Shape::Idle,
        Op::Given { .. } => Shape::Idle,
        Op::StatxRoot => Shape::Idle,
        Op::Statx { path } => Shape::Measuring { path },
        Op::StatxFile { file } => Shape::Moving {
            into_file: false,
            file,
            offset: 0,
            count: 0,
            span: None,
        },
        Op::Readv {
            file,
            offset,
            total,
        } => Shape::Moving {
            into_file: false,
            file,
            offset,
            count: total.min(u64::from(MOST_MOVED)),
            span: None,
        },
        Op::Read {
            file,
            offset,
            total,
        } => Shape::Moving {
            into_file: false,
            file,
            offset,
            count: u64::from(total.min(MOST_MOVED)),
            span: None,
        },
        Op::Writev {
            file,
            offset,
            bytes,
        } => Shape::Moving {
            into_file: true,
            file,
            offset,
            count: bytes.len() as u64,
            span: None,
        },
        Op::Write {
            file,
            offset,
            bytes,
        } => Shape::Moving {
            into_file: true,
            file,
            offset,
            count: bytes.len() as u64,
            span: None,
        },
        Op::ReadFixed { file, offset, span } => Shape::Moving {
            into_file: false,
            file,
            offset,
            count: u64::from(span.length.min(MOST_MOVED)),
            span: Some(span),
        },
        Op::WriteFixed { file, offset, span } => Shape::Moving {
            into_file: true,
            file,
            offset,
            count: u64::from(span.length.min(MOST_MOVED)),
            span: Some(span),
        },
        Op::Fsync { file } => Shape::Looking { file },
        Op::SyncFileRange { file, .. } => Shape::Looking { file },
        Op::Fadvise { file, .. } => Shape::Looking { file },
        Op::Fallocate {
            file,
            offset,
            size,
            mode,
        } => Shape::Allocating {
            file,
            offset,
            size,
            mode,
        },
        Op::Openat { path, flags, slot } => Shape::Opening { path, flags, slot },
        Op::Close { file } => Shape::Closing { file },
        Op::Renameat { old, new, .. } => Shape::Renaming { old, new },
        Op::Unlinkat {
            path,
            removes_directory,
        } => Shape::Freeing {
            path,
            removes_directory,
        },
        Op::Mkdirat { path } => Shape::Making { path },
        Op::Linkat { old, new } => Shape::Linking { old, new },
        Op::Ftruncate { file, size } => Shape::Resizing { file, size },
        Op::HoldNothing { file } => Shape::Holding { file },
        Op::HoldPath {
            file,
            path,
            flags,
            ..
        } => Shape::HoldingPath { file, path, flags },
        Op::HoldCopy { file, ring, source } => Shape::HoldingCopy { file, ring, source },
        Op::HoldOther { file } => Shape::HoldingOther { file },
        Op::Seek { file, .. } => Shape::Seeking { file },
    }
}
