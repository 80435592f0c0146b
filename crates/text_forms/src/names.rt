//! Tables of names, and the names of operations.
ghost use Rattle.std.specs.Prelude.{◌≡◌, [], map, slice_index_or};
ghost use Rattle.text_forms.specs.Names.{opcode_name};

/// The operations by their numbers, as io_uring_enter(2) and `linux/io_uring.h` name them, without
/// the prefix `IORING_OP_`.
const OPCODES: [&str; 63] = [
    "NOP",
    "READV",
    "WRITEV",
    "FSYNC",
    "READ_FIXED",
    "WRITE_FIXED",
    "POLL_ADD",
    "POLL_REMOVE",
    "SYNC_FILE_RANGE",
    "SENDMSG",
    "RECVMSG",
    "TIMEOUT",
    "TIMEOUT_REMOVE",
    "ACCEPT",
    "ASYNC_CANCEL",
    "LINK_TIMEOUT",
    "CONNECT",
    "FALLOCATE",
    "OPENAT",
    "CLOSE",
    "FILES_UPDATE",
    "STATX",
    "READ",
    "WRITE",
    "FADVISE",
    "MADVISE",
    "SEND",
    "RECV",
    "OPENAT2",
    "EPOLL_CTL",
    "SPLICE",
    "PROVIDE_BUFFERS",
    "REMOVE_BUFFERS",
    "TEE",
    "SHUTDOWN",
    "RENAMEAT",
    "UNLINKAT",
    "MKDIRAT",
    "SYMLINKAT",
    "LINKAT",
    "MSG_RING",
    "FSETXATTR",
    "SETXATTR",
    "FGETXATTR",
    "GETXATTR",
    "SOCKET",
    "URING_CMD",
    "SEND_ZC",
    "SENDMSG_ZC",
    "READ_MULTISHOT",
    "WAITID",
    "FUTEX_WAIT",
    "FUTEX_WAKE",
    "FUTEX_WAITV",
    "FIXED_FD_INSTALL",
    "FTRUNCATE",
    "BIND",
    "LISTEN",
    "RECV_ZC",
    "EPOLL_WAIT",
    "READV_FIXED",
    "WRITEV_FIXED",
    "PIPE",
];

/// What a table of names has at a number: nothing past its end.
pub fn name_at(table: &[&'static str], number: usize) -> &'static str
    ensures { result.now ≡ slice_index_or (map (λ name. name.now) table.now) number [] }
{
    if number < table.len() {
        table[number]
    } else {
        ""
    }
}

/// The name of an operation: nothing for a number that none has.
pub fn opcode_name(opcode: u8) -> &'static str
    ensures { result.now ≡ opcode_name opcode }
{
    name_at(&OPCODES, opcode as usize)
}
