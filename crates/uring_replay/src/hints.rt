//! What a user may do about a refused trace.
use replay_program::RunFault;
use trace_format::{Kind, TraceFault};

/// What to do about a fault, in one line, where it has a likely cause.
pub(crate) fn hint(fault: RunFault) -> Option<&'static str> {
    let RunFault::Trace(TraceFault { kind, at }) = fault else {
        return None;
    };
    match kind {
        Kind::Magic => Some(
            "hint: the input is not a trace. `uring_record` writes traces; `uring_replay diff` reads reports.",
        ),
        Kind::Short if at == 0 => Some(
            "hint: the input is empty. Name a trace: uring_replay check a.trace",
        ),
        Kind::Short => Some(
            "hint: the trace is cut off. One of version 3 may be taken up to there: uring_replay serial a.trace --cut",
        ),
        Kind::Version => Some(
            "hint: the trace has a version that this program does not read: see uring_replay --version",
        ),
        _ => None,
    }
}
