//! Why a run of the program gives no output.
ghost use Rattle.std.specs.Prelude.{◌≡◌, Some};
ghost use Rattle.replay_program.specs.Status.{fault_line, kind_name, replay_line, status_of};

use replay_core::ReplayFault;
use report_diff::Refusal;
use std::error::Error;
use std::fmt;
use trace_format::{Kind, TraceFault};

/// Why a run gives no output, or not all of it. Its text is the line for standard error, without
/// the line feed.
#[derive(Clone, Copy, Debug, PartialEq, Eq)]
pub enum RunFault {
    /// The trace is refused, or memory ran out before it was read.
    Trace(TraceFault),
    /// The replay gave nothing, or memory ran out for its report.
    Replay(ReplayFault),
    /// The reports are refused, or memory ran out before they were compared.
    Reports(ReportsFault),
    /// A call of the reader failed.
    Read,
    /// A call of the writer failed, or took no bytes. What it took before is a front of the output.
    Write,
    /// The run in rounds gave something else than the one in recorded order, or two reports differ.
    Different,
}

/// Why two reports are not compared.
#[derive(Clone, Copy, Debug, PartialEq, Eq)]
pub enum ReportsFault {
    /// They are not two reports.
    Refused(Refusal),
    /// They have more bytes than are read.
    TooLong,
    /// Memory ran out.
    Memory,
}

impl RunFault {
    /// The exit status of the program after this fault: 1 where the trace is refused or the reports
    /// are, else 3.
    pub fn status(self) -> u8
        ensures { result ≡ status_of self }
    {
        match self {
            RunFault::Trace(
                TraceFault {
                    kind: Kind::Memory,
                    ..
                },
            ) => 3,
            RunFault::Trace(_) => 1,
            RunFault::Replay(ReplayFault::Memory | ReplayFault::NoThread) => 3,
            RunFault::Replay(ReplayFault::Workers | ReplayFault::Window) => 2,
            RunFault::Reports(ReportsFault::Memory) => 3,
            RunFault::Reports(_) => 1,
            RunFault::Different => 4,
            RunFault::Read | RunFault::Write => 3,
        }
    }
}

impl Error for RunFault {}

impl fmt::Display for RunFault {
    ghost output = { λ fault. Some (fault_line fault) };

    fn fmt<W: fmt::Write>(&self, f: &mut fmt::Formatter<W>) -> fmt::Result {
        match *self {
            RunFault::Trace(
                TraceFault {
                    kind: Kind::Memory,
                    ..
                },
            ) => f.write_str("fault: memory"),
            RunFault::Trace(TraceFault { kind, at }) => {
                let name = kind_name(kind);
                write!(f, "trace refused: {name} at {at}")
            }
            RunFault::Replay(fault) => f.write_str(replay_line(fault)),
            RunFault::Reports(ReportsFault::Refused(why)) => write!(f, "reports refused: {why}"),
            RunFault::Reports(ReportsFault::TooLong) => {
                f.write_str("reports refused: more than 1073741824 bytes")
            }
            RunFault::Reports(ReportsFault::Memory) => f.write_str("fault: memory"),
            RunFault::Read => f.write_str("fault: read"),
            RunFault::Write => f.write_str("fault: write"),
            RunFault::Different => f.write_str("different"),
        }
    }
}

/// The name of what is wrong with a trace.
fn kind_name(kind: Kind) -> &'static str
    ensures { result.now ≡ kind_name kind }
{
    match kind {
        Kind::Magic => "Magic",
        Kind::Version => "Version",
        Kind::Short => "Short",
        Kind::Limit => "Limit",
        Kind::Path => "Path",
        Kind::NoParent => "NoParent",
        Kind::Exists => "Exists",
        Kind::Reference => "Reference",
        Kind::Side => "Side",
        Kind::Overlap => "Overlap",
        Kind::Trailing => "Trailing",
        Kind::Memory => "Memory",
    }
}

/// The line where a replay gave nothing.
fn replay_line(fault: ReplayFault) -> &'static str
    ensures { result.now ≡ replay_line fault }
{
    match fault {
        ReplayFault::Memory => "fault: memory",
        ReplayFault::NoThread => "fault: thread",
        ReplayFault::Workers => "fault: workers",
        ReplayFault::Window => "fault: window",
    }
}
