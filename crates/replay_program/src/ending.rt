//! How the program ends: what it prints last, where, and its exit status.
ghost use Rattle.std.specs.Prelude.{◌≡◌};
ghost use Rattle.replay_program.specs.Status.{fault_ending, usage_ending, usage_text};

use crate::fault::RunFault;
use program_words::{Usage, UsageKind};

/// A stream of the program's.
#[derive(Clone, Copy, Debug, PartialEq, Eq)]
pub enum Stream {
    Output,
    Errors,
}

/// The stream for the last text, where there is one, and the exit status.
#[derive(Clone, Copy, Debug, PartialEq, Eq)]
pub struct Ending {
    pub stream: Option<Stream>,
    pub status: u8,
}

/// How the program ends where its words gave no options.
pub fn usage_ending(usage: &Usage) -> Ending
    ensures { result ≡ usage_ending usage.now.kind }
{
    let (stream, status) = match usage.kind {
        UsageKind::Help | UsageKind::Version => (Stream::Output, 0),
        UsageKind::Wrong => (Stream::Errors, 2),
        UsageKind::Memory => (Stream::Errors, 3),
    };
    Ending {
        stream: Some(stream),
        status,
    }
}

/// What is printed there. When out of memory it is a line of its own, which takes none.
pub fn usage_text(usage: &Usage) -> &str
    ensures { result.now ≡ usage_text usage.now }
{
    match usage.kind {
        UsageKind::Help | UsageKind::Version | UsageKind::Wrong => usage.text.as_str(),
        UsageKind::Memory => "fault: memory\n",
    }
}

/// How the program ends after a fault, whose line is printed there. The line of a difference is
/// written by then.
pub fn fault_ending(fault: RunFault) -> Ending
    ensures { result ≡ fault_ending fault }
{
    let stream = match fault {
        RunFault::Different => None,
        _ => Some(Stream::Errors),
    };
    Ending {
        stream,
        status: fault.status(),
    }
}
