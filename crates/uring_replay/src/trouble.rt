//! What stands in the way of a run, and what is said of it.
use crate::hints::hint;
use replay_program::{
    MakingFault, RunFault, Stream, Usage, UsageKind, fault_ending, no_memory, usage_ending,
    usage_text,
};
use std::alloc::{AllocError, Global};
use std::io;
use std::io::{ErrorKind, IsTerminal};
use std::process::ExitCode;

/// What stands in the way of a run, or ends it.
#[derive(Drop)]
pub(crate) enum Trouble<'a> {
    /// The command line asks for no run, or for none that can be.
    Usage(Usage),
    /// An input cannot be opened.
    Open(&'a str, io::Error),
    /// An output cannot be written.
    Save(&'a str, io::Error),
    /// The run has a fault.
    Run(RunFault),
    /// No trace is made of a text.
    Make(MakingFault),
}

impl<'a> Trouble<'a> {
    /// A command line that is wrong for this reason.
    pub(crate) fn usage(alloc: Global, why: &str) -> Self {
        match usage_line(alloc, why) {
            Ok(text) => Trouble::Usage(Usage {
                kind: UsageKind::Wrong,
                text,
            }),
            Err(AllocError) => Trouble::Usage(no_memory(alloc)),
        }
    }

    /// Says it, and gives the exit status of the program.
    pub(crate) fn told(&self, rt: &HostRuntime) -> ExitCode {
        match self {
            Trouble::Usage(usage) => shown(rt, usage),
            Trouble::Open(_, error) | Trouble::Save(_, error) if is_no_memory(error) => {
                failed(rt, RunFault::Replay(replay_core::ReplayFault::Memory))
            }
            Trouble::Open(name, error) => {
                let _ = eprintln!(rt; "cannot open {name}: {error}");
                ExitCode::from(IN_OR_OUT)
            }
            Trouble::Save(name, error) => {
                let _ = eprintln!(rt; "cannot write {name}: {error}");
                ExitCode::from(IN_OR_OUT)
            }
            Trouble::Run(fault) => failed(rt, *fault),
            Trouble::Make(fault) => {
                let _ = eprintln!(rt; "{fault}");
                ExitCode::from(fault.status())
            }
        }
    }
}

/// The exit status where an input or an output cannot be used, as after [`RunFault::Read`].
const IN_OR_OUT: u8 = 3;

fn is_no_memory(error: &io::Error) -> bool {
    error.kind() == ErrorKind::OutOfMemory
}

fn usage_line(alloc: Global, why: &str) -> Result<String, AllocError> {
    format!(in alloc; "error: {why}\n\nFor more information, try '--help'.\n")
}

/// Shows why there is no task, and ends.
pub(crate) fn shown(rt: &HostRuntime, usage: &Usage) -> ExitCode {
    let ending = usage_ending(usage);
    let text = usage_text(usage);
    match ending.stream {
        Some(Stream::Output) => {
            if print!(rt; "{text}").is_err() {
                return failed(rt, RunFault::Write);
            }
        }
        Some(Stream::Errors) => {
            let _ = eprint!(rt; "{text}");
        }
        None => {}
    }
    ExitCode::from(ending.status)
}

/// Shows a fault, and at a terminal what to do, and ends.
fn failed(rt: &HostRuntime, fault: RunFault) -> ExitCode {
    let ending = fault_ending(fault);
    match ending.stream {
        Some(Stream::Output) => {
            let _ = println!(rt; "{fault}");
        }
        Some(Stream::Errors) => {
            let _ = eprintln!(rt; "{fault}");
        }
        None => {}
    }
    if let Some(line) = hint(fault)
        && rt.stderr().is_terminal()
    {
        let _ = eprintln!(rt; "{line}");
    }
    ExitCode::from(ending.status)
}
