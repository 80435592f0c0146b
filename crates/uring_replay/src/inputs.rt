//! Where the program reads from.
use crate::trouble::Trouble;
use std::fs::{File, Metadata};
use std::io::{ErrorKind, IsTerminal, Read, Stdin};
use std::os::unix::fs::MetadataExt;
use std::{fs, io};

/// Standard input, or a file.
#[derive(Drop)]
pub(crate) enum Input {
    Standard(Stdin),
    Named(File),
}

impl Read for Input {
    fn read(&mut self, buffer: &mut [u8]) -> io::Result<usize> {
        match self {
            Input::Standard(stdin) => stdin.read(buffer),
            Input::Named(file) => file.read(buffer),
        }
    }
}

impl Input {
    /// What the file is, where that can be told.
    pub(crate) fn metadata(&self, rt: &HostRuntime) -> Option<Metadata> {
        match self {
            Input::Standard(_) => fs::metadata(rt, "/dev/stdin").ok(),
            Input::Named(file) => file.metadata().ok(),
        }
    }
}

/// Whether two names lead to one file.
pub(crate) fn is_same_file(one: &Metadata, other: &Metadata) -> bool {
    one.dev() == other.dev() && one.ino() == other.ino()
}

/// Whether a name stands for standard input.
fn is_standard(name: Option<&str>) -> bool {
    name.is_none_or(|name| name == "-")
}

/// The first input, or the only one. Where no name is given, a terminal is none.
///
/// # Errors
///
/// Usage at a terminal; Open where there is no such file.
pub(crate) fn first_input<'a>(
    rt: &HostRuntime,
    name: Option<&'a str>,
) -> Result<Input, Trouble<'a>> {
    if name.is_none() && rt.stdin().is_terminal() {
        let text =
            "no input: name a file (uring_replay check a.trace), or give it on standard input";
        return Err(Trouble::usage(rt.alloc(), text));
    }
    opened(rt, name)
}

/// The second of two inputs.
///
/// # Errors
///
/// Usage where both are standard input; Open where there is no such file.
pub(crate) fn second_input<'a>(
    rt: &HostRuntime,
    first: Option<&str>,
    name: &'a str,
) -> Result<Input, Trouble<'a>> {
    if is_standard(first) && is_standard(Some(name)) {
        let text = "'-' is standard input, and gives one of two reports";
        return Err(Trouble::usage(rt.alloc(), text));
    }
    opened(rt, Some(name))
}

/// The trace whose entries a comparison shows.
///
/// # Errors
///
/// Usage where it is standard input and a report is too; Open where there is no such file.
pub(crate) fn trace_input<'a>(
    rt: &HostRuntime,
    first: Option<&str>,
    second: Option<&str>,
    name: &'a str,
) -> Result<Input, Trouble<'a>> {
    let is_taken = is_standard(first) || second.is_some_and(|name| name == "-");
    if is_taken && is_standard(Some(name)) {
        let text = "'-' is standard input, and gives the trace or a report";
        return Err(Trouble::usage(rt.alloc(), text));
    }
    opened(rt, Some(name))
}

/// The input of a name.
fn opened<'a>(rt: &HostRuntime, name: Option<&'a str>) -> Result<Input, Trouble<'a>> {
    match name {
        Some(name) if name != "-" => match opened_file(rt, name) {
            Ok(file) => Ok(Input::Named(file)),
            Err(error) => Err(Trouble::Open(name, error)),
        },
        _ => Ok(Input::Standard(rt.stdin())),
    }
}

/// The file of a name. A directory is none.
fn opened_file(rt: &HostRuntime, name: &str) -> io::Result<File> {
    let file = File::open(rt, name)?;
    if file.metadata()?.is_dir() {
        return Err(io::Error::from(ErrorKind::IsADirectory));
    }
    Ok(file)
}
