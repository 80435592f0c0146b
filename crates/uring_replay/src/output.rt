//! Where the program writes to.
ghost use Rattle.std.specs.Io.{WritesAtMost};

use crate::inputs::{Input, is_same_file};
use crate::trouble::Trouble;
use replay_program::{MakingFault, RunFault};
use std::alloc::{AllocError, Global};
use std::fs::File;
use std::io::{ErrorKind, Stdout, Write};
use std::{fs, io};

/// Standard output, or a file that comes to be once its text is whole.
#[derive(Drop)]
pub(crate) enum Output<'a> {
    Standard(Stdout),
    Saved(Draft<'a>),
}

impl Write for Output<'_> {
    fn write(&mut self, bytes: &[u8]) -> io::Result<usize> {
        match self {
            Output::Standard(stdout) => stdout.write(bytes),
            Output::Saved(draft) => draft.write(bytes),
        }
    }

    fn flush(&mut self) -> io::Result<()> {
        Ok(())
    }
}

/// The text of a file, in a file beside it, which begins with the first byte and takes the other
/// one's place at the end. So there is never half a text under its name.
#[derive(Drop)]
pub(crate) struct Draft<'a> {
    rt: &'a HostRuntime,
    /// The name that was given, and what it leads to.
    name: &'a str,
    target: String,
    beside: Option<(String, File)>,
    fault: Option<io::Error>,
}

/// How many files beside an output may be left by runs that were ended, or be those of others.
const MOST_BESIDE: u32 = 1_000;

impl<'a> Draft<'a> {
    fn write(&mut self, bytes: &[u8]) -> io::Result<usize>
        ensures { WritesAtMost result bytes.now }
    {
        match self.taken(bytes) {
            Ok(count) => Ok(count),
            Err(error) => {
                self.fault = Some(error);
                Err(io::Error::from(ErrorKind::Other))
            }
        }
    }

    fn taken(&mut self, bytes: &[u8]) -> io::Result<usize>
        ensures { WritesAtMost result bytes.now }
    {
        if self.beside.is_none() {
            self.beside = Some(file_beside(self.rt, self.target.as_str())?);
        }
        match &mut self.beside {
            Some((_, file)) => file.write(bytes),
            None => Ok(0),
        }
    }

    /// Gives the text its name, where it is whole, and else takes it away.
    fn ended(mut self, done: Result<(), Trouble<'a>>) -> Result<(), Trouble<'a>> {
        let is_whole = matches!(&done, Ok(()) | Err(Trouble::Run(RunFault::Different)));
        if is_whole && let Err(error) = self.put_in_place() {
            self.fault = Some(error);
        }
        self.removed();
        match (self.fault.take(), done) {
            (Some(error), done) if may_be_told(&done) => Err(Trouble::Save(self.name, error)),
            (_, done) => done,
        }
    }

    fn put_in_place(&mut self) -> io::Result<()> {
        if let Some((beside, file)) = &self.beside {
            file.sync_all()?;
            fs::rename(self.rt, beside.as_str(), self.target.as_str())?;
            self.beside = None;
        }
        Ok(())
    }

    fn removed(&self) {
        if let Some((beside, _)) = &self.beside {
            let _ = fs::remove_file(self.rt, beside.as_str());
        }
    }
}

/// A new file in the directory of another one.
fn file_beside(rt: &HostRuntime, target: &str) -> io::Result<(String, File)> {
    for number in 0..MOST_BESIDE {
        let beside = name_beside(rt.alloc(), target, number)?;
        match File::create_new(rt, beside.as_str()) {
            Ok(file) => return Ok((beside, file)),
            Err(error) if error.kind() == ErrorKind::AlreadyExists => {}
            Err(error) => return Err(error),
        }
    }
    Err(io::Error::from(ErrorKind::AlreadyExists))
}

/// A name in the directory of another one.
fn name_beside(alloc: Global, target: &str, number: u32) -> Result<String, AllocError> {
    let directory = match target.rfind('/') {
        Some(at) => &target[..=at],
        None => "",
    };
    format!(in alloc; "{directory}.uring_replay.{number}.part")
}

/// The output of a name, or standard output. It is no input's file, and no directory or device.
///
/// # Errors
///
/// Usage where it is the file of an input; Save where it cannot be written.
pub(crate) fn output_of<'a>(
    rt: &'a HostRuntime,
    name: Option<&'a str>,
    inputs: &[&Input],
) -> Result<Output<'a>, Trouble<'a>> {
    let Some(name) = name else {
        return Ok(Output::Standard(rt.stdout()));
    };
    if is_an_input(rt, name, inputs) {
        let text = "the output is an input: name another file";
        return Err(Trouble::usage(rt.alloc(), text));
    }
    match target_of(rt, name) {
        Ok(target) => Ok(Output::Saved(Draft {
            rt,
            name,
            target,
            beside: None,
            fault: None,
        })),
        Err(error) => Err(Trouble::Save(name, error)),
    }
}

/// Whether a name leads to the file of an input.
fn is_an_input(rt: &HostRuntime, name: &str, inputs: &[&Input]) -> bool {
    let Ok(there) = fs::metadata(rt, name) else {
        return false;
    };
    for input in inputs {
        if let Some(metadata) = input.metadata(rt)
            && is_same_file(&metadata, &there)
        {
            return true;
        }
    }
    false
}

/// What a name leads to: that of a file that is there, through symbolic links, or the name itself.
fn target_of(rt: &HostRuntime, name: &str) -> io::Result<String> {
    let alloc = rt.alloc();
    match fs::metadata(rt, name) {
        Ok(there) if there.is_file() => {
            let path = fs::canonicalize(rt, name)?;
            Ok(String::from_str(alloc, path.as_str())?)
        }
        Ok(there) if there.is_dir() => Err(io::Error::from(ErrorKind::IsADirectory)),
        Ok(_) => Err(io::Error::new(ErrorKind::Unsupported, "not a regular file")),
        Err(error) if error.kind() == ErrorKind::NotFound => { Ok(String::from_str(alloc, name)?) }
        Err(error) => Err(error),
    }
}

/// Whether a fault of the output is told in place of what a run ended with: nothing that came before.
fn may_be_told(done: &Result<(), Trouble<'_>>) -> bool {
    matches!(
        done,
        Ok(())
            | Err(
                Trouble::Run(RunFault::Write | RunFault::Different)
                    | Trouble::Make(MakingFault::Write)
            )
    )
}

/// Ends the output of a run.
pub(crate) fn ended<'a>(output: Output<'a>, done: Result<(), RunFault>) -> Result<(), Trouble<'a>> {
    match done {
        Ok(()) => closed(output, Ok(())),
        Err(fault) => closed(output, Err(Trouble::Run(fault))),
    }
}

/// Ends the output of making a trace.
pub(crate) fn ended_making<'a>(
    output: Output<'a>,
    done: Result<(), MakingFault>,
) -> Result<(), Trouble<'a>> {
    match done {
        Ok(()) => closed(output, Ok(())),
        Err(fault) => closed(output, Err(Trouble::Make(fault))),
    }
}

fn closed<'a>(output: Output<'a>, done: Result<(), Trouble<'a>>) -> Result<(), Trouble<'a>> {
    match output {
        Output::Standard(_) => done,
        Output::Saved(draft) => draft.ended(done),
    }
}
