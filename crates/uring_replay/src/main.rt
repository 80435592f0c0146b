//! Executes recorded io_uring submissions, and reports every result.
#![tactic(auto)]

ghost use Rattle.program_words.specs.Limits.{IsServed};
ghost use Rattle.program_words.specs.Words.{IsServedTask};

mod hints;
mod inputs;
mod output;
mod trouble;

use crate::inputs::{Input, first_input, second_input, trace_input};
use crate::output::{Output, ended, ended_making, output_of};
use crate::trouble::{Trouble, shown};
use replay_program::{
    Files, Form, FromStd, Mode, Options, Request, RunFault, Task, Usage, no_memory, not_text,
    read_words, run, run_check, run_diff, run_diff_beside, run_diff_of_two_shown, run_diff_shown,
    run_make, run_report, run_show,
};
use report_diff::Terms;
use std::alloc::AllocError;
use std::env;
use std::env::FillError;
use std::io::ErrorKind;
use std::process::ExitCode;
use std::rt::Env;
use std::sync::Wait;
use std::thread::Threads;
use trace_text::Look;

fn main(rt: HostRuntime) -> ExitCode {
    let words = match arguments(&rt) {
        Ok(words) => words,
        Err(usage) => return shown(&rt, &usage),
    };
    let words: Result<Vec<&str>, AllocError> = words
        .iter()
        .map(|word| word.as_str())
        .collect(rt.alloc());
    let Ok(words) = words else {
        return shown(&rt, &no_memory(rt.alloc()));
    };
    let words = words.as_slice();
    let done = answered(&rt, &rt, words);
    match done {
        Ok(()) => ExitCode::SUCCESS,
        Err(trouble) => trouble.told(&rt),
    }
}

/// Does what the words ask for, or says why they ask for nothing.
fn answered<'a, T: Threads + Wait + Sync>(
    rt: &'a HostRuntime,
    threads: &T,
    words: &'a [&'a str],
) -> Result<(), Trouble<'a>> {
    match read_words(rt.alloc(), words) {
        Ok(request) => served(rt, threads, &request),
        Err(usage) => Err(Trouble::Usage(usage)),
    }
}

/// Does what was asked for, from its input to its output.
fn served<'a, T: Threads + Wait + Sync>(
    rt: &'a HostRuntime,
    threads: &T,
    request: &Request<'a>,
) -> Result<(), Trouble<'a>>
    requires { IsServedTask request.now.task }
{
    if let Some(why) = misuse(request) {
        return Err(Trouble::usage(rt.alloc(), why));
    }
    let files = request.files;
    let form = request.form;
    let input = first_input(rt, files.input)?;
    match request.task {
        Task::Replay(options) => replayed(rt, threads, input, request, &options),
        Task::Show(look) => displayed(rt, input, files.output, look),
        Task::Make => made(rt, input, files.output),
        Task::Diff(terms) => compared(rt, input, files, form, terms),
    }
}

/// Why flags that are right one by one ask for nothing together, where they do.
fn misuse(request: &Request<'_>) -> Option<&'static str> {
    let is_json = request.form == Form::Json;
    if is_json && is_graph(request.task) {
        return Some("'--dot' prints a graph, which has no JSON: leave out '--dot' or '--json'");
    }
    if is_json && request.files.trace.is_some() {
        return Some(
            "'--show' prints lines of a trace, which have no JSON: leave out '--show' or '--json'",
        );
    }
    if request.may_be_cut && is_eager(request.task) {
        return Some(
            "'--cut' is for a report that is written as the trace comes: leave out '--eager' or '--cut'",
        );
    }
    None
}

/// Whether a task makes every round of two places or more on threads.
fn is_eager(task: Task) -> bool {
    match task {
        Task::Replay(options) => matches!(options.mode, Mode::Run { eager: true, .. }),
        Task::Diff(_) | Task::Show(_) | Task::Make => false,
    }
}

/// Whether the output of a task is a graph.
fn is_graph(task: Task) -> bool {
    match task {
        Task::Replay(options) => matches!(
            options.mode,
            Mode::Rounds { dot: true, .. } | Mode::Depends { dot: true }
        ),
        Task::Diff(_) | Task::Show(_) | Task::Make => false,
    }
}

/// Runs a trace, or checks one of any version.
fn replayed<'a, T: Threads + Wait + Sync>(
    rt: &'a HostRuntime,
    threads: &T,
    input: Input,
    request: &Request<'a>,
    options: &Options,
) -> Result<(), Trouble<'a>>
    requires { IsServed options.now.mode }
{
    let form = request.form;
    let mut writer = FromStd::new(output_of(rt, request.files.output, &[&input])?);
    let mut reader = FromStd::new(input);
    let done = match options.mode {
        Mode::Check => run_check(rt.alloc(), &mut reader, &mut writer, form),
        Mode::Serial | Mode::Run { eager: false, .. } => {
            let done = run_report(
                threads,
                rt.alloc(),
                &mut reader,
                &mut writer,
                options,
                form,
                request.may_be_cut,
            );
            return reported(rt, writer.stream, done);
        }
        _ => run(threads, rt.alloc(), &mut reader, &mut writer, options, form),
    };
    ended(writer.stream, done)
}

/// Ends a report, and tells at which byte its trace is cut off, if it is.
fn reported<'a>(
    rt: &HostRuntime,
    output: Output<'a>,
    done: Result<Option<u64>, RunFault>,
) -> Result<(), Trouble<'a>> {
    let cut = match done {
        Ok(cut) => cut,
        Err(fault) => return ended(output, Err(fault)),
    };
    ended(output, Ok(()))?;
    if let Some(at) = cut {
        let _ = eprintln!(rt; "cut at {at}");
    }
    Ok(())
}

/// Shows a trace as text.
fn displayed<'a>(
    rt: &'a HostRuntime,
    input: Input,
    output: Option<&'a str>,
    look: Look,
) -> Result<(), Trouble<'a>> {
    let mut writer = FromStd::new(output_of(rt, output, &[&input])?);
    let mut reader = FromStd::new(input);
    let done = run_show(rt.alloc(), &mut reader, &mut writer, look);
    ended(writer.stream, done)
}

/// Makes a trace from text.
fn made<'a>(rt: &'a HostRuntime, input: Input, output: Option<&'a str>) -> Result<(), Trouble<'a>> {
    let mut writer = FromStd::new(output_of(rt, output, &[&input])?);
    let mut reader = FromStd::new(input);
    let done = run_make(rt.alloc(), &mut reader, &mut writer);
    ended_making(writer.stream, done)
}

/// Compares two reports, and shows the entries of a trace where one is named.
fn compared<'a>(
    rt: &'a HostRuntime,
    input: Input,
    files: Files<'a>,
    form: Form,
    terms: Terms,
) -> Result<(), Trouble<'a>> {
    let second = match files.second {
        Some(name) => Some(second_input(rt, files.input, name)?),
        None => None,
    };
    let trace = match files.trace {
        Some(name) => Some(trace_input(rt, files.input, files.second, name)?),
        None => None,
    };
    match (trace, second) {
        (None, None) => compared_together(rt, input, files.output, form, terms),
        (None, Some(second)) => compared_apart(rt, input, second, files.output, form, terms),
        (Some(trace), None) => shown_together(rt, trace, input, files.output, terms),
        (Some(trace), Some(second)) => shown_apart(rt, trace, input, second, files.output, terms),
    }
}

/// Compares the two reports of an input.
fn compared_together<'a>(
    rt: &'a HostRuntime,
    input: Input,
    output: Option<&'a str>,
    form: Form,
    terms: Terms,
) -> Result<(), Trouble<'a>> {
    let mut writer = FromStd::new(output_of(rt, output, &[&input])?);
    let mut reader = FromStd::new(input);
    let done = run_diff(rt.alloc(), &mut reader, &mut writer, form, terms);
    ended(writer.stream, done)
}

/// Compares the reports of two inputs.
fn compared_apart<'a>(
    rt: &'a HostRuntime,
    first: Input,
    second: Input,
    output: Option<&'a str>,
    form: Form,
    terms: Terms,
) -> Result<(), Trouble<'a>> {
    let mut writer = FromStd::new(output_of(rt, output, &[&first, &second])?);
    let mut first = FromStd::new(first);
    let mut second = FromStd::new(second);
    let done = run_diff_beside(
        rt.alloc(),
        &mut first,
        &mut second,
        &mut writer,
        form,
        terms,
    );
    ended(writer.stream, done)
}

/// Compares the two reports of an input, with the entries of a trace.
fn shown_together<'a>(
    rt: &'a HostRuntime,
    trace: Input,
    input: Input,
    output: Option<&'a str>,
    terms: Terms,
) -> Result<(), Trouble<'a>> {
    let mut writer = FromStd::new(output_of(rt, output, &[&trace, &input])?);
    let mut trace = FromStd::new(trace);
    let mut reader = FromStd::new(input);
    let done = run_diff_shown(rt.alloc(), &mut trace, &mut reader, &mut writer, terms);
    ended(writer.stream, done)
}

/// Compares the reports of two inputs, with the entries of a trace.
fn shown_apart<'a>(
    rt: &'a HostRuntime,
    trace: Input,
    first: Input,
    second: Input,
    output: Option<&'a str>,
    terms: Terms,
) -> Result<(), Trouble<'a>> {
    let mut writer = FromStd::new(output_of(rt, output, &[&trace, &first, &second])?);
    let mut trace = FromStd::new(trace);
    let mut first = FromStd::new(first);
    let mut second = FromStd::new(second);
    let done = run_diff_of_two_shown(
        rt.alloc(),
        &mut trace,
        &mut first,
        &mut second,
        &mut writer,
        terms,
    );
    ended(writer.stream, done)
}

/// The program's arguments, without its name.
fn arguments<R: Env + AllocGlobal>(rt: &R) -> Result<Vec<String>, Usage> {
    let alloc = rt.alloc();
    let words = match env::args(rt) {
        Ok(words) => words,
        Err(error) if error.kind() == ErrorKind::OutOfMemory => return Err(no_memory(alloc)),
        Err(_) => return Err(first_not_text(rt)),
    };
    let words: Result<Vec<String>, AllocError> = words.skip(1).collect(alloc);
    words.map_err(|_| no_memory(alloc))
}

/// The most bytes of an argument: no longer one can be handed to a program.
const LONGEST_WORD: usize = 131_072;

/// The answer to the first argument that is not text.
fn first_not_text<R: Env + AllocGlobal>(rt: &R) -> Usage {
    let alloc = rt.alloc();
    let Ok(mut word) = vec![in alloc; 0u8; LONGEST_WORD] else {
        return no_memory(alloc);
    };
    for place in 0..usize::MAX {
        match rt.arg(place, word.as_mut_slice()) {
            Ok(count) if str::from_utf8(&word[..count]).is_err() => {
                return not_text(alloc, &word[..count]);
            }
            Ok(_) | Err(FillError::TooLong) => {}
            Err(FillError::NotPresent) => break,
        }
    }
    not_text(alloc, &[])
}
