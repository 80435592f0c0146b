//! The words of the command line.
ghost use Rattle.std.specs.Prelude.{◌≡◌, ◌≤◌, ◌⊎◌, ℕ, string_bytes, IfOk, IsErrAnd, MatchResult};
ghost use Rattle.std.specs.Prelude.{List, Some, codes, map};
ghost use Rattle.std.specs.Fmt.{decimal};
ghost use Rattle.clap.specs.Words.{App, FailsBy, app_of, fault_of, first_value, found_of, kind_of};
ghost use Rattle.clap.specs.Words.{one_text};
ghost use Rattle.clap.specs.Words.{subcommand_rows_of, with_subcommand};
ghost use Rattle.program_words.specs.Options.{CommandName, Use, all_sums_flag, cut_flag, dot_flag};
ghost use Rattle.program_words.specs.Options.{eager_flag, file_argument, first_option, is_used};
ghost use Rattle.program_words.specs.Options.{json_flag, names_flag, output_option, places_flag};
ghost use Rattle.program_words.specs.Options.{second_argument, show_option, strict_flag, sums_flag};
ghost use Rattle.program_words.specs.Options.{truncated_flag, value_of};
ghost use Rattle.program_words.specs.Options.{window_option, workers_option};
ghost use Rattle.program_words.specs.Words.{AreTexts, AskForHelp, AskForVersion, FailsByRules};
ghost use Rattle.program_words.specs.Words.{GivesHelp, GivesRequest, GivesVersion, HasApp, HasFiles};
ghost use Rattle.program_words.specs.Words.{IsCommand, IsFound, IsRequest, IsOption, IsServedTask};
ghost use Rattle.program_words.specs.Words.{check_command, compare_command, depends_command};
ghost use Rattle.program_words.specs.Words.{diff_command, form_of_flag, kind_meant, look_in};
ghost use Rattle.program_words.specs.Words.{make_command, not_text, options_in, replayer};
ghost use Rattle.program_words.specs.Words.{replayer_alone, rounds_command, run_command};
ghost use Rattle.program_words.specs.Words.{serial_command, show_command, shown_in, sums_in};
ghost use Rattle.program_words.specs.Words.{task_in, terms_in, with_cut, with_files, with_form};
ghost use Rattle.program_words.specs.Words.{with_option};
ghost use Rattle.program_words.specs.Words.{with_replays};
ghost use Rattle.program_words.specs.Limits.{IsServed};

use clap::error::ErrorKind;
use clap::{Arg, ArgAction, ArgMatches, Command, Error, value_parser};
use json_lines::Form;
use replay_report::{Shown, SumsShown, escaped};
use report_diff::Terms;
use std::alloc::{AllocError, Global};
use trace_text::Look;

/// What the program does with a trace.
#[derive(Clone, Copy, Debug, PartialEq, Eq)]
pub enum Mode {
    /// A run of the places in recorded order, and its report.
    Serial,
    /// A run on worker threads, in rounds where these may pay or, where it is eager, always, and its
    /// report.
    Run {
        workers: u32,
        window: u32,
        eager: bool,
    },
    /// Both runs, and whether they gave the same, in one line. An eager one runs every round of two
    /// places or more on threads.
    Compare {
        workers: u32,
        window: u32,
        eager: bool,
    },
    /// In which round each place runs and for which one it waited, as lines or, with `dot`, as a
    /// graph.
    Rounds {
        window: u32,
        dot: bool,
    },
    /// Which earlier places each place waits for, whatever runs them, as lines or, with `dot`, as a
    /// graph.
    Depends {
        dot: bool,
    },
    /// How many places and rings the trace has, in one line. Nothing is run.
    Check,
}

/// How a trace is replayed, or looked at.
#[derive(Clone, Copy, Debug, PartialEq, Eq)]
pub struct Options {
    pub mode: Mode,
    /// What the report shows beside what each one does.
    pub shown: Shown,
}

/// What the words ask for.
#[derive(Clone, Copy, Debug, PartialEq, Eq)]
pub enum Task {
    /// A mode, with a trace.
    Replay(Options),
    /// A comparison of two reports.
    Diff(Terms),
    /// A trace as text.
    Show(Look),
    /// A trace from text.
    Make,
}

/// The names of files that the words give. No name, and for an input the name `-`, stands for
/// standard input or standard output.
#[derive(Clone, Copy, Debug, PartialEq, Eq)]
pub struct Files<'a> {
    pub input: Option<&'a str>,
    /// The second report of a comparison; where it has no name, both come from the first input.
    pub second: Option<&'a str>,
    /// The trace whose entries a comparison shows.
    pub trace: Option<&'a str>,
    pub output: Option<&'a str>,
}

/// A task, the files that it reads and writes, the form of what it writes, and what it takes for a
/// trace.
#[derive(Clone, Copy, Debug, PartialEq, Eq)]
pub struct Request<'a> {
    pub task: Task,
    pub files: Files<'a>,
    pub form: Form,
    /// A trace of version 3 that is cut off is taken as one that ends behind its last whole record.
    pub may_be_cut: bool,
}

/// The version of the program, and of the formats that it reads and writes. It stands here alone.
const VERSION: &str = "0.1.0
trace formats 1, 2 and 3
report formats 1 and 2";

/// What help says at its end.
const STATUSES: &str = "Examples:
  uring_replay check a.trace
  uring_replay serial a.trace --sums --output a.report
  uring_replay diff a.report b.report

Exit status:
  0  done
  1  the input is not a trace, not the text of one, or not two reports
  2  invalid command line
  3  out of memory, no thread, or an input or output error
  4  `compare` or `diff` found a difference";

/// What the help of a command that reads a trace says of its input.
const TRACE: &str = "The trace; `-` or nothing: standard input";

/// What that of `make` says of its input.
const TEXT: &str = "The text; `-` or nothing: standard input";

/// What that of `diff` says of its inputs.
const FIRST_REPORT: &str = "The first report, or both in one file; `-` or nothing: standard input";

/// Why the words give no options.
#[derive(Clone, Copy, Debug, PartialEq, Eq)]
pub enum UsageKind {
    /// The words ask for help: the text is for standard output.
    Help,
    /// The words ask for the version: the text is for standard output.
    Version,
    /// The words are wrong: the text is for standard error.
    Wrong,
    /// Memory ran out, perhaps for the text.
    Memory,
}

/// Why the words give no options, with the text to print.
#[derive(Debug, Drop)]
pub struct Usage {
    pub kind: UsageKind,
    pub text: String,
}

/// A report that shows nothing beside what each one does.
const PLAIN: Shown = Shown {
    sums: SumsShown::None,
    names: false,
};

/// The most workers of a round.
const MOST_WORKERS: u32 = 64;

/// The most pending places that a round looks at.
const MOST_PLACES: u32 = 4096;

/// Reads the words after the program's name: `serial` and `run`, each with `--sums`, `--all-sums` and
/// `--names` or without, `compare`, `rounds` and `depends`, with `--dot` or without, `show` with `--places`
/// or without, `check`, `make` or `diff`, with `--strict`
/// and `--truncated` or without. `run` and
/// `compare` come with the numbers of workers and of places or without, `rounds` with that of places.
/// Each has the names of its input and output or not. Each but `compare`, `show` and `make` comes with
/// `--json` or without, `serial` and `run` also with `--cut`. Any other words are wrong, unless they ask for help or for the version.
pub fn read_words<'a>(alloc: Global, words: &'a [&'a str]) -> Result<Request<'a>, Usage>
    ensures request { (command : CommandName) (uses : List Use)
        → IsCommand command uses (map (λ word. word.now) words.now)
        → GivesRequest command uses result }
    ensures help { AskForHelp (map (λ word. word.now) words.now) → GivesHelp result }
    ensures version { AskForVersion (map (λ word. word.now) words.now) → GivesVersion result }
    ensures served { IfOk result (λ request. IsServedTask request.task) }

    // All other words by the rules of the command line.
    ensures rules { FailsByRules (fault_of replayer (map (λ word. word.now) words.now)) result }
{
    match parsed(alloc, words) {
        Ok(request) => Ok(request),
        Err(error) => Err(usage_of(alloc, &error)),
    }
}

fn parsed<'a>(alloc: Global, words: &'a [&'a str]) -> Result<Request<'a>, Error>
    ensures request { (command : CommandName) (uses : List Use)
        → IsCommand command uses (map (λ word. word.now) words.now)
        → MatchResult result (IsRequest command uses)
        (λ error. kind_of error ≡ ErrorKind.OutOfMemory) }
    ensures help { AskForHelp (map (λ word. word.now) words.now) → IsErrAnd result (λ error.
        (kind_of error ≡ ErrorKind.DisplayHelp) ⊎ (kind_of error ≡ ErrorKind.OutOfMemory)) }
    ensures version { AskForVersion (map (λ word. word.now) words.now) → IsErrAnd result (λ error.
        (kind_of error ≡ ErrorKind.DisplayVersion) ⊎ (kind_of error ≡ ErrorKind.OutOfMemory)) }
    ensures served { IfOk result (λ request. IsServedTask request.task) }
    ensures rules { FailsBy (fault_of replayer (map (λ word. word.now) words.now)) result }
{
    let command = program(alloc)?;
    match command.try_get_matches_from(words) {
        Ok(matches) => Ok(request_in(&matches)),
        Err(error) => Err(error),
    }
}

/// What the subcommand that was named asks for.
fn request_in<'a>(matches: &ArgMatches<'a>) -> Request<'a>
    ensures request { (command : CommandName) (uses : List Use)
        → IsFound command uses (subcommand_rows_of matches.now) → IsRequest command uses result }
    ensures served { IsServedTask result.task }
{
    Request {
        task: task_in(matches),
        files: files_in(matches),
        form: form_in(matches),
        may_be_cut: cut_in(matches),
    }
}

/// The form that is asked for.
fn form_in(matches: &ArgMatches<'_>) -> Form
    ensures { (command : CommandName) (uses : List Use)
        → IsFound command uses (subcommand_rows_of matches.now)
        → result ≡ form_of_flag (is_used (codes "json") uses) }
{
    match matches.subcommand() {
        Some((_, chosen)) => form_of_flag(chosen.get_flag("json")),
        None => Form::Text,
    }
}

/// Whether the trace may be cut off.
fn cut_in(matches: &ArgMatches<'_>) -> bool
    ensures { (command : CommandName) (uses : List Use)
        → IsFound command uses (subcommand_rows_of matches.now)
        → result ≡ is_used (codes "cut") uses }
{
    match matches.subcommand() {
        Some((_, chosen)) => chosen.get_flag("cut"),
        None => false,
    }
}

fn form_of_flag(json: bool) -> Form
    ensures { result ≡ form_of_flag json }
{
    if json { Form::Json } else { Form::Text }
}

/// The files that are named behind the subcommand.
fn files_in<'a>(matches: &ArgMatches<'a>) -> Files<'a>
    ensures { (command : CommandName) (uses : List Use)
        → IsFound command uses (subcommand_rows_of matches.now)
        → HasFiles (λ word. value_of word uses) result }
{
    match matches.subcommand() {
        Some((_, chosen)) => files_of(chosen),
        None => Files {
            input: None,
            second: None,
            trace: None,
            output: None,
        },
    }
}

/// The files that the words behind a subcommand name.
fn files_of<'a>(chosen: &ArgMatches<'a>) -> Files<'a>
    ensures { HasFiles (first_value (found_of chosen.now)) result }
{
    Files {
        input: chosen.get_str("file"),
        second: chosen.get_str("second"),
        trace: chosen.get_str("show"),
        output: chosen.get_str("output"),
    }
}

/// The task of the subcommand that was named.
fn task_in(matches: &ArgMatches<'_>) -> Task
    ensures task { (command : CommandName) (uses : List Use)
        → IsFound command uses (subcommand_rows_of matches.now)
        → result ≡ task_in command uses }
    ensures served { IsServedTask result }
{
    match matches.subcommand() {
        Some(("diff", chosen)) => Task::Diff(terms_in(chosen)),
        Some(("show", chosen)) => Task::Show(look_in(chosen)),
        Some(("make", _)) => Task::Make,
        _ => Task::Replay(options_in(matches)),
    }
}

/// How two reports are to be compared.
fn terms_in(matches: &ArgMatches<'_>) -> Terms
    ensures { (command : CommandName) (uses : List Use)
        → AreTexts command uses (one_text (found_of matches.now)) → result ≡ terms_in uses }
{
    Terms {
        strict: matches.get_flag("strict"),
        truncated: matches.get_flag("truncated"),
    }
}

/// How a trace is to be shown.
fn look_in(matches: &ArgMatches<'_>) -> Look
    ensures { (command : CommandName) (uses : List Use)
        → AreTexts command uses (one_text (found_of matches.now)) → result ≡ look_in uses }
{
    Look {
        places: matches.get_flag("places"),
        first: matches.get_one::<u32>("first"),
    }
}

/// The options of the subcommand that was named, where it is one with a trace.
fn options_in(matches: &ArgMatches<'_>) -> Options
    ensures options { (command : CommandName) (uses : List Use)
        → IsFound command uses (subcommand_rows_of matches.now)
        → result ≡ options_in command uses }
    ensures served { IsServed result.mode }
{
    match matches.subcommand() {
        Some(("serial", chosen)) => Options {
            mode: Mode::Serial,
            shown: shown_in(chosen),
        },
        Some(("run", chosen)) => Options {
            mode: Mode::Run {
                workers: number_in(chosen, "workers", MOST_WORKERS),
                window: number_in(chosen, "window", MOST_PLACES),
                eager: chosen.get_flag("eager"),
            },
            shown: shown_in(chosen),
        },
        Some(("compare", chosen)) => Options {
            mode: Mode::Compare {
                workers: number_in(chosen, "workers", MOST_WORKERS),
                window: number_in(chosen, "window", MOST_PLACES),
                eager: chosen.get_flag("eager"),
            },
            shown: PLAIN,
        },
        Some(("rounds", chosen)) => Options {
            mode: Mode::Rounds {
                window: number_in(chosen, "window", MOST_PLACES),
                dot: chosen.get_flag("dot"),
            },
            shown: PLAIN,
        },
        Some(("depends", chosen)) => Options {
            mode: Mode::Depends {
                dot: chosen.get_flag("dot"),
            },
            shown: PLAIN,
        },
        _ => Options {
            mode: Mode::Check,
            shown: PLAIN,
        },
    }
}

/// What the report is to show.
fn shown_in(matches: &ArgMatches<'_>) -> Shown
    ensures { (command : CommandName) (uses : List Use)
        → AreTexts command uses (one_text (found_of matches.now)) → result ≡ shown_in uses }
{
    Shown {
        sums: sums_in(matches),
        names: matches.get_flag("names"),
    }
}

/// The sums that are asked for: all, where two words ask for some.
fn sums_in(matches: &ArgMatches<'_>) -> SumsShown
    ensures { (command : CommandName) (uses : List Use)
        → AreTexts command uses (one_text (found_of matches.now)) → result ≡ sums_in uses }
{
    if matches.get_flag("all-sums") {
        SumsShown::All
    } else if matches.get_flag("sums") {
        SumsShown::Small
    } else {
        SumsShown::None
    }
}

/// The number of an option, from 1 to the most.
fn number_in(matches: &ArgMatches<'_>, id: &str, most: u32) -> u32
    requires { 1 ≤ most }
    ensures limits { (1 ≤ result) × (result ≤ most) }
    ensures number { (n : ℕ) → one_text (found_of matches.now) id.now ≡ Some (decimal n)
        → 1 ≤ n → n ≤ most → result ≡ n }
{
    let number = matches.get_one::<u32>(id).unwrap_or(1);
    // The option's parser refuses any other number, but what `clap` promises of the values that
    // have passed speaks of a command's own options, not of those of a subcommand.
    number.clamp(1, most)
}

/// The command line.
fn program<'a>(alloc: Global) -> Result<Command<'a>, AllocError>
    ensures { IfOk result (λ command. app_of command ≡ replayer) }
{
    let command = with_replays(alloc, program_alone(alloc)?)?;
    let rounds = with_files(alloc, TRACE, rounds_command(alloc));
    let command = with_subcommand(command, with_form(alloc, rounds))?;
    let depends = with_files(alloc, TRACE, depends_command(alloc));
    let command = with_subcommand(command, with_form(alloc, depends))?;
    let check = with_files(alloc, TRACE, Ok(check_command(alloc)));
    let command = with_subcommand(command, with_form(alloc, check))?;
    let command = with_subcommand(command, with_files(alloc, TRACE, show_command(alloc)))?;
    let command = with_subcommand(command, with_files(alloc, TEXT, Ok(make_command(alloc))))?;
    let reports = with_files(alloc, FIRST_REPORT, diff_command(alloc));
    with_subcommand(command, with_form(alloc, with_second(alloc, reports)))
}

/// A command line with a subcommand more, where there was memory for that.
fn with_subcommand<'a>(
    command: Command<'a>,
    more: Result<Command<'a>, AllocError>,
) -> Result<Command<'a>, AllocError>
    ensures { (app : App) → IfOk more.entry (HasApp app) → IfOk result
        (λ longer. app_of longer ≡ with_subcommand (app_of command.entry) app.top) }
{
    command.subcommand(more?)
}

/// A command that may be given the names of its input and of its output.
fn with_files<'a>(
    alloc: Global,
    input: &'a str,
    command: Result<Command<'a>, AllocError>,
) -> Result<Command<'a>, AllocError>
    ensures { (app : App) → IfOk command.entry (HasApp app)
        → IfOk result (λ more. HasApp (with_files app) more) }
{
    command?
        .arg(file_argument(alloc, input))?
        .arg(output_option(alloc))
}

/// A command that may be given the name of a second input.
fn with_second<'a>(
    alloc: Global,
    command: Result<Command<'a>, AllocError>,
) -> Result<Command<'a>, AllocError>
    ensures { (app : App) → IfOk command.entry (HasApp app)
        → IfOk result (λ more. HasApp (with_option app second_argument) more) }
{
    command?.arg(second_argument(alloc))
}

/// A command whose output may be JSON.
fn with_form<'a>(
    alloc: Global,
    command: Result<Command<'a>, AllocError>,
) -> Result<Command<'a>, AllocError>
    ensures { (app : App) → IfOk command.entry (HasApp app)
        → IfOk result (λ more. HasApp (with_form app) more) }
{
    command?.arg(json_flag(alloc))
}

/// A command whose trace may be cut off.
fn with_cut<'a>(
    alloc: Global,
    command: Result<Command<'a>, AllocError>,
) -> Result<Command<'a>, AllocError>
    ensures { (app : App) → IfOk command.entry (HasApp app)
        → IfOk result (λ more. HasApp (with_cut app) more) }
{
    command?.arg(cut_flag(alloc))
}

/// The command line with no subcommand.
fn program_alone<'a>(alloc: Global) -> Result<Command<'a>, AllocError>
    ensures { IfOk result (λ command. app_of command ≡ replayer_alone) }
{
    let command = Command::new(alloc, "uring_replay")
        .bin_name("uring_replay")?
        .about("Execute recorded io_uring submissions in memory and report every result")
        .after_help(STATUSES)
        .version(VERSION)
        .no_binary_name(true)
        .subcommand_required(true);
    Ok(command)
}

/// A command line with the subcommands that replay a trace too.
fn with_replays<'a>(alloc: Global, command: Command<'a>) -> Result<Command<'a>, AllocError>
    ensures { IfOk result (λ more. app_of more ≡ with_replays (app_of command.entry)) }
{
    let serial = with_files(alloc, TRACE, serial_command(alloc));
    let serial = with_cut(alloc, with_form(alloc, serial));
    let command = with_subcommand(command, serial)?;
    let run = with_files(alloc, TRACE, run_command(alloc));
    let run = with_cut(alloc, with_form(alloc, run));
    let command = with_subcommand(command, run)?;
    with_subcommand(command, with_files(alloc, TRACE, compare_command(alloc)))
}

fn serial_command<'a>(alloc: Global) -> Result<Command<'a>, AllocError>
    ensures { IfOk result (λ command. HasApp serial_command command) }
{
    Command::new(alloc, "serial")
        .after_help("Example: uring_replay serial a.trace --output a.report")
        .about("Execute one entry at a time, in recorded order, and print the report")
        .arg(sums_flag(alloc))?
        .arg(all_sums_flag(alloc))?
        .arg(names_flag(alloc))
}

fn run_command<'a>(alloc: Global) -> Result<Command<'a>, AllocError>
    ensures { IfOk result (λ command. HasApp run_command command) }
{
    Command::new(alloc, "run")
        .after_help("Example: uring_replay run a.trace --sums --workers 8")
        .about(
            "Print the report of `serial`, on up to N threads where they save time (large writes, --sums)",
        )
        .arg(workers_option(alloc))?
        .arg(window_option(alloc))?
        .arg(sums_flag(alloc))?
        .arg(all_sums_flag(alloc))?
        .arg(names_flag(alloc))?
        .arg(eager_flag(alloc))
}

fn compare_command<'a>(alloc: Global) -> Result<Command<'a>, AllocError>
    ensures { IfOk result (λ command. HasApp compare_command command) }
{
    Command::new(alloc, "compare")
        .after_help("Example: uring_replay compare a.trace --workers 8 --window 1024")
        .about("Replay serially and in rounds, and print `equal` if the results are the same")
        .arg(workers_option(alloc))?
        .arg(window_option(alloc))?
        .arg(eager_flag(alloc))
}

fn rounds_command<'a>(alloc: Global) -> Result<Command<'a>, AllocError>
    ensures { IfOk result (λ command. HasApp rounds_command command) }
{
    Command::new(alloc, "rounds")
        .after_help("Example: uring_replay rounds a.trace --dot | dot -Tsvg > a.svg")
        .about("Show which places can run at the same time, and what blocked each other one")
        .arg(window_option(alloc))?
        .arg(dot_flag(alloc))
}

fn depends_command<'a>(alloc: Global) -> Result<Command<'a>, AllocError>
    ensures { IfOk result (λ command. HasApp depends_command command) }
{
    Command::new(alloc, "depends")
        .after_help("Example: uring_replay depends a.trace --dot | dot -Tsvg > a.svg")
        .about("Show which earlier places each place depends on, and how parallel the trace is")
        .arg(dot_flag(alloc))
}

fn check_command<'a>(alloc: Global) -> Command<'a>
    ensures { HasApp check_command result }
{
    Command::new(alloc, "check")
        .after_help("Example: uring_replay check a.trace")
        .about(
            "Check that the input is a trace; count its places (entries, fills, new rings) and its rings",
        )
}

fn show_command<'a>(alloc: Global) -> Result<Command<'a>, AllocError>
    ensures { IfOk result (λ command. HasApp show_command command) }
{
    Command::new(alloc, "show")
        .after_help("Example: uring_replay show a.trace --places")
        .about("Print a trace as text, a line for each file, ring and entry")
        .arg(places_flag(alloc))?
        .arg(first_option(alloc))
}

fn make_command<'a>(alloc: Global) -> Command<'a>
    ensures { HasApp make_command result }
{
    Command::new(alloc, "make")
        .after_help("Example: uring_replay make a.text --output a.trace")
        .about("Make a trace from the text that `show` prints or a person wrote")
}

fn diff_command<'a>(alloc: Global) -> Result<Command<'a>, AllocError>
    ensures { IfOk result (λ command. HasApp diff_command command) }
{
    Command::new(alloc, "diff")
        .after_help("Example: uring_replay diff a.report b.report")
        .about("Compare two reports; facts that only one of them has are ignored")
        .arg(strict_flag(alloc))?
        .arg(truncated_flag(alloc))?
        .arg(show_option(alloc))
}

fn sums_flag<'a>(alloc: Global) -> Arg<'a>
    ensures { IsOption sums_flag result }
{
    Arg::new(alloc, "sums")
        .long("sums")
        .action(ArgAction::SetTrue)
        .help("Print SHA-256 sums of files and buffers")
}

fn all_sums_flag<'a>(alloc: Global) -> Arg<'a>
    ensures { IsOption all_sums_flag result }
{
    Arg::new(alloc, "all-sums")
        .long("all-sums")
        .action(ArgAction::SetTrue)
        .help("The same, and the tree sums of files over 16 MiB")
}

fn names_flag<'a>(alloc: Global) -> Arg<'a>
    ensures { IsOption names_flag result }
{
    Arg::new(alloc, "names")
        .long("names")
        .action(ArgAction::SetTrue)
        .help("Print the names of operations and errors")
}

fn dot_flag<'a>(alloc: Global) -> Arg<'a>
    ensures { IsOption dot_flag result }
{
    Arg::new(alloc, "dot")
        .long("dot")
        .action(ArgAction::SetTrue)
        .help("Print a graph for graphviz")
}

fn json_flag<'a>(alloc: Global) -> Arg<'a>
    ensures { IsOption json_flag result }
{
    Arg::new(alloc, "json")
        .long("json")
        .action(ArgAction::SetTrue)
        .help("Print each line as an object of JSON")
}

fn cut_flag<'a>(alloc: Global) -> Arg<'a>
    ensures { IsOption cut_flag result }
{
    Arg::new(alloc, "cut")
        .long("cut")
        .action(ArgAction::SetTrue)
        .help(
            "Take a trace of version 3 that is cut off as one that ends behind its last whole record",
        )
}

fn places_flag<'a>(alloc: Global) -> Arg<'a>
    ensures { IsOption places_flag result }
{
    Arg::new(alloc, "places")
        .long("places")
        .action(ArgAction::SetTrue)
        .help("Print the place of each entry and fill before it, as a comment")
}

fn first_option<'a>(alloc: Global) -> Arg<'a>
    ensures { IsOption first_option result }
{
    Arg::new(alloc, "first")
        .long("first")
        .value_name("N")
        .value_parser(value_parser!(u32).range(1..=1_073_741_824))
        .help("Print the first N bytes alone of each file, entry and fill")
}

fn show_option<'a>(alloc: Global) -> Arg<'a>
    ensures { IsOption show_option result }
{
    Arg::new(alloc, "show")
        .long("show")
        .value_name("TRACE")
        .help("Print the entry of this trace below each line that differs and is of one")
}

fn strict_flag<'a>(alloc: Global) -> Arg<'a>
    ensures { IsOption strict_flag result }
{
    Arg::new(alloc, "strict")
        .long("strict")
        .action(ArgAction::SetTrue)
        .help("Exit with status 4 also if bytes or checksums were not compared")
}

fn truncated_flag<'a>(alloc: Global) -> Arg<'a>
    ensures { IsOption truncated_flag result }
{
    Arg::new(alloc, "truncated")
        .long("truncated")
        .action(ArgAction::SetTrue)
        .help("Accept a second report without its line `end`, from a recording that was killed")
}

fn workers_option<'a>(alloc: Global) -> Arg<'a>
    ensures { IsOption workers_option result }
{
    Arg::new(alloc, "workers")
        .long("workers")
        .value_name("N")
        .value_parser(value_parser!(u32).range(1..=64))
        .default_value("4")
        .help("Most threads, 1 to 64")
}

fn window_option<'a>(alloc: Global) -> Arg<'a>
    ensures { IsOption window_option result }
{
    Arg::new(alloc, "window")
        .long("window")
        .value_name("W")
        .value_parser(value_parser!(u32).range(1..=4096))
        .default_value("64")
        .help("Most unfinished places that a round looks at, 1 to 4096; wide windows cost time")
}

fn eager_flag<'a>(alloc: Global) -> Arg<'a>
    ensures { IsOption eager_flag result }
{
    Arg::new(alloc, "eager")
        .long("eager")
        .action(ArgAction::SetTrue)
        .help("Run every round of two places or more on threads (slower, for trying)")
}

fn file_argument<'a>(alloc: Global, help: &'a str) -> Arg<'a>
    ensures { IsOption file_argument result }
{
    Arg::new(alloc, "file").value_name("FILE").help(help)
}

fn second_argument<'a>(alloc: Global) -> Arg<'a>
    ensures { IsOption second_argument result }
{
    Arg::new(alloc, "second")
        .value_name("SECOND")
        .help("The second report; each file then has one")
}

fn output_option<'a>(alloc: Global) -> Arg<'a>
    ensures { IsOption output_option result }
{
    Arg::new(alloc, "output")
        .short('o')
        .long("output")
        .value_name("FILE")
        .help("Write to this file, once the whole output is there, and not to standard output")
}

fn usage_of(alloc: Global, error: &Error) -> Usage
    ensures { (result.kind ≡ kind_meant (kind_of error.now)) ⊎ (result.kind ≡ UsageKind.Memory) }
{
    let kind = match error.kind() {
        ErrorKind::DisplayHelp => UsageKind::Help,
        ErrorKind::DisplayVersion => UsageKind::Version,
        ErrorKind::OutOfMemory => UsageKind::Memory,
        _ => UsageKind::Wrong,
    };
    match error.to_string(alloc) {
        Ok(text) => Usage { kind, text },
        Err(_) => no_memory(alloc),
    }
}

/// The answer to an argument that is not text, which it names.
pub fn not_text(alloc: Global, word: &[u8]) -> Usage
    ensures kind { (result.kind ≡ UsageKind.Wrong) ⊎ (result.kind ≡ UsageKind.Memory) }
    ensures text { result.kind ≡ UsageKind.Wrong → string_bytes result.text ≡ not_text word.now }
{
    match text_of_no_text(alloc, word) {
        Ok(text) => Usage {
            kind: UsageKind::Wrong,
            text,
        },
        Err(AllocError) => no_memory(alloc),
    }
}

fn text_of_no_text(alloc: Global, word: &[u8]) -> Result<String, AllocError>
    ensures { IfOk result (λ text. string_bytes text ≡ not_text word.now) }
{
    let word = escaped(alloc, word)?;
    format!(in alloc;
        "error: the argument '{word}' is not valid UTF-8\n\nFor more information, try '--help'.\n"
    )
}

/// The answer where memory ran out.
pub fn no_memory(alloc: Global) -> Usage
    ensures { result.kind ≡ UsageKind.Memory }
{
    Usage {
        kind: UsageKind::Memory,
        text: String::new(alloc),
    }
}
