//! What the program does with its words, and with what it reads.
ghost use Rattle.program_words.specs.Limits.{IsServed};

use crate::examples::{NEIGHBOURING_WRITES_DO_NOT_COLLIDE, READ_FOUR_BYTES};
use replay_core::{ReplayFault, Verdict};
use replay_program::{
    Files, Form, FromStd, Mode, Options, ReportsFault, RunFault, Task, read_words, run, run_alone,
    run_diff, run_diff_beside, run_diff_shown, run_make, told,
};
use replay_report::{Shown, SumsShown};
use report_diff::{Flaw, Refusal, Side, Terms};
use std::process::Abort;
use std::sync::Wait;
use std::test::Fail;
use std::thread::Threads;
use trace_format::{Kind, TraceFault};

const PLAIN: Shown = Shown {
    sums: SumsShown::None,
    names: false,
};

const WITH_SUMS: Shown = Shown {
    sums: SumsShown::Small,
    names: false,
};

const WITH_ALL: Shown = Shown {
    sums: SumsShown::All,
    names: true,
};

/// A comparison of two whole reports that fails by what differs alone.
const PLAIN_TERMS: Terms = Terms {
    strict: false,
    truncated: false,
};

const SERIAL: Options = Options {
    mode: Mode::Serial,
    shown: PLAIN,
};

const SUMS: Options = Options {
    mode: Mode::Serial,
    shown: WITH_SUMS,
};

const CHECK: Options = Options {
    mode: Mode::Check,
    shown: PLAIN,
};

fn run_with(workers: u32, window: u32, shown: Shown) -> Options {
    Options {
        mode: Mode::Run {
            workers,
            window,
            eager: false,
        },
        shown,
    }
}

fn compare_with(workers: u32, window: u32, eager: bool) -> Options {
    Options {
        mode: Mode::Compare {
            workers,
            window,
            eager,
        },
        shown: PLAIN,
    }
}

fn rounds_with(window: u32, dot: bool) -> Options {
    Options {
        mode: Mode::Rounds { window, dot },
        shown: PLAIN,
    }
}

fn depends_with(dot: bool) -> Options {
    Options {
        mode: Mode::Depends { dot },
        shown: PLAIN,
    }
}

const NO_FILES: Files<'static> = Files {
    input: None,
    second: None,
    trace: None,
    output: None,
};

#[test]
fn reads_names_of_files(rt: HostRuntime) {
    let words = ["diff", "a", "-o", "c", "-", "--show", "b"];
    let request = read_words(rt.alloc(), &words).expect(&rt, "a task");
    let files = Files {
        input: Some("a"),
        second: Some("-"),
        trace: Some("b"),
        output: Some("c"),
    };
    assert_eq!(rt; request.task, Task::Diff(PLAIN_TERMS));
    assert_eq!(rt; request.files, files);
}

#[test]
fn reads_words(rt: HostRuntime) {
    let cases: [(&[&str], Task); 14] = [
        (["serial"].as_slice(), Task::Replay(SERIAL)),
        (["serial", "--sums"].as_slice(), Task::Replay(SUMS)),
        (["run"].as_slice(), Task::Replay(run_with(4, 64, PLAIN))),
        (
            ["run", "--names", "--all-sums", "--sums"].as_slice(),
            Task::Replay(run_with(4, 64, WITH_ALL)),
        ),
        (
            ["run", "--workers", "7", "--window", "4096", "--sums"].as_slice(),
            Task::Replay(run_with(7, 4096, WITH_SUMS)),
        ),
        (
            ["compare"].as_slice(),
            Task::Replay(compare_with(4, 64, false)),
        ),
        (
            ["compare", "--window=1", "--eager", "--workers", "64"].as_slice(),
            Task::Replay(compare_with(64, 1, true)),
        ),
        (["rounds"].as_slice(), Task::Replay(rounds_with(64, false))),
        (
            ["rounds", "--dot", "--window", "2"].as_slice(),
            Task::Replay(rounds_with(2, true)),
        ),
        (["depends"].as_slice(), Task::Replay(depends_with(false))),
        (
            ["depends", "--dot"].as_slice(),
            Task::Replay(depends_with(true)),
        ),
        (["check"].as_slice(), Task::Replay(CHECK)),
        (["diff"].as_slice(), Task::Diff(PLAIN_TERMS)),
        (
            ["diff", "--truncated", "--strict"].as_slice(),
            Task::Diff(Terms {
                strict: true,
                truncated: true,
            }),
        ),
    ];
    for (words, wanted) in cases {
        let request = read_words(rt.alloc(), words).expect(&rt, "a task");
        assert_eq!(rt; request.task, wanted);
        assert_eq!(rt; request.files, NO_FILES);
    }
}

#[test]
fn statuses_and_lines(rt: HostRuntime) -> Result<(), Fail> {
    let refused = TraceFault {
        kind: Kind::NoParent,
        at: 35,
    };
    let no_memory = TraceFault {
        kind: Kind::Memory,
        at: 0,
    };
    let no_end = Refusal {
        side: Side::First,
        flaw: Flaw::End,
    };
    let cases = [
        (RunFault::Trace(refused), 1, "trace refused: NoParent at 35"),
        (RunFault::Trace(no_memory), 3, "fault: memory"),
        (RunFault::Replay(ReplayFault::Memory), 3, "fault: memory"),
        (RunFault::Replay(ReplayFault::NoThread), 3, "fault: thread"),
        (RunFault::Replay(ReplayFault::Workers), 2, "fault: workers"),
        (RunFault::Replay(ReplayFault::Window), 2, "fault: window"),
        (
            RunFault::Reports(ReportsFault::Refused(no_end)),
            1,
            "reports refused: the first has no line end",
        ),
        (
            RunFault::Reports(ReportsFault::TooLong),
            1,
            "reports refused: more than 1073741824 bytes",
        ),
        (RunFault::Reports(ReportsFault::Memory), 3, "fault: memory"),
        (RunFault::Read, 3, "fault: read"),
        (RunFault::Write, 3, "fault: write"),
        (RunFault::Different, 4, "different"),
    ];
    for (fault, status, line) in cases {
        assert_eq!(rt; fault.status(), status);
        let text = fault.to_string(rt.alloc())?;
        assert_eq!(rt; text.as_str(), line);
    }
    Ok(())
}

/// What a run on two workers, with a window of two places, writes for two places that don't
/// collide.
fn output_on_workers<R: Abort + AllocGlobal + Threads + Wait + Sync>(
    rt: &R,
    mode: Mode,
    output: &str,
)
    requires { IsServed mode }
{
    let alloc = rt.alloc();
    let trace = hex::decode(alloc, NEIGHBOURING_WRITES_DO_NOT_COLLIDE.trace).expect(rt, "a trace");
    let options = Options { mode, shown: PLAIN };
    let mut reader = FromStd::new(trace.as_slice());
    let mut writer = FromStd::new(Vec::new(alloc));
    let done = run(rt, alloc, &mut reader, &mut writer, &options, Form::Text);
    assert_eq!(rt; done, Ok(()));
    assert_eq!(rt; writer.stream.as_slice(), output.as_bytes());
}

#[test]
fn runs_on_workers(rt: HostRuntime) {
    for eager in [false, true] {
        let run = Mode::Run {
            workers: 2,
            window: 2,
            eager,
        };
        output_on_workers(&rt, run, NEIGHBOURING_WRITES_DO_NOT_COLLIDE.report);
        let compare = Mode::Compare {
            workers: 2,
            window: 2,
            eager,
        };
        output_on_workers(&rt, compare, "equal\n");
    }
}

/// The second write doesn't wait for the first, which is the first place of a longest path of one.
#[test]
fn tells_rounds(rt: HostRuntime) {
    let lines = Mode::Rounds {
        window: 2,
        dot: false,
    };
    let text = "uring-rounds 1\n\
        0 round=0\n\
        1 round=0\n\
        rounds 1\n\
        widest 2\n\
        mean 2.00\n\
        longest 1 to place 0\n\
        end\n";
    output_on_workers(&rt, lines, text);
    let graph = Mode::Rounds {
        window: 2,
        dot: true,
    };
    let text =
        "digraph rounds {\n  0 [label=\"0 in round 0\"];\n  1 [label=\"1 in round 0\"];\n}\n";
    output_on_workers(&rt, graph, text);
}

/// Neither write waits for the other, and each moves two bytes.
#[test]
fn tells_dependencies(rt: HostRuntime) {
    let text = "uring-depends 1\n\
        0\n\
        1\n\
        places 2\n\
        pairs 0\n\
        span 1 to place 0\n\
        parallelism 2.00\n\
        bytes 4\n\
        span-bytes 2 to place 0\n\
        parallelism-bytes 2.00\n\
        end\n";
    output_on_workers(&rt, Mode::Depends { dot: false }, text);
    let text = "digraph depends {\n  0 [label=\"0\"];\n  1 [label=\"1\"];\n}\n";
    output_on_workers(&rt, Mode::Depends { dot: true }, text);
}

#[test]
fn tells_a_difference(rt: HostRuntime) {
    let alloc = rt.alloc();
    let mut writer = FromStd::new(Vec::new(alloc));
    let done = told(alloc, &mut writer, Verdict::Reply(7));
    assert_eq!(rt; done, Err(RunFault::Different));
    assert_eq!(rt; writer.stream.as_slice(), "different reply 7\n".as_bytes());
}

#[test]
fn compares_two_reports(rt: HostRuntime) {
    let alloc = rt.alloc();
    let counts = "tree 0 equal, 0 different, 0 unchecked, 0 given\n\
        slots 0 equal, 0 different, 0 unchecked, 0 given\n\
        buffers 0 equal, 0 different, 0 unchecked, 0 given\n";
    let reports =
        "uring-report 1\n0 user=7 res=4 posted\nend\nuring-report 1\n0 user=7 res=5 posted op=1\nend\n";
    let mut reader = FromStd::new(reports.as_bytes());
    let mut writer = FromStd::new(Vec::new(alloc));
    let done = run_diff(alloc, &mut reader, &mut writer, Form::Text, PLAIN_TERMS);
    assert_eq!(rt; done, Err(RunFault::Different));
    let text = format!(in alloc;
        "- 0 user=7 res=4 posted\n+ 0 user=7 res=5 posted op=1\nentries 0 equal, 1 different, 0 unchecked, 0 given\n{counts}"
    ).expect(&rt, "memory");
    assert_eq!(rt; writer.stream.as_slice(), text.as_bytes());
}

#[test]
fn tells_a_comparison_as_json(rt: HostRuntime) {
    let alloc = rt.alloc();
    let reports =
        "uring-report 1\n0 user=7 res=4 posted\nend\nuring-report 1\n0 user=7 res=-5 silent x=\"\nend\n";
    let mut reader = FromStd::new(reports.as_bytes());
    let mut writer = FromStd::new(Vec::new(alloc));
    let done = run_diff(alloc, &mut reader, &mut writer, Form::Json, PLAIN_TERMS);
    assert_eq!(rt; done, Err(RunFault::Different));
    let text =
        "{\"sign\":\"-\",\"kind\":\"entry\",\"place\":0,\"user\":\"7\",\"res\":4,\"posted\":true}\n\
        {\"sign\":\"+\",\"kind\":\"entry\",\"place\":0,\"user\":\"7\",\"res\":-5,\"posted\":false,\"x\":\"\\\"\"}\n\
        {\"kind\":\"entries\",\"equal\":0,\"different\":1,\"unchecked\":0,\"given\":0}\n\
        {\"kind\":\"tree\",\"equal\":0,\"different\":0,\"unchecked\":0,\"given\":0}\n\
        {\"kind\":\"slots\",\"equal\":0,\"different\":0,\"unchecked\":0,\"given\":0}\n\
        {\"kind\":\"buffers\",\"equal\":0,\"different\":0,\"unchecked\":0,\"given\":0}\n";
    assert_eq!(rt; writer.stream.as_slice(), text.as_bytes());
}

#[test]
fn compares_the_reports_of_two_readers(rt: HostRuntime) {
    let alloc = rt.alloc();
    let mut first = FromStd::new("uring-report 1\n0 user=7 res=4 posted\nend\n".as_bytes());
    let mut second = FromStd::new("uring-report 1\n0 user=7 res=4 silent\nend\n".as_bytes());
    let mut writer = FromStd::new(Vec::new(alloc));
    let done = run_diff_beside(
        alloc,
        &mut first,
        &mut second,
        &mut writer,
        Form::Text,
        PLAIN_TERMS,
    );
    assert_eq!(rt; done, Err(RunFault::Different));
    let text = "- 0 user=7 res=4 posted\n\
        + 0 user=7 res=4 silent\n\
        entries 0 equal, 1 different, 0 unchecked, 0 given\n\
        tree 0 equal, 0 different, 0 unchecked, 0 given\n\
        slots 0 equal, 0 different, 0 unchecked, 0 given\n\
        buffers 0 equal, 0 different, 0 unchecked, 0 given\n";
    assert_eq!(rt; writer.stream.as_slice(), text.as_bytes());
}

#[test]
fn shows_the_entry_of_a_line_that_differs(rt: HostRuntime) {
    let alloc = rt.alloc();
    let trace = hex::decode(alloc, READ_FOUR_BYTES.trace).expect(&rt, "a trace");
    let mut trace = FromStd::new(trace.as_slice());
    let reports =
        "uring-report 1\n0 user=7 res=4\nend\nuring-report 1\n0 user=7 res=5\n1 user=8 res=0\nend\n";
    let mut reader = FromStd::new(reports.as_bytes());
    let mut writer = FromStd::new(Vec::new(alloc));
    let done = run_diff_shown(alloc, &mut trace, &mut reader, &mut writer, PLAIN_TERMS);
    assert_eq!(rt; done, Err(RunFault::Different));
    let text = "- 0 user=7 res=4\n\
        \x20 READ FIXED_FILE off=2 len=4 user_data=7\n\
        + 0 user=7 res=5\n\
        \x20 READ FIXED_FILE off=2 len=4 user_data=7\n\
        + 1 user=8 res=0\n\
        entries 0 equal, 2 different, 0 unchecked, 0 given\n\
        tree 0 equal, 0 different, 0 unchecked, 0 given\n\
        slots 0 equal, 0 different, 0 unchecked, 0 given\n\
        buffers 0 equal, 0 different, 0 unchecked, 0 given\n";
    assert_eq!(rt; writer.stream.as_slice(), text.as_bytes());
}

#[test]
fn makes_a_trace_of_version_3_and_shows_its_entry(rt: HostRuntime) {
    let alloc = rt.alloc();
    let mut text = FromStd::new("uring-trace 3\nring 0\nenter 0\n  NOP user_data=7\n".as_bytes());
    let mut made = FromStd::new(Vec::new(alloc));
    assert_eq!(rt; run_make(alloc, &mut text, &mut made), Ok(()));
    let mut trace = FromStd::new(made.stream.as_slice());
    let reports =
        "uring-report 2\n1 user=7 res=0\nend\nuring-report 2\n0 user=8 res=0\n1 user=7 res=4\nend\n";
    let mut reader = FromStd::new(reports.as_bytes());
    let mut writer = FromStd::new(Vec::new(alloc));
    let done = run_diff_shown(alloc, &mut trace, &mut reader, &mut writer, PLAIN_TERMS);
    assert_eq!(rt; done, Err(RunFault::Different));
    let shown = "- 1 user=7 res=0\n\
        \x20 NOP user_data=7\n\
        + 1 user=7 res=4\n\
        \x20 NOP user_data=7\n\
        + 0 user=8 res=0\n\
        entries 0 equal, 2 different, 0 unchecked, 0 given\n\
        tree 0 equal, 0 different, 0 unchecked, 0 given\n\
        slots 0 equal, 0 different, 0 unchecked, 0 given\n\
        buffers 0 equal, 0 different, 0 unchecked, 0 given\n";
    assert_eq!(rt; writer.stream.as_slice(), shown.as_bytes());
}

#[test]
fn writes_nothing_for_one_report(rt: HostRuntime) {
    let alloc = rt.alloc();
    let report = "uring-report 1\nring 0\nend\n";
    let mut reader = FromStd::new(report.as_bytes());
    let mut writer = FromStd::new(Vec::new(alloc));
    let done = run_diff(alloc, &mut reader, &mut writer, Form::Text, PLAIN_TERMS);
    let heading = Refusal {
        side: Side::Second,
        flaw: Flaw::Heading,
    };
    let refused = ReportsFault::Refused(heading);
    assert_eq!(rt; done, Err(RunFault::Reports(refused)));
    assert!(rt; writer.stream.is_empty());
}

#[test]
fn writes_nothing_for_a_refused_trace(rt: HostRuntime) -> Result<(), Fail> {
    let alloc = rt.alloc();
    let trace = hex::decode(alloc, READ_FOUR_BYTES.trace).expect(&rt, "a trace");
    let mut reader = FromStd::new(trace.as_slice().get(..176).ok_or("176 bytes")?);
    let mut writer = FromStd::new(Vec::new(alloc));
    let done = run_alone(alloc, &mut reader, &mut writer, &SERIAL, Form::Text);
    let short = TraceFault {
        kind: Kind::Short,
        at: 176,
    };
    assert_eq!(rt; done, Err(RunFault::Trace(short)));
    assert!(rt; writer.stream.is_empty());
    Ok(())
}
