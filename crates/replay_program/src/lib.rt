//! What the program does: it reads words and a trace, runs the trace as the words ask, and writes
//! what that gave, or what stood in the way.
#![tactic(auto)]

mod any_trace;
mod beside;
mod checking;
mod differing;
mod ending;
mod explaining;
mod fault;
mod forms;
mod in_turn;
mod making;
mod recordings;
mod session;
mod showing;
mod streaming;

pub use any_trace::AnyTrace;
pub use beside::run_diff_beside;
pub use byte_transfer::{
    Failed, FromStd, MOST_BYTES, Sink, Source, TextFault, read_text, write_text,
};
pub use checking::run_check;
pub use differing::run_diff;
pub use ending::{Ending, Stream, fault_ending, usage_ending, usage_text};
pub use explaining::{run_diff_of_two_shown, run_diff_shown};
pub use fault::{ReportsFault, RunFault};
pub use making::{MakingFault, run_make};
pub use program_words::{
    Files, Form, Mode, Options, Request, Task, Usage, UsageKind, no_memory, not_text, read_words,
};
pub use session::{run, run_alone, told};
pub use showing::run_show;
pub use streaming::run_report;
