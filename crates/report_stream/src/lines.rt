//! The lines of the record that has just run.
ghost use Rattle.std.specs.Prelude.{◌≡◌, ◌++◌, [], ◌∷◌, ℕ, List, OnOk};
ghost use Rattle.recording.specs.Steps.{places};
ghost use Rattle.trace_records.specs.declared.record.Record as three;
ghost use Rattle.trace_records.specs.declared.start.Start as three_start;
ghost use Rattle.replay_stream.specs.Replayed.{HasRunNext};
ghost use Rattle.report_stream.specs.Steps.{RanLast};
ghost use Rattle.report_stream.specs.Written.{IsTextTo, lines_in};

use replay_report::{Answer, Lines, Shown, push_line};
use replay_stream::Replaying;
use std::alloc::AllocError;

/// How the lines of entries are written.
pub(crate) fn lines_in(shown: Shown) -> Lines
    ensures { result ≡ lines_in shown }
{
    Lines {
        names: shown.names,
        in_order: true,
    }
}

/// Adds the lines of the last record's entries to a text.
pub(crate) fn push_lines(
    text: &mut Vec<u8>,
    replaying: &Replaying,
    shown: Shown,
) -> Result<(), AllocError>
    requires { RanLast replaying.now }
    // Behind those of the places before it they make the text up to its last place.
    ensures { (b : three_start.Start) → (front : List three.Record) → (r : three.Record)
        → (before : List ℕ) → HasRunNext b front r replaying.now
        → IsTextTo b (front ++ r ∷ []) shown replaying.now.first (before ++ text.old.items)
        → OnOk result (IsTextTo b (front ++ r ∷ []) shown
        (places replaying.now.recording) (before ++ text.new.items)) }
{
    let lines = lines_in(shown);
    let recording = &replaying.recording;
    for place in replaying.first..recording.places() {
        let reply = replaying.replies.get((place - replaying.first) as usize);
        let answer = Answer::of_kept(&reply);
        push_line(text, place, &recording.step(place), &answer, lines)?;
    }
    Ok(())
}
