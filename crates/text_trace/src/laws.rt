//! Laws of what a text means.

ghost use Rattle.text_trace.specs.Made.{LinesMakeTrace};

/// The lines of a trace make its bytes, one line after another, behind the header.
#[tactic(auto, using(crate::proofs::Joined::lines_make_trace))]
pub fn lines_make_trace()
    ensures { LinesMakeTrace }
{}
