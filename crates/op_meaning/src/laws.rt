//! Laws of sequential runs.
ghost use Rattle.op_meaning.specs.Laws.{RunsHaveFileNames};

/// Every world of a sequential run has names of files alone: 1 to 255 bytes, none of which is a
/// slash.
pub fn runs_have_file_names()
    ensures { RunsHaveFileNames }
{}
