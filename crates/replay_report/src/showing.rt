//! What a report shows beside what each one does.
ghost use Rattle.std.specs.Prelude.{◌≡◌};
ghost use Rattle.replay_report.specs.Report.{lines_of, list_count, shown_with, title};

use recording::Recording;

/// Which sums a report has.
#[derive(Clone, Copy, Debug, PartialEq, Eq)]
pub enum SumsShown {
    None,
    /// Of buffers, and of files of up to 16,777,216 bytes.
    Small,
    /// Of larger files too, made of the sums of their pieces.
    All,
}

/// What a report shows beside what each one does.
#[derive(Clone, Copy, Debug, PartialEq, Eq)]
pub struct Shown {
    pub sums: SumsShown,
    /// Whether entries have the names of their operations and errors.
    pub names: bool,
}

/// How the lines of entries are written.
#[derive(Clone, Copy, Debug, PartialEq, Eq)]
pub struct Lines {
    /// Whether they have the names of operations and errors.
    pub names: bool,
    /// Whether they stand in the order of places, each with its ring, or ring by ring.
    pub in_order: bool,
}

impl Lines {
    /// Those of a recording, with names or without.
    pub fn of(trace: &Recording, names: bool) -> Self
        ensures { result ≡ lines_of trace.now names }
    {
        Lines {
            names,
            in_order: trace.in_place_order,
        }
    }

    /// In how many lists they stand.
    pub(crate) fn count(self, trace: &Recording) -> usize
        ensures { result ≡ list_count self trace.now }
    {
        if self.in_order {
            1
        } else {
            trace.rings.as_slice().len()
        }
    }

    /// The first line of a report of such.
    pub fn title(self) -> &'static str
        ensures { result.now ≡ title self }
    {
        if self.in_order {
            "uring-report 2\n"
        } else {
            "uring-report 1\n"
        }
    }
}

impl Shown {
    /// No names, and sums of buffers and of small files or none.
    pub fn with(sums: bool) -> Self
        ensures { result ≡ shown_with sums }
    {
        let sums = if sums {
            SumsShown::Small
        } else {
            SumsShown::None
        };
        Shown { sums, names: false }
    }
}
