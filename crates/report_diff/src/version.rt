//! The versions of reports.
ghost use Rattle.std.specs.Prelude.{◌≡◌};
ghost use Rattle.report_diff.specs.Inputs.{version_in, version_of};
ghost use Rattle.report_diff.specs.Lines.{texts};
ghost use Rattle.report_diff.specs.Refusals.{version_number};

/// The version of a report. Entries stand by their rings in the first one, and by their places in
/// the second.
#[derive(Clone, Copy, Debug, PartialEq, Eq)]
pub enum Version {
    One,
    Two,
}

impl Version {
    /// The version of the report that lines begin with, by its heading.
    pub(crate) fn of(lines: &[&[u8]]) -> Option<Version>
        ensures { result ≡ version_of (texts lines.now) }
    {
        match lines.first() {
            Some(line) => Version::in_heading(line),
            None => None,
        }
    }

    fn in_heading(line: &[u8]) -> Option<Version>
        ensures { result ≡ version_in line.now }
    {
        if line == b"uring-report 1".as_slice() {
            Some(Version::One)
        } else if line == b"uring-report 2".as_slice() {
            Some(Version::Two)
        } else {
            None
        }
    }

    pub(crate) fn number(self) -> u8
        ensures { result ≡ version_number self }
    {
        match self {
            Version::One => 1,
            Version::Two => 2,
        }
    }
}
