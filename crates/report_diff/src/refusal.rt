//! Why texts are not two reports.
ghost use Rattle.std.specs.Prelude.{◌≡◌, Some};
ghost use Rattle.report_diff.specs.Refusals.{refusal_text, shown_byte, shown_subject, side_name};

use crate::version::Version;
use arrayvec::ArrayString;
use std::fmt;

/// The first or the second of two texts.
#[derive(Clone, Copy, Debug, PartialEq, Eq)]
pub enum Side {
    First,
    Second,
}

/// The most bytes of a subject that are shown.
pub const MOST_SHOWN: usize = 128;

/// A subject as it is shown, with a sign behind it where not all of it is.
pub type Shown = ArrayString<129>;

/// What is wrong with a text.
#[derive(Clone, Copy, Debug, PartialEq, Eq)]
pub enum Flaw {
    /// The first line is no heading of a report.
    Heading,
    /// There is no line `end`.
    End,
    /// More lines follow the line `end`.
    GoesOn,
    /// The two reports have different versions.
    Versions { first: Version, second: Version },
    /// A line, by its number from 1, is of an entry whose place does not rise.
    Order { line: usize, subject: Shown },
    /// A line, by its number from 1, has other facts than an earlier one of its subject.
    Otherwise { line: usize, subject: Shown },
}

/// Why texts are not two reports: the first flaw of one of them. Its text is what a line for
/// standard error says of it.
#[derive(Clone, Copy, Debug, PartialEq, Eq)]
pub struct Refusal {
    pub side: Side,
    pub flaw: Flaw,
}

impl Side {
    fn name(self) -> &'static str
        ensures { result.now ≡ side_name self }
    {
        match self {
            Side::First => "first",
            Side::Second => "second",
        }
    }
}

impl fmt::Display for Refusal {
    ghost output = { λ why. Some (refusal_text why) };

    fn fmt<W: fmt::Write>(&self, f: &mut fmt::Formatter<W>) -> fmt::Result {
        let side = self.side.name();
        match self.flaw {
            Flaw::Heading => write!(f, "the {side} does not begin with uring-report 1"),
            Flaw::End => match self.side {
                Side::First => f.write_str("the first has no line end"),
                Side::Second => f.write_str("the second has no end"),
            },
            Flaw::GoesOn => write!(f, "there is text after the end of the {side}"),
            Flaw::Versions { first, second } => {
                let (first, second) = (first.number(), second.number());
                write!(
                    f,
                    "the first is uring-report {first}, the second uring-report {second}"
                )
            }
            Flaw::Order { line, subject } => {
                let subject = subject.as_str();
                write!(f, "line {line} of the {side} is out of order at {subject}")
            }
            Flaw::Otherwise { line, subject } => {
                let subject = subject.as_str();
                write!(
                    f,
                    "line {line} of the {side} contradicts an earlier one about {subject}"
                )
            }
        }
    }
}

/// A byte as it is shown: a sign for one that is no visible character of ASCII, nor a space.
fn shown_byte(byte: u8) -> u8
    ensures { result ≡ shown_byte byte }
{
    if byte >= 0x20 && byte <= 0x7e {
        byte
    } else {
        b'?'
    }
}

/// The first bytes of a subject.
pub(crate) fn shown(subject: &[u8]) -> Shown
    ensures { result.bytes ≡ shown_subject subject.now }
{
    let mut text = Shown::new();
    for byte in &subject[..subject.len().min(MOST_SHOWN)] {
        text.push(char::from(shown_byte(*byte)));
    }
    if subject.len() > MOST_SHOWN {
        text.push('+');
    }
    text
}
