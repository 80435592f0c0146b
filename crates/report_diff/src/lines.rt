//! Lines, their words, and what they are about.
ghost use Rattle.std.specs.Prelude.{◌≡◌, ◌≤◌, IfOk};
ghost use Rattle.std.specs.List.{list_any};
ghost use Rattle.std.specs.Str.{bytes_eq};
ghost use Rattle.report_diff.specs.Lines.{first_words, heading_words, kind_of, line_kind, lines};
ghost use Rattle.report_diff.specs.Lines.{section_of, subject, subject_words, texts, words};
ghost use Rattle.report_diff.specs.Places.{is_entry};

use std::alloc::{AllocError, Global};

/// What a line is, by its first word.
#[derive(Clone, Copy, PartialEq, Eq)]
pub(crate) enum Kind {
    /// The heading of a report, a ring or a section, or the end of a report.
    Heading,
    Entry,
    /// A directory, a file or a symbolic link.
    Name,
    Slot,
    Descriptor,
    Buffer,
}

/// A part of a report, with counts of its own.
#[derive(Clone, Copy, PartialEq, Eq)]
pub(crate) enum Section {
    Entries,
    Tree,
    Slots,
    Buffers,
}

impl Kind {
    #[tactic(auto, unfolding(crate::specs::Lines::kind_of))]
    fn of(word: &[u8]) -> Kind
        ensures { result ≡ kind_of word.now }
    {
        if word == b"dir".as_slice() || word == b"file".as_slice() || word == b"link".as_slice() {
            Kind::Name
        } else if word == b"slot".as_slice() {
            Kind::Slot
        } else if word == b"descriptor".as_slice() {
            Kind::Descriptor
        } else if word == b"buffer".as_slice() {
            Kind::Buffer
        } else if is_heading(word) {
            Kind::Heading
        } else {
            Kind::Entry
        }
    }

    /// How many words say what a line is about.
    pub(crate) fn subject_words(self) -> usize
        ensures value { result ≡ subject_words self }
        ensures some { 1 ≤ result }
    {
        match self {
            Kind::Slot | Kind::Buffer => 3,
            Kind::Name | Kind::Descriptor => 2,
            Kind::Heading | Kind::Entry => 1,
        }
    }

    pub(crate) fn is_entry(self) -> bool
        ensures { result ≡ is_entry self }
    {
        match self {
            Kind::Entry => true,
            _ => false,
        }
    }

    /// The section of a line. A heading is in none.
    pub(crate) fn section(self) -> Option<Section>
        ensures { result ≡ section_of self }
    {
        match self {
            Kind::Heading => None,
            Kind::Entry => Some(Section::Entries),
            Kind::Name => Some(Section::Tree),
            Kind::Slot | Kind::Descriptor => Some(Section::Slots),
            Kind::Buffer => Some(Section::Buffers),
        }
    }
}

fn is_heading(word: &[u8]) -> bool
    ensures { result ≡ list_any (bytes_eq word.now) heading_words }
{
    word == b"uring-report".as_slice()
        || word == b"ring".as_slice()
        || word == b"tree".as_slice()
        || word == b"slots".as_slice()
        || word == b"buffers".as_slice()
        || word == b"end".as_slice()
        || word.is_empty()
}

/// The lines of a text.
pub(crate) fn lines(alloc: Global, text: &[u8]) -> Result<Vec<&[u8]>, AllocError>
    ensures { IfOk result (λ parts. texts parts.items ≡ lines text.now) }
{
    text.split(|byte| *byte == b'\n').collect(alloc)
}

/// The words of a line.
pub(crate) fn words(alloc: Global, line: &[u8]) -> Result<Vec<&[u8]>, AllocError>
    ensures { IfOk result (λ parts. texts parts.items ≡ words line.now) }
{
    line.split(|byte| *byte == b' ').collect(alloc)
}

/// The first words of a line, so many.
fn first_words(line: &[u8], count: usize) -> &[u8]
    requires { 1 ≤ count }
    ensures { result.now ≡ first_words count line.now }
{
    let mut spaces = 0;
    for (place, byte) in line.iter().enumerate() {
        if *byte == b' ' {
            spaces += 1;
            if spaces == count {
                return &line[..place];
            }
        }
    }
    line
}

/// What a line is.
#[tactic(auto, unfolding(crate::specs::Lines::line_kind))]
pub(crate) fn line_kind(line: &[u8]) -> Kind
    ensures { result ≡ line_kind line.now }
{
    Kind::of(first_words(line, 1))
}

/// What a line is about.
#[tactic(auto, unfolding(crate::specs::Lines::subject))]
pub(crate) fn subject(line: &[u8]) -> &[u8]
    ensures { result.now ≡ subject line.now }
{
    first_words(line, line_kind(line).subject_words())
}
