//! Why a text is refused.
ghost use Rattle.std.specs.Prelude.{◌≡◌};
ghost use Rattle.text_words.specs.declared.fault.ReadError.TheVariants.{OutOfMemory};

use std::alloc::{AllocError, AllocFailed};
use std::fmt;
use trace_format::Kind;

/// What is wrong with a text, at the word that is named, or at the letter inside it.
#[derive(Clone, Copy, Debug, PartialEq, Eq)]
pub enum Reason {
    /// The first line names no version.
    FirstLine,
    /// The word begins no line, and is no operation.
    Line,
    /// A line of this kind cannot stand behind those above.
    Order,
    /// No `enter` stands above the entry.
    Entry,
    /// It is no number.
    Number,
    /// It is neither a number nor a flag of this field.
    Flag,
    /// The number has more bits than its field.
    Bits(u8),
    /// The same flag stands here twice.
    FlagTwice,
    /// It is no flag, no field of this operation and no string.
    Field,
    /// The field stands here twice.
    FieldTwice,
    /// A letter of a path that has to be escaped, or an escape that is none.
    PathLetter,
    /// The path has more than 65,535 bytes.
    PathLong,
    /// A path is missing.
    Path,
    /// A letter of a string that has to be escaped, or the string does not end.
    Letter,
    /// A backslash in a string with a letter that it has no meaning with.
    Escape,
    /// Digits of a string that are no pairs, or do not end.
    Digits,
    /// It is no string.
    NoString,
    /// The count of a string or of empty slots is none.
    Count,
    /// The bytes were left out by `show --first`.
    Cut,
    /// The bytes of all strings are more than a trace may have.
    Room,
    /// No item above has the path or the number.
    Node,
    /// It is no access of a description.
    Access,
    /// It does not count up: this number is expected.
    Next(u64),
    /// A slot is missing.
    Slot,
    /// It is no list of lengths.
    Lengths,
    /// The word is another than the one that is expected.
    Of,
    /// The number of a buffer is missing.
    Buffer,
    /// The bytes of the entry are told by strings and by their number.
    Both,
    /// It is no error that an entry is refused with.
    Error,
    /// There is one more of its kind than a trace may have.
    TooMany,
    /// It is neither a slot of a ring nor a descriptor.
    File,
    /// It is nothing that a slot or a descriptor may hold.
    Content,
    /// A position is missing.
    Position,
    /// Nothing more is expected on this line.
    End,
    /// The line makes bytes that are no part of a trace.
    Trace(Kind),
}

/// What is wrong, and how many bytes of the text are left from there on.
#[derive(Clone, Copy)]
pub struct Fault {
    pub reason: Reason,
    pub left: usize,
}

/// Why reading stopped.
#[derive(Clone, Copy)]
pub enum ReadError {
    OutOfMemory,
    Fault(Fault),
}

/// The text is refused from there on.
pub fn refused(reason: Reason, left: usize) -> ReadError
    ensures { result ≡ ReadError.Fault (record { reason = reason; left = left }) }
{
    ReadError::Fault(Fault { reason, left })
}

impl From<AllocError> for ReadError {
    ghost from_gives = { λ _ e. e ≡ OutOfMemory };

    fn from(_e: AllocError) -> ReadError {
        ReadError::OutOfMemory
    }
}

impl<T: Drop> From<AllocFailed<T>> for ReadError {
    ghost from_gives = { λ _ e. e ≡ OutOfMemory };

    fn from(_e: AllocFailed<T>) -> ReadError {
        ReadError::OutOfMemory
    }
}

/// What is wrong, where it needs no number.
fn words_of(reason: Reason) -> &'static str {
    match reason {
        Reason::FirstLine => "expected `uring-trace 1`, `uring-trace 2` or `uring-trace 3`",
        Reason::Line => "expected a line of a trace, or an operation",
        Reason::Order => "a line of this kind cannot stand behind those above",
        Reason::Entry => "expected `enter RING` above an entry",
        Reason::Number => "expected a number",
        Reason::Flag => "expected a number or a flag of this field",
        Reason::FlagTwice => "the same flag stands here twice",
        Reason::Field => "expected a flag, a field of this operation or a string",
        Reason::FieldTwice => "this stands here for the second time",
        Reason::PathLetter => "expected a visible character, or `\\xHH` for a byte",
        Reason::PathLong => "expected a path of at most 65535 bytes",
        Reason::Path => "expected a path",
        Reason::Letter => "expected a visible character, an escape or a quotation mark",
        Reason::Escape => "expected one of \\n \\t \\r \\0 \\\" \\\\ \\xHH",
        Reason::Digits => "expected two hexadecimal digits or a quotation mark",
        Reason::NoString => "expected a string",
        Reason::Count => "expected a count from 1 on",
        Reason::Cut => "the bytes here were left out by `show --first`",
        Reason::Room => "expected strings of at most 1073741824 bytes in all",
        Reason::Node => "expected the path of an item above, or `@` and its number",
        Reason::Access => "expected O_RDONLY, O_WRONLY or O_RDWR, perhaps with |O_APPEND",
        Reason::Slot => "expected a slot: a number, `-` or `-*COUNT`",
        Reason::Lengths => "expected lengths, as [4,8]",
        Reason::Of => "expected of=PATH",
        Reason::Buffer => "expected buffer=N",
        Reason::Both => "expected strings or zeros=N, not both",
        Reason::Error => "expected an error from -4095 to -1",
        Reason::TooMany => "there is one more of these than a trace may have",
        Reason::File => "expected a slot or a descriptor: RING:N or fd:N",
        Reason::Content => "expected nothing, path=PATH, of=RING:N, of=fd:N or taken",
        Reason::Position => "expected pos=N",
        Reason::End => "expected the end of the line",
        Reason::Bits(_) | Reason::Next(_) => "expected another number",
        Reason::Trace(kind) => trace_words(kind),
    }
}

/// Why the bytes of a line are no part of a trace.
fn trace_words(kind: Kind) -> &'static str {
    match kind {
        Kind::Path => {
            "Path: expected names of 1 to 255 bytes, one slash apart; an item begins with one"
        }
        Kind::NoParent => "NoParent: expected a line above for the directory of this path",
        Kind::Exists => "Exists: a line above has the same path",
        Kind::Reference => "Reference: a number on this line names nothing above",
        Kind::Side => "Side: the bytes of this entry do not fit it",
        Kind::Overlap => "Overlap: a buffer above has some of these addresses",
        Kind::Limit => "Limit: a number on this line is out of its range",
        Kind::Magic | Kind::Version | Kind::Short | Kind::Trailing | Kind::Memory => {
            "expected the lines of a trace"
        }
    }
}

impl fmt::Display for Reason {
    fn fmt<W: fmt::Write>(&self, f: &mut fmt::Formatter<W>) -> fmt::Result {
        match *self {
            Reason::Bits(bits) => write!(f, "expected a number of at most {bits} bits"),
            Reason::Next(number) => write!(f, "expected the number {number}, which is next"),
            reason => f.write_str(words_of(reason)),
        }
    }
}
