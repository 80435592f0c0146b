//! What comparing lines finds, and its text.
ghost use Rattle.std.specs.Prelude.{◌≡◌, ◌++◌, [], List, ℕ, IfOk, OnOk};
ghost use Rattle.report_diff.specs.Differences.{Adds, Holds};
ghost use Rattle.report_diff.specs.Differences.{found_lacking, found_lone, found_pair};
ghost use Rattle.report_diff.specs.Differences.{of_first, of_second, told};
ghost use Rattle.report_diff.specs.Repeats.{IsIndex};

use crate::counting::Counts;
use crate::facts::{lone_outcome, pair_finding};
use crate::index::Index;
use crate::lines::{Section, line_kind, subject};
use std::alloc::{AllocError, Global};

/// How a line compares.
#[derive(Clone, Copy, PartialEq, Eq)]
pub(crate) enum Outcome {
    Equal,
    Different,
    /// It is not compared: its result is not known, or not what it is to be.
    Unchecked,
    /// It is alike, and its result is copied from the trace.
    Given,
}

/// How a line of a section compares.
#[derive(Clone, Copy, PartialEq, Eq)]
pub(crate) struct Finding {
    pub(crate) section: Section,
    pub(crate) outcome: Outcome,
    /// Whether the bytes that an entry read are not compared.
    pub(crate) bytes: bool,
    /// Whether its sum is not compared.
    pub(crate) sum: bool,
    /// Whether it is that of a large file whose bytes are not compared.
    pub(crate) large: bool,
}

/// The counts of what was found so far, and the lines that tell it.
#[derive(Drop)]
pub(crate) struct Told {
    pub(crate) counts: Counts,
    pub(crate) text: Vec<u8>,
}

/// The signs before the lines of the first text, of the second, and before those that are unchecked.
pub(crate) const MINUS: u8 = b'-';

const PLUS: u8 = b'+';

const TILDE: u8 = b'~';

impl Told {
    /// Nothing was found so far.
    pub(crate) fn nothing(alloc: Global) -> Told
        ensures { Holds result [] }
    {
        Told {
            counts: Counts::none(),
            text: Vec::new(alloc),
        }
    }

    pub(crate) fn copied(&self, alloc: Global) -> Result<Told, AllocError>
        ensures counts { IfOk result (λ told. told.counts ≡ self.now.counts) }
        ensures text { IfOk result (λ told. told.text.items ≡ self.now.text.items) }
    {
        Ok(Told {
            counts: self.counts,
            text: Vec::from_slice(alloc, self.text.as_slice())?,
        })
    }

    /// One line behind a sign.
    fn tell(&mut self, sign: u8, line: &[u8]) -> Result<(), AllocError>
        ensures text { OnOk result (self.new.text.items ≡ self.old.text.items
            ++ told sign line.now) }
        ensures counts { self.new.counts ≡ self.old.counts }
    {
        self.text.push(sign)?;
        self.text.push(b' ')?;
        self.text.extend_from_slice(line)?;
        self.text.push(b'\n')?;
        Ok(())
    }

    /// Two lines of one subject.
    pub(crate) fn add_pair(
        &mut self,
        alloc: Global,
        section: Section,
        one: &[u8],
        other: &[u8],
    ) -> Result<(), AllocError>
        ensures { OnOk result (Adds self.old self.new (found_pair section one.now other.now)) }
    {
        let finding = pair_finding(alloc, section, one, other)?;
        self.counts.add(finding)?;
        match finding.outcome {
            Outcome::Equal | Outcome::Given => Ok(()),
            Outcome::Different => {
                self.tell(MINUS, one)?;
                self.tell(PLUS, other)
            }
            Outcome::Unchecked => self.tell(TILDE, other),
        }
    }

    /// A line whose subject the other report lacks: it is told where that report has the section.
    #[tactic(auto, unfolding(crate::specs::Differences::found_lacking))]
    fn add_lacking(
        &mut self,
        alloc: Global,
        sign: u8,
        other: &Index<'_>,
        section: Section,
        line: &[u8],
    ) -> Result<(), AllocError>
        ensures { (text : List (List ℕ)) → IsIndex other.now text
            → OnOk result (Adds self.old self.new
            (found_lacking other.now.end sign text section line.now)) }
    {
        if !other.has_section(section) {
            return Ok(());
        }
        self.add_lone(alloc, sign, other.end, section, line)
    }

    /// A line whose subject the other report lacks, whose entries end there.
    pub(crate) fn add_lone(
        &mut self,
        alloc: Global,
        sign: u8,
        end: Option<u64>,
        section: Section,
        line: &[u8],
    ) -> Result<(), AllocError>
        ensures { OnOk result (Adds self.old self.new (found_lone end sign section line.now)) }
    {
        let outcome = lone_outcome(alloc, end, line)?;
        self.counts.add(Finding {
            section,
            outcome,
            bytes: false,
            sum: false,
            large: false,
        })?;
        match outcome {
            Outcome::Equal | Outcome::Given => Ok(()),
            Outcome::Different => self.tell(sign, line),
            Outcome::Unchecked => self.tell(TILDE, line),
        }
    }

    /// A line of the first report, beside the second's line of its subject.
    #[tactic(auto, unfolding(crate::specs::Differences::of_first))]
    pub(crate) fn add_first(
        &mut self,
        alloc: Global,
        second: &Index<'_>,
        line: &[u8],
    ) -> Result<(), AllocError>
        ensures { (text : List (List ℕ)) → IsIndex second.now text
            → OnOk result (Adds self.old self.new (of_first second.now.end text line.now)) }
    {
        let Some(section) = line_kind(line).section() else {
            return Ok(());
        };
        match second.line_about(subject(line)) {
            Some(other) => self.add_pair(alloc, section, line, other),
            None => self.add_lacking(alloc, MINUS, second, section, line),
        }
    }

    /// A line of the second report: nothing where the first has one of its subject.
    #[tactic(auto, unfolding(crate::specs::Differences::of_second))]
    pub(crate) fn add_second(
        &mut self,
        alloc: Global,
        first: &Index<'_>,
        line: &[u8],
    ) -> Result<(), AllocError>
        ensures { (text : List (List ℕ)) → IsIndex first.now text
            → OnOk result (Adds self.old self.new (of_second first.now.end text line.now)) }
    {
        let Some(section) = line_kind(line).section() else {
            return Ok(());
        };
        match first.line_about(subject(line)) {
            Some(_) => Ok(()),
            None => self.add_lacking(alloc, PLUS, first, section, line),
        }
    }
}
