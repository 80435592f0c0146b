//! The lines of a text by their subjects.
ghost use Rattle.std.specs.Prelude.{◌≡◌, ◌≤◌, ◌^◌, ◌∷◌, ◌++◌, IfErr, IfOk, List, None, OnOk, [], ℕ, is_some};
ghost use Rattle.std.specs.Prelude.{not};
ghost use Rattle.std.specs.Option.{option_map};
ghost use Rattle.report_diff.specs.Differences.{has_section};
ghost use Rattle.report_diff.specs.Lines.{line_about, texts};
ghost use Rattle.report_diff.specs.Merging.{TellsSaid};
ghost use Rattle.report_diff.specs.Repeats.{IsIndex, once, otherwise, says_otherwise};

use crate::comparing::DiffFault;
use crate::facts::have_same_facts;
use crate::lines::{Section, line_kind, subject};
use crate::refusal::{Flaw, Refusal, Side, shown};
use std::alloc::{AllocError, Global};
use std::collections::BTreeMap;

/// The first line of a text about each subject.
#[derive(Drop)]
pub(crate) struct Index<'a> {
    known: BTreeMap<&'a [u8], &'a [u8]>,
    lines: Vec<&'a [u8]>,
    // Where the entries of the text end, of two of which one was cut off.
    pub(crate) end: Option<u64>,
}

impl<'a> Index<'a> {
    /// The index of a text, which is refused where a line has other facts than an earlier one of
    /// its subject. So many lines were taken out before the one that may be told.
    pub(crate) fn of(
        alloc: Global,
        side: Side,
        skipped: usize,
        end: Option<u64>,
        lines: &[&'a [u8]],
    ) -> Result<Index<'a>, DiffFault>
        requires { skipped ≤ 2 ^ 62 }
        ensures index { IfOk result (λ index. IsIndex index (texts lines.now)) }
        ensures end { IfOk result (λ index. index.end ≡ end) }
        ensures agrees { OnOk result (otherwise (texts lines.now) ≡ None) }
        ensures err { IfErr result (TellsSaid side skipped (texts lines.now)) }
    {
        let mut index = Index {
            known: BTreeMap::new(alloc),
            lines: Vec::new(alloc),
            end,
        };
        for (place, line) in lines.iter().enumerate() {
            if !index.add(alloc, line)? {
                let flaw = Flaw::Otherwise {
                    line: place + 1 + skipped,
                    subject: shown(subject(line)),
                };
                return Err(DiffFault::Refused(Refusal { side, flaw }));
            }
        }
        Ok(index)
    }

    /// Adds a line that follows those of a text. Whether it says nothing otherwise than they do.
    #[tactic(auto, unfolding(crate::specs::Repeats::says_otherwise))]
    fn add(&mut self, alloc: Global, line: &'a [u8]) -> Result<bool, AllocError>
        ensures index { (text : List (List ℕ)) → IsIndex self.old text
            → OnOk result (IsIndex self.new (text ++ line.now ∷ [])) }
        ensures agrees { (text : List (List ℕ)) → IsIndex self.old text
            → IfOk result (λ agrees. agrees ≡ not (says_otherwise text line.now)) }
        ensures end { self.new.end ≡ self.old.end }
    {
        let about = subject(line);
        match self.line_about(about) {
            Some(first) => {
                Ok(line_kind(line).section().is_none() || have_same_facts(alloc, first, line)?)
            }
            None => {
                self.known.insert(about, line)?;
                self.lines.push(line)?;
                Ok(true)
            }
        }
    }

    /// The first line about each subject, in their order.
    pub(crate) fn lines(&self) -> &[&'a [u8]]
        ensures { (text : List (List ℕ)) → IsIndex self.now text → texts result.now ≡ once text }
    {
        self.lines.as_slice()
    }

    /// The first line about a subject.
    pub(crate) fn line_about(&self, about: &[u8]) -> Option<&'a [u8]>
        ensures { (text : List (List ℕ)) → IsIndex self.now text
            → option_map (λ line. line.now) result ≡ line_about text about.now }
    {
        self.known.get(about).copied()
    }

    /// Whether the text has a section, by its heading. Each has entries.
    #[tactic(auto, unfolding(crate::specs::Differences::has_section))]
    pub(crate) fn has_section(&self, section: Section) -> bool
        ensures { (text : List (List ℕ)) → IsIndex self.now text → result
            ≡ has_section text section }
    {
        match section {
            Section::Entries => true,
            Section::Tree => self.line_about(b"tree").is_some(),
            Section::Slots => self.line_about(b"slots").is_some(),
            Section::Buffers => self.line_about(b"buffers").is_some(),
        }
    }
}
