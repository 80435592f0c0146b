//! Entries that come first in two reports of version 2, compared as they come.
ghost use Rattle.std.specs.Prelude.{◌≡◌, ◌∷◌, ◌++◌, ◌<◌, ◌^◌, [], List, ℕ, IfOk, OnOk, None, Ok};
ghost use Rattle.std.specs.Prelude.{◌+◌, Some, false, max, true};
ghost use Rattle.std.specs.List.{list_any};
ghost use Rattle.report_diff.specs.Merging.{Awaits, Follows, IsNext, Merges, Offers, is_feed, passed_lines};
ghost use Rattle.report_diff.specs.declared.fronts.Offer.TheVariants.{Ended, Second, Taken};

use crate::fronts::{HEADING, Merging, Offer};
use crate::lines::Section;
use crate::passed::Passed;
use crate::places::{one_more, place_on};
use crate::telling::{MINUS, Told};
use std::alloc::{AllocError, Global};

impl Merging {
    /// The headings of both reports were passed.
    ///
    /// # Errors
    ///
    /// Out of memory.
    pub fn new(alloc: Global) -> Result<Merging, AllocError>
        ensures merges { IfOk result (λ m. Merges m [] [] []) }
        ensures level { IfOk result (λ m. m.from ≡ m.first.next) }
    {
        let mut kept = Vec::from_slice(alloc, HEADING.as_bytes())?;
        kept.push(b'\n')?;
        Ok(Merging {
            first: Passed::heading(),
            second: Passed::heading(),
            from: 0,
            kept,
            gone: 0,
            line: Vec::new(alloc),
            ahead: None,
            told: Told::nothing(alloc),
        })
    }

    /// Takes the next line of the first report, if it can be compared now.
    ///
    /// # Errors
    ///
    /// Out of memory; it can then only be dropped.
    pub fn offer_first(&mut self, alloc: Global, line: &[u8]) -> Result<Offer, AllocError>
        requires { Awaits self.old line.now }
        ensures offer { (first second : List (List ℕ)) → (taken : List ℕ)
            → Merges self.old first second taken
            → IfOk result (λ offer. Offers offer self.new first second taken line.now) }
        ensures same { result ≡ Ok Ended → self.new ≡ self.old }
        ensures on { result ≡ Ok Taken → passed_lines self.new ≡ passed_lines self.old + 1 }
        ensures waits { result ≡ Ok Second → (passed_lines self.new ≡ passed_lines self.old)
            × (self.new.ahead ≡ None) }
    {
        let Some(place) = place_on(self.first.next, line) else {
            return Ok(Offer::Ended);
        };
        match self.ahead {
            Some(other) if other == place => {
                self.add_pair(alloc, line, place)?;
                Ok(Offer::Taken)
            }
            Some(other) if other > place => {
                self.add_lone(alloc, line, place)?;
                Ok(Offer::Taken)
            }
            Some(_) => {
                self.keep()?;
                Ok(Offer::Second)
            }
            None => Ok(Offer::Second),
        }
    }

    /// Compares an entry of the first report with the one of its place in the second.
    fn add_pair(&mut self, alloc: Global, line: &[u8], place: u64) -> Result<(), AllocError>
        requires { place < 2 ^ 32 }
        ensures taken { (first second : List (List ℕ)) → (taken : List ℕ)
            → IsNext self.old line.now place → self.old.ahead ≡ Some place
            → Merges self.old first second taken
            → OnOk result (Merges self.new (first ++ line.now ∷ []) second taken) }
        ensures from { OnOk result (self.new.from ≡ self.new.first.next) }
        ensures lines { OnOk result (passed_lines self.new ≡ passed_lines self.old + 1) }
    {
        self.told
            .add_pair(alloc, Section::Entries, line, self.line.as_slice())?;
        self.ahead = None;
        self.gone = one_more(self.gone)?;
        self.from = place + 1;
        self.first.on(place)?;
        Ok(())
    }

    /// Tells of an entry of the first report whose place the second has not.
    fn add_lone(&mut self, alloc: Global, line: &[u8], place: u64) -> Result<(), AllocError>
        requires { place < 2 ^ 32 }
        ensures taken { (first second : List (List ℕ)) → (taken : List ℕ) → (other : ℕ)
            → IsNext self.old line.now place → self.old.ahead ≡ Some other → place < other
            → Merges self.old first second taken
            → OnOk result (Merges self.new (first ++ line.now ∷ []) second taken) }
        ensures from { OnOk result (self.new.from ≡ self.new.first.next) }
        ensures lines { OnOk result (passed_lines self.new ≡ passed_lines self.old + 1) }
    {
        self.told
            .add_lone(alloc, MINUS, None, Section::Entries, line)?;
        self.from = place + 1;
        self.first.on(place)?;
        Ok(())
    }

    /// Keeps the line that is ahead, where the first report has not its place.
    fn keep(&mut self) -> Result<(), AllocError>
        ensures kept { (first second : List (List ℕ)) → (taken : List ℕ) → (other : ℕ)
            → self.old.ahead ≡ Some other → Merges self.old first second taken
            → OnOk result (Merges self.new first second taken) }
        ensures ahead { OnOk result (self.new.ahead ≡ None) }
        ensures from { OnOk result (self.new.from ≡ max self.old.from self.old.second.next) }
        ensures first { OnOk result (self.new.first ≡ self.old.first) }
        ensures second { OnOk result (self.new.second ≡ self.old.second) }
    {
        self.kept.extend_from_slice(self.line.as_slice())?;
        self.kept.push(b'\n')?;
        self.ahead = None;
        self.from = self.from.max(self.second.next);
        Ok(())
    }

    /// Takes the next line of the second report, where [`Merging::offer_first`] asks for it, and
    /// tells whether it was taken: another does not go on.
    ///
    /// # Errors
    ///
    /// Out of memory; it can then only be dropped.
    pub fn offer_second(&mut self, line: &[u8]) -> Result<bool, AllocError>
        requires ahead { self.old.ahead ≡ None }
        requires unbroken { list_any is_feed line.now ≡ false }
        ensures follows { (first second : List (List ℕ)) → (taken : List ℕ)
            → Merges self.old first second taken
            → IfOk result (λ on. Follows on self.new first second taken line.now) }
        ensures first { OnOk result (self.new.first ≡ self.old.first) }
        ensures from { OnOk result (self.new.from ≡ self.old.from) }
        ensures on { result ≡ Ok true → passed_lines self.new ≡ passed_lines self.old + 1 }
        ensures same { result ≡ Ok false → self.new ≡ self.old }
    {
        let Some(place) = place_on(self.second.next, line) else {
            return Ok(false);
        };
        self.line.clear();
        self.line.extend_from_slice(line)?;
        self.ahead = Some(place);
        self.second.on(place)?;
        Ok(true)
    }

    /// What was found and was not taken yet.
    pub fn text(&self) -> &[u8]
        ensures { result.now ≡ self.now.told.text.items }
    {
        self.told.text.as_slice()
    }

    /// The text was taken.
    pub fn take(&mut self)
        ensures taken { (first second : List (List ℕ)) → (taken : List ℕ)
            → Merges self.old first second taken
            → Merges self.new first second (taken ++ self.old.told.text.items) }
        ensures first { self.new.first ≡ self.old.first }
        ensures from { self.new.from ≡ self.old.from }
        ensures ahead { self.new.ahead ≡ self.old.ahead }
        ensures lines { passed_lines self.new ≡ passed_lines self.old }
        ensures second { self.new.second.next ≡ self.old.second.next }
        ensures text { self.new.told.text.items ≡ [] }
    {
        self.told.text.clear();
    }
}
