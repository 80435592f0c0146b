//! The lines of entries, in a list for each ring or in one, as they come.
ghost use Rattle.std.specs.Prelude.{◌≡◌, ◌++◌, IfOk, OnOk, length, slice_get};
ghost use Rattle.std.specs.List.{concat};
ghost use Rattle.recording.specs.Steps.{places, step_meant};
ghost use Rattle.replay_report.specs.Report.{heading, title};
ghost use Rattle.replay_report.specs.RingTexts.{headings, texts_below, with_line};

use crate::answer::Answer;
use crate::entries::push_entry;
use crate::pieces::{Piece, Pieces};
use crate::showing::Lines;
use op_meaning::Replies;
use recording::{Action, Recording, Step};
use std::alloc::{AllocError, Global};
use std::marker::Model;

/// The text of each list so far: its heading, and the lines of those of its entries that have run.
/// Contracts see the texts.
#[derive(Drop)]
pub struct RingTexts {
    texts: Vec<Piece>,
}

impl Model for RingTexts {
    ghost use Rattle.std.specs.Prelude.{List, ℕ};

    ghost Value = { List (List ℕ) };

    ghost view = { λ r. r.texts.items };
}

/// The heading of a list: that of a ring.
fn heading(alloc: Global, lines: Lines, list: usize) -> Result<Piece, AllocError>
    ensures { IfOk result (λ piece. piece ≡ heading lines list) }
{
    if lines.in_order {
        return Ok(Piece {
            text: Vec::new(alloc),
        });
    }
    let text = format!(in alloc; "ring {list}\n")?;
    Ok(Piece {
        text: text.into_bytes(),
    })
}

impl RingTexts {
    /// The headings of a recording's lists.
    ///
    /// # Errors
    ///
    /// Out of memory.
    pub fn new(alloc: Global, trace: &Recording, lines: Lines) -> Result<Self, AllocError>
        ensures { IfOk result (λ texts. texts ≡ headings lines trace.now) }
    {
        let mut texts = Vec::new(alloc);
        for list in 0..lines.count(trace) {
            texts.push(heading(alloc, lines, list)?)?;
        }
        Ok(RingTexts { texts })
    }

    /// Adds the line of a place that has run, if it submitted an entry.
    ///
    /// # Errors
    ///
    /// Out of memory.
    #[inline(always)]
    pub fn push(
        &mut self,
        place: u32,
        step: &Step<'_>,
        answer: &Answer<'_>,
        lines: Lines,
    ) -> Result<(), AllocError>
        ensures { OnOk result (self.new
            ≡ with_line lines place (step_meant step.now) answer.now self.old) }
    {
        if let Action::Submit(entry) = &step.action {
            let list = if lines.in_order { 0 } else { step.ring };
            if let Some(piece) = self.texts.get_mut(list as usize) {
                push_entry(&mut piece.text, place, step.ring, entry, answer, lines)?;
            }
        }
        Ok(())
    }

    /// The texts of a recording's lists, once all places have run and answered so.
    ///
    /// # Errors
    ///
    /// Out of memory.
    pub fn of(
        alloc: Global,
        trace: &Recording,
        replies: &Replies,
        lines: Lines,
    ) -> Result<Self, AllocError>
        requires { length replies.now ≡ places trace.now }
        ensures { IfOk result (λ texts. texts
            ≡ texts_below trace.now (slice_get replies.now) lines (places trace.now)) }
    {
        let mut texts = Self::new(alloc, trace, lines)?;
        for place in 0..trace.places() {
            let reply = replies.get(place as usize);
            texts.push(place, &trace.step(place), &Answer::of_kept(&reply), lines)?;
        }
        Ok(texts)
    }

    /// The report of these texts and of what is shown of the world.
    ///
    /// # Errors
    ///
    /// Out of memory.
    pub(crate) fn with_world(
        self,
        alloc: Global,
        lines: Lines,
        world: Vec<u8>,
    ) -> Result<Pieces, AllocError>
        ensures { IfOk result (λ text. text ≡ title lines ++ concat self ++ world.items) }
    {
        let mut pieces = self.texts;
        let head = Vec::from_slice(alloc, lines.title().as_bytes())?;
        pieces.insert(0, Piece { text: head })?;
        pieces.push(Piece { text: world })?;
        Ok(Pieces { pieces })
    }
}
