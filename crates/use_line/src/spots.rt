//! Numbers that are used one by one.
ghost use Rattle.std.specs.Prelude.{◌≡◌, ◌<◌, ◌^◌, ◌||◌, ◌==◌, ℕ, [], true, OnOk, if◌then◌else◌, length};
ghost use Rattle.use_line.specs.Known.{HasRead, is_among, nothing_known, row_at, spot_at, told_of, written_at};
ghost use Rattle.use_line.specs.Spans.{written_by};

use crate::line::Span;
use crate::ranges::{tell_place, tell_writer, writes};
use std::alloc::{AllocError, Global};
use std::marker::Model;

/// How many numbers a row has.
const PLACES: u128 = 1 << 64;

/// Which place wrote a number last, and which have read it since.
#[derive(Drop)]
struct Spot {
    writer: Option<u32>,
    readers: Vec<u32>,
}

impl Model for Spot {
    ghost use Rattle.use_line.specs.Known.{Known};

    ghost Value = { Known };

    ghost view = { λ s. (s.writer, s.readers.items) };
}

impl Spot {
    fn new(alloc: Global) -> Self
        ensures { result ≡ nothing_known }
    {
        Spot {
            writer: None,
            readers: Vec::new(alloc),
        }
    }

    /// Adds those for whom a place with some ranges waits by a use of this number.
    fn tell(
        &self,
        number: u128,
        written: bool,
        own: &[Span],
        told: &mut Vec<u32>,
    ) -> Result<(), AllocError>
        ensures { OnOk result ((j : ℕ) → is_among told.new.items j ≡ (is_among told.old.items j
            || told_of self.now written (written_by own.now number) j)) }
    {
        if self.readers.is_empty() {
            return tell_writer(self.writer, told);
        }
        if written {
            told.extend_from_slice(self.readers.as_slice())?;
            return Ok(());
        }
        if self.writer.is_none() || writes(own, number) {
            return Ok(());
        }
        tell_writer(self.writer, told)
    }

    fn read(&mut self, place: u32) -> Result<(), AllocError>
        ensures { OnOk result (HasRead self.old self.new true place) }
    {
        tell_place(place, &mut self.readers)
    }

    fn write(&mut self, place: u32)
        ensures { self.new ≡ written_at place }
    {
        self.writer = Some(place);
        self.readers.clear();
    }
}

/// Some numbers from 0 on.
#[derive(Drop)]
struct Row {
    spots: Vec<Spot>,
}

impl Model for Row {
    ghost use Rattle.std.specs.Prelude.{List};
    ghost use Rattle.use_line.specs.Known.{Known};

    ghost Value = { List Known };

    ghost view = { λ r. r.spots.items };
}

impl Row {
    /// Has at least one number more than an index.
    fn grow(&mut self, alloc: Global, index: usize) -> Result<(), AllocError>
        ensures same { OnOk result ((i : ℕ) → row_at self.new i ≡ row_at self.old i) }
        ensures long { OnOk result (index < length self.new) }
    {
        while self.spots.len() <= index {
            self.spots.push(Spot::new(alloc))?;
        }
        Ok(())
    }

    fn read(&mut self, alloc: Global, place: u32, index: usize) -> Result<(), AllocError>
        ensures { OnOk result ((i : ℕ) → HasRead (row_at self.old i) (row_at self.new i) (i == index) place) }
    {
        self.grow(alloc, index)?;
        self.spots[index].read(place)
    }

    fn write(&mut self, alloc: Global, place: u32, index: usize) -> Result<(), AllocError>
        ensures { OnOk result ((i : ℕ) → row_at self.new i
            ≡ (if i == index then written_at place else row_at self.old i)) }
    {
        self.grow(alloc, index)?;
        self.spots[index].write(place);
        Ok(())
    }
}

/// Numbers in rows.
#[derive(Drop)]
pub(crate) struct Spots {
    rows: Vec<Row>,
}

impl Model for Spots {
    ghost use Rattle.std.specs.Prelude.{List};
    ghost use Rattle.use_line.specs.Known.{Known};

    ghost Value = { List (List Known) };

    ghost view = { λ s. s.rows.items };
}

impl Spots {
    /// No number is used.
    pub(crate) fn new(alloc: Global) -> Self
        ensures { result ≡ [] }
    {
        Spots {
            rows: Vec::new(alloc),
        }
    }

    /// Adds those for whom a place with some ranges waits by a use of a number.
    pub(crate) fn tell(
        &self,
        number: u128,
        written: bool,
        own: &[Span],
        told: &mut Vec<u32>,
    ) -> Result<(), AllocError>
        requires { number < 2 ^ 76 }
        ensures { OnOk result ((j : ℕ) → is_among told.new.items j ≡ (is_among told.old.items j
            || told_of (spot_at self.now number) written (written_by own.now number) j)) }
    {
        let Some(row) = self.rows.get((number / PLACES) as usize) else {
            return Ok(());
        };
        let Some(spot) = row.spots.get((number % PLACES) as usize) else {
            return Ok(());
        };
        spot.tell(number, written, own, told)
    }

    /// Has at least one row more than an index.
    fn grow(&mut self, alloc: Global, index: usize) -> Result<(), AllocError>
        ensures same { OnOk result ((b : ℕ) → spot_at self.new b ≡ spot_at self.old b) }
        ensures long { OnOk result (index < length self.new) }
    {
        while self.rows.len() <= index {
            self.rows.push(Row {
                spots: Vec::new(alloc),
            })?;
        }
        Ok(())
    }

    /// Adds a place to those that have read a number.
    pub(crate) fn read(&mut self, alloc: Global, place: u32, number: u128) -> Result<(), AllocError>
        requires { number < 2 ^ 76 }
        ensures { OnOk result ((b : ℕ) → HasRead (spot_at self.old b) (spot_at self.new b) (b == number) place) }
    {
        let row = (number / PLACES) as usize;
        self.grow(alloc, row)?;
        self.rows[row].read(alloc, place, (number % PLACES) as usize)
    }

    /// Makes a place the one that wrote a number.
    pub(crate) fn write(
        &mut self,
        alloc: Global,
        place: u32,
        number: u128,
    ) -> Result<(), AllocError>
        requires { number < 2 ^ 76 }
        ensures { OnOk result ((b : ℕ) → spot_at self.new b
            ≡ (if b == number then written_at place else spot_at self.old b)) }
    {
        let row = (number / PLACES) as usize;
        self.grow(alloc, row)?;
        self.rows[row].write(alloc, place, (number % PLACES) as usize)
    }
}
