//! A line of numbers that places use.
ghost use Rattle.std.specs.Prelude.{◌≡◌, ◌<◌, ℕ, List, OnOk, suc, if◌then◌else◌};
ghost use Rattle.use_line.specs.Known.{AddsTold, HasRead, Keeps, known_at, no_uses, read_by};
ghost use Rattle.use_line.specs.Known.{written_at};
ghost use Rattle.use_line.specs.Spans.{within, written_by};

use crate::ranges::Ranges;
use crate::spots::Spots;
use std::alloc::{AllocError, Global};
use std::marker::Model;

/// The numbers below this one are kept one by one.
const SINGLE: u128 = 1 << 76;

/// A place's use of the numbers from `low` up to `high`.
#[derive(Clone, Copy)]
pub struct Span {
    pub low: u128,
    pub high: u128,
    pub written: bool,
}

/// Of each number, which place wrote it last, and which have read it since.
///
/// Numbers below 2^76 are kept one by one, in 4,096 rows: each row up to the last number that was
/// used. All others are kept in ranges.
#[derive(Drop)]
pub struct Line {
    spots: Spots,
    ranges: Ranges,
}

impl Model for Line {
    ghost use Rattle.use_line.specs.Known.{Uses};

    ghost Value = { Uses };

    ghost view = { λ l. record { spots = l.spots; ranges = l.ranges } };
}

impl Line {
    /// No place has used any number.
    pub fn new(alloc: Global) -> Self
        ensures { result ≡ no_uses }
    {
        Line {
            spots: Spots::new(alloc),
            ranges: Ranges::new(alloc),
        }
    }

    /// Adds those for whom a place waits directly by one of its ranges.
    pub fn tell(
        &self,
        alloc: Global,
        span: &Span,
        own: &[Span],
        told: &mut Vec<u32>,
    ) -> Result<(), AllocError>
        requires { span.now.low < span.now.high }
        ensures { OnOk result (AddsTold self.now own.now span.now.written span.now.low span.now.high
            told.old.items told.new.items) }
    {
        let mut number = span.low;
        while number < span.high && number < SINGLE {
            self.spots.tell(number, span.written, own, told)?;
            number += 1;
        }
        if number < span.high {
            let rest = Span {
                low: number,
                high: span.high,
                written: span.written,
            };
            return self.ranges.tell(alloc, &rest, own, told);
        }
        Ok(())
    }

    /// Adds a place to those that have read the numbers of a range.
    fn read(&mut self, alloc: Global, place: u32, low: u128, high: u128) -> Result<(), AllocError>
        ensures { OnOk result ((b : ℕ) → HasRead (known_at self.old b) (known_at self.new b)
            (within low high b) place) }
    {
        let mut number = low;
        while number < high && number < SINGLE {
            self.spots.read(alloc, place, number)?;
            number += 1;
        }
        if number < high {
            return self.ranges.read(alloc, place, number, high);
        }
        Ok(())
    }

    /// Makes a place the one that wrote the numbers of a range.
    fn write(&mut self, alloc: Global, place: u32, low: u128, high: u128) -> Result<(), AllocError>
        ensures { OnOk result ((b : ℕ) → known_at self.new b
            ≡ (if within low high b then written_at place else known_at self.old b)) }
    {
        let mut number = low;
        while number < high && number < SINGLE {
            self.spots.write(alloc, place, number)?;
            number += 1;
        }
        if number < high {
            return self.ranges.write(place, number, high);
        }
        Ok(())
    }

    /// Adds a place to those that have read what its ranges have that it only reads.
    fn read_all(&mut self, alloc: Global, place: u32, spans: &[Span]) -> Result<(), AllocError>
        ensures { OnOk result ((b : ℕ) → HasRead (known_at self.old b) (known_at self.new b)
            (read_by spans.now b) place) }
    {
        for span in spans {
            if !span.written && span.low < span.high {
                self.read(alloc, place, span.low, span.high)?;
            }
        }
        Ok(())
    }

    /// Makes a place the one that wrote what its ranges have that it writes.
    fn write_all(&mut self, alloc: Global, place: u32, spans: &[Span]) -> Result<(), AllocError>
        ensures { OnOk result ((b : ℕ) → known_at self.new b
            ≡ (if written_by spans.now b then written_at place else known_at self.old b)) }
    {
        for span in spans {
            if span.written && span.low < span.high {
                self.write(alloc, place, span.low, span.high)?;
            }
        }
        Ok(())
    }

    /// Adds the next place, with its ranges.
    ///
    /// # Errors
    ///
    /// Out of memory: then what the line knows is of no use any more.
    pub fn add(&mut self, alloc: Global, place: u32, spans: &[Span]) -> Result<(), AllocError>
        ensures { OnOk result ((all : ℕ → List Span) → all place ≡ spans.now
            → Keeps self.old all place → Keeps self.new all (suc place)) }
    {
        self.read_all(alloc, place, spans)?;
        self.write_all(alloc, place, spans)
    }
}
