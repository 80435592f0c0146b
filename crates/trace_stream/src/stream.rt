//! A trace that is taken from a reader record by record.
ghost use Rattle.std.specs.Prelude.{◌≡◌, ◌+◌, ◌-◌, ◌<◌, ◌^◌, false, length, IfOk, IfErr, IfSome};
ghost use Rattle.std.specs.Prelude.{None, OnOk, Option, Some, List, ℕ};
ghost use Rattle.byte_transfer.specs.Transfer.{Takes};
ghost use Rattle.trace_stream.specs.Held.{HasMore, IsOutside, Stops, Trails, failed};
ghost use Rattle.trace_stream.specs.Streams.{Gives, GivesFault, IsCoreOf, Opens, TellsOfStart};

use crate::fault::StreamFault;
use crate::held::Held;
use crate::parts::{record_on, start_on};
use byte_transfer::Source;
use std::alloc::{AllocError, Global};
use trace_format::{Kind, Series, TraceFault};
use trace_records::{Front, Record, Start, Tally, read_record};

/// The records of a trace of version 3 that is taken from a reader, which stands beside it. It
/// keeps the buffers of two records at most, which these share, and of the start what decides its
/// records.
#[derive(Drop)]
pub struct Stream {
    held: Held,
    core: Start,
    front: Front,
}

/// What of a start decides its records: it has no names and no files.
fn core_of(alloc: Global, start: &Start) -> Result<Start, AllocError>
    ensures { IfOk result (λ core. IsCoreOf core start.now) }
{
    let mut descriptions = Vec::new(alloc);
    descriptions.extend_from_slice(start.descriptions.as_slice())?;
    Ok(Start {
        items: Series::from_vec(Vec::new(alloc)),
        descriptions: Series::from_vec(descriptions),
        table_size: start.table_size,
        descriptors: Series::from_vec(Vec::new(alloc)),
    })
}

/// Whether a byte is held, or the reader has one.
fn has_more<R: Source>(alloc: Global, held: &mut Held, reader: &mut R) -> Result<bool, StreamFault>
    requires { R.failures reader.old < 2 ^ 64 - 1 }
    ensures ok { IfOk result
        (λ more. HasMore more held.old (R.left reader.old) (R.left reader.new)) }
    ensures err { IfErr result IsOutside }
    ensures taken { Takes (R.left reader.old) (R.left reader.new) }
    ensures failures { R.failures reader.new ≡ R.failures reader.old + failed result }
    ensures bound { held.new.place + length held.new.rest < 2 ^ 63 }
{
    if held.rest().is_empty() {
        held.take_on(alloc, reader)
    } else {
        Ok(true)
    }
}

/// Looks for a byte behind the end of a trace.
fn at_end<R: Source>(alloc: Global, held: &mut Held, reader: &mut R) -> Result<(), StreamFault>
    requires { R.failures reader.old < 2 ^ 64 - 1 }
    ensures ok { OnOk result (HasMore false held.old (R.left reader.old) (R.left reader.new)) }
    ensures err { IfErr result (Trails held.old (R.left reader.old) (R.left reader.new)) }
    ensures taken { Takes (R.left reader.old) (R.left reader.new) }
    ensures failures { R.failures reader.new ≡ R.failures reader.old + failed result }
    ensures bound { held.new.place + length held.new.rest < 2 ^ 63 }
{
    let at = held.place();
    if has_more(alloc, held, reader)? {
        return Err(StreamFault::Trace(TraceFault {
            kind: Kind::Trailing,
            at,
        }));
    }
    Ok(())
}

/// Stops at a fault that no byte more changes.
fn stop_at(fault: TraceFault) -> Result<(), StreamFault>
    ensures err { IfErr result (λ e. (left : Option (List ℕ)) → Stops fault left left e) }
    ensures failures { failed result ≡ 0 }
{
    if fault.kind != Kind::Short {
        return Err(StreamFault::Trace(fault));
    }
    Ok(())
}

impl Stream {
    /// The start of a trace, whose first bytes were read ahead, and the stream of its records.
    ///
    /// # Errors
    ///
    /// Read where the reader failed, else the fault of the start.
    pub fn open<R: Source>(
        alloc: Global,
        ahead: Vec<u8>,
        reader: &mut R,
    ) -> Result<(Start, Self), StreamFault>
        requires { R.failures reader.old < 2 ^ 64 - 1 }
        ensures ok { IfOk result (Opens ahead.items (R.left reader.old) (R.left reader.new)) }
        ensures err { IfErr result
            (TellsOfStart ahead.items (R.left reader.old) (R.left reader.new)) }
        ensures taken { Takes (R.left reader.old) (R.left reader.new) }
        ensures failures { R.failures reader.new ≡ R.failures reader.old + failed result }
    {
        let mut held = Held::new(alloc, ahead)?;
        let start = start_on(alloc, &mut held, reader)?;
        // The records are read into other buffers, so that none of them keeps this one.
        held.let_go(alloc)?;
        let core = core_of(alloc, &start)?;
        let stream = Stream {
            held,
            core,
            front: Front::new(alloc),
        };
        Ok((start, stream))
    }

    /// The next record, none where the trace ends and the reader too. After a fault the stream
    /// stands for nothing.
    ///
    /// # Errors
    ///
    /// Read where the reader failed, else the fault behind the records so far.
    pub fn next<R: Source>(
        &mut self,
        alloc: Global,
        reader: &mut R,
    ) -> Result<Option<Record>, StreamFault>
        requires { R.failures reader.old < 2 ^ 64 - 1 }
        ensures ok { IfOk result
            (Gives (R.left reader.old) (R.left reader.new) self.old self.new) }
        ensures err { IfErr result
            (GivesFault (R.left reader.old) (R.left reader.new) self.old) }
        ensures on { IfOk result (λ x. IfSome x (λ _. (self.old.held.place < self.new.held.place)
            × (self.new.held.place < 2 ^ 63))) }
        ensures taken { Takes (R.left reader.old) (R.left reader.new) }
        ensures failures { R.failures reader.new ≡ R.failures reader.old + failed result }
    {
        match record_on(alloc, &self.core, &self.front, &mut self.held, reader)? {
            Some(record) => {
                self.front.add(alloc, &record)?;
                Ok(Some(record))
            }
            None => {
                at_end(alloc, &mut self.held, reader)?;
                Ok(None)
            }
        }
    }

    /// The next record, where it is held whole. It reads nothing. After a fault the stream stands for
    /// nothing.
    ///
    /// # Errors
    ///
    /// The fault behind the records so far, where the bytes that are held have it.
    pub fn next_held(&mut self, alloc: Global) -> Result<Option<Record>, StreamFault>
        ensures some { IfOk result (λ x. IfSome x (λ r. (left : Option (List ℕ))
            → Gives left left self.old self.new (Some r))) }
        ensures none { result ≡ Ok None → self.new ≡ self.old }
        ensures err { IfErr result (λ e. (left : Option (List ℕ))
            → GivesFault left left self.old e) }
        ensures on { IfOk result (λ x. IfSome x (λ _. (self.old.held.place < self.new.held.place)
            × (self.new.held.place < 2 ^ 63))) }
        ensures failures { failed result ≡ 0 }
    {
        if self.held.may_be_whole() {
            self.read_held(alloc)
        } else {
            Ok(None)
        }
    }

    /// The same, by a try to read it.
    fn read_held(&mut self, alloc: Global) -> Result<Option<Record>, StreamFault>
        ensures some { IfOk result (λ x. IfSome x (λ r. (left : Option (List ℕ))
            → Gives left left self.old self.new (Some r))) }
        ensures none { result ≡ Ok None → self.new ≡ self.old }
        ensures err { IfErr result (λ e. (left : Option (List ℕ))
            → GivesFault left left self.old e) }
        ensures on { IfOk result (λ x. IfSome x (λ _. (self.old.held.place < self.new.held.place)
            × (self.new.held.place < 2 ^ 63))) }
        ensures failures { failed result ≡ 0 }
    {
        let place = self.held.place();
        match read_record(alloc, &self.core, &self.front, self.held.slice(), place) {
            Ok((next, count)) => match next {
                Some(record) => {
                    self.held.skip(count);
                    self.front.add(alloc, &record)?;
                    Ok(Some(record))
                }
                None => Ok(None),
            },
            Err(fault) => {
                stop_at(fault)?;
                Ok(None)
            }
        }
    }

    /// The byte behind the records so far, counted from the first of the trace on.
    pub fn place(&self) -> u64
        ensures { result ≡ self.now.held.place }
    {
        self.held.place()
    }

    /// How many places and rings the records so far have.
    pub fn tally(&self) -> Tally
        ensures places { result.places ≡ self.now.front.places }
        ensures rings { result.rings ≡ length self.now.front.rings }
    {
        Tally {
            places: self.front.places(),
            rings: self.front.rings(),
        }
    }
}
