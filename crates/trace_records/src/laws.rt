//! Laws of the format.

ghost use Rattle.trace_records.specs.Spelling.{HasOneSpelling};
ghost use Rattle.trace_records.specs.Whole.{SpellsOneTrace, FaultySpellsNone};
ghost use Rattle.trace_records.specs.Whole.{HasOneFault, FaultsStay};

/// Bytes spell one trace at most.
pub fn spells_one_trace()
    ensures { SpellsOneTrace }
{}

/// Bytes that have a fault spell none.
pub fn faulty_spells_none()
    ensures { FaultySpellsNone }
{}

/// Bytes have one fault at most.
pub fn has_one_fault()
    ensures { HasOneFault }
{}

/// A fault other than an end that is too early stays, whatever follows the bytes.
pub fn faults_stay()
    ensures { FaultsStay }
{}

/// A trace has one spelling, the one that is written.
pub fn has_one_spelling()
    ensures { HasOneSpelling }
{}
