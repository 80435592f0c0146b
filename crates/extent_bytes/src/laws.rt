//! What calls do together.

ghost use Rattle.extent_bytes.specs.Restored.{PutBackRestores};

/// A range that is cut and put back leaves the list as it was.
pub fn put_back_restores()
    ensures { PutBackRestores }
{}
