//! Paths beside an entry.
ghost use Rattle.std.specs.Prelude.{◌≡◌, true};
ghost use Rattle.entry_checks.specs.Check.{old_path, new_path};
ghost use Rattle.trace_format.specs.Sides.{are_two_paths};

/// The first of two paths, behind its length of two bytes.
pub(crate) fn old_path(side: &[u8]) -> &[u8]
    requires { are_two_paths side.now ≡ true }
    ensures { result.now ≡ old_path side.now }
{
    let len = u16::from_le_bytes([side[0], side[1]]) as usize;
    &side[2..2 + len]
}

/// The second of two paths.
pub(crate) fn new_path(side: &[u8]) -> &[u8]
    requires { are_two_paths side.now ≡ true }
    ensures { result.now ≡ new_path side.now }
{
    let len = u16::from_le_bytes([side[0], side[1]]) as usize;
    &side[2 + len..]
}
