//! Paths.
ghost use Rattle.std.specs.Prelude.{◌≡◌};
ghost use Rattle.std.specs.List.{list_all};
ghost use Rattle.trace_format.specs.Paths.{is_name, is_path, parent_of, runs};
ghost use Rattle.trace_format.specs.Sides.{has_zero};

pub(crate) fn has_zero(bytes: &[u8]) -> bool
    ensures { result ≡ has_zero bytes.now }
{
    bytes.iter().any(|b| *b == 0)
}

fn is_name(name: &[u8]) -> bool
    ensures { result ≡ is_name name.now }
{
    if name.is_empty() || name.len() > 255 {
        return false;
    }
    if has_zero(name) {
        return false;
    }
    if name == b".".as_slice() {
        return false;
    }
    name != b"..".as_slice()
}

pub(crate) fn is_path(path: &[u8]) -> bool
    ensures { result ≡ is_path path.now }
{
    if path.is_empty() || path[0] != b'/' || path.len() > 4095 {
        return false;
    }
    are_names(&path[1..])
}

/// Whether each run between slashes is a name.
fn are_names(path: &[u8]) -> bool
    ensures { result ≡ list_all is_name (runs path.now) }
{
    path.split(|b| *b == b'/').all(is_name)
}

#[tactic(auto, using(trace_format::proofs::Parents::one_byte_more))]
pub(crate) fn parent_of(path: &[u8]) -> &[u8]
    ensures { result.now ≡ parent_of path.now }
{
    let mut last = 0;
    for (i, b) in path.iter().enumerate() {
        if *b == b'/' {
            last = i;
        }
    }
    &path[..last]
}
