//! Which line of a text makes a byte of its trace.
ghost use Rattle.std.specs.Prelude.{◌≡◌, OnOk};
ghost use Rattle.text_records.specs.Pieces.{left_at, with_piece};

use std::alloc::AllocError;

/// Bytes of a trace that a line makes, behind those of the piece before.
#[derive(Clone, Copy)]
pub(crate) struct Piece {
    /// How many.
    pub len: u128,
    /// How many bytes of the text are left from the first word of the line on.
    pub left: usize,
}

/// The pieces of a trace in order, behind its header.
pub(crate) type Pieces = Vec<Piece>;

/// Adds a piece.
pub(crate) fn add_piece(pieces: &mut Pieces, len: u128, left: usize) -> Result<(), AllocError>
    ensures { OnOk result (pieces.new.items ≡ with_piece pieces.old.items len left) }
{
    pieces.push(Piece { len, left })?;
    Ok(())
}

/// How many bytes of the text are left from the line on that makes a byte.
pub(crate) fn left_at(pieces: &[Piece], at: u64) -> Option<usize>
    ensures { result ≡ left_at at pieces.now }
{
    let mut at = u128::from(at);
    for piece in pieces {
        if at < piece.len {
            return Some(piece.left);
        }
        at -= piece.len;
    }
    None
}
