//! A long text in pieces, none of which is copied to lie behind another.
ghost use Rattle.std.specs.Prelude.{◌≡◌, IfOk};
ghost use Rattle.std.specs.List.{concat};

use std::alloc::{AllocError, Global};
use std::marker::Model;

/// A piece of a text. Contracts see its bytes.
#[derive(Drop)]
pub struct Piece {
    pub(crate) text: Vec<u8>,
}

impl Model for Piece {
    ghost use Rattle.std.specs.Prelude.{List, ℕ};

    ghost Value = { List ℕ };

    ghost view = { λ p. p.text.items };
}

impl Piece {
    /// Its bytes.
    pub fn bytes(&self) -> &[u8]
        ensures { result.now ≡ self.now }
    {
        self.text.as_slice()
    }
}

/// A text that is kept in pieces. Contracts see the whole text.
#[derive(Drop)]
pub struct Pieces {
    pub(crate) pieces: Vec<Piece>,
}

impl Model for Pieces {
    ghost use Rattle.std.specs.Prelude.{List, ℕ};
    ghost use Rattle.std.specs.List.{concat};

    ghost Value = { List ℕ };

    ghost view = { λ p. concat p.pieces.items };
}

impl Pieces {
    /// A text that is one piece.
    ///
    /// # Errors
    ///
    /// Out of memory.
    pub fn of_text(alloc: Global, text: Vec<u8>) -> Result<Self, AllocError>
        ensures { IfOk result (λ pieces. pieces ≡ text.items) }
    {
        let mut pieces = Vec::new(alloc);
        pieces.push(Piece { text })?;
        Ok(Pieces { pieces })
    }

    /// The pieces, in order.
    pub fn pieces(&self) -> &[Piece]
        ensures { concat result.now ≡ self.now }
    {
        self.pieces.as_slice()
    }

    /// The text as one piece.
    ///
    /// # Errors
    ///
    /// Out of memory.
    pub fn joined(&self, alloc: Global) -> Result<Vec<u8>, AllocError>
        ensures { IfOk result (λ text. text.items ≡ self.now) }
    {
        let mut text = Vec::new(alloc);
        for piece in &self.pieces {
            text.extend_from_slice(piece.bytes())?;
        }
        Ok(text)
    }
}
