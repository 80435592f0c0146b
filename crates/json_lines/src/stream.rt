//! A text that comes in pieces, as objects.
ghost use Rattle.std.specs.Prelude.{◌≡◌, ◌++◌, [], List, ℕ, IfOk, OnOk, true};
ghost use Rattle.std.specs.List.{list_all};
ghost use Rattle.json_lines.specs.Lines.{is_inside, json_lines};

use crate::lines::{first_place, push_line};
use std::alloc::{AllocError, Global};

/// A reader of a text that comes in pieces. It keeps the line that has begun and has not ended yet.
#[derive(Drop)]
pub struct JsonLines {
    alloc: Global,
    line: Vec<u8>,
    ghost unbroken: { list_all is_inside line.items ≡ true },
}

impl JsonLines {
    /// No text so far.
    pub fn new(alloc: Global) -> Self
        ensures { result.line.items ≡ [] }
    {
        JsonLines {
            alloc,
            line: Vec::new(alloc),
        }
    }

    /// Takes the next piece, and adds the objects of the lines that end in it.
    ///
    /// # Errors
    ///
    /// Out of memory.
    pub fn push(&mut self, json: &mut Vec<u8>, piece: &[u8]) -> Result<(), AllocError>
        ensures { (more : List ℕ) → OnOk result
            (json.old.items ++ json_lines (self.old.line.items ++ (piece.now ++ more))
            ≡ json.new.items ++ json_lines (self.new.line.items ++ more)) }
    {
        let mut rest = piece;
        let mut end = first_place(rest, b'\n');
        while end < rest.len() {
            self.line.extend_from_slice(&rest[..end])?;
            push_line(self.alloc, json, self.line.as_slice())?;
            self.line.clear();
            rest = &rest[end + 1..];
            end = first_place(rest, b'\n');
        }
        self.line.extend_from_slice(rest)
    }

    /// Adds the object of the last line, where no line feed ends it.
    ///
    /// # Errors
    ///
    /// Out of memory.
    pub fn end(self, json: &mut Vec<u8>) -> Result<(), AllocError>
        ensures { OnOk result (json.new.items
            ≡ json.old.items ++ json_lines self.line.items) }
    {
        push_line(self.alloc, json, self.line.as_slice())
    }
}

/// The objects of the lines of a text.
///
/// # Errors
///
/// Out of memory.
pub fn json_of(alloc: Global, text: &[u8]) -> Result<Vec<u8>, AllocError>
    ensures { IfOk result (λ json. json.items ≡ json_lines text.now) }
{
    let mut json = Vec::new(alloc);
    let mut lines = JsonLines::new(alloc);
    lines.push(&mut json, text)?;
    lines.end(&mut json)?;
    Ok(json)
}
